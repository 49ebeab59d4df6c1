//! A store over any other that keeps a record of its last call that counts for an administrator.
//!
//! [`RecordedStore`] makes each call on the store beneath, and returns its result. It records a file that is opened, a
//! directory that is made or removed, a file that is removed and an entry that is renamed, each with a copy of its paths,
//! and a call that is refused for a fault of the machine or for lack of room. Any other call leaves the record as it was.
//!
//! ```text
//! let mut store = RecordedStore::new(rt.alloc(), MemStore::new(rt.alloc(), 1000)?);
//! holds(rt, store.make_dir(path) == Ok(())); // the path is `/in`
//! holds(rt, store.stat(path).is_ok()); // leaves the record
//! match store.take_record() {
//!     Some(StoreRecord::MadeDir(Some(made))) => holds(rt, made.text() == "/in"),
//!     _ => holds(rt, false),
//! }
//! holds(rt, store.take_record().is_none());
//! ```
#![tactic(auto)]

mod record;
mod recorded;

pub use record::StoreRecord;
pub use recorded::{RecordedStore, Recorder};
