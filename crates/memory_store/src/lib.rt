//! A store of files and directories in memory.
//!
//! [`MemStore`] is a `Store`. The result and the effect of each call are a function of its contents: a finite map from
//! paths to directories and files, with a limit to the octets of all files together.
//!
//! ```text
//! let mut store = MemStore::new(rt.alloc(), 1_000_000)?; // of at most 1,000,000 octets
//! store.make_dir(path)?; // the path is `/in`
//! holds(rt, store.make_dir(path) == Err(StoreFault::Exists));
//! holds(rt, store.list(path)?.is_empty());
//! holds(rt, store.capacity() == 1_000_000);
//! ```
#![tactic(auto)]

mod ends;
mod entry;
mod files;
mod key;
mod laws;
mod memory;
mod received;
mod renaming;
mod vacancy;
mod writing;

pub use ends::{MemSink, MemSource};
pub use laws::{finish_puts_what_came, more_than_the_capacity_is_full};
pub use memory::MemStore;
