//! The interface of stores of files and directories.
//!
//! [`Store`] is the trait, with a formal meaning: the effect of each call with its result. Code over any
//! store is proved once, from that meaning alone. The stores are in crates above: one in memory, one
//! over a folder of the machine, and one that fails once.
//!
//! ```text
//! let mut sink = store.open_write(path, WriteMode::New, 951_827_696_000)?;
//! sink.write(b"all is well")?;
//! store.finish(sink, 951_827_696_000)?; // milliseconds since 1970
//! let mut source = store.open_read(path, 4)?; // from the fifth octet on
//! let mut buffer = [0u8; 16];
//! holds(rt, source.read(&mut buffer) == Ok(7));
//! ```
#![tactic(auto)]

mod fault;
mod listed;
mod mode;
mod store;

pub use fault::StoreFault;
pub use listed::ListedEntry;
pub use mode::WriteMode;
pub use store::{Sink, Source, Store};
