//! A store of files that are made when they are asked for, such as the time or the rows of a database.
//!
//! A [`Pages`] says which files there are, all of them in the root, and makes each. [`PageStore`] is the store: nothing
//! can be written, made, removed or renamed in it.
//!
//! ```text
//! // the files are `a.txt`, which is `one`, and `b.txt`; the path is `/a.txt`
//! let mut source = store.open_read(path, 1)?; // from the second octet on
//! let mut buffer = [0u8; 16];
//! holds(rt, source.read(&mut buffer) == Ok(2));
//! holds(rt, store.remove_file(path) == Err(StoreFault::Device)); // nothing can be changed
//! ```
#![tactic(auto)]

mod ends;
mod pages;
mod store;

pub use ends::{NoSink, PageSource};
pub use pages::{PageFault, Pages};
pub use store::PageStore;
