//! A store that fails once, for tests of code over stores.
//!
//! [`FailStore`] is a store over any other: it passes some calls, fails the next with `Device`, counts one
//! fault, and passes every call from then on. So code over any store can be tried with each of its calls
//! failing in turn:
//!
//! ```text
//! let mut store = FailStore::new(MemStore::new(rt.alloc(), 1000)?, 0);
//! // the first call fails, and no other, whatever the path
//! holds(rt, store.make_dir(path) == Err(StoreFault::Device));
//! holds(rt, store.make_dir(path) == Ok(()));
//! holds(rt, store.faults() == 1);
//! ```
#![tactic(auto)]

mod fail;

pub use fail::FailStore;
