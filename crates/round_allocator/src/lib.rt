//! Grants for the leaves of a limit tree, max-min fair in whole octets: the next octet always goes to the leaf
//! with the smallest grant among those with room.
//!
//! ```text
//! let alloc = rt.alloc();
//! let tree = Tree::new(two(alloc)?)?; // a limit of 30 over wants of 50 and 10
//! let (grants, certificate) = allot(alloc, &tree)?; // one grant for each leaf, in octets
//! assert!(rt; grants.as_slice() == [20, 10].as_slice());
//! assert!(rt; check(&tree, &grants, &certificate) == Verdict::Yes); // always
//! ```
#![tactic(auto)]

mod fill;
mod level;
mod named;
mod probe;
mod steps;

pub use level::MAX_PROBES;
pub use named::{allot, allot_counted, deepest_entries};
pub use steps::Steps;
