//! Users of a tree by a depth: the nodes at that depth, and each leaf above it. The line is shared among the users
//! first, and then among the leaves of each.
#![tactic(auto)]

mod fault;
mod find;
mod laid;
mod owners;
mod share;

pub use fault::DepthFault;
pub use owners::owners_at;
pub use share::allot_at;
