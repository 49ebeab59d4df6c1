//! Grants for the leaves of a limit tree, max-min fair in whole octets among users, and then among the leaves of each
//! user.
#![tactic(auto)]

mod fault;
mod kinds;
mod laws;
mod owners;
mod rebuild;
mod share;
mod stages;

pub use fault::UserShareFault;
pub use laws::{inner_gives_most, outer_is_backed, tight_is_shared};
pub use owners::owners_of;
pub use share::allot_by_users;
