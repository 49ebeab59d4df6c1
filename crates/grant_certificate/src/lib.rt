//! A checker of grants: it accepts only grants within the limits that no other whole-octet grants within them, sorted
//! upwards, exceed.
//!
//! A [`Certificate`] has, for each leaf that got less than it wants, the number of the branch that limits it. [`check`]
//! trusts nobody: it judges grants from any source in two walks, and returns the first [`Flaw`]. [`check_by_users`] judges
//! whether no other grants are better among users. A [`Sealed`] is a tree with grants that passed one of the two.
//!
//! ```text
//! let alloc = rt.alloc();
//! let tree = Tree::new(two(alloc)?)?; // a limit of 30 over wants of 50 and 10
//! let grants = vec![in alloc; 20, 10]?;
//! // the root holds back the first leaf
//! let certificate = Certificate::new(vec![in alloc; Some(0), None]?);
//! // a `No` has the flaw, and in it the leaf or branch at fault
//! let verdict = check(&tree, &grants, &certificate);
//! assert!(rt; verdict == Verdict::Yes);
//! match seal(tree, grants, certificate) {
//!     Ok(sealed) => assert!(rt; sealed.total() == 30),
//!     Err(_) => panic!(rt; "refused, and all three are handed back"),
//! }
//! ```
#![tactic(auto)]

mod backing;
mod branches;
mod by_users;
mod certificate;
mod checker;
mod flaw;
mod laws;
mod leaves;
mod over;
mod range;
mod sealed;
mod user_look;

pub use by_users::check_by_users;
pub use certificate::Certificate;
pub use checker::check;
pub use flaw::{Flaw, Verdict};
pub use laws::{
    backed_by_users_is_best, backed_is_best, backed_is_largest_at_each_level, deepest_is_backed,
    each_has_ascending, equals_are_near, one_leaf_each_is_best, plain_backed_is_best,
    plain_backed_is_largest_at_each_level, two_stages_are_backed, users_have_largest_at_each_level,
};
pub use leaves::Leaves;
pub use sealed::{Refused, RefusedByUsers, Sealed, seal, seal_by_users};
