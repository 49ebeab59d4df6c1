//! Limit trees: nested limits over transfers, each of which wants a number of octets and may have a guaranteed minimum.
//!
//! A [`Node`] is a leaf, or a branch over kids with or without a limit. [`Tree::new`] accepts trees whose numbers are
//! in range and whose floors fit the limits; each [`Tree`] is a limit tree in the sense of `specs/Sharing.antt`.
//! [`Flat`] has the nodes of a tree in arrays, in preorder, for callers that walk it often.
//!
//! ```text
//! let alloc = rt.alloc();
//! let ann = Node::Leaf { want: 50, floor: 0 };
//! let bob = Node::Leaf { want: 10, floor: 6 };
//! let kids = vec![in alloc; ann, bob]?;
//! let limit = Some(30);
//! let tree = Tree::new(Node::Branch { limit, kids })?;
//! assert!(rt; tree.leaves() == 2 && tree.nodes() == 3);
//! // the root absorbs 12 octets of one leaf and 10 of the other
//! assert!(rt; tree.absorb(0, 12) == 22);
//! ```
#![tactic(auto)]

mod absorb;
mod bounds;
mod copy;
mod fault;
mod flat;
mod laws;
mod look;
mod node;
mod place;
mod recall;
mod size;
mod tables;
mod tree;
mod walk;

pub use bounds::{MAX_DEPTH, MAX_LEAVES, MAX_LIMIT, MAX_NODES, MAX_WANT};
pub use fault::TreeFault;
pub use flat::Flat;
pub use laws::{absorbed_is_taken_in, no_floors_is_plain};
pub use node::Node;
pub use place::{NodeKind, Place};
pub use tree::Tree;
pub use walk::{Passed, Visitor};
