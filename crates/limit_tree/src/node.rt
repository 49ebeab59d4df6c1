//! Nodes of a tree.

use std::alloc::{Allocator, Global};

/// A tree of limits under construction: branches, each with or without a limit in octets, and leaves, each
/// a transfer with the octets that it wants and its guaranteed floor. `Tree::new` checks the numbers.
#[derive(Drop)]
pub enum Node<A: Allocator = Global> {
    Branch {
        limit: Option<u64>,
        kids: Vec<Node<A>, A>,
    },
    Leaf {
        want: u64,
        floor: u64,
    },
}
