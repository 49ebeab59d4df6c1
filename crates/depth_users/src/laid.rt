//! A tree with the same best grants, in which each user of a depth is a branch.

use limit_tree::{Flat, Node, NodeKind};
use std::alloc::{AllocError, Allocator};

/// More than the depths that a tree has.
const DEPTHS: usize = 64;

/// The smaller of two limits, if there is one.
fn least(first: Option<u64>, second: Option<u64>) -> Option<u64> {
    match (first, second) {
        (Some(first), Some(second)) => Some(first.min(second)),
        (None, limit) | (limit, None) => limit,
    }
}

/// The nodes of a tree, each branch with the least limit of itself and those above it: no grants within the limits give
/// its leaves more, and the most that a user can have is then no more than the limits above it let through.
pub(crate) fn narrowed<A: Allocator, B: Allocator>(
    alloc: B,
    flat: &Flat<A>,
) -> Result<Vec<NodeKind, B>, AllocError> {
    let mut above = [None; DEPTHS];
    let mut kinds = Vec::with_capacity(alloc, flat.nodes())?;
    for node in 0..flat.nodes() {
        let place = flat.place(node);
        let kind = match place.kind {
            NodeKind::Leaf { .. } => place.kind,
            NodeKind::Branch { limit } => {
                let over = above.get(place.depth).copied().unwrap_or(None);
                let limit = least(limit, over);
                if let Some(slot) = above.get_mut(place.depth.saturating_add(1)) {
                    *slot = limit;
                }
                NodeKind::Branch { limit }
            }
        };
        kinds.push(kind)?;
    }
    Ok(kinds)
}

/// The last of some trees, in their order, as the kids of a branch.
fn last_of<B: Allocator>(
    alloc: B,
    trees: &mut Vec<Node<B>, B>,
    kids: usize,
) -> Result<Vec<Node<B>, B>, AllocError> {
    let mut last = Vec::new(alloc);
    for _kid in 0..kids {
        if let Some(kid) = trees.pop() {
            last.push(kid)?;
        }
    }
    Ok(last)
}

/// The leaf as the only one of a branch.
fn wrapped<B: Allocator>(alloc: B, leaf: Node<B>) -> Result<Node<B>, AllocError> {
    let mut kids = Vec::new(alloc);
    kids.push(leaf)?;
    Ok(Node::Branch { limit: None, kids })
}

/// The tree over these nodes, from the last one on; a leaf that is a user is wrapped.
pub(crate) fn laid<A: Allocator, B: Allocator + Clone>(
    alloc: &B,
    flat: &Flat<A>,
    kinds: &[NodeKind],
    depth: usize,
) -> Result<Option<Node<B>>, AllocError> {
    let mut trees = Vec::new(alloc.clone()?);
    for back in 0..flat.nodes() {
        let node = flat.nodes() - 1 - back;
        let place = flat.place(node);
        let kind = kinds.get(node).copied().unwrap_or(place.kind);
        let tree = match kind {
            NodeKind::Leaf { want, floor } => {
                let leaf = Node::Leaf { want, floor };
                if place.depth <= depth {
                    wrapped(alloc.clone()?, leaf)?
                } else {
                    leaf
                }
            }
            NodeKind::Branch { limit } => {
                let kids = last_of(alloc.clone()?, &mut trees, place.kids)?;
                Node::Branch { limit, kids }
            }
        };
        trees.push(tree)?;
    }
    Ok(trees.pop())
}

/// The numbers of the users' branches in that tree.
pub(crate) fn users_of<A: Allocator, B: Allocator>(
    alloc: B,
    flat: &Flat<A>,
    depth: usize,
) -> Result<Vec<u32, B>, AllocError> {
    let mut users = Vec::new(alloc);
    let mut number: u32 = 0;
    for node in 0..flat.nodes() {
        let place = flat.place(node);
        let is_leaf = match place.kind {
            NodeKind::Leaf { .. } => true,
            NodeKind::Branch { .. } => false,
        };
        let is_wrapped = is_leaf && place.depth <= depth;
        if is_wrapped || (!is_leaf && place.depth == depth && place.leaves > 0) {
            users.push(number)?;
        }
        let step = if is_wrapped { 2 } else { 1 };
        number = number.saturating_add(step);
    }
    Ok(users)
}
