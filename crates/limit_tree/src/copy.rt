//! A copy of the nodes of a tree, in preorder.

ghost use Rattle.std.specs.Prelude.{◌≡◌, ◌+◌, ◌<◌, ◌^◌, length, slice_set, IfOk};
ghost use Rattle.limit_tree.specs.Outline.{places, leaf_count, floor_sum, root_place};
ghost use Rattle.limit_tree.specs.Copies.{AreCopiedBehind};

use super::node::Node;
use super::place::{NodeKind, Place};
use super::size::{Size, place_of};
use std::alloc::{AllocError, Allocator};

/// Nodes in preorder, and the wants and the floors of their leaves.
#[derive(Drop)]
pub(crate) struct Copying<A: Allocator> {
    pub places: Vec<Place, A>,
    pub wants: Vec<u64, A>,
    pub floors: Vec<u64, A>,
}

/// Placeholder for a node until the nodes below it are copied.
pub(crate) const UNSEEN: Place = Place {
    depth: 0,
    first: 0,
    leaves: 0,
    nodes: 0,
    kids: 0,
    floors: 0,
    kind: NodeKind::Branch { limit: None },
};

// Writes a node at its index, once the nodes below it are copied.
fn settle<B: Allocator, A: Allocator>(
    node: &Node<B>,
    depth: usize,
    number: usize,
    first: usize,
    floors: u64,
    copy: &mut Copying<A>,
)
    requires number { number + length (places node.now) ≡ length copy.old.places.items }
    requires first { first + leaf_count (places node.now) ≡ length copy.old.wants.items }
    requires floors { floors ≡ floor_sum (places node.now) }
    requires some { number < length copy.old.places.items }
    ensures places { copy.new.places.items
        ≡ slice_set copy.old.places.items number (root_place depth first node.now) }
    ensures wants { copy.new.wants.items ≡ copy.old.wants.items }
    ensures floors_are { copy.new.floors.items ≡ copy.old.floors.items }
{
    let size = Size {
        nodes: copy.places.len() - number,
        leaves: copy.wants.len() - first,
        floors,
    };
    copy.places[number] = place_of(node, size, depth, first);
}

/// Appends a tree at a given depth to the copy, and returns the sum of its floors. Visits each node once: its size is
/// known when the nodes below it are copied.
pub(crate) fn copy_tree<B: Allocator, A: Allocator>(
    node: &Node<B>,
    depth: usize,
    copy: &mut Copying<A>,
) -> Result<u64, AllocError>
    requires depth { length (places node.now) + depth < 2 ^ 63 }
    requires floors { floor_sum (places node.now) < 2 ^ 63 }
    ensures floors { IfOk result (λ sum. sum ≡ floor_sum (places node.now)) }
    ensures copied { IfOk result (λ _. AreCopiedBehind depth node.now copy.old copy.new) }
{
    let number = copy.places.len();
    let first = copy.wants.len();
    copy.places.push(UNSEEN)?;
    match node {
        Node::Leaf { want, floor } => {
            copy.wants.push(*want)?;
            copy.floors.push(*floor)?;
            settle(node, depth, number, first, *floor, copy);
            Ok(*floor)
        }
        Node::Branch { kids, .. } => {
            let mut sum = 0;
            for kid in kids {
                sum += copy_tree(kid, depth + 1, copy)?;
            }
            settle(node, depth, number, first, sum, copy);
            Ok(sum)
        }
    }
}
