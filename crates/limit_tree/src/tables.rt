//! The wants and floors of a tree's leaves, in tables.

ghost use Rattle.std.specs.Prelude.{◌≡◌, ◌+◌, ◌≤◌, ◌++◌, length, take};
ghost use Rattle.limit_tree.specs.Outline.{places, limits, leaf_count};

use super::node::Node;
use std::alloc::Allocator;

/// Writes the wants and floors of a tree's leaves into tables, from an index on, and returns the index after the
/// last of them.
pub(crate) fn leaves_into<A: Allocator>(
    node: &Node<A>,
    first: usize,
    wants: &mut [u64],
    floors: &mut [u64],
) -> usize
    requires room { first + leaf_count (places node.now) ≤ length wants.old }
    requires tables { length floors.old ≡ length wants.old }
    ensures next { result ≡ first + leaf_count (places node.now) }
    ensures size { length wants.new ≡ length wants.old }
    ensures floors_size { length floors.new ≡ length floors.old }
    ensures wants { take result wants.new
        ≡ take first wants.old ++ (limits (places node.now)).wants }
    ensures floors { take result floors.new
        ≡ take first floors.old ++ (limits (places node.now)).floors }
{
    match node {
        Node::Leaf { want, floor } => {
            wants[first] = *want;
            floors[first] = *floor;
            first + 1
        }
        Node::Branch { kids, .. } => {
            let mut next = first;
            for kid in kids {
                next = leaves_into(kid, next, wants, floors);
            }
            next
        }
    }
}
