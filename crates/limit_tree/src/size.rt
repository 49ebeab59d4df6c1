//! Sizes of trees.

ghost use Rattle.std.specs.Prelude.{◌≡◌, ◌<◌, ◌^◌, length, IfSome};
ghost use Rattle.limit_tree.specs.Outline.{places, leaf_count, floor_sum, root_place};
ghost use Rattle.limit_tree.specs.Sizes.{IsSizeOf};

use super::node::Node;
use super::place::{NodeKind, Place};
use std::alloc::Allocator;

/// The size of a tree: its nodes, leaves and floors.
#[derive(Clone, Copy)]
pub(crate) struct Size {
    pub nodes: usize,
    pub leaves: usize,
    pub floors: u64,
}

/// The size of a tree of one node. Most nodes may be leaves; these are counted without a call of `size_of_tree`.
fn size_of_one<A: Allocator>(node: &Node<A>) -> Option<Size>
    ensures nodes { IfSome result (λ s. s.nodes ≡ length (places node.now)) }
    ensures leaves { IfSome result (λ s. s.leaves ≡ leaf_count (places node.now)) }
    ensures floors { IfSome result (λ s. s.floors ≡ floor_sum (places node.now)) }
{
    match node {
        Node::Leaf { floor, .. } => Some(Size {
            nodes: 1,
            leaves: 1,
            floors: *floor,
        }),
        Node::Branch { kids, .. } => {
            if kids.is_empty() {
                Some(Size {
                    nodes: 1,
                    leaves: 0,
                    floors: 0,
                })
            } else {
                None
            }
        }
    }
}

/// The size of a tree, counted node by node.
pub(crate) fn size_of_tree<A: Allocator>(node: &Node<A>) -> Size
    requires nodes { length (places node.now) < 2 ^ 63 }
    requires leaves { leaf_count (places node.now) < 2 ^ 63 }
    requires floors { floor_sum (places node.now) < 2 ^ 63 }
    ensures nodes { result.nodes ≡ length (places node.now) }
    ensures leaves { result.leaves ≡ leaf_count (places node.now) }
    ensures floors { result.floors ≡ floor_sum (places node.now) }
{
    match node {
        Node::Leaf { floor, .. } => Size {
            nodes: 1,
            leaves: 1,
            floors: *floor,
        },
        Node::Branch { kids, .. } => {
            let mut total = Size {
                nodes: 1,
                leaves: 0,
                floors: 0,
            };
            for kid in kids {
                let more = match size_of_one(kid) {
                    Some(one) => one,
                    None => size_of_tree(kid),
                };
                total.nodes += more.nodes;
                total.leaves += more.leaves;
                total.floors += more.floors;
            }
            total
        }
    }
}

/// The position of a node at a depth, after `first` leaves, from the size of its tree.
pub(crate) fn place_of<A: Allocator>(
    node: &Node<A>,
    size: Size,
    depth: usize,
    first: usize,
) -> Place
    requires size { IsSizeOf size (places node.now) }
    ensures place { result ≡ root_place depth first node.now }
{
    let (kids, kind) = match node {
        Node::Leaf { want, floor } => (
            0,
            NodeKind::Leaf {
                want: *want,
                floor: *floor,
            },
        ),
        Node::Branch { limit, kids } => (kids.len(), NodeKind::Branch { limit: *limit }),
    };
    Place {
        depth,
        first,
        leaves: size.leaves,
        nodes: size.nodes,
        kids,
        floors: size.floors,
        kind,
    }
}
