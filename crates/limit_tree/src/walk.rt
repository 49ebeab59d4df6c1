//! Walks over a tree in preorder.

ghost use Rattle.std.specs.Prelude.{◌≡◌, ◌+◌, ◌<◌, ◌≤◌, ◌^◌, ◌++◌, List, length, map};
ghost use Rattle.limit_tree.specs.declared.place.Place.{Place};
ghost use Rattle.limit_tree.specs.Outline.{places, leaf_count, floor_sum, moved};
ghost use Rattle.limit_tree.specs.Sizes.{IsSizeOf};

use super::node::Node;
use super::place::Place;
use super::size::{Size, place_of, size_of_tree};
use std::alloc::Allocator;

/// A visitor, which is shown the nodes of a tree in preorder, one by one.
pub trait Visitor {
    ghost use Rattle.std.specs.Prelude.{◌≡◌, ◌+◌, ◌≤◌, ◌++◌, ◌∷◌, [], ℕ, List, length};
    ghost use Rattle.limit_tree.specs.declared.place.Place.{Place};
    ghost use Rattle.limit_tree.specs.Outline.{leaf_count};

    /// Number of leaves of the tree.
    ghost leaves: { Self → ℕ };

    /// The relation between a visitor before and after it was shown these nodes.
    ghost Saw: { Self → List Place → Self → Type 0 };

    /// Visits one more node. `number` is the number of nodes seen before it.
    fn visit(&mut self, number: usize, place: Place)
        requires inside { place.first + place.leaves ≤ leaves self.old }
        ensures leaves { leaves self.new ≡ leaves self.old }
        ensures saw { (start : Self) (seen : List Place) → length seen ≡ number
            → leaf_count seen ≡ place.first → Saw start seen self.old
            → Saw start (seen ++ place ∷ []) self.new };
}

/// Number of nodes and leaves that a walk has passed.
#[derive(Clone, Copy, Debug, PartialEq, Eq)]
pub struct Passed {
    pub nodes: usize,
    pub leaves: usize,
}

/// The size of the next kid, if `kids` kids remain, which together have the size `rest`.
fn size_of_next<A: Allocator>(kid: &Node<A>, kids: usize, rest: Size) -> Size
    requires nodes { length (places kid.now) < 2 ^ 63 }
    requires leaves { leaf_count (places kid.now) < 2 ^ 63 }
    requires floors { floor_sum (places kid.now) < 2 ^ 63 }
    requires last { kids ≡ 1 → IsSizeOf rest (places kid.now) }
    ensures size { IsSizeOf result (places kid.now) }
{
    if kids == 1 { rest } else { size_of_tree(kid) }
}

/// Shows a visitor a tree of known size at `depth`, after the nodes and leaves already passed. The size of a
/// branch's last kid is what the others leave; each other kid is counted.
pub(crate) fn walk_tree<A: Allocator, V: Visitor>(
    node: &Node<A>,
    size: Size,
    depth: usize,
    passed: Passed,
    visitor: &mut V,
) -> Passed
    requires depth { length (places node.now) + depth < 2 ^ 63 }
    requires nodes { passed.nodes + length (places node.now) < 2 ^ 63 }
    requires leaves { passed.leaves + leaf_count (places node.now) < 2 ^ 63 }
    requires floors { floor_sum (places node.now) < 2 ^ 63 }
    requires size { IsSizeOf size (places node.now) }
    requires inside { passed.leaves + leaf_count (places node.now) ≤ V.leaves visitor.old }
    ensures nodes { result.nodes ≡ passed.nodes + length (places node.now) }
    ensures leaves { result.leaves ≡ passed.leaves + leaf_count (places node.now) }
    ensures same { V.leaves visitor.new ≡ V.leaves visitor.old }
    ensures saw { (start : V) (seen : List Place) → length seen ≡ passed.nodes
        → leaf_count seen ≡ passed.leaves → V.Saw start seen visitor.old
        → V.Saw start (seen ++ map (moved depth passed.leaves) (places node.now)) visitor.new }
{
    let place = place_of(node, size, depth, passed.leaves);
    visitor.visit(passed.nodes, place);
    let mut next = Passed {
        nodes: passed.nodes + 1,
        leaves: passed.leaves,
    };
    match node {
        Node::Leaf { .. } => next.leaves += 1,
        Node::Branch { kids, .. } => {
            let mut left = kids.len();
            let mut rest = Size {
                nodes: size.nodes - 1,
                ..size
            };
            for kid in kids {
                let own = size_of_next(kid, left, rest);
                next = walk_tree(kid, own, depth + 1, next, visitor);
                left -= 1;
                rest.nodes -= own.nodes;
                rest.leaves -= own.leaves;
                rest.floors -= own.floors;
            }
        }
    }
    next
}
