//! Octets that a tree, or one of its nodes, absorbs up to a level.

ghost use Rattle.std.specs.Prelude.{◌≡◌, ◌<◌, ◌≤◌, ◌^◌, length, sum, IfErr, IfOk};
ghost use Rattle.limit_tree.specs.Outline.{places, limits, absorb_stack, absorbed, cut, first_or_zero};

use super::node::Node;
use std::alloc::Allocator;

/// Octets that a tree absorbs up to a level: a leaf the level, at least its floor and at most its want; a
/// branch the sum of what its kids absorb, cut to its limit.
pub(crate) fn absorb_tree<A: Allocator>(node: &Node<A>, level: u64) -> u64
    requires wants { sum (limits (places node.now)).wants < 2 ^ 63 }
    ensures absorbed { result ≡ first_or_zero (absorb_stack level (places node.now)) }
    ensures most { result ≤ sum (limits (places node.now)).wants }
{
    match node {
        Node::Leaf { want, floor } => level.max(*floor).min(*want),
        Node::Branch { limit, kids } => {
            let mut total = 0;
            for kid in kids {
                total += absorb_tree(kid, level);
            }
            at_most(*limit, total)
        }
    }
}

/// Octets that node `number` absorbs up to a level; `Err` with the number of nodes in the tree if there is no
/// such node. The root is node 0.
pub(crate) fn absorb_in<A: Allocator>(
    node: &Node<A>,
    number: usize,
    level: u64,
) -> Result<u64, usize>
    requires nodes { length (places node.now) < 2 ^ 63 }
    requires wants { sum (limits (places node.now)).wants < 2 ^ 63 }
    ensures absorbed { IfOk result (λ octets. octets ≡ absorbed level (places node.now) number) }
    ensures most { IfOk result (λ octets. octets ≤ sum (limits (places node.now)).wants) }
    ensures inside { IfOk result (λ octets. number < length (places node.now)) }
    ensures nodes { IfErr result (λ nodes. nodes ≡ length (places node.now)) }
    ensures past { IfErr result (λ nodes. nodes ≤ number) }
{
    if number == 0 {
        return Ok(absorb_tree(node, level));
    }
    match node {
        Node::Leaf { .. } => Err(1),
        Node::Branch { kids, .. } => {
            let mut passed = 1;
            for kid in kids {
                match absorb_in(kid, number - passed, level) {
                    Ok(octets) => return Ok(octets),
                    Err(nodes) => passed += nodes,
                }
            }
            Err(passed)
        }
    }
}

/// Cuts octets to a limit, if there is one.
pub(crate) fn at_most(limit: Option<u64>, octets: u64) -> u64
    ensures cut { result ≡ cut limit octets }
{
    match limit {
        Some(most) => octets.min(most),
        None => octets,
    }
}
