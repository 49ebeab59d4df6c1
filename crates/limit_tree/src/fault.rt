//! Faults of trees.

ghost use Rattle.std.specs.Prelude.{◌≡◌, ◌+◌, ◌<◌, ◌≤◌, ◌^◌, length, MatchResult, IfOk, None, Some};
ghost use Rattle.limit_tree.specs.Outline.{places, leaf_count, floor_sum, kind_of};
ghost use Rattle.limit_tree.specs.Faults.{first_fault, node_fault, first_over, over_limit, or_else};
ghost use Rattle.limit_tree.specs.declared.place.NodeKind.TheVariants.{Branch};

use super::bounds::{MAX_DEPTH, MAX_LEAVES, MAX_LIMIT, MAX_NODES, MAX_WANT};
use super::node::Node;
use super::walk::Passed;
use std::alloc::Allocator;
use thiserror::Error;

/// The reason for which a tree is refused. The first node in preorder with a fault decides; for one node, the order is
/// that below. `FloorsOverLimit` is reported only if there is no other fault.
#[derive(Clone, Copy, Debug, PartialEq, Eq, Error)]
pub enum TreeFault {
    /// A node is deeper than `MAX_DEPTH`.
    #[error("TooDeep")]
    TooDeep,
    /// There are more than `MAX_LEAVES` leaves or `MAX_NODES` nodes.
    #[error("TooManyLeaves")]
    TooManyLeaves,
    /// A want is above `MAX_WANT`.
    #[error("WantTooLarge")]
    WantTooLarge,
    /// A limit is above `MAX_LIMIT`.
    #[error("LimitTooLarge")]
    LimitTooLarge,
    /// A leaf's floor is above its want.
    #[error("FloorTooLarge")]
    FloorTooLarge,
    /// The floors below this branch add up to more than its limit. It is the first such branch in preorder.
    #[error("FloorsOverLimit")]
    FloorsOverLimit(usize),
}

// The fault of a node's own numbers.
fn check_alone<A: Allocator>(node: &Node<A>, depth: usize, passed: Passed) -> Result<(), TreeFault>
    ensures within { IfOk result (λ _. (depth ≤ MAX_DEPTH) × (passed.nodes < MAX_NODES)) }
    ensures fault { MatchResult result
        (λ _. node_fault depth passed.nodes passed.leaves (kind_of node.now) ≡ None)
        (λ e. node_fault depth passed.nodes passed.leaves (kind_of node.now) ≡ Some e) }
{
    if depth > MAX_DEPTH {
        return Err(TreeFault::TooDeep);
    }
    if passed.nodes >= MAX_NODES {
        return Err(TreeFault::TooManyLeaves);
    }
    match node {
        Node::Leaf { want, floor } => {
            if passed.leaves >= MAX_LEAVES {
                return Err(TreeFault::TooManyLeaves);
            }
            if *want > MAX_WANT {
                return Err(TreeFault::WantTooLarge);
            }
            if *floor > *want {
                return Err(TreeFault::FloorTooLarge);
            }
            Ok(())
        }
        Node::Branch {
            limit: Some(limit),
            ..
        } if *limit > MAX_LIMIT => Err(TreeFault::LimitTooLarge),
        Node::Branch { .. } => Ok(()),
    }
}

/// Looks for the first fault of a tree at `depth`, after the nodes and leaves already passed.
pub(crate) fn check_tree<A: Allocator>(
    node: &Node<A>,
    depth: usize,
    passed: Passed,
) -> Result<Passed, TreeFault>
    requires depth { depth ≤ MAX_DEPTH + 1 }
    requires nodes { passed.nodes ≤ MAX_NODES }
    requires leaves { passed.leaves ≤ MAX_LEAVES }
    ensures fault { MatchResult result
        (λ _. first_fault depth passed.nodes passed.leaves (places node.now) ≡ None)
        (λ e. first_fault depth passed.nodes passed.leaves (places node.now) ≡ Some e) }
    ensures nodes { IfOk result (λ next. next.nodes ≡ passed.nodes + length (places node.now)) }
    ensures leaves { IfOk result
        (λ next. next.leaves ≡ passed.leaves + leaf_count (places node.now)) }
    ensures few_nodes { IfOk result (λ next. next.nodes ≤ MAX_NODES) }
    ensures few_leaves { IfOk result (λ next. next.leaves ≤ MAX_LEAVES) }
{
    check_alone(node, depth, passed)?;
    let mut next = Passed {
        nodes: passed.nodes + 1,
        leaves: passed.leaves,
    };
    match node {
        Node::Leaf { .. } => next.leaves += 1,
        Node::Branch { kids, .. } => {
            for kid in kids {
                next = check_tree(kid, depth + 1, next)?;
            }
        }
    }
    Ok(next)
}

/// The floors of a tree, summed.
#[derive(Clone, Copy)]
pub(crate) struct FloorSum {
    /// Number of nodes.
    pub nodes: usize,
    /// Sum of the floors, in octets.
    pub sum: u64,
    /// The first branch whose limit is less than the floors below it.
    pub over: Option<usize>,
}

/// The floors of a tree whose root has `number`.
pub(crate) fn floors_of<A: Allocator>(node: &Node<A>, number: usize) -> FloorSum
    requires nodes { number + length (places node.now) < 2 ^ 63 }
    requires floors { floor_sum (places node.now) < 2 ^ 63 }
    ensures nodes { result.nodes ≡ length (places node.now) }
    ensures sum { result.sum ≡ floor_sum (places node.now) }
    ensures over { result.over ≡ first_over number (places node.now) }
{
    match node {
        Node::Leaf { floor, .. } => FloorSum {
            nodes: 1,
            sum: *floor,
            over: None,
        },
        Node::Branch { limit, kids } => {
            let mut below = FloorSum {
                nodes: 1,
                sum: 0,
                over: None,
            };
            for kid in kids {
                let more = floors_of(kid, number + below.nodes);
                below.nodes += more.nodes;
                below.sum += more.sum;
                below.over = first_of(below.over, more.over);
            }
            FloorSum {
                over: first_of(over(*limit, number, below.sum), below.over),
                ..below
            }
        }
    }
}

// The first of two options that is present.
fn first_of(first: Option<usize>, next: Option<usize>) -> Option<usize>
    ensures first { result ≡ or_else first next }
{
    match first {
        Some(number) => Some(number),
        None => next,
    }
}

// The branch with `number`, if the floors below it add up to more than its limit.
fn over(limit: Option<u64>, number: usize, floors: u64) -> Option<usize>
    ensures over { result ≡ over_limit number floors (Branch limit) }
{
    match limit {
        Some(most) if floors > most => Some(number),
        _ => None,
    }
}
