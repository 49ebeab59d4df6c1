//! The tree of a tick.

ghost use Rattle.std.specs.Prelude.{◌≡◌, map, IfOk, IfErr};
ghost use Rattle.limit_tree.specs.Outline.{limits as seen};
ghost use Rattle.line_rates.specs.Alike.{IsOrderedPlan};
ghost use Rattle.line_rates.specs.FloorSums.{FloorsFit};
ghost use Rattle.line_rates.specs.Queue.{askers, asks_of, IsPlanOf, IsOrderedPlanOf};
ghost use Rattle.line_rates.specs.Refused.{IsFaultOf, IsNotOfFloors};
ghost use Rattle.line_rates.specs.TickTree.{IsPlan, ask_in, lane_in};

use crate::ask::{Ask, Name};
use crate::fault::PlanFault;
use crate::limits::Limits;
use crate::queue::{Queued, arrange, queue_of};
use crate::rate::rate_limit;
use crate::trees::{branch, grow};
use limit_tree::Tree;
use std::alloc::{AllocError, Allocator, Global};

/// The tree of a tick, with the lane of each leaf.
#[derive(Drop)]
pub struct Plan<A: Allocator = Global> {
    /// The tree, with a leaf for each ask.
    pub tree: Tree<A>,
    /// The lane of each leaf, in the order of the leaves.
    pub lanes: Vec<u8, A>,
}

fn lanes_of<A: Allocator>(alloc: A, queue: &[Queued]) -> Result<Vec<u8, A>, AllocError>
    ensures lanes { IfOk result (λ lanes. lanes.items ≡ map lane_in (askers queue.now)) }
{
    let mut lanes = Vec::with_capacity(alloc, queue.len())?;
    for it in queue {
        lanes.push(it.asker.0)?;
    }
    Ok(lanes)
}

// The plan for a queue. Leaves the queue in the order of the leaves.
fn plan_queue<L: Allocator, A: Allocator + Clone>(
    alloc: &A,
    limits: &Limits<L>,
    tick: u64,
    queue: &mut [Queued],
) -> Result<Plan<A>, PlanFault>
    ensures plan { IfOk result
        (λ p. IsPlanOf limits.now tick queue.old (seen p.tree) p.lanes.items) }
    ensures in_order { IfOk result
        (λ p. IsOrderedPlanOf limits.now tick queue.old (seen p.tree) p.lanes.items) }
    ensures fault { IfErr result (IsFaultOf A limits.now tick (askers queue.old)) }
    ensures floors { FloorsFit limits.now tick (asks_of queue.old) → IfErr result IsNotOfFloors }
{
    arrange(limits, 1, queue);
    let kids = grow(alloc, limits, tick, 1, queue)?;
    let lanes = lanes_of(alloc.clone()?, queue)?;
    let root = branch(rate_limit(limits.rate(Name::Server), tick), kids);
    match Tree::new(root) {
        Ok(tree) => Ok(Plan { tree, lanes }),
        Err(fault) => Err(PlanFault::Tree(fault)),
    }
}

/// The tree of a tick for asks, each with the number of its lane: a branch for the server, below it one for each way in
/// use, then groups beside users without one, users, sessions, and the asks as leaves. At each level, branches are in
/// the order of their first ask. O(n log n) time for n asks, with binary searches for the user of each ask and for the
/// user or group of each branch.
pub fn tree_of<L: Allocator, A: Allocator + Clone>(
    alloc: A,
    limits: &Limits<L>,
    tick: u64,
    asks: &[(u8, Ask)],
) -> Result<Plan<A>, PlanFault>
    ensures plan { IfOk result (λ p. IsPlan limits.now tick asks.now (seen p.tree) p.lanes.items) }
    ensures in_order { IfOk result
        (λ p. IsOrderedPlan limits.now tick asks.now (seen p.tree) p.lanes.items) }
    ensures fault { IfErr result (IsFaultOf A limits.now tick asks.now) }
    ensures floors { FloorsFit limits.now tick (map ask_in asks.now) → IfErr result IsNotOfFloors }
{
    let mut queue = queue_of(alloc.clone()?, asks)?;
    plan_queue(&alloc, limits, tick, &mut queue)
}
