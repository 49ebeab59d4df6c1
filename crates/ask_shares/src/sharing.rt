//! The shares of asks in a tick.

ghost use Rattle.std.specs.Prelude.{◌≡◌, ◌<◌, ◌≤◌, IfErr, IfOk, IsPermutation, List, length, map, slice_get, Some};
ghost use Rattle.std.specs.List.{All};
ghost use Rattle.std.specs.List.Sorted.{IsNonDecreasingBy};
ghost use Rattle.limit_tree.specs.Outline.{limits as seen};
ghost use Rattle.line_rates.specs.FloorSums.{FloorsFit};
ghost use Rattle.line_rates.specs.TickTree.{Asker, IsPlan};
ghost use Rattle.ask_shares.specs.Leaves.{AreNumbered, share_place};
ghost use Rattle.ask_shares.specs.Faults.{IsAskFault, IsNotOfGuarantees, IsUnshared};
ghost use Rattle.ask_shares.specs.Shares.{AreAskShares, KeepNames};

use crate::fault::NotShared;
use crate::leaves::fair_leaves;
use crate::share::AskShare;
use line_rates::{Ask, Limits, Plan, PlanFault, grants_keep_names, tree_of};
use std::alloc::{AllocError, Allocator};

/// Most asks that are shared at once.
pub const MAX_ASKS: usize = 256;

// The asks with their places.
fn numbered<A: Allocator>(alloc: A, asks: &[Ask]) -> Result<Vec<(u8, Ask), A>, AllocError>
    requires few { length asks.now ≤ MAX_ASKS }
    ensures numbered { IfOk result (λ numbered. AreNumbered asks.now numbered.items) }
{
    let mut numbered = Vec::with_capacity(alloc, asks.len())?;
    for place in 0..asks.len() {
        numbered.push((place as u8, asks[place]))?;
    }
    Ok(numbered)
}

fn ask_at(asks: &[Ask], place: u8) -> Ask
    requires place { place < length asks.now }
    ensures ask { slice_get asks.now place ≡ Some result }
{
    asks[place as usize]
}

// The asks at these places.
fn in_order<A: Allocator>(alloc: A, asks: &[Ask], places: &[u8]) -> Result<Vec<Ask, A>, AllocError>
    requires places { All (λ place. place < length asks.now) places.now }
    ensures order { IfOk result
        (λ order. map (λ place. slice_get asks.now place) places.now
        ≡ map (λ ask. Some ask) order.items) }
{
    let mut order = Vec::with_capacity(alloc, places.len())?;
    for place in places {
        order.push(ask_at(asks, *place))?;
    }
    Ok(order)
}

// Sorts shares by the places of their asks.
fn sort_by_place<A: Allocator>(shares: &mut Vec<AskShare, A>)
    ensures same { IsPermutation shares.old.items shares.new.items }
    ensures sorted { IsNonDecreasingBy share_place shares.new.items }
{
    shares.sort_unstable_by_key(|share| share.place);
}

// The shares of asks, from the plan of their tick.
fn shares_in<L: Allocator, A: Allocator + Clone>(
    alloc: A,
    limits: &Limits<L>,
    tick: u64,
    asks: &[Ask],
    plan: Plan<A>,
) -> Result<Vec<AskShare, A>, NotShared>
    requires plan { (numbered : List Asker) × AreNumbered asks.now numbered
        × IsPlan limits.now tick numbered (seen plan.tree) plan.lanes.items }
    ensures shares { IfOk result (λ shares. AreAskShares limits.now tick asks.now shares.items) }
    ensures names { IfOk result (λ shares. KeepNames limits.now tick shares.items) }
    ensures fault { IfErr result (IsUnshared limits.now.share_by asks.now) }
{
    grants_keep_names();
    let Plan { tree, lanes } = plan;
    let order = in_order(alloc.clone()?, asks, &lanes)?;
    let mut shares = fair_leaves(alloc, limits, tick, &order, &lanes, tree)?;
    sort_by_place(&mut shares);
    Ok(shares)
}

/// The shares of asks in a tick, in the order of the asks: fair grants within the limits of the server, the directions,
/// the groups, users and sessions in that tick, each ask with at least its guarantee; and for each ask that gets less
/// than it wants, a limit that holds it back. Grants are max-min fair in whole units among the asks, or if the line is
/// shared among users, among these and then among the asks of each.
///
/// A tick is a tenth of a second; its limits are those of a rate in the tick of that number, modulo 10, so that ten
/// consecutive ticks hand out each rate to the unit. Which asks are of one session is the caller's: each ask has the
/// guarantee of its session for itself.
///
/// Returns `Tree` if an ask wants more than `MAX_WANT`, or if the guarantees of the asks under one name are above its
/// limit in the tick; `Memory` if memory runs out; among users `Unshared` only if the asks of some user, in one way, want
/// more than `MAX_WANT` together.
pub fn share_asks<L: Allocator, A: Allocator + Clone>(
    alloc: A,
    limits: &Limits<L>,
    tick: u64,
    asks: &[Ask],
) -> Result<Vec<AskShare, A>, NotShared>
    requires few { length asks.now ≤ MAX_ASKS }
    ensures shares { IfOk result (λ shares. AreAskShares limits.now tick asks.now shares.items) }
    ensures names { IfOk result (λ shares. KeepNames limits.now tick shares.items) }
    ensures fault { IfErr result (IsAskFault A limits.now tick asks.now) }
    ensures floors { FloorsFit limits.now tick asks.now → IfErr result IsNotOfGuarantees }
{
    let numbered = numbered(alloc.clone()?, asks)?;
    let plan = match tree_of(alloc.clone()?, limits, tick, &numbered) {
        Ok(plan) => plan,
        Err(PlanFault::Tree(fault)) => return Err(NotShared::Tree(fault)),
        Err(PlanFault::Memory) => return Err(NotShared::Memory),
    };
    shares_in(alloc, limits, tick, asks, plan)
}
