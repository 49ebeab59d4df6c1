//! The shares of a second, after each test of the transfers.

ghost use Rattle.std.specs.Prelude.{◌≡◌, ◌<◌, ◌≤◌, IfErr, IfOk, IsPermutation, List, length};
ghost use Rattle.std.specs.List.Sorted.{IsNonDecreasingBy};
ghost use Rattle.limit_tree.specs.Outline.{limits as seen};
ghost use Rattle.line_rates.specs.Rates.{Rates};
ghost use Rattle.line_rates.specs.TickTree.{IsPlan};
ghost use Rattle.rate_plan.specs.Asked.{AreAsked};
ghost use Rattle.rate_plan.specs.Admission.{AreAdmitted};
ghost use Rattle.rate_plan.specs.Plan.{AreShares, IsPlanned, share_lane};
ghost use Rattle.rate_plan.specs.Refused.{AreSmallForAll, IsPlanFault, IsTreeFault, IsUnplanned};
ghost use Rattle.rate_plan.specs.Tens.{AreTens};

use crate::admission::admit_all;
use crate::asks::{Transfer, asks_of, in_order};
use crate::fault::Unplanned;
use crate::shares::{TransferShare, granted_shares};
use crate::small::has_large;
use crate::tens::tenfold;
use line_rates::{Ask, Limits, Plan, PlanFault, tree_of};
use std::alloc::{AllocError, Allocator};

/// Most transfers whose shares no rate above `MAX_PLANNED` limits.
pub const MAX_EXACT: usize = 25;

// Sorts shares by lane.
fn sort_by_lane<A: Allocator>(shares: &mut Vec<TransferShare, A>)
    ensures same { IsPermutation shares.old.items shares.new.items }
    ensures sorted { IsNonDecreasingBy share_lane shares.new.items }
{
    shares.sort_unstable_by_key(|share| share.lane);
}

// The shares of asks, from the plan of a tick.
fn shares_in<L: Allocator, A: Allocator + Clone>(
    alloc: A,
    tens: &Limits<L>,
    asks: &[(u8, Ask)],
    plan: Plan<A>,
) -> Result<Vec<TransferShare, A>, AllocError>
    requires asked { (transfers : List Transfer) × AreAsked tens.now.share_by transfers asks.now }
    requires plan { IsPlan tens.now 0 asks.now (seen plan.tree) plan.lanes.items }
    ensures shares { IfOk result (λ shares. (rates : Rates) (transfers : List Transfer)
        → AreTens rates tens.now → AreAsked rates.share_by transfers asks.now
        → AreShares rates transfers shares.items) }
{
    let Plan { tree, lanes } = plan;
    let order = in_order(alloc.clone()?, asks, &lanes)?;
    let mut shares = granted_shares(alloc, tens, &order, tree)?;
    sort_by_lane(&mut shares);
    Ok(shares)
}

// The shares of asks by ten times the rates.
fn shares_by<L: Allocator, A: Allocator + Clone>(
    alloc: A,
    tens: &Limits<L>,
    asks: &[(u8, Ask)],
) -> Result<Vec<TransferShare, A>, Unplanned>
    requires asked { (transfers : List Transfer) × AreAsked tens.now.share_by transfers asks.now }
    ensures shares { IfOk result (λ shares. (rates : Rates) (transfers : List Transfer)
        → AreTens rates tens.now → AreAsked rates.share_by transfers asks.now
        → AreShares rates transfers shares.items) }
    ensures fault { IfErr result IsTreeFault }
{
    match tree_of(alloc.clone()?, tens, 0, asks) {
        Ok(plan) => {
            let shares = shares_in(alloc, tens, asks, plan)?;
            Ok(shares)
        }
        Err(PlanFault::Memory) => Err(Unplanned::Memory),
        Err(fault) => Err(Unplanned::Tree(fault)),
    }
}

// The shares of asks whose guarantees are admitted.
fn shares_of<L: Allocator, A: Allocator + Clone>(
    alloc: A,
    limits: &Limits<L>,
    asks: &[(u8, Ask)],
) -> Result<Vec<TransferShare, A>, Unplanned>
    requires asked { (transfers : List Transfer) × AreAsked limits.now.share_by transfers asks.now }
    ensures shares { IfOk result (λ shares. (transfers : List Transfer)
        → AreAsked limits.now.share_by transfers asks.now
        → AreShares limits.now transfers shares.items) }
    ensures fault { IfErr result IsTreeFault }
{
    let tens = tenfold(alloc.clone()?, limits)?;
    shares_by(alloc, &tens, asks)
}

// The plan of transfers that have sessions and lanes.
fn plan_few<L: Allocator, A: Allocator + Clone>(
    alloc: A,
    limits: &Limits<L>,
    transfers: &[Transfer],
) -> Result<Vec<TransferShare, A>, Unplanned>
    requires few { length transfers.now ≤ 256 }
    ensures shares { IfOk result (λ shares. AreShares limits.now transfers.now shares.items) }
    ensures admitted { IfOk result (λ shares. AreAdmitted limits.now transfers.now) }
    ensures exact { MAX_EXACT < length transfers.now
        → IfOk result (λ shares. AreSmallForAll limits.now transfers.now) }
    ensures fault { IfErr result (IsPlanFault limits.now transfers.now) }
{
    let asks = asks_of(alloc.clone()?, limits.share_by(), transfers)?;
    admit_all(alloc.clone()?, limits, transfers, &asks)?;
    if transfers.len() > MAX_EXACT && has_large(limits, &asks) {
        return Err(Unplanned::RateTooLarge);
    }
    shares_of(alloc, limits, &asks)
}

/// The shares of a second for transfers that want all they can get, each in a session of its own, in their order: fair
/// grants of the tree of the rates, among sessions or among users as the limits say, and for each transfer that gets
/// less than it wants a limit that holds it back.
///
/// `TooManySessions`, `TooManyTransfers`: there are more than `sessions`, or than `lanes`. `NotGuaranteed`: the place
/// of the first whose guarantees do not fit with those before it. `RateTooLarge`: more than `MAX_EXACT` transfers, and a
/// rate above `MAX_PLANNED`.
pub fn plan_of<L: Allocator, A: Allocator + Clone>(
    alloc: A,
    limits: &Limits<L>,
    sessions: usize,
    lanes: usize,
    transfers: &[Transfer],
) -> Result<Vec<TransferShare, A>, Unplanned>
    requires lanes { lanes ≤ 256 }
    ensures planned { IfOk result
        (λ shares. IsPlanned limits.now sessions lanes transfers.now shares.items) }
    ensures fault { IfErr result (IsUnplanned limits.now sessions lanes transfers.now) }
{
    if transfers.len() > sessions {
        return Err(Unplanned::TooManySessions);
    }
    if transfers.len() > lanes {
        return Err(Unplanned::TooManyTransfers);
    }
    plan_few(alloc, limits, transfers)
}
