//! Best grants for asks.

ghost use Rattle.std.specs.Prelude.{◌≡◌, ◌≤◌, false, length, IfOk, IfErr};
ghost use Rattle.std.specs.List.{list_any};
ghost use Rattle.limit_tree.specs.Outline.{limits as seen};
ghost use Rattle.fair_shares.specs.Asked.{AreApart};
ghost use Rattle.share_world.specs.Shares.{AreFitRates, IsFairPlan, IsUnshared};
ghost use Rattle.world_terms.specs.Decisions.{wants_too_much};
ghost use Rattle.grant_ledger.specs.declared.ledger.TheConstants.{MAX_LANES};

use fair_shares::{FairFault, FairShares, share_plan};
use grant_certificate::Sealed;
use line_rates::{Ask, Limits, Name, PlanFault, Way, tree_of};
use std::alloc::Allocator;
use world_terms::StepFault;

// No rate of limits is larger than a rate may be.
fn fits_rates<A: Allocator>(limits: &Limits<A>)
    ensures fit { AreFitRates limits.now }
{
    let _groups = limits.groups();
    let _users = limits.users();
    let _server = limits.rate(Name::Server);
    let _down = limits.rate(Name::Direction(Way::Down));
    let _up = limits.rate(Name::Direction(Way::Up));
}

/// The lanes of a plan for asks in a tick, in the order of its leaves, and its fair grants, sealed.
pub(crate) fn share<A: Allocator + Clone>(
    alloc: A,
    limits: &Limits<A>,
    tick: u64,
    asks: &[(u8, Ask)],
) -> Result<(Vec<u8, A>, Sealed<A>), StepFault>
    requires few { length asks.now ≤ MAX_LANES }
    requires wants { list_any wants_too_much asks.now ≡ false }
    requires apart { AreApart asks.now }
    ensures fair { IfOk result (λ r.
        IsFairPlan limits.now tick asks.now (seen r.1.tree) r.0.items r.1.grants) }
    ensures fault { IfErr result (IsUnshared limits.now tick asks.now) }
{
    let plan = match tree_of(alloc.clone()?, limits, tick, asks) {
        Ok(plan) => plan,
        Err(PlanFault::Tree(_)) => {
            fits_rates(limits);
            return Err(StepFault::FloorsOver);
        }
        Err(PlanFault::Memory) => return Err(StepFault::Memory),
    };
    match share_plan(alloc, limits, tick, asks, plan) {
        Ok(
            FairShares {
                lanes,
                asks: _,
                sealed,
            },
        ) => Ok((lanes, sealed)),
        Err(FairFault::Memory) => Err(StepFault::Memory),
        Err(FairFault::Unshared) => Err(StepFault::Unshared),
    }
}
