//! The decision of a round.

ghost use Rattle.std.specs.Prelude.{◌≡◌, ◌≤◌, ◌+◌, ◌<◌, sum, length, slice_set, Some, IsPermutation, IfOk, IfErr, OnOk, OnErr};
ghost use Rattle.limit_tree.specs.Outline.{limits as seen};
ghost use Rattle.fair_shares.specs.Asked.{AreApart, IsAskedPlan};
ghost use Rattle.fair_terms.specs.Fair.{AreSealedOwners, IsFair};
ghost use Rattle.world_terms.specs.Decisions.{IsLater};
ghost use Rattle.lane_desk.specs.Peers.{IsTurned};
ghost use Rattle.lane_desk.specs.Turns.{is_same_user, turn_of, turns_by, user_had_from, users_had_from};
ghost use Rattle.std.specs.List.Sorted.{IsNonDecreasingBy};
ghost use Rattle.lane_desk.specs.Refusals.{IsRefused, IsUnshared};

use crate::refusal::RoundRefusal;
use fair_shares::{FairFault, FairShares, share_plan};
use grant_certificate::{Sealed, equals_are_near};
use grant_ledger::{Book, BookFault, MAX_ISSUED, MAX_LANES, Purse};
use line_rates::{Ask, Limits, PlanFault, ShareBy, tree_of};
use std::alloc::{AllocError, Allocator, Global};

/// The grants of a round: the lane and the ask of each leaf of the limit tree, the sealed grants of the leaves, and the
/// octets themselves, in a purse that must be closed.
pub(crate) struct Decision<N, A: Allocator = Global> {
    pub lanes: Vec<u8, A>,
    pub asks: Vec<Ask, A>,
    pub sealed: Sealed<A>,
    pub purse: Purse<N>,
}

// The turn of an ask, by what its lane has had: lower ones come first.
fn turn_of(had: &[u64; MAX_LANES], asker: (u8, Ask)) -> u128
    ensures turn { result ≡ turn_of had.now asker }
{
    let octets = match had.get(asker.0 as usize) {
        Some(octets) => *octets,
        None => 0,
    };
    u128::from(octets) * 64 + u128::from(asker.0)
}

// Returns whether two asks are of one user in one way.
fn is_same_user(one: (u8, Ask), other: (u8, Ask)) -> bool
    ensures same { result ≡ is_same_user one other }
{
    one.1.way == other.1.way && one.1.user == other.1.user
}

// The number that the lanes of the asks of one user have had together.
fn user_had(asks: &[(u8, Ask)], had: &[u64; MAX_LANES], asker: (u8, Ask)) -> u64
    ensures had { result ≡ user_had_from 0 had.now asker asks.now }
{
    let mut octets: u64 = 0;
    for other in asks {
        if is_same_user(asker, *other) {
            let more = match had.get(other.0 as usize) {
                Some(more) => *more,
                None => 0,
            };
            octets = octets.saturating_add(more);
        }
    }
    octets
}

// Writes the number of a lane.
fn put(had: &mut [u64; MAX_LANES], lane: u8, octets: u64)
    ensures put { had.new ≡ slice_set had.old lane octets }
{
    let place = lane as usize;
    if place < had.len() {
        had[place] = octets;
    }
}

// The numbers that the lanes have had; each lane of an ask has that of its user.
fn users_had(asks: &[(u8, Ask)], had: &[u64; MAX_LANES]) -> [u64; MAX_LANES]
    ensures had { result ≡ users_had_from had.now had.now asks.now asks.now }
{
    let mut together = *had;
    for asker in asks {
        put(&mut together, asker.0, user_had(asks, had, *asker));
    }
    together
}

// The numbers by which the asks have their turns.
fn turns_by(share_by: ShareBy, asks: &[(u8, Ask)], had: &[u64; MAX_LANES]) -> [u64; MAX_LANES]
    ensures turns { result ≡ turns_by share_by asks.now had.now }
{
    match share_by {
        ShareBy::Sessions => *had,
        ShareBy::Users => users_had(asks, had),
    }
}

fn copied<A: Allocator>(alloc: A, asks: &[(u8, Ask)]) -> Result<Vec<(u8, Ask), A>, AllocError>
    ensures same { IfOk result (λ copy. copy.items ≡ asks.now) }
{
    let mut copy = Vec::with_capacity(alloc, asks.len())?;
    for asker in asks {
        copy.push(*asker)?;
    }
    Ok(copy)
}

fn sort_by_turn<A: Allocator>(asks: &mut Vec<(u8, Ask), A>, had: &[u64; MAX_LANES])
    ensures same { IsPermutation asks.old.items asks.new.items }
    ensures turns { IsNonDecreasingBy (turn_of had.now) asks.new.items }
{
    asks.sort_unstable_by_key(|it| turn_of(had, *it));
}

// The asks in the order in which they become leaves: those of lanes with the least numbers come first, and of several
// the lowest lane. A remainder of whole octets falls to the first, so it goes by turns.
fn in_turn<A: Allocator>(
    alloc: A,
    asks: &[(u8, Ask)],
    had: &[u64; MAX_LANES],
) -> Result<Vec<(u8, Ask), A>, AllocError>
    ensures same { IfOk result (λ turned. IsPermutation asks.now turned.items) }
    ensures turns { IfOk result (λ turned. IsNonDecreasingBy (turn_of had.now) turned.items) }
{
    let mut turned = copied(alloc, asks)?;
    sort_by_turn(&mut turned, had);
    Ok(turned)
}

// The lanes, the asks and the fair grants of a plan for the asks.
fn shares<L: Allocator, A: Allocator + Clone>(
    alloc: A,
    limits: &Limits<L>,
    tick: u64,
    asks: &[(u8, Ask)],
    had: &[u64; MAX_LANES],
) -> Result<FairShares<A>, RoundRefusal>
    requires apart { AreApart asks.now }
    ensures plan { IfOk result (λ r.
        IsAskedPlan limits.now tick asks.now (seen r.sealed.tree) r.lanes.items r.asks.items) }
    ensures each { IfOk result (λ r. length r.lanes.items ≡ length r.sealed.grants) }
    ensures owners { IfOk result
        (λ r. AreSealedOwners limits.now.share_by r.asks.items r.sealed.owners) }
    ensures best { IfOk result (λ r. IsFair limits.now.share_by r.asks.items (seen r.sealed.tree)
        r.sealed.grants) }
    ensures turns { IfOk result
        (λ r. IsTurned had.now limits.now r.lanes.items r.asks.items r.sealed.grants) }
    ensures fault { IfErr result (IsUnshared A limits.now tick asks.now) }
{
    equals_are_near();
    let turns = turns_by(limits.share_by(), asks, had);
    let turned = in_turn(alloc.clone()?, asks, &turns)?;
    let plan = match tree_of(alloc.clone()?, limits, tick, &turned) {
        Ok(plan) => plan,
        Err(PlanFault::Tree(fault)) => return Err(RoundRefusal::Plan(fault)),
        Err(PlanFault::Memory) => return Err(RoundRefusal::Memory),
    };
    match share_plan(alloc, limits, tick, asks, plan) {
        Ok(shares) => Ok(shares),
        Err(FairFault::Memory) => Err(RoundRefusal::Memory),
        Err(FairFault::Unshared) => Err(RoundRefusal::Unshared),
    }
}

/// Decides for asks, each with its lane, at a tick, and enters the decision into the book. Those of lanes that have had
/// least are the first leaves. If it is refused, the book is unchanged. The reasons are checked in the order `NotYet`,
/// `Plan`, `Memory` or `Unshared`, `BookFull`.
pub(crate) fn decide<L: Allocator, A: Allocator + Clone, N>(
    alloc: A,
    limits: &Limits<L>,
    tick: u64,
    asks: &[(u8, Ask)],
    had: &[u64; MAX_LANES],
    book: &mut Book<N>,
) -> Result<Decision<N, A>, RoundRefusal>
    requires apart { AreApart asks.now }
    ensures plan { IfOk result (λ d.
        IsAskedPlan limits.now tick asks.now (seen d.sealed.tree) d.lanes.items d.asks.items) }
    ensures each { IfOk result (λ d. length d.lanes.items ≡ length d.sealed.grants) }
    ensures owners { IfOk result
        (λ d. AreSealedOwners limits.now.share_by d.asks.items d.sealed.owners) }
    ensures best { IfOk result (λ d. IsFair limits.now.share_by d.asks.items (seen d.sealed.tree)
        d.sealed.grants) }
    ensures turns { IfOk result
        (λ d. IsTurned had.now limits.now d.lanes.items d.asks.items d.sealed.grants) }
    ensures purse { IfOk result (λ d.
        d.purse ≡ record { left = sum d.sealed.grants; tick = tick }) }
    ensures issued { IfOk result (λ d. book.new.issued ≡ book.old.issued + sum d.sealed.grants) }
    ensures most { IfOk result (λ d. book.old.issued + sum d.sealed.grants ≤ MAX_ISSUED) }
    ensures later { OnOk result (IsLater tick book.old.last_tick) }
    ensures last_tick { OnOk result (book.new.last_tick ≡ Some tick) }
    ensures undrawn { book.new.undrawn ≡ book.old.undrawn }
    ensures refused { IfErr result (IsRefused A limits.now tick asks.now book.old) }
    ensures unchanged { OnErr result (book.new ≡ book.old) }
{
    if let Some(last) = book.last_tick() {
        if tick <= last {
            return Err(RoundRefusal::NotYet(last));
        }
    }
    let FairShares {
        lanes,
        asks: leaf_asks,
        sealed,
    } = shares(alloc, limits, tick, asks, had)?;
    match book.enter_out(&sealed, tick) {
        Ok(purse) => Ok(Decision {
            lanes,
            asks: leaf_asks,
            sealed,
            purse,
        }),
        Err(BookFault::NotYet(last)) => Err(RoundRefusal::NotYet(last)),
        Err(BookFault::BookFull) => Err(RoundRefusal::BookFull),
    }
}
