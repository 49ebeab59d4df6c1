//! A complete round.

ghost use Rattle.std.specs.Prelude.{◌≡◌, ◌+◌, ◌/◌, ◌≤◌, Some, sum, IfOk, IfErr, OnOk, OnErr};
ghost use Rattle.limit_tree.specs.Outline.{limits as seen};
ghost use Rattle.fair_terms.specs.Fair.{AreSealedOwners, IsFair};
ghost use Rattle.desk_rule.specs.Lanes.{posted_in};
ghost use Rattle.lane_desk.specs.Traces.{traces, IsRoundOf, IsSameRound};
ghost use Rattle.lane_desk.specs.Peers.{IsTurned};
ghost use Rattle.lane_desk.specs.Posted.{AllAnswered};
ghost use Rattle.lane_desk.specs.Tried.{is_given};
ghost use Rattle.lane_desk.specs.Rounded.{IsRound, IsRefusedRound, IsRoundOver, IsRefusedRoundOver};

use crate::asks::Asks;
use crate::collect::collect_all;
use crate::decision::{Decision, decide};
use crate::desk::Desk;
use crate::post::{post_all, refuse_all};
use crate::refusal::RoundRefusal;
use crate::round::RoundDesk;
use grant_certificate::Sealed;
use grant_ledger::{Book, MAX_LANES};
use line_rates::{Ask, Limits};
use std::alloc::{Allocator, Global};

/// The record of a round.
#[derive(Drop)]
pub struct RoundRecord<A: Allocator = Global> {
    /// The tick of its decision: a tenth of a second.
    pub tick: u64,
    /// The lanes answered: bit i is set if lane i was collected.
    pub answered: u64,
    /// The lane of each leaf of the limit tree.
    pub lanes: Vec<u8, A>,
    /// The ask of each leaf.
    pub asks: Vec<Ask, A>,
    /// The limit tree with the grants of its leaves, which are best.
    pub sealed: Sealed<A>,
}

/// The reason for which a round was refused, and the lanes whose asks it answered with 0 octets: bit i is set if lane i
/// was collected.
#[derive(Clone, Copy, Debug, PartialEq, Eq)]
pub struct RoundFault {
    pub reason: RoundRefusal,
    pub answered: u64,
}

impl<N> RoundDesk<N> {
    /// Tries each of the given lanes once in rising order, and no other: those whose place in `given` is true. Decides
    /// for the asks found at a moment in milliseconds, enters the decision into the book, and answers each ask. The asks of
    /// lanes that have had least, by `had`, are the first leaves. A refused
    /// round answers each with 0 octets, and leaves the book unchanged.
    ///
    /// Returns `NotYet` if the tick is not above that of the book's last entry; otherwise `Plan` if the limit tree of
    /// the tick has a fault, `Memory`, or `BookFull` if the book would issue too much.
    pub fn round_of<L: Allocator, A: Allocator + Clone, D: Allocator>(
        &mut self,
        alloc: A,
        desk: &Desk<N, D>,
        limits: &Limits<L>,
        moment: u64,
        book: &mut Book<N>,
        given: &[bool; MAX_LANES],
        had: &[u64; MAX_LANES],
    ) -> Result<RoundRecord<A>, RoundFault>
        requires desk { IsRoundOf desk.now self.old }
        requires answered { AllAnswered (traces self.old) }
        requires issued { posted_in (traces self.old) ≤ book.old.issued }
        ensures same { IsSameRound self.old self.new }
        ensures answered { AllAnswered (traces self.new) }
        ensures tick { IfOk result (λ r. r.tick ≡ moment / 100) }
        ensures round { IfOk result (λ r. IsRoundOver (is_given given.now) limits.now (moment / 100)
            (traces self.old) (traces self.new) r.answered (seen r.sealed.tree) r.lanes.items r.asks.items
            r.sealed.grants) }
        ensures owners { IfOk result
            (λ r. AreSealedOwners limits.now.share_by r.asks.items r.sealed.owners) }
        ensures best { IfOk result (λ r. IsFair limits.now.share_by r.asks.items
            (seen r.sealed.tree) r.sealed.grants) }
        ensures turns { IfOk result (λ r. IsTurned had.now limits.now r.lanes.items r.asks.items
            r.sealed.grants) }
        ensures issued { IfOk result
            (λ r. book.new.issued ≡ book.old.issued + sum r.sealed.grants) }
        ensures total { IfOk result (λ r. posted_in (traces self.new)
            ≡ posted_in (traces self.old) + sum r.sealed.grants) }
        ensures last_tick { OnOk result (book.new.last_tick ≡ Some (moment / 100)) }
        ensures undrawn { book.new.undrawn ≡ book.old.undrawn }
        ensures refused { IfErr result (λ f. IsRefusedRoundOver A (is_given given.now) limits.now
            (moment / 100) book.old (traces self.old) (traces self.new) f.answered f.reason) }
        ensures unposted { OnErr result
            (posted_in (traces self.new) ≡ posted_in (traces self.old)) }
        ensures unchanged { OnErr result (book.new ≡ book.old) }
    {
        let tick = moment / 100;
        let mut asks = Asks::new();
        self.answers_end();
        collect_all(self, desk, given, &mut asks);
        let answered = asks.answered();
        match decide(alloc, limits, tick, asks.as_slice(), had, book) {
            Ok(decision) => {
                let Decision {
                    lanes,
                    asks: leaf_asks,
                    sealed,
                    purse,
                } = decision;
                post_all(self, desk, &lanes, sealed.grants(), purse);
                Ok(RoundRecord {
                    tick,
                    answered,
                    lanes,
                    asks: leaf_asks,
                    sealed,
                })
            }
            Err(reason) => {
                refuse_all(self, desk, asks.as_slice(), tick);
                Err(RoundFault { reason, answered })
            }
        }
    }

    /// A round of all lanes, as `round_of`: tries each lane once in rising order, decides for the asks found at a moment
    /// in milliseconds, enters the decision into the book, and answers each ask.
    pub fn round<L: Allocator, A: Allocator + Clone, D: Allocator>(
        &mut self,
        alloc: A,
        desk: &Desk<N, D>,
        limits: &Limits<L>,
        moment: u64,
        book: &mut Book<N>,
    ) -> Result<RoundRecord<A>, RoundFault>
        requires desk { IsRoundOf desk.now self.old }
        requires answered { AllAnswered (traces self.old) }
        requires issued { posted_in (traces self.old) ≤ book.old.issued }
        ensures same { IsSameRound self.old self.new }
        ensures answered { AllAnswered (traces self.new) }
        ensures tick { IfOk result (λ r. r.tick ≡ moment / 100) }
        ensures round { IfOk result (λ r. IsRound limits.now (moment / 100) (traces self.old)
            (traces self.new) r.answered (seen r.sealed.tree) r.lanes.items r.asks.items
            r.sealed.grants) }
        ensures owners { IfOk result
            (λ r. AreSealedOwners limits.now.share_by r.asks.items r.sealed.owners) }
        ensures best { IfOk result (λ r. IsFair limits.now.share_by r.asks.items
            (seen r.sealed.tree) r.sealed.grants) }
        ensures issued { IfOk result
            (λ r. book.new.issued ≡ book.old.issued + sum r.sealed.grants) }
        ensures total { IfOk result (λ r. posted_in (traces self.new)
            ≡ posted_in (traces self.old) + sum r.sealed.grants) }
        ensures last_tick { OnOk result (book.new.last_tick ≡ Some (moment / 100)) }
        ensures undrawn { book.new.undrawn ≡ book.old.undrawn }
        ensures refused { IfErr result (λ f. IsRefusedRound A limits.now (moment / 100) book.old
            (traces self.old) (traces self.new) f.answered f.reason) }
        ensures unposted { OnErr result
            (posted_in (traces self.new) ≡ posted_in (traces self.old)) }
        ensures unchanged { OnErr result (book.new ≡ book.old) }
    {
        self.round_of(
            alloc,
            desk,
            limits,
            moment,
            book,
            &[true; MAX_LANES],
            &[0; MAX_LANES],
        )
    }
}
