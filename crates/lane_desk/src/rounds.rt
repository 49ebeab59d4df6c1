//! The round's seat with its book.

ghost use Rattle.std.specs.Prelude.{◌≡◌, ◌+◌, ◌/◌, Some, sum, IfOk, IfErr, OnOk, OnErr};
ghost use Rattle.limit_tree.specs.Outline.{limits as seen};
ghost use Rattle.fair_terms.specs.Fair.{AreSealedOwners, IsFair};
ghost use Rattle.desk_rule.specs.Lanes.{posted_in};
ghost use Rattle.lane_desk.specs.Traces.{traces, IsRoundOf, IsSameRound};
ghost use Rattle.lane_desk.specs.Peers.{IsTurned};
ghost use Rattle.lane_desk.specs.Posted.{AllAnswered};
ghost use Rattle.lane_desk.specs.Tried.{is_given};
ghost use Rattle.lane_desk.specs.Rounded.{IsRoundOver, IsRefusedRoundOver};

use crate::desk::Desk;
use crate::record::{RoundFault, RoundRecord};
use crate::round::RoundDesk;
use grant_ledger::{Book, MAX_LANES, Tally};
use line_rates::Limits;
use std::alloc::Allocator;

/// The round's seat, with the book from which it posts and a tally: the octets issued are those in the tally and all
/// amounts posted. Between rounds, each ask collected is answered. It cannot be dropped.
pub struct Rounds<N> {
    pub(crate) desk: RoundDesk<N>,
    pub(crate) book: Book<N>,
    pub(crate) tally: Tally<N>,
    ghost reported: { book.issued ≡ tally.moved + tally.back + posted_in (traces desk) },
    ghost answered: { AllAnswered (traces desk) },
}

impl<N> Rounds<N> {
    /// The rounds of a desk, with a book that has issued the octets in the tally and those posted. A desk just opened
    /// has posted nothing, and a book just opened has issued the octets in its tally.
    pub fn new(desk: RoundDesk<N>, book: Book<N>, tally: Tally<N>) -> Rounds<N>
        requires reported { book.issued ≡ tally.moved + tally.back + posted_in (traces desk) }
        requires answered { AllAnswered (traces desk) }
        ensures parts { (result.desk ≡ desk) × (result.book ≡ book) × (result.tally ≡ tally) }
    {
        Rounds { desk, book, tally }
    }

    /// The octets issued so far.
    pub fn issued(&self) -> u64
        ensures issued { result ≡ self.now.book.issued }
    {
        self.book.issued()
    }

    /// The tick of the last round that was not refused; `None` before the first.
    pub fn last_tick(&self) -> Option<u64>
        ensures last_tick { result ≡ self.now.book.last_tick }
    {
        self.book.last_tick()
    }

    /// A round of the given lanes, which may be refused: tries each of them once and no other, decides for the asks found
    /// at a moment in milliseconds, and answers each. Lanes are given by `true` in their place. The asks of lanes that have had
    /// least, by `had`, are the first leaves: the remainder of whole octets falls to them.
    pub fn round_of<L: Allocator, A: Allocator + Clone, D: Allocator>(
        &mut self,
        alloc: A,
        desk: &Desk<N, D>,
        limits: &Limits<L>,
        moment: u64,
        given: &[bool; MAX_LANES],
        had: &[u64; MAX_LANES],
    ) -> Result<RoundRecord<A>, RoundFault>
        requires desk { IsRoundOf desk.now self.old.desk }
        ensures same { IsSameRound self.old.desk self.new.desk }
        ensures tally { self.new.tally ≡ self.old.tally }
        ensures tick { IfOk result (λ r. r.tick ≡ moment / 100) }
        ensures round { IfOk result (λ r. IsRoundOver (is_given given.now) limits.now (moment / 100)
            (traces self.old.desk) (traces self.new.desk) r.answered (seen r.sealed.tree)
            r.lanes.items r.asks.items r.sealed.grants) }
        ensures owners { IfOk result
            (λ r. AreSealedOwners limits.now.share_by r.asks.items r.sealed.owners) }
        ensures best { IfOk result (λ r. IsFair limits.now.share_by r.asks.items
            (seen r.sealed.tree) r.sealed.grants) }
        ensures turns { IfOk result (λ r. IsTurned had.now limits.now r.lanes.items r.asks.items
            r.sealed.grants) }
        ensures issued { IfOk result
            (λ r. self.new.book.issued ≡ self.old.book.issued + sum r.sealed.grants) }
        ensures last_tick { OnOk result (self.new.book.last_tick ≡ Some (moment / 100)) }
        ensures refused { IfErr result (λ f. IsRefusedRoundOver A (is_given given.now) limits.now
            (moment / 100) self.old.book (traces self.old.desk) (traces self.new.desk) f.answered
            f.reason) }
        ensures unchanged { OnErr result (self.new.book ≡ self.old.book) }
    {
        self.desk
            .round_of(alloc, desk, limits, moment, &mut self.book, given, had)
    }
}
