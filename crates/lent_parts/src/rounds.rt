//! The rounds of a desk with its book and their pace, as lent to the thread that holds a round.

ghost use Rattle.std.specs.Prelude.{◌≡◌, ◌+◌, ◌/◌, ◌++◌, [], ◌∷◌, true, max, Some, sum, IfOk, IfErr, OnOk, OnErr};
ghost use Rattle.fair_terms.specs.Fair.{IsFair};
ghost use Rattle.limit_tree.specs.Outline.{limits as seen};
ghost use Rattle.lent_parts.specs.Names.{RoundsAt};
ghost use Rattle.lane_desk.specs.Traces.{traces};
ghost use Rattle.lane_desk.specs.Tried.{is_given};
ghost use Rattle.lane_desk.specs.Rounded.{IsRoundOver, IsRefusedRoundOver};
ghost use Rattle.round_pace.specs.Changed.{IsChangedTo};
ghost use Rattle.round_pace.specs.Earned.{tick_of};
ghost use Rattle.round_pace.specs.Histories.{rates_of, after};
ghost use Rattle.round_pace.specs.Offered.{offer_round};
ghost use Rattle.line_rates.specs.Rates.{Rates};
ghost use Rattle.round_pace.specs.Paced.{IsPacedFrom};
ghost use Rattle.round_pace.specs.Rows.{are_free, has_floor, rows_of};
ghost use Rattle.round_tally.specs.Counts.{tallied};
ghost use Rattle.paced_rounds.specs.History.{round_at, history, ended_in, stretch_under, stretches};
ghost use Rattle.paced_rounds.specs.HeldLeaves.{AreHeld};
ghost use Rattle.paced_rounds.specs.Beating.{has_plenty, is_open, due_open, opens_in};
ghost use Rattle.paced_rounds.specs.Allowed.{AreAllowed};

use crate::clock::Moment;
use crate::counting::{RoundLimits, count_all};
use crate::desk::LentDesk;
use crate::look::RoundLook;
use crate::name::PartsName;
use grant_ledger::MAX_LANES;
use lane_desk::{RoundFault, RoundRecord, Rounds};
use line_rates::{Limits, Way};
use paced_rounds::{HeldNames, PacedRounds, RoundsAccount};
use round_cadence::Cadence;
use round_pace::{Due, Pace, TICK_MICROS};
use round_tally::Tallies;
use std::alloc::{AllocError, Allocator, Global};
use std::marker::PhantomData;

/// The length of a window of the tallies, in microseconds: the longest interval between two fillings of a row.
const WINDOW: u64 = 32 * TICK_MICROS;

/// The rounds of the desk with a name, with the book of the name `N`, at a pace whose rates pass the test of the name, and
/// the tallies of the transfers that they granted to. Each was held under such rates, at a moment that was read from a
/// clock, and all that they have issued is in a tally. They cannot be dropped.
pub struct LentRounds<B: PartsName, N> {
    rounds: PacedRounds<N>,
    tallies: Tallies,
    names: HeldNames,
    // the octets that were issued before
    before: u64,
    name: PhantomData<B>,
    ghost named: { RoundsAt B.desk B.lanes rounds.rounds.desk },
    ghost rated: { B.rates (rates_of rounds.pace) ≡ true },
    ghost carried: { rounds.carried ≡ B.carried },
    ghost ended: { AreAllowed B.rates (ended_in rounds.ended.items) },
    ghost counted: { rounds.rounds.book.issued ≡ tallied tallies + before },
}

impl<B: PartsName, N> LentRounds<B, N> {
    /// The rounds of the desk, before any seat was returned, at a new pace that was made at this moment, with the beats of
    /// its rows and with nothing tallied. What holds transfers back is counted if that is wanted.
    pub fn new(
        rounds: Rounds<N>,
        pace: Pace,
        cadence: Cadence,
        begun: Moment,
        is_wanted: bool,
    ) -> LentRounds<B, N>
        requires named { RoundsAt B.desk B.lanes rounds.desk }
        requires new { (rates : Rates) × IsPacedFrom (tick_of begun.micros) rates pace }
        requires rated { B.rates (rates_of pace) ≡ true }
        requires carried { rounds.book.issued ≡ B.carried }
        ensures rounds { result.rounds.rounds ≡ rounds }
        ensures pace { (result.rounds.pace ≡ pace) × (result.rounds.cadence ≡ cadence) }
        ensures moments { (result.rounds.opened ≡ begun.micros)
            × (result.rounds.latest ≡ begun.micros) }
        ensures before { result.before ≡ rounds.book.issued }
    {
        let rounds = PacedRounds::new(rounds, pace, cadence, begun.micros);
        let before = rounds.issued();
        LentRounds {
            rounds,
            tallies: Tallies::new(),
            names: HeldNames::new(is_wanted),
            before,
            name: PhantomData,
        }
    }

    /// Returns whether all rows that a transfer of a user is within are open at a moment in microseconds.
    pub fn is_open(&self, way: Way, user: u32, now: u64) -> bool
        ensures open { result ≡ is_open way user self.now.rounds.pace self.now.rounds.cadence now }
    {
        self.rounds.is_open(way, user, now)
    }

    /// Returns whether the rows of a user's transfer are open at a moment in microseconds and have plenty left, as
    /// `PacedRounds::has_plenty`.
    pub fn has_plenty(&self, way: Way, user: u32, now: u64) -> bool
        ensures plenty { result
            ≡ has_plenty way user self.now.rounds.pace self.now.rounds.cadence now }
    {
        self.rounds.has_plenty(way, user, now)
    }

    /// Returns whether no rate is a limit of a user's transfers.
    pub fn is_free(&self, way: Way, user: u32) -> bool
        ensures free { result ≡ are_free (rows_of way user self.now.rounds.pace) }
    {
        self.rounds.is_free(way, user)
    }

    /// The first tick in which all rows that a transfer of a user is within are open, and whether its session has a
    /// guarantee.
    pub fn opening(&self, way: Way, user: u32) -> (u64, bool)
        ensures opens { result.0 ≡ opens_in way user self.now.rounds.pace self.now.rounds.cadence }
        ensures floor { result.1 ≡ has_floor (rows_of way user self.now.rounds.pace) }
    {
        self.rounds.opening(way, user)
    }

    /// The earliest moment of the next round for a transfer of a user.
    pub fn due_for(&self, way: Way, user: u32, now: u64) -> Due
        ensures due { result ≡ due_open way user self.now.rounds.pace self.now.rounds.cadence now }
    {
        self.rounds.due_for(way, user, now)
    }

    /// Holds a round of the given lanes of the desk, as `PacedRounds::hold`, and adds each grant to the tally of its lane's
    /// transfer, whose number is at the lane's place.
    pub fn hold<A: Allocator + Clone, D: Allocator>(
        &mut self,
        alloc: A,
        desk: &LentDesk<B, N, D>,
        now: Moment,
        given: &[bool; MAX_LANES],
        transfers: &[u64; MAX_LANES],
    ) -> Result<RoundRecord<A>, RoundFault>
        ensures tally { self.new.rounds.rounds.tally ≡ self.old.rounds.rounds.tally }
        ensures tick { let p = offer_round (tick_of (max now.micros self.old.rounds.latest))
            self.old.rounds.pace in IfOk result (λ r. r.tick ≡ p.moment / 100) }
        ensures round { let p = offer_round (tick_of (max now.micros self.old.rounds.latest))
            self.old.rounds.pace in IfOk result (λ r. IsRoundOver (is_given given.now) p.offered
            (p.moment / 100) (traces self.old.rounds.rounds.desk)
            (traces self.new.rounds.rounds.desk) r.answered (seen r.sealed.tree) r.lanes.items
            r.asks.items r.sealed.grants) }
        ensures best { let p = offer_round (tick_of (max now.micros self.old.rounds.latest))
            self.old.rounds.pace in IfOk result (λ r. IsFair p.offered.share_by r.asks.items
            (seen r.sealed.tree) r.sealed.grants) }
        ensures issued { IfOk result (λ r. self.new.rounds.rounds.book.issued
            ≡ self.old.rounds.rounds.book.issued + sum r.sealed.grants) }
        ensures last_tick { let p = offer_round (tick_of (max now.micros self.old.rounds.latest))
            self.old.rounds.pace in OnOk result
            (self.new.rounds.rounds.book.last_tick ≡ Some (p.moment / 100)) }
        ensures refused { let p = offer_round (tick_of (max now.micros self.old.rounds.latest))
            self.old.rounds.pace in IfErr result (λ f. IsRefusedRoundOver A (is_given given.now)
            p.offered (p.moment / 100) self.old.rounds.rounds.book
            (traces self.old.rounds.rounds.desk) (traces self.new.rounds.rounds.desk) f.answered
            f.reason) }
        ensures unchanged { OnErr result
            (self.new.rounds.rounds.book ≡ self.old.rounds.rounds.book) }
        ensures grows { history self.new.rounds.log.items ≡ history self.old.rounds.log.items
            ++ round_at (max now.micros self.old.rounds.latest) result ∷ [] }
        ensures left { self.new.rounds.pace
            ≡ after self.old.rounds.pace (round_at (max now.micros self.old.rounds.latest) result) }
        ensures wanted { self.new.names.is_wanted ≡ self.old.names.is_wanted }
        ensures held { let p = offer_round (tick_of (max now.micros self.old.rounds.latest))
            self.old.rounds.pace in self.old.names.is_wanted ≡ true
            → IfOk result (λ r. AreHeld p.offered r.tick r.asks.items (seen r.sealed.tree)
            r.sealed.grants self.new.names.names) }
        ensures counted { IfOk result (λ r. tallied self.new.tallies
            ≡ tallied self.old.tallies + sum r.sealed.grants) }
        ensures uncounted { OnErr result (self.new.tallies ≡ self.old.tallies) }
        ensures before { self.new.before ≡ self.old.before }
    {
        let now = now.micros;
        let result = self
            .rounds
            .hold(alloc, desk.desk(), now, given, &mut self.names);
        let _ = self.rounds.issued();
        if let Ok(made) = &result {
            let limits = RoundLimits {
                names: &self.names,
                rounds: &self.rounds,
                asks: &made.asks,
                moment: now,
            };
            count_all(
                &mut self.tallies,
                &made.lanes,
                made.sealed.grants(),
                &limits,
                transfers,
                now / WINDOW,
            );
        }
        result
    }

    /// The octets issued so far.
    pub fn issued(&self) -> u64
        ensures issued { result ≡ self.now.rounds.rounds.book.issued }
    {
        self.rounds.issued()
    }

    /// The octets granted to the transfers with these numbers, by lane, and to all others before them.
    pub fn look(&self, running: &[u64; MAX_LANES]) -> RoundLook
        ensures issued { result.issued ≡ self.now.rounds.rounds.book.issued }
        ensures before { result.before ≡ self.now.before }
    {
        let issued = self.rounds.issued();
        RoundLook {
            tallies: self.tallies.running(running),
            issued,
            before: self.before,
        }
    }

    /// Puts the rates of other limits, which pass the test of the name, in force from the next round on, as
    /// `PacedRounds::change`. The tallies stay as they are. Without memory nothing is changed.
    pub fn change(
        &mut self,
        alloc: Global,
        limits: Limits,
        cadence: Cadence,
    ) -> Result<(), AllocError>
        requires allowed { B.rates limits ≡ true }
        ensures tallies { self.new.tallies ≡ self.old.tallies }
        ensures before { self.new.before ≡ self.old.before }
        ensures rounds { self.new.rounds.rounds ≡ self.old.rounds.rounds }
        ensures latest { self.new.rounds.latest ≡ self.old.rounds.latest }
        ensures pace { OnOk result (IsChangedTo limits self.old.rounds.pace self.new.rounds.pace) }
        ensures rates { OnOk result (rates_of self.new.rounds.pace ≡ limits) }
        ensures cadence { OnOk result (self.new.rounds.cadence ≡ cadence) }
        ensures none { OnOk result (history self.new.rounds.log.items ≡ []) }
        ensures ended { OnOk result (ended_in self.new.rounds.ended.items
            ≡ ended_in self.old.rounds.ended.items
            ++ stretch_under self.old.rounds.pace (history self.old.rounds.log.items) ∷ []) }
        ensures unchanged { OnErr result ((self.new.rounds.pace ≡ self.old.rounds.pace)
            × (self.new.rounds.cadence ≡ self.old.rounds.cadence)
            × (history self.new.rounds.log.items ≡ history self.old.rounds.log.items)
            × (ended_in self.new.rounds.ended.items ≡ ended_in self.old.rounds.ended.items)) }
    {
        self.rounds.change(alloc, limits, cadence)
    }

    /// Returns the rounds and their account, once no thread has them any more. The rates of its history pass the test of the
    /// name.
    pub fn into_rounds(self) -> (Rounds<N>, RoundsAccount<N>)
        ensures rounds { (result.0 ≡ self.rounds.rounds) × RoundsAt B.desk B.lanes result.0.desk }
        ensures rates { AreAllowed B.rates (ended_in result.1.rounds.items) }
        ensures account { (result.1.issued ≡ result.0.book.issued)
            × (result.1.carried ≡ B.carried) }
        ensures moments { (result.1.opened ≡ self.rounds.opened)
            × (result.1.latest ≡ self.rounds.latest) }
        ensures history { ended_in result.1.rounds.items ≡ stretches self.rounds.ended.items
            self.rounds.pace self.rounds.log.items }
    {
        let LentRounds {
            rounds,
            tallies: _,
            names: _,
            before: _,
            name: _,
        } = self;
        rounds.into_rounds()
    }
}
