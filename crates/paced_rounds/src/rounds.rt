//! The rounds of a desk at a pace.

ghost use Rattle.std.specs.Prelude.{◌≡◌, ◌+◌, ◌≤◌, ◌/◌, ◌++◌, [], ◌∷◌, max, true, Some, sum, sum_by, IfOk, IfErr, OnOk, OnErr};
ghost use Rattle.fair_terms.specs.Fair.{IsFair};
ghost use Rattle.limit_tree.specs.Outline.{limits as seen};
ghost use Rattle.line_rates.specs.Rates.{Rates};
ghost use Rattle.lane_desk.specs.Traces.{traces, IsRoundOf, IsSameRound};
ghost use Rattle.lane_desk.specs.Tried.{is_given};
ghost use Rattle.lane_desk.specs.Rounded.{IsRoundOver, IsRefusedRoundOver};
ghost use Rattle.round_pace.specs.Earned.{tick_of};
ghost use Rattle.round_pace.specs.Offered.{offer_round};
ghost use Rattle.round_pace.specs.Changed.{IsChangedTo};
ghost use Rattle.round_pace.specs.Paced.{IsPacedFrom};
ghost use Rattle.round_pace.specs.Histories.{rates_of, after};
ghost use Rattle.round_pace.specs.Stretches.{StretchesKeep};
ghost use Rattle.paced_rounds.specs.History.{round_at, history, ended_in, stretch_under, stretches, octets_in, IsRun};
ghost use Rattle.paced_rounds.specs.Spans.{AllBetween};
ghost use Rattle.paced_rounds.specs.HeldLeaves.{AreHeld};
ghost use Rattle.paced_rounds.specs.Beating.{beats_after, closed_in, has_plenty, is_open, due_open, opens_in};
ghost use Rattle.paced_rounds.specs.Turning.{had_at, had_after};
ghost use Rattle.paced_rounds.specs.LaneTurns.{turns_in, turns_at, turns_after, IsSecond};
ghost use Rattle.round_pace.specs.Rows.{are_free, has_floor, rows_of};

use crate::account::RoundsAccount;
use crate::beats::beat;
use crate::charge::charge;
use crate::held::{HeldNames, see};
use crate::lanes::{begin, note};
use crate::turns::{RISING, had_at, have};
use grant_ledger::{MAX_LANES, Tally};
use lane_desk::{Desk, RoundFault, RoundRecord, Rounds};
use line_rates::{Ask, Limits, Name, Way, grants_keep_names};
use proof_log::ProofLog;
use round_cadence::Cadence;
use round_pace::{Due, Pace, TICK_MICROS, histories_keep_rates, stretches_keep_rates};
use std::alloc::{AllocError, Allocator, Global};

/// Most octets that the asks of a round want together: each of 64 lanes at most a buffer of 65,536.
pub const MOST_ASKED: u64 = 4_194_304;

/// The rounds of a desk with their pace. The log has the moment of each round since the last change of rates, and the
/// asks that it answered with their grants; the other log has each stretch before, between two changes. They cannot be
/// dropped.
pub struct PacedRounds<N, A: Allocator = Global> {
    rounds: Rounds<N>,
    pace: Pace<A>,
    /// The moment of the last round, in microseconds.
    latest: u64,
    /// The moment at which the pace was made, in microseconds.
    opened: u64,
    /// The octets issued before the first round.
    carried: u64,
    /// The ticks in which the rows are open.
    cadence: Cadence<A>,
    /// The octets that each lane has had in the second of the last round, in 64ths.
    had: [u64; MAX_LANES],
    /// The rounds in that second, each with the pace that offered it, and the lane, the ask and the grant of each leaf.
    turns: ProofLog<Pace<A>, ProofLog<(u8, Ask), u64>>,
    log: ProofLog<u64, ProofLog<Ask, u64>>,
    /// The stretches that have ended, each with the pace that its rounds left.
    ended: ProofLog<Pace<A>, ProofLog<u64, ProofLog<Ask, u64>>>,
    ghost begun: { opened ≤ latest },
    ghost spanned: { ∥ AllBetween opened latest (stretches ended.items pace log.items) ∥₁ },
    ghost run: { ∥ IsRun pace latest (stretches ended.items pace log.items) ∥₁ },
    ghost turned: { ∥ IsSecond had (turns_in turns.items) ∥₁ },
    ghost reported: { rounds.book.issued
        ≡ carried + sum_by octets_in (stretches ended.items pace log.items) },
}

impl<N, A: Allocator> PacedRounds<N, A> {
    /// The rounds of a desk with a new pace, which was made at this moment in microseconds, and the beats of its rows.
    pub fn new(rounds: Rounds<N>, pace: Pace<A>, cadence: Cadence<A>, now: u64) -> PacedRounds<N, A>
        requires new { (rates : Rates) × IsPacedFrom (tick_of now) rates pace }
        ensures rounds { result.rounds ≡ rounds }
        ensures pace { result.pace ≡ pace }
        ensures latest { result.latest ≡ now }
        ensures opened { result.opened ≡ now }
        ensures carried { result.carried ≡ rounds.book.issued }
        ensures cadence { result.cadence ≡ cadence }
        ensures turns { turns_in result.turns.items ≡ [] }
        ensures none { history result.log.items ≡ [] }
        ensures ended { ended_in result.ended.items ≡ [] }
    {
        histories_keep_rates();
        stretches_keep_rates();
        let carried = rounds.issued();
        PacedRounds {
            rounds,
            pace,
            latest: now,
            opened: now,
            carried,
            cadence,
            had: RISING,
            log: ProofLog::new(),
            ended: ProofLog::new(),
            turns: ProofLog::new(),
        }
    }

    /// The octets issued so far.
    pub fn issued(&self) -> u64
        ensures issued { result ≡ self.now.rounds.book.issued }
    {
        self.rounds.issued()
    }

    /// Returns whether all rows that a transfer of a user is within are open at a moment in microseconds.
    pub fn is_open(&self, way: Way, user: u32, now: u64) -> bool
        ensures open { result ≡ is_open way user self.now.pace self.now.cadence now }
    {
        let rows = self.pace.rows_of(way, user);
        self.cadence.opens(way, user, &rows) <= now / TICK_MICROS
    }

    /// Returns whether all rows that a transfer of a user is within are open at a moment in microseconds, and each has
    /// [`MOST_ASKED`] octets left, so that other asks of a round leave it all that it wants.
    pub fn has_plenty(&self, way: Way, user: u32, now: u64) -> bool
        ensures plenty { result ≡ has_plenty way user self.now.pace self.now.cadence now }
    {
        let rows = self.pace.rows_of(way, user);
        self.cadence.opens(way, user, &rows) <= now / TICK_MICROS && rows.have_left(MOST_ASKED)
    }

    /// Returns whether no rate is a limit of a user's transfers.
    pub fn is_free(&self, way: Way, user: u32) -> bool
        ensures free { result ≡ are_free (rows_of way user self.now.pace) }
    {
        self.pace.rows_of(way, user).are_free()
    }

    /// The first tick in which all rows that a transfer of a user is within are open, and whether its session has a
    /// guarantee.
    pub fn opening(&self, way: Way, user: u32) -> (u64, bool)
        ensures opens { result.0 ≡ opens_in way user self.now.pace self.now.cadence }
        ensures floor { result.1 ≡ has_floor (rows_of way user self.now.pace) }
    {
        let rows = self.pace.rows_of(way, user);
        (self.cadence.opens(way, user, &rows), rows.has_floor())
    }

    /// The earliest moment of the next round for a transfer of a user: that at which its rows open; if they are open,
    /// that of `Pace::due_for`.
    pub fn due_for(&self, way: Way, user: u32, now: u64) -> Due
        ensures due { result ≡ due_open way user self.now.pace self.now.cadence now }
    {
        let rows = self.pace.rows_of(way, user);
        let opens = self.cadence.opens(way, user, &rows);
        if now / TICK_MICROS < opens {
            return Due::At(opens.saturating_mul(TICK_MICROS));
        }
        self.pace.due_for(way, user, now)
    }

    /// The name of the innermost row that an ask's transfer is within and that is closed at a moment in microseconds; none
    /// if all are open.
    pub fn closed_by(&self, ask: Ask, now: u64) -> Option<Name>
        ensures closed { result ≡ closed_in ask self.now.pace self.now.cadence now }
    {
        let rows = self.pace.rows_of(ask.way, ask.user);
        self.cadence.closed_by(ask, &rows, now / TICK_MICROS)
    }

    /// Holds a round of the given lanes (those with `true` in their place) at a moment in microseconds; one before that
    /// of the last round counts as that moment. Tries each given lane once, divides what is left under the rates among
    /// the asks found, answers each, and subtracts each grant from the rows of its own ask. The asks of lanes that have had
    /// least in the second of this moment are the first leaves, to which remainders of whole octets fall. A refused round
    /// answers each ask with 0 octets. Names what held back each leaf, if that is wanted.
    pub fn hold<B: Allocator + Clone, D: Allocator>(
        &mut self,
        alloc: B,
        desk: &Desk<N, D>,
        now: u64,
        given: &[bool; MAX_LANES],
        names: &mut HeldNames,
    ) -> Result<RoundRecord<B>, RoundFault>
        requires desk { IsRoundOf desk.now self.old.rounds.desk }
        ensures same { IsSameRound self.old.rounds.desk self.new.rounds.desk }
        ensures tally { self.new.rounds.tally ≡ self.old.rounds.tally }
        ensures tick { let p = offer_round (tick_of (max now self.old.latest)) self.old.pace in
            IfOk result (λ r. r.tick ≡ p.moment / 100) }
        ensures round { let p = offer_round (tick_of (max now self.old.latest)) self.old.pace in
            IfOk result (λ r. IsRoundOver (is_given given.now) p.offered (p.moment / 100)
            (traces self.old.rounds.desk) (traces self.new.rounds.desk) r.answered
            (seen r.sealed.tree) r.lanes.items r.asks.items r.sealed.grants) }
        ensures best { let p = offer_round (tick_of (max now self.old.latest)) self.old.pace in
            IfOk result (λ r. IsFair p.offered.share_by r.asks.items (seen r.sealed.tree)
            r.sealed.grants) }
        ensures issued { IfOk result (λ r.
            self.new.rounds.book.issued ≡ self.old.rounds.book.issued + sum r.sealed.grants) }
        ensures last_tick { let p = offer_round (tick_of (max now self.old.latest)) self.old.pace in
            OnOk result (self.new.rounds.book.last_tick ≡ Some (p.moment / 100)) }
        ensures refused { let p = offer_round (tick_of (max now self.old.latest)) self.old.pace in
            IfErr result (λ f. IsRefusedRoundOver B (is_given given.now) p.offered (p.moment / 100)
            self.old.rounds.book (traces self.old.rounds.desk) (traces self.new.rounds.desk)
            f.answered f.reason) }
        ensures unchanged { OnErr result (self.new.rounds.book ≡ self.old.rounds.book) }
        ensures latest { self.new.latest ≡ max now self.old.latest }
        ensures opened { self.new.opened ≡ self.old.opened }
        ensures carried { self.new.carried ≡ self.old.carried }
        ensures grows { history self.new.log.items ≡ history self.old.log.items
            ++ round_at (max now self.old.latest) result ∷ [] }
        ensures ended { ended_in self.new.ended.items ≡ ended_in self.old.ended.items }
        ensures left { self.new.pace
            ≡ after self.old.pace (round_at (max now self.old.latest) result) }
        ensures rates { rates_of self.new.pace ≡ rates_of self.old.pace }
        ensures beats { self.new.cadence ≡ beats_after self.new.pace
            (tick_of (max now self.old.latest)) result self.old.cadence }
        ensures had { self.new.had ≡ had_after result
            (had_at (max now self.old.latest) self.old.latest self.old.had) }
        ensures turns { let p = offer_round (tick_of (max now self.old.latest)) self.old.pace in
            turns_in self.new.turns.items ≡ turns_after p.offered result
            (turns_at (max now self.old.latest) self.old.latest (turns_in self.old.turns.items)) }
        ensures wanted { names.new.is_wanted ≡ names.old.is_wanted }
        ensures held { let p = offer_round (tick_of (max now self.old.latest)) self.old.pace in
            names.old.is_wanted ≡ true → IfOk result (λ r. AreHeld p.offered r.tick r.asks.items
            (seen r.sealed.tree) r.sealed.grants names.new.names) }
    {
        grants_keep_names();
        histories_keep_rates();
        let now = now.max(self.latest);
        let mut had = had_at(now, self.latest, self.had);
        begin(&mut self.turns, now, self.latest);
        let moment = self.pace.offer(now);
        let result = self
            .rounds
            .round_of(alloc, desk, self.pace.limits(), moment, given, &had);
        see(names, self.pace.limits(), &result);
        note(&mut self.turns, &self.pace, &result);
        let taken = match &result {
            Ok(made) => charge(&mut self.pace, &made.asks, made.sealed.grants()),
            Err(_) => ProofLog::new(),
        };
        beat(&mut self.cadence, &self.pace, &result, now / TICK_MICROS);
        have(&mut had, &result);
        self.had = had;
        self.log = self.log.and(&now, &taken);
        self.latest = now;
        result
    }

    /// A law of the type: in each second of the clock, the rounds so far granted under each name at most the greatest of
    /// its rates in force, and one octet for each change of it between two rounds of that second. The octets that they
    /// granted are those issued.
    pub fn rates_are_kept(&self)
        ensures kept { StretchesKeep
            (stretches self.now.ended.items self.now.pace self.now.log.items) }
        ensures issued { self.now.rounds.book.issued ≡ self.now.carried
            + sum_by octets_in (stretches self.now.ended.items self.now.pace self.now.log.items) }
    {
        stretches_keep_rates();
    }

    /// Returns the rounds and their account, once no thread holds one any more.
    pub fn into_rounds(self) -> (Rounds<N>, RoundsAccount<N, A>)
        ensures rounds { result.0 ≡ self.rounds }
        ensures kept { StretchesKeep (stretches self.ended.items self.pace self.log.items) }
        ensures issued { result.0.book.issued ≡ self.carried
            + sum_by octets_in (stretches self.ended.items self.pace self.log.items) }
        ensures account { result.1.issued ≡ self.rounds.book.issued }
        ensures carried { result.1.carried ≡ self.carried }
        ensures moments { (result.1.opened ≡ self.opened) × (result.1.latest ≡ self.latest) }
        ensures history { ended_in result.1.rounds.items
            ≡ stretches self.ended.items self.pace self.log.items }
    {
        self.rates_are_kept();
        let all = self.ended.and(&self.pace, &self.log);
        let issued = self.rounds.issued();
        let PacedRounds {
            rounds,
            pace: _,
            latest,
            opened,
            carried,
            cadence: _,
            had: _,
            turns: _,
            log: _,
            ended: _,
        } = self;
        let account = RoundsAccount::of(issued, carried, opened, latest, all);
        (rounds, account)
    }
}

impl<N, A: Allocator + Clone> PacedRounds<N, A> {
    /// Puts the rates of other limits in force, from the next round on, with new beats of their rows. What is left under
    /// each name is kept, as `Pace::with_rates`. Without memory nothing is changed.
    pub fn change(
        &mut self,
        alloc: A,
        limits: Limits<A>,
        cadence: Cadence<A>,
    ) -> Result<(), AllocError>
        ensures rounds { self.new.rounds ≡ self.old.rounds }
        ensures latest { self.new.latest ≡ self.old.latest }
        ensures opened { self.new.opened ≡ self.old.opened }
        ensures carried { self.new.carried ≡ self.old.carried }
        ensures pace { OnOk result (IsChangedTo limits self.old.pace self.new.pace) }
        ensures rates { OnOk result (rates_of self.new.pace ≡ limits) }
        ensures cadence { OnOk result (self.new.cadence ≡ cadence) }
        ensures none { OnOk result (history self.new.log.items ≡ []) }
        ensures had { self.new.had ≡ self.old.had }
        ensures turns { turns_in self.new.turns.items ≡ turns_in self.old.turns.items }
        ensures ended { OnOk result (ended_in self.new.ended.items ≡ ended_in self.old.ended.items
            ++ stretch_under self.old.pace (history self.old.log.items) ∷ []) }
        ensures unchanged { OnErr result ((self.new.pace ≡ self.old.pace)
            × (self.new.cadence ≡ self.old.cadence)
            × (history self.new.log.items ≡ history self.old.log.items)
            × (ended_in self.new.ended.items ≡ ended_in self.old.ended.items)) }
    {
        stretches_keep_rates();
        let pace = self.pace.with_rates(alloc, limits)?;
        self.ended = self.ended.and(&self.pace, &self.log);
        self.log = ProofLog::new();
        self.pace = pace;
        self.cadence = cadence;
        Ok(())
    }
}
