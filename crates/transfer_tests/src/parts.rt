//! A desk of two lanes, with its parts lent, and settled once they are returned.

ghost use Rattle.std.specs.Prelude.{◌≡◌, ◌+◌, true, []};
ghost use Rattle.desk_rule.specs.Lanes.{fresh};
ghost use Rattle.lane_desk.specs.Seats.{desk_id, seat_view, IsSeatOf};
ghost use Rattle.lane_desk.specs.Traces.{back, IsRoundOf};
ghost use Rattle.line_rates.specs.Rates.{Rates};
ghost use Rattle.round_pace.specs.Earned.{tick_of};
ghost use Rattle.round_pace.specs.Histories.{rates_of};
ghost use Rattle.round_pace.specs.Paced.{IsPacedFrom};

use super::expect::{OfTest, limits};
use super::house::{House, TestClock};
use grant_ledger::{Book, SettledNumbers, Tally};
use lane_desk::{Desk, LaneSeat, Rounds, Worked, open_desk};
use lent_parts::{
    LentDesk, LentRounds, LentWorker, MisplacedParts, Moment, PartsName, RoundClock, settle_lent,
};
use round_cadence::Cadence;
use round_pace::Pace;
use std::process::Abort;
use std::sync::Wait;
use test_checked_desk::two_seats;

/// A desk of two lanes, just opened, with its rounds, its seats and their tallies.
pub(crate) struct Opened {
    pub(crate) desk: Desk<OfTest>,
    pub(crate) rounds: Rounds<OfTest>,
    pub(crate) pace: Pace,
    cadence: Cadence,
    pub(crate) begun: Moment,
    first: LaneSeat<OfTest>,
    second: LaneSeat<OfTest>,
    first_tally: Tally<OfTest>,
    second_tally: Tally<OfTest>,
    ghost two: { desk.lanes ≡ 2 },
    ghost led: { IsRoundOf desk rounds.desk × (back rounds.desk ≡ []) },
    ghost first_is: { IsSeatOf desk first × (first.lane ≡ 0) × (seat_view first ≡ fresh) },
    ghost second_is: { IsSeatOf desk second × (second.lane ≡ 1) × (seat_view second ≡ fresh) },
    ghost tallies: { (first_tally.moved + first_tally.back ≡ 0)
        × (second_tally.moved + second_tally.back ≡ 0) },
}

impl Opened {
    /// A desk whose rounds have this rate of the server; 0 limits nothing.
    pub(crate) fn new(rt: &(impl Abort + AllocGlobal), rate: u64) -> Opened
        ensures paced { (rates : Rates)
            × IsPacedFrom (tick_of result.begun.micros) rates result.pace }
    {
        let begun = TestClock { micros: 0 }.moment();
        let pace = Pace::of(rt.alloc(), limits(rt, rate), begun.micros()).expect(rt, "a pace");
        let cadence = Cadence::new(rt.alloc(), 0, 0).expect(rt, "memory");
        let (book, mut tally) = Book::<OfTest>::open(0);
        match open_desk(rt.alloc(), 2, &book) {
            Ok((desk, round, seats)) => {
                let Some((first, second)) = two_seats(&desk, seats) else {
                    panic!(rt; "no seats")
                };
                let first_tally = tally.split();
                let second_tally = tally.split();
                Opened {
                    desk,
                    rounds: Rounds::new(round, book, tally),
                    pace,
                    cadence,
                    begun,
                    first,
                    second,
                    first_tally,
                    second_tally,
                }
            }
            Err(_) => panic!(rt; "no desk"),
        }
    }
}

/// The parts of a desk, as lent to its threads.
pub(crate) struct Lent<B: PartsName> {
    pub(crate) house: House<B>,
    pub(crate) first: LentWorker<B, OfTest>,
    pub(crate) second: LentWorker<B, OfTest>,
}

impl<B: PartsName> Lent<B> {
    pub(crate) fn new(opened: Opened) -> Lent<B>
        requires desk { desk_id opened.desk ≡ B.desk }
        requires lanes { opened.desk.lanes ≡ B.lanes }
        requires paced { (rates : Rates)
            × IsPacedFrom (tick_of opened.begun.micros) rates opened.pace }
        requires rates { B.rates (rates_of opened.pace) ≡ true }
        requires carried { opened.rounds.book.issued ≡ B.carried }
    {
        let Opened {
            desk,
            rounds,
            pace,
            cadence,
            begun,
            first,
            second,
            first_tally,
            second_tally,
        } = opened;
        let rounds = LentRounds::new(rounds, pace, cadence, begun, false);
        Lent {
            house: House::new(LentDesk::new(desk), rounds),
            first: LentWorker::new(first, first_tally),
            second: LentWorker::new(second, second_tally),
        }
    }

    /// Settles the desk.
    pub(crate) fn settle<R: Abort + AllocGlobal + Wait>(self, rt: &R) -> SettledNumbers
        ensures sum { result.issued ≡ result.moved + result.back }
    {
        let Lent {
            house,
            first,
            second,
        } = self;
        let mut workers = Vec::with_capacity(rt.alloc(), 2).expect(rt, "memory");
        workers.push_reserved(first);
        workers.push_reserved(second);
        settle_house(rt, house, workers)
    }
}

/// No part is out of its place in a test, which would not end otherwise.
#[derive(Drop)]
struct InPlace;

impl MisplacedParts for InPlace {
    fn misplaced(&mut self, _lane: usize) {}
}

/// Settles the desk of a house, from all workers in the order of their lanes.
pub(crate) fn settle_house<B: PartsName, R: Abort + AllocGlobal + Wait>(
    rt: &R,
    house: House<B>,
    workers: Vec<LentWorker<B, OfTest>>,
) -> SettledNumbers
    ensures sum { result.issued ≡ result.moved + result.back }
{
    let room = Vec::<Worked<OfTest>>::with_capacity(rt.alloc(), workers.len());
    let (desk, rounds) = house.into_parts();
    let settlement = settle_lent(
        rt,
        &mut InPlace,
        desk,
        rounds,
        workers,
        room.expect(rt, "memory"),
    );
    settlement.numbers()
}
