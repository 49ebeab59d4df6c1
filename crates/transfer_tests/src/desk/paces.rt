//! Two lanes whose rounds have a pace, at moments of the test.

ghost use Rattle.std.specs.Prelude.{◌≡◌, []};
ghost use Rattle.lane_desk.specs.Seats.{IsSeatOf};
ghost use Rattle.lane_desk.specs.Traces.{back, IsRoundOf};

use super::expect::{OfTest, down, holds};
use grant_ledger::{Book, MAX_LANES, SettledNumbers};
use lane_desk::{Desk, RoundRefusal, Rounds, open_desk};
use line_rates::{Limits, UserRate, Way};
use linked_list_allocator::LocalHeap;
use paced_rounds::{HeldNames, PacedRounds};
use round_cadence::Cadence;
use round_pace::{Due, Pace};
use std::process::Abort;
use test_checked_desk::{OwnSeat, settle_two, two_seats};
use test_scarce_memory::{HEAP, leave_hole};

/// A desk of two lanes, whose workers sit, with its rounds.
struct PacedDesk {
    desk: Desk<OfTest>,
    first: OwnSeat<OfTest>,
    second: OwnSeat<OfTest>,
    rounds: PacedRounds<OfTest>,
    ghost two: { desk.lanes ≡ 2 },
    ghost led: { IsRoundOf desk rounds.rounds.desk × (back rounds.rounds.desk ≡ []) },
    ghost first_is: { IsSeatOf desk first.seat × (first.seat.lane ≡ 0) },
    ghost second_is: { IsSeatOf desk second.seat × (second.seat.lane ≡ 1) },
}

// A rate of the server, and one of user 7.
fn limits_of(rt: &(impl Abort + AllocGlobal), server: u64, user: u64) -> Limits {
    let mut users = Vec::new(rt.alloc());
    users
        .push(UserRate {
            user: 7,
            group: None,
            down: user,
            up: 0,
            session_down: 0,
            session_up: 0,
            session_down_floor: 0,
            session_up_floor: 0,
        })
        .expect(rt, "memory");
    Limits::of(server, 0, 0, Vec::new(rt.alloc()), users).expect(rt, "limits")
}

// Two octets per tick of the pace, of which user 7 gets at most one.
fn limits(rt: &(impl Abort + AllocGlobal)) -> Limits {
    limits_of(rt, 1_000, 500)
}

impl PacedDesk {
    fn open(rt: &(impl Abort + AllocGlobal)) -> PacedDesk {
        let pace = Pace::of(rt.alloc(), limits(rt), 0).expect(rt, "a pace");
        let cadence = Cadence::new(rt.alloc(), 8, 0).expect(rt, "memory");
        let (book, mut tally) = Book::<OfTest>::open(0);
        match open_desk(rt.alloc(), 2, &book) {
            Ok((desk, round, seats)) => {
                let Some((first, second)) = two_seats(&desk, seats) else {
                    panic!(rt; "no seats")
                };
                let mut first = OwnSeat::new(first, &mut tally);
                let mut second = OwnSeat::new(second, &mut tally);
                holds(rt, first.sit(&desk) && second.sit(&desk));
                PacedDesk {
                    desk,
                    first,
                    second,
                    rounds: PacedRounds::new(Rounds::new(round, book, tally), pace, cadence, 0),
                }
            }
            Err(_) => panic!(rt; "no desk"),
        }
    }

    // User 7 asks.
    fn ask_first(&mut self, rt: &impl Abort) {
        holds(rt, self.first.ask(&self.desk, down(7, 10)));
    }

    // Users 7 and 8 ask.
    fn ask_both(&mut self, rt: &impl Abort) {
        self.ask_first(rt);
        holds(rt, self.second.ask(&self.desk, down(8, 10)));
    }

    // Returns whether both take these grants.
    fn take_both(&mut self, grants: (u64, u64)) -> bool {
        self.first.take(&self.desk, 10) == Some(grants.0)
            && self.second.take(&self.desk, 10) == Some(grants.1)
    }

    // Both ask, a round is held at a moment, and both take their grants. Returns whether they are these. Both have had as
    // much in this second, which is an even one: the lower lane's turn is first.
    fn shares(&mut self, rt: &(impl Abort + AllocGlobal), now: u64, grants: (u64, u64)) -> bool {
        self.ask_both(rt);
        self.answers(rt, now, 7, grants)
    }

    // Both ask, and a round of the first lane alone is held. Returns whether that takes this grant, and the other none.
    fn shares_first(&mut self, rt: &(impl Abort + AllocGlobal), now: u64, grant: u64) -> bool {
        self.ask_both(rt);
        let mut given = [false; MAX_LANES];
        given[0] = true;
        let mut names = HeldNames::new(false);
        match self
            .rounds
            .hold(rt.alloc(), &self.desk, now, &given, &mut names)
        {
            Ok(record) => holds(rt, record.answered == 1),
            Err(_) => panic!(rt; "a round was refused"),
        }
        self.first.take(&self.desk, 10) == Some(grant) && self.second.take(&self.desk, 10).is_none()
    }

    // A round is held at a moment, in which it is first the turn of that user, and both take their grants. Returns whether
    // they are these.
    fn answers(
        &mut self,
        rt: &(impl Abort + AllocGlobal),
        now: u64,
        first: u32,
        grants: (u64, u64),
    ) -> bool {
        let turns = if first == 7 {
            [(down(7, 10), grants.0), (down(8, 10), grants.1)]
        } else {
            [(down(8, 10), grants.1), (down(7, 10), grants.0)]
        };
        let mut names = HeldNames::new(true);
        match self.rounds.hold(rt.alloc(), &self.desk, now, &[true; MAX_LANES], &mut names) {
            Ok(record) => holds(
                rt,
                record.asks.as_slice() == [turns[0].0, turns[1].0].as_slice(),
            ),
            Err(_) => panic!(rt; "a round was refused"),
        }
        // A limit holds back exactly those that get less than they asked for.
        holds(
            rt,
            names.of(0).is_some() == (turns[0].1 < 10)
                && names.of(1).is_some() == (turns[1].1 < 10),
        );
        self.take_both(grants)
    }

    // A round without memory answers both with 0 octets.
    fn is_refused(&mut self, rt: &(impl Abort + AllocGlobal), now: u64) -> bool {
        let heap = LocalHeap::new(rt.alloc(), HEAP).expect(rt, "a heap");
        let _rest = leave_hole(rt, &heap, 0).expect(rt, "no hole");
        self.ask_both(rt);
        let mut names = HeldNames::new(true);
        match self
            .rounds
            .hold(&heap, &self.desk, now, &[true; MAX_LANES], &mut names)
        {
            Ok(_) => panic!(rt; "a round without memory"),
            Err(fault) => holds(
                rt,
                fault.reason == RoundRefusal::Memory && fault.answered == 3,
            ),
        }
        self.take_both((0, 0))
    }

    // Puts these rates in force.
    fn change(&mut self, rt: &(impl Abort + AllocGlobal), server: u64, user: u64) {
        let cadence = Cadence::new(rt.alloc(), 8, 0).expect(rt, "memory");
        self.rounds
            .change(rt.alloc(), limits_of(rt, server, user), cadence)
            .expect(rt, "memory");
    }

    fn close(self, rt: &(impl Abort + AllocGlobal)) -> SettledNumbers {
        let PacedDesk {
            desk,
            mut first,
            mut second,
            rounds,
        } = self;
        holds(rt, first.rise(&desk) && second.rise(&desk));
        let room = Vec::with_capacity(rt.alloc(), 2).expect(rt, "memory");
        let (rounds, account) = rounds.into_rounds();
        let settlement = account.settle(settle_two(desk, rounds, first, second, room));
        holds(rt, settlement.carried() == 0 && settlement.opened() == 0);
        holds(rt, settlement.opened() <= settlement.latest());
        let parts = (settlement.issued(), settlement.moved(), settlement.back());
        let settled = settlement.numbers();
        holds(rt, parts == (settled.issued, settled.moved, settled.back));
        settled
    }
}

#[test]
fn a_round_is_of_the_given_lanes(rt: HostRuntime) {
    let mut paced = PacedDesk::open(&rt);
    // user 7 gets the octet of their tick, and one of the server's two is left
    holds(&rt, paced.shares_first(&rt, 0, 1));
    paced.ask_first(&rt);
    // the second lane has had less
    holds(&rt, paced.answers(&rt, 2_000, 8, (1, 2)));
    let settled = paced.close(&rt);
    holds(&rt, settled.issued == 4);
}

#[test]
fn rounds_keep_the_rates_of_their_pace(rt: HostRuntime) {
    let mut paced = PacedDesk::open(&rt);
    holds(&rt, paced.shares(&rt, 0, (1, 1)));
    // in the same tick nothing is left; a tick without a round is made up for
    holds(&rt, paced.shares(&rt, 1_999, (0, 0)));
    holds(&rt, paced.shares(&rt, 4_000, (2, 2)));
    // an earlier moment counts as the last one
    holds(&rt, paced.shares(&rt, 0, (0, 0)));
    // the server earns too little in a shorter interval: its row opens in tick 31, the last of the longest
    holds(&rt, !paced.rounds.is_open(Way::Down, 7, 61_999));
    holds(&rt, paced.rounds.is_open(Way::Down, 7, 62_000));
    holds(&rt, !paced.rounds.has_plenty(Way::Down, 7, 62_000)); // the server has a rate, and little left
    holds(&rt, !paced.rounds.is_free(Way::Down, 7));
    holds(
        &rt,
        paced.rounds.due_for(Way::Down, 7, 4_000) == Due::At(62_000),
    );
    // a refused round takes nothing from what is left
    holds(&rt, paced.is_refused(&rt, 6_000));
    holds(&rt, paced.shares(&rt, 6_000, (1, 1)));
    holds(&rt, paced.rounds.issued() == 8);
    let settled = paced.close(&rt);
    holds(&rt, settled.issued == 8 && settled.moved == 8);
}

/// Moments in microseconds, each half a second after a second began, up to the last that there is, and whose turn is first:
/// the lower lane's in even seconds, and the higher one's in odd ones.
static LATE: [(u64, u32); 3] = [
    (8_589_934_592_500_000, 7),
    (9_223_372_036_854_500_000, 7),
    (u64::MAX, 8),
];

#[test]
fn rounds_are_held_at_late_moments(rt: HostRuntime) {
    let mut paced = PacedDesk::open(&rt);
    for (now, first) in &LATE {
        paced.ask_both(&rt);
        // the rates keep a tenth of a second, so both get all that they ask for
        holds(&rt, paced.answers(&rt, *now, *first, (10, 10)));
    }
    let settled = paced.close(&rt);
    holds(&rt, settled.issued == 60 && settled.moved == 60);
}

#[test]
fn rates_are_changed_between_rounds(rt: HostRuntime) {
    let mut paced = PacedDesk::open(&rt);
    // the octet of user 7, of the server's two: one is left of the server, and none of the user
    holds(&rt, paced.shares_first(&rt, 0, 1));
    // the octet that is left stays, and the tick earns nothing again
    paced.change(&rt, 2_000, 1_000);
    paced.ask_first(&rt);
    holds(&rt, paced.answers(&rt, 1_999, 8, (0, 1)));
    // four octets a tick, and two of user 7
    holds(&rt, paced.shares(&rt, 2_000, (2, 2)));
    // user 7 had a rate and has none: 0 is no limit
    paced.change(&rt, 2_000, 0);
    holds(&rt, paced.shares(&rt, 4_000, (2, 2)));
    // a rate of 1 keeps one of the eight octets that two ticks have earned
    holds(&rt, paced.is_refused(&rt, 8_000));
    paced.change(&rt, 1, 0);
    holds(&rt, paced.shares(&rt, 8_000, (1, 0)));
    holds(&rt, paced.rounds.issued() == 11);
    let settled = paced.close(&rt);
    holds(&rt, settled.issued == 11 && settled.moved == 11);
}
