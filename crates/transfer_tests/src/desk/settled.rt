//! Two lanes under a rate, from the first ask to the settlement.

use super::expect::{OfTest, down, holds, limits};
use grant_ledger::{Book, MAX_LANES};
use lane_desk::{RoundRefusal, Rounds, open_desk};
use test_checked_desk::{OwnSeat, settle_two, two_seats};

/// All lanes.
const ALL: [bool; MAX_LANES] = [true; MAX_LANES];

/// The amounts that a lane took, in order.
type Taken = Vec<u64>;

#[test]
fn two_lanes_share_a_rate(rt: HostRuntime) {
    let limits = limits(&rt, 30, 0);
    let (book, mut tally) = Book::<OfTest>::open(0);
    match open_desk(rt.alloc(), 2, &book) {
        Ok((desk, round, seats)) => {
            let room = Vec::with_capacity(rt.alloc(), 2).expect(&rt, "memory");
            let Some((first, second)) = two_seats(&desk, seats) else {
                panic!(&rt; "no seats")
            };
            let mut first = OwnSeat::new(first, &mut tally);
            let mut second = OwnSeat::new(second, &mut tally);
            let mut rounds = Rounds::new(round, book, tally);
            let desk_ref = &desk;
            holds(&rt, first.sit(desk_ref) && second.sit(desk_ref));
            holds(
                &rt,
                first.ask(desk_ref, down(0, 5)) && second.ask(desk_ref, down(1, 5)),
            );
            match rounds.round_of(rt.alloc(), desk_ref, &limits, 0, &ALL, &[0; MAX_LANES]) {
                Ok(record) => {
                    holds(&rt, record.tick == 0 && record.answered == 3);
                    holds(&rt, record.sealed.grants() == [2, 1].as_slice());
                    holds(&rt, record.lanes.as_slice() == [0, 1].as_slice());
                    holds(
                        &rt,
                        record.asks.as_slice() == [down(0, 5), down(1, 5)].as_slice(),
                    );
                }
                Err(_) => panic!(&rt; "the first round was refused"),
            }
            holds(
                &rt,
                first.take(desk_ref, 1) == Some(2) && first.rise(desk_ref),
            );
            holds(
                &rt,
                second.take(desk_ref, 1) == Some(1) && second.ask(desk_ref, down(1, 4)),
            );
            match rounds.round_of(rt.alloc(), desk_ref, &limits, 50, &ALL, &[0; MAX_LANES]) {
                Ok(_) => panic!(&rt; "two rounds in one tick"),
                Err(fault) => holds(
                    &rt,
                    fault.reason == RoundRefusal::NotYet(0) && fault.answered == 2,
                ),
            }
            holds(
                &rt,
                second.take(desk_ref, 0) == Some(0) && second.ask(desk_ref, down(1, 4)),
            );
            match rounds.round_of(rt.alloc(), desk_ref, &limits, 100, &ALL, &[0; MAX_LANES]) {
                Ok(record) => holds(&rt, record.tick == 1 && record.sealed.total() == 3),
                Err(_) => panic!(&rt; "a later tick was refused"),
            }
            holds(
                &rt,
                second.take(desk_ref, 3) == Some(3) && second.rise(desk_ref),
            );
            let settled = settle_two(desk, rounds, first, second, room).numbers();
            holds(
                &rt,
                settled.issued == 6 && settled.moved == 5 && settled.back == 1,
            );
        }
        Err(_) => panic!(&rt; "no desk"),
    }
}

/// The odd octet of a round falls to the lane that has had less.
#[test]
fn remainders_go_by_turns(rt: HostRuntime) {
    let limits = limits(&rt, 30, 0);
    let (book, mut tally) = Book::<OfTest>::open(0);
    let mut had = [0; MAX_LANES];
    had[0] = 64;
    match open_desk(rt.alloc(), 2, &book) {
        Ok((desk, round, seats)) => {
            let room = Vec::with_capacity(rt.alloc(), 2).expect(&rt, "memory");
            let Some((first, second)) = two_seats(&desk, seats) else {
                panic!(&rt; "no seats")
            };
            let mut first = OwnSeat::new(first, &mut tally);
            let mut second = OwnSeat::new(second, &mut tally);
            let mut rounds = Rounds::new(round, book, tally);
            let desk_ref = &desk;
            holds(&rt, first.sit(desk_ref) && second.sit(desk_ref));
            holds(
                &rt,
                first.ask(desk_ref, down(0, 5)) && second.ask(desk_ref, down(1, 5)),
            );
            match rounds.round_of(rt.alloc(), desk_ref, &limits, 0, &ALL, &had) {
                Ok(record) => {
                    holds(&rt, record.sealed.grants() == [2, 1].as_slice());
                    holds(&rt, record.lanes.as_slice() == [1, 0].as_slice());
                }
                Err(_) => panic!(&rt; "the round was refused"),
            }
            holds(
                &rt,
                first.take(desk_ref, 1) == Some(1) && first.rise(desk_ref),
            );
            holds(
                &rt,
                second.take(desk_ref, 2) == Some(2) && second.rise(desk_ref),
            );
            let settled = settle_two(desk, rounds, first, second, room).numbers();
            holds(&rt, settled.issued == 3 && settled.moved == 3);
        }
        Err(_) => panic!(&rt; "no desk"),
    }
}
