//! A worker and rounds in two threads, many times.

ghost use Rattle.std.specs.Prelude.{◌<◌};
ghost use Rattle.lane_desk.specs.Seats.{IsSeatOf, IsSameSeat};
ghost use Rattle.lane_desk.specs.Traces.{IsRoundOf, IsSameRound};

use super::expect::{OfTest, down, holds, limits};
use grant_ledger::{Book, MAX_LANES};
use lane_desk::{Desk, Rounds, open_desk};
use line_rates::Limits;
use std::alloc::Global;
use std::thread;
use std::thread::Threads;
use test_checked_desk::{OwnSeat, settle_two, two_seats};

/// Number of grants that the worker takes.
const GRANTS: u64 = 300;

/// Number of tries of each thread before it gives up.
const TRIES: u64 = 4_000_000;

// Sits, and then repeatedly asks for 2 octets, takes its grant and moves 1. Returns how often it was granted 2.
fn work(desk: &Desk<OfTest>, own: &mut OwnSeat<OfTest>) -> u64
    requires desk { IsSeatOf desk.now own.old.seat }
    ensures same { IsSameSeat own.old.seat own.new.seat }
{
    let mut grants = 0;
    own.sit(desk);
    for _ in 0..TRIES {
        if grants >= GRANTS {
            break;
        }
        own.ask(desk, down(0, 2));
        match own.take(desk, 1) {
            Some(octets) => grants = if octets == 2 { grants + 1 } else { grants },
            None => thread::yield_now(),
        }
    }
    own.rise(desk);
    grants
}

// Holds rounds, one per tick, until this many asks were answered. Returns the number answered.
fn lead(alloc: Global, desk: &Desk<OfTest>, rounds: &mut Rounds<OfTest>, limits: &Limits) -> u64
    requires desk { IsRoundOf desk.now rounds.old.desk }
    ensures same { IsSameRound rounds.old.desk rounds.new.desk }
{
    let mut answered = 0;
    for tick in 0..TRIES {
        if answered >= GRANTS {
            break;
        }
        match rounds.round_of(
            alloc,
            desk,
            limits,
            tick * 100,
            &[true; MAX_LANES],
            &[0; MAX_LANES],
        ) {
            Ok(record) => answered = if record.answered == 1 {
                answered + 1
            } else {
                answered
            },
            Err(_) => break,
        }
        thread::yield_now();
    }
    answered
}

// Both at once: the number of grants to the worker, and the number of answers of the rounds.
fn work_and_lead<R: Threads + Sync>(
    rt: &R,
    alloc: Global,
    desk: &Desk<OfTest>,
    own: &mut OwnSeat<OfTest>,
    rounds: &mut Rounds<OfTest>,
    limits: &Limits,
) -> (u64, u64)
    requires seat { IsSeatOf desk.now own.old.seat }
    requires round { IsRoundOf desk.now rounds.old.desk }
    ensures seat { IsSameSeat own.old.seat own.new.seat }
    ensures round { IsSameRound rounds.old.desk rounds.new.desk }
{
    thread::join_mut(
        rt,
        &mut || -> u64
            requires { IsSeatOf desk.now own.now.seat }
            ensures { IsSameSeat own.entry.now.seat own.exit.now.seat }
        { work(desk, own) },
        &mut || -> u64
            requires { IsRoundOf desk.now rounds.now.desk }
            ensures { IsSameRound rounds.entry.now.desk rounds.exit.now.desk }
        { lead(alloc, desk, rounds, limits) },
    )
}

#[test]
fn a_worker_and_rounds(rt: HostRuntime) {
    let limits = limits(&rt, 0, 0);
    let (book, mut tally) = Book::<OfTest>::open(0);
    match open_desk(rt.alloc(), 2, &book) {
        Ok((desk, round, seats)) => {
            let room = Vec::with_capacity(rt.alloc(), 2).expect(&rt, "memory");
            let Some((first, second)) = two_seats(&desk, seats) else {
                panic!(&rt; "no seats")
            };
            let mut first = OwnSeat::new(first, &mut tally);
            let second = OwnSeat::new(second, &mut tally);
            let mut rounds = Rounds::new(round, book, tally);
            let reported = work_and_lead(&rt, rt.alloc(), &desk, &mut first, &mut rounds, &limits);
            holds(&rt, reported == (GRANTS, GRANTS));
            let settled = settle_two(desk, rounds, first, second, room).numbers();
            holds(&rt, settled.issued == 2 * GRANTS);
            holds(&rt, settled.moved == GRANTS && settled.back == GRANTS);
        }
        Err(_) => panic!(&rt; "no desk"),
    }
}
