//! The parts that the workers of these tests share, and their gate, which holds the rounds itself.

use super::counted::End;
use super::expect::OfTest;
use data_pump::MAX_READ;
use grant_ledger::MAX_LANES;
use lent_parts::{LentDesk, LentRounds, PartsName, RoundClock};
use round_pace::TICK_MICROS;
use std::alloc::{Allocator, Global};
use std::sync::Mutex;
use std::sync::atomic::{AtomicU64, Ordering};
use std::thread;
use transfer_worker::{Gate, Go, JobEnd, LaneJob, Ran};

/// A job of these tests.
pub(crate) type Job = LaneJob<End, End, End>;

/// The session whose transfer is delayed until that of `SECOND` has moved an octet.
pub(crate) const FIRST: u32 = 1;

pub(crate) const SECOND: u32 = 2;

/// Number of yields of a delayed thread in each turn.
const YIELDS: u32 = 100;

/// A clock that the test moves.
#[derive(Drop)]
pub(crate) struct TestClock {
    pub(crate) micros: u64,
}

impl RoundClock for TestClock {
    fn now(&self) -> u64 {
        self.micros
    }
}

/// The rounds, at moments of the test's clock.
pub(crate) struct Turns<B: PartsName> {
    rounds: LentRounds<B, OfTest>,
    // the earliest moment of the next round, in microseconds
    next: u64,
}

impl<B: PartsName> Turns<B> {
    // Holds a round, this many ticks of the pace after that of the last one.
    fn round<A: Allocator + Clone>(&mut self, alloc: A, desk: &LentDesk<B, OfTest>, ticks: u64) {
        let skipped = ticks.saturating_sub(1).saturating_mul(TICK_MICROS);
        let clock = TestClock {
            micros: self.next.saturating_add(skipped),
        };
        self.next = clock.micros.saturating_add(TICK_MICROS);
        let now = clock.moment();
        let _ = self
            .rounds
            .hold(alloc, desk, now, &[true; MAX_LANES], &[0; MAX_LANES]);
    }
}

/// A desk with its rounds, and whether the transfer of `SECOND` has moved an octet.
pub(crate) struct House<B: PartsName> {
    desk: LentDesk<B, OfTest>,
    turns: Mutex<Turns<B>>,
    has_moved: AtomicU64,
}

impl<B: PartsName> House<B> {
    pub(crate) fn new(desk: LentDesk<B, OfTest>, rounds: LentRounds<B, OfTest>) -> House<B> {
        let turns = Turns { rounds, next: 0 };
        House {
            desk,
            turns: Mutex::new(turns),
            has_moved: AtomicU64::new(0),
        }
    }

    pub(crate) fn desk(&self) -> &LentDesk<B, OfTest> {
        &self.desk
    }

    /// Holds a round in the next tick of the pace, unless another thread is holding one.
    pub(crate) fn serve<A: Allocator + Clone>(&self, alloc: A) {
        self.serve_after(alloc, 1);
    }

    /// Holds a round this many ticks after the last one, unless another thread is holding one.
    pub(crate) fn serve_after<A: Allocator + Clone>(&self, alloc: A, ticks: u64) {
        match self.turns.try_lock() {
            Some(mut turns) => turns.round(alloc, &self.desk, ticks),
            None => thread::yield_now(),
        }
    }

    pub(crate) fn into_parts(self) -> (LentDesk<B, OfTest>, LentRounds<B, OfTest>) {
        let House {
            desk,
            turns,
            has_moved: _has_moved,
        } = self;
        let Turns { rounds, next: _ } = turns.into_inner();
        (desk, rounds)
    }
}

/// The gate of a worker. It says `Stop` after `passes` other answers, and records the last end reported.
#[derive(Drop)]
pub(crate) struct Keeper<'h, B: PartsName> {
    house: &'h House<B>,
    alloc: Global,
    passes: u64,
    last: Go,
    /// Number of jobs that ended.
    pub(crate) ended: u64,
    /// The session of the last of them, its end, and the octets that its sink took.
    pub(crate) heard: (u32, JobEnd, usize),
}

impl<'h, B: PartsName> Keeper<'h, B> {
    pub(crate) fn new(house: &'h House<B>, alloc: Global, passes: u64) -> Keeper<'h, B> {
        Keeper {
            house,
            alloc,
            passes,
            last: Go::On,
            ended: 0,
            heard: (0, JobEnd::Stopped, 0),
        }
    }

    // Delays the transfer of `FIRST`, and holds a round for another.
    fn answer(&mut self, session: u32, moved: u64) -> Go {
        if self.passes == 0 {
            return Go::Stop;
        }
        self.passes -= 1;
        if session == SECOND && moved > 0 {
            self.house.has_moved.store(1, Ordering::SeqCst);
        }
        if session == FIRST && self.house.has_moved.load(Ordering::SeqCst) == 0 {
            for _ in 0..YIELDS {
                thread::yield_now();
            }
            return Go::Later;
        }
        self.house.serve(self.alloc);
        Go::On
    }
}

impl<'h, B: PartsName> Gate<Ran<End, End, End>> for Keeper<'h, B> {
    ghost use Rattle.std.specs.Prelude.{◌≡◌, None};
    ghost use Rattle.data_pump.specs.declared.inflow.TheConstants.{MAX_READ};

    ghost last_go = { λ keeper. keeper.last };

    ghost heard = { λ _. None };

    ghost passed = { λ _. None };

    ghost may_want = { λ want. want ≡ MAX_READ };

    fn pass(&mut self, session: u32, moved: u64) -> Go {
        self.last = self.answer(session, moved);
        self.last
    }

    fn upload_want(&self) -> u64 {
        MAX_READ as u64
    }

    fn last(&self) -> Go {
        self.last
    }

    fn done(&mut self, session: u32, end: JobEnd, ran: Ran<End, End, End>) {
        self.ended = self.ended.saturating_add(1);
        let taken = match ran {
            Ran::In(upload) => upload.into_sink().taken,
            _ => 0,
        };
        self.heard = (session, end, taken);
    }
}
