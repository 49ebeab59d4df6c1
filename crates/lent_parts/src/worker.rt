//! A lane's seat with its tally, as lent to a worker's thread.

ghost use Rattle.std.specs.Prelude.{◌≡◌, ◌+◌, ◌↔◌, sum, true, false};
ghost use Rattle.desk_rule.specs.declared.view.SeatState.TheVariants.{Free};
ghost use Rattle.lane_desk.specs.Seats.{seat_view, IsSameSeat};
ghost use Rattle.lent_parts.specs.Names.{SitsAt};
ghost use Rattle.transfer_worker.specs.Runs.{worker};
ghost use Rattle.transfer_worker.specs.Transfers.{known};
ghost use Rattle.transfer_worker.specs.Works.{RunsJob};

use crate::desk::LentDesk;
use crate::name::PartsName;
use grant_ledger::Tally;
use lane_desk::{LaneSeat, SeatState, Worked};
use std::alloc::Allocator;
use std::io::{Read, Write};
use std::marker::PhantomData;
use std::sync::Wait;
use transfer_worker::{Gate, LaneJob, Ran, run_job};
use virtual_tree::{Sink, Source};

/// A seat of the desk with a name, with the tally of everything that it took: the octets moved and given back add up to
/// that. It cannot be dropped.
pub struct LentWorker<B: PartsName, N> {
    pub(crate) seat: LaneSeat<N>,
    pub(crate) tally: Tally<N>,
    name: PhantomData<B>,
    ghost named: { SitsAt B.desk B.lanes seat },
    ghost reported: { tally.moved + tally.back ≡ sum (seat_view seat).taken },
}

impl<B: PartsName, N> LentWorker<B, N> {
    /// A seat of the desk, with a tally of everything that it took.
    pub fn new(seat: LaneSeat<N>, tally: Tally<N>) -> LentWorker<B, N>
        requires named { SitsAt B.desk B.lanes seat }
        requires reported { tally.moved + tally.back ≡ sum (seat_view seat).taken }
        ensures parts { (result.seat ≡ seat) × (result.tally ≡ tally) }
    {
        LentWorker {
            seat,
            tally,
            name: PhantomData,
        }
    }

    /// The number of its lane.
    pub fn lane(&self) -> usize
        ensures lane { result ≡ self.now.seat.lane }
    {
        self.seat.lane()
    }

    /// Number of octets that its transfers have moved.
    pub fn moved(&self) -> u64
        ensures moved { result ≡ self.now.tally.moved }
    {
        self.tally.moved()
    }

    /// Returns whether no worker sits there, so that a job may be run. It is true until a gate has said `Stop` to a
    /// worker that had asked.
    pub fn is_free(&self) -> bool
        ensures free { (result ≡ true) ↔ ((seat_view self.now.seat).state ≡ Free) }
    {
        self.seat.state() == SeatState::Free
    }

    /// Opens one job and runs it to its end, as `run_job`. Returns true if the gate said `Stop`.
    pub fn work<R, K, C, A, G, W, D>(
        &mut self,
        rt: &W,
        alloc: A,
        desk: &LentDesk<B, N, D>,
        job: LaneJob<R, K, C>,
        gate: &mut G,
    ) -> bool
    where
        R: Source,
        K: Sink,
        C: Read + Write + Drop,
        A: Allocator + Clone,
        G: Gate<Ran<R, K, C, A>>,
        W: Wait,
        D: Allocator,
        requires state { (seat_view self.old.seat).state ≡ Free }
        ensures same { IsSameSeat self.old.seat self.new.seat }
        ensures free { result ≡ false → (seat_view self.new.seat).state ≡ Free }
        ensures run { RunsJob (known R.remaining K.collected K.target C.remaining C.contents)
            G.may_want job result
            (worker (seat_view self.old.seat) self.old.tally (G.heard gate.old) (G.passed gate.old))
            (worker (seat_view self.new.seat) self.new.tally (G.heard gate.new)
            (G.passed gate.new)) }
    {
        run_job(
            rt,
            alloc,
            desk.desk(),
            &mut self.seat,
            &mut self.tally,
            job,
            gate,
        )
    }

    /// Returns the seat and the tally, once no thread has them any more.
    pub fn into_worked(self) -> Worked<N>
        ensures seat { (result.seat ≡ self.seat) × SitsAt B.desk B.lanes result.seat }
        ensures tally { result.tally ≡ self.tally }
    {
        let LentWorker {
            seat,
            tally,
            name: _,
        } = self;
        Worked::new(seat, tally)
    }
}
