//! The loop of a worker.

ghost use Rattle.std.specs.Prelude.{◌≡◌};
ghost use Rattle.desk_rule.specs.declared.view.SeatState.TheVariants.{Free};
ghost use Rattle.transfer_worker.specs.Boards.{done_by, IsOfBoard, IsSameBoard};
ghost use Rattle.transfer_worker.specs.Order.{ShowsHeld};
ghost use Rattle.lane_desk.specs.Seats.{seat_view, IsSeatOf, IsSameSeat};
ghost use Rattle.transfer_worker.specs.declared.end.LoopEnd.TheVariants.{Idle};
ghost use Rattle.transfer_worker.specs.Runs.{worker};
ghost use Rattle.transfer_worker.specs.Transfers.{known};
ghost use Rattle.transfer_worker.specs.Works.{Works};

use crate::board::{BoardPass, JobBoard};
use crate::end::LoopEnd;
use crate::gate::Gate;
use crate::job::{LaneJob, Ran};
use crate::transfer::run_job;
use lane_desk::{Desk, Worked};
use std::alloc::Allocator;
use std::io::{Read, Write};
use std::sync::Wait;
use virtual_tree::{Sink, Source};

/// Pops jobs and runs each to its end, until a pop returns nothing or the gate says `Stop`.
///
/// After `Stop` in the middle of a job the seat may have asked: it keeps that state for the closing of the desk. The
/// only memory allocated is a buffer for each transfer; a job without memory for it ends as `Memory`.
pub fn worker_loop<R, K, C, A, G, W, N, D, B>(
    rt: &W,
    alloc: A,
    desk: &Desk<N, D>,
    worked: Worked<N>,
    board: &JobBoard<LaneJob<R, K, C>, B>,
    pass: &mut BoardPass<LaneJob<R, K, C>>,
    gate: &mut G,
) -> (Worked<N>, LoopEnd)
where
    R: Source,
    K: Sink,
    C: Read + Write + Drop,
    A: Allocator + Copy,
    G: Gate<Ran<R, K, C, A>>,
    W: Wait,
    D: Allocator,
    B: Allocator,
    requires desk { IsSeatOf desk.now worked.seat }
    requires state { (seat_view worked.seat).state ≡ Free }
    requires board { IsOfBoard board.now pass.old }
    ensures same { IsSameSeat worked.seat result.0.seat }
    ensures board { IsSameBoard pass.old pass.new }
    ensures idle { result.1 ≡ Idle → ((seat_view result.0.seat).state ≡ Free)
        × ShowsHeld 0 (done_by pass.new) }
    ensures works { Works (known R.remaining K.collected K.target C.remaining C.contents) G.may_want
        result.1 (done_by pass.old) (done_by pass.new)
        (worker (seat_view worked.seat) worked.tally (G.heard gate.old) (G.passed gate.old))
        (worker (seat_view result.0.seat) result.0.tally (G.heard gate.new)
        (G.passed gate.new)) }
{
    let (mut seat, mut tally) = worked.parts();
    for _ in rt.forever() {
        match board.pop(rt, pass) {
            None => return (Worked::new(seat, tally), LoopEnd::Idle),
            Some(job) => {
                if run_job(rt, alloc, desk, &mut seat, &mut tally, job, gate) {
                    return (Worked::new(seat, tally), LoopEnd::Stopped);
                }
            }
        }
    }
    unreachable!()
}
