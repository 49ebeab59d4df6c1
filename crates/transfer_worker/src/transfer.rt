//! One job, from its opening to its end.

ghost use Rattle.std.specs.Prelude.{◌≡◌, true, false};
ghost use Rattle.data_pump.specs.declared.pumped.PumpEnd.TheVariants.{More};
ghost use Rattle.desk_rule.specs.declared.view.SeatState.TheVariants.{Free};
ghost use Rattle.lane_desk.specs.Seats.{seat_view, IsSeatOf, IsSameSeat};
ghost use Rattle.transfer_worker.specs.Runs.{worker};
ghost use Rattle.transfer_worker.specs.Transfers.{known, flow_of, last_in};
ghost use Rattle.transfer_worker.specs.Turns.{IsReported};
ghost use Rattle.transfer_worker.specs.Works.{RunsTransfer, RunsJob};

use crate::end::{JobEnd, job_end, open_end};
use crate::gate::Gate;
use crate::grants::{may_ask, pump_next};
use crate::job::{LaneJob, Ran};
use crate::running::{Running, Transfer};
use data_pump::{DataIn, DataOut};
use grant_ledger::Tally;
use lane_desk::{Desk, LaneSeat};
use std::alloc::Allocator;
use std::io::{Read, Write};
use std::sync::Wait;
use virtual_tree::{Sink, Source};

/// Sits down, asks, takes, pumps and tops up until the transfer has ended, and rises. Returns true if the gate said
/// `Stop`: a seat that had asked then keeps that state.
fn run_transfer<R, K, C, A, G, W, N, D>(
    rt: &W,
    desk: &Desk<N, D>,
    seat: &mut LaneSeat<N>,
    tally: &mut Tally<N>,
    transfer: Transfer<R, K, C, A>,
    gate: &mut G,
) -> bool
where
    R: Source,
    K: Sink,
    C: Read + Write + Drop,
    A: Allocator,
    G: Gate<Ran<R, K, C, A>>,
    W: Wait,
    D: Allocator,
    requires desk { IsSeatOf desk.now seat.old }
    requires state { (seat_view seat.old).state ≡ Free }
    requires reported { IsReported tally.old (seat_view seat.old) }
    requires more { last_in (flow_of transfer.running) ≡ More }
    requires begun { transfer.moved ≡ 0 }
    ensures same { IsSameSeat seat.old seat.new }
    ensures reported { IsReported tally.new (seat_view seat.new) }
    ensures free { result ≡ false → (seat_view seat.new).state ≡ Free }
    ensures run { RunsTransfer (known R.remaining K.collected K.target C.remaining C.contents)
        G.may_want transfer.user transfer.session (flow_of transfer.running) result
        (worker (seat_view seat.old) tally.old (G.heard gate.old) (G.passed gate.old))
        (worker (seat_view seat.new) tally.new (G.heard gate.new) (G.passed gate.new)) }
{
    let session = transfer.session;
    let mut transfer = transfer;
    seat.sit(desk);
    for _ in rt.forever() {
        if !may_ask(rt, gate, &transfer) {
            seat.rise(desk);
            gate.done(session, JobEnd::Stopped, transfer.into_ran());
            return true;
        }
        seat.ask(desk, transfer.ask(&*gate));
        match pump_next(rt, desk, seat, tally, &mut transfer, gate) {
            None => {
                gate.done(session, JobEnd::Stopped, transfer.into_ran());
                return true;
            }
            Some(pumped) => match job_end(pumped.end) {
                Some(end) => {
                    seat.rise(desk);
                    gate.done(session, end, transfer.into_ran());
                    return false;
                }
                None => transfer.top_up(),
            },
        }
    }
    unreachable!()
}

/// Opens one job and runs it to its end over a seat that is lent with its tally, as `worker_loop` runs each job that it
/// pops. Returns true if the gate said `Stop`: the seat may then have asked, and keeps that state for the closing of
/// the desk. For a job that cannot be opened, its end is reported and the seat does not sit down.
pub fn run_job<R, K, C, A, G, W, N, D>(
    rt: &W,
    alloc: A,
    desk: &Desk<N, D>,
    seat: &mut LaneSeat<N>,
    tally: &mut Tally<N>,
    job: LaneJob<R, K, C>,
    gate: &mut G,
) -> bool
where
    R: Source,
    K: Sink,
    C: Read + Write + Drop,
    A: Allocator + Clone,
    G: Gate<Ran<R, K, C, A>>,
    W: Wait,
    D: Allocator,
    requires desk { IsSeatOf desk.now seat.old }
    requires state { (seat_view seat.old).state ≡ Free }
    requires reported { IsReported tally.old (seat_view seat.old) }
    ensures same { IsSameSeat seat.old seat.new }
    ensures reported { IsReported tally.new (seat_view seat.new) }
    ensures free { result ≡ false → (seat_view seat.new).state ≡ Free }
    ensures run { RunsJob (known R.remaining K.collected K.target C.remaining C.contents)
        G.may_want job result
        (worker (seat_view seat.old) tally.old (G.heard gate.old) (G.passed gate.old))
        (worker (seat_view seat.new) tally.new (G.heard gate.new) (G.passed gate.new)) }
{
    match job {
        LaneJob::Send {
            user,
            session,
            source,
            connection,
            data_type,
        } => match DataOut::open(alloc, source, connection, data_type) {
            Ok(out) => {
                let transfer = Transfer {
                    user,
                    session,
                    moved: 0,
                    running: Running::Out(out),
                };
                run_transfer(rt, desk, seat, tally, transfer, gate)
            }
            Err(fault) => {
                gate.done(session, open_end(fault), Ran::Unopened);
                false
            }
        },
        LaneJob::Take {
            user,
            session,
            connection,
            sink,
            data_type,
        } => match DataIn::open(alloc, connection, sink, data_type) {
            Ok(upload) => {
                let transfer = Transfer {
                    user,
                    session,
                    moved: 0,
                    running: Running::In(upload),
                };
                run_transfer(rt, desk, seat, tally, transfer, gate)
            }
            Err(fault) => {
                gate.done(session, open_end(fault), Ran::Unopened);
                false
            }
        },
    }
}
