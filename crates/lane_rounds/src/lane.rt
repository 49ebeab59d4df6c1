//! The thread of a lane.

ghost use Rattle.std.specs.Prelude.{◌≡◌, ◌-◌};
ghost use Rattle.desk_rule.specs.declared.view.SeatState.TheVariants.{Free};
ghost use Rattle.lane_desk.specs.Seats.{seat_view};
ghost use Rattle.lane_rounds.specs.Gates.{signed};
ghost use Rattle.server_house.specs.Tickets.{is_upload};

use crate::asking::UploadLooks;
use crate::engine::Engine;
use crate::gate::LaneGate;
use lent_parts::{LentPass, LentWorker, PartsName, RoundClock};
use line_rates::Way;
use server_house::{DataConnection, House, LaneSign, SessionTicket, ShutdownStage};
use std::alloc::Global;
use std::io::{Read, Write};
use std::sync::{Mutex, Wait};
use std::time::{Clock, Duration};
use transfer_ticket::TicketRun;
use transfer_worker::LaneJob;
use virtual_tree::{Sink, Source, Store};

/// The longest wait of an idle lane before it checks by itself, in milliseconds. Each transfer pushed wakes one, and the
/// end of the lanes wakes all; but a lane that is woken while a session has its seat waits for that session, and another
/// lane then takes the transfer.
const IDLE: u64 = 2_000;

// Returns whether octets are received.
fn is_upload<R: Source, K: Sink, C: Read + Write + Drop>(job: &LaneJob<R, K, C>) -> bool
    ensures upload { result ≡ is_upload job.now }
{
    matches!(job, LaneJob::Take { .. })
}

// Returns whether no rate is a limit of a user's uploads, and nobody holds a round now.
fn is_free<B: PartsName, N>(engine: &Engine<B, N>, user: u32) -> bool {
    match engine.rounds.try_lock() {
        Some(rounds) => rounds.is_free(Way::Up, user),
        None => false,
    }
}

// The looks of an upload, if there is memory for them. Its lane's sign has from then on whether a rate limits it.
fn looks_of<R: Source, K: Sink, B: PartsName, N>(
    alloc: Global,
    engine: &Engine<B, N>,
    sign: &LaneSign,
    job: &LaneJob<R, K, DataConnection>,
) -> Option<UploadLooks> {
    match job {
        LaneJob::Send { .. } => None,
        LaneJob::Take {
            connection,
            user,
            ..
        } => {
            let is_free = is_free(engine, *user);
            sign.set_free(is_free);
            UploadLooks::new(alloc, connection, is_free)
        }
    }
}

// The direction, the user and the session of a transfer.
fn signed<R: Source, K: Sink, C: Read + Write + Drop>(job: &LaneJob<R, K, C>) -> (Way, u32, u32)
    ensures signed { result ≡ signed job.now }
{
    match job {
        LaneJob::Send { user, session, .. } => (Way::Down, *user, *session),
        LaneJob::Take { user, session, .. } => (Way::Up, *user, *session),
    }
}

// Records for whom the lane works.
fn sign<R: Source, K: Sink, C: Read + Write + Drop>(sign: &LaneSign, job: &LaneJob<R, K, C>) {
    let (way, user, session) = signed(job);
    sign.name.set(way, user);
    sign.set_session(Some(session));
}

// The octets that were moved between two counts.
fn moved_between(before: u64, now: u64) -> u64
    ensures moved { result ≡ now - before }
{
    now.saturating_sub(before)
}

/// Runs the transfer that waits on a ticket to its end, and reports that; nothing if it was taken back.
pub(crate) fn run_transfer<'h, R, S, H, B, N>(
    rt: &R,
    house: &'h House<S, H, B>,
    engine: &Engine<B, N>,
    worker: &mut LentWorker<B, N>,
    ticket: &'h SessionTicket<S>,
)
where
    R: Wait + Clock + RoundClock + AllocGlobal,
    S: Store<Global>,
    H: Drop,
    B: PartsName,
    requires free { (seat_view worker.old.seat).state ≡ Free }
{
    let Ok((job, run)) = TicketRun::take(ticket) else {
        return;
    };
    let lane = worker.lane();
    match house.lanes.get(lane) {
        Some(own) => sign(own, &job),
        None => {}
    }
    let mut gate = LaneGate::new(rt, house, engine, lane, run, is_upload(&job));
    match house.lanes.get(lane) {
        Some(own) => gate.set_looks(looks_of(rt.alloc(), engine, own, &job)),
        None => {}
    }
    let before = worker.moved();
    worker.work(rt, rt.alloc(), &engine.desk, job, &mut gate);
    gate.report(moved_between(before, worker.moved()));
    match house.lanes.get(lane) {
        Some(own) => own.set_session(None),
        None => {}
    }
}

// Runs the transfer of the next ticket whose number is on the board, and wakes its session once the end is there. Returns
// whether there was a number.
fn run_next<R, S, H, B, N>(
    rt: &R,
    house: &House<S, H, B>,
    engine: &Engine<B, N>,
    worker: &mut LentWorker<B, N>,
    pass: &mut LentPass<B, u32>,
) -> bool
where
    R: Wait + Clock + RoundClock + AllocGlobal,
    S: Store<Global>,
    H: Drop,
    B: PartsName,
    requires free { (seat_view worker.old.seat).state ≡ Free }
{
    match house.board.pop(rt, pass) {
        Some(number) => {
            match (&*house).tickets.get(number as usize) {
                Some(ticket) => {
                    run_transfer(rt, &*house, engine, worker, ticket);
                    (&*house).ring(number as usize);
                }
                None => {}
            }
            true
        }
        None => false,
    }
}

/// Takes transfers from the tickets whose numbers are on the board, and runs each to its end, until the lanes are to end:
/// no session is left then. A transfer that its session wants to end is stopped before its next ask, and the lane takes
/// the next one. The lock of the lane's seat is free between two transfers, so that a session may use it ([`run_here`]).
///
/// [`run_here`]: crate::run_here
pub fn work_lane<R, S, H, B, N>(
    rt: &R,
    house: &House<S, H, B>,
    engine: &Engine<B, N>,
    seat: &Mutex<LentWorker<B, N>>,
    mut pass: LentPass<B, u32>,
)
where
    R: Wait + Clock + RoundClock + AllocGlobal,
    S: Store<Global>,
    H: Drop,
    B: PartsName,
{
    for _ in rt.forever() {
        let seen = house.jobs.seen();
        let mut worker = seat.lock(rt);
        if !worker.is_free() {
            return;
        }
        let has_run = run_next(rt, house, engine, &mut *worker, &mut pass);
        drop(worker);
        if !has_run {
            if house.ending.has_begun(ShutdownStage::Lanes) {
                return;
            }
            house.jobs.wait(rt, seen, Duration::from_millis(IDLE));
        }
    }
    unreachable!()
}
