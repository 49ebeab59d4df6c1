//! Whole jobs in one thread, each to its end, and a loop of them.

ghost use Rattle.std.specs.Prelude.{◌≡◌, true};
ghost use Rattle.transfer_worker.specs.Boards.{IsOfBoard, IsSameBoard};
ghost use Rattle.line_rates.specs.Rates.{Rates};
ghost use Rattle.round_pace.specs.Earned.{tick_of};
ghost use Rattle.round_pace.specs.Histories.{rates_of};
ghost use Rattle.round_pace.specs.Paced.{IsPacedFrom};
ghost use Rattle.lane_desk.specs.Seats.{desk_id};

use super::counted::End;
use super::expect::{OfTest, holds};
use super::house::{House, Job, Keeper};
use super::parts::{Lent, Opened};
use super::worker_shortages::{loop_without_memory, refuse_buffers};
use ftp_terms::DataType;
use grant_ledger::SettledNumbers;
use lent_parts::{LentWorker, PartsName};
use std::marker::Brand;
use std::process::Abort;
use std::sync::Wait;
use transfer_worker::{BoardPass, JobBoard, JobEnd, LaneJob, LoopEnd, open_board, worker_loop};

/// More calls than an end gets.
const ALL: usize = 100;

/// More answers of the gate than a transfer needs.
const LEAVE: u64 = 100;

/// The octets of a file, the calls before it fails, those before the connection fails, and the answers of the gate
/// before `Stop`; and the end of the download, and the octets moved until then.
type Download = (usize, usize, usize, u64, JobEnd, u64);

static DOWNLOADS: [Download; 12] = [
    (140_000, ALL, ALL, LEAVE, JobEnd::Ended, 140_000),
    (0, ALL, ALL, LEAVE, JobEnd::Ended, 0),
    // a file that cannot be read as it is opened, in mid-stream, and at its end
    (140_000, 0, ALL, LEAVE, JobEnd::ReadFault, 0),
    (140_000, 1, ALL, LEAVE, JobEnd::ReadFault, 65_536),
    (140_000, 2, ALL, LEAVE, JobEnd::ReadFault, 131_072),
    (140_000, 3, ALL, LEAVE, JobEnd::ReadFault, 140_000),
    // a connection that fails at each write
    (140_000, ALL, 0, LEAVE, JobEnd::WriteFault, 0),
    (140_000, ALL, 1, LEAVE, JobEnd::WriteFault, 65_536),
    (140_000, ALL, 2, LEAVE, JobEnd::WriteFault, 131_072),
    // a gate that says Stop, initially and later
    (140_000, ALL, ALL, 0, JobEnd::Stopped, 0),
    (140_000, ALL, ALL, 2, JobEnd::Stopped, 65_536),
    (140_000, ALL, ALL, 4, JobEnd::Stopped, 131_072),
];

/// The octets of a connection, the calls before it fails, those before the sink fails, and the answers of the gate
/// before `Stop`; and the end of the upload, the octets moved, and those that the sink took.
type Upload = (usize, usize, usize, u64, JobEnd, u64, usize);

static UPLOADS: [Upload; 11] = [
    (140_000, ALL, ALL, LEAVE, JobEnd::Ended, 140_000, 140_000),
    (0, ALL, ALL, LEAVE, JobEnd::Ended, 0, 0),
    // a connection that fails at each read
    (140_000, 0, ALL, LEAVE, JobEnd::ReadFault, 0, 0),
    (140_000, 1, ALL, LEAVE, JobEnd::ReadFault, 65_536, 65_536),
    (140_000, 2, ALL, LEAVE, JobEnd::ReadFault, 131_072, 131_072),
    (140_000, 3, ALL, LEAVE, JobEnd::ReadFault, 140_000, 140_000),
    // a sink that fails at each write: octets read count as moved
    (140_000, ALL, 0, LEAVE, JobEnd::WriteFault, 65_536, 0),
    (140_000, ALL, 1, LEAVE, JobEnd::WriteFault, 131_072, 65_536),
    (140_000, ALL, 2, LEAVE, JobEnd::WriteFault, 140_000, 131_072),
    // a gate that says Stop, initially and later
    (140_000, ALL, ALL, 0, JobEnd::Stopped, 0, 0),
    (140_000, ALL, ALL, 2, JobEnd::Stopped, 65_536, 65_536),
];

fn end_of(left: usize, calls: usize) -> End {
    End {
        left,
        taken: 0,
        calls,
    }
}

fn download(row: &Download) -> Job {
    LaneJob::Send {
        user: 3,
        session: 7,
        source: end_of(row.0, row.1),
        connection: end_of(0, row.2),
        data_type: DataType::Image,
    }
}

fn upload(row: &Upload) -> Job {
    LaneJob::Take {
        user: 3,
        session: 7,
        connection: end_of(row.0, row.1),
        sink: end_of(0, row.2),
        data_type: DataType::Image,
    }
}

// Runs a job over a free seat. Returns its end, the octets that its sink took, and whether the seat is free again.
fn run<B: PartsName>(
    rt: &(impl Abort + AllocGlobal + Wait),
    house: &House<B>,
    worker: &mut LentWorker<B, OfTest>,
    job: Job,
    leave: u64,
) -> (JobEnd, usize, bool) {
    let mut gate = Keeper::new(house, rt.alloc(), leave);
    if !worker.is_free() {
        panic!(rt; "somebody sits there");
    }
    let was_stopped = worker.work(rt, rt.alloc(), house.desk(), job, &mut gate);
    let (session, end, kept) = gate.heard;
    holds(rt, gate.ended == 1 && session == 7);
    holds(rt, was_stopped == (end == JobEnd::Stopped));
    (end, kept, worker.is_free())
}

// Runs each download and each upload of the tables. Returns the number of octets moved according to them.
fn run_all<B: PartsName>(
    rt: &(impl Abort + AllocGlobal + Wait),
    house: &House<B>,
    worker: &mut LentWorker<B, OfTest>,
) -> u64 {
    let mut moved = 0u64;
    for row in &DOWNLOADS {
        let found = run(rt, house, worker, download(row), row.3);
        holds(rt, found == (row.4, 0, true));
        moved = moved.saturating_add(row.5);
    }
    for row in &UPLOADS {
        let found = run(rt, house, worker, upload(row), row.3);
        holds(rt, found == (row.4, row.6, true));
        moved = moved.saturating_add(row.5);
    }
    moved
}

// Puts three jobs on a board.
fn put_jobs(rt: &(impl Abort + Wait), board: &JobBoard<Job>, pass: &mut BoardPass<Job>)
    requires board { IsOfBoard board.now pass.old }
    ensures board { IsSameBoard pass.old pass.new }
{
    let first = board.push(rt, pass, download(&DOWNLOADS[0]));
    let second = board.push(rt, pass, upload(&UPLOADS[1]));
    let third = board.push(rt, pass, upload(&UPLOADS[0]));
    holds(rt, first.is_ok() && second.is_ok() && third.is_ok());
}

// A loop pops the jobs of a board, until none is left.
fn loop_over<B: PartsName>(
    rt: &(impl Abort + AllocGlobal + Wait),
    house: &House<B>,
    worker: LentWorker<B, OfTest>,
) -> LentWorker<B, OfTest> {
    let (board, mut passes) = open_board(rt.alloc(), 4, 1).expect(rt, "a board");
    let Some(mut pass) = passes.pop() else {
        panic!(rt; "a pass")
    };
    put_jobs(rt, &board, &mut pass);
    if !worker.is_free() {
        panic!(rt; "somebody sits there");
    }
    let mut gate = Keeper::new(house, rt.alloc(), LEAVE);
    let worked = worker.into_worked();
    let desk = house.desk().desk();
    let (worked, end) = worker_loop(rt, rt.alloc(), desk, worked, &board, &mut pass, &mut gate);
    holds(rt, end == LoopEnd::Idle && gate.ended == 3);
    holds(rt, gate.heard == (7, JobEnd::Ended, 140_000));
    let (seat, tally) = worked.parts();
    LentWorker::new(seat, tally)
}

// A stop between an ask and its grant: the seat keeps its state. A grant posted later is given back.
fn stop_after_an_ask<B: PartsName>(
    rt: &(impl Abort + AllocGlobal + Wait),
    house: &House<B>,
    first: &mut LentWorker<B, OfTest>,
    second: &mut LentWorker<B, OfTest>,
) {
    let stopped = run(rt, house, first, download(&DOWNLOADS[0]), 1);
    holds(rt, stopped == (JobEnd::Stopped, 0, false));
    house.serve(rt.alloc());
    let stopped = run(rt, house, second, upload(&UPLOADS[0]), 1);
    holds(rt, stopped == (JobEnd::Stopped, 0, false));
}

// All of these over the desk with this name.
fn run_named<B: PartsName>(
    rt: &(impl Abort + AllocGlobal + Wait),
    opened: Opened,
) -> (u64, SettledNumbers)
    requires desk { desk_id opened.desk ≡ B.desk }
    requires lanes { opened.desk.lanes ≡ B.lanes }
    requires paced { (rates : Rates) × IsPacedFrom (tick_of opened.begun.micros) rates opened.pace }
    requires rates { B.rates (rates_of opened.pace) ≡ true }
    requires carried { opened.rounds.book.issued ≡ B.carried }
{
    let Lent {
        house,
        mut first,
        second,
    } = Lent::<B>::new(opened);
    let moved = run_all(rt, &house, &mut first);
    refuse_buffers(rt, &house, &mut first);
    let second = loop_without_memory(rt, &house, second);
    let mut second = loop_over(rt, &house, second);
    stop_after_an_ask(rt, &house, &mut first, &mut second);
    let lent = Lent {
        house,
        first,
        second,
    };
    (moved, lent.settle(rt))
}

#[test]
fn jobs_of_each_end(rt: HostRuntime) {
    let (moved, settled) = run_named::<Brand>(&rt, Opened::new(&rt, 0));
    holds(&rt, settled.moved == moved.saturating_add(280_010));
    holds(&rt, 65_536 <= settled.back);
}
