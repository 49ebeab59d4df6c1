//! Two workers at once: the transfer of one is delayed until that of the other has moved an octet.

ghost use Rattle.std.specs.Prelude.{◌≡◌, true};
ghost use Rattle.line_rates.specs.Rates.{Rates};
ghost use Rattle.round_pace.specs.Earned.{tick_of};
ghost use Rattle.round_pace.specs.Histories.{rates_of};
ghost use Rattle.round_pace.specs.Paced.{IsPacedFrom};
ghost use Rattle.lane_desk.specs.Seats.{desk_id};
ghost use Rattle.transfer_worker.specs.Boards.{board_id};

use super::counted::End;
use super::expect::{OfTest, holds};
use super::house::{FIRST, House, Job, Keeper, SECOND};
use super::parts::{Lent, Opened, settle_house};
use ftp_terms::DataType;
use grant_ledger::SettledNumbers;
use lent_parts::{LentBoard, LentPass, LentWorker, PartsName};
use std::alloc::Global;
use std::marker::Brand;
use std::process::Abort;
use std::sync::Wait;
use std::thread;
use std::thread::Threads;
use transfer_worker::{BoardPass, JobBoard, LaneJob, open_board};

/// Number of delays before a worker gives up.
const MOST_TURNS: u64 = 100_000;

// A file of 140,000 octets for a session.
fn file_for(session: u32) -> Job {
    let source = End {
        left: 140_000,
        taken: 0,
        calls: 100,
    };
    let connection = End {
        left: 0,
        taken: 0,
        calls: 100,
    };
    LaneJob::Send {
        user: 0,
        session,
        source,
        connection,
        data_type: DataType::Image,
    }
}

/// A worker with a pass, and its record: the number of jobs that ended, and whether it stopped for lack of
/// jobs.
struct Hand<B: PartsName> {
    worker: LentWorker<B, OfTest>,
    pass: LentPass<B, Job>,
    did: (u64, bool),
}

impl<B: PartsName> Hand<B> {
    // Runs jobs while there are any, and none is stopped.
    fn work<R: Wait>(
        &mut self,
        rt: &R,
        alloc: Global,
        house: &House<B>,
        board: &LentBoard<B, Job>,
    ) {
        let mut gate = Keeper::new(house, alloc, MOST_TURNS);
        for _ in rt.forever() {
            if !self.worker.is_free() {
                return;
            }
            match board.pop(rt, &mut self.pass) {
                None => {
                    self.did = (gate.ended, true);
                    return;
                }
                Some(job) => {
                    self.worker.work(rt, alloc, house.desk(), job, &mut gate);
                }
            }
        }
    }
}

/// A board of two jobs, and a pass for each thread.
#[derive(Drop)]
struct Board {
    board: JobBoard<Job>,
    one: BoardPass<Job>,
    two: BoardPass<Job>,
    ghost passes: { (one.pass.table_id ≡ board_id board) × (two.pass.table_id ≡ board_id board) },
}

impl Board {
    // A board on which nothing waits.
    fn new(rt: &(impl Abort + AllocGlobal + Wait)) -> Board {
        let (board, mut passes) = open_board(rt.alloc(), 2, 2).expect(rt, "a board");
        let (Some(one), Some(two)) = (passes.pop(), passes.pop()) else {
            panic!(rt; "two passes");
        };
        Board { board, one, two }
    }
}

// Each hand in a thread of its own.
fn work_all<B, R>(
    rt: &R,
    alloc: Global,
    house: &House<B>,
    board: &LentBoard<B, Job>,
    hands: &mut Vec<Hand<B>>,
)
where
    B: PartsName + Send + Sync + 'static,
    R: Threads + Wait + Sync,
{
    thread::scope(thread::scope_env(), rt, |scope| {
        for hand in hands.iter_mut() {
            let _ = scope.spawn(move || hand.work(rt, alloc, house, board));
        }
    });
}

// The workers in order, and whether each ran one job.
fn gather<B: PartsName>(
    rt: &(impl Abort + AllocGlobal),
    mut hands: Vec<Hand<B>>,
) -> (Vec<LentWorker<B, OfTest>>, bool) {
    let mut workers = Vec::new(rt.alloc());
    let mut did_one_each = true;
    while let Some(hand) = hands.pop() {
        let Hand {
            worker,
            pass: _pass,
            did,
        } = hand;
        workers.push(worker).expect(rt, "memory");
        did_one_each &= did == (1, true);
    }
    hands.destroy_empty();
    workers.reverse();
    (workers, did_one_each)
}

// Both workers over a house and a board: whether each ran one job, and the settlement.
fn work_and_settle<B, R>(
    rt: &R,
    house: House<B>,
    board: LentBoard<B, Job>,
    mut hands: Vec<Hand<B>>,
) -> (bool, SettledNumbers)
where
    B: PartsName + Send + Sync + 'static,
    R: Abort + AllocGlobal + Threads + Wait + Sync,
{
    work_all(rt, rt.alloc(), &house, &board, &mut hands);
    let (workers, did_one_each) = gather(rt, hands);
    (did_one_each, settle_house(rt, house, workers))
}

// A worker with passes of the boards with this name.
fn hand_of<B: PartsName>(worker: LentWorker<B, OfTest>, pass: LentPass<B, Job>) -> Hand<B> {
    Hand {
        worker,
        pass,
        did: (0, false),
    }
}

fn both<B: PartsName>(
    rt: &(impl Abort + AllocGlobal),
    first: Hand<B>,
    second: Hand<B>,
) -> Vec<Hand<B>> {
    let mut hands = Vec::with_capacity(rt.alloc(), 2).expect(rt, "memory");
    hands.push_reserved(first);
    hands.push_reserved(second);
    hands
}

// The jobs of the two sessions. That of the first goes first, though it comes last: a worker that took the other before it
// could run both.
fn push_both<B: PartsName>(
    rt: &(impl Abort + Wait),
    board: &LentBoard<B, Job>,
    pass: &mut LentPass<B, Job>,
) {
    holds(rt, board.push(rt, pass, file_for(SECOND), false).is_ok());
    holds(rt, board.push(rt, pass, file_for(FIRST), true).is_ok());
}

// Both workers over the desk and the boards with this name: whether each ran one job, and the settlement.
fn work_both<B, R>(rt: &R, opened: Opened, first: Board, others: Board) -> (bool, SettledNumbers)
where
    B: PartsName + Send + Sync + 'static,
    R: Abort + AllocGlobal + Threads + Wait + Sync,
    requires desk { desk_id opened.desk ≡ B.desk }
    requires lanes { opened.desk.lanes ≡ B.lanes }
    requires paced { (rates : Rates) × IsPacedFrom (tick_of opened.begun.micros) rates opened.pace }
    requires rates { B.rates (rates_of opened.pace) ≡ true }
    requires carried { opened.rounds.book.issued ≡ B.carried }
    requires first { board_id first.board ≡ B.first }
    requires others { board_id others.board ≡ B.board }
{
    let Lent {
        house,
        first: worker,
        second,
    } = Lent::<B>::new(opened);
    let board = LentBoard::new(first.board, others.board);
    let mut pass = LentPass::new(first.one, others.one);
    let other = LentPass::new(first.two, others.two);
    push_both(rt, &board, &mut pass);
    let hands = both(rt, hand_of(worker, pass), hand_of(second, other));
    work_and_settle(rt, house, board, hands)
}

#[test]
fn one_transfer_waits_for_the_other(rt: HostRuntime) {
    let opened = Opened::new(&rt, 0);
    let (first, others) = (Board::new(&rt), Board::new(&rt));
    let (did_one_each, settled) = work_both::<Brand, _>(&rt, opened, first, others);
    holds(&rt, did_one_each && settled.moved == 280_000);
}
