//! Each growth of each call refused in turn: the call passes once there is memory.

ghost use Rattle.transfer_worker.specs.Boards.{IsOfBoard, IsSameBoard};

use super::counted::End;
use super::expect::{OfTest, holds};
use super::house::{House, Job};
use data_pump::MAX_READ;
use ftp_terms::DataType;
use lent_parts::{LentWorker, PartsName};
use line_rates::Way;
use linked_list_allocator::LocalHeap;
use std::alloc::Global;
use std::process::Abort;
use std::sync::Wait;
use std::test::Fail;
use test_scarce_memory::{HEAP, leave_hole};
use transfer_worker::{
    BoardFault, BoardPass, Gate, Go, JobBoard, JobEnd, LaneJob, LoopEnd, Remnant, open_board,
    worker_loop,
};

// Returns whether a board opens over this heap. If not, memory ran out.
fn opens(rt: &impl Abort, heap: &LocalHeap) -> bool {
    match open_board::<u32, _>(heap, 3, 2) {
        Ok(_) => true,
        Err(fault) => {
            holds(rt, fault == BoardFault::Memory);
            false
        }
    }
}

#[test]
fn boards_open_once_there_is_memory(rt: HostRuntime) -> Result<(), Fail> {
    let heap = LocalHeap::new(rt.alloc(), HEAP)?;
    let mut refused = 0usize;
    for room in 1..64usize {
        let rest = leave_hole(&rt, &heap, room * 16)?;
        if opens(&rt, &heap) {
            break;
        }
        refused = room;
        drop(rest);
        holds(&rt, opens(&rt, &heap));
    }
    holds(&rt, 3 <= refused && refused < 63);
    Ok(())
}

/// A gate that always says `Stop`.
#[derive(Drop)]
struct Shut {
    last: Go,
    heard: Option<JobEnd>,
}

impl<Q: Remnant> Gate<Q> for Shut {
    ghost use Rattle.std.specs.Prelude.{◌≡◌, None};
    ghost use Rattle.data_pump.specs.declared.inflow.TheConstants.{MAX_READ};

    ghost last_go = { λ shut. shut.last };

    ghost heard = { λ _. None };

    ghost passed = { λ _. None };

    ghost may_want = { λ want. want ≡ MAX_READ };

    fn pass(&mut self, _session: u32, _moved: u64) -> Go {
        self.last = Go::Stop;
        Go::Stop
    }

    fn upload_want(&self) -> u64 {
        MAX_READ as u64
    }

    fn last(&self) -> Go {
        self.last
    }

    fn done(&mut self, _session: u32, end: JobEnd, _ran: Q) {
        self.heard = Some(end);
    }
}

/// The direction of a job, its type, room in octets, and whether it is enough for its buffers. Under TYPE A there are
/// two, the smaller one first.
type Buffers = (Way, DataType, usize, bool);

static BUFFERS: [Buffers; 10] = [
    (Way::Down, DataType::Ascii, 1_000, false),
    (Way::Down, DataType::Ascii, 40_000, false),
    (Way::Down, DataType::Ascii, 110_000, true),
    (Way::Down, DataType::Image, 1_000, false),
    (Way::Down, DataType::Image, 70_000, true),
    (Way::Up, DataType::Ascii, 40_000, false),
    (Way::Up, DataType::Ascii, 110_000, false),
    (Way::Up, DataType::Ascii, 150_000, true),
    (Way::Up, DataType::Image, 1_000, false),
    (Way::Up, DataType::Image, 70_000, true),
];

fn job_of(row: &Buffers) -> Job {
    let end = End {
        left: 10,
        taken: 0,
        calls: 10,
    };
    match row.0 {
        Way::Down => LaneJob::Send {
            user: 0,
            session: 5,
            source: end,
            connection: end,
            data_type: row.1,
        },
        Way::Up => LaneJob::Take {
            user: 0,
            session: 5,
            connection: end,
            sink: end,
            data_type: row.1,
        },
    }
}

// Returns whether a job is opened over this heap, and then stopped. If not, it ends for lack of memory.
fn is_opened<B: PartsName>(
    rt: &(impl Abort + Wait),
    heap: &LocalHeap,
    house: &House<B>,
    worker: &mut LentWorker<B, OfTest>,
    job: Job,
) -> bool {
    let mut gate = Shut {
        last: Go::On,
        heard: None,
    };
    if !worker.is_free() {
        panic!(rt; "somebody sits there");
    }
    let was_stopped = worker.work(rt, heap, house.desk(), job, &mut gate);
    let end = if was_stopped {
        JobEnd::Stopped
    } else {
        JobEnd::Memory
    };
    holds(rt, gate.heard == Some(end) && worker.is_free());
    was_stopped
}

/// Each buffer of each job may be refused: the job ends with that, and the next one is run as usual.
pub(crate) fn refuse_buffers<B: PartsName>(
    rt: &(impl Abort + AllocGlobal + Wait),
    house: &House<B>,
    worker: &mut LentWorker<B, OfTest>,
) {
    let heap = LocalHeap::new(rt.alloc(), 200_000).expect(rt, "a heap");
    for row in &BUFFERS {
        let rest = leave_hole(rt, &heap, row.2).expect(rt, "a hole");
        holds(
            rt,
            is_opened(rt, &heap, house, worker, job_of(row)) == row.3,
        );
        drop(rest);
        holds(rt, is_opened(rt, &heap, house, worker, job_of(row)));
    }
}

/// A gate whose first rounds have no memory. Once a job has ended, all memory of the jobs is available.
#[derive(Drop)]
struct Relief<'h, B: PartsName> {
    house: &'h House<B>,
    alloc: Global,
    // a full heap
    none: &'h LocalHeap,
    // number of further rounds without memory
    poor: u32,
    taken: Vec<Vec<u8, &'h LocalHeap>>,
    last: Go,
    ends: (Option<JobEnd>, Option<JobEnd>),
}

impl<'h, B: PartsName, Q: Remnant> Gate<Q> for Relief<'h, B> {
    ghost use Rattle.std.specs.Prelude.{◌≡◌, None};
    ghost use Rattle.data_pump.specs.declared.inflow.TheConstants.{MAX_READ};

    ghost last_go = { λ relief. relief.last };

    ghost heard = { λ _. None };

    ghost passed = { λ _. None };

    ghost may_want = { λ want. want ≡ MAX_READ };

    fn pass(&mut self, _session: u32, _moved: u64) -> Go {
        if self.poor > 0 {
            self.poor -= 1;
            self.house.serve(self.none);
        } else {
            self.house.serve(self.alloc);
        }
        self.last = Go::On;
        Go::On
    }

    fn upload_want(&self) -> u64 {
        MAX_READ as u64
    }

    fn last(&self) -> Go {
        self.last
    }

    fn done(&mut self, _session: u32, end: JobEnd, _ran: Q) {
        self.taken.clear();
        self.ends = (self.ends.1, Some(end));
    }
}

// Puts a job on the board twice.
fn put_twice(
    rt: &(impl Abort + Wait),
    board: &JobBoard<Job>,
    pass: &mut BoardPass<Job>,
    row: &Buffers,
)
    requires board { IsOfBoard board.now pass.old }
    ensures board { IsSameBoard pass.old pass.new }
{
    let first = board.push(rt, pass, job_of(row));
    let second = board.push(rt, pass, job_of(row));
    holds(rt, first.is_ok() && second.is_ok());
}

// A loop over the jobs of a board, the first of which finds no memory in the heap.
fn loop_in_heap<B: PartsName>(
    rt: &(impl Abort + AllocGlobal + Wait),
    heap: &LocalHeap,
    none: &LocalHeap,
    house: &House<B>,
    worker: LentWorker<B, OfTest>,
) -> LentWorker<B, OfTest> {
    let (board, mut passes) = open_board(rt.alloc(), 2, 1).expect(rt, "a board");
    let Some(mut pass) = passes.pop() else {
        panic!(rt; "a pass")
    };
    put_twice(rt, &board, &mut pass, &BUFFERS[3]);
    let mut gate = Relief {
        house,
        alloc: rt.alloc(),
        none,
        poor: 5,
        taken: leave_hole(rt, heap, 1_000).expect(rt, "a hole"),
        last: Go::On,
        ends: (None, None),
    };
    if !worker.is_free() {
        panic!(rt; "somebody sits there");
    }
    let desk = house.desk().desk();
    let worked = worker.into_worked();
    let (worked, end) = worker_loop(rt, heap, desk, worked, &board, &mut pass, &mut gate);
    holds(rt, end == LoopEnd::Idle && gate.poor == 0);
    holds(rt, gate.ends == (Some(JobEnd::Memory), Some(JobEnd::Ended)));
    let (seat, tally) = worked.parts();
    LentWorker::new(seat, tally)
}

/// A loop continues after a job that ended for lack of memory; and a round without memory answers the next job with 0
/// octets, and the job asks again. Ten octets are moved.
pub(crate) fn loop_without_memory<B: PartsName>(
    rt: &(impl Abort + AllocGlobal + Wait),
    house: &House<B>,
    worker: LentWorker<B, OfTest>,
) -> LentWorker<B, OfTest> {
    let heap = LocalHeap::new(rt.alloc(), 200_000).expect(rt, "a heap");
    let none = LocalHeap::new(rt.alloc(), HEAP).expect(rt, "a heap");
    let _rest = leave_hole(rt, &none, 0).expect(rt, "no hole");
    loop_in_heap(rt, &heap, &none, house, worker)
}
