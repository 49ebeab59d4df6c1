//! The seats of a desk, as lent to the threads of its lanes.

ghost use Rattle.std.specs.Prelude.{◌≡◌, ◌+◌, ◌≤◌, [], IfOk, MatchOption, Some, length, slice_get, vec_capacity};
ghost use Rattle.lane_desk.specs.Open.{AreFresh};
ghost use Rattle.paced_rounds.specs.Allowed.{AreAllowed};
ghost use Rattle.paced_rounds.specs.History.{stretches};
ghost use Rattle.paced_rounds.specs.Settled.{rounds_of};

use crate::desk::LentDesk;
use crate::name::PartsName;
use crate::rounds::LentRounds;
use crate::settlement::{MisplacedParts, settle_lent, tell_misplaced};
use crate::worker::LentWorker;
use grant_ledger::Tally;
use lane_desk::{LaneSeat, Worked};
use paced_rounds::Settlement;
use std::alloc::{AllocError, Global};
use std::sync::{Mutex, Wait};

/// Room to gather this many seats. It cannot be dropped.
struct SeatRoom<B: PartsName, N> {
    lanes: usize,
    gathered: Vec<LentWorker<B, N>>,
    worked: Vec<Worked<N>>,
    ghost none: { (gathered.items ≡ []) × (worked.items ≡ []) },
    ghost gathers: { lanes ≤ vec_capacity gathered },
    ghost works: { lanes ≤ vec_capacity worked },
}

/// The seats of the desk with a name, in the order of their lanes, each with a lock of its own; and room to gather them,
/// which nobody locks: a seat may not be seen by two threads, so what could hold one needs a lock. They cannot be dropped.
pub struct LentSeats<B: PartsName, N> {
    seats: Vec<Mutex<LentWorker<B, N>>>,
    room: Mutex<SeatRoom<B, N>>,
}

// Two lists of seats, which cannot be dropped.
fn new_lists<B: PartsName, N>(
    alloc: Global,
    lanes: usize,
) -> Result<(Vec<Mutex<LentWorker<B, N>>>, Vec<LentWorker<B, N>>), AllocError>
    ensures seats { IfOk result (λ l. (l.0.items ≡ []) × (lanes ≤ vec_capacity l.0)) }
    ensures gathered { IfOk result (λ l. (l.1.items ≡ []) × (lanes ≤ vec_capacity l.1)) }
{
    let seats = Vec::with_capacity(alloc, lanes)?;
    match Vec::with_capacity(alloc, lanes) {
        Ok(gathered) => Ok((seats, gathered)),
        Err(AllocError) => {
            seats.destroy_empty();
            Err(AllocError)
        }
    }
}

// Lends each seat with a tally of its own.
fn lend_seats<B: PartsName, N>(
    seats: Vec<LaneSeat<N>>,
    tally: &mut Tally<N>,
    workers: &mut Vec<Mutex<LentWorker<B, N>>>,
)
    requires seats { AreFresh B.desk B.lanes seats.items }
    requires room { length workers.old.items + length seats.items ≤ vec_capacity workers.old }
    ensures tally { tally.new ≡ tally.old }
    ensures workers { length workers.new.items
        ≡ length workers.old.items + length seats.items }
{
    for seat in seats {
        workers.push_reserved(Mutex::new(LentWorker::new(seat, tally.split())));
    }
}

// Takes each seat out of its lock, in order.
fn unlocked<B: PartsName, N>(
    mut seats: Vec<Mutex<LentWorker<B, N>>>,
    gathered: Vec<LentWorker<B, N>>,
) -> Vec<LentWorker<B, N>>
    requires none { gathered.items ≡ [] }
    requires room { length seats.items ≤ vec_capacity gathered }
    ensures all { length result.items ≡ length seats.items }
{
    let mut all = gathered;
    seats.reverse();
    while let Some(seat) = seats.pop() {
        all.push_reserved(seat.into_inner());
    }
    seats.destroy_empty();
    all
}

impl<B: PartsName, N> LentSeats<B, N> {
    /// Room for the seats of this many lanes, and none yet.
    pub fn open(alloc: Global, lanes: usize) -> Result<LentSeats<B, N>, AllocError>
        ensures room { IfOk result (λ s. (s.seats.items ≡ []) × (lanes ≤ vec_capacity s.seats)) }
    {
        let (seats, gathered) = new_lists(alloc, lanes)?;
        match Vec::with_capacity(alloc, lanes) {
            Ok(worked) => {
                let room = SeatRoom {
                    lanes,
                    gathered,
                    worked,
                };
                Ok(LentSeats {
                    seats,
                    room: Mutex::new(room),
                })
            }
            Err(AllocError) => {
                seats.destroy_empty();
                gathered.destroy_empty();
                Err(AllocError)
            }
        }
    }

    /// Lends the seats of a desk that was just opened, each with a tally of its own.
    pub fn lend(&mut self, seats: Vec<LaneSeat<N>>, tally: &mut Tally<N>)
        requires seats { AreFresh B.desk B.lanes seats.items }
        requires room { (self.old.seats.items ≡ [])
            × (length seats.items ≤ vec_capacity self.old.seats) }
        ensures tally { tally.new ≡ tally.old }
        ensures all { length self.new.seats.items ≡ length seats.items }
    {
        lend_seats(seats, tally, &mut self.seats);
    }

    /// The number of lanes.
    pub fn count(&self) -> usize
        ensures count { result ≡ length self.now.seats.items }
    {
        self.seats.len()
    }

    /// The seat of a lane, behind its lock; none if there is no such lane.
    pub fn seat(&self, lane: usize) -> Option<&Mutex<LentWorker<B, N>>>
        ensures seat { MatchOption result (length self.now.seats.items ≤ lane)
            (λ s. slice_get self.now.seats.items lane ≡ Some s.now) }
    {
        self.seats.get(lane)
    }

    /// Gathers the seats, once no thread has one any more, and settles the book of their desk, as `settle_lent`. If there
    /// are more seats than room was made for, which `lend` is not called with, the first of those is reported for ever.
    pub fn settle<R: Wait, M: MisplacedParts>(
        self,
        rt: &R,
        told: &mut M,
        desk: LentDesk<B, N>,
        rounds: LentRounds<B, N>,
    ) -> Settlement<N>
        ensures issued { (result.issued ≡ rounds.rounds.rounds.book.issued)
            × (result.carried ≡ B.carried) }
        ensures sum { result.issued ≡ result.moved + result.back }
        ensures moments { (result.opened ≡ rounds.rounds.opened)
            × (result.latest ≡ rounds.rounds.latest) }
        ensures history { rounds_of result
            ≡ stretches rounds.rounds.ended.items rounds.rounds.pace rounds.rounds.log.items }
        ensures rates { AreAllowed B.rates (rounds_of result) }
    {
        let LentSeats { seats, room } = self;
        let SeatRoom {
            lanes,
            gathered,
            worked,
        } = room.into_inner();
        if seats.len() <= lanes {
            settle_lent(rt, told, desk, rounds, unlocked(seats, gathered), worked)
        } else {
            tell_misplaced(rt, told, lanes)
        }
    }
}
