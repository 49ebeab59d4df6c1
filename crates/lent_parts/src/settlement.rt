//! Settling all lent parts of a desk.

ghost use Rattle.std.specs.Prelude.{◌≡◌, ◌+◌, ◌≤◌, [], length, vec_capacity};
ghost use Rattle.lane_desk.specs.Workers.{AreWorkers, moved_by_all};
ghost use Rattle.paced_rounds.specs.Allowed.{AreAllowed};
ghost use Rattle.paced_rounds.specs.History.{stretches};
ghost use Rattle.paced_rounds.specs.Settled.{rounds_of};
ghost use Rattle.lent_parts.specs.Reported.{moved_by_lent};

use crate::desk::LentDesk;
use crate::name::PartsName;
use crate::rounds::LentRounds;
use crate::worker::LentWorker;
use lane_desk::{Worked, settle_all};
use paced_rounds::Settlement;
use std::alloc::Allocator;
use std::sync::Wait;

/// Is told of a fault of the program: parts that were lent are not back in their places, so nothing can be settled. Parts
/// cannot be dropped, so the call that settles them does not return then, and reports this again and again.
pub trait MisplacedParts {
    /// The part of a lane is missing, or in the place of another. Waits a while.
    fn misplaced(&mut self, lane: usize);
}

/// Reports for ever that the part of a lane is not in its place.
pub(crate) fn tell_misplaced<R: Wait, M: MisplacedParts>(rt: &R, told: &mut M, lane: usize) -> ! {
    for _ in rt.forever() {
        told.misplaced(lane);
    }
    unreachable!()
}

// Gathers workers in the order of their lanes. The type of a worker does not contain its lane: one that is not in its
// lane's place is reported for ever.
fn gather<R: Wait, B: PartsName, N, M: MisplacedParts, A: Allocator>(
    rt: &R,
    told: &mut M,
    mut workers: Vec<LentWorker<B, N>, A>,
    gathered: &mut Vec<Worked<N>, A>,
)
    requires room { length workers.items ≤ vec_capacity gathered.old }
    requires none { gathered.old.items ≡ [] }
    ensures workers { AreWorkers B.desk (length gathered.new.items) gathered.new.items }
    ensures moved { moved_by_all gathered.new.items ≡ moved_by_lent workers.items }
{
    workers.reverse();
    while let Some(worker) = workers.pop() {
        if worker.lane() == gathered.len() {
            gathered.push_reserved(worker.into_worked());
        } else {
            tell_misplaced(rt, told, gathered.len());
        }
    }
    workers.destroy_empty();
}

/// Gathers everything lent of a desk, closes it, and settles the book: the octets issued are those moved and those
/// given back in the tallies. The workers are in the order of their lanes, and there is room for as many.
///
/// The settlement has the history of the rounds, whose rates pass the test of the name, and the moments of the first and
/// the last of them.
///
/// The types of the workers say that they are of this desk. That each lane's worker is there, and in its place, is checked:
/// otherwise this waits for ever, as a caller would have to that got all parts back, which cannot be dropped, and reports
/// it to `told`.
pub fn settle_lent<R: Wait, B: PartsName, N, M: MisplacedParts, A: Allocator, D: Allocator>(
    rt: &R,
    told: &mut M,
    desk: LentDesk<B, N, D>,
    rounds: LentRounds<B, N>,
    workers: Vec<LentWorker<B, N>, A>,
    room: Vec<Worked<N>, A>,
) -> Settlement<N>
    requires room { length workers.items ≤ vec_capacity room }
    requires none { room.items ≡ [] }
    ensures issued { (result.issued ≡ rounds.rounds.rounds.book.issued)
        × (result.carried ≡ B.carried) }
    ensures moved { result.moved
        ≡ rounds.rounds.rounds.tally.moved + moved_by_lent workers.items }
    ensures sum { result.issued ≡ result.moved + result.back }
    ensures moments { (result.opened ≡ rounds.rounds.opened)
        × (result.latest ≡ rounds.rounds.latest) }
    ensures history { rounds_of result
        ≡ stretches rounds.rounds.ended.items rounds.rounds.pace rounds.rounds.log.items }
    ensures rates { AreAllowed B.rates (rounds_of result) }
{
    let mut gathered = room;
    gather(rt, told, workers, &mut gathered);
    let desk = desk.into_desk();
    if gathered.len() == desk.lanes() {
        let (rounds, account) = rounds.into_rounds();
        account.settle(settle_all(desk, rounds, gathered))
    } else {
        tell_misplaced(rt, told, gathered.len())
    }
}
