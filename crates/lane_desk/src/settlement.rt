//! Settling all accounts of a desk.

ghost use Rattle.std.specs.Prelude.{◌≡◌, ◌+◌, []};
ghost use Rattle.lane_desk.specs.Seats.{desk_id};
ghost use Rattle.lane_desk.specs.Traces.{back, IsRoundOf};
ghost use Rattle.lane_desk.specs.Workers.{AreWorkers, moved_by_all};

use crate::close::free;
use crate::desk::Desk;
use crate::lane_close::close_lane;
use crate::rounds::Rounds;
use crate::worked::Worked;
use grant_ledger::{Settled, settle};
use std::alloc::Allocator;

/// Closes each lane of a desk, given its own seats in the order of their lanes, gathers the tallies, and settles the
/// book: the octets issued are those moved and those given back in the tallies.
pub fn settle_all<N, A: Allocator, B: Allocator>(
    desk: Desk<N, A>,
    rounds: Rounds<N>,
    mut workers: Vec<Worked<N>, B>,
) -> Settled<N>
    requires round { IsRoundOf desk rounds.desk × (back rounds.desk ≡ []) }
    requires seats { AreWorkers (desk_id desk) desk.lanes workers.items }
    ensures issued { result.issued ≡ rounds.book.issued }
    ensures moved { result.moved ≡ rounds.tally.moved + moved_by_all workers.items }
    ensures sum { result.issued ≡ result.moved + result.back }
{
    let Rounds {
        desk: mut round,
        book,
        mut tally,
    } = rounds;
    let _ = book.issued();
    workers.reverse();
    while let Some(worked) = workers.pop() {
        let (seat, reported) = worked.parts();
        tally.join(reported);
        close_lane(&mut round, &desk, seat, &mut tally);
    }
    workers.destroy_empty();
    free(desk, round);
    settle(book, tally)
}
