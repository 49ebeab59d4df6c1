//! Settlement of a book whose desk was lent to nobody.

ghost use Rattle.std.specs.Prelude.{◌≡◌, ◌+◌, ◌≤◌, [], length, vec_capacity};
ghost use Rattle.lane_desk.specs.Open.{AreFresh};
ghost use Rattle.lane_desk.specs.Workers.{AreWorkers};
ghost use Rattle.lane_desk.specs.Seats.{desk_id};
ghost use Rattle.ftp_daemon.specs.Unheld.{IsUnheld};

use crate::opening::Line;
use grant_ledger::{Book, Tally, settle};
use lane_desk::{Desk, LaneSeat, Rounds, Worked, settle_all};
use lent_parts::RoundClock;
use paced_rounds::Settlement;

// Gathers seats that were never used, each with a tally of its own.
fn gather_fresh<N>(
    _desk: &Desk<N>,
    seats: Vec<LaneSeat<N>>,
    tally: &mut Tally<N>,
    gathered: &mut Vec<Worked<N>>,
)
    requires seats { AreFresh (desk_id _desk.now) _desk.now.lanes seats.items }
    requires none { gathered.old.items ≡ [] }
    requires room { length seats.items ≤ vec_capacity gathered.old }
    ensures workers { AreWorkers (desk_id _desk.now) _desk.now.lanes gathered.new.items }
    ensures tally { tally.new ≡ tally.old }
{
    for seat in seats {
        gathered.push_reserved(Worked::new(seat, tally.split()));
    }
}

/// Settles a book for which no desk was opened.
pub(crate) fn settle_unheld<R: RoundClock, N>(
    rt: &R,
    book: Book<N>,
    tally: Tally<N>,
) -> Settlement<N>
    requires tally { book.issued ≡ tally.moved + tally.back }
    ensures unheld { IsUnheld book.issued result }
{
    Settlement::unheld(settle(book, tally), rt.moment().micros())
}

/// Settles a line that was lent to nobody.
pub(crate) fn settle_unlent<R: RoundClock, N>(rt: &R, line: Line<N>) -> Settlement<N>
    ensures unheld { IsUnheld line.book.issued result }
{
    let Line {
        desk,
        round,
        seats,
        book,
        mut tally,
        mut room,
    } = line;
    gather_fresh(&desk, seats, &mut tally, &mut room);
    let settled = settle_all(desk, Rounds::new(round, book, tally), room);
    Settlement::unheld(settled, rt.moment().micros())
}
