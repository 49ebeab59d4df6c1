//! Closing a whole desk.

ghost use Rattle.std.specs.Prelude.{◌≡◌, ◌+◌, ◌<◌, [], length};
ghost use Rattle.lane_desk.specs.Seats.{desk_id};
ghost use Rattle.lane_desk.specs.Traces.{traces, back, IsRoundOf};
ghost use Rattle.lane_desk.specs.Close.{AllSettled};
ghost use Rattle.lane_desk.specs.AllLanes.{AreSeats, AllClosed, GivesBack};

use crate::desk::Desk;
use crate::lane_close::close_lane;
use crate::round::RoundDesk;
use crate::seat::LaneSeat;
use desk_rule::LaneSlot;
use grant_ledger::Tally;
use std::alloc::Allocator;
use std::snapshot::Snapshot;

/// The amounts posted and taken on each lane of a closed desk, for contracts only; a program sees the tally.
#[derive(Drop)]
pub struct Lists<N> {
    round: Snapshot<RoundDesk<N>>,
}

/// Frees the table of a desk on which each lane is closed.
pub(crate) fn free<N, A: Allocator>(desk: Desk<N, A>, round: RoundDesk<N>)
    requires round { IsRoundOf desk round × (length (back round) ≡ round.lanes) }
    requires settled { AllSettled (traces round) (back round) }
{
    let mut closed = desk.into_table().close_with(round.into_seat());
    let mut i = 0;
    while i < closed.slot_count() {
        match closed.take(i) {
            LaneSlot::WithAsk(_) => {}
            LaneSlot::Blank => {}
            _ => unreachable!(),
        }
        i += 1;
    }
    closed.free();
}

/// Closes each lane of a desk, given its own seats in the order of their lanes, each in any state. A lane whose ask was
/// collected and not answered is posted 0 octets, a worker that sits rises, and a grant that waits is taken and given
/// back to the tally.
pub fn close_desk<N, A: Allocator, B: Allocator>(
    desk: Desk<N, A>,
    mut round: RoundDesk<N>,
    seats: Vec<LaneSeat<N>, B>,
    tally: &mut Tally<N>,
) -> Lists<N>
    requires round { IsRoundOf desk round × (back round ≡ []) }
    requires seats { AreSeats (desk_id desk) desk.lanes seats.items }
    ensures lanes { AllClosed (traces round) seats.items (traces result.round.value)
        (back result.round.value) }
    ensures moved { tally.new.moved ≡ tally.old.moved }
    ensures back { GivesBack tally.old.back tally.new.back seats.items (back result.round.value) }
{
    let _back = tally.back();
    for seat in seats {
        close_lane(&mut round, &desk, seat, tally);
    }
    let lists = Lists {
        round: Snapshot::of(&round),
    };
    free(desk, round);
    lists
}
