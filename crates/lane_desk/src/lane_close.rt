//! Closing one lane.

ghost use Rattle.std.specs.Prelude.{◌≡◌, ◌≢◌, ◌+◌, ◌<◌, [], ◌∷◌, ◌++◌, length, slice_set, slice_index_or};
ghost use Rattle.grant_ledger.specs.Books.{capped};
ghost use Rattle.desk_rule.specs.declared.view.SeatState.TheVariants.{Worker};
ghost use Rattle.desk_rule.specs.declared.view.LaneView.{LaneView};
ghost use Rattle.desk_rule.specs.Lanes.{untraced};
ghost use Rattle.lane_desk.specs.Seats.{seat_view, IsSeatOf, IsSameSeat};
ghost use Rattle.lane_desk.specs.Traces.{traces, back, IsRoundOf, IsSameRound};
ghost use Rattle.lane_desk.specs.Close.{Closes, answered};

use crate::desk::Desk;
use crate::gather::{join, take_back};
use crate::round::RoundDesk;
use crate::seat::LaneSeat;
use desk_rule::SeatState;
use grant_ledger::{Grant, Tally};
use std::alloc::Allocator;

// Posts 0 octets if an ask was collected and not answered.
fn answer<N, A: Allocator>(round: &mut RoundDesk<N>, desk: &Desk<N, A>, lane: usize)
    requires round { IsRoundOf desk.now round.old }
    requires lane { lane < round.old.lanes }
    ensures same { IsSameRound round.old round.new }
    ensures traces { traces round.new ≡ slice_set (traces round.old) lane
        (answered (slice_index_or (traces round.old) lane untraced)) }
{
    if round.is_due(lane) {
        round.post(desk, lane, Grant::none(lane as u8, 0));
    }
}

// The seat after its worker has risen.
fn risen<N, A: Allocator>(desk: &Desk<N, A>, mut seat: LaneSeat<N>) -> LaneSeat<N>
    requires desk { IsSeatOf desk.now seat }
    ensures same { IsSameSeat seat result }
    ensures state { (seat_view result).state ≢ Worker }
    ensures taken { (seat_view result).taken ≡ (seat_view seat).taken }
{
    if let SeatState::Worker = seat.state() {
        seat.rise(desk);
    }
    seat
}

/// Closes the next lane, and returns the octets of a grant that still waited, which are given back to the
/// tally.
pub(crate) fn close_lane<N, A: Allocator>(
    round: &mut RoundDesk<N>,
    desk: &Desk<N, A>,
    seat: LaneSeat<N>,
    tally: &mut Tally<N>,
) -> u64
    requires round { IsRoundOf desk.now round.old }
    requires seat { IsSeatOf desk.now seat × (seat.lane ≡ length (back round.old)) }
    ensures same { IsRoundOf desk.now round.new }
    ensures traces { traces round.new ≡ slice_set (traces round.old) seat.lane
        (slice_index_or (traces round.new) seat.lane untraced) }
    ensures back { (x : LaneView) × (back round.new ≡ back round.old ++ x ∷ [])
        × Closes (slice_index_or (traces round.old) seat.lane untraced) (seat_view seat)
        (slice_index_or (traces round.new) seat.lane untraced) x result }
    ensures moved { tally.new.moved ≡ tally.old.moved }
    ensures tally { tally.new.back ≡ capped tally.old.back result }
{
    let lane = seat.lane();
    let _moved = tally.moved();
    let _back = tally.back();
    answer(round, desk, lane);
    let seat = risen(desk, seat);
    join(round, desk, seat);
    match take_back(round, desk, lane) {
        Some(grant) => {
            let octets = grant.octets();
            grant.spend(0, tally);
            octets
        }
        None => 0,
    }
}
