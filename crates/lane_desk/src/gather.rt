//! Joining the seats of lanes to the round's seat, and taking what waits on them.

ghost use Rattle.std.specs.Prelude.{◌≡◌, ◌≢◌, ◌<◌, [], ◌∷◌, ◌++◌, length, slice_set, slice_index_or, IfSome, IfNone};
ghost use Rattle.desk_rule.specs.declared.view.SeatState.TheVariants.{Worker};
ghost use Rattle.desk_rule.specs.Lanes.{fresh, untraced, has_risen, has_taken, has_looked};
ghost use Rattle.lane_desk.specs.Seats.{seat_view, IsSeatOf};
ghost use Rattle.lane_desk.specs.Traces.{traces, back, IsRoundOf};

use crate::desk::Desk;
use crate::round::RoundDesk;
use crate::seat::LaneSeat;
use desk_rule::{Gather, LaneSlot, Rise, Take};
use grant_ledger::Grant;
use std::alloc::Allocator;

/// Joins the seat of the next lane, which no worker has, to the round's seat.
pub(crate) fn join<N, A: Allocator>(round: &mut RoundDesk<N>, desk: &Desk<N, A>, seat: LaneSeat<N>)
    requires round { IsRoundOf desk.now round.old }
    requires seat { IsSeatOf desk.now seat × (seat.lane ≡ length (back round.old)) }
    requires state { (seat_view seat).state ≢ Worker }
    ensures same { IsRoundOf desk.now round.new × (traces round.new ≡ traces round.old) }
    ensures back { back round.new ≡ back round.old ++ seat_view seat ∷ [] }
{
    let shared = desk.shared();
    shared.join_seat::<Gather>(&mut round.seat, seat.into_seat());
}

/// Takes the grant that waits on a lane whose seat was returned, and rises; `None` if none waits. The seat knows both
/// sides of the lane, so its view says that the amounts posted are those taken and that grant.
pub(crate) fn take_back<N, A: Allocator>(
    round: &mut RoundDesk<N>,
    desk: &Desk<N, A>,
    lane: usize,
) -> Option<Grant<N>>
    requires round { IsRoundOf desk.now round.old }
    requires lane { (lane < length (back round.old)) × (lane < round.old.lanes) }
    ensures same { IsRoundOf desk.now round.new × (traces round.new ≡ traces round.old) }
    ensures some { IfSome result (λ g. (back round.new ≡ slice_set (back round.old) lane
        (has_risen (has_taken g.octets (slice_index_or (back round.old) lane fresh))))
        × ((slice_index_or (traces round.old) lane untraced).posted
        ≡ (slice_index_or (back round.old) lane fresh).taken ++ g.octets ∷ [])) }
    ensures none { IfNone result ((back round.new ≡ slice_set (back round.old) lane
        (has_looked (slice_index_or (back round.old) lane fresh)))
        × ((slice_index_or (traces round.old) lane untraced).posted
        ≡ (slice_index_or (back round.old) lane fresh).taken)) }
{
    let shared = desk.shared();
    if shared.compare_exchange::<Take>(&mut round.seat, lane, 4, 1) != 4 {
        return None;
    }
    let slot = shared.exchange(&mut round.seat, lane, LaneSlot::Blank);
    shared.store::<Rise>(&mut round.seat, lane, 0);
    match slot {
        LaneSlot::WithGrant(grant) => Some(grant),
        _ => unreachable!(),
    }
}
