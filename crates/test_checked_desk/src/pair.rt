//! Two seats of a desk, taken from those of `open_desk`, and passed to its settlement.

ghost use Rattle.std.specs.Prelude.{◌≡◌, ◌+◌, ◌≤◌, [], IfSome, vec_capacity};
ghost use Rattle.lane_desk.specs.Open.{AreFresh};
ghost use Rattle.desk_rule.specs.Lanes.{fresh};
ghost use Rattle.lane_desk.specs.Seats.{desk_id, seat_view, IsSeatOf};
ghost use Rattle.lane_desk.specs.Traces.{back, IsRoundOf};

use crate::own::OwnSeat;
use grant_ledger::Settled;
use lane_desk::{Desk, LaneSeat, Rounds, Worked, settle_all};
use std::alloc::Allocator;

/// The two seats of a desk of two lanes.
pub fn two_seats<N, A: Allocator>(
    desk: &Desk<N, A>,
    mut seats: Vec<LaneSeat<N>, A>,
) -> Option<(LaneSeat<N>, LaneSeat<N>)>
    requires two { desk.now.lanes ≡ 2 }
    requires seats { AreFresh (desk_id desk.now) 2 seats.items }
    ensures first { IfSome result (λ r. IsSeatOf desk.now r.0 × (r.0.lane ≡ 0)
        × (seat_view r.0 ≡ fresh)) }
    ensures second { IfSome result (λ r. IsSeatOf desk.now r.1 × (r.1.lane ≡ 1)
        × (seat_view r.1 ≡ fresh)) }
{
    let second = seats.pop()?;
    let first = seats.pop()?;
    Some((first, second))
}

/// Settles a desk of two lanes, with room for two seats.
pub fn settle_two<N, A: Allocator, B: Allocator>(
    desk: Desk<N, A>,
    rounds: Rounds<N>,
    first: OwnSeat<N>,
    second: OwnSeat<N>,
    mut room: Vec<Worked<N>, B>,
) -> Settled<N>
    requires two { desk.lanes ≡ 2 }
    requires round { IsRoundOf desk rounds.desk × (back rounds.desk ≡ []) }
    requires first { IsSeatOf desk first.seat × (first.seat.lane ≡ 0) }
    requires second { IsSeatOf desk second.seat × (second.seat.lane ≡ 1) }
    requires room { (room.items ≡ []) × (2 ≤ vec_capacity room) }
    ensures issued { result.issued ≡ rounds.book.issued }
    ensures sum { result.issued ≡ result.moved + result.back }
{
    room.push_reserved(first.into_worked());
    room.push_reserved(second.into_worked());
    settle_all(desk, rounds, room)
}
