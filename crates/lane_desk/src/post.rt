//! Answering the asks collected.

ghost use Rattle.std.specs.Prelude.{◌≡◌, ◌+◌, ◌<◌, ◌≤◌, length, sum, map};
ghost use Rattle.line_rates.specs.TickTree.{lane_in};
ghost use Rattle.desk_rule.specs.Lanes.{posted_in, most};
ghost use Rattle.lane_desk.specs.Traces.{traces, IsRoundOf, IsSameRound};
ghost use Rattle.lane_desk.specs.Posted.{posted_all, AreDue, nothing_for};

use crate::desk::Desk;
use crate::round::RoundDesk;
use grant_ledger::{Grant, Purse};
use line_rates::Ask;
use std::alloc::Allocator;

/// Posts to each of the lanes its amount out of a purse, which is empty afterwards.
pub(crate) fn post_all<N, A: Allocator>(
    round: &mut RoundDesk<N>,
    desk: &Desk<N, A>,
    lanes: &[u8],
    grants: &[u64],
    mut purse: Purse<N>,
)
    requires desk { IsRoundOf desk.now round.old }
    requires each { length lanes.now ≡ length grants.now }
    requires due { AreDue lanes.now (traces round.old) }
    requires purse { purse.left ≡ sum grants.now }
    requires most { posted_in (traces round.old) + sum grants.now ≤ most }
    ensures same { IsSameRound round.old round.new }
    ensures posted { traces round.new ≡ posted_all lanes.now grants.now (traces round.old) }
{
    for i in 0..lanes.len() {
        let grant = purse.split(lanes[i], grants[i]);
        round.post(desk, lanes[i] as usize, grant);
    }
    purse.close();
}

/// Posts 0 octets to the lane of each ask.
pub(crate) fn refuse_all<N, A: Allocator>(
    round: &mut RoundDesk<N>,
    desk: &Desk<N, A>,
    asks: &[(u8, Ask)],
    tick: u64,
)
    requires desk { IsRoundOf desk.now round.old }
    requires due { AreDue (map lane_in asks.now) (traces round.old) }
    requires most { posted_in (traces round.old) ≤ most }
    ensures same { IsSameRound round.old round.new }
    ensures posted { traces round.new
        ≡ posted_all (map lane_in asks.now) (map nothing_for asks.now) (traces round.old) }
{
    for i in 0..asks.len() {
        let lane = asks[i].0;
        round.post(desk, lane as usize, Grant::none(lane, tick));
    }
}
