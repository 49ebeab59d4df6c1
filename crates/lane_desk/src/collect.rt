//! Collecting.

ghost use Rattle.std.specs.Prelude.{◌≡◌, ◌<◌, [], List, Option, None, true, false, slice_set, slice_index_or, IfSome, IfNone, OnSome};
ghost use Rattle.desk_rule.specs.Lanes.{untraced, has_collected};
ghost use Rattle.line_rates.specs.declared.ask.Ask.{Ask};
ghost use Rattle.lane_desk.specs.Traces.{answering, traces, IsRoundOf, IsSameRound};
ghost use Rattle.lane_desk.specs.Tried.{is_given, tried_by, AreTried};

use crate::asks::Asks;
use crate::desk::Desk;
use crate::round::RoundDesk;
use grant_ledger::MAX_LANES;
use line_rates::Ask;
use std::alloc::Allocator;

// Tries a lane if it is given.
fn collect_if<N, A: Allocator>(
    round: &mut RoundDesk<N>,
    desk: &Desk<N, A>,
    lane: usize,
    is_given: bool,
) -> Option<Ask>
    requires desk { IsRoundOf desk.now round.old }
    requires lane { lane < round.old.lanes }
    requires quiet { answering round.old ≡ false }
    ensures same { IsSameRound round.old round.new }
    ensures quiet { answering round.new ≡ false }
    ensures some { IfSome result (λ a. traces round.new ≡ slice_set (traces round.old) lane
        (has_collected a (slice_index_or (traces round.old) lane untraced))) }
    ensures none { IfNone result (traces round.new ≡ slice_set (traces round.old) lane
        (tried_by is_given None (slice_index_or (traces round.old) lane untraced))) }
    ensures only { OnSome result (is_given ≡ true) }
{
    if is_given {
        return round.collect(desk, lane);
    }
    None
}

/// Tries each of the given lanes once, in rising order, and no other. Adds the asks found to `asks`, which is empty. It
/// is lent, because each hand-over of it by value copies all of its places.
pub(crate) fn collect_all<N, A: Allocator>(
    round: &mut RoundDesk<N>,
    desk: &Desk<N, A>,
    given: &[bool; MAX_LANES],
    asks: &mut Asks,
)
    requires desk { IsRoundOf desk.now round.old }
    requires empty { asks.old ≡ record { asks = []; answered = 0 } }
    requires quiet { answering round.old ≡ false }
    ensures same { IsSameRound round.old round.new }
    ensures tried { (found : List (Option Ask))
        × AreTried (is_given given.now) found (traces round.old) (traces round.new) asks.new.asks
        asks.new.answered }
{
    for lane in 0..round.lanes() {
        match collect_if(round, desk, lane, given[lane]) {
            Some(ask) => asks.push(lane as u8, ask),
            None => {}
        }
    }
}
