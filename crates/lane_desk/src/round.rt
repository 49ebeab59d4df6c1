//! The round's seat: collect and post.

ghost use Rattle.std.specs.Prelude.{◌≡◌, ◌+◌, ◌-◌, ◌<◌, ◌≤◌, [], true, false, length, slice_set, slice_index_or, IfSome, IfNone};
ghost use Rattle.grant_ledger.specs.declared.ledger.TheConstants.{MAX_LANES};
ghost use Rattle.desk_rule.specs.Lanes.{any_due, is_due, untraced, has_missed, has_collected, has_posted, posted_in, most};
ghost use Rattle.lane_desk.specs.Held.{stack, round_in, KnowsDesk};

use crate::desk::Desk;
use atomic_table::Seat;
use desk_rule::{Collect, DeskView, LaneSlot, Post};
use grant_ledger::{Grant, MAX_LANES};
use line_rates::Ask;
use std::alloc::Allocator;

/// The right to collect the asks of a desk's lanes and to post the grants that answer them. Contracts see what it knows
/// of each lane as `traces`: its tries, the asks collected, and the amounts posted.
pub struct RoundDesk<N> {
    pub(crate) seat: Seat<LaneSlot<N>, DeskView>,
    lanes: usize,
    // The lanes whose slots it has: their asks are collected and not answered.
    held: [bool; MAX_LANES],
    ghost few: { lanes ≤ MAX_LANES },
    ghost knows: { KnowsDesk seat.me lanes held },
    ghost answers: { (round_in seat.me.0).answering ≡ true
        → any_due (round_in seat.me.0).traces ≡ true },
}

// A seat can access only the first of its slots. This moves the slots of lanes from `from` down to `to` to the end.
fn rotate_down<N>(
    seat: &mut Seat<LaneSlot<N>, DeskView>,
    held: &[bool; MAX_LANES],
    lanes: usize,
    from: usize,
    to: usize,
)
    requires { (to ≤ from) × (from ≤ lanes) × (lanes ≤ MAX_LANES)
        × (seat.old.me.1 ≡ stack held.now from (lanes - from)) }
    ensures { (seat.new.table_id ≡ seat.old.table_id) × (seat.new.id ≡ seat.old.id)
        × (seat.new.me ≡ (seat.old.me.0, stack held.now to (lanes - to))) }
{
    let mut i = from;
    while i > to {
        i -= 1;
        if held[i] {
            seat.turn();
        }
    }
}

impl<N> RoundDesk<N> {
    ghost use Rattle.lane_desk.specs.Posted.{AllAnswered};
    ghost use Rattle.lane_desk.specs.Traces.{answering, traces, IsRoundOf, IsSameRound};
    ghost use Rattle.desk_rule.specs.declared.view.DeskView.TheVariants.{Round};
    ghost use Rattle.lane_desk.specs.Begun.{dealt_round};

    /// The round of a desk on which nothing has been done, after each lane's seat was split off.
    pub fn new(seat: Seat<LaneSlot<N>, DeskView>, lanes: usize) -> RoundDesk<N>
        requires { (seat.me ≡ (Round (dealt_round lanes lanes), [])) × (lanes ≤ MAX_LANES) }
        ensures { (result.seat ≡ seat) × (result.lanes ≡ lanes) }
    {
        RoundDesk {
            seat,
            lanes,
            held: [false; MAX_LANES],
        }
    }

    /// The seat on the table.
    pub fn into_seat(self) -> Seat<LaneSlot<N>, DeskView>
        ensures seat { result ≡ self.seat }
    {
        let RoundDesk {
            seat,
            lanes: _,
            held: _,
        } = self;
        seat
    }

    /// Number of lanes.
    pub fn lanes(&self) -> usize
        ensures lanes { result ≡ self.now.lanes }
        ensures traces { result ≡ length (traces self.now) }
        ensures few { result ≤ MAX_LANES }
    {
        self.lanes
    }

    /// Returns whether an ask of the lane was collected and not answered.
    pub fn is_due(&self, lane: usize) -> bool
        requires lane { lane < self.now.lanes }
        ensures due { result ≡ is_due (slice_index_or (traces self.now) lane untraced) }
    {
        self.held[lane]
    }

    /// A law of the type: once each ask collected is answered, lanes may be tried again.
    pub fn answers_end(&self)
        ensures quiet { AllAnswered (traces self.now) → answering self.now ≡ false }
    {}

    /// Tries a lane: collects its ask; `None` if none waited at that moment. Either way it counts as a try. No lane is
    /// tried from an answer on until each ask collected is answered.
    pub fn collect<A: Allocator>(&mut self, desk: &Desk<N, A>, lane: usize) -> Option<Ask>
        requires desk { IsRoundOf desk.now self.old }
        requires lane { lane < self.old.lanes }
        requires quiet { answering self.old ≡ false }
        ensures same { IsSameRound self.old self.new }
        ensures quiet { answering self.new ≡ false }
        ensures some { IfSome result (λ a. traces self.new ≡ slice_set (traces self.old) lane
            (has_collected a (slice_index_or (traces self.old) lane untraced))) }
        ensures none { IfNone result (traces self.new ≡ slice_set (traces self.old) lane
            (has_missed (slice_index_or (traces self.old) lane untraced))) }
    {
        let shared = desk.shared();
        let lanes = self.lanes;
        rotate_down(&mut self.seat, &self.held, lanes, lanes, lane);
        if shared.compare_exchange::<Collect>(&mut self.seat, lane, 2, 3) != 2 {
            rotate_down(&mut self.seat, &self.held, lanes, lane, 0);
            return None;
        }
        let slot = shared.exchange(&mut self.seat, lane, LaneSlot::Blank);
        self.held[lane] = true;
        rotate_down(&mut self.seat, &self.held, lanes, lane + 1, 0);
        match slot {
            LaneSlot::WithAsk(ask) => Some(ask),
            _ => unreachable!(),
        }
    }

    /// Answers a lane whose ask was collected and not answered. All amounts ever posted add up to at most 2^62 octets.
    pub fn post<A: Allocator>(&mut self, desk: &Desk<N, A>, lane: usize, grant: Grant<N>)
        requires desk { IsRoundOf desk.now self.old }
        requires lane { lane < self.old.lanes }
        requires due { is_due (slice_index_or (traces self.old) lane untraced) ≡ true }
        requires grant { grant.lane ≡ lane }
        requires most { posted_in (traces self.old) + grant.octets ≤ most }
        ensures same { IsSameRound self.old self.new }
        ensures posted { traces self.new ≡ slice_set (traces self.old) lane
            (has_posted grant.octets (slice_index_or (traces self.old) lane untraced)) }
        ensures answering { answering self.new ≡ any_due (traces self.new) }
    {
        let shared = desk.shared();
        let lanes = self.lanes;
        rotate_down(&mut self.seat, &self.held, lanes, lanes, lane + 1);
        match shared.exchange(&mut self.seat, lane, LaneSlot::WithGrant(grant)) {
            LaneSlot::Blank => {}
            _ => unreachable!(),
        }
        shared.store::<Post>(&mut self.seat, lane, 4);
        self.held[lane] = false;
        rotate_down(&mut self.seat, &self.held, lanes, lane, 0);
    }
}
