//! A worker's seat: sit, ask, take, rise.

ghost use Rattle.std.specs.Prelude.{◌≡◌, ◌≤◌, [], sum, IfSome, IfNone};
ghost use Rattle.desk_rule.specs.declared.view.SeatState.TheVariants.{Free, Worker, Asked};
ghost use Rattle.desk_rule.specs.Lanes.{KnowsLane, most, sat_down, has_asked, has_taken, has_looked, has_risen};

use crate::desk::Desk;
use atomic_table::Seat;
use desk_rule::{DeskView, LaneSlot, MakeAsk, Rise, SeatState, Sit, Take};
use grant_ledger::Grant;
use line_rates::Ask;
use std::alloc::Allocator;

/// The right to work on one lane of a desk. Contracts see what it knows of the lane as `seat_view`: its state, its
/// sittings, the takes that found nothing, the asks that it made, and the amounts that it took.
#[derive(Drop)]
pub struct LaneSeat<N> {
    seat: Seat<LaneSlot<N>, DeskView>,
    lane: usize,
    state: SeatState,
    ghost knows: { KnowsLane seat.me lane state },
}

impl<N> LaneSeat<N> {
    ghost use Rattle.lane_desk.specs.Seats.{seat_view, IsSeatOf, IsSameSeat};
    ghost use Rattle.desk_rule.specs.declared.view.DeskView.TheVariants.{Lane};
    ghost use Rattle.desk_rule.specs.Lanes.{fresh};

    /// The seat of a lane on which nothing has been done.
    pub fn new(seat: Seat<LaneSlot<N>, DeskView>, lane: usize) -> LaneSeat<N>
        requires fresh { seat.me ≡ (Lane lane fresh, []) }
        ensures seat { (result.seat ≡ seat) × (result.lane ≡ lane) }
    {
        LaneSeat {
            seat,
            lane,
            state: SeatState::Free,
        }
    }

    /// The seat on the table.
    pub fn into_seat(self) -> Seat<LaneSlot<N>, DeskView>
        ensures seat { result ≡ self.seat }
    {
        let LaneSeat {
            seat,
            lane: _,
            state: _,
        } = self;
        seat
    }

    /// The number of its lane.
    pub fn lane(&self) -> usize
        ensures lane { result ≡ self.now.lane }
    {
        self.lane
    }

    /// Its state: free, a worker's, or asked, which lasts from `ask` until a grant is taken.
    pub fn state(&self) -> SeatState
        ensures state { result ≡ (seat_view self.now).state }
    {
        self.state
    }

    /// A worker sits down.
    pub fn sit<A: Allocator>(&mut self, desk: &Desk<N, A>)
        requires desk { IsSeatOf desk.now self.old }
        requires state { (seat_view self.old).state ≡ Free }
        ensures same { IsSameSeat self.old self.new }
        ensures view { seat_view self.new ≡ sat_down (seat_view self.old) }
    {
        desk.shared().store::<Sit>(&mut self.seat, self.lane, 1);
        self.state = SeatState::Worker;
    }

    /// The worker asks a round for octets.
    pub fn ask<A: Allocator>(&mut self, desk: &Desk<N, A>, ask: Ask)
        requires desk { IsSeatOf desk.now self.old }
        requires state { (seat_view self.old).state ≡ Worker }
        ensures same { IsSameSeat self.old self.new }
        ensures view { seat_view self.new ≡ has_asked ask (seat_view self.old) }
    {
        let shared = desk.shared();
        match shared.exchange(&mut self.seat, self.lane, LaneSlot::WithAsk(ask)) {
            LaneSlot::Blank => {}
            _ => unreachable!(),
        }
        shared.store::<MakeAsk>(&mut self.seat, self.lane, 2);
        self.state = SeatState::Asked;
    }

    /// Takes the grant that answers the ask; `None` if none was posted at that moment. All amounts that a seat ever
    /// takes add up to at most 2^62 octets.
    pub fn try_take<A: Allocator>(&mut self, desk: &Desk<N, A>) -> Option<Grant<N>>
        requires desk { IsSeatOf desk.now self.old }
        requires state { (seat_view self.old).state ≡ Asked }
        ensures same { IsSameSeat self.old self.new }
        ensures some { IfSome result (λ g. seat_view self.new
            ≡ has_taken g.octets (seat_view self.old)) }
        ensures lane { IfSome result (λ g. g.lane ≡ self.old.lane) }
        ensures within { IfSome result (λ g. sum (seat_view self.new).taken ≤ most) }
        ensures none { IfNone result (seat_view self.new ≡ has_looked (seat_view self.old)) }
    {
        let shared = desk.shared();
        if shared.compare_exchange::<Take>(&mut self.seat, self.lane, 4, 1) != 4 {
            return None;
        }
        self.state = SeatState::Worker;
        match shared.exchange(&mut self.seat, self.lane, LaneSlot::Blank) {
            LaneSlot::WithGrant(grant) => Some(grant),
            _ => unreachable!(),
        }
    }

    /// The worker leaves the lane.
    pub fn rise<A: Allocator>(&mut self, desk: &Desk<N, A>)
        requires desk { IsSeatOf desk.now self.old }
        requires state { (seat_view self.old).state ≡ Worker }
        ensures same { IsSameSeat self.old self.new }
        ensures view { seat_view self.new ≡ has_risen (seat_view self.old) }
    {
        desk.shared().store::<Rise>(&mut self.seat, self.lane, 0);
        self.state = SeatState::Free;
    }
}
