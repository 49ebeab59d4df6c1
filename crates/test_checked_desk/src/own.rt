//! A lane's seat with its tally, for a worker of a test.

ghost use Rattle.std.specs.Prelude.{◌≡◌, ◌+◌, sum};
ghost use Rattle.desk_rule.specs.Lanes.{fresh};
ghost use Rattle.lane_desk.specs.Seats.{seat_view};

use grant_ledger::Tally;
use lane_desk::{Desk, LaneSeat, SeatState, Worked};
use line_rates::Ask;
use std::alloc::Allocator;

/// A lane's seat, with the tally of everything that it took.
pub struct OwnSeat<N> {
    seat: LaneSeat<N>,
    tally: Tally<N>,
    ghost reported: { tally.moved + tally.back ≡ sum (seat_view seat).taken },
}

impl<N> OwnSeat<N> {
    ghost use Rattle.lane_desk.specs.Seats.{IsSeatOf, IsSameSeat};

    /// A seat on which nothing has been done, with a tally of its own.
    pub fn new(seat: LaneSeat<N>, tally: &mut Tally<N>) -> OwnSeat<N>
        requires fresh { seat_view seat ≡ fresh }
        ensures seat { result.seat ≡ seat }
        ensures tally { tally.new ≡ tally.old }
    {
        OwnSeat {
            seat,
            tally: tally.split(),
        }
    }

    /// A worker sits down, if the lane is free.
    pub fn sit<A: Allocator>(&mut self, desk: &Desk<N, A>) -> bool
        requires desk { IsSeatOf desk.now self.old.seat }
        ensures same { IsSameSeat self.old.seat self.new.seat }
    {
        match self.seat.state() {
            SeatState::Free => {
                self.seat.sit(desk);
                true
            }
            _ => false,
        }
    }

    /// The worker asks, if it has no pending ask.
    pub fn ask<A: Allocator>(&mut self, desk: &Desk<N, A>, ask: Ask) -> bool
        requires desk { IsSeatOf desk.now self.old.seat }
        ensures same { IsSameSeat self.old.seat self.new.seat }
    {
        match self.seat.state() {
            SeatState::Worker => {
                self.seat.ask(desk, ask);
                true
            }
            _ => false,
        }
    }

    /// The worker takes a grant that waits, moves `moved` octets or all if it has fewer, and gives the rest back.
    /// Returns the octets granted.
    pub fn take<A: Allocator>(&mut self, desk: &Desk<N, A>, moved: u64) -> Option<u64>
        requires desk { IsSeatOf desk.now self.old.seat }
        ensures same { IsSameSeat self.old.seat self.new.seat }
    {
        match self.seat.state() {
            SeatState::Asked => {
                let grant = self.seat.try_take(desk)?;
                let octets = grant.octets();
                grant.spend(moved.min(octets), &mut self.tally);
                Some(octets)
            }
            _ => None,
        }
    }

    /// The worker leaves, if it has no pending ask.
    pub fn rise<A: Allocator>(&mut self, desk: &Desk<N, A>) -> bool
        requires desk { IsSeatOf desk.now self.old.seat }
        ensures same { IsSameSeat self.old.seat self.new.seat }
    {
        match self.seat.state() {
            SeatState::Worker => {
                self.seat.rise(desk);
                true
            }
            _ => false,
        }
    }

    /// The seat and its tally, to be settled.
    pub fn into_worked(self) -> Worked<N>
        ensures parts { (result.seat ≡ self.seat) × (result.tally ≡ self.tally) }
    {
        let OwnSeat { seat, tally } = self;
        Worked::new(seat, tally)
    }
}
