//! A lane's seat with its tally.

ghost use Rattle.std.specs.Prelude.{◌≡◌, ◌+◌, sum};
ghost use Rattle.lane_desk.specs.Seats.{seat_view};

use crate::seat::LaneSeat;
use grant_ledger::Tally;

/// A lane's seat, with the tally of everything that it took: the octets moved and given back add up to that. It cannot
/// be dropped.
pub struct Worked<N> {
    seat: LaneSeat<N>,
    tally: Tally<N>,
    ghost reported: { tally.moved + tally.back ≡ sum (seat_view seat).taken },
}

impl<N> Worked<N> {
    /// A seat with a tally of everything that it took.
    pub fn new(seat: LaneSeat<N>, tally: Tally<N>) -> Worked<N>
        requires reported { tally.moved + tally.back ≡ sum (seat_view seat).taken }
        ensures parts { (result.seat ≡ seat) × (result.tally ≡ tally) }
    {
        Worked { seat, tally }
    }

    /// The seat and the tally.
    pub fn parts(self) -> (LaneSeat<N>, Tally<N>)
        ensures parts { (result.0 ≡ self.seat) × (result.1 ≡ self.tally) }
        ensures reported { result.1.moved + result.1.back ≡ sum (seat_view result.0).taken }
    {
        let Worked { seat, tally } = self;
        (seat, tally)
    }
}
