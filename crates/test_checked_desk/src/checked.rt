//! A desk with its rounds, its seats and its book, in one thread.

ghost use Rattle.std.specs.Prelude.{◌≡◌, ◌≤◌, []};
ghost use Rattle.lane_desk.specs.AllLanes.{AreSeats};
ghost use Rattle.desk_rule.specs.Lanes.{posted_in};
ghost use Rattle.lane_desk.specs.Seats.{desk_id};
ghost use Rattle.lane_desk.specs.Posted.{AllAnswered};
ghost use Rattle.lane_desk.specs.Traces.{traces, back, IsRoundOf};

use grant_ledger::{Book, BookName, Grant, MAX_ISSUED, SettledNumbers, Tally, settle};
use lane_desk::{
    Desk, DeskFault, LaneSeat, RoundDesk, RoundFault, RoundRecord, SeatState, close_desk, open_desk,
};
use line_rates::{Ask, Limits};
use std::alloc::{Allocator, Global};

/// A desk with its rounds, the seats of its lanes, its book, and one tally for all. Between calls, each ask collected
/// is answered. It must be closed.
pub struct CheckedDesk<N, A: Allocator = Global> {
    desk: Desk<N, A>,
    round: RoundDesk<N>,
    seats: Vec<LaneSeat<N>, A>,
    book: Book<N>,
    tally: Tally<N>,
    ghost own: { AreSeats (desk_id desk) desk.lanes seats.items },
    ghost led: { IsRoundOf desk round × (back round ≡ []) },
    ghost answered: { AllAnswered (traces round) },
    ghost issued: { posted_in (traces round) ≤ book.issued },
}

#[tactic(auto, using(crate::proofs::OwnSeats::fresh_are, crate::proofs::OwnSeats::set_are, crate::proofs::OwnSeats::seat_at))]
impl<N: BookName, A: Allocator + Clone> CheckedDesk<N, A> {
    /// A desk of `lanes` lanes, with a book that has issued `carried` octets.
    pub fn open(alloc: A, lanes: usize, carried: u64) -> Result<CheckedDesk<N, A>, DeskFault>
        requires few { carried ≤ MAX_ISSUED }
    {
        let (book, tally) = Book::open(carried);
        match open_desk(alloc, lanes, &book) {
            Ok((desk, round, seats)) => Ok(CheckedDesk {
                desk,
                round,
                seats,
                book,
                tally,
            }),
            Err(fault) => {
                settle(book, tally).numbers();
                Err(fault)
            }
        }
    }
}

#[tactic(auto, using(crate::proofs::OwnSeats::fresh_are, crate::proofs::OwnSeats::set_are, crate::proofs::OwnSeats::seat_at))]
impl<N, A: Allocator + Clone> CheckedDesk<N, A> {
    /// A worker sits down at a free lane.
    pub fn sit(&mut self, lane: usize) -> bool {
        if lane < self.seats.len() {
            if let SeatState::Free = self.seats[lane].state() {
                self.seats[lane].sit(&self.desk);
                return true;
            }
        }
        false
    }

    /// A worker without a pending ask asks.
    pub fn ask(&mut self, lane: usize, ask: Ask) -> bool {
        if lane < self.seats.len() {
            if let SeatState::Worker = self.seats[lane].state() {
                self.seats[lane].ask(&self.desk, ask);
                return true;
            }
        }
        false
    }

    // The grant of a worker that has asked, if one waits.
    fn grant_at(&mut self, lane: usize) -> Option<Grant<N>> {
        if lane < self.seats.len() {
            if let SeatState::Asked = self.seats[lane].state() {
                return self.seats[lane].try_take(&self.desk);
            }
        }
        None
    }

    /// A worker that has asked takes its grant, moves `moved` octets or all if it has fewer, and gives the rest back.
    /// Returns the octets granted.
    pub fn take(&mut self, lane: usize, moved: u64) -> Option<u64> {
        let grant = self.grant_at(lane)?;
        let octets = grant.octets();
        grant.spend(moved.min(octets), &mut self.tally);
        Some(octets)
    }

    /// A worker without a pending ask leaves.
    pub fn rise(&mut self, lane: usize) -> bool {
        if lane < self.seats.len() {
            if let SeatState::Worker = self.seats[lane].state() {
                self.seats[lane].rise(&self.desk);
                return true;
            }
        }
        false
    }

    /// A round of the desk under these limits, at a moment in milliseconds.
    pub fn round<L: Allocator, B: Allocator + Clone>(
        &mut self,
        alloc: B,
        limits: &Limits<L>,
        moment: u64,
    ) -> Result<RoundRecord<B>, RoundFault> {
        self.round
            .round(alloc, &self.desk, limits, moment, &mut self.book)
    }

    /// Closes the desk, and settles.
    pub fn close(self) -> SettledNumbers {
        let CheckedDesk {
            desk,
            round,
            seats,
            book,
            mut tally,
        } = self;
        close_desk(desk, round, seats, &mut tally);
        settle(book, tally).numbers()
    }

    /// Collects on a lane, and closes the desk without an answer. Returns the ask.
    pub fn collect_and_close(self, lane: usize) -> (Option<Ask>, SettledNumbers) {
        let CheckedDesk {
            desk,
            mut round,
            seats,
            book,
            mut tally,
        } = self;
        round.answers_end();
        let ask = if lane < round.lanes() {
            round.collect(&desk, lane)
        } else {
            None
        };
        close_desk(desk, round, seats, &mut tally);
        (ask, settle(book, tally).numbers())
    }
}
