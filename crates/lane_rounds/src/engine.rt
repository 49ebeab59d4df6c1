//! The desk of a server, with its rounds and its seats.

ghost use Rattle.std.specs.Prelude.{◌≡◌, ◌+◌};
ghost use Rattle.paced_rounds.specs.Allowed.{AreAllowed};
ghost use Rattle.paced_rounds.specs.Settled.{rounds_of};

use lent_parts::{LentDesk, LentRounds, LentSeats, MisplacedParts, PartsName};
use paced_rounds::Settlement;
use std::sync::{Mutex, Wait};

/// The desk with a name, its rounds with the book of the name `N`, and its seats, as the threads of a server share them. It
/// cannot be dropped: the desk is settled.
pub struct Engine<B: PartsName, N> {
    pub desk: LentDesk<B, N>,
    /// The rounds of the desk. Whoever needs one tries the lock.
    pub rounds: Mutex<LentRounds<B, N>>,
    /// The seats of the desk: whoever runs a transfer has the lock of one.
    pub seats: LentSeats<B, N>,
}

impl<B: PartsName, N> Engine<B, N> {
    /// Settles the desk, once no thread has any part of it: the octets issued are those moved and those given back. The
    /// settlement has the history of the rounds, whose rates pass the test of the name.
    ///
    /// If a seat is not back in its place, this waits for ever, and reports it to `told`.
    pub fn settle<R: Wait, M: MisplacedParts>(self, rt: &R, told: &mut M) -> Settlement<N>
        ensures sum { result.issued ≡ result.moved + result.back }
        ensures carried { result.carried ≡ B.carried }
        ensures rates { AreAllowed B.rates (rounds_of result) }
    {
        let Engine {
            desk,
            rounds,
            seats,
        } = self;
        seats.settle(rt, told, desk, rounds.into_inner())
    }
}
