//! The asks collected by a round.

ghost use Rattle.std.specs.Prelude.{◌≡◌, ◌+◌, ◌^◌, ◌<◌, ◌≤◌, [], ◌∷◌, ◌++◌, length, bit_or};

use grant_ledger::MAX_LANES;
use line_rates::{Ask, Way};
use std::marker::Model;

/// The asks collected by a round, with their lanes: at most one for each lane. They are stored in place, so a round
/// collects before it allocates.
#[derive(Drop)]
pub(crate) struct Asks {
    asks: [(u8, Ask); MAX_LANES],
    count: usize,
    answered: u64,
}

impl Model for Asks {
    ghost use Rattle.std.specs.Prelude.{◌≤◌, take};
    ghost use Rattle.lane_desk.specs.Collected.{AsksView};
    ghost use Rattle.grant_ledger.specs.declared.ledger.TheConstants.{MAX_LANES};

    ghost Value = { AsksView };

    ghost view = { λ a. record { asks = take a.count a.asks; answered = a.answered } };

    ghost invariant = { λ a. a.count ≤ MAX_LANES };
}

impl Asks {
    /// An empty list of asks.
    pub fn new() -> Asks
        ensures asks { result ≡ record { asks = []; answered = 0 } }
    {
        let none = Ask {
            user: 0,
            session: 0,
            way: Way::Down,
            want: 0,
        };
        Asks {
            asks: [(0, none); MAX_LANES],
            count: 0,
            answered: 0,
        }
    }

    /// Adds the ask of a lane.
    pub fn push(&mut self, lane: u8, ask: Ask)
        requires room { length self.old.asks < MAX_LANES }
        requires lane { lane < MAX_LANES }
        ensures asks { self.new.asks ≡ self.old.asks ++ (lane, ask) ∷ [] }
        ensures answered { self.new.answered ≡ bit_or self.old.answered (2 ^ lane) }
    {
        self.asks[self.count] = (lane, ask);
        self.count += 1;
        self.answered |= 1u64 << lane;
    }

    /// The asks, in the order in which they were added.
    pub fn as_slice(&self) -> &[(u8, Ask)]
        ensures asks { result.now ≡ self.now.asks }
    {
        &self.asks[..self.count]
    }

    /// The number whose bit i is set if lane i is among them.
    pub fn answered(&self) -> u64
        ensures answered { result ≡ self.now.answered }
    {
        self.answered
    }
}
