//! The clock that the moments of rounds are read from.

ghost use Rattle.std.specs.Prelude.{◌≡◌};

use event_word::micros;

/// A moment that was read from a clock, in microseconds. Only [`RoundClock::moment`] makes one.
#[derive(Clone, Copy)]
pub struct Moment {
    pub(crate) micros: u64,
}

impl Moment {
    /// The moment, in microseconds.
    pub fn micros(self) -> u64
        ensures micros { result ≡ self.micros }
    {
        self.micros
    }
}

/// A clock. Nothing is known of what it shows.
pub trait RoundClock {
    /// The time that the clock shows, in microseconds.
    fn now(&self) -> u64;

    /// Reads the clock. Nothing else makes a moment, so a clock has this method as it is.
    fn moment(&self) -> Moment {
        Moment { micros: self.now() }
    }
}

// The machine's clock, which counts from its start.
impl RoundClock for HostRuntime {
    fn now(&self) -> u64 {
        micros(self)
    }
}
