//! The time that a client has kept its session waiting.

ghost use Rattle.std.specs.Prelude.{◌≡◌, false, true};
ghost use Rattle.client_patience.specs.Waits.{IsTimeOut};

use crate::patience::{Patience, is_over};

/// A limit of time that a client has passed.
#[derive(Clone, Copy, Debug, PartialEq, Eq)]
pub enum TimeOut {
    /// The connection was without a login for too long.
    Login,
    /// The client gave no sign of life for too long.
    Idle,
}

/// The times since which the client of a session has been waited for, in microseconds of a monotonic clock.
#[derive(Clone, Copy)]
pub struct Waits {
    // since when nobody is logged in; of no meaning if somebody is
    outside: u64,
    is_inside: bool,
    // the last sign of life: octets came, or a transfer ran
    heard: u64,
}

impl Waits {
    /// The waits for a client that has connected now.
    pub fn new(now: u64) -> Waits
        ensures outside { result.outside ≡ now }
        ensures inside { result.is_inside ≡ false }
        ensures heard { result.heard ≡ now }
    {
        Waits {
            outside: now,
            is_inside: false,
            heard: now,
        }
    }

    /// Notes that a user has logged in.
    pub fn log_in(&mut self)
        ensures inside { self.new.is_inside ≡ true }
        ensures heard { self.new.heard ≡ self.old.heard }
    {
        self.is_inside = true;
    }

    /// Notes that the user has left.
    pub fn log_out(&mut self, now: u64)
        ensures outside { self.new.outside ≡ now }
        ensures inside { self.new.is_inside ≡ false }
        ensures heard { self.new.heard ≡ self.old.heard }
    {
        self.outside = now;
        self.is_inside = false;
    }

    /// Notes a sign of life.
    pub fn hear(&mut self, now: u64)
        ensures outside { self.new.outside ≡ self.old.outside }
        ensures inside { self.new.is_inside ≡ self.old.is_inside }
        ensures heard { self.new.heard ≡ now }
    {
        self.heard = now;
    }

    /// The limit that the client has passed, if any: that of the time without a login first.
    pub fn time_out(&self, patience: Patience, now: u64) -> Option<TimeOut>
        ensures out { IsTimeOut self.now patience now result }
    {
        if !self.is_inside && is_over(self.outside, now, patience.login_timeout) {
            return Some(TimeOut::Login);
        }
        if is_over(self.heard, now, patience.idle_timeout) {
            return Some(TimeOut::Idle);
        }
        None
    }
}
