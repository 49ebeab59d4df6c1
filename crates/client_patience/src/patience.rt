//! The limits of time for clients.

ghost use Rattle.std.specs.Prelude.{◌≡◌};
ghost use Rattle.client_patience.specs.Waits.{is_over};

/// Microseconds of a second.
const SECOND: u64 = 1_000_000;

/// Limits of time for the client of a control connection, in seconds. They are words of the command line, and no keys of
/// a configuration.
#[derive(Clone, Copy, Debug, PartialEq, Eq)]
pub struct Patience {
    /// Longest time without a login; 0 for no limit.
    pub login_timeout: u32,
    /// Longest time without a sign of life while no transfer runs; 0 for no limit.
    pub idle_timeout: u32,
    /// Time before the reply to a wrong password.
    pub login_delay: u32,
    /// Longest time that a server which drains has for the transfers that run; 0 for no limit.
    pub drain_timeout: u32,
}

/// Returns whether more than this number of seconds has passed; 0 is no limit.
pub(crate) fn is_over(since: u64, now: u64, seconds: u32) -> bool
    ensures over { result ≡ is_over since now seconds }
{
    seconds != 0 && now.saturating_sub(since) > u64::from(seconds) * SECOND
}

impl Patience {
    /// Returns whether a server that has drained since this moment has waited for as long as it may. Moments are
    /// microseconds of a monotonic clock.
    pub fn has_drained(&self, since: u64, now: u64) -> bool
        ensures over { result ≡ is_over since now self.now.drain_timeout }
    {
        is_over(since, now, self.drain_timeout)
    }
}
