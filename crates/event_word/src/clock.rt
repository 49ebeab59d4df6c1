//! Moments of a monotonic clock.

ghost use Rattle.std.specs.Prelude.{◌≡◌, ◌↔◌, ◌+◌, ◌-◌, ◌/◌, ◌^◌, ◌<◌, IfOk, IsTrue, OnErr, min};
ghost use Rattle.std.specs.Duration.{as_nanos};

use std::io;
use std::time::{Clock, Duration};

// The microseconds of a reading, at most `u64::MAX`; 0 if there is none.
fn micros_of(reading: io::Result<Duration>) -> u64
    ensures read { IfOk reading (λ time. result ≡ min (as_nanos time / 1_000) (2 ^ 64 - 1)) }
    ensures unread { OnErr reading (result ≡ 0) }
{
    match reading {
        Ok(time) => time
            .as_secs()
            .saturating_mul(1_000_000)
            .saturating_add(u64::from(time.subsec_micros())),
        Err(_) => 0,
    }
}

/// Microseconds of a monotonic clock; 0 if it cannot be read.
pub fn micros<R: Clock>(rt: &R) -> u64 {
    micros_of(rt.monotonic())
}

/// Returns whether more than this time has passed from a moment until now.
pub fn has_passed(since: u64, now: u64, time: u64) -> bool
    ensures passed { IsTrue result ↔ (since + time < now) }
{
    now.saturating_sub(since) > time
}
