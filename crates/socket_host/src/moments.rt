//! The time of day.

ghost use Rattle.std.specs.Prelude.{◌≡◌, ◌-◌, ◌/◌, ◌^◌, IfOk, OnErr, min};
ghost use Rattle.std.specs.Duration.{as_nanos};

use std::io;
use std::time::{Clock, Duration};

// The milliseconds of a reading, at most `u64::MAX`; 0 if there is none.
fn millis_of(reading: io::Result<Duration>) -> u64
    ensures read { IfOk reading (λ time. result ≡ min (as_nanos time / 1_000_000) (2 ^ 64 - 1)) }
    ensures unread { OnErr reading (result ≡ 0) }
{
    match reading {
        Ok(time) => time
            .as_secs()
            .saturating_mul(1_000)
            .saturating_add(u64::from(time.subsec_millis())),
        Err(_) => 0,
    }
}

/// Milliseconds since 1970; 0 if the clock cannot be read.
pub(crate) fn millis_since_1970<R: Clock>(rt: &R) -> u64 {
    millis_of(rt.since_1970())
}
