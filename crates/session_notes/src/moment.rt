//! The moment of a note.

ghost use Rattle.std.specs.Prelude.{◌≡◌, ◌/◌, IfOk, OnErr, pos};
ghost use Rattle.std.specs.Duration.{as_nanos};
ghost use Rattle.jiff.specs.Words.{IsTimestampNanos};
ghost use Rattle.session_notes.specs.Moments.{nanos_of_second};

use jiff::Timestamp;
use std::io;
use std::time::Duration;

/// The whole seconds of a reading of the clock, which counts from the beginning of 1970; 0 if it cannot be read.
pub(crate) fn seconds_of(reading: io::Result<Duration>) -> u64
    ensures read { IfOk reading (λ time. result ≡ as_nanos time / 1_000_000_000) }
    ensures unread { OnErr reading (result ≡ 0) }
{
    match reading {
        Ok(time) => time.as_secs(),
        Err(_) => 0,
    }
}

/// The second of a reading of the clock, which counts from the beginning of 1970; that beginning if the clock cannot be
/// read, or if the second is past the last of the calendar.
pub(crate) fn second_of(reading: io::Result<Duration>) -> Timestamp
    ensures read { IfOk reading (λ time. IsTimestampNanos (nanos_of_second time) →
        result.nanosecond ≡ nanos_of_second time) }
    ensures late { IfOk reading (λ time. ¬ IsTimestampNanos (nanos_of_second time) →
        result.nanosecond ≡ pos 0) }
    ensures unread { OnErr reading (result.nanosecond ≡ pos 0) }
{
    match i64::try_from(seconds_of(reading)) {
        Ok(seconds) => match Timestamp::from_second(seconds) {
            Ok(time) => time,
            Err(_) => Timestamp::UNIX_EPOCH,
        },
        Err(_) => Timestamp::UNIX_EPOCH,
    }
}
