//! Intervals of rows, and the ticks in which a closed row opens.

ghost use Rattle.std.specs.Prelude.{◌≡◌, ◌-◌, ◌^◌, ◌<◌, ◌≤◌, min};
ghost use Rattle.round_cadence.specs.Intervals.{earns, interval_of, IsInterval, next_opening, IsNextOpening};

use round_pace::TICKS;

/// Octets of a download that are worth sending, for each sharer of a row: some whole segments.
pub const WORTH: u64 = 4_096;

/// Octets of an upload that are worth reading. Segments are the client's choice. A read may find less than was granted,
/// and the rest is lost to the rate, so small grants lose less.
pub const WORTH_UP: u64 = 256;

/// The most octets that a round is to have for a part of a row, if several transfers share the part: those that one
/// transfer asks for at most.
pub const MOST_WORTH: u64 = 65_536;

/// Half of the octets that a transfer asks for at most: what the next interval of a row is to give to the largest grant of
/// its last round. An interval is a power of two of ticks and earns up to twice as much, for which that transfer still asks.
pub const HALF_ASK: u64 = 32_768;

/// The longest interval, in ticks of 2 ms.
pub const LONGEST: u64 = 32;

/// The last tick but ten of a second, from 0. Each row opens in it, and in the last: if the last has no round, what is
/// lost with the second is that of ten ticks, and not of an interval.
pub const LAST_BUT_TEN: u64 = 489;

// Returns whether a rate earns these octets in this number of ticks.
fn earns(rate: u64, octets: u64, ticks: u64) -> bool
    ensures earns { result ≡ earns rate octets ticks }
{
    u128::from(octets) * u128::from(TICKS) <= u128::from(rate) * u128::from(ticks)
}

/// The least power of two of ticks in which `rate` octets per second earn these octets, and at most [`LONGEST`].
pub fn interval(rate: u64, octets: u64) -> u64
    ensures interval { result ≡ interval_of rate octets }
    ensures least { IsInterval rate octets result }
{
    for ticks in [1, 2, 4, 8, 16] {
        if earns(rate, octets, ticks) {
            return ticks;
        }
    }
    LONGEST
}

/// The first tick after `tick` in which a row of this interval opens: one that ends a multiple of the interval since
/// its second began, or the last of its second, or the last but ten. At most `u64::MAX`.
pub fn next_opening(tick: u64, interval: u64) -> u64
    requires some { 0 < interval }
    ensures next { result ≡ min (next_opening tick interval) (2 ^ 64 - 1) }
    ensures first { IsNextOpening tick interval (next_opening tick interval) }
{
    let place = (tick % TICKS + 1) % TICKS;
    let end = if place <= LAST_BUT_TEN {
        LAST_BUT_TEN
    } else {
        TICKS - 1
    };
    let wait = (interval - 1 - place % interval).min(end - place);
    tick.saturating_add(1).saturating_add(wait)
}
