//! The octets that a rate allows in a tick.

use crate::expect::holds;
use line_rates::rate_limit;

/// The octets that 25 octets per second allow, tick by tick.
static SHARES: [u64; 12] = [2, 3, 2, 3, 2, 3, 2, 3, 2, 3, 2, 3];

#[test]
fn rates_tick_by_tick(rt: HostRuntime) {
    for (tick, share) in SHARES.iter().enumerate() {
        holds(&rt, rate_limit(25, tick as u64) == Some(*share));
    }
    // A small rate allows nothing in some ticks, and a rate of 0 is no limit.
    holds(&rt, rate_limit(5, 0) == Some(0));
    holds(&rt, rate_limit(5, 1) == Some(1));
    holds(&rt, rate_limit(0, 7).is_none());
}
