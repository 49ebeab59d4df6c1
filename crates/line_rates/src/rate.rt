//! Rates, and the octets that they allow in a tick.

ghost use Rattle.std.specs.Prelude.{◌≡◌, ◌≤◌};
ghost use Rattle.line_rates.specs.Ticks.{rate_limit as limit_of};

/// The largest rate, in octets per second.
pub const MAX_RATE: u64 = 1_099_511_627_776;

/// The limit of a rate in a tick of 100 ms: whole octets, divided so that the ten ticks of a second add up to the rate.
/// A rate of 0 is no limit.
pub fn rate_limit(rate: u64, tick: u64) -> Option<u64>
    requires rate { rate ≤ MAX_RATE }
    ensures limit { result ≡ limit_of rate tick }
{
    if rate == 0 {
        return None;
    }
    let tenth = tick % 10;
    Some((tenth + 1) * rate / 10 - tenth * rate / 10)
}
