//! Credits: what a rate has earned and no round has granted.

ghost use Rattle.std.specs.Prelude.{◌≡◌, ◌≤◌, ◌*◌};
ghost use Rattle.round_pace.specs.Credits.{IsCredit, refill_row, take_row, is_dry};
ghost use Rattle.round_pace.specs.Earned.{share, begun_in, refilled, most_kept, as_rate};
ghost use Rattle.round_pace.specs.Changed.{changed_credit};
ghost use Rattle.round_pace.specs.FloorsFit.{parts_left, owed_in, owed_after, floor_in};
ghost use Rattle.round_pace.specs.declared.credit.TheConstants.{MOST_OWED, MOST_PARTS};
ghost use Rattle.round_pace.specs.Quiet.{is_full};

use line_rates::MAX_RATE;

/// Length of a real tick, in microseconds.
pub const TICK_MICROS: u64 = 2_000;

/// Number of real ticks in a second.
pub const TICKS: u64 = 500;

/// The most ticks of a guarantee that are owed: those of a tenth of a second, which is what a rate keeps.
pub const MOST_OWED: u64 = 50;

/// Number of parts of a tick, in which it is counted how much of a rate's earnings is left.
pub const PARTS: u64 = 1_000;

/// The parts of [`MOST_OWED`] ticks.
pub const MOST_PARTS: u64 = 50_000;

/// The most that a round can be offered under a rate, in octets.
pub const MOST_OFFERED: u64 = 109_951_162_777;

/// A rate in octets per second, with what it has earned and no round has granted.
#[derive(Clone, Copy, Debug, PartialEq, Eq)]
pub struct Credit {
    /// The rate; 0 is no limit.
    pub rate: u64,
    /// Octets left.
    pub left: u64,
}

/// Earnings of a rate after `ticks` ticks of a second have begun, in whole octets.
pub(crate) fn share(rate: u64, ticks: u64) -> u64
    requires rate { rate ≤ MAX_RATE }
    requires ticks { ticks ≤ TICKS }
    ensures share { result ≡ share rate ticks }
{
    ticks * rate / TICKS
}

/// The most that a rate keeps: a tenth of it and one octet, and at most `MOST_OFFERED`.
pub(crate) fn most_kept(rate: u64) -> u64
    requires rate { rate ≤ MAX_RATE }
    ensures most { result ≡ most_kept rate }
{
    (rate / 10 + 1).min(MOST_OFFERED)
}

/// Number of ticks begun in the second of `tick`, if `begun` had begun in all.
pub(crate) fn begun_in(begun: u64, tick: u64) -> u64
    ensures begun { result ≡ begun_in begun tick }
{
    begun.saturating_sub(tick / TICKS * TICKS)
}

/// Octets left under a rate as a tick begins, if `begun` ticks had begun before.
pub(crate) fn refilled(credit: Credit, begun: u64, tick: u64) -> u64
    requires rate { credit.rate ≤ MAX_RATE }
    requires later { begun ≤ tick }
    ensures left { result ≡ refilled credit.rate credit.left begun tick }
{
    let before = begun_in(begun, tick);
    let carried = if before == 0 { 0 } else { credit.left };
    if credit.rate == 0 {
        return carried.min(1);
    }
    let earned = share(credit.rate, tick % TICKS + 1) - share(credit.rate, before);
    carried.saturating_add(earned).min(most_kept(credit.rate))
}

/// The rate that allows exactly what is left in a tick that is a multiple of ten; 0, which is no limit, for a rate of
/// 0.
pub(crate) fn as_rate(credit: Credit) -> u64
    requires left { credit.left ≤ MOST_OFFERED }
    ensures rate { result ≡ as_rate credit.rate credit.left }
    ensures most { result ≤ MAX_RATE }
{
    if credit.rate == 0 {
        return 0;
    }
    10 * credit.left + 1
}

/// Number of parts of ticks whose earnings a rate has left, and at most [`MOST_PARTS`], which is that of no limit. In whole
/// ticks a guarantee would lose in each round what is left of a tick.
pub(crate) fn parts_left(credit: Credit) -> u64
    requires credit { IsCredit credit }
    ensures parts { result ≡ parts_left credit }
    ensures most { result ≤ MOST_PARTS }
{
    if credit.rate == 0 {
        return MOST_PARTS;
    }
    ((credit.left * (TICKS * PARTS) + (TICKS * PARTS - 1)) / credit.rate).min(MOST_PARTS)
}

/// The debt of a guarantee as a tick begins, in 500ths of an octet, if `begun` ticks had begun before.
pub(crate) fn owed_in(floor: u64, owed: u64, begun: u64, tick: u64) -> u64
    requires rate { floor ≤ MAX_RATE }
    requires later { begun ≤ tick }
    ensures owed { result ≡ owed_in floor owed begun tick }
    ensures most { result ≤ floor * MOST_OWED }
{
    let before = begun_in(begun, tick);
    let carried = if before == 0 { 0 } else { owed };
    let earned = floor * (tick % TICKS + 1 - before);
    carried.saturating_add(earned).min(floor * MOST_OWED)
}

/// The debt of a guarantee after octets were granted, in 500ths of an octet.
pub(crate) fn owed_after(octets: u64, owed: u64) -> u64
    ensures owed { result ≡ owed_after octets owed }
    ensures most { result ≤ owed }
{
    owed.saturating_sub(octets.saturating_mul(TICKS))
}

/// The octets of a guarantee in a round, of which this is owed, if the rates have this number of parts of ticks left.
pub(crate) fn floor_in(floor: u64, owed: u64, parts: u64) -> u64
    requires rate { floor ≤ MAX_RATE }
    requires parts { parts ≤ MOST_PARTS }
    ensures floor { result ≡ floor_in floor owed parts }
    ensures most { 10 * result ≤ floor }
{
    owed.min(floor * parts / PARTS) / TICKS
}

/// A credit as a tick begins, if `begun` ticks had begun before.
pub(crate) fn refill_row(credit: Credit, begun: u64, tick: u64) -> Credit
    requires credit { IsCredit credit }
    requires later { begun ≤ tick }
    ensures row { result ≡ refill_row begun tick credit }
    ensures fits { IsCredit result }
{
    Credit {
        rate: credit.rate,
        left: refilled(credit, begun, tick),
    }
}

/// A credit less granted octets.
pub(crate) fn take_row(credit: Credit, octets: u64) -> Credit
    requires credit { IsCredit credit }
    ensures row { result ≡ take_row octets credit }
    ensures fits { IsCredit result }
{
    Credit {
        rate: credit.rate,
        left: credit.left.saturating_sub(octets),
    }
}

/// The credit of a new rate: what is left of another, cut to the most that the new rate keeps.
pub(crate) fn changed_credit(rate: u64, credit: Credit) -> Credit
    requires rate { rate ≤ MAX_RATE }
    ensures credit { result ≡ changed_credit rate credit }
    ensures fits { IsCredit result }
{
    Credit {
        rate,
        left: credit.left.min(most_kept(rate)),
    }
}

/// Returns whether a rate has nothing left.
pub(crate) fn is_dry(credit: Credit) -> bool
    ensures dry { result ≡ is_dry credit }
{
    credit.rate != 0 && credit.left == 0
}

/// Returns whether no refill in the same second changes a credit: all that is kept is left, or there is no rate.
pub(crate) fn is_full(credit: Credit) -> bool
    requires credit { IsCredit credit }
    ensures full { result ≡ is_full credit }
{
    credit.rate == 0 || credit.left == most_kept(credit.rate)
}
