//! The octets that each lane has had in a second, by which remainders go by turns.

ghost use Rattle.std.specs.Prelude.{◌≡◌, length, IfOk};
ghost use Rattle.paced_rounds.specs.Turning.{starts, second_of, had_at, had_more, had_all, had_after};

use grant_ledger::MAX_LANES;
use lane_desk::{RoundFault, RoundRecord};
use std::alloc::Allocator;

/// A second, in microseconds.
pub(crate) const SECOND: u64 = 1_000_000;

/// The numbers as an even second begins, in 64ths of an octet: of several lanes the lowest comes first.
pub(crate) const RISING: [u64; MAX_LANES] = [
    0, 1, 2, 3, 4, 5, 6, 7, 8, 9, 10, 11, 12, 13, 14, 15, 16, 17, 18, 19, 20, 21, 22, 23, 24, 25,
    26, 27, 28, 29, 30, 31, 32, 33, 34, 35, 36, 37, 38, 39, 40, 41, 42, 43, 44, 45, 46, 47, 48, 49,
    50, 51, 52, 53, 54, 55, 56, 57, 58, 59, 60, 61, 62, 63,
];

/// The numbers as an odd second begins: of several lanes the highest comes first.
pub(crate) const FALLING: [u64; MAX_LANES] = [
    63, 62, 61, 60, 59, 58, 57, 56, 55, 54, 53, 52, 51, 50, 49, 48, 47, 46, 45, 44, 43, 42, 41, 40,
    39, 38, 37, 36, 35, 34, 33, 32, 31, 30, 29, 28, 27, 26, 25, 24, 23, 22, 21, 20, 19, 18, 17, 16,
    15, 14, 13, 12, 11, 10, 9, 8, 7, 6, 5, 4, 3, 2, 1, 0,
];

// The numbers as a second begins.
fn starts(second: u64) -> [u64; MAX_LANES]
    ensures starts { result ≡ starts second }
{
    if second % 2 == 0 { RISING } else { FALLING }
}

/// The numbers as a round begins at a moment in microseconds, if the last was at `latest`.
pub(crate) fn had_at(now: u64, latest: u64, had: [u64; MAX_LANES]) -> [u64; MAX_LANES]
    ensures had { result ≡ had_at now latest had }
{
    if latest / SECOND == now / SECOND {
        had
    } else {
        starts(now / SECOND)
    }
}

// Adds a grant to the number of a lane.
fn add(had: &mut [u64; MAX_LANES], lane: u8, octets: u64)
    ensures had { had.new ≡ had_more lane octets had.old }
{
    let place = lane as usize;
    if place < had.len() {
        had[place] = had[place].saturating_add(octets.saturating_mul(64));
    }
}

// Adds each grant to the number of its lane.
fn add_all(had: &mut [u64; MAX_LANES], lanes: &[u8], grants: &[u64])
    requires each { length lanes.now ≡ length grants.now }
    ensures had { had.new ≡ had_all lanes.now grants.now had.old }
{
    for i in 0..lanes.len() {
        add(had, lanes[i], grants[i]);
    }
}

/// Adds each grant of a round to the number of its lane. A refused round adds none.
pub(crate) fn have<A: Allocator>(
    had: &mut [u64; MAX_LANES],
    round: &Result<RoundRecord<A>, RoundFault>,
)
    requires each { IfOk round.now (λ r. length r.lanes.items ≡ length r.sealed.grants) }
    ensures had { had.new ≡ had_after round.now had.old }
{
    match round {
        Ok(made) => add_all(had, &made.lanes, made.sealed.grants()),
        Err(_) => {}
    }
}
