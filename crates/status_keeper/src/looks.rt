//! Transfers as looks find them: the octets granted to them, and guarantees that are not met.

ghost use Rattle.std.specs.Prelude.{◌≡◌, None, IfSome};
ghost use Rattle.std.specs.FinMap as finite;
ghost use Rattle.line_rates.specs.Rates.{floor_rate};
ghost use Rattle.status_keeper.specs.Looks.{held_since, is_missed, looked_at, missed_time};
ghost use Rattle.status_keeper.specs.Made.{way_of};

use crate::facts::{KeptTransfer, StatusFacts};
use crate::making::{floor_rate, way_of};
use round_tally::HeldTally;
use server_house::LaneLook;

// Rounds less earlier ones.
fn held_since(now: HeldTally, then: HeldTally) -> HeldTally
    ensures rounds { result ≡ held_since now then }
{
    HeldTally {
        server: now.server.saturating_sub(then.server),
        direction: now.direction.saturating_sub(then.direction),
        group: now.group.saturating_sub(then.group),
        user: now.user.saturating_sub(then.user),
        session: now.session.saturating_sub(then.session),
        nothing: now.nothing.saturating_sub(then.nothing),
    }
}

// Returns whether a transfer got less than nine tenths of a guarantee in a time, and a limit held it back in most of its
// rounds.
fn is_missed(guaranteed: u64, octets: u64, held: HeldTally, time: u64) -> bool
    ensures missed { result ≡ is_missed guaranteed octets held time }
{
    if time == 0 {
        return false;
    }
    let rate = u128::from(octets) * 1_000_000 / u128::from(time);
    let limits = u128::from(held.server)
        + u128::from(held.direction)
        + u128::from(held.group)
        + u128::from(held.user)
        + u128::from(held.session);
    rate * 10 < u128::from(guaranteed) * 9 && u128::from(held.nothing) < limits
}

// The time since the last look at a transfer, if its guarantee was not met in it; otherwise 0.
fn missed_time(transfer: &KeptTransfer, lane: LaneLook, guaranteed: u64, now: u64) -> u64
    ensures time { result ≡ missed_time transfer.now lane guaranteed now }
{
    let time = now.saturating_sub(transfer.looked);
    let octets = lane.tally.granted.saturating_sub(transfer.granted);
    let held = held_since(lane.tally.all_rounds(), transfer.rounds);
    if is_missed(guaranteed, octets, held, time) {
        time
    } else {
        0
    }
}

// Notes a look at the lane of a transfer.
fn note(transfer: &mut KeptTransfer, lane: LaneLook, guaranteed: u64, now: u64)
    ensures looked { transfer.new ≡ looked_at transfer.old lane guaranteed now }
{
    let missed = missed_time(transfer, lane, guaranteed, now);
    transfer.unmet = transfer.unmet.saturating_add(missed);
    transfer.granted = lane.tally.granted;
    transfer.rounds = lane.tally.all_rounds();
    transfer.looked = now;
}

/// Notes a look at a transfer, if a lane runs it. Returns the time in which its guarantee was not met.
pub(crate) fn note_look(
    facts: &StatusFacts,
    transfer: &mut KeptTransfer,
    lane: Option<LaneLook>,
    now: u64,
) -> u64
    ensures waiting { lane ≡ None → transfer.new ≡ transfer.old }
    ensures looked { IfSome lane (λ lane. transfer.new ≡ looked_at transfer.old lane
        (floor_rate (finite.get facts.now.limits.users transfer.old.number)
        (way_of transfer.old.kind)) now) }
    ensures missed { IfSome lane (λ lane. result ≡ missed_time transfer.old lane
        (floor_rate (finite.get facts.now.limits.users transfer.old.number)
        (way_of transfer.old.kind)) now) }
{
    let Some(lane) = lane else {
        return 0;
    };
    let guaranteed = floor_rate(&facts.limits, transfer.number, way_of(transfer.kind));
    let missed = missed_time(transfer, lane, guaranteed, now);
    note(transfer, lane, guaranteed, now);
    missed
}
