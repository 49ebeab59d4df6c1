//! Waits of rounds for transfers with a guarantee.
//!
//! Rows that a round drained open for all at once, and whoever asks first holds the next round. A transfer with a guarantee
//! that was in the last round and has not asked again is waited for a few ticks, once: with it, that round is handed what
//! its session is owed. One that comes later is not waited for again until it has been in a round.

ghost use Rattle.std.specs.Prelude.{◌≡◌};
ghost use Rattle.lane_rounds.specs.Awaits.{awaiting, due_beside, is_held_back, nobody};
ghost use Rattle.paced_rounds.specs.Beating.{due_open, opens_in};
ghost use Rattle.round_pace.specs.Earned.{tick_of};

use lent_parts::{LentRounds, PartsName};
use line_rates::Way;
use round_pace::{Due, TICK_MICROS};
use server_house::House;
use std::alloc::Global;
use virtual_tree::Store;

/// The ticks that a round waits, once the rows are open: 16 ms. The longest interval and these are 40 ticks, and a rate
/// keeps what it earns in 50.
const GRACE: u64 = 8;

/// The last ticks in which rows open of transfers that rounds wait for, of each direction; 0 is none.
#[derive(Clone, Copy, Debug, PartialEq, Eq)]
pub(crate) struct Awaited {
    down: u64,
    up: u64,
}

impl Awaited {
    // Nobody is waited for.
    fn nobody() -> Awaited
        ensures nobody { result ≡ nobody }
    {
        Awaited { down: 0, up: 0 }
    }

    // A transfer whose rows open in a tick is waited for too.
    fn with(self, way: Way, opens: u64) -> Awaited
        ensures more { result ≡ awaiting way opens self }
    {
        match way {
            Way::Down => Awaited {
                down: self.down.max(opens),
                up: self.up,
            },
            Way::Up => Awaited {
                down: self.down,
                up: self.up.max(opens),
            },
        }
    }

    // Returns whether transfers whose rows open in a tick are to wait in another: with them opens one that is waited for.
    fn holds_back(self, opens: u64, tick: u64) -> bool
        ensures back { result ≡ is_held_back opens tick self }
    {
        opens != 0 && (opens == self.down || opens == self.up) && tick < opens.saturating_add(GRACE)
    }

    // The earliest moment of a round for transfers whose rows open in a tick, if it is due then without those that are waited
    // for.
    fn due_beside(self, opens: u64, tick: u64, due: Due) -> Due
        ensures due { result ≡ due_beside opens tick due self }
    {
        if self.holds_back(opens, tick) {
            return Due::At(opens.saturating_add(GRACE).saturating_mul(TICK_MICROS));
        }
        due
    }
}

/// The transfers that rounds wait for. The signs of lanes are hints: a round is held later, or without such a transfer.
pub(crate) fn find_awaited<S: Store<Global>, H: Drop, B: PartsName, N>(
    house: &House<S, H, B>,
    rounds: &LentRounds<B, N>,
) -> Awaited {
    let mut found = Awaited::nobody();
    for lane in &house.lanes {
        if lane.is_awaited() {
            if let Some(session) = lane.session() {
                let (way, user) = lane.name.get();
                let (opens, has_floor) = rounds.opening(way, user);
                if has_floor && !house.is_stopping(session) {
                    found = found.with(way, opens);
                }
            }
        }
    }
    found
}

/// Returns whether a transfer of a user is to wait at a moment, in microseconds, for those that rounds wait for.
pub(crate) fn is_to_wait<B: PartsName, N>(
    rounds: &LentRounds<B, N>,
    awaited: Awaited,
    way: Way,
    user: u32,
    now: u64,
) -> bool
    ensures wait { result ≡ is_held_back
        (opens_in way user rounds.now.rounds.pace rounds.now.rounds.cadence)
        (tick_of now) awaited }
{
    if awaited == Awaited::nobody() {
        return false;
    }
    let (opens, _) = rounds.opening(way, user);
    awaited.holds_back(opens, now / TICK_MICROS)
}

/// The earliest moment of the next round for a transfer of a user.
pub(crate) fn due_for<B: PartsName, N>(
    rounds: &LentRounds<B, N>,
    awaited: Awaited,
    way: Way,
    user: u32,
    now: u64,
) -> Due
    ensures due { result ≡ due_beside
        (opens_in way user rounds.now.rounds.pace rounds.now.rounds.cadence) (tick_of now)
        (due_open way user rounds.now.rounds.pace rounds.now.rounds.cadence now) awaited }
{
    let due = rounds.due_for(way, user, now);
    if awaited == Awaited::nobody() {
        return due;
    }
    let (opens, _) = rounds.opening(way, user);
    awaited.due_beside(opens, now / TICK_MICROS, due)
}
