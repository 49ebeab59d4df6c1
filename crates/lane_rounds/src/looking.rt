//! A look at what rounds have granted.

use crate::engine::Engine;
use grant_ledger::MAX_LANES;
use lent_parts::{PartsName, RoundLook};
use server_house::{House, LaneSign};
use std::alloc::Global;
use std::sync::Wait;
use std::thread;
use std::time::{Clock, Duration};
use virtual_tree::Store;

/// Most tries of one look.
const TRIES: usize = 50;

/// The time between two tries, in microseconds.
const PAUSE: u64 = 500;

// The number of the transfer that each lane runs; 0 for none.
fn running_on(lanes: &[LaneSign]) -> [u64; MAX_LANES] {
    let mut running = [0; MAX_LANES];
    for lane in 0..lanes.len().min(MAX_LANES) {
        let sign = &lanes[lane];
        if sign.session().is_some() {
            running[lane] = sign.transfer();
        }
    }
    running
}

/// Looks at the rounds, if nobody holds one at one of several tries. The lock of the rounds is only tried, here too: who
/// could not get it meanwhile relies on the waker, which is raised.
pub fn look<R, S, H, B, N>(
    rt: &R,
    house: &House<S, H, B>,
    engine: &Engine<B, N>,
) -> Option<RoundLook>
where
    R: Wait + Clock,
    S: Store<Global>,
    H: Drop,
    B: PartsName,
{
    for _ in 0..TRIES {
        let running = running_on(&house.lanes);
        if let Some(guard) = engine.rounds.try_lock() {
            let look = guard.look(&running);
            drop(guard);
            house.waker.signal();
            return Some(look);
        }
        thread::sleep(rt, Duration::from_micros(PAUSE));
    }
    None
}
