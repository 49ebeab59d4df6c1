//! The thread of rounds.

use crate::engine::Engine;
use crate::rounds::try_one;
use lent_parts::{PartsName, RoundClock};
use server_house::{House, ShutdownStage};
use std::alloc::Global;
use std::sync::Wait;
use std::time::{Clock, Duration};
use virtual_tree::Store;

/// The longest wait for a signal before it checks by itself, in milliseconds. A lane that waits for a later round looks
/// again by itself.
const BACKSTOP: u64 = 200;

/// Holds rounds when no lane does, until the lanes are to end.
pub fn keep_rounds<R, S, H, B, N>(rt: &R, house: &House<S, H, B>, engine: &Engine<B, N>)
where
    R: Wait + Clock + RoundClock + AllocGlobal,
    S: Store<Global>,
    H: Drop,
    B: PartsName,
{
    for _ in rt.forever() {
        let seen = house.waker.seen();
        if house.ending.has_begun(ShutdownStage::Lanes) {
            return;
        }
        let now = rt.moment();
        let _ = try_one(rt.alloc(), house, engine, None, now);
        house
            .waker
            .wait(rt, seen, 0, Duration::from_millis(BACKSTOP));
    }
    unreachable!()
}
