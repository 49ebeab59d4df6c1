//! A count that one thread waits on.

use crate::clock::{has_passed, micros};
use crate::half::low_half;
use std::sync::Wait;
use std::sync::atomic::{AtomicU64, Ordering};
use std::thread;
use std::time::{Clock, Duration};

/// A count of events, for one waiter at a time.
#[derive(Drop)]
pub struct EventCount {
    word: AtomicU64,
    // 1 while the waiter sleeps or is about to
    parked: AtomicU64,
    // keeps two counts in different lines of the processor's cache
    room: [u64; 14],
}

impl EventCount {
    /// A count without events.
    pub fn new() -> EventCount {
        EventCount {
            word: AtomicU64::new(0),
            parked: AtomicU64::new(0),
            room: [0; 14],
        }
    }

    /// The count. Read it before checking for the event.
    pub fn seen(&self) -> u64 {
        self.word.load(Ordering::SeqCst)
    }

    /// Increases the count, and wakes nobody: for a waiter that polls or is woken otherwise.
    pub fn raise(&self) {
        self.word.fetch_add(1, Ordering::SeqCst);
    }

    /// Increases the count and wakes the waiter.
    ///
    /// The waiter announces that it sleeps and then compares the count; this increases the count and then checks
    /// whether the waiter sleeps. So one of the two sees the other. Only the waiter takes its announcement back:
    /// otherwise that of its next wait could be taken back by a signal of the wait before, and the signal after that
    /// would wake nobody (`tools/wake-model`).
    pub fn signal(&self) {
        self.raise();
        if self.parked.load(Ordering::SeqCst) != 0 {
            self.word.wake_one();
        }
    }

    // Yields to other threads for `patience` microseconds. Returns whether the count has changed from `seen` by then.
    fn changes<R: Wait + Clock>(&self, rt: &R, seen: u64, patience: u64) -> bool {
        let start = micros(rt);
        for _ in rt.forever() {
            if self.seen() != seen {
                return true;
            }
            thread::yield_now();
            if has_passed(start, micros(rt), patience) {
                return false;
            }
        }
        unreachable!()
    }

    /// Waits until the count is not `seen`, at most `limit`: yields to other threads for `patience` microseconds, and
    /// then sleeps. May return spuriously.
    pub fn wait<R: Wait + Clock>(&self, rt: &R, seen: u64, patience: u64, limit: Duration) {
        if self.seen() != seen {
            return;
        }
        if patience > 0 && self.changes(rt, seen, patience) {
            return;
        }
        self.parked.store(1, Ordering::SeqCst);
        self.word.park_timeout(rt, low_half(seen), limit);
        self.parked.store(0, Ordering::SeqCst);
    }
}
