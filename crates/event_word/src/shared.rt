//! A count that many threads wait on.

use crate::half::low_half;
use std::sync::Wait;
use std::sync::atomic::{AtomicU64, Ordering};
use std::time::Duration;

/// A count of events, for any number of waiters.
#[derive(Drop)]
pub struct SharedEventCount {
    word: AtomicU64,
    // number of waiters that sleep or are about to
    parked: AtomicU64,
    // keeps two counts in different lines of the processor's cache
    room: [u64; 14],
}

impl SharedEventCount {
    /// A count without events.
    pub fn new() -> SharedEventCount {
        SharedEventCount {
            word: AtomicU64::new(0),
            parked: AtomicU64::new(0),
            room: [0; 14],
        }
    }

    /// The count. Read it before checking for the event.
    pub fn seen(&self) -> u64 {
        self.word.load(Ordering::SeqCst)
    }

    /// Increases the count and wakes one waiter.
    pub fn signal_one(&self) {
        self.word.fetch_add(1, Ordering::SeqCst);
        if self.parked.load(Ordering::SeqCst) != 0 {
            self.word.wake_one();
        }
    }

    /// Increases the count and wakes all waiters.
    pub fn signal_all(&self) {
        self.word.fetch_add(1, Ordering::SeqCst);
        self.word.wake_all();
    }

    /// Waits until the count is not `seen`, at most `limit`. May return spuriously.
    pub fn wait<R: Wait>(&self, rt: &R, seen: u64, limit: Duration) {
        self.parked.fetch_add(1, Ordering::SeqCst);
        self.word.park_timeout(rt, low_half(seen), limit);
        self.parked.fetch_sub(1, Ordering::SeqCst);
    }
}
