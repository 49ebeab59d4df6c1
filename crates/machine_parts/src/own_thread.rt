//! Threads that own what they use, so that nobody has to wait for them.
//!
//! A call on a path of the machine has no limit of time: a file system may hang, or somebody has put a pipe at the path. So
//! the owner's paths are examined, opened, read and written by such threads, and the end of the server waits at most
//! [`LAST_WAIT`] for each. One that has not ended by then ends with the process.

ghost use Rattle.std.specs.Prelude.{◌≡◌, ◌-◌, IfOk};
ghost use Rattle.std.specs.Arc.{arc_value};

use event_word::{EventCount, micros};
use std::alloc::{AllocError, Global};
use std::sync::atomic::{AtomicU64, Ordering};
use std::sync::{Arc, Wait};
use std::time::{Clock, Duration};

/// The stack of such a thread, in octets.
pub const STACK: usize = 262_144;

/// The time that the end of the server waits for such a thread, in microseconds.
pub const LAST_WAIT: u64 = 1_000_000;

/// The longest sleep of such a thread, in seconds: a lost signal would cost no more.
const LONGEST_SLEEP: u64 = 10;

/// A value that such a thread shares with those who give it work.
pub fn shared<T: Drop>(alloc: Global, value: T) -> Result<Arc<T>, AllocError>
    ensures value { IfOk result (λ handle. arc_value handle ≡ value) }
{
    let handle = Arc::new(alloc, value)?;
    Ok(handle)
}

/// The signals between such a thread and those who give it work.
#[derive(Drop)]
pub struct ThreadSigns {
    // increased when there is work, and at the end; the thread waits on it
    work: EventCount,
    // increased when the thread has ended
    end: EventCount,
    // 1 once no more work comes
    closed: AtomicU64,
    // 1 once the thread has ended
    ended: AtomicU64,
}

// The part of the last wait that is left at a moment, in microseconds.
fn left(since: u64, now: u64) -> u64
    ensures left { result ≡ LAST_WAIT - (now - since) }
{
    LAST_WAIT.saturating_sub(now.saturating_sub(since))
}

impl ThreadSigns {
    /// The signals of a thread that has not begun.
    pub fn new() -> ThreadSigns {
        ThreadSigns {
            work: EventCount::new(),
            end: EventCount::new(),
            closed: AtomicU64::new(0),
            ended: AtomicU64::new(0),
        }
    }

    /// Wakes the thread: there is work.
    pub fn wake(&self) {
        self.work.signal();
    }

    /// The number of signals so far. The thread reads it before it looks for work.
    pub fn seen(&self) -> u64 {
        self.work.seen()
    }

    /// The thread waits for work, or for the end.
    pub fn wait<R: Wait + Clock>(&self, rt: &R, seen: u64) {
        self.work
            .wait(rt, seen, 0, Duration::from_secs(LONGEST_SLEEP));
    }

    /// Returns whether no more work comes.
    pub fn is_closed(&self) -> bool {
        self.closed.load(Ordering::SeqCst) == 1
    }

    /// The thread has ended.
    pub fn end(&self) {
        self.ended.store(1, Ordering::SeqCst);
        self.end.signal();
    }

    /// No more work comes: waits until the thread has ended, at most [`LAST_WAIT`].
    pub fn leave<R: Wait + Clock>(&self, rt: &R) {
        self.closed.store(1, Ordering::SeqCst);
        self.wake();
        let since = micros(rt);
        for _ in rt.forever() {
            let seen = self.end.seen();
            let left = left(since, micros(rt));
            if left == 0 || self.ended.load(Ordering::SeqCst) == 1 {
                return;
            }
            self.end.wait(rt, seen, 0, Duration::from_micros(left));
        }
        unreachable!()
    }
}
