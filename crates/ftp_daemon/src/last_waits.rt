//! The calls of the machine that the end of a server waits for.

ghost use Rattle.std.specs.Prelude.{◌≡◌, ◌↔◌, ◌+◌, ◌<◌, IsTrue, false, true};

use event_word::{EventCount, has_passed};
use lent_parts::{MisplacedParts, PartsName};
use server_house::{House, ServerEvent, ServerHooks};
use std::alloc::Global;
use std::sync::Wait;
use std::sync::atomic::{AtomicU64, Ordering};
use std::thread;
use std::time::{Clock, Duration};
use virtual_tree::Store;

/// The time after the beginning of the end, and between two notes, in microseconds.
pub(crate) const TELLS: u64 = 10_000_000;

/// The longest wait for the end of a lane, in milliseconds.
const LOOK: u64 = 100;

/// The lanes whose threads have begun and not ended.
#[derive(Drop)]
pub(crate) struct LanesAtWork {
    count: AtomicU64,
    // increased when a lane has ended
    ended: EventCount,
}

impl LanesAtWork {
    /// No lane has begun.
    pub(crate) fn new() -> LanesAtWork {
        LanesAtWork {
            count: AtomicU64::new(0),
            ended: EventCount::new(),
        }
    }

    /// A lane begins.
    pub(crate) fn begin(&self) {
        self.count.fetch_add(1, Ordering::SeqCst);
    }

    /// A lane has ended.
    pub(crate) fn end(&self) {
        self.count.fetch_sub(1, Ordering::SeqCst);
        self.ended.signal();
    }

    /// Number of the lanes that have not ended.
    pub(crate) fn count(&self) -> u64 {
        self.count.load(Ordering::SeqCst)
    }

    /// The number of ends. Read it before the count.
    pub(crate) fn seen(&self) -> u64 {
        self.ended.seen()
    }

    /// Waits until a lane ends, or briefly.
    pub(crate) fn wait<R: Wait + Clock>(&self, rt: &R, seen: u64) {
        self.ended.wait(rt, seen, 0, Duration::from_millis(LOOK));
    }
}

/// The time between two notes of a fault that never ends, in seconds.
const MISPLACED: u64 = 10;

/// The house of a server that has ended, whose handler is told of parts that are not in their places.
#[derive(Drop)]
pub(crate) struct ToldHandler<R: Drop, S: Store<Global>, H: Drop, B: PartsName> {
    pub(crate) rt: R,
    pub(crate) house: House<S, H, B>,
}

impl<R, S, H, B> MisplacedParts for ToldHandler<R, S, H, B>
where
    R: Wait + Clock + Drop,
    S: Store<Global>,
    H: ServerHooks,
    B: PartsName,
{
    fn misplaced(&mut self, lane: usize) {
        self.house
            .handler
            .lock(&self.rt)
            .on_server(ServerEvent::Misplaced(lane as u64));
        thread::sleep(&self.rt, Duration::from_secs(MISPLACED));
    }
}

/// Number of the calls of the machine that an end waits for: a session that has not ended waits for one, its own or that of
/// the lane that runs its transfer; once all sessions have ended, each lane that has not ended waits for its own.
pub(crate) fn waited_for(have_sessions_ended: bool, sessions: u64, lanes: u64) -> u64
    ensures sessions { have_sessions_ended ≡ false → result ≡ sessions }
    ensures lanes { have_sessions_ended ≡ true → result ≡ lanes }
{
    if have_sessions_ended { lanes } else { sessions }
}

/// Returns whether the calls that an end waits for are told at this moment: if there are any, and more than ten seconds
/// have passed since the end began, or since they were told last.
pub(crate) fn is_told(calls: u64, since: u64, now: u64) -> bool
    ensures told { IsTrue result ↔ (0 < calls) × (since + TELLS < now) }
{
    calls > 0 && has_passed(since, now, TELLS)
}
