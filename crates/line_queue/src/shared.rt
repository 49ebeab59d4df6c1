//! Queues among threads.

ghost use Rattle.std.specs.Prelude.{◌≡◌, ◌+◌, ◌<◌, ◌^◌, IfOk, MatchResult, nat_eq, not, string_bytes};
ghost use Rattle.line_queue.specs.Queues.{empty, lines_lost, offered, one_dropped, settled, settled_count, transfers_text};

use crate::queue::LineQueue;
use event_word::EventCount;
use std::alloc::{AllocError, Global};
use std::sync::atomic::{AtomicU64, Ordering};
use std::sync::{Mutex, Wait};

/// The lines of two kinds that threads offer and one thread writes. Nobody has a lock while an outlet is written to, so a
/// thread that offers a line waits for no reader.
#[derive(Drop)]
pub struct SharedLines {
    pub(crate) notes: Mutex<LineQueue>,
    pub(crate) transfers: Mutex<LineQueue>,
    // increased when a line is offered, and at the end; the thread that writes waits on it
    pub(crate) waker: EventCount,
    // 1 once no more lines come
    closed: AtomicU64,
    // number of the lines that were dropped
    lost: AtomicU64,
}

// Offers a line, or counts it if it could not be made.
fn offer(queue: &mut LineQueue, line: Result<String, AllocError>)
    ensures offered { queue.old.dropped + 1 < 2 ^ 64 → MatchResult line
        (λ line. queue.new ≡ offered queue.old (string_bytes line))
        (λ _. queue.new ≡ one_dropped queue.old) }
{
    match line {
        Ok(line) => queue.offer(line),
        Err(_) => queue.miss(),
    }
}

// The same. Returns whether a line was dropped.
fn offer_and_look(queue: &mut LineQueue, line: Result<String, AllocError>) -> bool
    ensures offered { queue.old.dropped + 1 < 2 ^ 64 → MatchResult line
        (λ line. queue.new ≡ offered queue.old (string_bytes line))
        (λ _. queue.new ≡ one_dropped queue.old) }
    ensures dropped { result ≡ not (nat_eq queue.new.dropped queue.old.dropped) }
{
    let before = queue.dropped();
    offer(queue, line);
    queue.dropped() != before
}

// Takes the count of dropped lines once the others are written; 0 before.
fn settled(queue: &mut LineQueue) -> u64
    ensures count { result ≡ settled_count queue.old }
    ensures rest { queue.new ≡ settled queue.old }
{
    if queue.is_empty() {
        queue.take_dropped()
    } else {
        0
    }
}

// Drops the lines that are left. Returns the number of these and of those whose count is not reported.
fn given_up(queue: &mut LineQueue) -> u64
    ensures count { lines_lost queue.old < 2 ^ 64 → result ≡ lines_lost queue.old }
    ensures rest { lines_lost queue.old < 2 ^ 64 → queue.new ≡ empty }
{
    let count = queue.lost();
    queue.give_up();
    let _ = queue.take_dropped();
    count
}

/// The note with the count of dropped lines of the transfer log, under this head.
pub fn transfers_dropped(alloc: Global, head: &str, count: u64) -> Result<String, AllocError>
    ensures line { IfOk result (λ line. string_bytes line ≡ transfers_text head.now count) }
{
    let mut line = String::from_str(alloc, head)?;
    line.push_str("lines of the transfer log dropped: ")?;
    write!(line, "{count}\n")?;
    Ok(line)
}

impl SharedLines {
    /// Empty queues.
    pub fn new(alloc: Global) -> Result<SharedLines, AllocError> {
        let notes = LineQueue::new(alloc)?;
        let transfers = LineQueue::new(alloc)?;
        Ok(SharedLines {
            notes: Mutex::new(notes),
            transfers: Mutex::new(transfers),
            waker: EventCount::new(),
            closed: AtomicU64::new(0),
            lost: AtomicU64::new(0),
        })
    }

    /// Offers a note, with its end. One that could not be made is counted as a line that is dropped.
    pub fn note<R: Wait>(&self, rt: &R, line: Result<String, AllocError>) {
        let dropped = offer_and_look(&mut self.notes.lock(rt), line);
        self.count(dropped);
        self.waker.signal();
    }

    /// Offers a line of the transfer log, with its end. One that could not be made is counted as a line that is dropped.
    pub fn transfer<R: Wait>(&self, rt: &R, line: Result<String, AllocError>) {
        let dropped = offer_and_look(&mut self.transfers.lock(rt), line);
        self.count(dropped);
        self.waker.signal();
    }

    // Counts a line that was dropped.
    fn count(&self, is_dropped: bool) {
        if is_dropped {
            self.lost.fetch_add(1, Ordering::SeqCst);
        }
    }

    /// Number of the lines that were offered and dropped so far, of both kinds.
    pub fn lost(&self) -> u64 {
        self.lost.load(Ordering::SeqCst)
    }

    /// Ends the thread that writes, once it has written what is left or has waited long enough for its readers.
    pub fn close(&self) {
        self.closed.store(1, Ordering::SeqCst);
        self.waker.signal();
    }

    // Moves the count of dropped lines of the transfer log to a note.
    pub(crate) fn report_transfers<R: Wait>(&self, rt: &R, alloc: Global, head: &str) {
        let dropped = settled(&mut self.transfers.lock(rt));
        if dropped > 0 {
            let line = transfers_dropped(alloc, head, dropped);
            offer(&mut self.notes.lock(rt), line);
        }
    }

    /// Drops the lines of the transfer log that are not written, and returns their number, with that of the lines whose
    /// count is not noted yet.
    pub fn give_up<R: Wait>(&self, rt: &R) -> u64 {
        given_up(&mut self.transfers.lock(rt))
    }

    pub(crate) fn is_closed(&self) -> bool {
        self.closed.load(Ordering::SeqCst) != 0
    }
}
