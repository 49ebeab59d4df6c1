//! The thread that writes.

ghost use Rattle.std.specs.Prelude.{◌≡◌, ◌<◌, ◌↔◌, IfOk, OnOk, IsTrue};
ghost use Rattle.line_queue.specs.Queues.{next_octets};

use crate::outlet::LineOutlet;
use crate::queue::LineQueue;
use crate::rounds::{Readiness, Round, Step, next_step};
use crate::shared::SharedLines;
use event_word::micros;
use std::alloc::{AllocError, Global};
use std::sync::{Mutex, Wait};
use std::thread;
use std::time::{Clock, Duration};

/// The time that outlets have before the next round, in milliseconds.
const PAUSE: u16 = 20;

/// The longest sleep, in seconds: a lost signal would cost no more.
const LONGEST_SLEEP: u64 = 1;

/// The time after the first line, in milliseconds, in which others may come that are written with it: a write and a
/// wake-up for each line would cost more than the line.
const GATHER: u64 = 5;

// Copies the octets of the next write. Returns whether there are any, and whether they go on with a line.
fn copy_next(queue: &LineQueue, buffer: &mut Vec<u8>) -> Result<bool, AllocError>
    ensures next { OnOk result (buffer.new.items ≡ next_octets queue.now) }
    ensures goes_on { IfOk result (λ goes_on. IsTrue goes_on ↔ (0 < queue.now.begun)) }
{
    buffer.clear();
    buffer.extend_from_slice(queue.next_octets())?;
    Ok(queue.has_begun())
}

// One round over a queue: takes the octets of the next write out, writes some of them, and takes those off the queue. The
// lock is not held while the outlet is asked or written to.
fn round<R: Wait, O: LineOutlet>(
    rt: &R,
    queue: &Mutex<LineQueue>,
    outlet: &mut O,
    buffer: &mut Vec<u8>,
) -> Round {
    let copied = copy_next(&queue.lock(rt), buffer);
    let goes_on = match copied {
        Ok(goes_on) => goes_on,
        Err(_) => return Round::Refused,
    };
    if buffer.is_empty() {
        return Round::Idle;
    }
    match outlet.readiness(0) {
        Readiness::Full => Round::Held,
        Readiness::Gone => Round::Lost,
        Readiness::Ready => {
            let count = outlet.write(buffer.as_slice(), goes_on);
            if count > 0 {
                queue.lock(rt).written(count);
                return Round::Wrote;
            }
            if goes_on && outlet.follow() {
                queue.lock(rt).begin_again();
                return Round::Wrote;
            }
            Round::Refused
        }
    }
}

// Adds the counts of dropped lines to the notes, once there is room.
fn report<R: Wait>(rt: &R, alloc: Global, lines: &SharedLines, head: &str) {
    let _ = lines.notes.lock(rt).report(alloc, head);
    lines.report_transfers(rt, alloc, head);
}

/// Writes the lines that are offered, until no more come and the last are written, or [`LAST_WAIT`](crate::LAST_WAIT)
/// has passed since. The counts of dropped lines are among the notes, under this head. A line that has begun in a file
/// that was moved away, and cannot go on there, is begun anew in the file that the outlet follows. Lines that are left at
/// the end are those of [`SharedLines::give_up`].
pub fn write_lines<R, N, T>(
    rt: &R,
    lines: &SharedLines,
    head: &str,
    notes: &mut N,
    transfers: &mut T,
)
where
    R: Wait + Clock + AllocGlobal,
    N: LineOutlet,
    T: LineOutlet,
{
    let mut buffer = Vec::new(rt.alloc());
    let mut last = None;
    for _ in rt.forever() {
        let seen = lines.waker.seen();
        if last.is_none() && lines.is_closed() {
            last = Some(micros(rt));
        }
        report(rt, rt.alloc(), lines, head);
        let first = round(rt, &lines.notes, notes, &mut buffer);
        let second = round(rt, &lines.transfers, transfers, &mut buffer);
        match next_step(first, second, time_since(rt, last)) {
            Step::Again => {}
            Step::Sleep => gather(rt, lines, seen),
            Step::Poll => {
                notes.readiness(PAUSE);
            }
            Step::Pause => thread::sleep(rt, Duration::from_millis(u64::from(PAUSE))),
            Step::End => return,
        }
    }
    unreachable!()
}

// The microseconds since a moment, if there is one.
fn time_since<R: Clock>(rt: &R, moment: Option<u64>) -> Option<u64> {
    match moment {
        Some(moment) => Some(micros(rt).saturating_sub(moment)),
        None => None,
    }
}

// Sleeps until a line is offered, and then a moment more for those that follow it, unless no more come.
fn gather<R: Wait + Clock>(rt: &R, lines: &SharedLines, seen: u64) {
    lines
        .waker
        .wait(rt, seen, 0, Duration::from_secs(LONGEST_SLEEP));
    if lines.waker.seen() != seen && !lines.is_closed() {
        thread::sleep(rt, Duration::from_millis(GATHER));
    }
}
