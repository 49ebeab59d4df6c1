//! The lines that are to be written, in order and within bounds.

ghost use Rattle.std.specs.Prelude.{◌≡◌, ◌<◌, ◌+◌, ◌^◌, IfOk, OnErr, OnOk, string_bytes, length, take, drop, true, IsTrue, ◌↔◌, []};
ghost use Rattle.line_queue.specs.Queues.{begun_again, count_text, empty, given_up, lines_lost, has_report_room, has_room, next_octets, offered, one_dropped, queue_of, reported, with_line, written};

use std::alloc::{AllocError, Allocator, Global};
use std::collections::VecDeque;
use std::marker::Model;

/// The greatest number of lines in a queue.
pub const MAX_LINES: usize = 4_096;

/// The greatest number of octets of all lines in a queue.
pub const MAX_OCTETS: usize = 1_048_576;

/// A count of dropped lines is taken in if the queue has fewer lines than this, half of [`MAX_LINES`].
pub const REPORT_LINES: usize = 2_048;

/// A count of dropped lines is taken in if all lines have at most this number of octets, half of [`MAX_OCTETS`].
pub const REPORT_OCTETS: usize = 524_288;

/// The greatest number of octets of one write. A pipe of Linux that has room takes that many at once (pipe(7)).
pub const MAX_WRITE: usize = 4_096;

/// Lines in the order in which they were offered, and the number of those that were dropped since.
#[derive(Drop)]
pub struct LineQueue<A: Allocator = Global> {
    // each with its end
    lines: VecDeque<String<A>, A>,
    // the octets of all of them
    octets: usize,
    // the octets of the first that are written
    begun: usize,
    dropped: u64,
}

impl<A: Allocator> Model for LineQueue<A> {
    ghost use Rattle.std.specs.Prelude.{◌≡◌, ◌≤◌, map, string_bytes};
    ghost use Rattle.std.specs.VecDeque.{deque_capacity};
    ghost use Rattle.line_queue.specs.declared.queue.TheConstants.{MAX_LINES, MAX_OCTETS};
    ghost use Rattle.line_queue.specs.Queues.{Queue, octets_of, queue_code, queue_of};

    ghost Value = { Queue };

    ghost coded = { queue_code };

    ghost view = { λ q. queue_of (map string_bytes q.lines.items) q.begun q.dropped };

    ghost invariant = { λ q. (q.octets ≡ octets_of (map string_bytes q.lines.items))
        × (q.octets ≤ MAX_OCTETS) × (MAX_LINES ≤ deque_capacity q.lines) };
}

// At most `MAX_WRITE` octets of a line, from a place on.
#[tactic(auto, using(std::proofs::lemmas::List::take_min, std::proofs::lemmas::List::drop_min, std::proofs::lemmas::List::take_rest))]
fn next_of(line: &[u8], begun: usize) -> &[u8]
    ensures next { result.now ≡ take MAX_WRITE (drop begun line.now) }
{
    let rest = &line[begun.min(line.len())..];
    &rest[..MAX_WRITE.min(rest.len())]
}

// The line with the count of dropped lines.
fn count_line(alloc: Global, head: &str, count: u64) -> Result<String, AllocError>
    ensures line { IfOk result (λ line. string_bytes line ≡ count_text head.now count) }
{
    let mut line = String::from_str(alloc, head)?;
    write!(line, "lines dropped: {count}\n")?;
    Ok(line)
}

impl<A: Allocator + Clone> LineQueue<A> {
    /// An empty queue.
    pub fn new(alloc: A) -> Result<LineQueue<A>, AllocError>
        ensures empty { IfOk result (λ queue. queue ≡ empty) }
    {
        let lines = VecDeque::with_capacity(alloc, MAX_LINES)?;
        Ok(LineQueue {
            lines,
            octets: 0,
            begun: 0,
            dropped: 0,
        })
    }
}

impl<A: Allocator> LineQueue<A> {
    /// Returns whether no line is to be written.
    pub fn is_empty(&self) -> bool
        ensures none { IsTrue result ↔ (self.now.lines ≡ []) }
    {
        self.lines.is_empty()
    }

    /// Returns whether a part of the first line is written.
    pub fn has_begun(&self) -> bool
        ensures begun { IsTrue result ↔ (0 < self.now.begun) }
    {
        self.begun > 0
    }

    /// Number of the lines that are not written yet, a begun one among them.
    pub fn len(&self) -> usize
        ensures lines { result ≡ length self.now.lines }
    {
        self.lines.len()
    }

    /// Number of the lines that were dropped since the last line that was taken in.
    pub fn dropped(&self) -> u64
        ensures dropped { result ≡ self.now.dropped }
    {
        self.dropped
    }

    /// The octets of the next write: those of the first line that are not written, at most [`MAX_WRITE`].
    pub fn next_octets(&self) -> &[u8]
        ensures next { result.now ≡ next_octets self.now }
    {
        match self.lines.front() {
            None => &[],
            Some(line) => next_of(line.as_bytes(), self.begun),
        }
    }

    fn has_room(&self, line: &str) -> bool
        ensures room { result ≡ has_room self.now line.now }
    {
        self.lines.len() < MAX_LINES && line.len() <= MAX_OCTETS - self.octets
    }

    fn has_report_room(&self, line: &str) -> bool
        ensures room { result ≡ has_report_room self.now line.now }
    {
        self.lines.len() < REPORT_LINES
            && self.octets <= REPORT_OCTETS
            && line.len() <= REPORT_OCTETS - self.octets
    }

    // Adds a line for which there is room.
    #[tactic(auto, using(crate::proofs::Lines::octets_more))]
    fn take(&mut self, line: String<A>)
    where
        A: Drop,
        requires { has_room self.old (string_bytes line) ≡ true }
        ensures taken { self.new ≡ with_line self.old (string_bytes line) }
    {
        let octets = self.octets + line.len();
        if self.lines.push_back(line).is_ok() {
            self.octets = octets;
            self.dropped = 0;
        }
    }

    /// Offers a line, with its end. It is dropped and counted if there is no room, or if lines were dropped whose count is
    /// not yet reported.
    pub fn offer(&mut self, line: String<A>)
    where
        A: Drop,
        ensures offered { self.old.dropped + 1 < 2 ^ 64
            → self.new ≡ offered self.old (string_bytes line) }
    {
        if self.dropped == 0 && self.has_room(line.as_str()) {
            self.take(line);
        } else {
            self.miss();
        }
    }

    /// Counts a line that could not be made, as one that is dropped.
    pub fn miss(&mut self)
        ensures missed { self.old.dropped + 1 < 2 ^ 64 → self.new ≡ one_dropped self.old }
    {
        self.dropped = self.dropped.saturating_add(1);
    }

    /// Takes the first `count` octets of the next write out, since they were written; all of them if they are fewer.
    pub fn written(&mut self, count: usize)
        ensures written { self.new ≡ written self.old count }
    {
        let count = count.min(self.next_octets().len());
        let length = match self.lines.front() {
            None => return,
            Some(line) => line.len(),
        };
        if self.begun < length && count < length - self.begun {
            self.begun += count;
        } else {
            self.begun = 0;
            self.octets -= length;
            self.lines.pop_front();
        }
    }
}

impl LineQueue {
    /// Begins the first line anew: what was written of it is in a file that was moved away.
    pub fn begin_again(&mut self)
        ensures begun { self.new ≡ begun_again self.old }
    {
        self.begun = 0; // the next file has none of its octets
    }

    /// Number of the lines that are not written yet, a begun one among them, and of those whose count is not yet reported.
    pub fn lost(&self) -> u64
        ensures lost { lines_lost self.now < 2 ^ 64 → result ≡ lines_lost self.now }
    {
        self.dropped.saturating_add(self.lines.len() as u64)
    }

    /// Drops the lines that are not written yet, and counts them with those whose count is not yet reported.
    pub fn give_up(&mut self)
        ensures given_up { lines_lost self.old < 2 ^ 64 → self.new ≡ given_up self.old }
    {
        self.dropped = self.lost();
        self.lines.clear();
        self.octets = 0;
        self.begin_again();
    }

    /// Takes the count of dropped lines, which is reported elsewhere. It is 0 then.
    pub fn take_dropped(&mut self) -> u64
        ensures dropped { result ≡ self.old.dropped }
        ensures rest { self.new ≡ queue_of self.old.lines self.old.begun 0 }
    {
        let dropped = self.dropped;
        self.dropped = 0;
        dropped
    }

    /// Adds the count of dropped lines, under this head, if there is room for it. Fails if memory runs out, and
    /// changes nothing then.
    pub fn report(&mut self, alloc: Global, head: &str) -> Result<(), AllocError>
        ensures reported { OnOk result (self.new ≡ reported self.old head.now) }
        ensures unchanged { OnErr result (self.new ≡ self.old) }
    {
        if self.dropped == 0 {
            return Ok(());
        }
        let line = count_line(alloc, head, self.dropped)?;
        if self.has_report_room(line.as_str()) {
            self.take(line);
        }
        Ok(())
    }
}
