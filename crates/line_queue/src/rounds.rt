//! The decisions of the thread that writes.

ghost use Rattle.std.specs.Prelude.{◌≡◌};
ghost use Rattle.line_queue.specs.Rounds.{held_step, last_step, next_step, open_step, readiness_of};

/// The readiness of an outlet for octets.
#[derive(Clone, Copy, Debug, PartialEq, Eq)]
pub enum Readiness {
    /// It takes octets now, at least [`MAX_WRITE`](crate::MAX_WRITE) if it is a pipe.
    Ready,
    /// Its reader has not made room yet.
    Full,
    /// It has no reader any more.
    Gone,
}

/// The result of one round over a queue.
#[derive(Clone, Copy, Debug, PartialEq, Eq)]
pub enum Round {
    /// Nothing was to be written.
    Idle,
    /// Octets were written, or a line is begun anew.
    Wrote,
    /// Octets are to be written, and their reader has not made room yet.
    Held,
    /// Octets are to be written, and none could be, though nothing had to be waited for: a disk is full, or memory ran out.
    Refused,
    /// Octets are to be written, and the outlet has no reader any more.
    Lost,
}

/// The next act of a thread that writes, after a round.
#[derive(Clone, Copy, Debug, PartialEq, Eq)]
pub enum Step {
    /// Another round.
    Again,
    /// It sleeps until a line is offered.
    Sleep,
    /// It waits for a while, or until the reader of the first queue has made room.
    Poll,
    /// It waits for a while.
    Pause,
    /// It ends.
    End,
}

/// The time that outlets have to take what is left once no more lines come, in microseconds.
pub const LAST_WAIT: u64 = 1_000_000;

/// The readiness by the answer of poll(2) for one descriptor, and by the events that it reports.
pub fn readiness_of(answer: i32, events: i16) -> Readiness
    ensures readiness { result ≡ readiness_of answer events }
{
    if answer != 1 {
        Readiness::Full
    } else if events == libc::net::POLLOUT {
        Readiness::Ready
    } else {
        Readiness::Gone
    }
}

/// The step after a round over two queues, and `closed` microseconds after the last line, if no more come.
pub fn next_step(first: Round, second: Round, closed: Option<u64>) -> Step
    ensures step { result ≡ next_step first second closed }
{
    match closed {
        Some(since) => last_step(first, second, since),
        None => open_step(first, second),
    }
}

// With octets that are to be written. Only a reader that is to make room can end the wait: an outlet that refused is
// ready, and would be asked again at once.
fn held_step(first: Round) -> Step
    ensures step { result ≡ held_step first }
{
    match first {
        Round::Held => Step::Poll,
        _ => Step::Pause,
    }
}

// While more lines may come.
fn open_step(first: Round, second: Round) -> Step
    ensures step { result ≡ open_step first second }
{
    match (first, second) {
        (Round::Wrote, _) | (_, Round::Wrote) => Step::Again,
        (Round::Idle, Round::Idle) => Step::Sleep,
        _ => held_step(first),
    }
}

// Once no more lines come.
fn last_step(first: Round, second: Round, since: u64) -> Step
    ensures step { result ≡ last_step first second since }
{
    if since > LAST_WAIT {
        return Step::End;
    }
    match (first, second) {
        (Round::Wrote, _) | (_, Round::Wrote) => Step::Again,
        (Round::Held | Round::Refused, _) | (_, Round::Held | Round::Refused) => held_step(first),
        _ => Step::End,
    }
}
