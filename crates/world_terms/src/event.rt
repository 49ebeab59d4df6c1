//! Events of lanes and rounds, and their answers.

use line_rates::Ask;

/// The state of a lane, between a worker and the round.
#[derive(Clone, Copy, Debug, PartialEq, Eq)]
pub enum LaneState {
    /// No worker has it.
    Free,
    /// A worker has it.
    Worker,
    /// An ask waits to be collected.
    Asked,
    /// The round has collected an ask, and has not answered it.
    Round,
    /// An answer waits to be taken.
    Granted,
}

/// One atomic action of a worker or of the round. Lanes are numbered from 0.
#[derive(Clone, Copy, Debug, PartialEq, Eq)]
pub enum Event {
    /// A worker takes a lane.
    Sit { lane: usize },
    /// The worker asks.
    Asked { lane: usize, ask: Ask },
    /// The round collects the lane's ask, if one waits.
    Collect { lane: usize },
    /// The round decides for all asks that it has collected, at a moment in milliseconds.
    Decide { moment: u64 },
    /// The round answers a lane.
    Post { lane: usize },
    /// The worker takes the answer.
    Taken { lane: usize },
    /// The worker has moved this many octets of its grant, and gives the rest back.
    Moved { lane: usize, octets: u64 },
    /// The worker leaves the lane.
    Rise { lane: usize },
}

/// The answer of an event that is not refused.
#[derive(Clone, Copy, Debug, PartialEq, Eq)]
pub enum EventAnswer {
    /// The event is done.
    Done,
    /// An ask was collected.
    Got,
    /// No ask waited.
    Missed,
    /// The round decided, in this tick, and issued this many octets in total.
    Decided { tick: u64, total: u64 },
    /// The octets posted.
    Posted(u64),
    /// The octets taken.
    Taken(u64),
}
