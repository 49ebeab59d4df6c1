//! Contents of a lane's slot, and views of seats.

use grant_ledger::Grant;
use line_rates::Ask;
use std::collections::LinkedList;

/// The content of a lane's slot.
pub enum LaneSlot<N> {
    Blank,
    WithAsk(Ask),
    WithGrant(Grant<N>),
}

/// The state of a worker with its lane.
#[derive(Clone, Copy, Debug, PartialEq, Eq)]
pub enum SeatState {
    /// No worker has the lane.
    Free,
    /// A worker has it, and has not asked.
    Worker,
    /// The worker has asked, and has not taken the answer.
    Asked,
}

/// The view of a lane in its own seat. Exists for contracts only; no value is ever made.
pub struct LaneView {
    pub state: SeatState,
    /// For each sitting, the number of asks made before it.
    pub sittings: LinkedList<u64>,
    /// Number of takes that found nothing.
    pub looks: u64,
    pub asks: LinkedList<Ask>,
    /// The amounts taken, in octets.
    pub taken: LinkedList<u64>,
}

/// The view of a lane in the round's seat. Exists for contracts only; no value is ever made.
pub struct TraceView {
    /// Number of tries to collect.
    pub tries: u64,
    pub collected: LinkedList<Ask>,
    /// The amounts posted, in octets.
    pub posted: LinkedList<u64>,
}

/// The view of the round's seat. Exists for contracts only; no value is ever made.
pub struct RoundView {
    /// Number of lanes whose seats were split off.
    pub dealt: u64,
    pub traces: LinkedList<TraceView>,
    /// The lanes whose seats were returned.
    pub back: LinkedList<LaneView>,
    /// True after an answer that leaves another lane due, until none is. Meanwhile the round tries no lane.
    pub answering: bool,
}

/// The view of a seat: a lane's seat knows its lane, the round's seat all turns. A seat joined to the round's is
/// spent.
pub enum DeskView {
    Spent,
    Lane(u64, LaneView),
    Round(RoundView),
}
