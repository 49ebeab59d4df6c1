//! Laws of rounds.

ghost use Rattle.round_events.specs.Decided.{OneDecision};
ghost use Rattle.round_events.specs.Desk.{DeskRunsAreRuns, OpenedIsNew, RoundDecides, ShownIsOne, TablesAreShown, TriedAreDue};
ghost use Rattle.round_events.specs.Merged.{MergedIsRun, MergedMoves, RunsAreMerged};
ghost use Rattle.round_events.specs.Refused.{RefusedRoundIsEvents};
ghost use Rattle.round_events.specs.Rounds.{PlansAreSmall, RoundIsEvents};
ghost use Rattle.round_events.specs.Tries.{TriesComeFirst};
ghost use Rattle.round_events.specs.TwoLanes.{IsExample};

/// A round of the desk is a list of the core's events, with these replies, from each world that shows the lanes as the
/// round finds them to one that shows them as it leaves them.
pub fn round_is_events()
    ensures events { RoundIsEvents }
    ensures wants { PlansAreSmall }
{}

/// A refused round of the desk is a list of the core's events too: its decision is refused, and it answers each ask with
/// 0 octets.
pub fn refused_round_is_events<A>()
    ensures events { RefusedRoundIsEvents A }
{}

/// A decision of the core is that of a plan for the asks in Round with fair grants, and the other way round.
pub fn decisions_are_one()
    ensures one { OneDecision }
{}

/// Each list of steps of the desk, by any of its threads in any order, is a run of the core, which begins in a new world
/// if the desk was just opened. The part of a lane that a table shows is one.
pub fn desk_runs_are_runs<N>()
    ensures runs { DeskRunsAreRuns N }
    ensures opened { OpenedIsNew N }
    ensures one { ShownIsOne N }
{}

/// Between rounds, the world of a desk's table is one in which a round begins. After the tries of a round, the asks that
/// are due are those found, and the round is a decision for these, as a run of the desk has it.
pub fn rounds_are_of_the_desk<N>()
    ensures between { TablesAreShown N }
    ensures due { TriedAreDue }
    ensures decision { RoundDecides }
{}

/// In each list of steps of the desk, by any of its threads in any order, each ask that is due while the round may try a
/// lane was collected since its last answer.
pub fn tries_come_first<N>()
    ensures tries { TriesComeFirst N }
{}

/// Each list of steps of the desk's table, by any of its threads in any order, is merged with the decisions of its rounds
/// and the spending of its grants, if these fit it: to a list of steps of the desk, which is a run of the core from a new
/// world. At its end each lane has moved what was spent there.
pub fn table_runs_are_merged<N>()
    ensures merged { RunsAreMerged N }
    ensures run { MergedIsRun N }
    ensures moved { MergedMoves N }
{}

/// There are lists, rounds and spends that fit: of two lanes, with a round that grants to both, and a grant that is spent
/// in part while the other is in hand.
pub fn two_lanes_merge<N>()
    ensures example { IsExample N }
{}
