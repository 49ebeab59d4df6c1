//! Laws that join the rounds of the running server with the core of sharing. There is nothing to call.
//!
//! `lane_desk` states the effect of a round on the round's views of the lanes, `desk_rule` that of each exchange on the
//! desk's table, and `world_terms` that of a list of events. By [`round_is_events`] and [`refused_round_is_events`] a
//! round is a list of events, by [`decisions_are_one`] its decision is that of the core, and by [`desk_runs_are_runs`]
//! each list of steps of the desk, of all threads in any order, is a run. By [`tries_come_first`] each
//! ask that is due while the round tries was collected since its last answer. By [`table_runs_are_merged`] the list of the
//! table's steps, the rounds' decisions and the octets that were spent of each grant are one such list, if they fit.
//!
//! For example, a server with a rate of 30 octets a second, which are 3 in each tick, has two lanes: on lane 0 an ask for
//! 5 octets waits, and lane 1 is free. A round of both at moment 12,345 is these events with these answers:
//!
//! ```text
//! Collect { lane: 0 }         Got
//! Collect { lane: 1 }         Missed
//! Decide { moment: 12345 }    Decided { tick: 123, total: 3 }
//! Post { lane: 0 }            Posted(3)
//! ```
//!
//! Lane 0 was Asked and is Granted, with the same last ask and one amount more posted to it; lane 1 is unchanged; the
//! last tick was at most 122 and is 123; and 3 octets more are issued. If the last tick is 123, the desk refuses the
//! round as `NotYet`, the answer of Decide is that refusal, and that of Post is `Posted(0)`.
#![tactic(auto)]

mod laws;

pub use laws::{
    decisions_are_one, desk_runs_are_runs, refused_round_is_events, round_is_events,
    rounds_are_of_the_desk, table_runs_are_merged, tries_come_first, two_lanes_merge,
};
