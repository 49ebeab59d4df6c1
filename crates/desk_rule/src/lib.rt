//! The rule of a desk of lanes: the relation between its words, its slots and the views of its seats, between any two
//! steps.
//!
//! `specs/Lanes.antt` has the rule and the result of each kind of step. `lane_desk` makes the steps: those of a worker
//! and of the round, and those at the desk's beginning and end.
#![tactic(auto)]

mod laws;
mod rule;
mod view;

pub use laws::{accounts_fit, exchanges_are_events};
pub use rule::{Collect, Deal, DeskRule, Gather, MakeAsk, Post, Rise, Sit, Take};
pub use view::{DeskView, LaneSlot, LaneView, RoundView, SeatState, TraceView};
