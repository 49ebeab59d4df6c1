//! Guarantees over time: what a session with a guarantee is granted in a second of the rounds that a server held.
#![tactic(auto)]

mod laws;

pub use laws::{
    asks_keep_guarantees, guarantees_are_kept_over_time, paces_are_reached,
    rounds_are_owed_a_guarantee, some_rounds_meet_premises,
};
