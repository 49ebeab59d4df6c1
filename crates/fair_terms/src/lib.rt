//! Fair grants for the asks of a tick: best among the sessions, or best among the users and then among the sessions of
//! each, as the rates of the line say. There is nothing to call but laws.
//!
//! `specs/Owners.antt` has who the users of the leaves are, `specs/Fair.antt` which grants are fair, and
//! `specs/Wants.antt` what the asks of one user want together. Sealed grants with these users, or with none, are fair
//! (`sealed_is_fair`).
#![tactic(auto)]

mod laws;

pub use laws::{sealed_is_fair, tick_tree_has_users};
