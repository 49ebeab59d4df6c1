//! The core of sharing as definitions: lanes and rounds as one state machine over events. There is nothing to call.
//!
//! An [`Event`] is one atomic action of a worker or of the round. `specs/Steps.antt` defines its effect, its answer and
//! its refusals, and `specs/Runs.antt` the effect of a list of events. `share_world` is an executable world, with the
//! properties of every list; the desk of the server is proved to perform these events, through the part of a lane that
//! its words and views show (`specs/Shown.antt`).
//!
//! ```text
//! Sit { lane } | Asked { lane, ask } | Collect { lane } | Decide { moment }
//! Post { lane } | Taken { lane } | Moved { lane, octets } | Rise { lane }
//! ```
#![tactic(auto)]

mod event;
mod fault;

pub use event::{Event, EventAnswer, LaneState};
pub use fault::StepFault;
