//! A host that serves one control session alone, and a session on it.
//!
//! `specs/Alone.antt` has the effect of each call on such a host.
#![tactic(auto)]

mod alone;
mod given;
mod host;
mod silent;

pub use alone::run_alone;
pub use control_session::{ControlFault, DataSide, Host, Leaving, Moments, Piece, Session};
pub use given::GivesSettings;
pub use handler_hooks::Hooks;
pub use host::{SoleHost, piece_of};
pub use silent::Silent;
