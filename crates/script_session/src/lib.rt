//! A control session without sockets: its text comes from any reader, and its data connections lead nowhere.
//!
//! [`serve_text`] runs a session for given users, guarantees and store; [`serve_config`] for those of a configuration.
//!
//! ```text
//! let mut input: &[u8] = b"USER ann\r\nPASS secret\r\n";
//! let mut output: Vec<u8> = Vec::new(rt.alloc());
//! serve_text(
//!     rt.alloc(),
//!     &mut input,
//!     &mut output,
//!     users,
//!     floors,
//!     store,
//!     settings(),
//!     40_000,
//! )?;
//! same(
//!     rt,
//!     &output,
//!     b"220 Ready\r\n331 Password required\r\n230 Welcome\r\n",
//! );
//! ```
#![tactic(auto)]

mod fault;
mod script;
mod serving;
mod side;

pub use fault::SessionFault;
pub use script::serve_text;
pub use serving::serve_config;
pub use session_host::ControlFault;
pub use side::{ScriptSide, ZeroClock};
