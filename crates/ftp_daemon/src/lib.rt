//! The running server: control connections, lanes and rounds, each in threads of their own, and the settlement at the
//! end.
//!
//! [`serve`] listens, writes `ready`, and serves until it has had its sessions or its stop sign is up. Then it waits
//! for the sessions in progress, gathers all parts that it lent, and writes `settled issued I moved M back B`: by the
//! types of what the threads were lent, the octets issued are those moved and those given back, whatever happened, and
//! rounds that kept each rate granted them, at moments of the server's [`RoundClock`].
//!
//! The crate is also the library of the programs: it re-exports the commands that need no server, with the types that
//! they take and return. [`run_share`] and [`run_check`] work on sheets, [`run_script`] serves a session without
//! sockets, and [`migrate`] returns a configuration in version 2.
#![tactic(auto)]

mod accepting;
mod crew;
mod draining;
mod ending_sessions;
mod lanes;
mod last_waits;
mod listening;
mod opening;
mod reloading;
mod server;
mod serving;
mod settling;
mod watching;

pub use client_patience::Patience;
pub use ending_sessions::EndSign;
pub use ftpd_program::{ScriptFault, ServeFault, run_script};
pub use grant_certificate::Verdict;
pub use lent_parts::{Moment, RoundClock};
pub use opening::Service;
pub use reloading::{Reload, ReloadFault, ReloadSign};
pub use script_session::SessionFault;
pub use server_config::{Config, ConfigFault, migrate};
pub use server_house::{ServerRuntime, Terms};
pub use serving::serve;
pub use sheet_commands::{CheckFault, ShareFault, run_check, run_share};
pub use text_io::{TextFault, TextReader, TextWriter};
pub use watching::{NoSigns, OwnerSigns};
