//! The program `ftpd`: the command that its words name, run on files; the status that it ends with, and its messages on
//! standard error.
//!
//! ```text
//! let mut files = Text(SMALL); // opens what the words name
//! let mut output = Vec::new(rt.alloc());
//! let mut server = Noting::new(); // what `serve` would call
//! let words = ["migrate", "ftpd.toml"];
//! let ending = run_words(rt.alloc(), &words, &mut files, &mut server, &mut output);
//! holds(&rt, ending.status() == 0);
//! holds(&rt, output.starts_with(b"version = 2\n"));
//! ```
#![tactic(auto)]

mod against;
mod drain_limit;
mod ending;
mod idle_options;
mod paths;
mod printing;
mod ready;
mod run;
mod scripting;
mod server;
mod serving;
mod session_limit;
mod start;
mod watching;

pub use against::RUNNING_FILE;
pub use command_line::{Patience, ServeFiles, ShareBy, UsageWords, read_usage_words};
pub use config_report::{Lookout, Sight};
pub use drain_limit::is_for_nothing;
pub use ending::{FtpdErrorText, FtpdExit};
pub use idle_options::{IdleOption, idle_sessions, idle_sync, reads_input_again};
pub use paths::{
    FileIdentity, FoundFile, StatedPath, first_twin, is_free_for_log, is_free_for_status,
};
pub use printing::{Print, PrintFault, run_print};
pub use ready::{ReadyFile, ReadyOutput};
pub use run::run_words;
pub use scripting::{ScriptFault, run_script};
pub use server::{ReadConfig, ServeFault, Server};
pub use session_limit::{MOST_USER_SESSIONS, stated_sessions};
pub use sheets_program::{Opener, STANDARD_INPUT};
pub use start::StartFault;
pub use watching::{StatusSource, watch};
