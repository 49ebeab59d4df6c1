//! The parts of the machine that the program `ftpd` works with: files, sockets, and the threads that own them.
//!
//! ```text
//! words ── run_words ──> AskedServer ── prepare ──> Means ── OwnThreads, LogThreads ──> signs, notes, status
//! ```
//!
//! The words of a command line ask for an [`AskedService`]. [`prepare`] has the machine's files and sockets for it, or says
//! which of them cannot be had. A call on a path of the machine has no limit of time, so [`OwnThreads`] and [`LogThreads`]
//! make such calls while the server runs, and nobody waits for them.
//!
//! Each call on the machine is made here alone. `ftpd_program`, `transfer_log`, `config_change` and others decide on its
//! answer.
//!
//! Decisions that need no machine have contracts: `asked` and `stated_options` on the service that the words state,
//! `following`, `facts` and [`Known`] on the parts of a reload, which [`next_config`] puts together, and `answers` on what the
//! machine has answered. [`prepare`] has all that is stated, each file at its path, or says what could not be had, and
//! [`OwnThreads`] has a thread for each. `status_file` and `file_reading` name the calls that they make on any machine of
//! files, and their order. Calls that only ask the machine have none.
#![tactic(auto)]

mod answers;
mod asked;
mod config_thread;
mod facts;
mod file_reading;
mod following;
mod keeper;
mod known;
mod limit_in_words;
mod log_file;
mod log_thread;
mod looked_file;
mod machine_files;
mod options;
mod own_thread;
mod page_thread;
mod ready_file;
mod reasons;
mod running_file;
mod sign_file;
mod starting;
mod stated_files;
mod stated_options;
mod status_file;
mod status_thread;
mod threads;
mod usage_files;
mod watched_file;

pub use asked::{AskedServer, AskedService, ReadText, SignPaths, WrittenPaths};
pub use config_thread::ConfigReader;
pub use facts::{Start, copied_limits, start_of};
pub use file_reading::ReadOctets;
pub use following::{AtStart, NextConfig, next_config};
pub use keeper::{Cells, MachineNotes, keeper_of};
pub use known::Known;
pub use limit_in_words::limit_words;
pub use log_file::LogFile;
pub use log_thread::{LogThreads, PlainNotes, QueuedTransfers};
pub use looked_file::looked_at;
pub use machine_files::MachineFiles;
pub use page_thread::PageSocket;
pub use ready_file::MachineReadyFile;
pub use reasons::words;
pub use running_file::RunningWriter;
pub use sign_file::{SignFile, SignLook};
pub use starting::{Means, Prepared, Shown, Signs, prepare};
pub use stated_options::Unprepared;
pub use status_file::StatusFile;
pub use status_thread::StatusWriter;
pub use threads::{OwnThreads, ReadPaths, another};
pub use usage_files::added_up;
pub use watched_file::watched;
