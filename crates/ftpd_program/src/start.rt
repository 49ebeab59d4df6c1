//! The reason for which a server did not start, in the machine's words.

use crate::session_limit::MOST_USER_SESSIONS;
use config_report::is_nearly_memory;
use std::{fmt, io};

/// Something that a server could not have at its start. It prints as the line above the name of its
/// [`crate::ServeFault`]; paths are those of the command line and of the configuration. The reason for `Bind` is noted by
/// the server itself.
#[derive(Debug, Drop)]
pub enum StartFault {
    /// The folder of this path cannot be served (`Store`).
    Folder { path: String, reason: io::Error },
    /// There is something at the path of the stop file (`Stopped`).
    StopFileThere { path: String },
    /// The stop file of this path could not be noticed, because its folder is not there, or is closed (`Stopped`).
    StopFileUnseen { path: String, reason: io::Error },
    /// There is something at the path of the drain file (`Stopped`).
    DrainFileThere { path: String },
    /// The drain file of this path could not be noticed, because its folder is not there, or is closed (`Stopped`).
    DrainFileUnseen { path: String, reason: io::Error },
    /// There is something at the path of the reload file (`ReloadFile`).
    ReloadFileThere { path: String },
    /// The reload file of this path could not be noticed, because its folder is not there, or is closed (`ReloadFile`).
    ReloadFileUnseen { path: String, reason: io::Error },
    /// There is something at the path of the end file (`EndFile`).
    EndFileThere { path: String },
    /// There is to be a reload file, and the configuration is standard input (`ReloadFile`).
    InputAgain,
    /// The end file of this path could not be noticed, because its folder is not there, or is closed (`EndFile`).
    EndFileUnseen { path: String, reason: io::Error },
    /// There is something at the path of the ready file (`ReadyFile`).
    ReadyFileThere { path: String },
    /// The ready file of this path could not be made (`ReadyFile`).
    ReadyFileUnmade { path: String, reason: io::Error },
    /// This path is that of another file too, which is stated (`OnePath`).
    OnePath { path: String },
    /// There is something at this path that is no transfer log (`TransferLog`).
    NoTransferLog { path: String },
    /// There is something at the path of the status file that is no status (`StatusFile`).
    NoStatus { path: String },
    /// The transfer log of this path cannot be opened (`TransferLog`).
    TransferLogUnopened { path: String, reason: io::Error },
    /// The status file of this path cannot be written (`StatusFile`).
    StatusUnwritten { path: String, reason: io::Error },
    /// This port of 127.0.0.1 cannot be listened on (`StatusPort`).
    StatusPortTaken { port: u16, reason: io::Error },
    /// This is no number of sessions (`UserSessions`).
    NoSessions { word: String },
    /// A time for draining is stated, and no drain file (`DrainSeconds`).
    NothingDrains,
    /// No form of notes has this name (`LogForm`).
    UnknownForm { word: String },
}

impl fmt::Display for StartFault {
    fn fmt<W: fmt::Write>(&self, f: &mut fmt::Formatter<W>) -> fmt::Result {
        match self {
            StartFault::Folder { path, reason } => {
                write!(f, "{path}: {reason}")?;
                if is_nearly_memory(path.as_str()) {
                    f.write_str("; the word for a store in memory is memory")?;
                }
                Ok(())
            }
            StartFault::StopFileThere { path }
            | StartFault::DrainFileThere { path }
            | StartFault::ReloadFileThere { path }
            | StartFault::EndFileThere { path }
            | StartFault::ReadyFileThere { path } => {
                write!(f, "{path} is there already: remove it")
            }
            StartFault::StopFileUnseen { path, reason } => {
                write!(f, "the stop file {path} could not be noticed: {reason}")
            }
            StartFault::DrainFileUnseen { path, reason } => {
                write!(f, "the drain file {path} could not be noticed: {reason}")
            }
            StartFault::ReloadFileUnseen { path, reason } => {
                write!(f, "the reload file {path} could not be noticed: {reason}")
            }
            StartFault::EndFileUnseen { path, reason } => {
                write!(f, "the end file {path} could not be noticed: {reason}")
            }
            StartFault::ReadyFileUnmade { path, reason } => {
                write!(f, "the ready file {path} could not be made: {reason}")
            }
            StartFault::OnePath { path } => {
                write!(
                    f,
                    "{path} is stated for two files: state a path of its own for each"
                )
            }
            StartFault::NoTransferLog { path } => {
                write!(
                    f,
                    "{path} is no transfer log: move it away, or state another path"
                )
            }
            StartFault::NoStatus { path } => {
                write!(
                    f,
                    "{path} is no status of a server: move it away, or state another path"
                )
            }
            StartFault::TransferLogUnopened { path, reason } => {
                write!(f, "the transfer log {path} could not be opened: {reason}")
            }
            StartFault::StatusUnwritten { path, reason } => {
                write!(f, "the status file {path} could not be written: {reason}")
            }
            StartFault::StatusPortTaken { port, reason } => {
                write!(
                    f,
                    "the status page cannot listen on 127.0.0.1:{port}: {reason}"
                )
            }
            StartFault::NoSessions { word } => {
                write!(
                    f,
                    "{word:?} is no number of sessions: it must be one from 0 to {MOST_USER_SESSIONS}, in digits"
                )
            }
            StartFault::NothingDrains => f.write_str(
                "--drain-seconds has no effect without --drain-file: state one, or leave it out",
            ),
            StartFault::InputAgain => f.write_str(
                "--reload-file has no effect with a configuration from standard input, which is read once: state a file, or leave it out",
            ),
            StartFault::UnknownForm { word } => {
                write!(f, "{word:?} is no form of notes: plain and journal are")
            }
        }
    }
}
