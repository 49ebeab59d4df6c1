//! The endings of the program.

ghost use Rattle.std.specs.Prelude.{◌≡◌};
ghost use Rattle.ftpd_program.specs.Endings.{status_of};

use crate::against::RUNNING_FILE;
use crate::server::ServeFault;
use crate::start::StartFault;
use script_session::SessionFault;
use server_config::ConfigFault;
use server_status::StatusFault;
use sheets_program::{ErrorText, Exit as Common};
use std::{fmt, io};
use text_io::TextFault;

const NAME: &str = "ftpd";

const NO_RUNNING: &str = "a server with `--running-file` writes this file";

const FOLDER_FOR_SCRIPT: &str = "[server]: root: `script` serves no folder, but `memory` alone";

/// The ending of a run of the program.
#[derive(Debug, Drop)]
pub enum FtpdExit<'w> {
    /// An ending that any command may have.
    Common(Common<'w>),
    /// The configuration of the file of this path is refused.
    Config {
        file: &'w str,
        fault: ConfigFault,
    },
    /// The configuration of the file of this path is refused, which is one of two.
    ConfigOf {
        file: &'w str,
        fault: ConfigFault,
    },
    /// A server would not take the configuration while it runs: the report says why.
    NoReload,
    /// Transfers are refused: the name of the fault, and what is wrong with them.
    Transfers {
        name: &'static str,
        reported: String,
    },
    /// A folder is configured, but the store has to be in memory; or the control session broke off.
    Session(SessionFault),
    /// The server did not start, or did not end as its configuration says.
    Server(ServeFault),
    /// The file of this path has no status of a server.
    Status {
        file: &'w str,
        fault: StatusFault,
    },
    /// The transfers of the status file of this path are shown, in that number of lines, and are to be shown again and
    /// again.
    Watches {
        status: &'w str,
        rows: u16,
    },
    /// The transfer logs that the words name are to be added up.
    AddsUp,
}

impl<'w> FtpdExit<'w> {
    /// The status: 0 for work that is done, 1 for a fault, 2 for a refused command line, 3 for grants with a flaw.
    pub fn status(&self) -> u8
        ensures status { result ≡ status_of self.now }
    {
        match self {
            FtpdExit::Common(ending) => ending.status(),
            FtpdExit::Watches { .. } | FtpdExit::AddsUp => 0,
            FtpdExit::Config { .. }
            | FtpdExit::ConfigOf { .. }
            | FtpdExit::NoReload
            | FtpdExit::Transfers { .. }
            | FtpdExit::Session(_)
            | FtpdExit::Status { .. }
            | FtpdExit::Server(_) => 1,
        }
    }
}

/// Returns whether a command ends for want of the file of a server's configuration.
fn lacks_running(ending: &Common<'_>) -> bool {
    match ending {
        Common::Text(TextFault::ReadFault, cause) => cause.file == Some(RUNNING_FILE),
        _ => false,
    }
}

/// An ending as printed on standard error: the name of the fault in the last line, and details above it.
#[derive(Clone, Copy)]
pub struct FtpdErrorText<'e, 'w> {
    pub ending: &'e FtpdExit<'w>,
    /// The last error of standard output, if there was one.
    pub output: Option<io::Error>,
    /// The reason for which a server did not start, if it is known.
    pub start: Option<&'e StartFault>,
}

impl fmt::Display for FtpdErrorText<'_, '_> {
    fn fmt<W: fmt::Write>(&self, f: &mut fmt::Formatter<W>) -> fmt::Result {
        match self.ending {
            FtpdExit::Common(ending) => {
                if lacks_running(ending) {
                    writeln!(f, "{RUNNING_FILE}: {NO_RUNNING}")?;
                }
                let reported = ErrorText {
                    name: NAME,
                    ending,
                    output: self.output,
                };
                write!(f, "{reported}")
            }
            FtpdExit::Config { file, fault } | FtpdExit::ConfigOf { file, fault } => {
                writeln!(f, "{file}: {fault}")?;
                writeln!(f, "{NAME}: {}", fault.name())
            }
            FtpdExit::NoReload => writeln!(f, "{NAME}: NoReload"),
            FtpdExit::Transfers { name, reported } => {
                writeln!(f, "{reported}")?;
                writeln!(f, "{NAME}: {name}")
            }
            FtpdExit::Session(fault) => {
                if *fault == SessionFault::Folder {
                    writeln!(f, "{FOLDER_FOR_SCRIPT}")?;
                }
                writeln!(f, "{NAME}: {fault}")
            }
            FtpdExit::Server(fault) => {
                if let Some(start) = self.start {
                    writeln!(f, "{start}")?;
                }
                writeln!(f, "{NAME}: {fault}")
            }
            FtpdExit::Status { file, fault } => {
                writeln!(f, "{file}: this is no status of a server: {fault}")?;
                writeln!(f, "{NAME}: NoStatus")
            }
            FtpdExit::Watches { .. } | FtpdExit::AddsUp => Ok(()),
        }
    }
}
