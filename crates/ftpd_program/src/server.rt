//! The server that `serve` runs, as a trait: its calls and their results.

ghost use Rattle.std.specs.Prelude.{option_map};
ghost use Rattle.ftpd_program.specs.Serving.{Service};

use command_line::{Patience, ServeFiles};
use server_config::Config;
use std::alloc::{AllocError, Global};
use text_io::TextWriter;
use thiserror::Error;

/// The reason for which a server did not start, or did not end as its configuration says. It prints as its name.
#[derive(Clone, Copy, Debug, PartialEq, Eq, Error)]
pub enum ServeFault {
    /// The server cannot listen on the control port.
    #[error("Bind")]
    Bind,
    /// A thread could not be started.
    #[error("NoThread")]
    NoThread,
    /// The output could not be written.
    #[error("WriteFault")]
    WriteFault,
    /// The store cannot be opened: the folder is not there, or the machine reports an error.
    #[error("Store")]
    Store,
    /// Memory ran out.
    #[error("Memory")]
    Memory,
    /// The stop file, or the drain file, was there at the start, or could never be noticed: its folder is not there.
    #[error("Stopped")]
    Stopped,
    /// The ready file could not be made: it is there already, or the machine reports an error.
    #[error("ReadyFile")]
    ReadyFile,
    /// The reload file was there at the start, or could never be noticed; or the configuration is standard input, which
    /// cannot be read again.
    #[error("ReloadFile")]
    ReloadFile,
    /// The end file was there at the start, or could never be noticed.
    #[error("EndFile")]
    EndFile,
    /// The number of sessions that is stated is none.
    #[error("UserSessions")]
    UserSessions,
    /// A time for draining is stated, and no drain file.
    #[error("DrainSeconds")]
    DrainSeconds,
    /// Two of the paths that are stated are those of one file.
    #[error("OnePath")]
    OnePath,
    /// The file of the transfer log cannot be opened, or is none; or lines of it were lost at the end.
    #[error("TransferLog")]
    TransferLog,
    /// No form of notes has the name that is stated.
    #[error("LogForm")]
    LogForm,
    /// The status file cannot be written, or what is at its path is no status.
    #[error("StatusFile")]
    StatusFile,
    /// The port of the status page cannot be listened on.
    #[error("StatusPort")]
    StatusPort,
}

impl From<AllocError> for ServeFault {
    ghost use Rattle.std.specs.Prelude.{◌≡◌};
    ghost use Rattle.ftpd_program.specs.declared.server.ServeFault.TheVariants.{Memory};

    ghost from_gives = { λ _ fault. fault ≡ Memory };

    fn from(_error: AllocError) -> ServeFault {
        ServeFault::Memory
    }
}

/// A configuration that was read from a file.
#[derive(Drop)]
pub struct ReadConfig<'a> {
    /// The path of the file.
    pub path: &'a str,
    pub config: Config,
    /// The texts of its warnings, a line each.
    pub warnings: &'a str,
    /// The octets of the file.
    pub octets: &'a [u8],
}

/// A server of clients. It writes a message to an output when it is ready, and the settled counts at its end.
pub trait Server<W: TextWriter> {
    /// The possible calls: the configuration, the texts of its warnings, the stop file, the ready file, the patience,
    /// the contents of the output before and after, and the result.
    ghost Serves: { Service } = { λ _ _ _ _ _ _ _ _. Unit {0} };

    /// Serves clients by a configuration, until it has had its number of sessions, or until a file exists at the path
    /// of the stop file; or drains once there is one at that of the drain file. The ready file is made once clients may connect, and removed at the end. It waits for a client
    /// as the patience says. The warnings of the configuration, a line each, are to be noted.
    fn serve(
        &mut self,
        alloc: Global,
        read: ReadConfig<'_>,
        files: ServeFiles<'_>,
        patience: Patience,
        output: &mut W,
    ) -> Result<(), ServeFault>
        ensures served { Serves read.entry.config read.entry.warnings.now
            (option_map (λ w. w.now) files.entry.stop_file)
            (option_map (λ w. w.now) files.entry.ready_file) patience
            (W.contents output.old) (W.contents output.new) result };
}
