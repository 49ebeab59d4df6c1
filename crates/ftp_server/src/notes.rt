//! Notes on standard error.

use line_queue::LogForm;
use log::sink::Console;
use log::{Level, Logged};
use session_notes::{Notes, TransferLog};
use transfer_log::FileTransfer;

/// No transfer log: the lines of files that were sent or received are notes alone.
///
/// ```text
/// let notes: StandardErrorNotes = notes_on_standard_error(&rt); // a handler without a transfer log
/// ```
#[derive(Drop)]
pub struct NoTransferLog;

impl TransferLog for NoTransferLog {
    fn append(&self, _transfer: &FileTransfer<'_>) {}
}

/// A handler that writes a note of each event to standard error, one line each, in the form of those of `ftpd serve`.
///
/// ```text
/// struct Mine { notes: StandardErrorNotes, received: u64 }
/// ```
pub type StandardErrorNotes = Notes<Logged<HostRuntime, Console<HostRuntime>>, NoTransferLog>;

/// Notes of all events on standard error. A session waits until its line is written: a reader of standard error that stops
/// to read stops the server.
///
/// ```text
/// server.serve_folder(&rt, &rt, "/srv/ftp", notes_on_standard_error(&rt))?;
/// ```
pub fn notes_on_standard_error(rt: &HostRuntime) -> StandardErrorNotes {
    let log = Logged::new(*rt, Level::Info, Console(*rt));
    Notes::new(log, LogForm::Plain, NoTransferLog)
}
