//! Reasons for the ends of transfers.

use std::io;

/// The reason for which a transfer did not come to its end.
#[derive(Clone, Copy)]
pub enum EndCause {
    /// The client aborted it.
    Aborted,
    /// The client had neither opened a port nor named one.
    NothingPrepared,
    /// Nobody connected to the passive port in time.
    NoClient,
    /// A connection to the passive port could not be accepted: the machine's error of the last look.
    NotAccepted(io::Error),
    /// The client's port could not be connected to.
    NotConnected(io::Error),
    /// Memory ran out.
    NoMemory,
    /// The file could not be read or written.
    File,
    /// All octets of the upload came, and the store refused the file at its end.
    Refused,
    /// The data connection failed, with the error of its last failing call, if one is known.
    Connection(Option<io::Error>),
    /// The control connection was lost.
    ControlLost,
    /// The server ends.
    ServerEnds,
    /// The owner of the server ended the session.
    SessionEnded,
}
