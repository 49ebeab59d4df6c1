//! The stage of a session, and its work in progress.

/// The stage of a login.
#[derive(Clone, Copy, Debug, PartialEq, Eq)]
pub enum Stage {
    /// Nobody is named.
    Greeted,
    /// A name was given by USER.
    Named,
    /// A user is logged in.
    Inside,
    /// The control connection is gone.
    Closed,
}

/// The state of the control connection.
#[derive(Clone, Copy, Debug, PartialEq, Eq)]
pub enum Control {
    /// Lines are served.
    Open,
    /// A QUIT waits for the end of the work in progress.
    Quitting,
    /// The connection is to be closed: lines are ignored.
    Closing,
}

/// The command that awaits a passive port. It decides the form of the reply.
#[derive(Clone, Copy, Debug, PartialEq, Eq)]
pub enum Passive {
    /// PASV (RFC 959, section 4.1.2).
    Plain,
    /// EPSV (RFC 2428, section 3).
    Extended,
}

/// The content of a transfer; a file by the user's path, a `P`.
#[derive(Drop)]
pub enum TransferContent<P> {
    Listing,
    Sending(P),
    Taking(P),
}

/// The work in progress of a session.
#[derive(Drop)]
pub enum Work<P> {
    Idle,
    /// A passive port is awaited.
    AwaitsPort(Passive),
    /// A transfer runs.
    Transfers(TransferContent<P>),
    /// A transfer was aborted, and its end is awaited.
    Aborted(TransferContent<P>),
}
