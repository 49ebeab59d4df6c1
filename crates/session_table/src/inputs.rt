//! The inputs of a session.

use ftp_wire::LineItem;
use std::alloc::Allocator;

/// The end of a transfer.
#[derive(Clone, Copy, Debug, PartialEq, Eq)]
pub enum End {
    Done,
    /// The data connection was lost.
    Lost,
    /// The store's device reported an error.
    Local,
    Full,
    /// No data connection came, or no worker was free.
    NoConnection,
    NoMemory,
    /// It was aborted.
    Aborted,
}

/// An input of a session, with a store's sinks `K`.
#[derive(Drop)]
pub enum Input<A: Allocator, K> {
    /// A line as it was read.
    Line(LineItem<A>),
    /// A held line may be taken.
    Held,
    /// The transfer ended; a sink comes back.
    TransferEnded { end: End, sink: Option<K> },
    /// The passive port, if one was free.
    DataReady(Option<u16>),
    /// The control connection is gone.
    Closed,
}
