//! The way of a listing to the client.

/// The way of the lines to the client.
#[derive(Clone, Copy, Debug, PartialEq, Eq)]
pub(crate) enum Way {
    OverData,
    InReply,
}
