//! Asks of transfers, and the names that they count under.

/// The direction of a transfer.
#[derive(Clone, Copy, Debug, PartialEq, Eq, PartialOrd, Ord)]
pub enum Way {
    /// To the client: a download.
    Down,
    /// From the client: an upload.
    Up,
}

/// The ask of a transfer of a user's session in a tick.
#[derive(Clone, Copy, Debug, PartialEq, Eq)]
pub struct Ask {
    /// The number of the user.
    pub user: u32,
    /// The number of the session among those of the user.
    pub session: u32,
    /// The direction of the octets.
    pub way: Way,
    /// The octets that it could move.
    pub want: u64,
}

/// A name under which octets are counted and limited. An ask counts under the server, its way, its user's group,
/// its user and its session.
#[derive(Clone, Copy, Debug, PartialEq, Eq, PartialOrd, Ord)]
pub enum Name {
    /// All octets.
    Server,
    /// All octets of one way.
    Direction(Way),
    /// The octets of one way for the users of a group.
    Group(Way, u32),
    /// The octets of one way for a user.
    User(Way, u32),
    /// The octets of one way for a session of a user.
    Session(Way, u32, u32),
}
