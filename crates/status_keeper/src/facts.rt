//! The parts of a status, beside a look.

use line_rates::Limits;
use round_tally::HeldTally;
use server_house::TransferKind;
use server_status::EndCounts;

/// A group that a configuration has.
#[derive(Drop)]
pub struct StatedGroup {
    pub name: String,
    /// The number by which rates identify it.
    pub number: u32,
}

/// A user that a configuration has.
#[derive(Drop)]
pub struct StatedUser {
    pub name: String,
    /// The number by which rounds identify them.
    pub number: u32,
}

/// The facts of a configuration, and of the start of a server, that a status has.
#[derive(Drop)]
pub struct StatusFacts {
    /// The limits of the line, of its groups and of its users.
    pub limits: Limits,
    /// The groups of the configuration.
    pub stated: Vec<StatedGroup>,
    /// The names of all groups by their numbers, those that the configuration has no longer too: a session of a user whom a
    /// reload removed goes on under the limits of their group.
    pub groups: Vec<String>,
    /// The users of the configuration.
    pub names: Vec<StatedUser>,
    /// Number of users.
    pub users: u64,
    /// Number of lanes.
    pub lanes: u64,
    /// Most clients at once.
    pub max_sessions: u64,
    /// The start of the server, in seconds since 1970.
    pub started: u64,
    /// The moment of the start, in microseconds.
    pub zero: u64,
}

/// A transfer that a session has begun and that has not ended.
#[derive(Drop)]
pub struct KeptTransfer {
    /// The number of the session, and that of its connection.
    pub session: u64,
    pub connection: u64,
    /// The user, and the number by which rounds identify them.
    pub user: String,
    pub number: u32,
    /// The address of the client.
    pub peer: [u8; 4],
    pub kind: TransferKind,
    /// The path of the file; none for a listing, or if there was no memory for it.
    pub path: Option<String>,
    /// The octets of the file that is sent, if they are known.
    pub size: Option<u64>,
    /// The moment at which it began, in microseconds.
    pub since: u64,
    /// The octets granted to it, and the rounds that granted them, at the last look.
    pub granted: u64,
    pub rounds: HeldTally,
    /// The moment of that look, or of its begin, in microseconds.
    pub looked: u64,
    /// The time in which it got less than nine tenths of its guarantee while a limit held it back, in microseconds.
    pub unmet: u64,
}

/// A client that is connected.
#[derive(Drop)]
pub struct KeptSession {
    /// The number of the session, and that of its connection.
    pub session: u64,
    pub connection: u64,
    /// The user who is logged in, if any, and the number by which rounds identify them, if the configuration has them.
    pub user: Option<String>,
    pub number: Option<u32>,
    /// The address of the client.
    pub peer: [u8; 4],
    /// The moments at which it connected, and of what it did last, in microseconds.
    pub since: u64,
    pub active: u64,
}

/// A user who has begun a transfer since the start, with what those got that have ended.
#[derive(Drop)]
pub struct KeptAccount {
    pub user: String,
    pub number: u32,
    /// The octets granted to transfers that have ended: those that they moved, or those granted at the last look, if these
    /// are more.
    pub granted_down: u64,
    pub granted_up: u64,
    /// The time in which a transfer got less than nine tenths of its guarantee while a limit held it back, in microseconds.
    pub unmet_down: u64,
    pub unmet_up: u64,
}

/// Counts of events since the start.
#[derive(Clone, Copy, Debug, PartialEq, Eq)]
pub struct Counts {
    /// Transfers that have ended, and the octets that they have moved.
    pub ended: u64,
    pub ended_moved: u64,
    /// The same by how they ended.
    pub endings: EndCounts,
    /// Logins, and wrong passwords.
    pub logins: u64,
    pub failed_logins: u64,
    /// Logins that were refused since their user has as many sessions as one user may have, and for a guarantee.
    pub refused_logins: u64,
    pub refused_guarantees: u64,
    /// Clients that were not served.
    pub refused: u64,
    /// Calls of the machine that the end waits for, as it was told last.
    pub waits: u64,
    /// Lines of the notes and of the transfer log that were dropped.
    pub lost_lines: u64,
}

impl Counts {
    /// Nothing yet.
    pub const NONE: Counts = Counts {
        ended: 0,
        ended_moved: 0,
        endings: EndCounts {
            whole: 0,
            aborted: 0,
            unconnected: 0,
            lost: 0,
            file: 0,
            memory: 0,
            owner: 0,
        },
        logins: 0,
        failed_logins: 0,
        refused_logins: 0,
        refused_guarantees: 0,
        refused: 0,
        waits: 0,
        lost_lines: 0,
    };
}
