//! The records of a status.

/// Octets per second of a limit; 0 for none.
pub type Rate = u64;

/// Numbers of rounds, by what held a transfer back in them.
#[derive(Clone, Copy, Debug, PartialEq, Eq)]
pub struct HeldRounds {
    /// Its bottleneck was the limit of the server.
    pub server: u64,
    /// That of its direction.
    pub direction: u64,
    /// That of its user's group.
    pub group: u64,
    /// That of its user.
    pub user: u64,
    /// That of its session.
    pub session: u64,
    /// Nothing: it was granted all it asked for.
    pub nothing: u64,
}

/// Numbers of transfers that have ended, by how they did.
#[derive(Clone, Copy, Debug, PartialEq, Eq)]
pub struct EndCounts {
    /// They came to their end.
    pub whole: u64,
    /// The client aborted them.
    pub aborted: u64,
    /// No data connection was opened.
    pub unconnected: u64,
    /// The data connection failed, or the control connection was lost.
    pub lost: u64,
    /// The file could not be read or written, or the store refused it.
    pub file: u64,
    /// Memory ran out.
    pub memory: u64,
    /// The owner ended the server, or the session.
    pub owner: u64,
}

/// The direction of a transfer.
#[derive(Clone, Copy, Debug, PartialEq, Eq)]
pub enum Direction {
    /// To the client.
    Down,
    /// From the client.
    Up,
}

/// Among whom is shared what guarantees and limits leave over.
#[derive(Clone, Copy, Debug, PartialEq, Eq)]
pub enum SharedAmong {
    /// Among the sessions that transfer.
    Sessions,
    /// Among the users first, and then among the sessions of each.
    Users,
}

/// The rates of the whole line.
#[derive(Clone, Copy, Debug, PartialEq, Eq)]
pub struct LineRates {
    pub both: Rate,
    pub down: Rate,
    pub up: Rate,
}

/// A group of users, with its rates.
#[derive(Drop)]
pub struct GroupStatus {
    pub name: String,
    pub down: Rate,
    pub up: Rate,
    /// Guarantees of the sessions of its users together; 0 for none.
    pub guaranteed_down: Rate,
    pub guaranteed_up: Rate,
}

/// A session, whether or not it transfers something.
#[derive(Drop)]
pub struct SessionStatus {
    /// Its number.
    pub session: u64,
    /// The user who is logged in, if any.
    pub user: Option<String>,
    /// The group of the user, if any.
    pub group: Option<String>,
    /// The address of the client.
    pub peer: [u8; 4],
    /// The moment at which the client connected, in microseconds after the start of the server.
    pub begun: u64,
    /// The moment at which it was last known to do something; that of the status while it transfers.
    pub active: u64,
    /// Its guarantees; 0 for none.
    pub guaranteed_down: Rate,
    pub guaranteed_up: Rate,
}

/// Octets granted to the transfers of a user since the start, and for how long guarantees were not met.
#[derive(Drop)]
pub struct AccountStatus {
    pub user: String,
    /// The group of the user, if any.
    pub group: Option<String>,
    /// The octets granted to them, as far as is known of those that have ended.
    pub granted_down: u64,
    pub granted_up: u64,
    /// The time in which one of them got less than nine tenths of its guarantee while a limit held it back, in microseconds.
    pub unmet_down: u64,
    pub unmet_up: u64,
}

/// A transfer that waits for a lane or runs.
#[derive(Drop)]
pub struct TransferStatus {
    /// The number of its session.
    pub session: u64,
    /// The user.
    pub user: String,
    /// The group of the user, if any.
    pub group: Option<String>,
    /// The address of the client.
    pub peer: [u8; 4],
    pub direction: Direction,
    /// The path of the file below the root of the server; none for a listing.
    pub path: Option<String>,
    /// The octets of the whole transfer, if they are known.
    pub size: Option<u64>,
    /// The moment at which it began, in microseconds after the start of the server.
    pub begun: u64,
    /// Returns whether it still waits for a lane.
    pub is_waiting: bool,
    /// The octets that rounds have granted to it.
    pub granted: u64,
    /// The octets that it has moved.
    pub moved: u64,
    /// The rounds in which it asked.
    pub rounds: HeldRounds,
    /// The guarantee of its session in its direction; 0 for none.
    pub guaranteed: Rate,
    /// The rate of its session in its direction.
    pub session_rate: Rate,
    /// The rate of its user in its direction.
    pub user_rate: Rate,
}

/// The status of a server at a moment.
#[derive(Drop)]
pub struct Status {
    /// The start of the server, in seconds since 1970.
    pub started: u64,
    /// The moment, in microseconds after the start.
    pub micros: u64,
    pub line: LineRates,
    /// Among whom the line is shared.
    pub shared_among: SharedAmong,
    /// Guarantees of all sessions together; 0 for none.
    pub guaranteed_down: Rate,
    pub guaranteed_up: Rate,
    pub groups: Vec<GroupStatus>,
    /// Number of users of the configuration.
    pub users: u64,
    /// Number of connected clients, and the most that may be.
    pub sessions: u64,
    pub max_sessions: u64,
    /// Number of lanes.
    pub lanes: u64,
    /// The octets that rounds have granted so far, in all.
    pub issued: u64,
    /// Of these the octets of transfers that have ended: granted to them, and moved by them.
    pub ended_granted: u64,
    pub ended_moved: u64,
    /// Number of transfers that have ended, and by how they did.
    pub ended: u64,
    pub endings: EndCounts,
    /// The rounds of all transfers, those that have ended included.
    pub rounds: HeldRounds,
    /// Number of logins, of wrong passwords, of logins that were refused for the number of sessions of their user, of those
    /// that were refused for a guarantee, and of refused connections.
    pub logins: u64,
    pub failed_logins: u64,
    pub refused_logins: u64,
    pub refused_guarantees: u64,
    pub refused: u64,
    /// Lines of the notes and of the transfer log that were dropped.
    pub lost_lines: u64,
    /// Number of calls of the machine that the end of the server waits for, as it was told last: each ten seconds while the
    /// server ends. 0 while it does not end.
    pub waits: u64,
    /// The transfers that wait for a lane or run, by the number of their session.
    pub transfers: Vec<TransferStatus>,
    /// The sessions, by their numbers.
    pub sessions_now: Vec<SessionStatus>,
    /// The accounts of users who have begun a transfer.
    pub accounts: Vec<AccountStatus>,
}
