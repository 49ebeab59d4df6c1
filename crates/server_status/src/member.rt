//! The members of a status, with the kinds of their values.

/// The values that a member may have.
#[derive(Clone, Copy, Debug, PartialEq, Eq)]
pub(crate) enum Kind {
    /// A whole number from 0 to 2^64 - 1.
    Number,
    /// A number, or null.
    NumberOrNull,
    Text,
    /// A text, or null.
    TextOrNull,
    Flag,
    /// `down` or `up`.
    Direction,
    /// `sessions` or `users`.
    Sharers,
    /// Four numbers from 0 to 255, joined by dots.
    Address,
    /// `octets`.
    Unit,
    List,
}

/// A member: its name in a fault, the name of the object within the record that has it, if it is not the record itself,
/// its name there, and the kind of its value.
#[derive(Clone, Copy, Debug)]
pub(crate) struct Member(
    pub &'static str,
    pub Option<&'static str>,
    pub &'static str,
    pub Kind,
);

/// The version, which is judged before all others.
pub(crate) static VERSION: [Member; 1] = [Member("version", None, "version", Kind::Number)];

/// The members of a status.
pub(crate) static STATUS: [Member; 41] = [
    Member("unit", None, "unit", Kind::Unit),
    Member("started", None, "started", Kind::Number),
    Member("micros", None, "micros", Kind::Number),
    Member("users", None, "users", Kind::Number),
    Member("sessions", None, "sessions", Kind::Number),
    Member("max_sessions", None, "max_sessions", Kind::Number),
    Member("lanes", None, "lanes", Kind::Number),
    Member("failed_logins", None, "failed_logins", Kind::Number),
    Member("refused", None, "refused", Kind::Number),
    Member("waits", None, "waits", Kind::Number),
    Member("issued", None, "issued", Kind::Number),
    Member("ended_granted", None, "ended_granted", Kind::Number),
    Member("ended_moved", None, "ended_moved", Kind::Number),
    Member("ended", None, "ended", Kind::Number),
    Member("line.both", Some("line"), "both", Kind::NumberOrNull),
    Member("line.down", Some("line"), "down", Kind::NumberOrNull),
    Member("line.up", Some("line"), "up", Kind::NumberOrNull),
    Member("shared_among", None, "shared_among", Kind::Sharers),
    Member("held.server", Some("held"), "server", Kind::Number),
    Member("held.direction", Some("held"), "direction", Kind::Number),
    Member("held.group", Some("held"), "group", Kind::Number),
    Member("held.user", Some("held"), "user", Kind::Number),
    Member("held.session", Some("held"), "session", Kind::Number),
    Member("held.nothing", Some("held"), "nothing", Kind::Number),
    Member(
        "guaranteed_down",
        None,
        "guaranteed_down",
        Kind::NumberOrNull,
    ),
    Member("guaranteed_up", None, "guaranteed_up", Kind::NumberOrNull),
    Member("logins", None, "logins", Kind::Number),
    Member("refused_logins", None, "refused_logins", Kind::Number),
    Member(
        "refused_guarantees",
        None,
        "refused_guarantees",
        Kind::Number,
    ),
    Member("lost_lines", None, "lost_lines", Kind::Number),
    Member("endings.whole", Some("endings"), "whole", Kind::Number),
    Member("endings.aborted", Some("endings"), "aborted", Kind::Number),
    Member(
        "endings.unconnected",
        Some("endings"),
        "unconnected",
        Kind::Number,
    ),
    Member("endings.lost", Some("endings"), "lost", Kind::Number),
    Member("endings.file", Some("endings"), "file", Kind::Number),
    Member("endings.memory", Some("endings"), "memory", Kind::Number),
    Member("endings.owner", Some("endings"), "owner", Kind::Number),
    Member("groups", None, "groups", Kind::List),
    Member("transfers", None, "transfers", Kind::List),
    Member("sessions_now", None, "sessions_now", Kind::List),
    Member("accounts", None, "accounts", Kind::List),
];

/// The members of a group.
pub(crate) static GROUP: [Member; 5] = [
    Member("groups[].name", None, "name", Kind::Text),
    Member("groups[].down", None, "down", Kind::NumberOrNull),
    Member("groups[].up", None, "up", Kind::NumberOrNull),
    Member(
        "groups[].guaranteed_down",
        None,
        "guaranteed_down",
        Kind::NumberOrNull,
    ),
    Member(
        "groups[].guaranteed_up",
        None,
        "guaranteed_up",
        Kind::NumberOrNull,
    ),
];

/// The members of a session.
pub(crate) static SESSION: [Member; 8] = [
    Member("sessions_now[].session", None, "session", Kind::Number),
    Member("sessions_now[].user", None, "user", Kind::TextOrNull),
    Member("sessions_now[].group", None, "group", Kind::TextOrNull),
    Member("sessions_now[].peer", None, "peer", Kind::Address),
    Member("sessions_now[].begun", None, "begun", Kind::Number),
    Member("sessions_now[].active", None, "active", Kind::Number),
    Member(
        "sessions_now[].guaranteed_down",
        None,
        "guaranteed_down",
        Kind::NumberOrNull,
    ),
    Member(
        "sessions_now[].guaranteed_up",
        None,
        "guaranteed_up",
        Kind::NumberOrNull,
    ),
];

/// The members of an account.
pub(crate) static ACCOUNT: [Member; 6] = [
    Member("accounts[].user", None, "user", Kind::Text),
    Member("accounts[].group", None, "group", Kind::TextOrNull),
    Member(
        "accounts[].granted_down",
        None,
        "granted_down",
        Kind::Number,
    ),
    Member("accounts[].granted_up", None, "granted_up", Kind::Number),
    Member("accounts[].unmet_down", None, "unmet_down", Kind::Number),
    Member("accounts[].unmet_up", None, "unmet_up", Kind::Number),
];

/// The members of a transfer.
pub(crate) static TRANSFER: [Member; 20] = [
    Member("transfers[].session", None, "session", Kind::Number),
    Member("transfers[].user", None, "user", Kind::Text),
    Member("transfers[].group", None, "group", Kind::TextOrNull),
    Member("transfers[].peer", None, "peer", Kind::Address),
    Member("transfers[].direction", None, "direction", Kind::Direction),
    Member("transfers[].path", None, "path", Kind::TextOrNull),
    Member("transfers[].size", None, "size", Kind::NumberOrNull),
    Member("transfers[].begun", None, "begun", Kind::Number),
    Member("transfers[].waiting", None, "waiting", Kind::Flag),
    Member("transfers[].granted", None, "granted", Kind::Number),
    Member("transfers[].moved", None, "moved", Kind::Number),
    Member(
        "transfers[].held.server",
        Some("held"),
        "server",
        Kind::Number,
    ),
    Member(
        "transfers[].held.direction",
        Some("held"),
        "direction",
        Kind::Number,
    ),
    Member(
        "transfers[].held.group",
        Some("held"),
        "group",
        Kind::Number,
    ),
    Member("transfers[].held.user", Some("held"), "user", Kind::Number),
    Member(
        "transfers[].held.session",
        Some("held"),
        "session",
        Kind::Number,
    ),
    Member(
        "transfers[].held.nothing",
        Some("held"),
        "nothing",
        Kind::Number,
    ),
    Member(
        "transfers[].guaranteed",
        None,
        "guaranteed",
        Kind::NumberOrNull,
    ),
    Member(
        "transfers[].session_rate",
        None,
        "session_rate",
        Kind::NumberOrNull,
    ),
    Member(
        "transfers[].user_rate",
        None,
        "user_rate",
        Kind::NumberOrNull,
    ),
];
