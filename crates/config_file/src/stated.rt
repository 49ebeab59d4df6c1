//! The tables of a file.

ghost use Rattle.std.specs.Prelude.{◌≤◌};
ghost use Rattle.config_file.specs.declared.stated.TheConstants.{MAX_RATE};
ghost use Rattle.ftp_terms.specs.Lines.{IsLine};
ghost use Rattle.ftp_terms.specs.declared.entries.TheConstants.{LATEST};

use std::net::Ipv4Addr;
use toml::{Table, Value};

/// Maximum of a rate, in octets per second, and of a capacity, in octets.
pub const MAX_RATE: u64 = 1_099_511_627_776;

/// Maximum number of sessions after which a server ends.
pub const MAX_SESSIONS: u64 = 4_294_967_296;

/// The keys at the top, with the tables unread.
#[derive(Clone, Copy)]
pub(crate) struct Top<'a> {
    pub(crate) version: u64,
    pub(crate) server: &'a Table,
    pub(crate) groups: &'a [Value],
    pub(crate) users: &'a [Value],
    pub(crate) dirs: &'a [Value],
    pub(crate) files: &'a [Value],
}

/// The keys of `[server]`.
#[derive(Clone, Copy, Debug)]
pub struct ServerTable<'a> {
    /// The address on which the server listens.
    pub address: Ipv4Addr,
    /// The port of control connections.
    pub port: u16,
    /// `memory`, or the folder that is served.
    pub root: &'a str,
    /// Maximum total of the octets in the files of a store in memory.
    pub capacity: u64,
    /// The greeting.
    pub banner: &'a str,
    /// Maximum number of connections at once.
    pub max_cons: u16,
    /// Maximum number of connections from one address; 0 for no limit.
    pub max_cons_per_address: u16,
    /// The number of wrong passwords that end a session.
    pub max_login_attempts: u16,
    /// Permits data connections to an address other than the client's.
    pub permit_foreign_addresses: bool,
    /// Permits data connections to a port below 1024.
    pub permit_privileged_ports: bool,
    /// The address announced to clients for passive connections, if it is not the server's.
    pub masquerade_address: Option<Ipv4Addr>,
    /// The first port of passive connections.
    pub passive_first: u16,
    /// The last port of passive connections.
    pub passive_last: u16,
    /// Maximum number of transfers at once.
    pub lanes: u16,
    /// The number of sessions after which the server ends; 0 for never.
    pub sessions: u64,
    /// The limit both ways together, in octets per second; 0 for no limit.
    pub rate: u64,
    /// Limit to clients, in octets per second; 0 for no limit.
    pub down_rate: u64,
    /// Limit from clients, in octets per second; 0 for no limit.
    pub up_rate: u64,
    pub ghost banner_line: { IsLine banner.now },
    pub ghost rate_fits: { rate ≤ MAX_RATE },
    pub ghost down_fits: { down_rate ≤ MAX_RATE },
    pub ghost up_fits: { up_rate ≤ MAX_RATE },
}

/// The keys of a `[[group]]`.
#[derive(Clone, Copy, Debug)]
pub struct GroupTable<'a> {
    pub name: &'a str,
    /// Limit to all its users together, in octets per second; 0 for no limit.
    pub down_rate: u64,
    /// Limit from all its users together, in octets per second; 0 for no limit.
    pub up_rate: u64,
    pub ghost down_fits: { down_rate ≤ MAX_RATE },
    pub ghost up_fits: { up_rate ≤ MAX_RATE },
}

/// The keys of a `[[user]]`.
#[derive(Clone, Copy)]
pub struct UserTable<'a> {
    pub name: &'a str,
    /// Empty for `anonymous`, who has every password.
    pub password: &'a str,
    /// The directory that is the user's root.
    pub home: &'a str,
    /// The user's permissions, as letters.
    pub perms: &'a str,
    /// Limit to the user, in octets per second; 0 for no limit.
    pub down_rate: u64,
    /// Limit from the user, in octets per second; 0 for no limit.
    pub up_rate: u64,
    /// Limit to each session, in octets per second; 0 for no limit.
    pub session_down_rate: u64,
    /// Limit from each session, in octets per second; 0 for no limit.
    pub session_up_rate: u64,
    /// Guaranteed rate to each session, in octets per second.
    pub session_down_floor: u64,
    /// Guaranteed rate from each session, in octets per second.
    pub session_up_floor: u64,
    /// Text of the reply to a login.
    pub msg_login: &'a str,
    /// Text of the reply to QUIT.
    pub msg_quit: &'a str,
    /// The name of the user's group, if they are in one.
    pub group: Option<&'a str>,
    /// The user's overrides, not yet read.
    pub overrides: &'a [Value],
    pub ghost down_fits: { down_rate ≤ MAX_RATE },
    pub ghost up_fits: { up_rate ≤ MAX_RATE },
    pub ghost session_down_fits: { session_down_rate ≤ MAX_RATE },
    pub ghost session_up_fits: { session_up_rate ≤ MAX_RATE },
    pub ghost session_down_floor_fits: { session_down_floor ≤ MAX_RATE },
    pub ghost session_up_floor_fits: { session_up_floor ≤ MAX_RATE },
    pub ghost login_line: { IsLine msg_login.now },
    pub ghost quit_line: { IsLine msg_quit.now },
}

/// The keys of a `[[user.override]]`.
#[derive(Clone, Copy, Debug)]
pub struct OverrideTable<'a> {
    /// The path, from the user's root.
    pub path: &'a str,
    /// The user's permissions there, as letters.
    pub perms: &'a str,
    /// The letters also apply beneath the path.
    pub recursive: bool,
}

/// The keys of a `[[dir]]`.
#[derive(Clone, Copy, Debug)]
pub struct DirTable<'a> {
    pub path: &'a str,
}

/// The keys of a `[[file]]`.
#[derive(Clone, Copy, Debug)]
pub struct FileTable<'a> {
    pub path: &'a str,
    /// Contents of the file.
    pub text: &'a str,
    /// Time of its last change, in seconds since 1970.
    pub modified: u64,
    pub ghost shown: { modified ≤ LATEST },
}
