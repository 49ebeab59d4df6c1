//! The keys of each table, a row each: the key, its kind, and its default. The rows are in the order in which keys are
//! judged.

ghost use Rattle.std.specs.Prelude.{◌≡◌};
ghost use Rattle.config_file.specs.Seen.{rows_of};
ghost use Rattle.config_file.specs.Tables.{table_rows};

use crate::fault::TableName;
use crate::kind::KeyKind;
use crate::row::{Absent, Row};
use crate::stated::{MAX_RATE, MAX_SESSIONS};
use ftp_terms::LATEST;

/// The latest version of the file. It has groups, which version 1 does not have.
pub const LATEST_VERSION: u64 = 2;

const VERSIONS: KeyKind = KeyKind::Number {
    low: 1,
    high: LATEST_VERSION,
};

const PORTS: KeyKind = KeyKind::Number {
    low: 1,
    high: 65535,
};

const RATES: KeyKind = KeyKind::Number {
    low: 0,
    high: MAX_RATE,
};

const CONNECTIONS: KeyKind = KeyKind::Number { low: 1, high: 512 };

const LIMITS: KeyKind = KeyKind::Number { low: 0, high: 512 };

const ATTEMPTS: KeyKind = KeyKind::Number { low: 1, high: 100 };

const LANE_NUMBERS: KeyKind = KeyKind::Number { low: 1, high: 64 };

const SESSION_NUMBERS: KeyKind = KeyKind::Number {
    low: 0,
    high: MAX_SESSIONS,
};

const MOMENTS: KeyKind = KeyKind::Number {
    low: 0,
    high: LATEST,
};

// ---- above all tables

pub(crate) const VERSION: Row<'static> = Row("version", VERSIONS, Absent::Refused);

pub(crate) const SERVERS: Row<'static> = Row("server", KeyKind::Table, Absent::Refused);

pub(crate) const GROUPS: Row<'static> = Row("group", KeyKind::Rows, Absent::NoRows);

pub(crate) const USERS: Row<'static> = Row("user", KeyKind::Rows, Absent::NoRows);

pub(crate) const DIRS: Row<'static> = Row("dir", KeyKind::Rows, Absent::NoRows);

pub(crate) const FILES: Row<'static> = Row("file", KeyKind::Rows, Absent::NoRows);

pub(crate) static TOP: [Row<'static>; 6] = [VERSION, SERVERS, GROUPS, USERS, DIRS, FILES];

// ---- [server]

const LOCAL: Absent<'static> = Absent::Address([127, 0, 0, 1]);

pub(crate) const ADDRESS: Row<'static> = Row("address", KeyKind::Address, LOCAL);

pub(crate) const PORT: Row<'static> = Row("port", PORTS, Absent::Number(2121));

pub(crate) const ROOT: Row<'static> = Row("root", KeyKind::Line, Absent::Refused);

pub(crate) const CAPACITY: Row<'static> = Row("capacity", RATES, Absent::Number(1_048_576));

pub(crate) const BANNER: Row<'static> = Row("banner", KeyKind::Line, Absent::Line("Ready"));

pub(crate) const MAX_CONS: Row<'static> = Row("max_cons", CONNECTIONS, Absent::Number(64));

pub(crate) const MAX_CONS_PER_ADDRESS: Row<'static> = Row(
    "max_cons_per_address",
    LIMITS,
    Absent::Number(0),
);

pub(crate) const MAX_LOGIN_ATTEMPTS: Row<'static> = Row(
    "max_login_attempts",
    ATTEMPTS,
    Absent::Number(3),
);

pub(crate) const PERMIT_FOREIGN: Row<'static> = Row(
    "permit_foreign_addresses",
    KeyKind::Flag,
    Absent::Flag(false),
);

pub(crate) const PERMIT_PRIVILEGED: Row<'static> = Row(
    "permit_privileged_ports",
    KeyKind::Flag,
    Absent::Flag(false),
);

pub(crate) const MASQUERADE: Row<'static> = Row(
    "masquerade_address",
    KeyKind::Address,
    Absent::Nothing,
);

pub(crate) const PASSIVE_FIRST: Row<'static> = Row("passive_first", PORTS, Absent::Refused);

pub(crate) const PASSIVE_LAST: Row<'static> = Row("passive_last", PORTS, Absent::Refused);

pub(crate) const LANES: Row<'static> = Row("lanes", LANE_NUMBERS, Absent::Number(16));

pub(crate) const SESSIONS: Row<'static> = Row("sessions", SESSION_NUMBERS, Absent::Number(0));

pub(crate) const RATE: Row<'static> = Row("rate", RATES, Absent::Number(0));

pub(crate) const DOWN_RATE: Row<'static> = Row("down_rate", RATES, Absent::Number(0));

pub(crate) const UP_RATE: Row<'static> = Row("up_rate", RATES, Absent::Number(0));

pub(crate) static SERVER: [Row<'static>; 18] = [
    ADDRESS,
    PORT,
    ROOT,
    CAPACITY,
    BANNER,
    MAX_CONS,
    MAX_CONS_PER_ADDRESS,
    MAX_LOGIN_ATTEMPTS,
    PERMIT_FOREIGN,
    PERMIT_PRIVILEGED,
    MASQUERADE,
    PASSIVE_FIRST,
    PASSIVE_LAST,
    LANES,
    SESSIONS,
    RATE,
    DOWN_RATE,
    UP_RATE,
];

// ---- [[group]]

pub(crate) const NAME: Row<'static> = Row("name", KeyKind::Line, Absent::Refused);

pub(crate) static GROUP: [Row<'static>; 3] = [NAME, DOWN_RATE, UP_RATE];

// ---- [[user]]

pub(crate) const PASSWORD: Row<'static> = Row("password", KeyKind::Password, Absent::Refused);

pub(crate) const HOME: Row<'static> = Row("home", KeyKind::Line, Absent::Refused);

pub(crate) const PERMS: Row<'static> = Row("perms", KeyKind::Line, Absent::Line("elr"));

pub(crate) const SESSION_DOWN_RATE: Row<'static> = Row(
    "session_down_rate",
    RATES,
    Absent::Number(0),
);

pub(crate) const SESSION_UP_RATE: Row<'static> = Row("session_up_rate", RATES, Absent::Number(0));

pub(crate) const SESSION_DOWN_FLOOR: Row<'static> = Row(
    "session_down_floor",
    RATES,
    Absent::Number(0),
);

pub(crate) const SESSION_UP_FLOOR: Row<'static> = Row("session_up_floor", RATES, Absent::Number(0));

pub(crate) const MSG_LOGIN: Row<'static> = Row("msg_login", KeyKind::Line, Absent::Line("Welcome"));

pub(crate) const MSG_QUIT: Row<'static> = Row("msg_quit", KeyKind::Line, Absent::Line("Goodbye"));

pub(crate) const GROUP_NAME: Row<'static> = Row("group", KeyKind::Line, Absent::Nothing);

pub(crate) const OVERRIDES: Row<'static> = Row("override", KeyKind::Rows, Absent::NoRows);

pub(crate) static USER: [Row<'static>; 14] = [
    NAME,
    PASSWORD,
    HOME,
    PERMS,
    DOWN_RATE,
    UP_RATE,
    SESSION_DOWN_RATE,
    SESSION_UP_RATE,
    SESSION_DOWN_FLOOR,
    SESSION_UP_FLOOR,
    MSG_LOGIN,
    MSG_QUIT,
    GROUP_NAME,
    OVERRIDES,
];

// ---- [[user.override]]

pub(crate) const PATH: Row<'static> = Row("path", KeyKind::Line, Absent::Refused);

pub(crate) const OVERRIDE_PERMS: Row<'static> = Row("perms", KeyKind::Line, Absent::Refused);

pub(crate) const RECURSIVE: Row<'static> = Row("recursive", KeyKind::Flag, Absent::Flag(false));

pub(crate) static OVERRIDE: [Row<'static>; 3] = [PATH, OVERRIDE_PERMS, RECURSIVE];

// ---- [[dir]] and [[file]]

pub(crate) const TEXT: Row<'static> = Row("text", KeyKind::Text, Absent::Refused);

pub(crate) const MODIFIED: Row<'static> = Row("modified", MOMENTS, Absent::Number(0));

pub(crate) static DIR: [Row<'static>; 1] = [PATH];

pub(crate) static FILE: [Row<'static>; 3] = [PATH, TEXT, MODIFIED];

/// Returns the rows of a table, in the order in which they are judged.
pub fn rows_of(table: TableName) -> &'static [Row<'static>]
    ensures rows { rows_of result.now ≡ table_rows table }
{
    match table {
        TableName::Top => &TOP,
        TableName::Server => &SERVER,
        TableName::Group => &GROUP,
        TableName::User => &USER,
        TableName::Override(_) => &OVERRIDE,
        TableName::Dir => &DIR,
        TableName::File => &FILE,
    }
}
