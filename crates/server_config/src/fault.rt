//! Faults of a configuration, with their places.

ghost use Rattle.std.specs.Prelude.{◌≡◌, IfErr, IfOk, codes};
ghost use Rattle.config_file.specs.Lists.{place_of};
ghost use Rattle.server_config.specs.Refused.{IsAt, IsKeyFault, owned_place, ReportsGroup, ReportsKey, ReportsStore, ReportsText, ReportsUser};
ghost use Rattle.server_config.specs.Faults.{name_of};
ghost use Rattle.server_config.specs.HeaderLines.{HasLine, IsAtLine, is_utf16};
ghost use Rattle.server_config.specs.declared.fault.ConfigFault.TheVariants.{Memory};

use crate::group_problem::GroupProblem;
use crate::similar::similar_to;
use crate::store_problem::StoreProblem;
use crate::user_problem::UserProblem;
use config_file::{Fault, Header, KeyFault, KeyKind, MAX_RATE, Problem, TableName, line_of};
use std::alloc::{AllocError, Global};
use std::fmt;
use thiserror::Error;

/// Maximum number of characters of a name or a key that are shown.
const LONGEST_SHOWN: usize = 64;

/// A table of a file.
#[derive(Debug, Drop)]
pub struct OwnedHeader {
    pub table: TableName,
    /// The number of the row among those of its list, from 1; 0 for a table that is no row.
    pub row: usize,
    /// The name that the row states; of an override, the name of its user; of a directory or a file that
    /// cannot be made, its path.
    pub name: Option<String>,
    /// The line of the text, from 1: that of the table's header, and above all tables that of the key.
    pub line: usize,
}

/// A key of a file, and the one that may have been meant if it is unknown.
#[derive(Debug, Drop)]
pub struct OwnedKey {
    pub name: String,
    pub similar: Option<&'static str>,
}

/// A place in a text: a line, and a character of that line, both from 1.
#[derive(Clone, Copy, Debug, PartialEq, Eq)]
pub struct TextPlace {
    pub line: usize,
    pub column: usize,
}

/// The problem of a text that is no TOML.
#[derive(Debug, Drop)]
pub struct TextProblem {
    pub error: toml::de::Error,
    /// The text is one of UTF-16.
    pub is_utf16: bool,
}

/// The reason for which a configuration is refused. It prints as one line, with the place and the expected values.
#[derive(Debug, Drop, Error)]
pub enum ConfigFault {
    /// The file is no UTF-8 or no TOML: the place, and the problem there.
    #[error("line {}, column {}: {problem}", .place.line, .place.column)]
    NotToml {
        place: TextPlace,
        problem: TextProblem,
    },
    /// A key is unknown, missing, of the wrong kind or out of range.
    #[error("{header}: {}: {problem}{}", Shown(.key.name.as_str()), Hint(.key, *.problem))]
    Key {
        header: OwnedHeader,
        key: OwnedKey,
        problem: Problem,
    },
    /// Two groups have one name, a user's group is not there, or no number is left.
    #[error("{header}: {problem}")]
    BadGroup {
        header: OwnedHeader,
        problem: GroupProblem,
    },
    /// The authorizer refuses a user or an override.
    #[error("{header}: {problem}")]
    BadUser {
        header: OwnedHeader,
        problem: UserProblem,
    },
    /// The store refuses a directory or a file, or there is no port for passive connections.
    #[error("{header}: {problem}")]
    BadStore {
        header: OwnedHeader,
        problem: StoreProblem,
    },
    /// The file has a date that no TOML text can write, so its table cannot be printed.
    #[error("a date cannot be written")]
    BadDate,
    /// The file nests deeper than the reader goes, so its text in version 2 could not be read back.
    #[error("a value that is not read nests too deep to be written")]
    TooDeep,
    /// The text that would be printed is longer than a text that is read.
    #[error("in version 2 the text is longer than a configuration may be")]
    TooLong,
    /// Memory ran out.
    #[error("out of memory")]
    Memory,
}

impl ConfigFault {
    /// The name of the fault, as in the last line of the program.
    pub fn name(&self) -> &'static str
        ensures name { result.now ≡ name_of self.now }
    {
        match self {
            ConfigFault::NotToml { .. } => "NotToml",
            ConfigFault::Key { problem, .. } => match problem {
                Problem::Unknown => "UnknownKey",
                Problem::Missing(_) => "Missing",
                Problem::WrongKind(_) => "WrongKind",
                Problem::OutOfRange(_) => "OutOfRange",
            },
            ConfigFault::BadGroup { .. } => "BadGroup",
            ConfigFault::BadUser { .. } => "BadUser",
            ConfigFault::BadStore { .. } => "BadStore",
            ConfigFault::BadDate => "BadDate",
            ConfigFault::TooDeep => "TooDeep",
            ConfigFault::TooLong => "TooLong",
            ConfigFault::Memory => "Memory",
        }
    }
}

impl From<AllocError> for ConfigFault {
    ghost use Rattle.std.specs.Prelude.{◌≡◌};
    ghost use Rattle.server_config.specs.declared.fault.ConfigFault.TheVariants.{Memory};

    ghost from_gives = { λ _ fault. fault ≡ Memory };

    fn from(_error: AllocError) -> ConfigFault {
        ConfigFault::Memory
    }
}

/// A text of the file as it is shown on one line: its first characters, control characters as `?`.
#[derive(Clone, Copy)]
struct Shown<'a>(&'a str);

impl fmt::Display for Shown<'_> {
    fn fmt<W: fmt::Write>(&self, f: &mut fmt::Formatter<W>) -> fmt::Result {
        for character in self.0.chars().take(LONGEST_SHOWN) {
            f.write_char(if character.is_control() {
                '?'
            } else {
                character
            })?;
        }
        Ok(())
    }
}

impl fmt::Display for TextProblem {
    fn fmt<W: fmt::Write>(&self, f: &mut fmt::Formatter<W>) -> fmt::Result {
        f.write_str(if self.is_utf16 {
            "the file is UTF-16; save it as UTF-8"
        } else {
            self.error.message()
        })
    }
}

impl fmt::Display for OwnedHeader {
    fn fmt<W: fmt::Write>(&self, f: &mut fmt::Formatter<W>) -> fmt::Result {
        write!(f, "line {}: {}", self.line, self.table)?;
        if self.row > 0 {
            write!(f, " {}", self.row)?;
        }
        match &self.name {
            Some(name) => write!(f, " {}", Shown(name.as_str())),
            None => Ok(()),
        }
    }
}

/// A hint at a key that may have been meant, or at how a number is written.
#[derive(Clone, Copy)]
struct Hint<'a>(&'a OwnedKey, Problem);

impl fmt::Display for Hint<'_> {
    fn fmt<W: fmt::Write>(&self, f: &mut fmt::Formatter<W>) -> fmt::Result {
        let Hint(key, problem) = self;
        if let Some(similar) = key.similar {
            return write!(f, "; a similar key is {similar}");
        }
        match problem {
            Problem::WrongKind(KeyKind::Number { high, .. }) => {
                f.write_str(number_hint(key.name.as_str(), *high))
            }
            Problem::Missing(_) => f.write_str(missing_hint(key.name.as_str())),
            Problem::Unknown => f.write_str(other_place(key.name.as_str())),
            _ => Ok(()),
        }
    }
}

/// The line that most files without a key lack.
fn missing_hint(key: &str) -> &'static str {
    match key {
        "version" => "; write version = 2 in the first line",
        _ => "",
    }
}

/// The place of a setting that is no key of any table.
fn other_place(key: &str) -> &'static str {
    match key {
        "override" => "; write [[user.override]] after the [[user]] that it is for",
        "tls" => "; there is no TLS but that of a proxy before the server",
        "umask" => "; it is that of the process, as UMask= of a unit",
        _ => "",
    }
}

/// The manner in which the number of a key is written that is at most `high`.
fn number_hint(key: &str, high: u64) -> &'static str {
    if high != MAX_RATE {
        "; write it in digits, without quotes and without a point"
    } else if key == "capacity" {
        "; write octets in digits, as 1_048_576"
    } else {
        "; write octets a second in digits, as 6_250_000 for 50 Mbit/s"
    }
}

/// The header of a table with its line, which is that of the key above all tables.
fn owned(alloc: Global, octets: &[u8], header: Header, key: &str) -> Result<OwnedHeader, AllocError>
    ensures place { IfOk result (λ owned. owned_place owned ≡ place_of header.entry) }
    ensures line { IfOk result (IsAtLine octets.now key.now) }
{
    let name = match header.name {
        Some(name) => Some(String::from_str(alloc, name)?),
        None => None,
    };
    Ok(OwnedHeader {
        table: header.table,
        row: header.row,
        name,
        line: line_of(octets, header.table, header.row, key),
    })
}

/// Returns whether a text is one of UTF-16: it begins with a byte order mark of that, or one of its first two octets is
/// 0.
fn is_utf16(octets: &[u8]) -> bool
    ensures utf16 { result ≡ is_utf16 octets.now }
{
    match octets {
        [0xFE, 0xFF, ..] | [0xFF, 0xFE, ..] => true,
        [first, second, ..] => *first == 0 || *second == 0,
        _ => false,
    }
}

/// The fault of text that is no TOML.
pub(crate) fn not_toml(octets: &[u8], error: toml::de::Error) -> ConfigFault
    ensures reported { ReportsText error result }
    ensures utf16 { HasLine octets.now result }
{
    let Some(range) = error.span() else {
        return ConfigFault::Memory;
    };
    let is_utf16 = is_utf16(octets);
    let start = if is_utf16 { 0 } else { range.start };
    ConfigFault::NotToml {
        place: place_of(octets, start),
        problem: TextProblem { error, is_utf16 },
    }
}

/// The place after `count` octets of a text. A character of several octets counts once.
fn place_of(octets: &[u8], count: usize) -> TextPlace {
    let mut place = TextPlace { line: 1, column: 1 };
    for octet in octets.iter().take(count) {
        if *octet == b'\n' {
            place.line = place.line.saturating_add(1);
            place.column = 1;
        } else if *octet < 128 || *octet >= 192 {
            place.column = place.column.saturating_add(1);
        }
    }
    place
}

fn key_fault(
    alloc: Global,
    octets: &[u8],
    header: Header,
    key: &str,
    problem: Problem,
) -> Result<ConfigFault, AllocError>
    ensures reported { IfOk result (IsKeyFault (place_of header.entry) key.now problem) }
    ensures line { IfOk result (HasLine octets.now) }
{
    let similar = match problem {
        Problem::Unknown => similar_to(alloc, header.table, key)?,
        _ => None,
    };
    Ok(ConfigFault::Key {
        header: owned(alloc, octets, header, key)?,
        key: OwnedKey {
            name: String::from_str(alloc, key)?,
            similar,
        },
        problem,
    })
}

/// Makes the header and the problem of a fault.
fn located<P: Drop>(
    alloc: Global,
    octets: &[u8],
    fault: Fault<P>,
) -> Result<(OwnedHeader, P), ConfigFault>
    ensures at { IfOk result (λ found. IsAt fault.entry found.0 found.1) }
    ensures line { IfOk result (λ found. IsAtLine octets.now (codes "") found.0) }
    ensures memory { IfErr result (λ why. why ≡ Memory) }
{
    match fault {
        Fault::At { header, problem } => Ok((owned(alloc, octets, header, "")?, problem)),
        Fault::Memory => Err(ConfigFault::Memory),
    }
}

/// The fault of a table's key.
pub(crate) fn of_key(alloc: Global, octets: &[u8], fault: Fault<KeyFault>) -> ConfigFault
    ensures reported { ReportsKey fault.entry result }
    ensures line { HasLine octets.now result }
{
    match fault {
        Fault::At { header, problem } => {
            match key_fault(alloc, octets, header, problem.key, problem.problem) {
                Ok(fault) => fault,
                Err(_) => ConfigFault::Memory,
            }
        }
        Fault::Memory => ConfigFault::Memory,
    }
}

/// The fault of groups.
pub(crate) fn of_groups(alloc: Global, octets: &[u8], fault: Fault<GroupProblem>) -> ConfigFault
    ensures reported { ReportsGroup fault.entry result }
    ensures line { HasLine octets.now result }
{
    match located(alloc, octets, fault) {
        Ok((header, problem)) => ConfigFault::BadGroup { header, problem },
        Err(memory) => memory,
    }
}

/// The fault of users.
pub(crate) fn of_users(alloc: Global, octets: &[u8], fault: Fault<UserProblem>) -> ConfigFault
    ensures reported { ReportsUser fault.entry result }
    ensures line { HasLine octets.now result }
{
    match located(alloc, octets, fault) {
        Ok((header, problem)) => ConfigFault::BadUser { header, problem },
        Err(memory) => memory,
    }
}

/// The fault of a store.
pub(crate) fn of_store(alloc: Global, octets: &[u8], fault: Fault<StoreProblem>) -> ConfigFault
    ensures reported { ReportsStore fault.entry result }
    ensures line { HasLine octets.now result }
{
    match located(alloc, octets, fault) {
        Ok((header, problem)) => ConfigFault::BadStore { header, problem },
        Err(memory) => memory,
    }
}
