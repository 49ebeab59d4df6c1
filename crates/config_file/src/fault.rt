//! Faults of a file: a key, its table, and the problem.

ghost use Rattle.std.specs.Prelude.{◌≡◌, ◌<◌, ◌^◌, option_map};
ghost use Rattle.config_file.specs.Lists.{place_of, row_at, whole};

use crate::kind::KeyKind;
use std::alloc::{AllocError, AllocFailed};
use thiserror::Error;

/// The problem of a key, with the values that it may have.
#[derive(Clone, Copy, Debug, PartialEq, Eq, Error)]
pub enum Problem {
    /// The table may not have the key.
    #[error("no such key")]
    Unknown,
    /// The table lacks the key, which has no default.
    #[error("missing; it must be {0}")]
    Missing(KeyKind),
    /// The key has a value of another kind.
    #[error("of the wrong kind; it must be {0}")]
    WrongKind(KeyKind),
    /// The key has a value of its kind that is out of its range.
    #[error("out of range; it must be {0}")]
    OutOfRange(KeyKind),
}

/// A key with its problem.
#[derive(Clone, Copy, Debug)]
pub struct KeyFault<'a> {
    pub key: &'a str,
    pub problem: Problem,
}

/// The kinds of tables.
#[derive(Clone, Copy, Debug, PartialEq, Eq, Error)]
pub enum TableName {
    /// The keys above all tables.
    #[error("top")]
    Top,
    #[error("[server]")]
    Server,
    #[error("[[group]]")]
    Group,
    #[error("[[user]]")]
    User,
    /// The overrides of the user in this row of `[[user]]`, from 1.
    #[error("[[user.override]]")]
    Override(usize),
    #[error("[[dir]]")]
    Dir,
    #[error("[[file]]")]
    File,
}

/// The header of a table of a file.
#[derive(Clone, Copy, Debug)]
pub struct Header<'a> {
    pub table: TableName,
    /// Number of the row in its list, from 1; 0 for a table that is no row. Overrides are counted for each user apart.
    pub row: usize,
    /// The name that the row states; for an override, the name of its user; for a directory or a file
    /// that cannot be made, its path.
    pub name: Option<&'a str>,
}

impl<'a> Header<'a> {
    /// The header of a table that is no row.
    pub fn whole(table: TableName) -> Header<'a>
        ensures place { place_of result ≡ whole table }
    {
        Header {
            table,
            row: 0,
            name: None,
        }
    }

    /// The header of the row at an index of its list, from 0.
    pub fn row(table: TableName, index: usize, name: Option<&'a str>) -> Header<'a>
        requires within { index < 2 ^ 63 }
        ensures place { place_of result
            ≡ row_at table index (option_map (λ s. s.now) name.entry) }
    {
        Header {
            table,
            row: index + 1,
            name,
        }
    }
}

/// The reason for which tables, or what they state, are refused.
#[derive(Clone, Copy, Debug)]
pub enum Fault<'a, P> {
    /// A table has a problem.
    At { header: Header<'a>, problem: P },
    /// Memory ran out.
    Memory,
}

impl<'a, P> From<AllocError> for Fault<'a, P> {
    ghost use Rattle.std.specs.Prelude.{◌≡◌};
    ghost use Rattle.config_file.specs.declared.fault.Fault.TheVariants.{Memory};

    ghost from_gives = { λ _ fault. fault ≡ Memory };

    fn from(_error: AllocError) -> Fault<'a, P> {
        Fault::Memory
    }
}

impl<'a, P, T: Drop> From<AllocFailed<T>> for Fault<'a, P> {
    ghost use Rattle.std.specs.Prelude.{◌≡◌};
    ghost use Rattle.config_file.specs.declared.fault.Fault.TheVariants.{Memory};

    ghost from_gives = { λ _ fault. fault ≡ Memory };

    fn from(_refused: AllocFailed<T>) -> Fault<'a, P> {
        Fault::Memory
    }
}
