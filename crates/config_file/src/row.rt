//! A row of a table of keys.

use crate::kind::KeyKind;

/// The value of a key that is not stated.
#[derive(Clone, Copy, Debug)]
pub enum Absent<'a> {
    /// No value: the key must be stated.
    Refused,
    /// No value: the key may be left out.
    Nothing,
    Number(u64),
    Line(&'a str),
    Flag(bool),
    Address([u8; 4]),
    /// No tables.
    NoRows,
}

/// A key of a table: its name, the kind of its value, and its value if it is not stated.
#[derive(Clone, Copy, Debug)]
pub struct Row<'a>(pub &'a str, pub KeyKind, pub Absent<'a>);
