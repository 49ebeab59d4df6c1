//! The kinds of values.

use thiserror::Error;

/// The values that a key may have.
#[derive(Clone, Copy, Debug, PartialEq, Eq, Error)]
pub enum KeyKind {
    /// Any text.
    #[error("a text")]
    Text,
    /// A text without an octet below 32 or 127.
    #[error("a text without control characters")]
    Line,
    /// A line; in the table of the user `anonymous`, who has every password, it is not read.
    #[error("a text without control characters")]
    Password,
    /// `true` or `false`.
    #[error("true or false")]
    Flag,
    /// A whole number within these bounds.
    #[error("a number from {low} to {high}")]
    Number { low: u64, high: u64 },
    /// A text of four numbers from 0 to 255 without needless zeros, joined by dots.
    #[error("an IPv4 address, as \"127.0.0.1\"")]
    Address,
    /// A table.
    #[error("a table")]
    Table,
    /// A list of tables.
    #[error("tables in double brackets")]
    Rows,
}
