//! The values of a table without problems.

ghost use Rattle.std.specs.Prelude.{◌≤◌, Ok, option_map};
ghost use Rattle.toml.specs.View.{table_view, items_view};
ghost use Rattle.ftp_terms.specs.Lines.{HasNoControl, IsLine};
ghost use Rattle.std.specs.Net.Addr.{ipv4_octets};
ghost use Rattle.config_file.specs.Keys.{Fits, Judges};
ghost use Rattle.config_file.specs.Rows.{IsAddressRow, IsFlagRow, IsLineRow, IsListRow, IsNumberRow, IsOptionalAddressRow, IsOptionalLineRow, IsSmallRow, IsTableRow, IsTextRow, highest};
ghost use Rattle.config_file.specs.Seen.{row_of};
ghost use Rattle.config_file.specs.Values.{address, flag, inner, items, number, text, address_if, text_if};

use crate::reading::{Reading, read};
use crate::row::Row;
use std::net::Ipv4Addr;
use toml::{Table, Value};

/// A whole number.
pub(crate) fn number(table: &Table, row: &Row) -> u64
    requires row { IsNumberRow (row_of row.now) }
    requires fits { Fits (row_of row.now) (table_view table.now) }
    ensures number { Judges (row_of row.now) (table_view table.now) (Ok (number result)) }
    ensures most { result ≤ highest (row_of row.now) }
{
    let Ok(Reading::Number(number)) = read(table, row) else {
        unreachable!()
    };
    number
}

/// A whole number of at most 16 bits.
pub(crate) fn small(table: &Table, row: &Row) -> u16
    requires row { IsSmallRow (row_of row.now) }
    requires fits { Fits (row_of row.now) (table_view table.now) }
    ensures number { Judges (row_of row.now) (table_view table.now) (Ok (number result)) }
{
    number(table, row) as u16
}

/// Any text.
pub(crate) fn text<'a>(table: &'a Table, row: &Row<'a>) -> &'a str
    requires row { IsTextRow (row_of row.now) }
    requires fits { Fits (row_of row.now) (table_view table.now) }
    ensures text { Judges (row_of row.now) (table_view table.now) (Ok (text result.now)) }
{
    let Ok(Reading::Text(text)) = read(table, row) else {
        unreachable!()
    };
    text
}

/// A text without control octets.
#[tactic(auto, using(crate::proofs::Helds::plain_held, crate::proofs::KnownKeys::plain_line))]
pub(crate) fn line<'a>(table: &'a Table, row: &Row<'a>) -> &'a str
    requires row { IsLineRow (row_of row.now) }
    requires fits { Fits (row_of row.now) (table_view table.now) }
    ensures line { Judges (row_of row.now) (table_view table.now) (Ok (text result.now)) }
    ensures plain { HasNoControl result.now }
    ensures one_line { IsLine result.now }
{
    let Ok(Reading::Text(text)) = read(table, row) else {
        unreachable!()
    };
    text
}

/// A text without control octets, if one is stated.
pub(crate) fn line_if<'a>(table: &'a Table, row: &Row<'a>) -> Option<&'a str>
    requires row { IsOptionalLineRow (row_of row.now) }
    requires fits { Fits (row_of row.now) (table_view table.now) }
    ensures line { Judges (row_of row.now) (table_view table.now)
        (Ok (text_if (option_map (λ s. s.now) result))) }
{
    match read(table, row) {
        Ok(Reading::Text(text)) => Some(text),
        _ => None,
    }
}

/// `true` or `false`.
pub(crate) fn flag(table: &Table, row: &Row) -> bool
    requires row { IsFlagRow (row_of row.now) }
    requires fits { Fits (row_of row.now) (table_view table.now) }
    ensures flag { Judges (row_of row.now) (table_view table.now) (Ok (flag result)) }
{
    let Ok(Reading::Flag(flag)) = read(table, row) else {
        unreachable!()
    };
    flag
}

/// An address.
#[tactic(auto, using(crate::proofs::Helds::fits_once))]
pub(crate) fn address(table: &Table, row: &Row) -> Ipv4Addr
    requires row { IsAddressRow (row_of row.now) }
    requires fits { Fits (row_of row.now) (table_view table.now) }
    ensures address { Judges (row_of row.now) (table_view table.now)
        (Ok (address (ipv4_octets result))) }
{
    let Ok(Reading::Address(address)) = read(table, row) else {
        unreachable!()
    };
    address
}

/// An address, if one is stated.
#[tactic(auto, using(crate::proofs::Helds::maybe_once))]
pub(crate) fn address_if(table: &Table, row: &Row) -> Option<Ipv4Addr>
    requires row { IsOptionalAddressRow (row_of row.now) }
    requires fits { Fits (row_of row.now) (table_view table.now) }
    ensures address { Judges (row_of row.now) (table_view table.now)
        (Ok (address_if (option_map ipv4_octets result))) }
{
    match read(table, row) {
        Ok(Reading::Address(address)) => Some(address),
        _ => None,
    }
}

/// A table.
pub(crate) fn inner<'a>(table: &'a Table, row: &Row<'a>) -> &'a Table
    requires row { IsTableRow (row_of row.now) }
    requires fits { Fits (row_of row.now) (table_view table.now) }
    ensures table { Judges (row_of row.now) (table_view table.now)
        (Ok (inner (table_view result.now))) }
{
    let Ok(Reading::Table(found)) = read(table, row) else {
        unreachable!()
    };
    found
}

/// The elements of a list of tables.
pub(crate) fn list<'a>(table: &'a Table, row: &Row<'a>) -> &'a [Value]
    requires row { IsListRow (row_of row.now) }
    requires fits { Fits (row_of row.now) (table_view table.now) }
    ensures list { Judges (row_of row.now) (table_view table.now)
        (Ok (items (items_view result.now))) }
{
    let Ok(Reading::Rows(found)) = read(table, row) else {
        unreachable!()
    };
    found
}
