//! The value of one key.

ghost use Rattle.std.specs.Prelude.{◌≡◌, codes, option_map};
ghost use Rattle.std.specs.List.{list_any};
ghost use Rattle.toml.specs.Data.{get_member};
ghost use Rattle.toml.specs.View.{view, table_view};
ghost use Rattle.ftp_terms.specs.Lines.{is_control};
ghost use Rattle.config_file.specs.Keys.{Judges, is_anonymous, is_unread, when_absent};
ghost use Rattle.config_file.specs.Seen.{default_of, judged_of, row_of};
ghost use Rattle.config_file.specs.Values.{Reads, ReadsAddress, as_flag, as_inner, as_items, as_line, as_number, as_text};

use crate::fault::Problem;
use crate::kind::KeyKind;
use crate::row::{Absent, Row};
use std::net::Ipv4Addr;
use toml::{Table, Value};

/// The value of a key.
#[derive(Clone, Copy)]
pub(crate) enum Reading<'a> {
    Nothing,
    Number(u64),
    Text(&'a str),
    Flag(bool),
    Address(Ipv4Addr),
    Table(&'a Table),
    Rows(&'a [Value]),
}

/// The value at a key.
pub(crate) fn value_at<'a>(table: &'a Table, key: &str) -> Option<&'a Value>
    ensures value { option_map (λ v. view v.now) result
        ≡ get_member key.now (table_view table.now) }
{
    table.get(key)
}

fn read_number<'a>(value: &'a Value, low: u64, high: u64) -> Result<Reading<'a>, Problem>
    ensures number { judged_of result ≡ as_number low high (view value.now) }
{
    let kind = KeyKind::Number { low, high };
    let Value::Integer(number) = value else {
        return Err(Problem::WrongKind(kind));
    };
    let Ok(number) = u64::try_from(*number) else {
        return Err(Problem::OutOfRange(kind));
    };
    if number < low || number > high {
        return Err(Problem::OutOfRange(kind));
    }
    Ok(Reading::Number(number))
}

fn read_text(value: &Value) -> Result<Reading<'_>, Problem>
    ensures text { judged_of result ≡ as_text (view value.now) }
{
    match value.as_str() {
        Some(text) => Ok(Reading::Text(text)),
        None => Err(Problem::WrongKind(KeyKind::Text)),
    }
}

fn has_control(text: &str) -> bool
    ensures control { result ≡ list_any is_control text.now }
{
    text.bytes().any(|octet| octet < 32 || octet == 127)
}

fn read_line<'a>(value: &'a Value, kind: KeyKind) -> Result<Reading<'a>, Problem>
    ensures line { judged_of result ≡ as_line kind (view value.now) }
{
    let Some(text) = value.as_str() else {
        return Err(Problem::WrongKind(kind));
    };
    if has_control(text) {
        return Err(Problem::OutOfRange(kind));
    }
    Ok(Reading::Text(text))
}

fn read_flag(value: &Value) -> Result<Reading<'_>, Problem>
    ensures flag { judged_of result ≡ as_flag (view value.now) }
{
    match value.as_bool() {
        Some(flag) => Ok(Reading::Flag(flag)),
        None => Err(Problem::WrongKind(KeyKind::Flag)),
    }
}

fn read_address(value: &Value) -> Result<Reading<'_>, Problem>
    ensures address { ReadsAddress (view value.now) (judged_of result) }
{
    let Some(text) = value.as_str() else {
        return Err(Problem::WrongKind(KeyKind::Address));
    };
    match text.parse::<Ipv4Addr>() {
        Ok(address) => Ok(Reading::Address(address)),
        Err(_) => Err(Problem::OutOfRange(KeyKind::Address)),
    }
}

fn read_table(value: &Value) -> Result<Reading<'_>, Problem>
    ensures table { judged_of result ≡ as_inner (view value.now) }
{
    match value.as_table() {
        Some(table) => Ok(Reading::Table(table)),
        None => Err(Problem::WrongKind(KeyKind::Table)),
    }
}

fn read_rows(value: &Value) -> Result<Reading<'_>, Problem>
    ensures rows { judged_of result ≡ as_items (view value.now) }
{
    match value.as_array() {
        Some(rows) => Ok(Reading::Rows(rows.as_slice())),
        None => Err(Problem::WrongKind(KeyKind::Rows)),
    }
}

/// Reads a value of a kind.
fn read_value<'a>(value: &'a Value, kind: KeyKind) -> Result<Reading<'a>, Problem>
    ensures value { Reads kind (view value.now) (judged_of result) }
{
    match kind {
        KeyKind::Text => read_text(value),
        KeyKind::Line | KeyKind::Password => read_line(value, kind),
        KeyKind::Flag => read_flag(value),
        KeyKind::Number { low, high } => read_number(value, low, high),
        KeyKind::Address => read_address(value),
        KeyKind::Table => read_table(value),
        KeyKind::Rows => read_rows(value),
    }
}

fn read_absent<'a>(kind: KeyKind, absent: Absent<'a>) -> Result<Reading<'a>, Problem>
    ensures absent { judged_of result ≡ when_absent kind (default_of absent.entry) }
{
    Ok(match absent {
        Absent::Refused => return Err(Problem::Missing(kind)),
        Absent::Nothing => Reading::Nothing,
        Absent::Number(number) => Reading::Number(number),
        Absent::Line(line) => Reading::Text(line),
        Absent::Flag(flag) => Reading::Flag(flag),
        Absent::Address(octets) => Reading::Address(Ipv4Addr::from(octets)),
        Absent::NoRows => Reading::Rows(&[]),
    })
}

/// Returns whether the table is that of the user `anonymous`.
fn is_anonymous(table: &Table) -> bool
    ensures anonymous { result
        ≡ is_anonymous (get_member (codes "name") (table_view table.now)) }
{
    match value_at(table, "name") {
        Some(name) => name.as_str() == Some("anonymous"),
        None => false,
    }
}

fn is_unread(table: &Table, kind: KeyKind) -> bool
    ensures unread { result ≡ is_unread kind (table_view table.now) }
{
    match kind {
        KeyKind::Password => is_anonymous(table),
        _ => false,
    }
}

/// Reads the key of a row. `Err` is its problem.
pub(crate) fn read<'a>(table: &'a Table, row: &Row<'a>) -> Result<Reading<'a>, Problem>
    ensures judged { Judges (row_of row.now) (table_view table.now) (judged_of result) }
{
    let Row(key, kind, absent) = *row;
    if is_unread(table, kind) {
        return Ok(Reading::Text(""));
    }
    match value_at(table, key) {
        Some(value) => read_value(value, kind),
        None => read_absent(kind, absent),
    }
}
