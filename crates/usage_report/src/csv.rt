//! The report as CSV.

ghost use Rattle.std.specs.Prelude.{◌≡◌, ◌++◌, OnOk, decimal, string_bytes};
ghost use Rattle.std.specs.List.{flat_map};
ghost use Rattle.std.specs.Str.{chars};
ghost use Rattle.usage_report.specs.Csv.{field, maybe_text, quoted, sums_text};

use crate::adding::{Sums, octets_a_second};
use crate::ask::key_name;
use crate::rank::UsageRow;
use crate::report::{LogSeen, Report};
use std::alloc::{AllocError, Global};

/// The first line.
pub const HEAD: &str = "kind,key,transfers,octets,seconds,octets_a_second,count,first\n";

fn push_quoted(text: &mut String, character: char) -> Result<(), AllocError> {
    if character == '"' {
        text.push('"')?;
    }
    text.push(character)
}

/// Appends a text within quotation marks.
fn push_field(text: &mut String, field: &str) -> Result<(), AllocError> {
    text.push('"')?;
    for character in field.chars() {
        push_quoted(text, character)?;
    }
    text.push('"')
}

fn push_maybe(text: &mut String, number: Option<u64>) -> Result<(), AllocError> {
    match number {
        Some(number) => write!(text, "{number}"),
        None => Ok(()),
    }
}

fn push_sums(text: &mut String, sums: Sums) -> Result<(), AllocError> {
    write!(text, "{},{},{},", sums.transfers, sums.octets, sums.seconds)?;
    push_maybe(text, octets_a_second(sums))
}

fn push_row(text: &mut String, kind: &str, row: &UsageRow<'_>) -> Result<(), AllocError> {
    write!(text, "{kind},")?;
    push_field(text, row.key)?;
    text.push(',')?;
    push_sums(text, row.sums)?;
    text.push_str(",,\n")
}

fn push_rows(text: &mut String, report: &Report<'_>) -> Result<(), AllocError> {
    let kind = key_name(report.ask.by);
    for row in report.shown {
        push_row(text, kind, row)?;
    }
    Ok(())
}

// The number of rows that are not shown.
fn push_rest(text: &mut String, report: &Report<'_>) -> Result<(), AllocError> {
    let rest = report.in_all.saturating_sub(report.shown.len());
    if rest == 0 {
        return Ok(());
    }
    write!(text, "rest,,,,,,{rest},\n")
}

fn push_total(text: &mut String, total: Sums) -> Result<(), AllocError> {
    text.push_str("total,,")?;
    push_sums(text, total)?;
    text.push_str(",,\n")
}

fn push_log(text: &mut String, log: &LogSeen<'_>) -> Result<(), AllocError> {
    let Some(first) = log.look.first_unread else {
        return Ok(());
    };
    text.push_str("unread,")?;
    push_field(text, log.path)?;
    write!(text, ",,,,,{},{first}\n", log.look.unread)
}

/// The report as CSV: a line for each row, one for those that are not shown, one for the sums of all, and one for each log
/// with a line that is not of the form.
pub(crate) fn csv_text(alloc: Global, report: &Report<'_>) -> Result<String, AllocError> {
    let mut text = String::from_str(alloc, HEAD)?;
    push_rows(&mut text, report)?;
    push_rest(&mut text, report)?;
    push_total(&mut text, report.total)?;
    for log in report.logs {
        push_log(&mut text, log)?;
    }
    Ok(text)
}
