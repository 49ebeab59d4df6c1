//! The report as a table.

use crate::adding::{Sums, octets_a_second};
use crate::ask::key_name;
use crate::key::push_day;
use crate::report::{LogSeen, Report};
use std::alloc::{AllocError, Global};

fn push_rate(text: &mut String, rate: Option<u64>) -> Result<(), AllocError> {
    match rate {
        Some(rate) => write!(text, "{rate:>17}  "),
        None => write!(text, "{:>17}  ", "-"),
    }
}

fn push_sums(text: &mut String, sums: Sums) -> Result<(), AllocError> {
    write!(
        text,
        "{:>10} {:>17} {:>11}",
        sums.transfers, sums.octets, sums.seconds
    )?;
    push_rate(text, octets_a_second(sums))
}

fn push_row(text: &mut String, key: &str, sums: Sums) -> Result<(), AllocError> {
    push_sums(text, sums)?;
    writeln!(text, "{key}")
}

fn push_head(text: &mut String, key: &str) -> Result<(), AllocError> {
    writeln!(
        text,
        "{:>10} {:>17} {:>11}{:>17}  {key}",
        "transfers", "octets", "seconds", "octets a second"
    )
}

fn push_rows(text: &mut String, report: &Report<'_>) -> Result<(), AllocError> {
    for row in report.shown {
        push_row(text, row.key, row.sums)?;
    }
    Ok(())
}

fn push_total(text: &mut String, report: &Report<'_>) -> Result<(), AllocError> {
    push_sums(text, report.total)?;
    text.push_str("total")?;
    if let Some(day) = report.ask.day {
        text.push_str(" of ")?;
        push_day(text, day)?;
    }
    text.push('\n')
}

// The number of rows that are not shown.
fn push_rest(text: &mut String, report: &Report<'_>) -> Result<(), AllocError> {
    let rest = report.in_all.saturating_sub(report.shown.len());
    if rest == 0 {
        return Ok(());
    }
    writeln!(text, "not shown: {rest} of {} rows", report.in_all)
}

// The lines of a log that are not of the form.
fn push_log(text: &mut String, log: &LogSeen<'_>) -> Result<(), AllocError> {
    let Some(first) = log.look.first_unread else {
        return Ok(());
    };
    let (unread, lines) = (log.look.unread, log.look.lines);
    writeln!(
        text,
        "not of the form: {unread} of {lines} lines of {}; the first is line {first}",
        log.path
    )
}

/// The report as a table: a head, a line for each row, the sums of all, and what is not shown or not of the form.
pub(crate) fn table_text(alloc: Global, report: &Report<'_>) -> Result<String, AllocError> {
    let mut text = String::new(alloc);
    push_head(&mut text, key_name(report.ask.by))?;
    push_rows(&mut text, report)?;
    push_total(&mut text, report)?;
    push_rest(&mut text, report)?;
    for log in report.logs {
        push_log(&mut text, log)?;
    }
    Ok(text)
}
