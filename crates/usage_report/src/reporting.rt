//! The report on logs.

ghost use Rattle.std.specs.Prelude.{◌≡◌, IfOk, string_bytes};
ghost use Rattle.usage_report.specs.Asks.{IsAsked};
ghost use Rattle.usage_report.specs.Reports.{IsRankedText, IsReportText, IsSumsText, IsUsageText, first_rows};
ghost use Rattle.usage_report.specs.declared.ask.UsageAsk.{UsageAsk};

use crate::adding::Sums;
use crate::ask::{AskWords, UsageAsk, UsageForm, asked};
use crate::csv::csv_text;
use crate::rank::{UsageRow, ranked};
use crate::refusal::refused;
use crate::report::{LogSeen, Report};
use crate::source::{LogSource, NoUsage, add_logs};
use crate::table::table_text;
use crate::usage::Usage;
use crate::values::json_text;
use std::alloc::{AllocError, Global};

// The first rows; 0 is no limit.
fn first_rows<'s, 'm>(rows: &'s [UsageRow<'m>], first: u32) -> &'s [UsageRow<'m>]
    ensures first { result.now ≡ first_rows first rows.now }
{
    let first = first as usize;
    if first == 0 || rows.len() <= first {
        return rows;
    }
    &rows[..first]
}

fn report_text(alloc: Global, report: &Report<'_>) -> Result<String, AllocError>
    ensures text { IfOk result (λ text. IsReportText report.now (string_bytes text)) }
{
    match report.ask.form {
        UsageForm::Json => json_text(alloc, report),
        UsageForm::Csv => csv_text(alloc, report),
        UsageForm::Table => table_text(alloc, report),
    }
}

// The report on the sums of logs, whose rows are in their order.
fn ranked_report(
    alloc: Global,
    ask: UsageAsk,
    total: Sums,
    rows: &[UsageRow<'_>],
    logs: &[LogSeen<'_>],
) -> Result<String, AllocError>
    ensures text { IfOk result
        (λ text. IsRankedText ask total rows.now logs.now (string_bytes text)) }
{
    let report = Report {
        ask,
        shown: first_rows(rows, ask.first),
        in_all: rows.len(),
        total,
        logs,
    };
    report_text(alloc, &report)
}

// The report on the sums of logs.
fn report_on(
    alloc: Global,
    ask: UsageAsk,
    usage: &Usage,
    logs: &[LogSeen<'_>],
) -> Result<String, AllocError>
    ensures text { IfOk result (λ text. IsSumsText ask usage.now logs.now (string_bytes text)) }
{
    let rows = ranked(alloc, &usage.rows)?;
    ranked_report(alloc, ask, usage.total, rows.as_slice(), logs)
}

// The report that is asked for.
fn report_of<'p, S: LogSource>(
    alloc: Global,
    ask: UsageAsk,
    paths: &[&'p str],
    source: &mut S,
) -> Result<String, NoUsage<'p>>
    ensures text { IfOk result (λ text.
        IsUsageText (S.Gives source.old) ask paths.now (string_bytes text)) }
{
    let mut usage = Usage::new(alloc, ask.by, ask.day);
    let logs = add_logs(alloc, &mut usage, paths, source)?;
    match report_on(alloc, ask, &usage, logs.as_slice()) {
        Ok(text) => Ok(text),
        Err(_) => Err(NoUsage::Memory),
    }
}

/// The report on the transfers of logs that words ask for: each log is read to its end, one after another, and no more of
/// it is held than a line.
///
/// `Refused`: the words ask for no report, and no log was opened. `Log`: the log of a path could not be opened or read.
/// `TooMuch`: a sum is not below 2^64. `Memory`: memory ran out.
pub fn usage_text<'p, S: LogSource>(
    alloc: Global,
    words: &AskWords<'_>,
    paths: &[&'p str],
    source: &mut S,
) -> Result<String, NoUsage<'p>>
    ensures text { IfOk result (λ text. (ask : UsageAsk) × IsAsked words.now ask
        × IsUsageText (S.Gives source.old) ask paths.now (string_bytes text)) }
{
    match asked(words) {
        Ok(ask) => report_of(alloc, ask, paths, source),
        Err(fault) => Err(refused(alloc, words, fault)),
    }
}
