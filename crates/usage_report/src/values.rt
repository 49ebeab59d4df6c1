//! The report as JSON.

ghost use Rattle.std.specs.Prelude.{◌≡◌, IfOk, map, string_bytes};
ghost use Rattle.serde_json.specs.View.{view};
ghost use Rattle.usage_report.specs.ReportData.{IsJsonOf, day_data, log_data, maybe_data, report_data, row_data, sums_data, whole_data};

use crate::adding::{Sums, octets_a_second};
use crate::ask::key_name;
use crate::key::push_day;
use crate::rank::UsageRow;
use crate::report::{LogSeen, Report};
use log_lines::LogDay;
use serde_json::{Value, json};
use std::alloc::{AllocError, Global};

/// A number, or null for none.
fn maybe_value(number: Option<u64>) -> Value
    ensures number { view result ≡ maybe_data number }
{
    match number {
        Some(number) => Value::from(number),
        None => Value::Null,
    }
}

fn day_value(alloc: Global, day: Option<LogDay>) -> Result<Value, AllocError>
    ensures day { IfOk result (λ v. view v ≡ day_data day) }
{
    let Some(day) = day else {
        return Ok(Value::Null);
    };
    let mut text = String::new(alloc);
    push_day(&mut text, day)?;
    Ok(Value::from(text))
}

fn sums_value(alloc: Global, sums: Sums) -> Result<Value, AllocError>
    ensures sums { IfOk result (λ v. view v ≡ sums_data sums) }
{
    json!(in alloc; {
        "octets": sums.octets,
        "octets_a_second": maybe_value(octets_a_second(sums)),
        "seconds": sums.seconds,
        "transfers": sums.transfers
    })
}

fn row_value(alloc: Global, row: &UsageRow<'_>) -> Result<Value, AllocError>
    ensures row { IfOk result (λ v. view v ≡ row_data row.now) }
{
    json!(in alloc; {
        "key": row.key,
        "octets": row.sums.octets,
        "octets_a_second": maybe_value(octets_a_second(row.sums)),
        "seconds": row.sums.seconds,
        "transfers": row.sums.transfers
    })
}

fn row_values(alloc: Global, rows: &[UsageRow<'_>]) -> Result<Vec<Value>, AllocError>
    ensures rows { IfOk result (λ values. map view values.items ≡ map row_data rows.now) }
{
    let mut values = Vec::with_capacity(alloc, rows.len())?;
    for row in rows {
        values.push(row_value(alloc, row)?)?;
    }
    Ok(values)
}

fn log_value(alloc: Global, log: &LogSeen<'_>) -> Result<Value, AllocError>
    ensures log { IfOk result (λ v. view v ≡ log_data log.now) }
{
    json!(in alloc; {
        "file": log.path,
        "first_unread": maybe_value(log.look.first_unread),
        "lines": log.look.lines,
        "unread": log.look.unread
    })
}

fn log_values(alloc: Global, logs: &[LogSeen<'_>]) -> Result<Vec<Value>, AllocError>
    ensures logs { IfOk result (λ values. map view values.items ≡ map log_data logs.now) }
{
    let mut values = Vec::with_capacity(alloc, logs.len())?;
    for log in logs {
        values.push(log_value(alloc, log)?)?;
    }
    Ok(values)
}

// The report, given its parts.
fn whole_value(
    alloc: Global,
    report: &Report<'_>,
    day: Value,
    logs: Value,
    rows: Value,
    total: Value,
) -> Result<Value, AllocError>
    ensures whole { IfOk result (λ v. view v ≡ whole_data report.now.ask report.now.in_all
        (view day) (view logs) (view rows) (view total)) }
{
    json!(in alloc; {
        "by": key_name(report.ask.by),
        "day": day,
        "logs": logs,
        "rows": rows,
        "rows_in_all": report.in_all,
        "total": total,
        "version": 1u64
    })
}

fn report_value(alloc: Global, report: &Report<'_>) -> Result<Value, AllocError>
    ensures report { IfOk result (λ v. view v ≡ report_data report.now) }
{
    let day = day_value(alloc, report.ask.day)?;
    let logs = log_values(alloc, report.logs)?;
    let rows = row_values(alloc, report.shown)?;
    let total = sums_value(alloc, report.total)?;
    let value = whole_value(
        alloc,
        report,
        day,
        Value::Array(logs),
        Value::Array(rows),
        total,
    )?;
    Ok(value)
}

/// The report as a text of JSON and a line feed.
pub(crate) fn json_text(alloc: Global, report: &Report<'_>) -> Result<String, AllocError>
    ensures text { IfOk result (λ text. IsJsonOf (report_data report.now) (string_bytes text)) }
{
    let value = report_value(alloc, report)?;
    let mut text = value.to_string(alloc)?;
    text.push('\n')?;
    Ok(text)
}
