//! The rows of a table of keys, and the first problem of a table.

ghost use Rattle.std.specs.Prelude.{◌≡◌, IfErr, MatchResult, OnOk, Some, None};
ghost use Rattle.toml.specs.View.{table_view};
ghost use Rattle.config_file.specs.declared.fault.Problem.TheVariants.{Unknown};
ghost use Rattle.config_file.specs.Keys.{AllFit, Fits, IsFine, IsFirstProblem, IsRefused, Judges, is_among, is_known, keys_of, stray};
ghost use Rattle.config_file.specs.Seen.{row_of, rows_of};

use crate::fault::{KeyFault, Problem};
use crate::reading::read;
use crate::row::Row;
use toml::Table;

/// Returns whether a file knows a key.
fn is_known(key: &str, grouped: bool) -> bool
    ensures known { result ≡ is_known grouped key.now }
{
    key != "group" || grouped
}

fn is_among(rows: &[Row], grouped: bool, key: &str) -> bool
    ensures among { result ≡ is_among (keys_of grouped (rows_of rows.now)) key.now }
{
    for row in rows {
        if row.0 == key && is_known(row.0, grouped) {
            return true;
        }
    }
    false
}

/// Refuses a table with a key that none of the rows has: the least of them, by their octets.
fn only_known<'a>(table: &'a Table, rows: &[Row<'a>], grouped: bool) -> Result<(), KeyFault<'a>>
    ensures known { MatchResult result
        (λ _. stray (keys_of grouped (rows_of rows.now)) (table_view table.now) ≡ None)
        (λ fault. (stray (keys_of grouped (rows_of rows.now)) (table_view table.now)
        ≡ Some fault.key.now) × (fault.problem ≡ Unknown)) }
{
    for key in table.keys() {
        if !is_among(rows, grouped, key.as_str()) {
            return Err(KeyFault {
                key: key.as_str(),
                problem: Problem::Unknown,
            });
        }
    }
    Ok(())
}

/// Judges the key of a row.
fn judge_row<'a>(table: &'a Table, row: &Row<'a>) -> Result<(), KeyFault<'a>>
    ensures fits { OnOk result (Fits (row_of row.now) (table_view table.now)) }
    ensures key { IfErr result (λ fault. fault.key.now ≡ row.now.0.now) }
    ensures problem { IfErr result (λ fault.
        Judges (row_of row.now) (table_view table.now) (Err fault.problem)) }
{
    match read(table, row) {
        Ok(_) => Ok(()),
        Err(problem) => Err(KeyFault {
            key: row.0,
            problem,
        }),
    }
}

/// Judges the keys of all rows, in their order.
fn judge_rows<'a>(table: &'a Table, rows: &[Row<'a>]) -> Result<(), KeyFault<'a>>
    ensures fit { OnOk result (AllFit (rows_of rows.now) (table_view table.now)) }
    ensures refused { IfErr result (λ fault.
        IsFirstProblem (rows_of rows.now) (table_view table.now) fault.key.now fault.problem) }
{
    for row in rows {
        judge_row(table, row)?;
    }
    Ok(())
}

/// Judges a table by its rows: `Err` is its first problem.
pub(crate) fn judge<'a>(
    table: &'a Table,
    rows: &[Row<'a>],
    grouped: bool,
) -> Result<(), KeyFault<'a>>
    ensures fine { OnOk result (IsFine grouped (rows_of rows.now) (table_view table.now)) }
    ensures refused { IfErr result (λ fault. IsRefused
        grouped (rows_of rows.now) (table_view table.now) fault.key.now fault.problem) }
{
    only_known(table, rows, grouped)?;
    judge_rows(table, rows)
}
