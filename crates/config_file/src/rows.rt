//! Lists of tables.

ghost use Rattle.std.specs.Prelude.{◌≡◌, IfOk, IfErr, OnOk, List, option_map};
ghost use Rattle.toml.specs.View.{view, table_view, items_view};
ghost use Rattle.config_file.specs.Keys.{AllFit, AllHeld, KeyRow};
ghost use Rattle.config_file.specs.Lists.{AreRows, IsListFault, IsRow, RowIsFine, RowIsRefused, name_for};
ghost use Rattle.config_file.specs.Refused.{Reports};
ghost use Rattle.config_file.specs.Seen.{rows_of};
ghost use Rattle.config_file.specs.Values.{Held};

use crate::fault::{Fault, Header, KeyFault, Problem, TableName};
use crate::judge::judge;
use crate::kind::KeyKind;
use crate::row::Row;
use std::alloc::Global;
use toml::{Table, Value};

/// A table with rows of keys.
pub(crate) trait Keyed<'a>: Sized + Drop {
    /// The rows of the table's keys.
    ghost Keys: { List KeyRow };

    /// The values of a table of the kind, one for each row.
    ghost Values: { Self → List Held };

    /// Reads a table without problems.
    fn read(table: &'a Table) -> Self
        requires fit { AllFit Keys (table_view table.now) }
        ensures values { AllHeld Keys (table_view table.now) (Values result) };
}

/// Judges and reads a row of the list at a key.
fn read_row<'a, R: Keyed<'a>>(
    value: &'a Value,
    key: &'a str,
    rows: &[Row<'a>],
    grouped: bool,
) -> Result<R, KeyFault<'a>>
    requires rows { rows_of rows.now ≡ R.Keys }
    ensures row { IfOk result (IsRow grouped R.Keys R.Values (view value.now)) }
    ensures fine { OnOk result (RowIsFine grouped R.Keys (view value.now)) }
    ensures refused { IfErr result (λ fault. RowIsRefused
        grouped R.Keys key.now (view value.now) fault.key.now fault.problem) }
{
    let Some(table) = value.as_table() else {
        return Err(KeyFault {
            key,
            problem: Problem::WrongKind(KeyKind::Rows),
        });
    };
    judge(table, rows, grouped)?;
    Ok(R::read(table))
}

/// Returns the name of the owner of a row, or the name that the row states.
fn name_for<'a>(owner: Option<&'a str>, row: &'a Value) -> Option<&'a str>
    ensures name { option_map (λ s. s.now) result
        ≡ name_for (option_map (λ s. s.now) owner.entry) (view row.now) }
{
    if owner.is_some() {
        return owner;
    }
    match row.get("name") {
        Some(name) => name.as_str(),
        None => None,
    }
}

/// Reads the list of tables at a key. `Err` is the fault of its first row that is refused, with the name of the owner
/// if it has one, or lack of memory.
pub(crate) fn read_rows<'a, R: Keyed<'a>>(
    alloc: Global,
    table: TableName,
    owner: Option<&'a str>,
    key: &'a str,
    rows: &[Row<'a>],
    grouped: bool,
    values: &'a [Value],
) -> Result<Vec<R>, Fault<'a, KeyFault<'a>>>
    requires rows { rows_of rows.now ≡ R.Keys }
    ensures rows { IfOk result
        (λ found. AreRows grouped R.Keys R.Values (items_view values.now) found.items) }
    ensures refused { IfErr result (Reports (IsListFault grouped R.Keys table
        (option_map (λ s. s.now) owner.entry) key.now (items_view values.now))) }
{
    let mut found = Vec::new(alloc);
    for (index, value) in values.iter().enumerate() {
        match read_row::<R>(value, key, rows, grouped) {
            Ok(row) => {
                if found.push(row).is_err() {
                    return Err(Fault::Memory);
                }
            }
            Err(problem) => {
                let header = Header::row(table, index, name_for(owner, value));
                return Err(Fault::At { header, problem });
            }
        }
    }
    Ok(found)
}
