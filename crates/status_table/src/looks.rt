//! The table of two looks at the status of a server.

ghost use Rattle.std.specs.Prelude.{◌≡◌, ◌≤◌, IfOk, string_bytes};
ghost use Rattle.status_table.specs.Looks.{IsLooksTable, IsTableSince, is_later};

use crate::table::table_lines;
use server_status::Status;
use std::alloc::{AllocError, Global};

/// Returns whether a status is of a later moment of the same server.
fn is_later(first: &Status, second: &Status) -> bool
    ensures later { result ≡ is_later first.now second.now }
{
    first.started == second.started && first.micros < second.micros
}

/// The table of a status: with the rates since another one if that is of an earlier moment of the same server,
/// otherwise since the begin of each transfer.
fn table_since(
    alloc: Global,
    first: &Status,
    second: &Status,
    rows: usize,
) -> Result<String, AllocError>
    requires rows { 6 ≤ rows }
    ensures table { IfOk result (λ text. IsTableSince (is_later first.now second.now)
        first.entry second.now rows (string_bytes text)) }
{
    if is_later(first, second) {
        table_lines(alloc, Some(first), Some(first), second, rows)
    } else {
        table_lines(alloc, None, None, second, rows)
    }
}

/// The table of two looks at the status of a server, in at most `rows` lines: that of the second status, with the rates
/// since the first. If there is no second one, or it is not of a later moment of the same server, rates are those since
/// the begin of each transfer. Fails if memory runs out.
pub fn looks_lines(
    alloc: Global,
    first: &Status,
    second: Option<&Status>,
    rows: usize,
) -> Result<String, AllocError>
    requires rows { 6 ≤ rows }
    ensures table { IfOk result
        (λ text. IsLooksTable first.entry second.entry rows (string_bytes text)) }
{
    match second {
        Some(second) => table_since(alloc, first, second, rows),
        None => table_lines(alloc, None, None, first, rows),
    }
}
