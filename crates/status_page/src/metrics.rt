//! The metrics of a status: a list of rows. Names end in `_bytes` for octets, by the conventions of Prometheus.

ghost use Rattle.std.specs.Prelude.{◌≡◌, ◌++◌, IfOk, OnOk, map, string_bytes};
ghost use Rattle.status_page.specs.Metrics.{first_rows, last_rows, metrics, middle_rows, rows_of};
ghost use Rattle.status_page.specs.Shown.{row_of};

use crate::limits::push_limits;
use crate::promises::push_promises;
use crate::rows::{Row, write_rows};
use crate::samples::{
    build_rows, byte_rows, end_rows, login_rows, round_rows, session_rows, transfer_rows,
};
use crate::users::{push_granted, push_unmet};
use server_status::Status;
use std::alloc::{AllocError, Global};

fn push_first<'a>(rows: &mut Vec<Row<'a>>, status: &'a Status) -> Result<(), AllocError>
    ensures rows { OnOk result
        (map row_of rows.new.items ≡ map row_of rows.old.items ++ first_rows status.now) }
{
    rows.extend_from_slice(&build_rows(status))?;
    rows.extend_from_slice(&session_rows(status))?;
    rows.extend_from_slice(&transfer_rows(status))?;
    rows.extend_from_slice(&byte_rows(status))
}

fn push_middle<'a>(rows: &mut Vec<Row<'a>>, status: &'a Status) -> Result<(), AllocError>
    ensures rows { OnOk result
        (map row_of rows.new.items ≡ map row_of rows.old.items ++ middle_rows status.now) }
{
    rows.extend_from_slice(&round_rows(status.rounds))?;
    push_limits(rows, status)?;
    rows.extend_from_slice(&login_rows(status))?;
    rows.extend_from_slice(&end_rows(status.endings))
}

fn push_last<'a>(rows: &mut Vec<Row<'a>>, status: &'a Status) -> Result<(), AllocError>
    ensures rows { OnOk result
        (map row_of rows.new.items ≡ map row_of rows.old.items ++ last_rows status.now) }
{
    push_promises(rows, status)?;
    push_granted(rows, status.accounts.as_slice())?;
    push_unmet(rows, status.accounts.as_slice())
}

/// The rows of the metrics of a status. Fails if memory runs out.
fn rows_of<'a>(alloc: Global, status: &'a Status) -> Result<Vec<Row<'a>>, AllocError>
    ensures rows { IfOk result (λ rows. map row_of rows.items ≡ rows_of status.now) }
{
    let mut rows = Vec::new(alloc);
    push_first(&mut rows, status)?;
    push_middle(&mut rows, status)?;
    push_last(&mut rows, status)?;
    Ok(rows)
}

/// A status as metrics. Fails if memory runs out.
pub fn metrics_text(alloc: Global, status: &Status) -> Result<String, AllocError>
    ensures metrics { IfOk result (λ text. string_bytes text ≡ metrics status.now) }
{
    let rows = rows_of(alloc, status)?;
    let mut text = String::new(alloc);
    write_rows(&mut text, rows.as_slice())?;
    Ok(text)
}
