//! The rows of the guarantees of sessions.

ghost use Rattle.std.specs.Prelude.{◌≡◌, ◌++◌, OnOk, map};
ghost use Rattle.std.specs.List.{flat_map};
ghost use Rattle.status_page.specs.Metrics.{group_promises, line_promises, promise_head, promise_row, promise_rows};
ghost use Rattle.status_page.specs.Shown.{row_of};

use crate::limits::{Limit, limit_labels};
use crate::rows::{Head, Row};
use server_status::{GroupStatus, Rate, Status};
use std::alloc::AllocError;

/// Guarantees within a limit in a direction, together.
#[tactic(auto, unfolding(crate::specs::Metrics::promise_row))]
fn promise<'a>(kind: &'static str, name: &'a str, direction: &'static str, rate: Rate) -> Row<'a>
    ensures row { row_of result ≡ promise_row kind.now name.now direction.now rate }
{
    let limit = Limit {
        kind,
        name,
        direction,
    };
    Row::Further(
        "ftpd_guaranteed_bytes_per_second",
        limit_labels(limit),
        rate,
    )
}

#[tactic(auto, unfolding(crate::specs::Metrics::promise_head))]
fn promise_head<'a>() -> Row<'a>
    ensures head { row_of result ≡ promise_head }
{
    Row::Head(Head {
        name: "ftpd_guaranteed_bytes_per_second",
        kind: "gauge",
        help: "Guarantees of the sessions that are logged in, together.",
    })
}

fn push_line<'a>(rows: &mut Vec<Row<'a>>, status: &'a Status) -> Result<(), AllocError>
    ensures rows { OnOk result
        (map row_of rows.new.items ≡ map row_of rows.old.items ++ line_promises status.now) }
{
    let kind = "direction";
    rows.push(promise(kind, "", "down", status.guaranteed_down))?;
    rows.push(promise(kind, "", "up", status.guaranteed_up))?;
    Ok(())
}

fn push_group<'a>(rows: &mut Vec<Row<'a>>, group: &'a GroupStatus) -> Result<(), AllocError>
    ensures rows { OnOk result
        (map row_of rows.new.items ≡ map row_of rows.old.items ++ group_promises group.now) }
{
    let (kind, name) = ("group", group.name.as_str());
    rows.push(promise(kind, name, "down", group.guaranteed_down))?;
    rows.push(promise(kind, name, "up", group.guaranteed_up))?;
    Ok(())
}

fn push_groups<'a>(rows: &mut Vec<Row<'a>>, groups: &'a [GroupStatus]) -> Result<(), AllocError>
    ensures rows { OnOk result
        (map row_of rows.new.items ≡ map row_of rows.old.items
        ++ flat_map group_promises groups.now) }
{
    for group in groups {
        push_group(rows, group)?;
    }
    Ok(())
}

/// Appends the rows of what is guaranteed to sessions.
pub(crate) fn push_promises<'a>(
    rows: &mut Vec<Row<'a>>,
    status: &'a Status,
) -> Result<(), AllocError>
    ensures rows { OnOk result
        (map row_of rows.new.items ≡ map row_of rows.old.items ++ promise_rows status.now) }
{
    rows.push(promise_head())?;
    push_line(rows, status)?;
    push_groups(rows, status.groups.as_slice())
}
