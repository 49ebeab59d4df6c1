//! The rows of the limits of the line and of groups.

ghost use Rattle.std.specs.Prelude.{◌≡◌, ◌++◌, OnOk, map};
ghost use Rattle.std.specs.List.{flat_map};
ghost use Rattle.status_page.specs.Metrics.{all_limit_rows, group_rows, limit_head, limit_labels, limit_row, limit_rows, line_rows};
ghost use Rattle.status_page.specs.Shown.{labels_of, row_of};

use crate::rows::{Head, Label, Labels, Row};
use server_status::{GroupStatus, LineRates, Rate, Status};
use std::alloc::AllocError;

/// A limit: what it limits, and in which direction.
#[derive(Clone, Copy)]
pub(crate) struct Limit<'a> {
    pub kind: &'static str,
    pub name: &'a str,
    pub direction: &'static str,
}

/// The labels of a limit.
pub(crate) fn limit_labels<'a>(limit: Limit<'a>) -> Labels<'a>
    ensures labels { labels_of result
        ≡ limit_labels limit.entry.kind.now limit.entry.name.now limit.entry.direction.now }
{
    let kind = Label {
        name: "kind",
        value: limit.kind,
    };
    let name = Label {
        name: "name",
        value: limit.name,
    };
    let direction = Label {
        name: "direction",
        value: limit.direction,
    };
    Labels::Three(kind, name, direction)
}

#[tactic(auto, unfolding(crate::specs::Metrics::limit_row))]
fn limit_row<'a>(limit: Limit<'a>, rate: Rate) -> Row<'a>
    ensures row { row_of result ≡ limit_row limit.entry.kind.now limit.entry.name.now
        limit.entry.direction.now rate }
{
    Row::Further("ftpd_limit_bytes_per_second", limit_labels(limit), rate)
}

/// Appends the row of a limit, unless it is 0.
#[tactic(auto, unfolding(crate::specs::Metrics::limit_rows))]
fn push_limit<'a>(rows: &mut Vec<Row<'a>>, limit: Limit<'a>, rate: Rate) -> Result<(), AllocError>
    ensures rows { OnOk result (map row_of rows.new.items ≡ map row_of rows.old.items
        ++ limit_rows limit.entry.kind.now limit.entry.name.now limit.entry.direction.now rate) }
{
    if rate == 0 {
        return Ok(());
    }
    rows.push(limit_row(limit, rate))?;
    Ok(())
}

fn push_line<'a>(rows: &mut Vec<Row<'a>>, line: LineRates) -> Result<(), AllocError>
    ensures rows { OnOk result
        (map row_of rows.new.items ≡ map row_of rows.old.items ++ line_rows line) }
{
    let (kind, name) = ("direction", "");
    let both = Limit {
        kind: "server",
        name,
        direction: "both",
    };
    let down = Limit {
        kind,
        name,
        direction: "down",
    };
    let up = Limit {
        kind,
        name,
        direction: "up",
    };
    push_limit(rows, both, line.both)?;
    push_limit(rows, down, line.down)?;
    push_limit(rows, up, line.up)
}

fn push_group<'a>(rows: &mut Vec<Row<'a>>, group: &'a GroupStatus) -> Result<(), AllocError>
    ensures rows { OnOk result
        (map row_of rows.new.items ≡ map row_of rows.old.items ++ group_rows group.now) }
{
    let (kind, name) = ("group", group.name.as_str());
    let down = Limit {
        kind,
        name,
        direction: "down",
    };
    let up = Limit {
        kind,
        name,
        direction: "up",
    };
    push_limit(rows, down, group.down)?;
    push_limit(rows, up, group.up)
}

fn push_groups<'a>(rows: &mut Vec<Row<'a>>, groups: &'a [GroupStatus]) -> Result<(), AllocError>
    ensures rows { OnOk result
        (map row_of rows.new.items ≡ map row_of rows.old.items ++ flat_map group_rows groups.now) }
{
    for group in groups {
        push_group(rows, group)?;
    }
    Ok(())
}

#[tactic(auto, unfolding(crate::specs::Metrics::limit_head))]
fn limit_head<'a>() -> Row<'a>
    ensures head { row_of result ≡ limit_head }
{
    Row::Head(Head {
        name: "ftpd_limit_bytes_per_second",
        kind: "gauge",
        help: "Limits of the line and of groups; one that is not there has no sample.",
    })
}

/// Appends the rows of the limits that there are.
pub(crate) fn push_limits<'a>(rows: &mut Vec<Row<'a>>, status: &'a Status) -> Result<(), AllocError>
    ensures rows { OnOk result
        (map row_of rows.new.items ≡ map row_of rows.old.items ++ all_limit_rows status.now) }
{
    rows.push(limit_head())?;
    push_line(rows, status.line)?;
    push_groups(rows, status.groups.as_slice())
}
