//! The head of a table, and the lines of groups.

ghost use Rattle.std.specs.Prelude.{◌≡◌, ◌++◌, OnOk, codes, string_bytes};
ghost use Rattle.status_table.specs.Cells.{shown_text};
ghost use Rattle.status_table.specs.Rates.{both_total, group_total, line_total};
ghost use Rattle.status_table.specs.Heads.{clients_text, counts_of, counts_text, group_line, group_rates, head_line, idle_line, idle_number, is_full, labelled, promised_text, totals_line, up_text, used_text};
ghost use Rattle.status_table.specs.Widths.{left};

use crate::cells::{push_amount, push_limit, push_word, shown};
use crate::rates::{both_total, group_total, idle_sessions, line_total, waiting};
use crate::widths::push_left;
use server_status::{Direction, GroupStatus, Rate, Status};
use std::alloc::{AllocError, Global};

/// Appends hours and minutes.
fn push_up(line: &mut String, micros: u64) -> Result<(), AllocError>
    ensures appended { OnOk result
        (string_bytes line.new ≡ string_bytes line.old ++ up_text micros) }
{
    let hours = micros / 3_600_000_000;
    let minutes = micros / 60_000_000 % 60;
    write!(line, "{hours} h {minutes} min")
}

fn push_clients(line: &mut String, now: &Status) -> Result<(), AllocError>
    ensures appended { OnOk result
        (string_bytes line.new ≡ string_bytes line.old ++ clients_text now.now) }
{
    let (users, sessions, most) = (now.users, now.sessions, now.max_sessions);
    write!(line, "   {users} users, {sessions} of {most} sessions, ")
}

fn push_numbers(line: &mut String, transfers: usize, waiting: usize) -> Result<(), AllocError>
    ensures appended { OnOk result
        (string_bytes line.new ≡ string_bytes line.old ++ counts_of transfers waiting) }
{
    write!(line, "{transfers} transfers, {waiting} waiting")
}

fn push_counts(line: &mut String, now: &Status) -> Result<(), AllocError>
    ensures appended { OnOk result
        (string_bytes line.new ≡ string_bytes line.old ++ counts_text now.now) }
{
    let transfers = now.transfers.as_slice();
    push_numbers(line, transfers.len(), waiting(transfers))
}

/// Appends the program, the time since its start, its users, sessions and transfers.
pub(crate) fn push_head(line: &mut String, now: &Status) -> Result<(), AllocError>
    ensures appended { OnOk result
        (string_bytes line.new ≡ string_bytes line.old ++ head_line now.now) }
{
    line.push_str("ftpd  up ")?;
    push_up(line, now.micros)?;
    push_clients(line, now)?;
    push_counts(line, now)
}

/// Returns whether at least 99 hundredths of a rate are used.
fn is_full(total: Rate, rate: Rate) -> bool
    ensures full { result ≡ is_full total rate }
{
    u128::from(rate) * 99 <= u128::from(total) * 100
}

/// Appends what is used of a rate; 0 is none.
fn push_used(line: &mut String, total: Rate, rate: Rate) -> Result<(), AllocError>
    ensures appended { OnOk result
        (string_bytes line.new ≡ string_bytes line.old ++ used_text total rate) }
{
    push_amount(line, total)?;
    if rate == 0 {
        return Ok(());
    }
    line.push_str(" of ")?;
    push_amount(line, rate)?;
    if is_full(total, rate) {
        line.push_str(" FULL")?;
    }
    Ok(())
}

/// Appends a label, and what is used of a rate.
fn push_labelled(line: &mut String, label: &str, total: Rate, rate: Rate) -> Result<(), AllocError>
    ensures appended { OnOk result
        (string_bytes line.new ≡ string_bytes line.old ++ labelled label.now total rate) }
{
    line.push_str(label)?;
    push_used(line, total, rate)
}

/// Appends what all got in one direction.
fn push_way(
    line: &mut String,
    label: &str,
    past: Option<&Status>,
    now: &Status,
    way: Direction,
    rate: Rate,
) -> Result<(), AllocError>
    ensures appended { OnOk result (string_bytes line.new
        ≡ string_bytes line.old ++ labelled label.now (line_total past.entry now.now way) rate) }
{
    push_labelled(line, label, line_total(past, now, way), rate)
}

/// Appends what all got, both ways.
fn push_both(line: &mut String, past: Option<&Status>, now: &Status) -> Result<(), AllocError>
    ensures appended { OnOk result (string_bytes line.new ≡ string_bytes line.old
        ++ labelled (codes "   both ") (both_total past.entry now.now) now.now.line.both) }
{
    push_labelled(line, "   both ", both_total(past, now), now.line.both)
}

/// Appends what all got, down, up and both ways, of the rates of the server.
pub(crate) fn push_totals(
    line: &mut String,
    past: Option<&Status>,
    now: &Status,
) -> Result<(), AllocError>
    ensures appended { OnOk result
        (string_bytes line.new ≡ string_bytes line.old ++ totals_line past.entry now.now) }
{
    push_way(line, "down ", past, now, Direction::Down, now.line.down)?;
    push_way(line, "   up ", past, now, Direction::Up, now.line.up)?;
    push_both(line, past, now)
}

/// Appends the number of the sessions that transfer nothing.
fn push_idle_number(line: &mut String, count: usize) -> Result<(), AllocError>
    ensures appended { OnOk result
        (string_bytes line.new ≡ string_bytes line.old ++ idle_number count) }
{
    write!(line, "{count} idle")
}

/// Appends the number of the sessions that transfer nothing, and what is guaranteed to all sessions together.
pub(crate) fn push_idle(alloc: Global, line: &mut String, now: &Status) -> Result<(), AllocError>
    ensures appended { OnOk result
        (string_bytes line.new ≡ string_bytes line.old ++ idle_line now.now) }
{
    let count = idle_sessions(alloc, now)?.len();
    push_idle_number(line, count)?;
    push_labelled(
        line,
        "   guaranteed down ",
        now.guaranteed_down,
        now.line.down,
    )?;
    push_labelled(line, "   up ", now.guaranteed_up, now.line.up)
}

/// Appends the name of a group in its column.
fn push_name(alloc: Global, line: &mut String, name: &str) -> Result<(), AllocError>
    ensures appended { OnOk result
        (string_bytes line.new ≡ string_bytes line.old ++ left 17 (shown_text name.now)) }
{
    let name = shown(alloc, name)?;
    push_left(alloc, line, name.as_str(), 17)
}

/// Appends what the users of a group get together in one direction.
fn push_group_way(
    line: &mut String,
    label: &str,
    past: Option<&Status>,
    now: &Status,
    way: Direction,
    name: &str,
    rate: Rate,
) -> Result<(), AllocError>
    ensures appended { OnOk result (string_bytes line.new ≡ string_bytes line.old
        ++ labelled label.now (group_total past.entry now.now way name.now) rate) }
{
    push_labelled(line, label, group_total(past, now, way, name), rate)
}

/// Appends what is guaranteed to the users of a group.
fn push_promised(line: &mut String, down: Rate, up: Rate) -> Result<(), AllocError>
    ensures appended { OnOk result
        (string_bytes line.new ≡ string_bytes line.old ++ promised_text down up) }
{
    line.push_str("   least ")?;
    push_limit(line, down)?;
    line.push_str(" and ")?;
    push_limit(line, up)
}

/// Appends what the users of a group get together.
fn push_group_rates(
    line: &mut String,
    past: Option<&Status>,
    now: &Status,
    group: &GroupStatus,
    name: &str,
) -> Result<(), AllocError>
    ensures appended { OnOk result (string_bytes line.new
        ≡ string_bytes line.old ++ group_rates past.entry now.now group.now name.now) }
{
    push_group_way(line, "down ", past, now, Direction::Down, name, group.down)?;
    push_group_way(line, "   up ", past, now, Direction::Up, name, group.up)
}

/// Appends what the users of a group get together, of the rates of the group, and what is guaranteed to them.
pub(crate) fn push_group(
    alloc: Global,
    line: &mut String,
    past: Option<&Status>,
    now: &Status,
    group: &GroupStatus,
) -> Result<(), AllocError>
    ensures appended { OnOk result
        (string_bytes line.new ≡ string_bytes line.old ++ group_line past.entry now.now group.now) }
{
    let name = group.name.as_str();
    push_word(line, "group ")?;
    push_name(alloc, line, name)?;
    push_group_rates(line, past, now, group, name)?;
    push_promised(line, group.guaranteed_down, group.guaranteed_up)
}
