//! The lines of a transfer.

ghost use Rattle.std.specs.Prelude.{◌≡◌, ◌++◌, OnOk, IfOk, codes, string_bytes};
ghost use Rattle.std.specs.Fmt.{decimal};
ghost use Rattle.std.specs.Net.Text.{ipv4_text};
ghost use Rattle.status_table.specs.Cells.{amount, limit_text, right, shown_text};
ghost use Rattle.status_table.specs.Held.{held_text, way_text};
ghost use Rattle.status_table.specs.Lines.{clock_text, done_text, held_line, held_number, held_numbers, inner_numbers, is_held_by, is_late, is_mate, late_text, lesser, mates_rate, name_cell, number_of, outer_numbers, path_text, rate_line, session_line, sixty, some_text, user_line, whom_cells};
ghost use Rattle.status_table.specs.Widths.{left};

use crate::cells::{percent, push_amount, push_bound, push_limit, push_rate, shown};
use crate::held::{Limit, held_cell, holder_of, limit_name, same_limit, way_text};
use crate::rates::{rate_since, rounds_since, same_way};
use crate::widths::{push_left, push_tail};
use server_status::{Rate, SessionStatus, Status, TransferStatus};
use std::alloc::{AllocError, Global};
use std::net::Ipv4Addr;

/// The lesser of two limits; 0 is none.
fn lesser(one: Rate, other: Rate) -> Rate
    ensures lesser { result ≡ lesser one other }
{
    if one == 0 {
        other
    } else if other == 0 {
        one
    } else {
        one.min(other)
    }
}

fn push_session(alloc: Global, line: &mut String, session: u64) -> Result<(), AllocError>
    ensures appended { OnOk result
        (string_bytes line.new ≡ string_bytes line.old ++ left 7 (codes "#" ++ decimal session)) }
{
    let cell = format!(in alloc; "#{session}")?;
    push_left(alloc, line, cell.as_str(), 7)
}

fn push_user(alloc: Global, line: &mut String, user: &str) -> Result<(), AllocError>
    ensures appended { OnOk result
        (string_bytes line.new ≡ string_bytes line.old ++ left 11 (shown_text user.now)) }
{
    let cell = shown(alloc, user)?;
    push_left(alloc, line, cell.as_str(), 11)
}

fn push_group(alloc: Global, line: &mut String, transfer: &TransferStatus) -> Result<(), AllocError>
    ensures appended { OnOk result
        (string_bytes line.new ≡ string_bytes line.old ++ name_cell 9 transfer.now.group) }
{
    let Some(group) = &transfer.group else {
        return push_left(alloc, line, "-", 9);
    };
    let cell = shown(alloc, group.as_str())?;
    push_left(alloc, line, cell.as_str(), 9)
}

fn push_address(alloc: Global, line: &mut String, peer: [u8; 4]) -> Result<(), AllocError>
    ensures appended { OnOk result
        (string_bytes line.new ≡ string_bytes line.old ++ left 16 (ipv4_text peer)) }
{
    let address = Ipv4Addr::from(peer);
    let cell = format!(in alloc; "{address}")?;
    push_left(alloc, line, cell.as_str(), 16)
}

/// Appends the session, the user, the group, the address and the direction.
fn push_whom(alloc: Global, line: &mut String, transfer: &TransferStatus) -> Result<(), AllocError>
    ensures appended { OnOk result
        (string_bytes line.new ≡ string_bytes line.old ++ whom_cells transfer.now) }
{
    push_session(alloc, line, transfer.session)?;
    push_user(alloc, line, transfer.user.as_str())?;
    push_group(alloc, line, transfer)?;
    push_address(alloc, line, transfer.peer)?;
    push_left(alloc, line, way_text(transfer.direction), 5)
}

/// Appends the first line of a transfer, without its end.
pub(crate) fn push_rates(
    alloc: Global,
    line: &mut String,
    earlier: Option<&Status>,
    before: Option<&Status>,
    now: &Status,
    transfer: &TransferStatus,
) -> Result<(), AllocError>
    ensures appended { OnOk result (string_bytes line.new
        ≡ string_bytes line.old ++ rate_line earlier.entry before.entry now.now transfer.now) }
{
    let own = lesser(transfer.session_rate, transfer.user_rate);
    push_whom(alloc, line, transfer)?;
    push_rate(alloc, line, rate_since(before, now, transfer))?;
    push_rate(alloc, line, rate_since(earlier, now, transfer))?;
    push_bound(alloc, line, transfer.guaranteed)?;
    push_bound(alloc, line, own)
}

fn done_cell(alloc: Global, transfer: &TransferStatus) -> Result<String, AllocError>
    ensures done { IfOk result (λ text. string_bytes text ≡ done_text transfer.now) }
{
    let Some(size) = transfer.size else {
        let mut text = String::new(alloc);
        push_amount(&mut text, transfer.moved)?;
        return Ok(text);
    };
    let percent = percent(transfer.moved, u128::from(size));
    format!(in alloc; "{percent}%")
}

fn push_done(alloc: Global, line: &mut String, transfer: &TransferStatus) -> Result<(), AllocError>
    ensures appended { OnOk result
        (string_bytes line.new ≡ string_bytes line.old ++ right 7 (done_text transfer.now)) }
{
    let cell = done_cell(alloc, transfer)?;
    write!(line, "{cell:>7}")
}

fn push_held(
    alloc: Global,
    line: &mut String,
    before: Option<&Status>,
    transfer: &TransferStatus,
) -> Result<(), AllocError>
    ensures appended { OnOk result
        (string_bytes line.new
        ≡ string_bytes line.old ++ left 36 (held_text before.entry transfer.now)) }
{
    let cell = held_cell(alloc, before, transfer)?;
    push_left(alloc, line, cell.as_str(), 36)
}

/// Appends the path, shortened from the left; a listing has none.
fn push_path(alloc: Global, line: &mut String, transfer: &TransferStatus) -> Result<(), AllocError>
    ensures appended { OnOk result
        (string_bytes line.new ≡ string_bytes line.old ++ path_text transfer.now.path) }
{
    let Some(path) = &transfer.path else {
        return line.push_str("a listing");
    };
    let cell = shown(alloc, path.as_str())?;
    push_tail(alloc, line, cell.as_str(), 28)
}

/// Appends the second line of a transfer, without its end.
pub(crate) fn push_reasons(
    alloc: Global,
    line: &mut String,
    before: Option<&Status>,
    transfer: &TransferStatus,
) -> Result<(), AllocError>
    ensures appended { OnOk result
        (string_bytes line.new ≡ string_bytes line.old ++ held_line before.entry transfer.now) }
{
    line.push_str("       ")?;
    push_held(alloc, line, before, transfer)?;
    push_done(alloc, line, transfer)?;
    line.push_str("  ")?;
    push_path(alloc, line, transfer)
}

// ---- users

/// Returns whether a transfer is one of the same user in the same direction.
pub(crate) fn is_mate(transfer: &TransferStatus, other: &TransferStatus) -> bool
    ensures mate { result ≡ is_mate transfer.now other.now }
{
    same_way(transfer.direction, other.direction) && transfer.user.as_str() == other.user.as_str()
}

/// Number of the transfers of the same user in the same direction.
fn mates_number(now: &Status, transfer: &TransferStatus) -> usize
    ensures number { result ≡ number_of (is_mate transfer.now) now.now.transfers.items }
{
    let mut count: usize = 0;
    for other in &now.transfers {
        if is_mate(transfer, other) {
            count += 1;
        }
    }
    count
}

/// The rates of the transfers of the same user in the same direction, together.
fn mates_rate(before: Option<&Status>, now: &Status, transfer: &TransferStatus) -> Rate
    ensures rate { result ≡ mates_rate before.entry now.now transfer.now }
{
    let mut total: u64 = 0;
    for other in &now.transfers {
        if is_mate(transfer, other) {
            total = total.saturating_add(rate_since(before, now, other));
        }
    }
    total
}

fn is_late(transfer: &TransferStatus, other: &TransferStatus) -> bool
    ensures late { result ≡ is_late transfer.now other.now }
{
    is_mate(transfer, other) && other.is_waiting
}

/// Number of these that wait for a lane.
fn late_number(now: &Status, transfer: &TransferStatus) -> usize
    ensures number { result ≡ number_of (is_late transfer.now) now.now.transfers.items }
{
    let mut count: usize = 0;
    for other in &now.transfers {
        if is_late(transfer, other) {
            count += 1;
        }
    }
    count
}

fn is_held_by(
    before: Option<&Status>,
    limit: Limit,
    transfer: &TransferStatus,
    other: &TransferStatus,
) -> bool
    ensures held { result ≡ is_held_by before.entry limit transfer.now other.now }
{
    is_mate(transfer, other)
        && !other.is_waiting
        && same_limit(limit, holder_of(rounds_since(before, other)))
}

/// Number of these that a limit holds back.
fn held_number(
    before: Option<&Status>,
    now: &Status,
    limit: Limit,
    transfer: &TransferStatus,
) -> usize
    ensures number { result
        ≡ number_of (is_held_by before.entry limit transfer.now) now.now.transfers.items }
{
    let mut count: usize = 0;
    for other in &now.transfers {
        if is_held_by(before, limit, transfer, other) {
            count += 1;
        }
    }
    count
}

/// Appends a number with its name; nothing for none.
fn push_some(line: &mut String, name: &str, count: usize) -> Result<(), AllocError>
    ensures appended { OnOk result
        (string_bytes line.new ≡ string_bytes line.old ++ some_text name.now count) }
{
    if count == 0 {
        return Ok(());
    }
    write!(line, "{name} {count}  ")
}

/// Appends how many transfers of a user a limit holds back.
#[tactic(auto, unfolding(crate::specs::Lines::held_number))]
fn push_held_number(
    alloc: Global,
    line: &mut String,
    before: Option<&Status>,
    now: &Status,
    transfer: &TransferStatus,
    limit: Limit,
) -> Result<(), AllocError>
    ensures appended { OnOk result (string_bytes line.new ≡ string_bytes line.old
        ++ held_number before.entry now.now transfer.now limit) }
{
    let name = limit_name(alloc, limit, transfer)?;
    push_some(
        line,
        name.as_str(),
        held_number(before, now, limit, transfer),
    )
}

/// Appends how many transfers of a user wait for a lane.
#[tactic(auto, unfolding(crate::specs::Lines::late_text))]
fn push_late(line: &mut String, now: &Status, transfer: &TransferStatus) -> Result<(), AllocError>
    ensures appended { OnOk result (string_bytes line.new ≡ string_bytes line.old
        ++ late_text now.now transfer.now) }
{
    push_some(line, "waiting", late_number(now, transfer))
}

/// Appends how many transfers of a user a limit of several holds back.
fn push_outer(
    alloc: Global,
    line: &mut String,
    before: Option<&Status>,
    now: &Status,
    transfer: &TransferStatus,
) -> Result<(), AllocError>
    ensures appended { OnOk result (string_bytes line.new ≡ string_bytes line.old
        ++ outer_numbers before.entry now.now transfer.now) }
{
    push_held_number(alloc, line, before, now, transfer, Limit::Server)?;
    push_held_number(alloc, line, before, now, transfer, Limit::Direction)?;
    push_held_number(alloc, line, before, now, transfer, Limit::Group)
}

/// Appends how many of them a limit of their own holds back, or none.
fn push_inner(
    alloc: Global,
    line: &mut String,
    before: Option<&Status>,
    now: &Status,
    transfer: &TransferStatus,
) -> Result<(), AllocError>
    ensures appended { OnOk result (string_bytes line.new ≡ string_bytes line.old
        ++ inner_numbers before.entry now.now transfer.now) }
{
    push_held_number(alloc, line, before, now, transfer, Limit::User)?;
    push_held_number(alloc, line, before, now, transfer, Limit::Session)?;
    push_held_number(alloc, line, before, now, transfer, Limit::Client)
}

/// Appends how many transfers of a user wait for a lane, and how many each limit holds back.
fn push_held_numbers(
    alloc: Global,
    line: &mut String,
    before: Option<&Status>,
    now: &Status,
    transfer: &TransferStatus,
) -> Result<(), AllocError>
    ensures appended { OnOk result (string_bytes line.new ≡ string_bytes line.old
        ++ held_numbers before.entry now.now transfer.now) }
{
    push_late(line, now, transfer)?;
    push_outer(alloc, line, before, now, transfer)?;
    push_inner(alloc, line, before, now, transfer)
}

/// Appends a count at the right of a column of five.
fn push_count(alloc: Global, line: &mut String, count: usize) -> Result<(), AllocError>
    ensures appended { OnOk result
        (string_bytes line.new ≡ string_bytes line.old ++ right 5 (decimal count)) }
{
    let cell = format!(in alloc; "{count}")?;
    write!(line, "{cell:>5}")
}

/// Appends what a user gets, at the right of a column of nine.
fn push_mates_rate(alloc: Global, line: &mut String, rate: Rate) -> Result<(), AllocError>
    ensures appended { OnOk result
        (string_bytes line.new ≡ string_bytes line.old ++ right 9 (amount rate)) }
{
    let mut cell = String::new(alloc);
    push_amount(&mut cell, rate)?;
    write!(line, "{cell:>9}")
}

/// Appends whose transfers they are, and how many.
fn push_owner(
    alloc: Global,
    line: &mut String,
    now: &Status,
    transfer: &TransferStatus,
) -> Result<(), AllocError>
    ensures appended { OnOk result (string_bytes line.new ≡ string_bytes line.old
        ++ left 11 (shown_text (string_bytes transfer.now.user)) ++ name_cell 9 transfer.now.group
        ++ left 5 (way_text transfer.now.direction)
        ++ right 5 (decimal (number_of (is_mate transfer.now) now.now.transfers.items))) }
{
    push_user(alloc, line, transfer.user.as_str())?;
    push_group(alloc, line, transfer)?;
    push_left(alloc, line, way_text(transfer.direction), 5)?;
    push_count(alloc, line, mates_number(now, transfer))
}

/// The line of the transfers of a user in a direction, given one of them.
pub(crate) fn user_line(
    alloc: Global,
    before: Option<&Status>,
    now: &Status,
    transfer: &TransferStatus,
) -> Result<String, AllocError>
    ensures line { IfOk result (λ text. string_bytes text
        ≡ user_line before.entry now.now transfer.now) }
{
    let mut line = String::new(alloc);
    push_owner(alloc, &mut line, now, transfer)?;
    push_mates_rate(alloc, &mut line, mates_rate(before, now, transfer))?;
    line.push_str("  ")?;
    push_held_numbers(alloc, &mut line, before, now, transfer)?;
    Ok(line)
}

// ---- idle sessions

/// Appends a colon, and the last two digits of a number of minutes or seconds below the hour or the minute.
fn push_sixty(line: &mut String, n: u64) -> Result<(), AllocError>
    ensures appended { OnOk result (string_bytes line.new ≡ string_bytes line.old ++ sixty n) }
{
    let (tens, ones) = (n / 10 % 6, n % 10);
    write!(line, ":{tens}{ones}")
}

fn clock_cell(alloc: Global, micros: u64) -> Result<String, AllocError>
    ensures clock { IfOk result (λ text. string_bytes text ≡ clock_text micros) }
{
    let hours = micros / 3_600_000_000;
    let mut text = format!(in alloc; "{hours}")?;
    push_sixty(&mut text, micros / 60_000_000)?;
    push_sixty(&mut text, micros / 1_000_000)?;
    Ok(text)
}

/// Appends a time at the right of a column of ten.
fn push_clock(alloc: Global, line: &mut String, micros: u64) -> Result<(), AllocError>
    ensures appended { OnOk result
        (string_bytes line.new ≡ string_bytes line.old ++ right 10 (clock_text micros)) }
{
    let cell = clock_cell(alloc, micros)?;
    write!(line, "{cell:>10}")
}

/// Appends a guarantee at the right of a column of nine.
fn push_promise(alloc: Global, line: &mut String, rate: Rate) -> Result<(), AllocError>
    ensures appended { OnOk result
        (string_bytes line.new ≡ string_bytes line.old ++ right 9 (limit_text rate)) }
{
    let mut cell = String::new(alloc);
    push_limit(&mut cell, rate)?;
    write!(line, "{cell:>9}")
}

/// Appends the user of a session in a column; `-` for none.
fn push_who(alloc: Global, line: &mut String, session: &SessionStatus) -> Result<(), AllocError>
    ensures appended { OnOk result
        (string_bytes line.new ≡ string_bytes line.old ++ name_cell 11 session.now.user) }
{
    let Some(user) = &session.user else {
        return push_left(alloc, line, "-", 11);
    };
    push_user(alloc, line, user.as_str())
}

/// The line of an idle session.
pub(crate) fn session_line(
    alloc: Global,
    now: &Status,
    session: &SessionStatus,
) -> Result<String, AllocError>
    ensures line { IfOk result (λ text. string_bytes text ≡ session_line now.now session.now) }
{
    let mut line = String::new(alloc);
    push_session(alloc, &mut line, session.session)?;
    push_who(alloc, &mut line, session)?;
    push_address(alloc, &mut line, session.peer)?;
    push_clock(alloc, &mut line, now.micros.saturating_sub(session.begun))?;
    push_clock(alloc, &mut line, now.micros.saturating_sub(session.active))?;
    push_promise(alloc, &mut line, session.guaranteed_down)?;
    push_promise(alloc, &mut line, session.guaranteed_up)?;
    Ok(line)
}
