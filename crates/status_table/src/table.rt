//! The table, as a screen of lines.

ghost use Rattle.std.specs.Prelude.{◌≡◌, ◌≤◌, ◌++◌, ◌∷◌, ◌-◌, ◌*◌, ◌+◌, [], OnOk, IfOk, length, map, string_bytes, take};
ghost use Rattle.std.specs.List.{flat_map};
ghost use Rattle.std.specs.List.Sorted.{IsNonDecreasingBy, IsPermutation};
ghost use Rattle.status_table.specs.Heads.{group_line, head_line, idle_line, totals_line};
ghost use Rattle.status_table.specs.Lines.{session_line, user_line};
ghost use Rattle.status_table.specs.Rates.{idle_sessions, rank};
ghost use Rattle.status_table.specs.Tables.{IsTable, all_fit, body_lines, ended, entries, entry_lines, firsts, group_lines, has_mate, headed, joined, level_lines, names_lines, rest_line, rest_lines, screen_lines, session_lines, sharers_lines, shown_groups, shown_users, summed_lines, texts, top_lines, user_names, users_fit, whole_lines};

use crate::heads::{push_group, push_head, push_idle, push_totals};
use crate::held::{level_line, lowest};
use crate::lines::{is_mate, push_rates, push_reasons, session_line, user_line};
use crate::rates::{idle_sessions, rank};
use crate::widths::push_front;
use server_status::{Direction, GroupStatus, SessionStatus, SharedAmong, Status, TransferStatus};
use std::alloc::{AllocError, Global};

/// Most columns of a line.
const COLUMNS: usize = 80;

fn push_end(screen: &mut String) -> Result<(), AllocError>
    ensures appended { OnOk result
        (string_bytes screen.new ≡ string_bytes screen.old ++ 10 ∷ []) }
{
    screen.push('\n')
}

/// Appends a line, cut to 80 columns, with a question mark for each character that a screen does not show.
fn push_ended(alloc: Global, screen: &mut String, line: &str) -> Result<(), AllocError>
    ensures appended { OnOk result
        (string_bytes screen.new ≡ string_bytes screen.old ++ ended line.now) }
{
    push_front(alloc, screen, line, COLUMNS)?;
    push_end(screen)
}

/// The lines of a screen, one after another.
fn joined(alloc: Global, lines: &[String]) -> Result<String, AllocError>
    ensures joined { IfOk result
        (λ text. string_bytes text ≡ joined (map string_bytes lines.now)) }
{
    let mut screen = String::new(alloc);
    for line in lines {
        push_ended(alloc, &mut screen, line.as_str())?;
    }
    Ok(screen)
}

/// Appends a line.
fn push(lines: &mut Vec<String>, line: String) -> Result<(), AllocError>
    ensures pushed { OnOk result (texts lines.new ≡ texts lines.old ++ string_bytes line ∷ []) }
{
    lines.push(line)?;
    Ok(())
}

fn push_text(alloc: Global, lines: &mut Vec<String>, text: &str) -> Result<(), AllocError>
    ensures pushed { OnOk result (texts lines.new ≡ texts lines.old ++ text.now ∷ []) }
{
    let line = String::from_str(alloc, text)?;
    push(lines, line)
}

// ---- above the transfers

fn push_heads(
    alloc: Global,
    lines: &mut Vec<String>,
    before: Option<&Status>,
    now: &Status,
) -> Result<(), AllocError>
    ensures pushed { OnOk result (texts lines.new ≡ texts lines.old
        ++ head_line now.now ∷ totals_line before.entry now.now ∷ idle_line now.now ∷ []) }
{
    let mut head = String::new(alloc);
    push_head(&mut head, now)?;
    let mut totals = String::new(alloc);
    push_totals(&mut totals, before, now)?;
    let mut idle = String::new(alloc);
    push_idle(alloc, &mut idle, now)?;
    push(lines, head)?;
    push(lines, totals)?;
    push(lines, idle)
}

/// Appends a line that says so if the line is shared among users.
fn push_sharers(
    alloc: Global,
    lines: &mut Vec<String>,
    sharers: SharedAmong,
) -> Result<(), AllocError>
    ensures pushed { OnOk result (texts lines.new ≡ texts lines.old ++ sharers_lines sharers) }
{
    match sharers {
        SharedAmong::Sessions => Ok(()),
        SharedAmong::Users => push_text(alloc, lines, "shared among users"),
    }
}

/// Appends the line of the tightest limit that transfers of a direction share, if there is one.
fn push_level(
    alloc: Global,
    lines: &mut Vec<String>,
    before: Option<&Status>,
    now: &Status,
    level: Option<&TransferStatus>,
) -> Result<(), AllocError>
    ensures pushed { OnOk result (texts lines.new
        ≡ texts lines.old ++ level_lines before.entry now.now level.entry) }
{
    match level {
        Some(transfer) => {
            let line = level_line(alloc, before, now, transfer)?;
            push(lines, line)
        }
        None => Ok(()),
    }
}

/// The lines above the transfers.
fn top_of(
    alloc: Global,
    before: Option<&Status>,
    now: &Status,
    shown: &[&TransferStatus],
) -> Result<Vec<String>, AllocError>
    ensures lines { IfOk result
        (λ lines. texts lines ≡ top_lines before.entry now.now shown.now) }
{
    let mut lines = Vec::new(alloc);
    push_heads(alloc, &mut lines, before, now)?;
    push_sharers(alloc, &mut lines, now.shared_among)?;
    let down = lowest(before, Direction::Down, shown);
    push_level(alloc, &mut lines, before, now, down)?;
    let up = lowest(before, Direction::Up, shown);
    push_level(alloc, &mut lines, before, now, up)?;
    Ok(lines)
}

// ---- each transfer

fn push_two(
    alloc: Global,
    lines: &mut Vec<String>,
    first: &str,
    second: &str,
) -> Result<(), AllocError>
    ensures pushed { OnOk result
        (texts lines.new ≡ texts lines.old ++ first.now ∷ second.now ∷ []) }
{
    push_text(alloc, lines, first)?;
    push_text(alloc, lines, second)
}

fn push_names(alloc: Global, lines: &mut Vec<String>) -> Result<(), AllocError>
    ensures pushed { OnOk result (texts lines.new ≡ texts lines.old ++ names_lines) }
{
    push_two(
        alloc,
        lines,
        "       user       group    from            way       1 s    10 s   least    most",
        "       held by, parts of the rounds of 1 s    done  file",
    )
}

/// Appends the two lines of a transfer.
fn push_entry(
    alloc: Global,
    lines: &mut Vec<String>,
    earlier: Option<&Status>,
    before: Option<&Status>,
    now: &Status,
    transfer: &TransferStatus,
) -> Result<(), AllocError>
    ensures pushed { OnOk result (texts lines.new ≡ texts lines.old
        ++ entry_lines earlier.entry before.entry now.now transfer.now) }
{
    let mut rates = String::new(alloc);
    push_rates(alloc, &mut rates, earlier, before, now, transfer)?;
    let mut reasons = String::new(alloc);
    push_reasons(alloc, &mut reasons, before, transfer)?;
    push(lines, rates)?;
    push(lines, reasons)
}

fn push_entries(
    alloc: Global,
    lines: &mut Vec<String>,
    earlier: Option<&Status>,
    before: Option<&Status>,
    now: &Status,
    transfers: &[&TransferStatus],
) -> Result<(), AllocError>
    ensures pushed { OnOk result (texts lines.new ≡ texts lines.old
        ++ entries earlier.entry before.entry now.now transfers.now) }
{
    for transfer in transfers {
        push_entry(alloc, lines, earlier, before, now, transfer)?;
    }
    Ok(())
}

// ---- groups

fn push_group_lines(
    alloc: Global,
    lines: &mut Vec<String>,
    before: Option<&Status>,
    now: &Status,
    groups: &[GroupStatus],
) -> Result<(), AllocError>
    ensures pushed { OnOk result (texts lines.new ≡ texts lines.old
        ++ map (group_line before.entry now.now) groups.now) }
{
    for group in groups {
        let mut line = String::new(alloc);
        push_group(alloc, &mut line, before, now, group)?;
        push(lines, line)?;
    }
    Ok(())
}

/// Appends the lines of the first groups.
fn push_groups(
    alloc: Global,
    lines: &mut Vec<String>,
    before: Option<&Status>,
    now: &Status,
    count: usize,
) -> Result<(), AllocError>
    requires count { count ≤ length now.now.groups.items }
    ensures pushed { OnOk result (texts lines.new ≡ texts lines.old
        ++ group_lines before.entry now.now count) }
{
    let groups = now.groups.as_slice();
    push_group_lines(alloc, lines, before, now, &groups[..count])
}

// ---- idle sessions

fn push_session_lines(
    alloc: Global,
    lines: &mut Vec<String>,
    now: &Status,
    sessions: &[&SessionStatus],
) -> Result<(), AllocError>
    ensures pushed { OnOk result (texts lines.new ≡ texts lines.old
        ++ map (λ s. session_line now.now s.now) sessions.now) }
{
    for session in sessions {
        let line = session_line(alloc, now, session)?;
        push(lines, line)?;
    }
    Ok(())
}

/// Appends the lines of sessions below the names of their columns, if there are some.
fn push_headed(
    alloc: Global,
    lines: &mut Vec<String>,
    now: &Status,
    sessions: &[&SessionStatus],
) -> Result<(), AllocError>
    ensures pushed { OnOk result (texts lines.new ≡ texts lines.old
        ++ headed (map (λ s. session_line now.now s.now) sessions.now)) }
{
    if sessions.is_empty() {
        return Ok(());
    }
    let names = "idle   user       from                inside      idle     down       up";
    push_text(alloc, lines, names)?;
    push_session_lines(alloc, lines, now, sessions)
}

/// Appends the idle sessions that a number of lines has room for.
fn push_sessions(
    alloc: Global,
    lines: &mut Vec<String>,
    now: &Status,
    space: usize,
) -> Result<(), AllocError>
    ensures pushed { OnOk result (texts lines.new ≡ texts lines.old
        ++ session_lines now.now space) }
{
    if space < 2 {
        return Ok(());
    }
    let idle = idle_sessions(alloc, now)?;
    let count = idle.len().min(space - 1);
    push_headed(alloc, lines, now, &idle.as_slice()[..count])
}

// ---- users

/// Returns whether there is a transfer of the same user and direction.
fn has_mate(seen: &[&TransferStatus], transfer: &TransferStatus) -> bool
    ensures mate { result ≡ has_mate seen.now transfer.now }
{
    for other in seen {
        if is_mate(transfer, other) {
            return true;
        }
    }
    false
}

/// The first transfer of each user and direction.
fn firsts<'s>(
    alloc: Global,
    shown: &[&'s TransferStatus],
) -> Result<Vec<&'s TransferStatus>, AllocError>
    ensures firsts { IfOk result (λ users. users.items ≡ firsts shown.now) }
{
    let mut users = Vec::new(alloc);
    for place in 0..shown.len() {
        let transfer = shown[place];
        if !has_mate(&shown[..place], transfer) {
            users.push(transfer)?;
        }
    }
    Ok(users)
}

fn push_users(
    alloc: Global,
    lines: &mut Vec<String>,
    before: Option<&Status>,
    now: &Status,
    users: &[&TransferStatus],
) -> Result<(), AllocError>
    ensures pushed { OnOk result (texts lines.new ≡ texts lines.old
        ++ map (λ t. user_line before.entry now.now t.now) users.now) }
{
    for transfer in users {
        let line = user_line(alloc, before, now, transfer)?;
        push(lines, line)?;
    }
    Ok(())
}

// ---- what fits

/// Returns whether all transfers and groups fit into a number of lines.
fn all_fit(space: usize, transfers: usize, groups: usize) -> bool
    ensures fit { result ≡ all_fit space transfers groups }
{
    2 + transfers as u128 * 2 + groups as u128 <= space as u128
}

/// Returns whether all users and groups fit.
fn users_fit(space: usize, users: usize, groups: usize) -> bool
    ensures fit { result ≡ users_fit space users groups }
{
    1 + users as u128 + groups as u128 <= space as u128
}

/// Number of the users that are shown.
fn shown_users(space: usize, users: usize, groups: usize) -> usize
    ensures shown { result ≡ shown_users space users groups }
    ensures bound { result ≤ users }
{
    if users_fit(space, users, groups) {
        return users;
    }
    users.min(space.saturating_sub(2))
}

/// Number of the groups that are shown.
fn shown_groups(space: usize, users: usize, groups: usize) -> usize
    ensures shown { result ≡ shown_groups space users groups }
    ensures bound { result ≤ groups }
{
    if users_fit(space, users, groups) {
        return groups;
    }
    let left = space.saturating_sub(2);
    groups.min(left.saturating_sub(users.min(left)))
}

fn rest_text(alloc: Global, users: usize, groups: usize) -> Result<String, AllocError>
    ensures rest { IfOk result (λ text. string_bytes text ≡ rest_line users groups) }
{
    format!(in alloc; "{users} users and {groups} groups are not shown")
}

/// Appends the numbers of those that are not shown, if there are some.
fn push_rest(
    alloc: Global,
    lines: &mut Vec<String>,
    space: usize,
    users: usize,
    groups: usize,
) -> Result<(), AllocError>
    ensures pushed { OnOk result (texts lines.new
        ≡ texts lines.old ++ rest_lines space users groups) }
{
    if users_fit(space, users, groups) {
        return Ok(());
    }
    let hidden = users - shown_users(space, users, groups);
    let others = groups - shown_groups(space, users, groups);
    let line = rest_text(alloc, hidden, others)?;
    push(lines, line)
}

// ---- the table

/// Appends each transfer, each group, and idle sessions.
fn push_whole(
    alloc: Global,
    lines: &mut Vec<String>,
    earlier: Option<&Status>,
    before: Option<&Status>,
    now: &Status,
    shown: &[&TransferStatus],
    left: usize,
) -> Result<(), AllocError>
    ensures pushed { OnOk result (texts lines.new ≡ texts lines.old
        ++ names_lines ++ entries earlier.entry before.entry now.now shown.now
        ++ group_lines before.entry now.now (length now.now.groups.items)
        ++ session_lines now.now left) }
{
    push_names(alloc, lines)?;
    push_entries(alloc, lines, earlier, before, now, shown)?;
    push_groups(alloc, lines, before, now, now.groups.len())?;
    push_sessions(alloc, lines, now, left)
}

/// Appends users, each with the sum of their transfers, and groups.
fn push_summed(
    alloc: Global,
    lines: &mut Vec<String>,
    before: Option<&Status>,
    now: &Status,
    users: &[&TransferStatus],
    space: usize,
) -> Result<(), AllocError>
    ensures pushed { OnOk result (texts lines.new ≡ texts lines.old
        ++ summed_lines before.entry now.now users.now space) }
{
    let first = shown_users(space, users.len(), now.groups.len());
    let others = shown_groups(space, users.len(), now.groups.len());
    let names = "user       group    way     no      1 s  held by, number of transfers";
    push_text(alloc, lines, names)?;
    push_users(alloc, lines, before, now, &users[..first])?;
    push_groups(alloc, lines, before, now, others)?;
    push_rest(alloc, lines, space, users.len(), now.groups.len())
}

/// Appends transfers and groups in a number of lines.
fn push_body(
    alloc: Global,
    lines: &mut Vec<String>,
    earlier: Option<&Status>,
    before: Option<&Status>,
    now: &Status,
    shown: &[&TransferStatus],
    space: usize,
) -> Result<(), AllocError>
    ensures pushed { OnOk result (texts lines.new ≡ texts lines.old
        ++ body_lines earlier.entry before.entry now.now shown.now space) }
{
    let (transfers, groups) = (shown.len(), now.groups.len());
    if all_fit(space, transfers, groups) {
        let left = space - (2 + transfers * 2 + groups);
        return push_whole(alloc, lines, earlier, before, now, shown, left);
    }
    let users = firsts(alloc, shown)?;
    push_summed(alloc, lines, before, now, &users, space)
}

fn screen_of(
    alloc: Global,
    earlier: Option<&Status>,
    before: Option<&Status>,
    now: &Status,
    shown: &[&TransferStatus],
    rows: usize,
) -> Result<Vec<String>, AllocError>
    ensures screen { IfOk result (λ lines. texts lines
        ≡ screen_lines earlier.entry before.entry now.now shown.now rows) }
{
    let mut lines = top_of(alloc, before, now, shown)?;
    let space = rows.saturating_sub(lines.len());
    push_body(alloc, &mut lines, earlier, before, now, shown, space)?;
    Ok(lines)
}

fn transfers_of<'s>(alloc: Global, now: &'s Status) -> Result<Vec<&'s TransferStatus>, AllocError>
    ensures transfers { IfOk result
        (λ refs. map (λ t. t.now) refs.items ≡ now.now.transfers.items) }
{
    let mut refs = Vec::with_capacity(alloc, now.transfers.len())?;
    for transfer in &now.transfers {
        refs.push(transfer)?;
    }
    Ok(refs)
}

/// The transfers of a status, in the order in which they are shown.
fn ordered<'s>(
    alloc: Global,
    before: Option<&Status>,
    now: &'s Status,
) -> Result<Vec<&'s TransferStatus>, AllocError>
    ensures all { IfOk result
        (λ shown. IsPermutation now.now.transfers.items (map (λ t. t.now) shown.items)) }
    ensures ordered { IfOk result
        (λ shown. IsNonDecreasingBy (λ t. rank before.entry now.now t.now) shown.items) }
{
    let mut shown = transfers_of(alloc, now)?;
    shown.sort_unstable_by_key(|transfer| rank(before, now, transfer));
    Ok(shown)
}

/// The first lines of a screen, one after another.
fn first_lines(alloc: Global, lines: &[String], rows: usize) -> Result<String, AllocError>
    ensures joined { IfOk result
        (λ text. string_bytes text ≡ joined (take rows (map string_bytes lines.now))) }
{
    let count = lines.len().min(rows);
    joined(alloc, &lines[..count])
}

/// The table of the transfers of a status, in at most `rows` lines of at most 80 columns: what each gets since the
/// statuses of a second and of ten seconds before, or since its begin, and what holds it back. If not all transfers fit,
/// those of a user in a direction have one line together. Fails if memory runs out.
pub fn table_lines(
    alloc: Global,
    earlier: Option<&Status>,
    before: Option<&Status>,
    now: &Status,
    rows: usize,
) -> Result<String, AllocError>
    requires rows { 6 ≤ rows }
    ensures table { IfOk result
        (λ text. IsTable earlier.entry before.entry now.now rows (string_bytes text)) }
{
    let shown = ordered(alloc, before, now)?;
    let lines = screen_of(alloc, earlier, before, now, &shown, rows)?;
    first_lines(alloc, &lines, rows)
}
