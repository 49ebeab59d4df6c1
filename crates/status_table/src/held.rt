//! The limits that hold a transfer back, in parts of its rounds.

ghost use Rattle.std.specs.Prelude.{◌≡◌, ◌++◌, [], OnOk, IfOk, string_bytes};
ghost use Rattle.std.specs.Option.{option_map_or};
ghost use Rattle.status_table.specs.Held.{held_text, holder_of, is_first, is_most, is_shared, level_line, limit_name, lowest, named_way, part_text, parts_text, place_of, rounds_by, same_limit, shared_of, total_rounds, way_text};

use crate::cells::{percent, push_amount, shown};
use crate::rates::{is_way, rate_since, rounds_since};
use server_status::{Direction, HeldRounds, Status, TransferStatus};
use std::alloc::{AllocError, Global};

/// The limit that holds a transfer back, or none.
#[derive(Clone, Copy)]
pub(crate) enum Limit {
    Server,
    Direction,
    Group,
    User,
    Session,
    /// No limit: its client asks for no more.
    Client,
}

fn total_rounds(rounds: HeldRounds) -> u128
    ensures total { result ≡ total_rounds rounds }
{
    u128::from(rounds.server)
        + u128::from(rounds.direction)
        + u128::from(rounds.group)
        + u128::from(rounds.user)
        + u128::from(rounds.session)
        + u128::from(rounds.nothing)
}

pub(crate) fn way_text(way: Direction) -> &'static str
    ensures text { result.now ≡ way_text way }
{
    match way {
        Direction::Down => "down",
        Direction::Up => "up",
    }
}

/// A name of a limit, with the name of whose it is and its direction.
fn named_way(alloc: Global, kind: &str, name: &str, way: Direction) -> Result<String, AllocError>
    ensures name { IfOk result (λ text. string_bytes text ≡ named_way kind.now name.now way) }
{
    let name = shown(alloc, name)?;
    let mut text = String::from_str(alloc, kind)?;
    text.push_str(name.as_str())?;
    text.push_str(" ")?;
    text.push_str(way_text(way))?;
    Ok(text)
}

/// The name of a group; empty for none.
fn group_of(transfer: &TransferStatus) -> &str
    ensures name { result.now
        ≡ option_map_or (λ name. string_bytes name) transfer.now.group [] }
{
    match &transfer.group {
        Some(group) => group.as_str(),
        None => "",
    }
}

/// A limit by the name that a plan gives it.
pub(crate) fn limit_name(
    alloc: Global,
    limit: Limit,
    transfer: &TransferStatus,
) -> Result<String, AllocError>
    ensures name { IfOk result (λ text. string_bytes text ≡ limit_name limit transfer.now) }
{
    let way = way_text(transfer.direction);
    match limit {
        Limit::Server => String::from_str(alloc, "server"),
        Limit::Direction => format!(in alloc; "server {way}"),
        Limit::Group => named_way(alloc, "group ", group_of(transfer), transfer.direction),
        Limit::User => named_way(alloc, "user ", transfer.user.as_str(), transfer.direction),
        Limit::Session => format!(in alloc; "session {way}"),
        Limit::Client => String::from_str(alloc, "client"),
    }
}

fn rounds_by(limit: Limit, rounds: HeldRounds) -> u64
    ensures rounds { result ≡ rounds_by limit rounds }
{
    match limit {
        Limit::Server => rounds.server,
        Limit::Direction => rounds.direction,
        Limit::Group => rounds.group,
        Limit::User => rounds.user,
        Limit::Session => rounds.session,
        Limit::Client => rounds.nothing,
    }
}

/// Appends a limit and its part of the rounds; nothing if it has none.
fn push_part(
    alloc: Global,
    line: &mut String,
    limit: Limit,
    transfer: &TransferStatus,
    rounds: HeldRounds,
) -> Result<(), AllocError>
    ensures appended { OnOk result (string_bytes line.new
        ≡ string_bytes line.old ++ part_text limit transfer.now rounds) }
{
    let part = rounds_by(limit, rounds);
    if part == 0 {
        return Ok(());
    }
    let name = limit_name(alloc, limit, transfer)?;
    let percent = percent(part, total_rounds(rounds));
    write!(line, "{name} {percent}% ")
}

fn push_parts(
    alloc: Global,
    line: &mut String,
    transfer: &TransferStatus,
    rounds: HeldRounds,
) -> Result<(), AllocError>
    ensures appended { OnOk result
        (string_bytes line.new ≡ string_bytes line.old ++ parts_text transfer.now rounds) }
{
    push_part(alloc, line, Limit::Server, transfer, rounds)?;
    push_part(alloc, line, Limit::Direction, transfer, rounds)?;
    push_part(alloc, line, Limit::Group, transfer, rounds)?;
    push_part(alloc, line, Limit::User, transfer, rounds)?;
    push_part(alloc, line, Limit::Session, transfer, rounds)?;
    push_part(alloc, line, Limit::Client, transfer, rounds)
}

/// The limits that held a transfer back since an earlier status, with their parts of its rounds.
pub(crate) fn held_cell(
    alloc: Global,
    past: Option<&Status>,
    transfer: &TransferStatus,
) -> Result<String, AllocError>
    ensures held { IfOk result (λ text. string_bytes text ≡ held_text past.entry transfer.now) }
{
    if transfer.is_waiting {
        return String::from_str(alloc, "waits for a lane");
    }
    let mut text = String::new(alloc);
    push_parts(alloc, &mut text, transfer, rounds_since(past, transfer))?;
    Ok(text)
}

fn is_most(part: u64, rounds: HeldRounds) -> bool
    ensures most { result ≡ is_most part rounds }
{
    u128::from(part) * 2 > total_rounds(rounds)
}

/// The limit of several transfers that held this one back in most of its rounds, if there is one.
fn shared_of(rounds: HeldRounds) -> Option<Limit>
    ensures shared { result ≡ shared_of rounds }
{
    if is_most(rounds.server, rounds) {
        Some(Limit::Server)
    } else if is_most(rounds.direction, rounds) {
        Some(Limit::Direction)
    } else if is_most(rounds.group, rounds) {
        Some(Limit::Group)
    } else {
        None
    }
}

fn is_shared(past: Option<&Status>, way: Direction, transfer: &TransferStatus) -> bool
    ensures shared { result ≡ is_shared past.entry way transfer.now }
{
    is_way(way, transfer) && shared_of(rounds_since(past, transfer)).is_some()
}

/// The last of these transfers, of those of a direction, that a limit of several holds back.
pub(crate) fn lowest<'s>(
    past: Option<&Status>,
    way: Direction,
    transfers: &[&'s TransferStatus],
) -> Option<&'s TransferStatus>
    ensures lowest { result ≡ lowest past.entry way transfers.now }
{
    let mut last = None;
    for transfer in transfers {
        if is_shared(past, way, transfer) {
            last = Some(*transfer);
        }
    }
    last
}

/// The limit of several transfers that holds this one back, with the rate that it gets.
pub(crate) fn level_line(
    alloc: Global,
    past: Option<&Status>,
    now: &Status,
    transfer: &TransferStatus,
) -> Result<String, AllocError>
    ensures level { IfOk result (λ text. string_bytes text
        ≡ level_line past.entry now.now transfer.now) }
{
    let mut line = String::new(alloc);
    let Some(limit) = shared_of(rounds_since(past, transfer)) else {
        return Ok(line);
    };
    let name = limit_name(alloc, limit, transfer)?;
    line.push_str("level ")?;
    line.push_str(way_text(transfer.direction))?;
    line.push_str(" ")?;
    push_amount(&mut line, rate_since(past, now, transfer))?;
    line.push_str(" a second: ")?;
    line.push_str(name.as_str())?;
    Ok(line)
}

/// Returns whether a limit has rounds, and no other one has more.
fn is_first(limit: Limit, rounds: HeldRounds) -> bool
    ensures first { result ≡ is_first limit rounds }
{
    let own = rounds_by(limit, rounds);
    own > 0
        && rounds.server <= own
        && rounds.direction <= own
        && rounds.group <= own
        && rounds.user <= own
        && rounds.session <= own
        && rounds.nothing <= own
}

/// The limit that held a transfer back in most of its rounds; of several the outermost.
pub(crate) fn holder_of(rounds: HeldRounds) -> Limit
    ensures holder { result ≡ holder_of rounds }
{
    if is_first(Limit::Server, rounds) {
        Limit::Server
    } else if is_first(Limit::Direction, rounds) {
        Limit::Direction
    } else if is_first(Limit::Group, rounds) {
        Limit::Group
    } else if is_first(Limit::User, rounds) {
        Limit::User
    } else if is_first(Limit::Session, rounds) {
        Limit::Session
    } else {
        Limit::Client
    }
}

fn place_of(limit: Limit) -> u8
    ensures place { result ≡ place_of limit }
{
    match limit {
        Limit::Server => 0,
        Limit::Direction => 1,
        Limit::Group => 2,
        Limit::User => 3,
        Limit::Session => 4,
        Limit::Client => 5,
    }
}

/// Returns whether two limits are the same.
pub(crate) fn same_limit(one: Limit, other: Limit) -> bool
    ensures same { result ≡ same_limit one other }
{
    place_of(one) == place_of(other)
}
