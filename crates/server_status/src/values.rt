//! The records of a status as JSON.

ghost use Rattle.std.specs.Prelude.{◌≡◌, IfOk, OnOk, map, option_map};
ghost use Rattle.serde_json.specs.View.{members_view, view};
ghost use Rattle.server_status.specs.Members.{client_of, course_members, file_members, owner_members, rate_members, stay_of};
ghost use Rattle.server_status.specs.StatusData.{account_data, count_if_data, direction_text, ends_data, group_data, held_data, line_data, peer_data, rate_data, session_data, sharers_text, text_data, text_if_data, transfer_data};

use crate::status::{
    AccountStatus, Direction, EndCounts, GroupStatus, HeldRounds, LineRates, Rate, SessionStatus,
    SharedAmong, TransferStatus,
};
use serde_json::{Map, Value, json, put};
use std::alloc::{AllocError, Global};
use std::net::Ipv4Addr;

/// A rate, or null for none.
pub(crate) fn rate_value(rate: Rate) -> Value
    ensures rate { view result ≡ rate_data rate }
{
    if rate == 0 {
        Value::Null
    } else {
        Value::from(rate)
    }
}

/// A number, or null if it is not known.
fn count_if_value(count: Option<u64>) -> Value
    ensures count { view result ≡ count_if_data count }
{
    match count {
        Some(count) => Value::from(count),
        None => Value::Null,
    }
}

fn text_value(alloc: Global, text: &String) -> Result<Value, AllocError>
    ensures text { IfOk result (λ v. view v ≡ text_data text.now) }
{
    Value::try_from_str(alloc, text.as_str())
}

/// A text, or null for none.
fn text_if_value(alloc: Global, text: &Option<String>) -> Result<Value, AllocError>
    ensures text { IfOk result (λ v. view v ≡ text_if_data text.now) }
{
    match text {
        Some(text) => text_value(alloc, text),
        None => Ok(Value::Null),
    }
}

fn direction_text(direction: Direction) -> &'static str
    ensures text { result.now ≡ direction_text direction }
{
    match direction {
        Direction::Down => "down",
        Direction::Up => "up",
    }
}

/// Those among whom a line is shared, by their name.
pub(crate) fn sharers_text(sharers: SharedAmong) -> &'static str
    ensures text { result.now ≡ sharers_text sharers }
{
    match sharers {
        SharedAmong::Sessions => "sessions",
        SharedAmong::Users => "users",
    }
}

/// An address, as a dotted text.
fn peer_value(alloc: Global, peer: [u8; 4]) -> Result<Value, AllocError>
    ensures peer { IfOk result (λ v. view v ≡ peer_data peer) }
{
    let address = Ipv4Addr::from_octets(peer);
    let text = format!(in alloc; "{address}")?;
    Ok(Value::from(text))
}

/// Numbers of rounds, by what held transfers back in them.
pub(crate) fn held_value(alloc: Global, rounds: HeldRounds) -> Result<Value, AllocError>
    ensures rounds { IfOk result (λ v. view v ≡ held_data rounds) }
{
    json!(in alloc; {
        "direction": rounds.direction,
        "group": rounds.group,
        "nothing": rounds.nothing,
        "server": rounds.server,
        "session": rounds.session,
        "user": rounds.user
    })
}

/// Numbers of transfers that have ended, by how they did.
pub(crate) fn ends_value(alloc: Global, ends: EndCounts) -> Result<Value, AllocError>
    ensures ends { IfOk result (λ v. view v ≡ ends_data ends) }
{
    json!(in alloc; {
        "aborted": ends.aborted,
        "file": ends.file,
        "lost": ends.lost,
        "memory": ends.memory,
        "owner": ends.owner,
        "unconnected": ends.unconnected,
        "whole": ends.whole
    })
}

/// The rates of the whole line.
pub(crate) fn line_value(alloc: Global, line: LineRates) -> Result<Value, AllocError>
    ensures line { IfOk result (λ v. view v ≡ line_data line) }
{
    json!(in alloc; {
        "both": rate_value(line.both),
        "down": rate_value(line.down),
        "up": rate_value(line.up)
    })
}

fn group_value(alloc: Global, group: &GroupStatus) -> Result<Value, AllocError>
    ensures group { IfOk result (λ v. view v ≡ group_data group.now) }
{
    json!(in alloc; {
        "down": rate_value(group.down),
        "guaranteed_down": rate_value(group.guaranteed_down),
        "guaranteed_up": rate_value(group.guaranteed_up),
        "name": group.name.as_str(),
        "up": rate_value(group.up)
    })
}

/// The groups, in their order.
pub(crate) fn group_values(alloc: Global, groups: &[GroupStatus]) -> Result<Vec<Value>, AllocError>
    ensures groups { IfOk result
        (λ values. map view values.items ≡ map group_data groups.now) }
{
    let mut values = Vec::with_capacity(alloc, groups.len())?;
    for group in groups {
        values.push(group_value(alloc, group)?)?;
    }
    Ok(values)
}

/// Puts whose a session is.
fn put_client(
    map: &mut Map<String, Value>,
    alloc: Global,
    session: &SessionStatus,
) -> Result<(), AllocError>
    ensures client { OnOk result (members_view map.new.entries
        ≡ client_of session.now (members_view map.old.entries)) }
{
    put(map, alloc, "session", Value::from(session.session))?;
    put(map, alloc, "user", text_if_value(alloc, &session.user)?)?;
    put(map, alloc, "group", text_if_value(alloc, &session.group)?)?;
    put(map, alloc, "peer", peer_value(alloc, session.peer)?)
}

/// Puts since when a session is there, and what is guaranteed to it.
fn put_stay(
    map: &mut Map<String, Value>,
    alloc: Global,
    session: &SessionStatus,
) -> Result<(), AllocError>
    ensures stay { OnOk result (members_view map.new.entries
        ≡ stay_of session.now (members_view map.old.entries)) }
{
    let (down, up) = (session.guaranteed_down, session.guaranteed_up);
    put(map, alloc, "begun", Value::from(session.begun))?;
    put(map, alloc, "active", Value::from(session.active))?;
    put(map, alloc, "guaranteed_down", rate_value(down))?;
    put(map, alloc, "guaranteed_up", rate_value(up))
}

fn session_value(alloc: Global, session: &SessionStatus) -> Result<Value, AllocError>
    ensures session { IfOk result (λ v. view v ≡ session_data session.now) }
{
    let mut map = Map::new(alloc);
    put_client(&mut map, alloc, session)?;
    put_stay(&mut map, alloc, session)?;
    Ok(Value::Object(map))
}

/// The sessions, in their order.
pub(crate) fn session_values(
    alloc: Global,
    sessions: &[SessionStatus],
) -> Result<Vec<Value>, AllocError>
    ensures sessions { IfOk result
        (λ values. map view values.items ≡ map session_data sessions.now) }
{
    let mut values = Vec::with_capacity(alloc, sessions.len())?;
    for session in sessions {
        values.push(session_value(alloc, session)?)?;
    }
    Ok(values)
}

fn account_value(alloc: Global, account: &AccountStatus) -> Result<Value, AllocError>
    ensures account { IfOk result (λ v. view v ≡ account_data account.now) }
{
    let group = text_if_value(alloc, &account.group)?;
    json!(in alloc; {
        "granted_down": account.granted_down,
        "granted_up": account.granted_up,
        "group": group,
        "unmet_down": account.unmet_down,
        "unmet_up": account.unmet_up,
        "user": account.user.as_str()
    })
}

/// The accounts, in their order.
pub(crate) fn account_values(
    alloc: Global,
    accounts: &[AccountStatus],
) -> Result<Vec<Value>, AllocError>
    ensures accounts { IfOk result
        (λ values. map view values.items ≡ map account_data accounts.now) }
{
    let mut values = Vec::with_capacity(alloc, accounts.len())?;
    for account in accounts {
        values.push(account_value(alloc, account)?)?;
    }
    Ok(values)
}

/// Puts the session of a transfer, and who has it.
fn put_owner(
    map: &mut Map<String, Value>,
    alloc: Global,
    transfer: &TransferStatus,
) -> Result<(), AllocError>
    ensures owner { OnOk result (members_view map.new.entries
        ≡ owner_members transfer.now (members_view map.old.entries)) }
{
    put(map, alloc, "session", Value::from(transfer.session))?;
    put(map, alloc, "user", text_value(alloc, &transfer.user)?)?;
    put(map, alloc, "group", text_if_value(alloc, &transfer.group)?)?;
    put(map, alloc, "peer", peer_value(alloc, transfer.peer)?)
}

/// Puts what is transferred.
fn put_file(
    map: &mut Map<String, Value>,
    alloc: Global,
    transfer: &TransferStatus,
) -> Result<(), AllocError>
    ensures file { OnOk result (members_view map.new.entries
        ≡ file_members transfer.now (members_view map.old.entries)) }
{
    let direction = Value::try_from_str(alloc, direction_text(transfer.direction))?;
    put(map, alloc, "direction", direction)?;
    put(map, alloc, "path", text_if_value(alloc, &transfer.path)?)?;
    put(map, alloc, "size", count_if_value(transfer.size))
}

/// Puts how far a transfer is.
fn put_course(
    map: &mut Map<String, Value>,
    alloc: Global,
    transfer: &TransferStatus,
) -> Result<(), AllocError>
    ensures course { OnOk result (members_view map.new.entries
        ≡ course_members transfer.now (members_view map.old.entries)) }
{
    put(map, alloc, "begun", Value::from(transfer.begun))?;
    put(map, alloc, "waiting", Value::from(transfer.is_waiting))?;
    put(map, alloc, "granted", Value::from(transfer.granted))?;
    put(map, alloc, "moved", Value::from(transfer.moved))?;
    put(map, alloc, "held", held_value(alloc, transfer.rounds)?)
}

/// Puts the rates of a transfer.
fn put_rates(
    map: &mut Map<String, Value>,
    alloc: Global,
    transfer: &TransferStatus,
) -> Result<(), AllocError>
    ensures rates { OnOk result (members_view map.new.entries
        ≡ rate_members transfer.now (members_view map.old.entries)) }
{
    put(map, alloc, "guaranteed", rate_value(transfer.guaranteed))?;
    put(
        map,
        alloc,
        "session_rate",
        rate_value(transfer.session_rate),
    )?;
    put(map, alloc, "user_rate", rate_value(transfer.user_rate))
}

fn transfer_value(alloc: Global, transfer: &TransferStatus) -> Result<Value, AllocError>
    ensures transfer { IfOk result (λ v. view v ≡ transfer_data transfer.now) }
{
    let mut map = Map::new(alloc);
    put_owner(&mut map, alloc, transfer)?;
    put_file(&mut map, alloc, transfer)?;
    put_course(&mut map, alloc, transfer)?;
    put_rates(&mut map, alloc, transfer)?;
    Ok(Value::Object(map))
}

/// The transfers, in their order.
pub(crate) fn transfer_values(
    alloc: Global,
    transfers: &[TransferStatus],
) -> Result<Vec<Value>, AllocError>
    ensures transfers { IfOk result
        (λ values. map view values.items ≡ map transfer_data transfers.now) }
{
    let mut values = Vec::with_capacity(alloc, transfers.len())?;
    for transfer in transfers {
        values.push(transfer_value(alloc, transfer)?)?;
    }
    Ok(values)
}
