//! A status as a text of JSON.

ghost use Rattle.std.specs.Prelude.{◌≡◌, ◌++◌, ◌∷◌, [], IfOk, OnOk, string_bytes};
ghost use Rattle.serde_json.specs.View.{members_view, view};
ghost use Rattle.server_status.specs.Members.{client_members, line_members, login_members, moment_members, part_members, people_members, total_members};
ghost use Rattle.server_status.specs.StatusData.{IsStatusText, status_data};

use crate::status::Status;
use crate::values::{
    account_values, ends_value, group_values, held_value, line_value, rate_value, session_values,
    sharers_text, transfer_values,
};
use serde_json::{Map, Value, put};
use std::alloc::{AllocError, Global};

/// Puts the version of the form, its unit, and the moment.
fn put_moment(
    map: &mut Map<String, Value>,
    alloc: Global,
    status: &Status,
) -> Result<(), AllocError>
    ensures moment { OnOk result (members_view map.new.entries
        ≡ moment_members status.now (members_view map.old.entries)) }
{
    put(map, alloc, "version", Value::from(1u64))?;
    put(map, alloc, "unit", Value::try_from_str(alloc, "octets")?)?;
    put(map, alloc, "started", Value::from(status.started))?;
    put(map, alloc, "micros", Value::from(status.micros))
}

/// Puts the numbers of users, of clients and of lanes, of those that were refused, and of what an end waits for.
fn put_clients(
    map: &mut Map<String, Value>,
    alloc: Global,
    status: &Status,
) -> Result<(), AllocError>
    ensures clients { OnOk result (members_view map.new.entries
        ≡ client_members status.now (members_view map.old.entries)) }
{
    put(map, alloc, "users", Value::from(status.users))?;
    put(map, alloc, "sessions", Value::from(status.sessions))?;
    put(map, alloc, "max_sessions", Value::from(status.max_sessions))?;
    put(map, alloc, "lanes", Value::from(status.lanes))?;
    put(
        map,
        alloc,
        "failed_logins",
        Value::from(status.failed_logins),
    )?;
    put(map, alloc, "refused", Value::from(status.refused))?;
    put(map, alloc, "waits", Value::from(status.waits))
}

/// Puts the totals.
fn put_totals(
    map: &mut Map<String, Value>,
    alloc: Global,
    status: &Status,
) -> Result<(), AllocError>
    ensures totals { OnOk result (members_view map.new.entries
        ≡ total_members status.now (members_view map.old.entries)) }
{
    put(map, alloc, "issued", Value::from(status.issued))?;
    put(
        map,
        alloc,
        "ended_granted",
        Value::from(status.ended_granted),
    )?;
    put(map, alloc, "ended_moved", Value::from(status.ended_moved))?;
    put(map, alloc, "ended", Value::from(status.ended))?;
    put(map, alloc, "endings", ends_value(alloc, status.endings)?)
}

/// Puts what came of logins, and the number of lines that were lost.
fn put_logins(
    map: &mut Map<String, Value>,
    alloc: Global,
    status: &Status,
) -> Result<(), AllocError>
    ensures logins { OnOk result (members_view map.new.entries
        ≡ login_members status.now (members_view map.old.entries)) }
{
    let unguaranteed = status.refused_guarantees;
    put(map, alloc, "logins", Value::from(status.logins))?;
    put(
        map,
        alloc,
        "refused_logins",
        Value::from(status.refused_logins),
    )?;
    put(map, alloc, "refused_guarantees", Value::from(unguaranteed))?;
    put(map, alloc, "lost_lines", Value::from(status.lost_lines))
}

/// Puts what is guaranteed in all, the sessions, and what users got.
fn put_people(
    map: &mut Map<String, Value>,
    alloc: Global,
    status: &Status,
) -> Result<(), AllocError>
    ensures people { OnOk result (members_view map.new.entries
        ≡ people_members status.now (members_view map.old.entries)) }
{
    let (down, up) = (status.guaranteed_down, status.guaranteed_up);
    put(map, alloc, "guaranteed_down", rate_value(down))?;
    put(map, alloc, "guaranteed_up", rate_value(up))?;
    let sessions = session_values(alloc, &status.sessions_now)?;
    put(map, alloc, "sessions_now", Value::Array(sessions))?;
    let accounts = account_values(alloc, &status.accounts)?;
    put(map, alloc, "accounts", Value::Array(accounts))
}

/// Puts the rates of the line, and among whom it is shared.
fn put_line(map: &mut Map<String, Value>, alloc: Global, status: &Status) -> Result<(), AllocError>
    ensures line { OnOk result (members_view map.new.entries
        ≡ line_members status.now (members_view map.old.entries)) }
{
    let sharers = Value::try_from_str(alloc, sharers_text(status.shared_among))?;
    put(map, alloc, "line", line_value(alloc, status.line)?)?;
    put(map, alloc, "shared_among", sharers)
}

/// Puts the rounds, the groups and the transfers.
fn put_parts(map: &mut Map<String, Value>, alloc: Global, status: &Status) -> Result<(), AllocError>
    ensures parts { OnOk result (members_view map.new.entries
        ≡ part_members status.now (members_view map.old.entries)) }
{
    put(map, alloc, "held", held_value(alloc, status.rounds)?)?;
    let groups = group_values(alloc, &status.groups)?;
    put(map, alloc, "groups", Value::Array(groups))?;
    let transfers = transfer_values(alloc, &status.transfers)?;
    put(map, alloc, "transfers", Value::Array(transfers))
}

fn status_value(alloc: Global, status: &Status) -> Result<Value, AllocError>
    ensures status { IfOk result (λ v. view v ≡ status_data status.now) }
{
    let mut map = Map::new(alloc);
    put_moment(&mut map, alloc, status)?;
    put_clients(&mut map, alloc, status)?;
    put_totals(&mut map, alloc, status)?;
    put_line(&mut map, alloc, status)?;
    put_parts(&mut map, alloc, status)?;
    put_logins(&mut map, alloc, status)?;
    put_people(&mut map, alloc, status)?;
    Ok(Value::Object(map))
}

/// A line of its own, with a line feed at its end.
fn line_of(alloc: Global, text: &str) -> Result<String, AllocError>
    ensures line { IfOk result (λ line. string_bytes line ≡ text.now ++ 10 ∷ []) }
{
    format!(in alloc; "{text}\n")
}

/// The status as a text of JSON and a line feed.
pub fn status_text(alloc: Global, status: &Status) -> Result<String, AllocError>
    ensures text { IfOk result (λ text. IsStatusText status.now (string_bytes text)) }
{
    let value = status_value(alloc, status)?;
    let json = value.to_string(alloc)?;
    line_of(alloc, json.as_str())
}
