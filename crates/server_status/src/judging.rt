//! The first fault of a value that is no status.

ghost use Rattle.std.specs.Prelude.{◌≡◌, ◌↔◌, IfErr, IfSome, IsNone, IsTrue, OnOk, Some, codes, map, option_map};
ghost use Rattle.serde_json.specs.View.{view};
ghost use Rattle.server_status.specs.Fits.{AllHave, Fits, Has, HasAll, IsAddress, IsFirstFault, IsFirstFaultIn, IsMemberFault, direction_named, direction_of, found, is_unit, row_of, rows_of, sharers_named, sharers_of};
ghost use Rattle.server_status.specs.StatusRead.{IsFaultOf, IsFine, IsListFault, IsPeopleFault, IsTrafficFault, IsVersionFault, count_if_in, list_in};
ghost use Rattle.server_status.specs.Tables.{account_rows, group_rows, session_rows, transfer_rows};

use crate::fault::StatusFault;
use crate::member::{ACCOUNT, GROUP, Kind, Member, SESSION, STATUS, TRANSFER, VERSION};
use crate::status::{Direction, SharedAmong};
use serde_json::Value;
use std::net::Ipv4Addr;

fn direction_named(name: &str) -> Option<Direction>
    ensures direction { result ≡ direction_named name.now }
{
    if name == "down" {
        Some(Direction::Down)
    } else if name == "up" {
        Some(Direction::Up)
    } else {
        None
    }
}

pub(crate) fn direction_of(value: &Value) -> Option<Direction>
    ensures direction { result ≡ direction_of (view value.now) }
{
    match value.as_str() {
        Some(name) => direction_named(name),
        None => None,
    }
}

fn sharers_named(name: &str) -> Option<SharedAmong>
    ensures sharers { result ≡ sharers_named name.now }
{
    if name == "sessions" {
        Some(SharedAmong::Sessions)
    } else if name == "users" {
        Some(SharedAmong::Users)
    } else {
        None
    }
}

pub(crate) fn sharers_of(value: &Value) -> Option<SharedAmong>
    ensures sharers { result ≡ sharers_of (view value.now) }
{
    match value.as_str() {
        Some(name) => sharers_named(name),
        None => None,
    }
}

pub(crate) fn address_of(value: &Value) -> Option<Ipv4Addr>
    ensures address { IfSome result (IsAddress (view value.now)) }
    ensures none { IsNone result → ¬ Fits Kind.Address (view value.now) }
{
    match value.as_str() {
        Some(text) => text.parse::<Ipv4Addr>().ok(),
        None => None,
    }
}

fn is_unit(value: &Value) -> bool
    ensures is { result ≡ is_unit (view value.now) }
{
    match value.as_str() {
        Some(text) => text == "octets",
        None => false,
    }
}

/// Returns whether the value is of the kind.
fn fits(kind: Kind, value: &Value) -> bool
    ensures fits { IsTrue result ↔ Fits kind (view value.now) }
{
    match kind {
        Kind::Number => value.is_u64(),
        Kind::NumberOrNull => value.is_null() || value.is_u64(),
        Kind::Text => value.is_string(),
        Kind::TextOrNull => value.is_null() || value.is_string(),
        Kind::Flag => value.is_boolean(),
        Kind::Direction => direction_of(value).is_some(),
        Kind::Sharers => sharers_of(value).is_some(),
        Kind::Address => address_of(value).is_some(),
        Kind::Unit => is_unit(value),
        Kind::List => value.is_array(),
    }
}

fn found<'v>(value: &'v Value, member: &Member) -> Option<&'v Value>
    ensures found { option_map (λ v. view v.now) result
        ≡ found (row_of member.now) (view value.now) }
{
    match member.1 {
        Some(name) => match value.get(name) {
            Some(part) => part.get(member.2),
            None => None,
        },
        None => value.get(member.2),
    }
}

/// Judges a member of a record: `Err` if it is missing, or of another kind.
fn judge_member(value: &Value, member: &Member) -> Result<(), StatusFault>
    ensures has { OnOk result (Has (row_of member.now) (view value.now)) }
    ensures fault { IfErr result (IsMemberFault (row_of member.now) (view value.now)) }
{
    match found(value, member) {
        Some(held) => {
            if fits(member.3, held) {
                Ok(())
            } else {
                Err(StatusFault::OtherKind(member.0))
            }
        }
        None => Err(StatusFault::Missing(member.0)),
    }
}

/// Judges the members of a record, in their order: `Err` is the fault of the first that it has not.
fn judge_record(value: &Value, members: &[Member]) -> Result<(), StatusFault>
    ensures has { OnOk result (HasAll (rows_of members.now) (view value.now)) }
    ensures fault { IfErr result (IsFirstFault (rows_of members.now) (view value.now)) }
{
    for member in members {
        judge_member(value, member)?;
    }
    Ok(())
}

/// Judges records, in their order: `Err` is the fault of the first that has not all members.
fn judge_records(values: &[Value], members: &[Member]) -> Result<(), StatusFault>
    ensures have { OnOk result (AllHave (rows_of members.now) (map view values.now)) }
    ensures fault { IfErr result (IsFirstFaultIn (rows_of members.now) (map view values.now)) }
{
    for value in values {
        judge_record(value, members)?;
    }
    Ok(())
}

/// The elements of a list of a record; none if it has no such list.
pub(crate) fn list<'v>(value: &'v Value, name: &str) -> &'v [Value]
    ensures list { map view result.now ≡ list_in name.now (Some (view value.now)) }
{
    match value.get(name) {
        Some(found) => match found.as_array() {
            Some(values) => values.as_slice(),
            None => &[],
        },
        None => &[],
    }
}

fn judge_version(value: &Value) -> Result<(), StatusFault>
    ensures version { OnOk result
        (count_if_in (codes "version") (Some (view value.now)) ≡ Some 1) }
    ensures fault { IfErr result (IsVersionFault (view value.now)) }
{
    judge_record(value, &VERSION)?;
    match value.get("version").and_then(Value::as_u64) {
        Some(1) => Ok(()),
        Some(version) => Err(StatusFault::Version(version)),
        None => Err(StatusFault::Missing("version")),
    }
}

/// Judges the sessions of a value, and then its accounts: `Err` is their first fault.
fn judge_people(value: &Value) -> Result<(), StatusFault>
    ensures sessions { OnOk result
        (AllHave session_rows (list_in (codes "sessions_now") (Some (view value.now)))) }
    ensures accounts { OnOk result
        (AllHave account_rows (list_in (codes "accounts") (Some (view value.now)))) }
    ensures fault { IfErr result (IsPeopleFault (view value.now)) }
{
    judge_records(list(value, "sessions_now"), &SESSION)?;
    judge_records(list(value, "accounts"), &ACCOUNT)
}

/// Judges the groups of a value, and then its transfers: `Err` is their first fault.
fn judge_traffic(value: &Value) -> Result<(), StatusFault>
    ensures groups { OnOk result
        (AllHave group_rows (list_in (codes "groups") (Some (view value.now)))) }
    ensures transfers { OnOk result
        (AllHave transfer_rows (list_in (codes "transfers") (Some (view value.now)))) }
    ensures fault { IfErr result (IsTrafficFault (view value.now)) }
{
    judge_records(list(value, "groups"), &GROUP)?;
    judge_records(list(value, "transfers"), &TRANSFER)
}

/// Judges the lists of a value: `Err` is their first fault.
fn judge_lists(value: &Value) -> Result<(), StatusFault>
    ensures groups { OnOk result
        (AllHave group_rows (list_in (codes "groups") (Some (view value.now)))) }
    ensures transfers { OnOk result
        (AllHave transfer_rows (list_in (codes "transfers") (Some (view value.now)))) }
    ensures sessions { OnOk result
        (AllHave session_rows (list_in (codes "sessions_now") (Some (view value.now)))) }
    ensures accounts { OnOk result
        (AllHave account_rows (list_in (codes "accounts") (Some (view value.now)))) }
    ensures fault { IfErr result (IsListFault (view value.now)) }
{
    judge_traffic(value)?;
    judge_people(value)
}

/// Judges a value as a status: `Err` is its first fault.
pub(crate) fn judge(value: &Value) -> Result<(), StatusFault>
    ensures fine { OnOk result (IsFine (view value.now)) }
    ensures fault { IfErr result (IsFaultOf (view value.now)) }
{
    judge_version(value)?;
    judge_record(value, &STATUS)?;
    judge_lists(value)
}
