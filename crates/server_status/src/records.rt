//! The records of a status that a value has. A member that is not there is read as none.

ghost use Rattle.std.specs.Prelude.{◌≡◌, IfOk, Some, codes, map, option_map, string_bytes};
ghost use Rattle.serde_json.specs.View.{view};
ghost use Rattle.server_status.specs.StatusRead.{AreOf, HasMembers, IsAccountOf, IsGroupOf, IsPeerIn, IsSessionOf, IsTransferOf, count_if_in, count_in, direction_in, ends_in, flag_in, held_in, line_in, list_in, member_in, sharers_in, text_if_in, text_in};

use crate::judging::{address_of, direction_of, list, sharers_of};
use crate::status::{
    AccountStatus, Direction, EndCounts, GroupStatus, HeldRounds, LineRates, SessionStatus,
    SharedAmong, Status, TransferStatus,
};
use serde_json::Value;
use std::alloc::{AllocError, Global};

fn member<'v>(row: Option<&'v Value>, name: &str) -> Option<&'v Value>
    ensures member { option_map (λ v. view v.now) result
        ≡ member_in name.now (option_map (λ v. view v.now) row.entry) }
{
    match row {
        Some(value) => value.get(name),
        None => None,
    }
}

fn count_if(row: Option<&Value>, name: &str) -> Option<u64>
    ensures count { result ≡ count_if_in name.now (option_map (λ v. view v.now) row.entry) }
{
    match member(row, name) {
        Some(value) => value.as_u64(),
        None => None,
    }
}

fn count(row: Option<&Value>, name: &str) -> u64
    ensures count { result ≡ count_in name.now (option_map (λ v. view v.now) row.entry) }
{
    match count_if(row, name) {
        Some(count) => count,
        None => 0,
    }
}

fn flag(row: Option<&Value>, name: &str) -> bool
    ensures flag { result ≡ flag_in name.now (option_map (λ v. view v.now) row.entry) }
{
    match member(row, name) {
        Some(value) => match value.as_bool() {
            Some(flag) => flag,
            None => false,
        },
        None => false,
    }
}

fn direction(row: Option<&Value>, name: &str) -> Direction
    ensures direction { result
        ≡ direction_in name.now (option_map (λ v. view v.now) row.entry) }
{
    match member(row, name) {
        Some(value) => match direction_of(value) {
            Some(direction) => direction,
            None => Direction::Down,
        },
        None => Direction::Down,
    }
}

fn sharers(row: Option<&Value>, name: &str) -> SharedAmong
    ensures sharers { result ≡ sharers_in name.now (option_map (λ v. view v.now) row.entry) }
{
    match member(row, name) {
        Some(value) => match sharers_of(value) {
            Some(sharers) => sharers,
            None => SharedAmong::Sessions,
        },
        None => SharedAmong::Sessions,
    }
}

fn peer(row: Option<&Value>, name: &str) -> [u8; 4]
    ensures peer { IsPeerIn name.now (option_map (λ v. view v.now) row.entry) result }
{
    match member(row, name) {
        Some(value) => match address_of(value) {
            Some(address) => address.octets(),
            None => [0, 0, 0, 0],
        },
        None => [0, 0, 0, 0],
    }
}

fn text_if<'v>(row: Option<&'v Value>, name: &str) -> Option<&'v str>
    ensures text { option_map (λ s. s.now) result
        ≡ text_if_in name.now (option_map (λ v. view v.now) row.entry) }
{
    match member(row, name) {
        Some(value) => value.as_str(),
        None => None,
    }
}

/// A text of its own.
fn text_of(alloc: Global, row: Option<&Value>, name: &str) -> Result<String, AllocError>
    ensures text { IfOk result (λ text. string_bytes text
        ≡ text_in name.now (option_map (λ v. view v.now) row.entry)) }
{
    match text_if(row, name) {
        Some(text) => String::from_str(alloc, text),
        None => Ok(String::new(alloc)),
    }
}

/// A text of its own, if there is one.
fn text_if_of(alloc: Global, row: Option<&Value>, name: &str) -> Result<Option<String>, AllocError>
    ensures text { IfOk result (λ text. option_map string_bytes text
        ≡ text_if_in name.now (option_map (λ v. view v.now) row.entry)) }
{
    match text_if(row, name) {
        Some(text) => Ok(Some(String::from_str(alloc, text)?)),
        None => Ok(None),
    }
}

fn held(row: Option<&Value>) -> HeldRounds
    ensures rounds { result ≡ held_in (option_map (λ v. view v.now) row.entry) }
{
    HeldRounds {
        server: count(row, "server"),
        direction: count(row, "direction"),
        group: count(row, "group"),
        user: count(row, "user"),
        session: count(row, "session"),
        nothing: count(row, "nothing"),
    }
}

fn ends(row: Option<&Value>) -> EndCounts
    ensures ends { result ≡ ends_in (option_map (λ v. view v.now) row.entry) }
{
    EndCounts {
        whole: count(row, "whole"),
        aborted: count(row, "aborted"),
        unconnected: count(row, "unconnected"),
        lost: count(row, "lost"),
        file: count(row, "file"),
        memory: count(row, "memory"),
        owner: count(row, "owner"),
    }
}

fn line(row: Option<&Value>) -> LineRates
    ensures line { result ≡ line_in (option_map (λ v. view v.now) row.entry) }
{
    LineRates {
        both: count(row, "both"),
        down: count(row, "down"),
        up: count(row, "up"),
    }
}

fn group_of(alloc: Global, value: &Value) -> Result<GroupStatus, AllocError>
    ensures group { IfOk result (IsGroupOf (view value.now)) }
{
    let row = Some(value);
    let name = text_of(alloc, row, "name")?;
    Ok(GroupStatus {
        name,
        down: count(row, "down"),
        up: count(row, "up"),
        guaranteed_down: count(row, "guaranteed_down"),
        guaranteed_up: count(row, "guaranteed_up"),
    })
}

fn groups_of(alloc: Global, values: &[Value]) -> Result<Vec<GroupStatus>, AllocError>
    ensures groups { IfOk result
        (λ groups. AreOf IsGroupOf (map view values.now) groups.items) }
{
    let mut groups = Vec::with_capacity(alloc, values.len())?;
    for value in values {
        groups.push(group_of(alloc, value)?)?;
    }
    Ok(groups)
}

fn session_of(alloc: Global, value: &Value) -> Result<SessionStatus, AllocError>
    ensures session { IfOk result (IsSessionOf (view value.now)) }
{
    let row = Some(value);
    let user = text_if_of(alloc, row, "user")?;
    let group = text_if_of(alloc, row, "group")?;
    Ok(SessionStatus {
        session: count(row, "session"),
        user,
        group,
        peer: peer(row, "peer"),
        begun: count(row, "begun"),
        active: count(row, "active"),
        guaranteed_down: count(row, "guaranteed_down"),
        guaranteed_up: count(row, "guaranteed_up"),
    })
}

fn sessions_of(alloc: Global, values: &[Value]) -> Result<Vec<SessionStatus>, AllocError>
    ensures sessions { IfOk result
        (λ sessions. AreOf IsSessionOf (map view values.now) sessions.items) }
{
    let mut sessions = Vec::with_capacity(alloc, values.len())?;
    for value in values {
        sessions.push(session_of(alloc, value)?)?;
    }
    Ok(sessions)
}

fn account_of(alloc: Global, value: &Value) -> Result<AccountStatus, AllocError>
    ensures account { IfOk result (IsAccountOf (view value.now)) }
{
    let row = Some(value);
    let user = text_of(alloc, row, "user")?;
    let group = text_if_of(alloc, row, "group")?;
    Ok(AccountStatus {
        user,
        group,
        granted_down: count(row, "granted_down"),
        granted_up: count(row, "granted_up"),
        unmet_down: count(row, "unmet_down"),
        unmet_up: count(row, "unmet_up"),
    })
}

fn accounts_of(alloc: Global, values: &[Value]) -> Result<Vec<AccountStatus>, AllocError>
    ensures accounts { IfOk result
        (λ accounts. AreOf IsAccountOf (map view values.now) accounts.items) }
{
    let mut accounts = Vec::with_capacity(alloc, values.len())?;
    for value in values {
        accounts.push(account_of(alloc, value)?)?;
    }
    Ok(accounts)
}

/// A transfer, given its texts.
fn with_texts(
    value: &Value,
    user: String,
    group: Option<String>,
    path: Option<String>,
) -> TransferStatus
    requires user { string_bytes user ≡ text_in (codes "user") (Some (view value.now)) }
    requires group { option_map string_bytes group
        ≡ text_if_in (codes "group") (Some (view value.now)) }
    requires path { option_map string_bytes path
        ≡ text_if_in (codes "path") (Some (view value.now)) }
    ensures transfer { IsTransferOf (view value.now) result }
{
    let row = Some(value);
    TransferStatus {
        session: count(row, "session"),
        user,
        group,
        peer: peer(row, "peer"),
        direction: direction(row, "direction"),
        path,
        size: count_if(row, "size"),
        begun: count(row, "begun"),
        is_waiting: flag(row, "waiting"),
        granted: count(row, "granted"),
        moved: count(row, "moved"),
        rounds: held(member(row, "held")),
        guaranteed: count(row, "guaranteed"),
        session_rate: count(row, "session_rate"),
        user_rate: count(row, "user_rate"),
    }
}

fn transfer_of(alloc: Global, value: &Value) -> Result<TransferStatus, AllocError>
    ensures transfer { IfOk result (IsTransferOf (view value.now)) }
{
    let row = Some(value);
    let user = text_of(alloc, row, "user")?;
    let group = text_if_of(alloc, row, "group")?;
    let path = text_if_of(alloc, row, "path")?;
    Ok(with_texts(value, user, group, path))
}

fn transfers_of(alloc: Global, values: &[Value]) -> Result<Vec<TransferStatus>, AllocError>
    ensures transfers { IfOk result
        (λ transfers. AreOf IsTransferOf (map view values.now) transfers.items) }
{
    let mut transfers = Vec::with_capacity(alloc, values.len())?;
    for value in values {
        transfers.push(transfer_of(alloc, value)?)?;
    }
    Ok(transfers)
}

/// A status, given its lists.
fn with_lists(
    value: &Value,
    groups: Vec<GroupStatus>,
    transfers: Vec<TransferStatus>,
    sessions: Vec<SessionStatus>,
    accounts: Vec<AccountStatus>,
) -> Status
    requires groups { AreOf IsGroupOf
        (list_in (codes "groups") (Some (view value.now))) groups.items }
    requires transfers { AreOf IsTransferOf
        (list_in (codes "transfers") (Some (view value.now))) transfers.items }
    requires sessions { AreOf IsSessionOf
        (list_in (codes "sessions_now") (Some (view value.now))) sessions.items }
    requires accounts { AreOf IsAccountOf
        (list_in (codes "accounts") (Some (view value.now))) accounts.items }
    ensures status { HasMembers (view value.now) result }
{
    let row = Some(value);
    Status {
        started: count(row, "started"),
        micros: count(row, "micros"),
        line: line(member(row, "line")),
        shared_among: sharers(row, "shared_among"),
        guaranteed_down: count(row, "guaranteed_down"),
        guaranteed_up: count(row, "guaranteed_up"),
        groups,
        users: count(row, "users"),
        sessions: count(row, "sessions"),
        max_sessions: count(row, "max_sessions"),
        lanes: count(row, "lanes"),
        issued: count(row, "issued"),
        ended_granted: count(row, "ended_granted"),
        ended_moved: count(row, "ended_moved"),
        ended: count(row, "ended"),
        endings: ends(member(row, "endings")),
        rounds: held(member(row, "held")),
        logins: count(row, "logins"),
        failed_logins: count(row, "failed_logins"),
        refused_logins: count(row, "refused_logins"),
        refused_guarantees: count(row, "refused_guarantees"),
        refused: count(row, "refused"),
        lost_lines: count(row, "lost_lines"),
        waits: count(row, "waits"),
        transfers,
        sessions_now: sessions,
        accounts,
    }
}

/// The status whose members the value has.
pub(crate) fn status_of(alloc: Global, value: &Value) -> Result<Status, AllocError>
    ensures status { IfOk result (HasMembers (view value.now)) }
{
    let groups = groups_of(alloc, list(value, "groups"))?;
    let transfers = transfers_of(alloc, list(value, "transfers"))?;
    let sessions = sessions_of(alloc, list(value, "sessions_now"))?;
    let accounts = accounts_of(alloc, list(value, "accounts"))?;
    Ok(with_lists(value, groups, transfers, sessions, accounts))
}
