//! A status, made of what is known.

ghost use Rattle.std.specs.Prelude.{◌≡◌, ◌+◌, IfNone, IfOk, IfSome, None, option_map, string_bytes};
ghost use Rattle.std.specs.Option.{option_and_then};
ghost use Rattle.std.specs.FinMap as finite;
ghost use Rattle.line_rates.specs.Rates.{floor_rate};
ghost use Rattle.status_keeper.specs.Made.{AreAccounts, AreGroups, AreRows, AreSessions, IsAccount, IsGroup, IsLaneOf, IsRow, IsSession, IsStatus, active_at, among_of, direction_of, granted_in, granted_now, group_in, guaranteed_of, is_inside, is_owned, is_transferring, line_of, promised, promised_in, promised_to, rounds_of, rounds_with, same_towards, way_of};

use crate::facts::{Counts, KeptAccount, KeptSession, KeptTransfer, StatedGroup, StatusFacts};
use line_rates::{Limits, Name, ShareBy, Way};
use round_tally::HeldTally;
use server_house::{LaneLook, ServerLook, TransferKind};
use server_status::{
    AccountStatus, Direction, GroupStatus, HeldRounds, LineRates, SessionStatus, SharedAmong,
    Status, TransferStatus,
};
use std::alloc::{AllocError, Global};

// The direction of a transfer's kind.
pub(crate) fn way_of(kind: TransferKind) -> Way
    ensures way { result ≡ way_of kind }
{
    match kind {
        TransferKind::Received => Way::Up,
        TransferKind::Sent | TransferKind::Listed => Way::Down,
    }
}

fn direction_of(way: Way) -> Direction
    ensures direction { result ≡ direction_of way }
{
    match way {
        Way::Down => Direction::Down,
        Way::Up => Direction::Up,
    }
}

fn rounds_of(held: HeldTally) -> HeldRounds
    ensures rounds { result ≡ rounds_of held }
{
    HeldRounds {
        server: held.server,
        direction: held.direction,
        group: held.group,
        user: held.user,
        session: held.session,
        nothing: held.nothing,
    }
}

// The guarantee of each session of a user in a direction, in octets per second; 0 for none.
pub(crate) fn floor_rate(limits: &Limits, user: u32, way: Way) -> u64
    ensures floor { result ≡ floor_rate (finite.get limits.now.users user) way }
{
    match limits.user_row(user) {
        None => 0,
        Some(row) => match way {
            Way::Down => row.session_down_floor,
            Way::Up => row.session_up_floor,
        },
    }
}

// The lane that runs the transfer of a session, if there is one.
pub(crate) fn lane_of(lanes: &[LaneLook], session: u64) -> Option<LaneLook>
    ensures lane { IsLaneOf lanes.now session result }
{
    for lane in lanes {
        if lane.session == Some(session) {
            return Some(*lane);
        }
    }
    None
}

fn copied(alloc: Global, text: Option<&str>) -> Result<Option<String>, AllocError>
    ensures same { IfOk result
        (λ copy. option_map string_bytes copy ≡ option_map (λ t. t.now) text.entry) }
{
    match text {
        Some(text) => {
            let own = String::from_str(alloc, text)?;
            Ok(Some(own))
        }
        None => Ok(None),
    }
}

// The name of the group of a user, if there is one.
pub(crate) fn group_name<'a>(facts: &'a StatusFacts, user: u32) -> Option<&'a str>
    ensures group { option_map (λ t. t.now) result ≡ group_in facts.now user }
{
    let group = facts.limits.group_of(user)?;
    let name = facts.groups.get(group as usize)?;
    Some(name.as_str())
}

fn path_of<'a>(transfer: &'a KeptTransfer) -> Option<&'a str>
    ensures path { option_map (λ t. t.now) result ≡ option_map string_bytes transfer.now.path }
{
    match &transfer.path {
        Some(path) => Some(path.as_str()),
        None => None,
    }
}

// The row of a transfer.
fn row_of(
    alloc: Global,
    facts: &StatusFacts,
    transfer: &KeptTransfer,
    lanes: &[LaneLook],
) -> Result<TransferStatus, AllocError>
    ensures row { IfOk result (IsRow facts.now lanes.now transfer.now) }
{
    let lane = lane_of(lanes, transfer.connection);
    let way = way_of(transfer.kind);
    let (granted, moved, held) = match lane {
        // A lane asks and moves during a look, which may have seen a grant moved and not yet counted.
        Some(lane) => (
            lane.tally.granted,
            lane.moved.min(lane.tally.granted),
            lane.tally.all_rounds(),
        ),
        None => (0, 0, HeldTally::NONE),
    };
    Ok(TransferStatus {
        session: transfer.session,
        user: String::from_str(alloc, transfer.user.as_str())?,
        group: copied(alloc, group_name(facts, transfer.number))?,
        peer: transfer.peer,
        direction: direction_of(way),
        path: copied(alloc, path_of(transfer))?,
        size: transfer.size,
        begun: transfer.since.saturating_sub(facts.zero),
        is_waiting: lane.is_none(),
        granted,
        moved,
        rounds: rounds_of(held),
        guaranteed: floor_rate(&facts.limits, transfer.number, way),
        session_rate: facts.limits.rate(Name::Session(way, transfer.number, 0)),
        user_rate: facts.limits.rate(Name::User(way, transfer.number)),
    })
}

// The rows of transfers, in their order.
fn rows_of(
    alloc: Global,
    facts: &StatusFacts,
    transfers: &[KeptTransfer],
    lanes: &[LaneLook],
) -> Result<Vec<TransferStatus>, AllocError>
    ensures rows { IfOk result (λ rows. AreRows facts.now lanes.now transfers.now rows.items) }
{
    let mut rows = Vec::with_capacity(alloc, transfers.len())?;
    for place in 0..transfers.len() {
        rows.push(row_of(alloc, facts, &transfers[place], lanes)?)?;
    }
    Ok(rows)
}

// The octets granted to the transfers of rows.
fn granted_in(rows: &[TransferStatus]) -> u64
    ensures granted { result ≡ granted_in rows.now }
{
    let mut granted: u64 = 0;
    for row in rows {
        granted = granted.saturating_add(row.granted);
    }
    granted
}

// The rounds of lanes, with those before.
fn rounds_with(before: HeldTally, lanes: &[LaneLook]) -> HeldTally
    ensures rounds { result ≡ rounds_with before lanes.now }
{
    let mut held = before;
    for lane in lanes {
        held = held.and(lane.tally.all_rounds());
    }
    held
}

// Guarantee of a session of a user in a direction; nothing without a user.
fn guaranteed_of(facts: &StatusFacts, number: Option<u32>, way: Way) -> u64
    ensures guaranteed { result ≡ guaranteed_of facts.now number way }
{
    match number {
        Some(user) => floor_rate(&facts.limits, user, way),
        None => 0,
    }
}

// Returns whether one of these transfers is of a session.
fn is_transferring(session: u64, transfers: &[KeptTransfer]) -> bool
    ensures transferring { result ≡ is_transferring session transfers.now }
{
    transfers.iter().any(|transfer| transfer.session == session)
}

// The moment of what a session did last.
fn active_at(transfers: &[KeptTransfer], now: u64, session: &KeptSession) -> u64
    ensures active { result ≡ active_at transfers.now now session.now }
{
    if is_transferring(session.session, transfers) {
        now
    } else {
        session.active
    }
}

fn user_of<'a>(session: &'a KeptSession) -> Option<&'a str>
    ensures user { option_map (λ t. t.now) result ≡ option_map string_bytes session.now.user }
{
    match &session.user {
        Some(user) => Some(user.as_str()),
        None => None,
    }
}

// The name of the group of a user, if there is one.
fn group_if<'a>(facts: &'a StatusFacts, number: Option<u32>) -> Option<&'a str>
    ensures group { option_map (λ t. t.now) result
        ≡ option_and_then (group_in facts.now) number }
{
    match number {
        Some(user) => group_name(facts, user),
        None => None,
    }
}

// The row of a session.
fn session_of(
    alloc: Global,
    facts: &StatusFacts,
    transfers: &[KeptTransfer],
    now: u64,
    session: &KeptSession,
) -> Result<SessionStatus, AllocError>
    ensures row { IfOk result (IsSession facts.now transfers.now now session.now) }
{
    let active = active_at(transfers, now, session);
    Ok(SessionStatus {
        session: session.session,
        user: copied(alloc, user_of(session))?,
        group: copied(alloc, group_if(facts, session.number))?,
        peer: session.peer,
        begun: session.since.saturating_sub(facts.zero),
        active: active.saturating_sub(facts.zero),
        guaranteed_down: guaranteed_of(facts, session.number, Way::Down),
        guaranteed_up: guaranteed_of(facts, session.number, Way::Up),
    })
}

// The rows of sessions, in their order.
fn sessions_of(
    alloc: Global,
    facts: &StatusFacts,
    transfers: &[KeptTransfer],
    now: u64,
    sessions: &[KeptSession],
) -> Result<Vec<SessionStatus>, AllocError>
    ensures rows { IfOk result
        (λ rows. AreSessions facts.now transfers.now now sessions.now rows.items) }
{
    let mut rows = Vec::with_capacity(alloc, sessions.len())?;
    for place in 0..sessions.len() {
        rows.push(session_of(alloc, facts, transfers, now, &sessions[place])?)?;
    }
    Ok(rows)
}

fn promised_to(way: Way, row: &SessionStatus) -> u64
    ensures promised { result ≡ promised_to way row.now }
{
    match way {
        Way::Down => row.guaranteed_down,
        Way::Up => row.guaranteed_up,
    }
}

// Guarantees of all sessions together.
fn promised(way: Way, rows: &[SessionStatus]) -> u64
    ensures promised { result ≡ promised way rows.now }
{
    let mut total: u64 = 0;
    for row in rows {
        total = total.saturating_add(promised_to(way, row));
    }
    total
}

fn is_inside(name: &str, row: &SessionStatus) -> bool
    ensures inside { result ≡ is_inside name.now row.now }
{
    match &row.group {
        Some(group) => group.as_str() == name,
        None => false,
    }
}

// Guarantees of the sessions of the users of a group.
fn promised_in(name: &str, way: Way, rows: &[SessionStatus]) -> u64
    ensures promised { result ≡ promised_in name.now way rows.now }
{
    let mut total: u64 = 0;
    for row in rows {
        if is_inside(name, row) {
            total = total.saturating_add(promised_to(way, row));
        }
    }
    total
}

fn same_towards(one: Direction, other: Direction) -> bool
    ensures same { result ≡ same_towards one other }
{
    match (one, other) {
        (Direction::Down, Direction::Down) | (Direction::Up, Direction::Up) => true,
        _ => false,
    }
}

fn is_owned(user: &str, way: Direction, row: &TransferStatus) -> bool
    ensures owned { result ≡ is_owned user.now way row.now }
{
    same_towards(way, row.direction) && row.user.as_str() == user
}

// The octets granted to the transfers of a user that are there, in a direction.
fn granted_now(user: &str, way: Direction, rows: &[TransferStatus]) -> u64
    ensures granted { result ≡ granted_now user.now way rows.now }
{
    let mut granted: u64 = 0;
    for row in rows {
        if is_owned(user, way, row) {
            granted = granted.saturating_add(row.granted);
        }
    }
    granted
}

// The row of a user.
fn account_of(
    alloc: Global,
    facts: &StatusFacts,
    rows: &[TransferStatus],
    account: &KeptAccount,
) -> Result<AccountStatus, AllocError>
    ensures row { IfOk result (IsAccount facts.now rows.now account.now) }
{
    let user = account.user.as_str();
    let down = granted_now(user, Direction::Down, rows);
    let up = granted_now(user, Direction::Up, rows);
    Ok(AccountStatus {
        user: String::from_str(alloc, user)?,
        group: copied(alloc, group_name(facts, account.number))?,
        granted_down: account.granted_down.saturating_add(down),
        granted_up: account.granted_up.saturating_add(up),
        unmet_down: account.unmet_down,
        unmet_up: account.unmet_up,
    })
}

// The rows of users, in their order.
fn accounts_of(
    alloc: Global,
    facts: &StatusFacts,
    transfers: &[TransferStatus],
    accounts: &[KeptAccount],
) -> Result<Vec<AccountStatus>, AllocError>
    ensures rows { IfOk result
        (λ rows. AreAccounts facts.now transfers.now accounts.now rows.items) }
{
    let mut rows = Vec::with_capacity(alloc, accounts.len())?;
    for place in 0..accounts.len() {
        rows.push(account_of(alloc, facts, transfers, &accounts[place])?)?;
    }
    Ok(rows)
}

// A group with its rates, and what is guaranteed to the sessions of its users.
fn group_of(
    alloc: Global,
    limits: &Limits,
    sessions: &[SessionStatus],
    stated: &StatedGroup,
) -> Result<GroupStatus, AllocError>
    ensures group { IfOk result (IsGroup limits.now sessions.now stated.now) }
{
    let name = stated.name.as_str();
    Ok(GroupStatus {
        name: String::from_str(alloc, name)?,
        down: limits.rate(Name::Group(Way::Down, stated.number)),
        up: limits.rate(Name::Group(Way::Up, stated.number)),
        guaranteed_down: promised_in(name, Way::Down, sessions),
        guaranteed_up: promised_in(name, Way::Up, sessions),
    })
}

// The groups of the configuration with their rates, in its order.
fn groups_of(
    alloc: Global,
    limits: &Limits,
    sessions: &[SessionStatus],
    stated: &[StatedGroup],
) -> Result<Vec<GroupStatus>, AllocError>
    ensures groups { IfOk result
        (λ groups. AreGroups limits.now sessions.now stated.now groups.items) }
{
    let mut groups = Vec::with_capacity(alloc, stated.len())?;
    for place in 0..stated.len() {
        groups.push(group_of(alloc, limits, sessions, &stated[place])?)?;
    }
    Ok(groups)
}

fn line_of(limits: &Limits) -> LineRates
    ensures line { result ≡ line_of limits.now }
{
    LineRates {
        both: limits.rate(Name::Server),
        down: limits.rate(Name::Direction(Way::Down)),
        up: limits.rate(Name::Direction(Way::Up)),
    }
}

fn among_of(share_by: ShareBy) -> SharedAmong
    ensures among { result ≡ among_of share_by }
{
    match share_by {
        ShareBy::Sessions => SharedAmong::Sessions,
        ShareBy::Users => SharedAmong::Users,
    }
}

/// The status at a look, of the clients that are connected, of the transfers that they have begun, and of users. What was
/// issued and granted to none of these transfers was granted to transfers that have ended.
pub fn status_of(
    alloc: Global,
    facts: &StatusFacts,
    transfers: &[KeptTransfer],
    sessions: &[KeptSession],
    accounts: &[KeptAccount],
    counts: Counts,
    look: &ServerLook<'_>,
) -> Result<Status, AllocError>
    ensures status { IfOk result (IsStatus facts.now transfers.now sessions.now accounts.now
        counts look.now) }
{
    let rows = rows_of(alloc, facts, transfers, look.lanes)?;
    let inside = sessions_of(alloc, facts, transfers, look.micros, sessions)?;
    let users = accounts_of(alloc, facts, &rows, accounts)?;
    let groups = groups_of(alloc, &facts.limits, &inside, facts.stated.as_slice())?;
    let granted = granted_in(&rows);
    Ok(Status {
        started: facts.started,
        micros: look.micros.saturating_sub(facts.zero),
        line: line_of(&facts.limits),
        shared_among: among_of(facts.limits.share_by()),
        guaranteed_down: promised(Way::Down, &inside),
        guaranteed_up: promised(Way::Up, &inside),
        groups,
        users: facts.users,
        sessions: look.sessions as u64,
        max_sessions: facts.max_sessions,
        lanes: facts.lanes,
        issued: look.issued,
        ended_granted: look.issued.saturating_sub(granted),
        ended_moved: counts.ended_moved,
        ended: counts.ended,
        endings: counts.endings,
        rounds: rounds_of(rounds_with(look.ended.all_rounds(), look.lanes)),
        logins: counts.logins,
        failed_logins: counts.failed_logins,
        refused_logins: counts.refused_logins,
        refused_guarantees: counts.refused_guarantees,
        refused: counts.refused,
        lost_lines: counts.lost_lines,
        waits: counts.waits,
        transfers: rows,
        sessions_now: inside,
        accounts: users,
    })
}
