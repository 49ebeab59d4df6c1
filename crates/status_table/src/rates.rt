//! Rates: differences of two statuses of a server.

ghost use Rattle.std.specs.Prelude.{◌≡◌, ◌+◌, IfOk, IfSome, None, map, option_map};
ghost use Rattle.std.specs.List.{find};
ghost use Rattle.status_table.specs.Rates.{anybody, begun_total, both_total, granted_of, granted_to, group_total, idle_sessions, is_idle, is_of, is_of_group, is_same, is_way, line_total, per_second, rank, rank_of, ranked_rate, rate_since, rounds_less, rounds_since, same_way, since_begin, since_status, waiting};

use server_status::{
    AccountStatus, Direction, HeldRounds, Rate, SessionStatus, Status, TransferStatus,
};
use std::alloc::{AllocError, Global};

/// Octets a second, of octets in a time in microseconds; none in no time.
fn per_second(octets: u64, micros: u64) -> Rate
    ensures rate { result ≡ per_second octets micros }
{
    if micros == 0 {
        return 0;
    }
    let rate = u128::from(octets) * 1_000_000 / u128::from(micros);
    rate.min(u128::from(u64::MAX)) as u64
}

fn is_same(transfer: &TransferStatus, other: &TransferStatus) -> bool
    ensures same { result ≡ is_same transfer.now other.now }
{
    other.session == transfer.session && other.begun == transfer.begun
}

/// The same transfer in another status, if it is there.
fn found<'s>(past: &'s Status, transfer: &TransferStatus) -> Option<&'s TransferStatus>
    ensures found { option_map (λ t. t.now) result
        ≡ find (is_same transfer.now) past.now.transfers.items }
{
    for other in &past.transfers {
        if is_same(transfer, other) {
            return Some(other);
        }
    }
    None
}

fn since_begin(now: &Status, transfer: &TransferStatus) -> Rate
    ensures rate { result ≡ since_begin now.now transfer.now }
{
    per_second(transfer.granted, now.micros.saturating_sub(transfer.begun))
}

fn since_status(past: &Status, now: &Status, transfer: &TransferStatus) -> Rate
    ensures rate { result ≡ since_status past.now now.now transfer.now }
{
    match found(past, transfer) {
        Some(then) => per_second(
            transfer.granted.saturating_sub(then.granted),
            now.micros.saturating_sub(past.micros),
        ),
        None => since_begin(now, transfer),
    }
}

/// The rate of a transfer since an earlier status, or since its begin if it is not there.
pub(crate) fn rate_since(past: Option<&Status>, now: &Status, transfer: &TransferStatus) -> Rate
    ensures rate { result ≡ rate_since past.entry now.now transfer.now }
{
    match past {
        Some(past) => since_status(past, now, transfer),
        None => since_begin(now, transfer),
    }
}

fn rounds_less(now: HeldRounds, then: HeldRounds) -> HeldRounds
    ensures rounds { result ≡ rounds_less now then }
{
    HeldRounds {
        server: now.server.saturating_sub(then.server),
        direction: now.direction.saturating_sub(then.direction),
        group: now.group.saturating_sub(then.group),
        user: now.user.saturating_sub(then.user),
        session: now.session.saturating_sub(then.session),
        nothing: now.nothing.saturating_sub(then.nothing),
    }
}

/// The rounds of a transfer since an earlier status, or all of them if it is not there.
pub(crate) fn rounds_since(past: Option<&Status>, transfer: &TransferStatus) -> HeldRounds
    ensures rounds { result ≡ rounds_since past.entry transfer.now }
{
    let Some(past) = past else {
        return transfer.rounds;
    };
    match found(past, transfer) {
        Some(then) => rounds_less(transfer.rounds, then.rounds),
        None => transfer.rounds,
    }
}

fn rank_of(rate: Rate, session: u64) -> u128
    ensures rank { result ≡ rank_of rate session }
{
    u128::from(u64::MAX - rate) * 18_446_744_073_709_551_616 + u128::from(session)
}

fn ranked_rate(past: Option<&Status>, now: &Status, transfer: &TransferStatus) -> Rate
    ensures rate { result ≡ ranked_rate past.entry now.now transfer.now }
{
    if transfer.is_waiting {
        u64::MAX
    } else {
        rate_since(past, now, transfer)
    }
}

/// The rank of a transfer: it grows as the rate falls, and for one rate with the number of the session. One that waits for
/// a lane has the rank of the highest rate.
pub(crate) fn rank(past: Option<&Status>, now: &Status, transfer: &TransferStatus) -> u128
    ensures rank { result ≡ rank past.entry now.now transfer.now }
{
    rank_of(ranked_rate(past, now, transfer), transfer.session)
}

/// Returns whether two directions are the same.
pub(crate) fn same_way(one: Direction, other: Direction) -> bool
    ensures way { result ≡ same_way one other }
{
    match (one, other) {
        (Direction::Down, Direction::Down) | (Direction::Up, Direction::Up) => true,
        _ => false,
    }
}

/// Returns whether a transfer has a direction.
pub(crate) fn is_way(way: Direction, transfer: &TransferStatus) -> bool
    ensures way { result ≡ is_way way transfer.now }
{
    same_way(way, transfer.direction)
}

/// The octets granted to the transfers of a user in a direction.
fn granted_to(way: Direction, account: &AccountStatus) -> u64
    ensures granted { result ≡ granted_to way account.now }
{
    match way {
        Direction::Down => account.granted_down,
        Direction::Up => account.granted_up,
    }
}

fn is_of_group(name: &str, account: &AccountStatus) -> bool
    ensures group { result ≡ is_of_group name.now account.now }
{
    match &account.group {
        Some(group) => group.as_str() == name,
        None => false,
    }
}

/// The octets granted to all users, in a direction.
fn granted_to_all(way: Direction, accounts: &[AccountStatus]) -> u64
    ensures granted { result ≡ granted_of anybody way accounts.now }
{
    let mut total: u64 = 0;
    for account in accounts {
        total = total.saturating_add(granted_to(way, account));
    }
    total
}

/// The octets granted to the users of a group, in a direction.
fn granted_to_group(name: &str, way: Direction, accounts: &[AccountStatus]) -> u64
    ensures granted { result ≡ granted_of (is_of_group name.now) way accounts.now }
{
    let mut total: u64 = 0;
    for account in accounts {
        if is_of_group(name, account) {
            total = total.saturating_add(granted_to(way, account));
        }
    }
    total
}

/// The rates of the transfers of a direction, each since its begin, together.
fn begun_line(now: &Status, way: Direction) -> Rate
    ensures total { result ≡ begun_total (is_way way) now.now }
{
    let mut total: u64 = 0;
    for transfer in &now.transfers {
        if is_way(way, transfer) {
            total = total.saturating_add(since_begin(now, transfer));
        }
    }
    total
}

fn is_of(way: Direction, name: &str, transfer: &TransferStatus) -> bool
    ensures of { result ≡ is_of way name.now transfer.now }
{
    is_way(way, transfer)
        && match &transfer.group {
            Some(group) => group.as_str() == name,
            None => false,
        }
}

/// The same of the users of a group.
fn begun_group(now: &Status, way: Direction, name: &str) -> Rate
    ensures total { result ≡ begun_total (is_of way name.now) now.now }
{
    let mut total: u64 = 0;
    for transfer in &now.transfers {
        if is_of(way, name, transfer) {
            total = total.saturating_add(since_begin(now, transfer));
        }
    }
    total
}

/// Octets a second of all in one direction since an earlier status; without one, the rates of all transfers.
pub(crate) fn line_total(past: Option<&Status>, now: &Status, way: Direction) -> Rate
    ensures total { result ≡ line_total past.entry now.now way }
{
    match past {
        None => begun_line(now, way),
        Some(past) => per_second(
            granted_to_all(way, &now.accounts).saturating_sub(granted_to_all(way, &past.accounts)),
            now.micros.saturating_sub(past.micros),
        ),
    }
}

/// The same of the users of a group.
pub(crate) fn group_total(past: Option<&Status>, now: &Status, way: Direction, name: &str) -> Rate
    ensures total { result ≡ group_total past.entry now.now way name.now }
{
    match past {
        None => begun_group(now, way, name),
        Some(past) => per_second(
            granted_to_group(name, way, &now.accounts).saturating_sub(granted_to_group(
                name,
                way,
                &past.accounts,
            )),
            now.micros.saturating_sub(past.micros),
        ),
    }
}

/// Octets a second of all, both ways: those that were issued.
pub(crate) fn both_total(past: Option<&Status>, now: &Status) -> Rate
    ensures total { result ≡ both_total past.entry now.now }
{
    match past {
        None => begun_line(now, Direction::Down).saturating_add(begun_line(now, Direction::Up)),
        Some(past) => per_second(
            now.issued.saturating_sub(past.issued),
            now.micros.saturating_sub(past.micros),
        ),
    }
}

/// Number of the transfers that wait for a lane.
pub(crate) fn waiting(transfers: &[TransferStatus]) -> usize
    ensures waiting { result ≡ waiting transfers.now }
{
    let mut count: usize = 0;
    for transfer in transfers {
        if transfer.is_waiting {
            count += 1;
        }
    }
    count
}

fn is_idle(now: &Status, session: &SessionStatus) -> bool
    ensures idle { result ≡ is_idle now.now session.now }
{
    session.active < now.micros
}

/// The sessions that transfer nothing.
pub(crate) fn idle_sessions<'s>(
    alloc: Global,
    now: &'s Status,
) -> Result<Vec<&'s SessionStatus>, AllocError>
    ensures idle { IfOk result (λ idle. map (λ s. s.now) idle.items ≡ idle_sessions now.now) }
{
    let mut idle = Vec::new(alloc);
    for session in &now.sessions_now {
        if is_idle(now, session) {
            idle.push(session)?;
        }
    }
    Ok(idle)
}
