//! The guarantees of counted sessions under other rates.

ghost use Rattle.std.specs.Prelude.{◌≡◌, ◌+◌, ◌*◌, ◌<◌, ◌≤◌, ◌^◌, IfOk, MatchOption, SomeIff, map, None};
ghost use Rattle.std.specs.List.{All};
ghost use Rattle.line_rates.specs.declared.ask.Way.TheVariants.{Down, Up};
ghost use Rattle.line_rates.specs.Stated.{IsRising, group_number};
ghost use Rattle.rate_floors.specs.Carried.{broken, broken_row, broken_user, broken_sums, broken_line, first_broken};
ghost use Rattle.rate_floors.specs.Promises.{group_row, no_promise, promised, promised_user, IsPromised};

use crate::find::{GroupPromise, UserSessions, add};
use crate::fits::{MAX_PROMISED, keeps};
use line_rates::{GroupRate, Name, UserRate, Way};
use std::alloc::{AllocError, Allocator};
use thiserror::Error;

/// The reason for which counted sessions cannot go over to other rates, or one more session is refused: the first of
/// these that applies. `Memory` may be reported whenever memory is needed, which no refusal of a session does.
#[derive(Clone, Copy, Debug, PartialEq, Eq, Error)]
pub enum CarryFault {
    /// The guarantees of all counted sessions add up to more than `MAX_PROMISED`.
    #[error("the guarantees of all sessions are too large")]
    TooLarge,
    /// The guarantees of the counted sessions under a name are above its rate. Each session of a user has the name of
    /// their session 0. Of several broken limits, the first is that of a user, each user's sessions before the user, in
    /// the order of the numbers; then of a group, in the order of the numbers; then of a way; then of the server. Of
    /// two ways, down is first.
    #[error("guarantees add up to more than a rate")]
    Broken {
        /// The name of the limit.
        name: Name,
        /// Sum of the guarantees, in octets per second.
        promised: u64,
        /// The rate that the sum is above.
        rate: u64,
    },
    #[error("out of memory")]
    Memory,
}

impl From<AllocError> for CarryFault {
    ghost use Rattle.std.specs.Prelude.{◌≡◌};
    ghost use Rattle.rate_floors.specs.declared.carry.CarryFault.TheVariants.{Memory};

    ghost from_gives = { λ _ fault. fault ≡ Memory };

    fn from(_error: AllocError) -> CarryFault {
        CarryFault::Memory
    }
}

/// A sum and the guarantees of some sessions, if they and another sum are within `MAX_PROMISED`.
fn with_more(sum: u64, other: u64, sessions: u64, floor: u64) -> Option<u64>
    requires small { sum + other ≤ MAX_PROMISED }
    ensures more { SomeIff result (sum + sessions * floor + other ≤ MAX_PROMISED)
        (sum + sessions * floor) }
{
    let product = sessions.checked_mul(floor)?;
    if product > MAX_PROMISED - sum - other {
        return None;
    }
    Some(sum + product)
}

/// Sums of the guarantees of all counted sessions, down and up, if they are within `MAX_PROMISED`.
pub(crate) fn sums(users: &[UserSessions]) -> Option<(u64, u64)>
    ensures sums { MatchOption result
        (MAX_PROMISED < promised users.now Down + promised users.now Up)
        (λ sums. (sums.0 ≡ promised users.now Down) × (sums.1 ≡ promised users.now Up)
        × (sums.0 + sums.1 ≤ MAX_PROMISED)) }
{
    let mut down = 0;
    let mut up = 0;
    for entry in users {
        down = with_more(down, up, entry.sessions, entry.row.session_down_floor)?;
        up = with_more(up, down, entry.sessions, entry.row.session_up_floor)?;
    }
    Some((down, up))
}

/// The row of a user with the guarantees of all of their counted sessions in place of those of one.
fn bundled(entry: UserSessions) -> UserRate
    requires down { promised_user Down entry ≤ MAX_PROMISED }
    requires up { promised_user Up entry ≤ MAX_PROMISED }
    ensures bundled { result ≡ record entry.row {
      session_down_floor = promised_user Down entry;
      session_up_floor = promised_user Up entry;
    } }
{
    UserRate {
        session_down_floor: entry.sessions * entry.row.session_down_floor,
        session_up_floor: entry.sessions * entry.row.session_up_floor,
        ..entry.row
    }
}

/// Groups without a promise, in the order of their rows.
pub(crate) fn no_promises<A: Allocator>(
    alloc: A,
    rows: &[GroupRate],
) -> Result<Vec<GroupPromise, A>, AllocError>
    ensures none { IfOk result (λ groups. groups.items ≡ map no_promise rows.now) }
{
    let mut groups = Vec::new(alloc);
    for row in rows {
        groups.push(GroupPromise {
            row: *row,
            down: 0,
            up: 0,
        })?;
    }
    Ok(groups)
}

/// Groups with the sums of the guarantees of their users' counted sessions.
pub(crate) fn promised_groups<A: Allocator>(
    alloc: A,
    rows: &[GroupRate],
    users: &[UserSessions],
) -> Result<Vec<GroupPromise, A>, AllocError>
    requires rising { IsRising group_number rows.now }
    requires small { promised users.now Down + promised users.now Up ≤ MAX_PROMISED }
    ensures rows { IfOk result (λ groups. map group_row groups.items ≡ rows.now) }
    ensures reported { IfOk result (λ groups. All (IsPromised users.now) groups.items) }
{
    let mut groups = no_promises(alloc, rows)?;
    for entry in users {
        add(&mut groups, bundled(*entry));
    }
    Ok(groups)
}

fn broken(name: Name, promised: u64, rate: u64) -> Option<CarryFault>
    ensures broken { result ≡ broken name promised rate }
{
    if keeps(promised, rate) {
        return None;
    }
    Some(CarryFault::Broken {
        name,
        promised,
        rate,
    })
}

/// The first broken limit of a user's sessions, and of the user.
pub(crate) fn broken_row(entry: UserSessions) -> Option<CarryFault>
    requires down { promised_user Down entry ≤ MAX_PROMISED }
    requires up { promised_user Up entry ≤ MAX_PROMISED }
    ensures broken { result ≡ broken_row entry }
{
    let row = entry.row;
    let (down, up) = (Way::Down, Way::Up);
    let user = row.user;
    broken(
        Name::Session(down, user, 0),
        row.session_down_floor,
        row.session_down,
    )
    .or(broken(
        Name::Session(up, user, 0),
        row.session_up_floor,
        row.session_up,
    ))
    .or(broken(
        Name::User(down, user),
        entry.sessions * row.session_down_floor,
        row.down,
    ))
    .or(broken(
        Name::User(up, user),
        entry.sessions * row.session_up_floor,
        row.up,
    ))
}

fn broken_user(entry: UserSessions) -> Option<CarryFault>
    requires down { promised_user Down entry ≤ MAX_PROMISED }
    requires up { promised_user Up entry ≤ MAX_PROMISED }
    ensures broken { result ≡ broken_user entry }
{
    if entry.sessions == 0 {
        return None;
    }
    broken_row(entry)
}

/// The first broken limit of a group.
pub(crate) fn broken_sums(entry: GroupPromise) -> Option<CarryFault>
    ensures broken { result ≡ broken_sums entry }
{
    let group = entry.row.group;
    broken(Name::Group(Way::Down, group), entry.down, entry.row.down).or(broken(
        Name::Group(Way::Up, group),
        entry.up,
        entry.row.up,
    ))
}

/// The first broken limit of a user, in their order.
pub(crate) fn first_broken_user(users: &[UserSessions]) -> Option<CarryFault>
    requires small { promised users.now Down + promised users.now Up ≤ MAX_PROMISED }
    ensures broken { result ≡ first_broken broken_user users.now }
{
    for entry in users {
        let fault = broken_user(*entry);
        if fault.is_some() {
            return fault;
        }
    }
    None
}

/// The first broken limit of a group, in their order.
pub(crate) fn first_broken_group(groups: &[GroupPromise]) -> Option<CarryFault>
    ensures broken { result ≡ first_broken broken_sums groups.now }
{
    for entry in groups {
        let fault = broken_sums(*entry);
        if fault.is_some() {
            return fault;
        }
    }
    None
}

/// The first broken limit of the ways and of the server, whose rates are given.
pub(crate) fn broken_line(
    down: u64,
    up: u64,
    server_rate: u64,
    down_rate: u64,
    up_rate: u64,
) -> Option<CarryFault>
    requires small { down + up ≤ MAX_PROMISED }
    ensures broken { result ≡ broken_line down up server_rate down_rate up_rate }
{
    broken(Name::Direction(Way::Down), down, down_rate)
        .or(broken(Name::Direction(Way::Up), up, up_rate))
        .or(broken(Name::Server, down + up, server_rate))
}
