//! Rows of groups and users, with what is counted for each.

ghost use Rattle.std.specs.Prelude.{◌≡◌, MatchOption, map};
ghost use Rattle.line_rates.specs.Stated.{IsRising};
ghost use Rattle.line_rates.specs.Put.{FindsPlace};
ghost use Rattle.rate_floors.specs.Promises.{group_key, user_key, IsInGroup, HasNone, with_floors, added, taken, HasRoom, HasFloors};

use line_rates::{GroupRate, UserRate};
use std::alloc::Allocator;

/// The rates of a group, and the sums of the guarantees of its users' counted sessions, in octets per
/// second.
#[derive(Clone, Copy, Debug, PartialEq, Eq)]
pub struct GroupPromise {
    /// The rates of the group.
    pub row: GroupRate,
    /// Sum of the guarantees of downloads.
    pub down: u64,
    /// Sum of the guarantees of uploads.
    pub up: u64,
}

/// The rates of a user, and the number of their counted sessions.
#[derive(Clone, Copy, Debug, PartialEq, Eq)]
pub struct UserSessions {
    /// The rates of the user.
    pub row: UserRate,
    /// The number of counted sessions.
    pub sessions: u64,
}

/// The index of a user's row, by binary search.
pub(crate) fn find_user(users: &[UserSessions], user: u32) -> Option<usize>
    requires rising { IsRising user_key users.now }
    ensures place { FindsPlace user_key users.now user result }
{
    match users.binary_search_by_key(&user, |entry| entry.row.user) {
        Ok(place) => Some(place),
        Err(_) => None,
    }
}

fn find_number(groups: &[GroupPromise], group: u32) -> Option<usize>
    requires rising { IsRising group_key groups.now }
    ensures place { FindsPlace group_key groups.now group result }
{
    match groups.binary_search_by_key(&group, |entry| entry.row.group) {
        Ok(place) => Some(place),
        Err(_) => None,
    }
}

/// The index of the row of a user's group, if they are in one that has a row.
pub(crate) fn find_group(groups: &[GroupPromise], group: Option<u32>) -> Option<usize>
    requires rising { IsRising group_key groups.now }
    ensures place { MatchOption result (HasNone groups.now group) (IsInGroup groups.now group) }
{
    match group {
        None => None,
        Some(group) => find_number(groups, group),
    }
}

/// Adds the guarantees of one session of a user to the sums of their group.
pub(crate) fn add<A: Allocator>(groups: &mut Vec<GroupPromise, A>, row: UserRate)
    requires rising { IsRising group_key groups.old.items }
    requires room { HasRoom groups.old.items row }
    ensures added { groups.new.items ≡ map (with_floors added row) groups.old.items }
{
    if let Some(at) = find_group(groups, row.group) {
        let entry = groups[at];
        groups[at] = GroupPromise {
            row: entry.row,
            down: entry.down + row.session_down_floor,
            up: entry.up + row.session_up_floor,
        };
    }
}

/// Subtracts the guarantees of one session of a user from the sums of their group.
pub(crate) fn take<A: Allocator>(groups: &mut Vec<GroupPromise, A>, row: UserRate)
    requires rising { IsRising group_key groups.old.items }
    requires floors { HasFloors groups.old.items row }
    ensures taken { groups.new.items ≡ map (with_floors taken row) groups.old.items }
{
    if let Some(at) = find_group(groups, row.group) {
        let entry = groups[at];
        groups[at] = GroupPromise {
            row: entry.row,
            down: entry.down - row.session_down_floor,
            up: entry.up - row.session_up_floor,
        };
    }
}
