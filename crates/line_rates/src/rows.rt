//! Rows of rates, sorted by number.

ghost use Rattle.std.specs.Prelude.{◌≡◌, ◌||◌, IfSome, IsPermutation};
ghost use Rattle.std.specs.FinMap as finite;
ghost use Rattle.std.specs.List.{All, Contains};
ghost use Rattle.std.specs.List.Sorted.{IsNonDecreasingBy};
ghost use Rattle.line_rates.specs.Put.{put, FindsPlace};
ghost use Rattle.line_rates.specs.Stated.{FitsGroup, FitsUser, group_number, user_number, by_number, is_large_group, is_large_user, has_large_group, has_large_user, has_no_row, has_stray_user, IsRising, ReportsRising};

use crate::rate::MAX_RATE;
use crate::row::{GroupRate, UserRate};
use std::alloc::Allocator;

fn is_large_group(row: GroupRate) -> bool
    ensures large { result ≡ is_large_group row }
{
    row.down > MAX_RATE || row.up > MAX_RATE
}

fn is_large_user(row: UserRate) -> bool
    ensures large { result ≡ is_large_user row }
{
    row.down > MAX_RATE
        || row.up > MAX_RATE
        || row.session_down > MAX_RATE
        || row.session_up > MAX_RATE
        || row.session_down_floor > MAX_RATE
        || row.session_up_floor > MAX_RATE
}

/// Returns whether a rate of some group is above `MAX_RATE`.
pub(crate) fn has_large_group(groups: &[GroupRate]) -> bool
    ensures large { result ≡ has_large_group groups.now }
{
    for row in groups {
        if is_large_group(*row) {
            return true;
        }
    }
    false
}

/// Returns whether a rate of some user is above `MAX_RATE`.
pub(crate) fn has_large_user(users: &[UserRate]) -> bool
    ensures large { result ≡ has_large_user users.now }
{
    for row in users {
        if is_large_user(*row) {
            return true;
        }
    }
    false
}

/// Sorts groups by number.
pub(crate) fn sort_groups<A: Allocator>(groups: &mut Vec<GroupRate, A>)
    ensures same { IsPermutation groups.old.items groups.new.items }
    ensures sorted { IsNonDecreasingBy group_number groups.new.items }
{
    groups.sort_unstable_by_key(|row| row.group);
}

/// Sorts users by number.
pub(crate) fn sort_users<A: Allocator>(users: &mut Vec<UserRate, A>)
    ensures same { IsPermutation users.old.items users.new.items }
    ensures sorted { IsNonDecreasingBy user_number users.new.items }
{
    users.sort_unstable_by_key(|row| row.user);
}

/// Returns whether each group's number is above that of the one before it.
pub(crate) fn groups_rise(groups: &[GroupRate]) -> bool
    ensures rise { ReportsRising group_number groups.now result }
{
    for place in 1..groups.len() {
        if groups[place].group <= groups[place - 1].group {
            return false;
        }
    }
    true
}

/// Returns whether each user's number is above that of the one before them.
pub(crate) fn users_rise(users: &[UserRate]) -> bool
    ensures rise { ReportsRising user_number users.now result }
{
    for place in 1..users.len() {
        if users[place].user <= users[place - 1].user {
            return false;
        }
    }
    true
}

/// The row of a group, by binary search.
pub(crate) fn find_group(groups: &[GroupRate], group: u32) -> Option<GroupRate>
    requires rising { IsRising group_number groups.now }
    ensures row { result ≡ finite.get (by_number group_number groups.now) group }
    ensures stands { IfSome result (Contains groups.now) }
{
    match groups.binary_search_by_key(&group, |row| row.group) {
        Ok(place) => Some(groups[place]),
        Err(_) => None,
    }
}

/// The row of a user, by binary search.
pub(crate) fn find_user(users: &[UserRate], user: u32) -> Option<UserRate>
    requires rising { IsRising user_number users.now }
    ensures row { result ≡ finite.get (by_number user_number users.now) user }
    ensures stands { IfSome result (Contains users.now) }
{
    match users.binary_search_by_key(&user, |row| row.user) {
        Ok(place) => Some(users[place]),
        Err(_) => None,
    }
}

fn is_stray(groups: &[GroupRate], group: Option<u32>) -> bool
    requires rising { IsRising group_number groups.now }
    ensures stray { result ≡ has_no_row groups.now group }
{
    match group {
        None => false,
        Some(group) => match find_group(groups, group) {
            Some(_) => false,
            None => true,
        },
    }
}

/// Returns whether some user is in a group that has no row.
pub(crate) fn has_stray_user(groups: &[GroupRate], users: &[UserRate]) -> bool
    requires rising { IsRising group_number groups.now }
    ensures stray { result ≡ has_stray_user groups.now users.now }
{
    for row in users {
        if is_stray(groups, row.group) {
            return true;
        }
    }
    false
}

/// The index of a group's row, if it has one: `guess` if that is right, otherwise by binary search.
fn place_of_group(groups: &[GroupRate], group: u32, guess: usize) -> Option<usize>
    requires rising { IsRising group_number groups.now }
    ensures place { FindsPlace group_number groups.now group result }
{
    if guess < groups.len() && groups[guess].group == group {
        return Some(guess);
    }
    match groups.binary_search_by_key(&group, |row| row.group) {
        Ok(place) => Some(place),
        Err(_) => None,
    }
}

/// The index of a user's row, if they have one: `guess` if that is right, otherwise by binary search.
fn place_of_user(users: &[UserRate], user: u32, guess: usize) -> Option<usize>
    requires rising { IsRising user_number users.now }
    ensures place { FindsPlace user_number users.now user result }
{
    if guess < users.len() && users[guess].user == user {
        return Some(guess);
    }
    match users.binary_search_by_key(&user, |row| row.user) {
        Ok(place) => Some(place),
        Err(_) => None,
    }
}

/// Replaces the row of a group, if it has one. Its index is `guess`, or found by binary search.
pub(crate) fn replace_group<A: Allocator>(
    groups: &mut Vec<GroupRate, A>,
    row: GroupRate,
    guess: usize,
)
    requires rising { IsRising group_number groups.old.items }
    requires all_fit { All FitsGroup groups.old.items }
    requires fits { FitsGroup row }
    ensures put { by_number group_number groups.new.items
        ≡ put (by_number group_number groups.old.items) row.group row }
    ensures rising { IsRising group_number groups.new.items }
    ensures all_fit { All FitsGroup groups.new.items }
{
    match place_of_group(groups, row.group, guess) {
        Some(place) => groups[place] = row,
        None => {}
    }
}

/// Replaces the row of a user, if they have one. Its index is `guess`, or found by binary search.
pub(crate) fn replace_user<A: Allocator>(users: &mut Vec<UserRate, A>, row: UserRate, guess: usize)
    requires rising { IsRising user_number users.old.items }
    requires all_fit { All FitsUser users.old.items }
    requires fits { FitsUser row }
    ensures put { by_number user_number users.new.items
        ≡ put (by_number user_number users.old.items) row.user row }
    ensures rising { IsRising user_number users.new.items }
    ensures all_fit { All FitsUser users.new.items }
{
    match place_of_user(users, row.user, guess) {
        Some(place) => users[place] = row,
        None => {}
    }
}
