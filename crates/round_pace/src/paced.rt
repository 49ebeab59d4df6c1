//! Paced rates of groups and users.

ghost use Rattle.std.specs.Prelude.{◌≡◌, ◌≤◌, min, true, map, Some};
ghost use Rattle.std.specs.List.{All};
ghost use Rattle.line_rates.specs.Put.{FindsPlace};
ghost use Rattle.line_rates.specs.Stated.{FitsGroup, FitsUser, IsRising};
ghost use Rattle.round_pace.specs.Credits.{IsCredit};
ghost use Rattle.round_pace.specs.FloorsFit.{parts_left};
ghost use Rattle.round_pace.specs.Offered.{refill_group, refill_user, credit_rate, floor_rate, offer_group, owed_of, user_parts, handed_user, put_groups, put_users};
ghost use Rattle.round_pace.specs.Paced.{group_key, pace_number, IsGroupPace, IsUserPace, AreTheGroups, AreTheUsers};
ghost use Rattle.round_pace.specs.Quiet.{AllMarked, IsQuietGroup, IsQuietUser, KeepMarked};
ghost use Rattle.round_pace.specs.Rows.{floor_of};
ghost use Rattle.round_pace.specs.Spent.{credit_of, is_spent, is_user_spent, is_group_spent};
ghost use Rattle.round_pace.specs.Taken.{take_if_down, take_if_up, owed_if_down, owed_if_up, take_group, take_user, group_of, take_users, take_groups};
ghost use Rattle.round_pace.specs.declared.credit.TheConstants.{MOST_PARTS};

use crate::credit::{
    Credit, as_rate, floor_in, is_dry, owed_after, owed_in, parts_left, refill_row, take_row,
};
use crate::quiet::{is_full_group, is_full_user, is_marked, set_mark};
use crate::rows::{floor_of, group_credit};
use line_rates::{GroupRate, Limits, MAX_RATE, UserRate, Way};
use std::alloc::Allocator;

/// A group's rates, with what is left under each.
#[derive(Clone, Copy, Debug, PartialEq, Eq)]
pub struct GroupPace {
    /// The number of the group.
    pub group: u32,
    /// The credit of its users' downloads.
    pub down: Credit,
    /// The credit of their uploads.
    pub up: Credit,
}

/// A user's rates, with what is left under each.
#[derive(Clone, Copy, Debug, PartialEq, Eq)]
pub struct UserPace {
    /// The rates.
    pub row: UserRate,
    /// The credit of the user's downloads.
    pub down: Credit,
    /// The credit of the user's uploads.
    pub up: Credit,
    /// The credit that each session has at least for its downloads.
    pub session_down: Credit,
    /// The credit that each session has at least for its uploads.
    pub session_up: Credit,
    /// The debt to each session of its guarantee of downloads, in 500ths of an octet.
    pub down_owed: u64,
    /// The debt to each session of its guarantee of uploads, in 500ths of an octet.
    pub up_owed: u64,
}

/// The rate that is handed in for what is left of a credit.
pub(crate) fn credit_rate(credit: Credit) -> u64
    requires credit { IsCredit credit }
    ensures rate { result ≡ credit_rate credit }
    ensures most { result ≤ MAX_RATE }
{
    as_rate(credit)
}

fn offer_group(group: GroupPace) -> GroupRate
    requires group { IsGroupPace group }
    ensures row { result ≡ offer_group group }
    ensures fits { FitsGroup result }
{
    GroupRate {
        group: group.group,
        down: credit_rate(group.down),
        up: credit_rate(group.up),
    }
}

fn owed_of(user: UserPace, way: Way) -> u64
    ensures owed { result ≡ owed_of way user }
{
    match way {
        Way::Down => user.down_owed,
        Way::Up => user.up_owed,
    }
}

/// The parts of ticks whose earnings the rates of the line and of one way have left.
pub(crate) fn line_parts(server: Credit, way: Credit) -> u64
    requires server { IsCredit server }
    requires way { IsCredit way }
    ensures parts { result ≡ min (parts_left server) (parts_left way) }
    ensures most { result ≤ MOST_PARTS }
{
    parts_left(server).min(parts_left(way))
}

// The parts of ticks whose earnings each rate of a user has left, if those of the line have this number left.
fn user_parts(user: UserPace, groups: &[GroupPace], way: Way, line: u64) -> u64
    requires user { IsUserPace user }
    requires groups { All IsGroupPace groups.now }
    requires rising { IsRising group_key groups.now }
    requires line { line ≤ MOST_PARTS }
    ensures parts { result ≡ user_parts way line groups.now user }
    ensures most { result ≤ MOST_PARTS }
{
    let group = parts_left(group_credit(groups, user.row.group, way));
    let own = parts_left(credit_of(user.down, user.up, way));
    let session = parts_left(credit_of(user.session_down, user.session_up, way));
    line.min(group).min(own.min(session))
}

// The rate that is handed in for a user's guarantee of one way, if the rates of the line have this number of parts of
// ticks left.
fn floor_rate(user: UserPace, groups: &[GroupPace], way: Way, line: u64) -> u64
    requires user { IsUserPace user }
    requires groups { All IsGroupPace groups.now }
    requires rising { IsRising group_key groups.now }
    requires line { line ≤ MOST_PARTS }
    ensures floor { result ≡ floor_rate (floor_of way user.row) (owed_of way user)
        (user_parts way line groups.now user) }
    ensures most { result ≤ MAX_RATE }
{
    let floor = floor_of(user.row, way);
    if floor == 0 {
        return 0;
    }
    let parts = user_parts(user, groups, way, line);
    10 * floor_in(floor, owed_of(user, way), parts)
}

fn handed_user(user: UserPace, groups: &[GroupPace], down: u64, up: u64) -> UserRate
    requires user { IsUserPace user }
    requires groups { All IsGroupPace groups.now }
    requires rising { IsRising group_key groups.now }
    requires down { down ≤ MOST_PARTS }
    requires up { up ≤ MOST_PARTS }
    ensures row { result ≡ handed_user down up groups.now user }
    ensures fits { FitsUser result }
{
    UserRate {
        user: user.row.user,
        group: user.row.group,
        down: credit_rate(user.down),
        up: credit_rate(user.up),
        session_down: credit_rate(user.session_down),
        session_up: credit_rate(user.session_up),
        session_down_floor: floor_rate(user, groups, Way::Down, down),
        session_up_floor: floor_rate(user, groups, Way::Up, up),
    }
}

fn refill_group(group: GroupPace, begun: u64, tick: u64) -> GroupPace
    requires group { IsGroupPace group }
    requires later { begun ≤ tick }
    ensures group { result ≡ refill_group begun tick group }
    ensures fits { IsGroupPace result }
{
    GroupPace {
        group: group.group,
        down: refill_row(group.down, begun, tick),
        up: refill_row(group.up, begun, tick),
    }
}

fn refill_user(user: UserPace, begun: u64, tick: u64) -> UserPace
    requires user { IsUserPace user }
    requires later { begun ≤ tick }
    ensures user { result ≡ refill_user begun tick user }
    ensures fits { IsUserPace result }
{
    UserPace {
        row: user.row,
        down: refill_row(user.down, begun, tick),
        up: refill_row(user.up, begun, tick),
        session_down: refill_row(user.session_down, begun, tick),
        session_up: refill_row(user.session_up, begun, tick),
        down_owed: owed_in(user.row.session_down_floor, user.down_owed, begun, tick),
        up_owed: owed_in(user.row.session_up_floor, user.up_owed, begun, tick),
    }
}

/// Refills the rows of groups as a tick begins. A refill does not change those with a mark.
pub(crate) fn refill_groups<A: Allocator>(
    groups: &mut Vec<GroupPace, A>,
    marks: &[bool],
    begun: u64,
    tick: u64,
)
    requires paces { All IsGroupPace groups.old.items }
    requires later { begun ≤ tick }
    requires marked { AllMarked (λ g. refill_group begun tick g ≡ g) marks.now groups.old.items }
    ensures rows { groups.new.items ≡ map (refill_group begun tick) groups.old.items }
    ensures paces { All IsGroupPace groups.new.items }
{
    for place in 0..groups.len() {
        if !is_marked(marks, place) {
            groups[place] = refill_group(groups[place], begun, tick);
        }
    }
}

/// Refills the rows of users as a tick begins. A refill does not change those with a mark.
pub(crate) fn refill_users<A: Allocator>(
    users: &mut Vec<UserPace, A>,
    marks: &[bool],
    begun: u64,
    tick: u64,
)
    requires paces { All IsUserPace users.old.items }
    requires later { begun ≤ tick }
    requires marked { AllMarked (λ u. refill_user begun tick u ≡ u) marks.now users.old.items }
    ensures rows { users.new.items ≡ map (refill_user begun tick) users.old.items }
    ensures paces { All IsUserPace users.new.items }
{
    for place in 0..users.len() {
        if !is_marked(marks, place) {
            users[place] = refill_user(users[place], begun, tick);
        }
    }
}

/// Writes the rows of groups into the limits: each at its own index, if these have the same rows. Those with a mark are
/// there; those that are full get one.
pub(crate) fn put_groups<L: Allocator, A: Allocator>(
    offered: &mut Limits<L>,
    groups: &[GroupPace],
    marks: &mut Vec<bool, A>,
)
    requires paces { All IsGroupPace groups.now }
    requires rising { IsRising group_key groups.now }
    requires rows { AreTheGroups offered.old groups.now }
    requires marked { AllMarked (IsQuietGroup offered.old) marks.old.items groups.now }
    ensures put { offered.new ≡ put_groups offered.old groups.now }
    ensures marked { AllMarked (IsQuietGroup offered.new) marks.new.items groups.now }
{
    for place in 0..groups.len() {
        if !is_marked(marks, place) {
            let group = groups[place];
            offered.put_group(offer_group(group), place);
            set_mark(marks, place, is_full_group(group));
        }
    }
}

/// Writes the rows of users into the limits, likewise, if the rates of the line have these numbers of parts of ticks
/// left.
pub(crate) fn put_users<L: Allocator, A: Allocator>(
    offered: &mut Limits<L>,
    users: &[UserPace],
    marks: &mut Vec<bool, A>,
    groups: &[GroupPace],
    down: u64,
    up: u64,
)
    requires paces { All IsUserPace users.now }
    requires groups { All IsGroupPace groups.now }
    requires groups_rise { IsRising group_key groups.now }
    requires down { down ≤ MOST_PARTS }
    requires up { up ≤ MOST_PARTS }
    requires rising { IsRising pace_number users.now }
    requires rows { AreTheUsers offered.old users.now }
    requires marked { AllMarked (IsQuietUser offered.old) marks.old.items users.now }
    ensures put { offered.new ≡ put_users down up groups.now offered.old users.now }
    ensures marked { AllMarked (IsQuietUser offered.new) marks.new.items users.now }
{
    for place in 0..users.len() {
        if !is_marked(marks, place) {
            let user = users[place];
            offered.put_user(handed_user(user, groups, down, up), place);
            set_mark(marks, place, is_full_user(user));
        }
    }
}

/// The credit of downloads, less octets that went `way`.
pub(crate) fn take_if_down(credit: Credit, way: Way, octets: u64) -> Credit
    requires credit { IsCredit credit }
    ensures row { result ≡ take_if_down way octets credit }
    ensures fits { IsCredit result }
{
    match way {
        Way::Down => take_row(credit, octets),
        Way::Up => credit,
    }
}

/// The credit of uploads, less octets that went `way`.
pub(crate) fn take_if_up(credit: Credit, way: Way, octets: u64) -> Credit
    requires credit { IsCredit credit }
    ensures row { result ≡ take_if_up way octets credit }
    ensures fits { IsCredit result }
{
    match way {
        Way::Down => credit,
        Way::Up => take_row(credit, octets),
    }
}

fn take_group(group: GroupPace, way: Way, octets: u64) -> GroupPace
    requires group { IsGroupPace group }
    ensures group { result ≡ take_group way octets group }
    ensures fits { IsGroupPace result }
{
    GroupPace {
        group: group.group,
        down: take_if_down(group.down, way, octets),
        up: take_if_up(group.up, way, octets),
    }
}

// The debt to a user's sessions for downloads after octets that went `way`.
fn owed_if_down(way: Way, octets: u64, owed: u64) -> u64
    ensures owed { result ≡ owed_if_down way octets owed }
    ensures most { result ≤ owed }
{
    match way {
        Way::Down => owed_after(octets, owed),
        Way::Up => owed,
    }
}

// The debt for uploads.
fn owed_if_up(way: Way, octets: u64, owed: u64) -> u64
    ensures owed { result ≡ owed_if_up way octets owed }
    ensures most { result ≤ owed }
{
    match way {
        Way::Down => owed,
        Way::Up => owed_after(octets, owed),
    }
}

// A user's rows after octets were granted, of which `own` are taken from each session.
fn take_user(user: UserPace, way: Way, octets: u64, own: u64) -> UserPace
    requires user { IsUserPace user }
    ensures user { result ≡ take_user way octets own user }
    ensures fits { IsUserPace result }
{
    UserPace {
        row: user.row,
        down: take_if_down(user.down, way, octets),
        up: take_if_up(user.up, way, octets),
        session_down: take_if_down(user.session_down, way, own),
        session_up: take_if_up(user.session_up, way, own),
        down_owed: owed_if_down(way, own, user.down_owed),
        up_owed: owed_if_up(way, own, user.up_owed),
    }
}

/// The index of a user's row, by binary search.
pub(crate) fn find_user(users: &[UserPace], user: u32) -> Option<usize>
    requires rising { IsRising pace_number users.now }
    ensures place { FindsPlace pace_number users.now user result }
{
    match users.binary_search_by_key(&user, |it| it.row.user) {
        Ok(place) => Some(place),
        Err(_) => None,
    }
}

/// The index of a group's row, by binary search.
pub(crate) fn find_group(groups: &[GroupPace], group: u32) -> Option<usize>
    requires rising { IsRising group_key groups.now }
    ensures place { FindsPlace group_key groups.now group result }
{
    match groups.binary_search_by_key(&group, |it| it.group) {
        Ok(place) => Some(place),
        Err(_) => None,
    }
}

/// The group of a user, if they have a row and are in one.
pub(crate) fn group_of(users: &[UserPace], user: u32) -> Option<u32>
    requires rising { IsRising pace_number users.now }
    ensures group { result ≡ group_of users.now user }
{
    match find_user(users, user) {
        Some(place) => users[place].row.group,
        None => None,
    }
}

/// Subtracts octets from the row of a user, if they have one, and takes its mark away. Returns true only if that changed
/// no row.
pub(crate) fn take_users<A: Allocator>(
    users: &mut Vec<UserPace, A>,
    marks: &mut Vec<bool, A>,
    user: u32,
    way: Way,
    octets: u64,
    own: u64,
) -> bool
    requires paces { All IsUserPace users.old.items }
    requires rising { IsRising pace_number users.old.items }
    ensures taken { users.new.items ≡ take_users way user octets own users.old.items }
    ensures paces { All IsUserPace users.new.items }
    ensures same { result ≡ true → users.new.items ≡ users.old.items }
    ensures marked { KeepMarked marks.old.items users.old.items marks.new.items users.new.items }
{
    match find_user(users, user) {
        Some(place) => {
            let before = users[place];
            let after = take_user(before, way, octets, own);
            users[place] = after;
            set_mark(marks, place, false);
            after == before
        }
        None => true,
    }
}

fn take_from_group<A: Allocator>(
    groups: &mut Vec<GroupPace, A>,
    marks: &mut Vec<bool, A>,
    group: u32,
    way: Way,
    octets: u64,
) -> bool
    requires paces { All IsGroupPace groups.old.items }
    requires rising { IsRising group_key groups.old.items }
    ensures taken { groups.new.items ≡ take_groups way (Some group) octets groups.old.items }
    ensures paces { All IsGroupPace groups.new.items }
    ensures same { result ≡ true → groups.new.items ≡ groups.old.items }
    ensures marked { KeepMarked marks.old.items groups.old.items marks.new.items groups.new.items }
{
    match find_group(groups, group) {
        Some(place) => {
            let before = groups[place];
            let after = take_group(before, way, octets);
            groups[place] = after;
            set_mark(marks, place, false);
            after == before
        }
        None => true,
    }
}

/// Subtracts octets from the row of a group, if there is one, and takes its mark away. Returns true only if that changed
/// no row.
pub(crate) fn take_groups<A: Allocator>(
    groups: &mut Vec<GroupPace, A>,
    marks: &mut Vec<bool, A>,
    group: Option<u32>,
    way: Way,
    octets: u64,
) -> bool
    requires paces { All IsGroupPace groups.old.items }
    requires rising { IsRising group_key groups.old.items }
    ensures taken { groups.new.items ≡ take_groups way group octets groups.old.items }
    ensures paces { All IsGroupPace groups.new.items }
    ensures same { result ≡ true → groups.new.items ≡ groups.old.items }
    ensures marked { KeepMarked marks.old.items groups.old.items marks.new.items groups.new.items }
{
    match group {
        Some(group) => take_from_group(groups, marks, group, way, octets),
        None => true,
    }
}

/// The credit of a way.
pub(crate) fn credit_of(down: Credit, up: Credit, way: Way) -> Credit
    ensures credit { result ≡ credit_of way down up }
{
    match way {
        Way::Down => down,
        Way::Up => up,
    }
}

// Returns whether nothing is left of the user or of their sessions.
fn is_spent(user: UserPace, way: Way) -> bool
    ensures spent { result ≡ is_spent way user }
{
    is_dry(credit_of(user.session_down, user.session_up, way))
        || is_dry(credit_of(user.down, user.up, way))
}

/// Returns whether nothing is left for a user's transfers of one way, under the rates of the user and of each session,
/// in a tick that has begun.
pub(crate) fn is_user_spent(users: &[UserPace], user: u32, way: Way) -> bool
    requires rising { IsRising pace_number users.now }
    ensures spent { result ≡ is_user_spent way users.now user }
{
    match find_user(users, user) {
        Some(place) => is_spent(users[place], way),
        None => false,
    }
}

/// Returns whether a group has nothing left for one way.
pub(crate) fn is_group_spent(groups: &[GroupPace], group: Option<u32>, way: Way) -> bool
    requires rising { IsRising group_key groups.now }
    ensures spent { result ≡ is_group_spent way groups.now group }
{
    match group {
        Some(group) => match find_group(groups, group) {
            Some(place) => is_dry(credit_of(groups[place].down, groups[place].up, way)),
            None => false,
        },
        None => false,
    }
}
