//! Marks of quiet rows, which no refill in the same second changes and which the limits have: a round leaves them as they
//! are.

ghost use Rattle.std.specs.Prelude.{◌≡◌, slice_set};
ghost use Rattle.round_pace.specs.Paced.{IsGroupPace, IsUserPace};
ghost use Rattle.round_pace.specs.Quiet.{is_full_group, is_full_user, mark_at, AreOfSecond};

use crate::credit::{begun_in, is_full};
use crate::paced::{GroupPace, UserPace};
use std::alloc::Allocator;

/// Returns whether a group's credits are full.
pub(crate) fn is_full_group(group: GroupPace) -> bool
    requires group { IsGroupPace group }
    ensures full { result ≡ is_full_group group }
{
    is_full(group.down) && is_full(group.up)
}

/// Returns whether a user's credits are full and no session of theirs has a guarantee.
pub(crate) fn is_full_user(user: UserPace) -> bool
    requires user { IsUserPace user }
    ensures full { result ≡ is_full_user user }
{
    (is_full(user.down) && is_full(user.up))
        && (is_full(user.session_down) && is_full(user.session_up))
        && (user.row.session_down_floor == 0 && user.row.session_up_floor == 0)
}

/// Returns whether there is a mark at a place.
pub(crate) fn is_marked(marks: &[bool], place: usize) -> bool
    ensures mark { result ≡ mark_at marks.now place }
{
    match marks.get(place) {
        Some(mark) => *mark,
        None => false,
    }
}

/// Sets the mark at a place, if there is such a place.
pub(crate) fn set_mark<A: Allocator>(marks: &mut Vec<bool, A>, place: usize, mark: bool)
    ensures mark { marks.new.items ≡ slice_set marks.old.items place mark }
{
    if place < marks.len() {
        marks[place] = mark;
    }
}

/// Takes all marks away as a second begins: what was left is lost then.
pub(crate) fn begin_second<A: Allocator>(marks: &mut Vec<bool, A>, begun: u64, tick: u64)
    ensures kept { AreOfSecond begun tick marks.old.items marks.new.items }
{
    if begun_in(begun, tick) == 0 {
        marks.fill(false);
    }
}
