//! The rows of new rates: what was left under the same number, cut to what the new rate keeps.

ghost use Rattle.std.specs.Prelude.{◌≡◌, map, IfOk};
ghost use Rattle.std.specs.List.{All};
ghost use Rattle.line_rates.specs.Stated.{FitsGroup, FitsUser, IsRising};
ghost use Rattle.round_pace.specs.Changed.{changed_group, changed_user};
ghost use Rattle.round_pace.specs.Paced.{group_key, pace_number, IsGroupPace, IsUserPace};

use crate::credit::changed_credit;
use crate::paced::{GroupPace, UserPace};
use crate::rows::{group_credit, session_credit, user_credit};
use line_rates::{GroupRate, UserRate, Way};
use std::alloc::{AllocError, Allocator};

fn changed_group(groups: &[GroupPace], row: GroupRate) -> GroupPace
    requires rising { IsRising group_key groups.now }
    requires row { FitsGroup row }
    ensures group { result ≡ changed_group groups.now row }
    ensures fits { IsGroupPace result }
{
    let group = Some(row.group);
    GroupPace {
        group: row.group,
        down: changed_credit(row.down, group_credit(groups, group, Way::Down)),
        up: changed_credit(row.up, group_credit(groups, group, Way::Up)),
    }
}

fn changed_user(users: &[UserPace], row: UserRate) -> UserPace
    requires rising { IsRising pace_number users.now }
    requires row { FitsUser row }
    ensures user { result ≡ changed_user users.now row }
    ensures fits { IsUserPace result }
{
    UserPace {
        row,
        down: changed_credit(row.down, user_credit(users, row.user, Way::Down)),
        up: changed_credit(row.up, user_credit(users, row.user, Way::Up)),
        session_down: changed_credit(row.session_down, session_credit(users, row.user, Way::Down)),
        session_up: changed_credit(row.session_up, session_credit(users, row.user, Way::Up)),
        down_owed: 0,
        up_owed: 0,
    }
}

/// Rows for new rates of groups, with what was left under each number in these rows.
pub(crate) fn changed_groups<A: Allocator>(
    alloc: A,
    groups: &[GroupPace],
    rows: &[GroupRate],
) -> Result<Vec<GroupPace, A>, AllocError>
    requires rising { IsRising group_key groups.now }
    requires fit { All FitsGroup rows.now }
    ensures groups { IfOk result (λ new. new.items ≡ map (changed_group groups.now) rows.now) }
{
    let mut changed = Vec::new(alloc);
    for row in rows {
        changed.push(changed_group(groups, *row))?;
    }
    Ok(changed)
}

/// Rows for new rates of users, with what was left under each number in these rows.
pub(crate) fn changed_users<A: Allocator>(
    alloc: A,
    users: &[UserPace],
    rows: &[UserRate],
) -> Result<Vec<UserPace, A>, AllocError>
    requires rising { IsRising pace_number users.now }
    requires fit { All FitsUser rows.now }
    ensures users { IfOk result (λ new. new.items ≡ map (changed_user users.now) rows.now) }
{
    let mut changed = Vec::new(alloc);
    for row in rows {
        changed.push(changed_user(users, *row))?;
    }
    Ok(changed)
}
