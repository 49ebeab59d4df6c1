//! The rates of users and groups that a configuration has no longer.

ghost use Rattle.std.specs.Prelude.{◌≡◌, ◌++◌, IfErr, IfOk, OnOk};
ghost use Rattle.line_rates.specs.Stated.{limits_fault};
ghost use Rattle.config_change.specs.Past.{groups_with_past, past_groups, past_users, users_with_past, without_guarantee, KeepPast};
ghost use Rattle.config_change.specs.Renumbered.{IsLimitsFault};

use crate::fault::RenumberFault;
use line_rates::{GroupRate, Limits, Name, UserRate, Way};
use std::alloc::{AllocError, Global};

fn copied_groups(alloc: Global, rows: &[GroupRate]) -> Result<Vec<GroupRate>, AllocError>
    ensures copied { IfOk result (λ copy. copy.items ≡ rows.now) }
{
    let mut copy = Vec::new(alloc);
    for row in rows {
        copy.push(*row)?;
    }
    Ok(copy)
}

fn copied_users(alloc: Global, rows: &[UserRate]) -> Result<Vec<UserRate>, AllocError>
    ensures copied { IfOk result (λ copy. copy.items ≡ rows.now) }
{
    let mut copy = Vec::new(alloc);
    for row in rows {
        copy.push(*row)?;
    }
    Ok(copy)
}

/// Puts the rows of groups that have no row in the limits at the end.
fn push_groups(
    rows: &mut Vec<GroupRate>,
    limits: &Limits,
    earlier: &[GroupRate],
) -> Result<(), AllocError>
    ensures pushed { OnOk result (rows.new.items
        ≡ rows.old.items ++ past_groups limits.now earlier.now) }
{
    for row in earlier {
        if limits.group_row(row.group).is_some() {
            continue;
        }
        rows.push(*row)?;
    }
    Ok(())
}

fn unguaranteed(row: UserRate) -> UserRate
    ensures row { result ≡ without_guarantee row }
{
    UserRate {
        session_down_floor: 0,
        session_up_floor: 0,
        ..row
    }
}

/// Puts the rows of users that have no row in the limits at the end, without guarantees.
fn push_users(
    rows: &mut Vec<UserRate>,
    limits: &Limits,
    earlier: &[UserRate],
) -> Result<(), AllocError>
    ensures pushed { OnOk result (rows.new.items
        ≡ rows.old.items ++ past_users limits.now earlier.now) }
{
    for row in earlier {
        if limits.user_row(row.user).is_some() {
            continue;
        }
        rows.push(unguaranteed(*row))?;
    }
    Ok(())
}

/// Limits with the earlier rows of the groups and users that have no row in them: a session of a user whom a
/// configuration has no longer keeps its rates and those of its group, without a guarantee, until it has ended. `earlier`
/// are the limits in force, with rows that were kept before. The line is shared among the same as before: no configuration
/// says among whom.
pub fn with_past(alloc: Global, limits: &Limits, earlier: &Limits) -> Result<Limits, RenumberFault>
    ensures kept { IfOk result (KeepPast limits.now earlier.now) }
    ensures refused { IfErr result (IsLimitsFault (limits_fault limits.now.server
        limits.now.down limits.now.up (groups_with_past limits.now earlier.now)
        (users_with_past limits.now earlier.now))) }
{
    let mut groups = copied_groups(alloc, limits.groups())?;
    push_groups(&mut groups, limits, earlier.groups())?;
    let mut users = copied_users(alloc, limits.users())?;
    push_users(&mut users, limits, earlier.users())?;
    let server = limits.rate(Name::Server);
    let down = limits.rate(Name::Direction(Way::Down));
    let up = limits.rate(Name::Direction(Way::Up));
    match Limits::of(server, down, up, groups, users) {
        Ok(all) => Ok(all.shared_by(earlier.share_by())),
        Err(fault) => Err(RenumberFault::Limits(fault)),
    }
}
