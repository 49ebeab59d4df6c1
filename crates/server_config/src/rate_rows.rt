//! A row of rates for each group and for each user.

ghost use Rattle.std.specs.Prelude.{◌≡◌, ◌<◌, ◌^◌, IfErr, IfOk, OnOk, List, length};
ghost use Rattle.config_file.specs.declared.stated.GroupTable.{GroupTable};
ghost use Rattle.server_config.specs.Groups.{AreGrouped, AreNumbers, AreApart, HasGroup, IsFault, IsFaultOfUser, IsNoNumber, group_in};
ghost use Rattle.config_file.specs.declared.stated.UserTable.{UserTable};
ghost use Rattle.server_config.specs.RateRows.{user_row, group_rows, user_rows};

use crate::group_problem::{GroupProblem, fault_of};
use crate::groups::{Numbers, number_groups, number_of};
use config_file::{Fault, GroupTable, TableName, UserTable};
use line_rates::{GroupRate, UserRate};
use std::alloc::Global;

/// The rows of all groups and users, in the order of the file.
#[derive(Debug, Drop)]
pub(crate) struct RateRows {
    pub groups: Vec<GroupRate>,
    pub users: Vec<UserRate>,
}

/// The number of the row at an index of the file.
fn row_number<'a>(
    table: TableName,
    index: usize,
    name: &'a str,
) -> Result<u32, Fault<'a, GroupProblem>>
    requires within { index < 2 ^ 63 }
    ensures number { IfOk result (λ number. number ≡ index) }
    ensures refused { IfErr result (IsNoNumber table index name.now) }
{
    match u32::try_from(index) {
        Ok(number) => Ok(number),
        Err(_) => Err(fault_of(table, index, name, GroupProblem::NoNumber)),
    }
}

fn read_groups<'a>(
    alloc: Global,
    groups: &[GroupTable<'a>],
) -> Result<Vec<GroupRate>, Fault<'a, GroupProblem>>
    ensures rows { IfOk result (λ rows. rows.items ≡ group_rows groups.now) }
    ensures refused { (users : List UserTable) → IfErr result (IsFault groups.now users) }
{
    let mut rows = Vec::new(alloc);
    for (index, group) in groups.iter().enumerate() {
        rows.push(GroupRate {
            group: row_number(TableName::Group, index, group.name)?,
            down: group.down_rate,
            up: group.up_rate,
        })?;
    }
    Ok(rows)
}

/// The number of a user's group, if they are in one.
fn group_of<'a>(
    numbers: &Numbers,
    index: usize,
    user: &UserTable<'a>,
) -> Result<Option<u32>, Fault<'a, GroupProblem>>
    requires within { index < 2 ^ 63 }
    ensures group { (groups : List GroupTable) → AreNumbers groups numbers.now
        → IfOk result (λ group. group ≡ group_in groups user.now.group) }
    ensures has { (groups : List GroupTable) → AreNumbers groups numbers.now
        → OnOk result (HasGroup groups user.now.group) }
    ensures refused { (groups : List GroupTable) → AreNumbers groups numbers.now
        → IfErr result (IsFaultOfUser groups index user.now) }
{
    let Some(name) = user.group else {
        return Ok(None);
    };
    match number_of(numbers, name) {
        Some(number) => Ok(Some(number)),
        None => Err(fault_of(TableName::User, index, user.name, GroupProblem::NoSuchGroup)),
    }
}

/// The row of a user, at an index of the file.
fn read_user<'a>(
    numbers: &Numbers,
    index: usize,
    user: &UserTable<'a>,
) -> Result<UserRate, Fault<'a, GroupProblem>>
    requires within { index < 2 ^ 63 }
    ensures row { (groups : List GroupTable) → AreNumbers groups numbers.now
        → IfOk result (λ row. row ≡ user_row groups index user.now) }
    ensures has { (groups : List GroupTable) → AreNumbers groups numbers.now
        → OnOk result (HasGroup groups user.now.group) }
    ensures refused { (groups : List GroupTable) → AreNumbers groups numbers.now
        → IfErr result (IsFaultOfUser groups index user.now) }
{
    let group = group_of(numbers, index, user)?;
    let number = row_number(TableName::User, index, user.name)?;
    Ok(UserRate {
        user: number,
        group,
        down: user.down_rate,
        up: user.up_rate,
        session_down: user.session_down_rate,
        session_up: user.session_up_rate,
        session_down_floor: user.session_down_floor,
        session_up_floor: user.session_up_floor,
    })
}

fn read_users<'a>(
    alloc: Global,
    numbers: &Numbers,
    users: &[UserTable<'a>],
) -> Result<Vec<UserRate>, Fault<'a, GroupProblem>>
    ensures rows { (groups : List GroupTable) → AreNumbers groups numbers.now
        → IfOk result (λ rows. rows.items ≡ user_rows groups users.now) }
    ensures grouped { (groups : List GroupTable) → AreNumbers groups numbers.now
        → OnOk result (AreGrouped groups users.now) }
    ensures refused { (groups : List GroupTable) → AreNumbers groups numbers.now
        → AreApart groups → IfErr result (IsFault groups users.now) }
{
    let mut rows = Vec::new(alloc);
    for (index, user) in users.iter().enumerate() {
        let row = read_user(numbers, index, user)?;
        rows.push(row)?;
    }
    Ok(rows)
}

/// Numbers groups and users, and reads the rates of each. `Err` is the first group with the name of one before it, or
/// otherwise the first user whose group is not there, each with its row; or a row without a number; or lack of memory.
pub(crate) fn read_rows<'a>(
    alloc: Global,
    groups: &[GroupTable<'a>],
    users: &[UserTable<'a>],
) -> Result<RateRows, Fault<'a, GroupProblem>>
    ensures groups { IfOk result (λ rows. rows.groups.items ≡ group_rows groups.now) }
    ensures users { IfOk result (λ rows. rows.users.items ≡ user_rows groups.now users.now) }
    ensures many { IfOk result (λ rows. length rows.users.items ≡ length users.now) }
    ensures apart { OnOk result (AreApart groups.now) }
    ensures grouped { OnOk result (AreGrouped groups.now users.now) }
    ensures refused { IfErr result (IsFault groups.now users.now) }
{
    let numbers = number_groups(alloc, groups)?;
    let rows = read_groups(alloc, groups)?;
    let users = read_users(alloc, &numbers, users)?;
    Ok(RateRows {
        groups: rows,
        users,
    })
}
