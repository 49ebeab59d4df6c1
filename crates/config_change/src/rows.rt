//! The rates of users and groups under other numbers.

ghost use Rattle.std.specs.Prelude.{◌≡◌, ◌≤◌, ◌^◌, ◌++◌, IfOk, OnOk, length, map, option_map, slice_index_or, string_bytes};
ghost use Rattle.config_change.specs.Named.{group_rows, number_named, rates_named, user_after, user_rows};
ghost use Rattle.authorizer.specs.Users.{Accounts};
ghost use Rattle.line_rates.specs.Rates.{Rates};

use authorizer::Authorizer;
use line_rates::{GroupRate, Limits, UserRate};
use std::alloc::{AllocError, Global};

/// The rates of the group at each index, under its number.
pub(crate) fn group_rows(
    alloc: Global,
    limits: &Limits,
    numbers: &[u32],
) -> Result<Vec<GroupRate>, AllocError>
    requires few { length numbers.now ≤ 2 ^ 32 }
    ensures rows { IfOk result (λ rows. rows.items ≡ group_rows limits.now 0 numbers.now) }
{
    let mut rows = Vec::new(alloc);
    for (index, number) in numbers.iter().enumerate() {
        let Some(row) = limits.group_row(index as u32) else {
            continue;
        };
        rows.push(GroupRate {
            group: *number,
            ..row
        })?;
    }
    Ok(rows)
}

/// The rates of the user of a name.
fn rates_of(users: &Authorizer, limits: &Limits, name: &str) -> Option<UserRate>
    ensures row { result ≡ rates_named users.now limits.now name.now }
{
    let number = users.number(name)?;
    limits.user_row(number)
}

/// The rates of the users of names, in the order of the names.
pub(crate) fn named_rates(
    alloc: Global,
    users: &Authorizer,
    limits: &Limits,
    names: &[String],
) -> Result<Vec<Option<UserRate>>, AllocError>
    ensures rows { IfOk result (λ rows. rows.items
        ≡ map (λ name. rates_named users.now limits.now (string_bytes name)) names.now) }
{
    let mut rows = Vec::new(alloc);
    for name in names {
        rows.push(rates_of(users, limits, name.as_str()))?;
    }
    Ok(rows)
}

fn number_at(numbers: &[u32], group: u32) -> u32
    ensures number { result ≡ slice_index_or numbers.now group group }
{
    let place = group as usize;
    if place < numbers.len() {
        numbers[place]
    } else {
        group
    }
}

fn other_group(numbers: &[u32], group: Option<u32>) -> Option<u32>
    ensures group { result ≡ option_map (λ g. slice_index_or numbers.now g g) group }
{
    match group {
        Some(group) => Some(number_at(numbers, group)),
        None => None,
    }
}

/// Puts the rates of a user at the end, under the numbers of the user and of the group, if both are there.
fn push_row(
    rows: &mut Vec<UserRate>,
    users: &Authorizer,
    numbers: &[u32],
    name: &str,
    rate: Option<UserRate>,
) -> Result<(), AllocError>
    ensures pushed { OnOk result (rows.new.items
        ≡ rows.old.items ++ user_after numbers.now (number_named users.now name.now) rate) }
{
    let Some(user) = users.number(name) else {
        return Ok(());
    };
    let Some(row) = rate else {
        return Ok(());
    };
    rows.push(UserRate {
        user,
        group: other_group(numbers, row.group),
        ..row
    })?;
    Ok(())
}

/// The rates of the users of names, under the numbers of the users and of their groups.
pub(crate) fn user_rows(
    alloc: Global,
    users: &Authorizer,
    numbers: &[u32],
    names: &[String],
    rates: &[Option<UserRate>],
) -> Result<Vec<UserRate>, AllocError>
    requires each { length rates.now ≡ length names.now }
    ensures rows { (before : Accounts) (limits : Rates)
        → rates.now ≡ map (λ name. rates_named before limits (string_bytes name)) names.now
        → IfOk result (λ rows. rows.items
        ≡ user_rows before users.now limits numbers.now (map string_bytes names.now)) }
{
    let mut rows = Vec::new(alloc);
    for (index, name) in names.iter().enumerate() {
        push_row(&mut rows, users, numbers, name.as_str(), rates[index])?;
    }
    Ok(rows)
}
