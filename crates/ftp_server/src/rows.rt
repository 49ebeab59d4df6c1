//! The rows of rates that a server's users have.

ghost use Rattle.std.specs.Prelude.{◌≡◌, ◌++◌, IfOk, OnOk, map};
ghost use Rattle.std.specs.FinMap as finite;
ghost use Rattle.std.specs.String.{string_bytes};
ghost use Rattle.ftp_server.specs.Rows.{found_row, last_set, later, named_rows, row_list, row_with, user_rows};

use crate::rates::{SetRates, UserRates};
use authorizer::Authorizer;
use line_rates::UserRate;
use std::alloc::{AllocError, Global};

// The rates of a number after these were set.
fn later(found: UserRates, set: SetRates, number: u32) -> UserRates
    ensures later { result ≡ later found set number }
{
    if set.number == number {
        set.rates
    } else {
        found
    }
}

// The rates that were set last for a number.
fn last_set(set: &[SetRates], number: u32) -> UserRates
    ensures last { result ≡ last_set set.now number }
{
    let mut found = UserRates::NONE;
    for place in 0..set.len() {
        found = later(found, set[place], number);
    }
    found
}

fn row_with(user: u32, group: Option<u32>, rates: UserRates) -> UserRate
    ensures row { result ≡ row_with user group rates }
{
    UserRate {
        user,
        group,
        down: rates.down,
        up: rates.up,
        session_down: rates.session_down,
        session_up: rates.session_up,
        session_down_floor: rates.session_down_floor,
        session_up_floor: rates.session_up_floor,
    }
}

// The row of a user, if there is one of this name.
fn row_of(users: &Authorizer, set: &[SetRates], name: &str) -> Option<UserRate>
    ensures row { result ≡ found_row set.now (finite.get users.now.users name.now) }
{
    let number = users.number(name)?;
    Some(row_with(number, users.group(name), last_set(set, number)))
}

// Adds a row, if there is one.
fn add_row(rows: &mut Vec<UserRate>, row: Option<UserRate>) -> Result<(), AllocError>
    ensures added { OnOk result (rows.new.items ≡ rows.old.items ++ row_list row) }
{
    if let Some(row) = row {
        rows.push(row)?;
    }
    Ok(())
}

// Rows for the users with these names.
fn rows_named(
    alloc: Global,
    users: &Authorizer,
    set: &[SetRates],
    names: &[String],
) -> Result<Vec<UserRate>, AllocError>
    ensures rows { IfOk result (λ rows. rows.items
        ≡ named_rows users.now.users set.now (map string_bytes names.now)) }
{
    let mut rows = Vec::with_capacity(alloc, names.len())?;
    for place in 0..names.len() {
        add_row(&mut rows, row_of(users, set, names[place].as_str()))?;
    }
    Ok(rows)
}

/// A row of rates for each user, with the user's group.
pub(crate) fn user_rows(
    alloc: Global,
    users: &Authorizer,
    set: &[SetRates],
) -> Result<Vec<UserRate>, AllocError>
    ensures rows { IfOk result (λ rows. rows.items ≡ user_rows users.now.users set.now) }
{
    let names = users.names(alloc)?;
    rows_named(alloc, users, set, &names)
}
