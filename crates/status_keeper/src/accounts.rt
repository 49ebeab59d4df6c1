//! Octets that users got since the start.

ghost use Rattle.std.specs.Prelude.{◌≡◌};
ghost use Rattle.status_keeper.specs.Accounts.{with_granted, with_unmet};

use crate::facts::KeptAccount;
use line_rates::Way;
use std::alloc::{AllocError, Global};

/// Adds what a transfer got that has ended.
fn add_granted(account: &mut KeptAccount, way: Way, octets: u64)
    ensures added { account.new ≡ with_granted way octets account.old }
{
    match way {
        Way::Down => account.granted_down = account.granted_down.saturating_add(octets),
        Way::Up => account.granted_up = account.granted_up.saturating_add(octets),
    }
}

/// Adds a time in which a guarantee was not met.
fn add_unmet(account: &mut KeptAccount, way: Way, micros: u64)
    ensures added { account.new ≡ with_unmet way micros account.old }
{
    match way {
        Way::Down => account.unmet_down = account.unmet_down.saturating_add(micros),
        Way::Up => account.unmet_up = account.unmet_up.saturating_add(micros),
    }
}

// The place of the account of a user, by their number.
fn place_of(accounts: &[KeptAccount], number: u32) -> Option<usize> {
    for place in 0..accounts.len() {
        if accounts[place].number == number {
            return Some(place);
        }
    }
    None
}

// An account of a user without anything.
fn account_of(alloc: Global, user: &str, number: u32) -> Result<KeptAccount, AllocError> {
    Ok(KeptAccount {
        user: String::from_str(alloc, user)?,
        number,
        granted_down: 0,
        granted_up: 0,
        unmet_down: 0,
        unmet_up: 0,
    })
}

/// Opens the account of a user, if there is none yet. Without memory for it, they have none.
pub(crate) fn open(alloc: Global, accounts: &mut Vec<KeptAccount>, user: &str, number: u32) {
    if place_of(accounts, number).is_some() {
        return;
    }
    if let Ok(account) = account_of(alloc, user, number) {
        let _ = accounts.push(account);
    }
}

/// Adds to the account of a user what a transfer got that has ended.
pub(crate) fn grant(accounts: &mut [KeptAccount], number: u32, way: Way, octets: u64) {
    if let Some(place) = place_of(accounts, number) {
        if place < accounts.len() {
            add_granted(&mut accounts[place], way, octets);
        }
    }
}

/// Adds to the account of a user a time in which a guarantee was not met.
pub(crate) fn miss(accounts: &mut [KeptAccount], number: u32, way: Way, micros: u64) {
    if let Some(place) = place_of(accounts, number) {
        if place < accounts.len() {
            add_unmet(&mut accounts[place], way, micros);
        }
    }
}
