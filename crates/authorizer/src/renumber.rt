//! Numbers that users keep from earlier ones.

ghost use Rattle.std.specs.Prelude.{◌≡◌, ◌+◌, ◌-◌, ◌<◌, ◌≤◌, ◌^◌, ℕ, List, map, length, min, count_by, nat_lt, string_bytes, slice_index_or, option_map, IfOk, IsPermutation, MatchOption};
ghost use Rattle.std.specs.List.Sorted.{IsNonDecreasing};
ghost use Rattle.std.specs.FinMap as finite;
ghost use Rattle.authorizer.specs.Users.{User};
ghost use Rattle.authorizer.specs.Renumbered.{each_user, numbers_by, numbered_item, new_numbers, number_or, kept_number, regrouped};
ghost use Rattle.authorizer.specs.Stored.{map_of, user_of};

use crate::table::{Table, find, set_number};
use std::alloc::{AllocError, Allocator};

/// The number that a user is to have.
#[derive(Drop)]
pub(crate) struct Numbered<A: Allocator> {
    pub name: String<A>,
    pub number: u32,
}

/// The numbers of the users whose names the earlier ones do not have, in the order of names.
fn listed_numbers<A: Allocator, B: Allocator>(
    alloc: A,
    accounts: &Table<A>,
    earlier: &Table<B>,
) -> Result<Vec<u32, A>, AllocError>
    ensures numbers { IfOk result (λ numbers. numbers.items
        ≡ new_numbers (map_of user_of earlier.now) (map_of user_of accounts.now)) }
{
    let mut numbers = Vec::new(alloc);
    for (name, account) in accounts {
        if find(earlier, name.as_str()).is_some() {
            continue;
        }
        numbers.push(account.number)?;
    }
    Ok(numbers)
}

/// The same in ascending order.
pub(crate) fn new_numbers<A: Allocator, B: Allocator>(
    alloc: A,
    accounts: &Table<A>,
    earlier: &Table<B>,
) -> Result<Vec<u32, A>, AllocError>
    ensures numbers { IfOk result (λ numbers. IsPermutation
        (new_numbers (map_of user_of earlier.now) (map_of user_of accounts.now)) numbers.items) }
    ensures ascending { IfOk result (λ numbers. IsNonDecreasing numbers.items) }
{
    let mut numbers = listed_numbers(alloc, accounts, earlier)?;
    numbers.sort_unstable();
    Ok(numbers)
}

/// Length of the leading run of numbers below another.
fn count_below(numbers: &[u32], number: u32) -> usize
    requires ascending { IsNonDecreasing numbers.now }
    ensures below { result ≡ count_by (λ n. nat_lt n number) numbers.now }
    ensures few { result ≤ length numbers.now }
{
    numbers.partition_point(|n| *n < number)
}

/// The number of the user of a name: the earlier one, or the next one with the new numbers below it.
fn kept_number<A: Allocator>(
    earlier: &Table<A>,
    next: u64,
    numbers: &[u32],
    name: &str,
    number: u32,
) -> u32
    requires ascending { IsNonDecreasing numbers.now }
    requires room { next + length numbers.now ≤ 2 ^ 32 }
    ensures number { result ≡ number_or (finite.get (map_of user_of earlier.now) name.now)
        (min (next + count_by (λ n. nat_lt n number) numbers.now) (2 ^ 32 - 1)) }
{
    match find(earlier, name) {
        Some(account) => account.number,
        None => {
            let next = next + count_below(numbers, number) as u64;
            next.min(u64::from(u32::MAX)) as u32
        }
    }
}

/// The number of each user, in the order of names.
pub(crate) fn planned<A: Allocator + Clone, B: Allocator>(
    alloc: A,
    accounts: &Table<A>,
    earlier: &Table<B>,
    next: u64,
    numbers: &[u32],
) -> Result<Vec<Numbered<A>, A>, AllocError>
    requires all { IsPermutation
        (new_numbers (map_of user_of earlier.now) (map_of user_of accounts.now)) numbers.now }
    requires ascending { IsNonDecreasing numbers.now }
    requires room { next + length numbers.now ≤ 2 ^ 32 }
    ensures plan { IfOk result (λ plan. map numbered_item plan.items
        ≡ numbers_by (λ name user. kept_number
        (record { users = map_of user_of earlier.now; next = next })
        (new_numbers (map_of user_of earlier.now) (map_of user_of accounts.now)) name user.number)
        (map_of user_of accounts.now)) }
{
    let mut plan = Vec::new(alloc.clone()?);
    for (name, account) in accounts {
        let number = kept_number(earlier, next, numbers, name.as_str(), account.number);
        let name = String::from_str(alloc.clone()?, name.as_str())?;
        plan.push(Numbered { name, number })?;
    }
    Ok(plan)
}

/// Gives each user the planned number.
pub(crate) fn renumber<A: Allocator>(accounts: &mut Table<A>, plan: &[Numbered<A>])
    ensures users { (number : List ℕ → User → ℕ)
        → map numbered_item plan.now ≡ numbers_by number (map_of user_of accounts.old)
        → map_of user_of accounts.new
        ≡ each_user (λ name user. record user { number = number name user })
        (map_of user_of accounts.old) }
{
    for entry in plan {
        set_number(accounts, entry.name.as_str(), entry.number);
    }
}

/// The names of all users, in their order.
pub(crate) fn names<A: Allocator, B: Allocator + Clone>(
    alloc: B,
    accounts: &Table<A>,
) -> Result<Vec<String<B>, B>, AllocError>
    ensures names { IfOk result
        (λ names. map string_bytes names.items ≡ finite.keys (map_of user_of accounts.now)) }
{
    let mut names = Vec::new(alloc.clone()?);
    for name in accounts.keys() {
        names.push(String::from_str(alloc.clone()?, name.as_str())?)?;
    }
    Ok(names)
}

/// The number at the place of a group's number, or otherwise that number.
fn number_at(numbers: &[u32], group: u32) -> u32
    ensures number { result ≡ slice_index_or numbers.now group group }
{
    let place = group as usize;
    if place < numbers.len() {
        numbers[place]
    } else {
        group
    }
}

fn other_group(numbers: &[u32], group: Option<u32>) -> Option<u32>
    ensures group { result ≡ option_map (λ g. slice_index_or numbers.now g g) group }
{
    match group {
        Some(group) => Some(number_at(numbers, group)),
        None => None,
    }
}

/// Gives each named user another number of their group.
pub(crate) fn regroup<A: Allocator, B: Allocator>(
    accounts: &mut Table<A>,
    names: &[String<B>],
    numbers: &[u32],
)
    ensures users { map string_bytes names.now ≡ finite.keys (map_of user_of accounts.old)
        → map_of user_of accounts.new
        ≡ (regrouped numbers.now (record { users = map_of user_of accounts.old; next = 0 })).users }
{
    for name in names {
        regroup_one(accounts, name.as_str(), numbers);
    }
}

fn regroup_one<A: Allocator>(accounts: &mut Table<A>, name: &str, numbers: &[u32])
    ensures group { MatchOption (finite.get (map_of user_of accounts.old) name.now)
        (map_of user_of accounts.new ≡ map_of user_of accounts.old)
        (λ user. map_of user_of accounts.new
        ≡ finite.insert (map_of user_of accounts.old) name.now
        (record user { group = option_map (λ g. slice_index_or numbers.now g g) user.group })) }
{
    match accounts.get_mut(name) {
        Some(account) => account.group = other_group(numbers, account.group),
        None => {}
    }
}
