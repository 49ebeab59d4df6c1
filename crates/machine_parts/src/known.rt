//! The names of users and groups that a server knows by numbers.

ghost use Rattle.std.specs.Prelude.{◌≡◌, ◌+◌, ◌-◌, IfOk, OnOk, count_by, map, nat_eq, not, option_map, slice_get, string_bytes};
ghost use Rattle.std.specs.List.{list_any};
ghost use Rattle.std.specs.List.Sorted.{IsNonDecreasing};
ghost use Rattle.std.specs.FinMap as finite;
ghost use Rattle.machine_parts.specs.Known.{AreBelow, ArePresent, IsLeast, numbers_of};
ghost use Rattle.machine_parts.specs.Names.{AreKnown, HasNumbers, name_in};

use authorizer::{Authorizer, AuthorizerFault};
use config_change::{NumberedName, known_names};
use line_rates::Limits;
use std::alloc::{AllocError, Global};

/// A name that no user has: a configuration states names of one line.
const NOBODY: &str = "\n";

/// The names of users and groups, by their numbers; those of the past among them, which keep theirs.
///
/// It has no passwords and no homes: a type with an [`Authorizer`] in it cannot be among the signs of a server, since the
/// borrow checker does not cover a call of `serve` with them.
#[derive(Drop)]
pub struct Known {
    // in the order of their numbers
    users: Vec<NumberedName>,
    // the least number above all that users have or had
    next: u64,
    // the numbers of those who are users now, ascending
    present: Vec<u32>,
    /// The names of groups, by their numbers.
    pub groups: Vec<String>,
    /// The limits in force, with the rows of the past.
    pub limits: Limits,
    ghost below: { AreBelow users.items next },
    ghost least: { IsLeast users.items next },
    ghost rising: { IsNonDecreasing present.items },
}

/// The least number above those of all.
fn next_number(users: &[NumberedName]) -> u64
    ensures below { AreBelow users.now result }
    ensures least { IsLeast users.now result }
{
    let mut next = 0;
    for place in 0..users.len() {
        next = next.max(u64::from(users[place].number) + 1);
    }
    next
}

/// Has an authorizer use a number for nobody.
fn skip_one(users: &mut Authorizer) -> Result<(), AuthorizerFault>
    ensures users { OnOk result (users.new.users ≡ users.old.users) }
    ensures next { OnOk result (users.new.next ≡ users.old.next + 1) }
{
    users.add_user(NOBODY, "", "/", "")?;
    users.remove_user(NOBODY)
}

/// Has an authorizer use the numbers from one up to another for nobody.
fn skip(users: &mut Authorizer, from: u64, to: u64) -> Result<(), AuthorizerFault>
    ensures users { OnOk result (users.new.users ≡ users.old.users) }
    ensures next { OnOk result (users.new.next ≡ users.old.next + (to - from)) }
{
    for _number in from..to {
        skip_one(users)?;
    }
    Ok(())
}

/// The numbers of users, in the order of their names.
fn numbers_of(alloc: Global, users: &Authorizer) -> Result<Vec<u32>, AllocError>
    ensures numbers { IfOk result (λ numbers. numbers.items ≡ numbers_of users.now) }
{
    let names = users.names(alloc)?;
    let mut numbers = Vec::new(alloc);
    for name in &names {
        if let Some(number) = users.number(name.as_str()) {
            numbers.push(number)?;
        }
    }
    Ok(numbers)
}

/// The numbers of users, ascending.
fn present_of(alloc: Global, users: &Authorizer) -> Result<Vec<u32>, AllocError>
    ensures present { IfOk result (λ present. ArePresent users.now present.items) }
{
    let mut present = numbers_of(alloc, users)?;
    present.sort_unstable();
    Ok(present)
}

/// Returns whether a number is among numbers that ascend.
fn is_among(numbers: &[u32], number: u32) -> bool
    requires rising { IsNonDecreasing numbers.now }
    ensures among { result ≡ list_any (λ other. nat_eq other number) numbers.now }
{
    numbers.binary_search(&number).is_ok()
}

impl Known {
    /// The names of these users, and of those who were known earlier.
    pub fn of(
        alloc: Global,
        users: &Authorizer,
        earlier: &[NumberedName],
        groups: Vec<String>,
        limits: Limits,
    ) -> Result<Known, AllocError>
        ensures names { IfOk result
            (λ known. AreKnown users.now earlier.now known.users.items) }
        ensures groups { IfOk result (λ known. known.groups ≡ groups) }
        ensures limits { IfOk result (λ known. known.limits ≡ limits) }
        ensures present { IfOk result (λ known. ArePresent users.now known.present.items) }
    {
        let mut numbered = known_names(alloc, users, earlier)?;
        numbered.sort_unstable_by_key(|user| user.number);
        Ok(Known {
            next: next_number(numbered.as_slice()),
            users: numbered,
            present: present_of(alloc, users)?,
            groups,
            limits,
        })
    }

    /// Number of those who are users here, and no longer there.
    pub fn gone(&self, next: &Known) -> u64
        ensures count { result ≡ count_by
            (λ number. not (list_any (λ other. nat_eq other number) next.now.present.items))
            self.now.present.items }
    {
        let mut count: u64 = 0;
        for number in &self.present {
            let is_there = is_among(next.present.as_slice(), *number);
            count += u64::from(!is_there);
        }
        count
    }

    /// The names of all who are or were users, with their numbers.
    pub fn users(&self) -> &[NumberedName]
        ensures users { result.now ≡ self.now.users.items }
    {
        self.users.as_slice()
    }

    /// The name of the user with a number.
    pub fn user(&self, number: u32) -> Option<&str>
        ensures name { option_map (λ name. name.now) result
            ≡ name_in self.now.users.items number }
    {
        for user in &self.users {
            if user.number == number {
                return Some(user.name.as_str());
            }
        }
        None
    }

    /// The name of the group with a number.
    pub fn group(&self, number: u32) -> Option<&str>
        ensures name { option_map (λ name. name.now) result
            ≡ slice_get (map string_bytes self.now.groups.items) number }
    {
        let name = self.groups.get(number as usize)?;
        Some(name.as_str())
    }

    /// An authorizer in which users of these names have these numbers, and new ones get others than anybody has had.
    /// `Err` is lack of memory, or that two names have one number, or that two users have one name.
    pub fn authorizer(&self, alloc: Global) -> Result<Authorizer, AuthorizerFault>
        ensures numbers { IfOk result (HasNumbers self.now.users.items self.now.next) }
    {
        let mut users = Authorizer::new(alloc)?;
        let mut next = 0;
        for user in &self.users {
            let number = u64::from(user.number);
            if number < next {
                return Err(AuthorizerFault::NoNumber);
            }
            skip(&mut users, next, number)?;
            users.add_user(user.name.as_str(), "", "/", "")?;
            next = number + 1;
        }
        skip(&mut users, next, self.next)?;
        Ok(users)
    }
}
