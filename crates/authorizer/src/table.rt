//! Users by name, and changes to one of them.

ghost use Rattle.std.specs.Prelude.{◌≡◌, false, Some, None, Ok, Err, is_some, MatchOption, MatchResult, IfErr, OnOk, OnErr};
ghost use Rattle.std.specs.FinMap as map;
ghost use Rattle.std.specs.String.{string_bytes};
ghost use Rattle.memory_terms.specs.Lack.{Unless};
ghost use Rattle.ftp_terms.specs.LineText.{text_of};
ghost use Rattle.authorizer.specs.Users.{User};
ghost use Rattle.authorizer.specs.Stored.{map_of, user_of};

use crate::account::{Account, Rule};
use crate::fault::AuthorizerFault;
use ftp_terms::LineText;
use std::alloc::{AllocError, Allocator};
use std::collections::BTreeMap;

/// The users by name.
pub(crate) type Table<A> = BTreeMap<String<A>, Account<A>, A>;

/// A user's overrides, keyed by the texts of their paths.
pub(crate) type Rules<A> = BTreeMap<String<A>, Rule, A>;

pub(crate) fn find<'a, A: Allocator>(accounts: &'a Table<A>, name: &str) -> Option<&'a Account<A>>
    ensures found { MatchOption result
        (map.get (map_of user_of accounts.now) name.now ≡ None)
        (λ account. map.get (map_of user_of accounts.now) name.now ≡ Some (user_of account.now)) }
{
    accounts.get(name)
}

/// Adds a user, or replaces the one with the same name.
pub(crate) fn place<A: Allocator + Clone>(
    accounts: &mut Table<A>,
    name: String<A>,
    account: Account<A>,
) -> Result<(), AllocError>
    ensures ok { OnOk result
        (map_of user_of accounts.new ≡ map.insert (map_of user_of accounts.old) (string_bytes name)
        (user_of account)) }
    ensures err { OnErr result (map_of user_of accounts.new ≡ map_of user_of accounts.old) }
{
    accounts.insert(name, account)?;
    Ok(())
}

pub(crate) fn remove<A: Allocator>(accounts: &mut Table<A>, name: &str) -> bool
    ensures removed { result ≡ map.contains_key (map_of user_of accounts.old) name.now }
    ensures missing { result ≡ false → map_of user_of accounts.new ≡ map_of user_of accounts.old }
    ensures users { map_of user_of accounts.new
        ≡ map.remove (map_of user_of accounts.old) name.now }
{
    accounts.remove(name).is_some()
}

fn put_rule<A: Allocator + Clone>(
    rules: &mut Rules<A>,
    text: String<A>,
    rule: Rule,
) -> Result<(), AllocError>
    ensures ok { OnOk result
        (map_of (λ rule. rule) rules.new
        ≡ map.insert (map_of (λ rule. rule) rules.old) (string_bytes text) rule) }
    ensures err { OnErr result (map_of (λ rule. rule) rules.new ≡ map_of (λ rule. rule) rules.old) }
{
    rules.insert(text, rule)?;
    Ok(())
}

pub(crate) fn override_path<A: Allocator + Clone>(
    accounts: &mut Table<A>,
    name: &str,
    text: String<A>,
    rule: Rule,
) -> Result<(), AuthorizerFault>
    ensures ok { OnOk result ((user : User)
        × (map.get (map_of user_of accounts.old) name.now ≡ Some user)
        × (map_of user_of accounts.new
        ≡ map.insert (map_of user_of accounts.old) name.now
        (record user { overrides = map.insert user.overrides (string_bytes text) rule }))) }
    ensures err { OnErr result (map_of user_of accounts.new ≡ map_of user_of accounts.old) }
    ensures which { IfErr result (Unless AuthorizerFault.Memory (λ fault.
        (fault ≡ AuthorizerFault.NoSuchUser)
        × (map.get (map_of user_of accounts.old) name.now ≡ None))) }
{
    match accounts.get_mut(name) {
        Some(account) => {
            put_rule(&mut account.overrides, text, rule)?;
            Ok(())
        }
        None => Err(AuthorizerFault::NoSuchUser),
    }
}

pub(crate) fn set_messages<A: Allocator>(
    accounts: &mut Table<A>,
    name: &str,
    login: LineText<A>,
    quit: LineText<A>,
) -> Result<(), AuthorizerFault>
    ensures messages { MatchResult result
        (λ _. (user : User) × (map.get (map_of user_of accounts.old) name.now ≡ Some user)
        × (map_of user_of accounts.new
        ≡ map.insert (map_of user_of accounts.old) name.now
        (record user { login = text_of login; quit = text_of quit })))
        (λ fault. (fault ≡ AuthorizerFault.NoSuchUser)
        × (map.get (map_of user_of accounts.old) name.now ≡ None)
        × (map_of user_of accounts.new ≡ map_of user_of accounts.old)) }
{
    match accounts.get_mut(name) {
        Some(account) => {
            account.login = Some(login);
            account.quit = Some(quit);
            Ok(())
        }
        None => Err(AuthorizerFault::NoSuchUser),
    }
}

pub(crate) fn set_group<A: Allocator>(
    accounts: &mut Table<A>,
    name: &str,
    group: Option<u32>,
) -> Result<(), AuthorizerFault>
    ensures group { MatchResult result
        (λ _. (user : User) × (map.get (map_of user_of accounts.old) name.now ≡ Some user)
        × (map_of user_of accounts.new
        ≡ map.insert (map_of user_of accounts.old) name.now (record user { group = group })))
        (λ fault. (fault ≡ AuthorizerFault.NoSuchUser)
        × (map.get (map_of user_of accounts.old) name.now ≡ None)
        × (map_of user_of accounts.new ≡ map_of user_of accounts.old)) }
{
    match accounts.get_mut(name) {
        Some(account) => {
            account.group = group;
            Ok(())
        }
        None => Err(AuthorizerFault::NoSuchUser),
    }
}

/// Gives a user another number, if there is one of that name.
pub(crate) fn set_number<A: Allocator>(accounts: &mut Table<A>, name: &str, number: u32)
    ensures number { MatchOption (map.get (map_of user_of accounts.old) name.now)
        (map_of user_of accounts.new ≡ map_of user_of accounts.old)
        (λ user. map_of user_of accounts.new
        ≡ map.insert (map_of user_of accounts.old) name.now (record user { number = number })) }
{
    match accounts.get_mut(name) {
        Some(account) => account.number = number,
        None => {}
    }
}
