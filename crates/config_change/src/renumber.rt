//! A configuration with the numbers of a running server.

ghost use Rattle.std.specs.Prelude.{◌≡◌, ◌≤◌, ◌^◌, Ok, Err, IfErr, IfOk, length, map, string_bytes};
ghost use Rattle.memory_terms.specs.Lack.{Unless};
ghost use Rattle.authorizer.specs.Renumbered.{renumbered, regrouped};
ghost use Rattle.authorizer.specs.Users.{Accounts};
ghost use Rattle.authorizer.specs.declared.fault.AuthorizerFault.TheVariants as AuthorizerFault;
ghost use Rattle.line_rates.specs.Rates.{shared_by};
ghost use Rattle.line_rates.specs.Stated.{stated, limits_fault};
ghost use Rattle.config_change.specs.Named.{group_rows, rates_named, user_rows};
ghost use Rattle.config_change.specs.Renumbered.{IsLimitsFault, IsRenumbered, IsRefused};

use crate::fault::RenumberFault;
use crate::groups::{merged_names, numbers_of};
use crate::rows::{group_rows, named_rates, user_rows};
use authorizer::{Authorizer, AuthorizerFault};
use line_rates::{Limits, Name, UserRate, Way};
use server_config::Config;
use std::alloc::Global;

/// Maximum number of groups, those of the past included.
const MOST_GROUPS: usize = 4_294_967_296;

/// The users with the numbers that they had earlier, and with those of their groups.
fn renumbered_users(
    users: Authorizer,
    earlier: &Authorizer,
    numbers: &[u32],
) -> Result<Authorizer, RenumberFault>
    ensures users { IfOk result (λ new. (kept : Accounts)
        × (renumbered users earlier.now ≡ Ok kept) × (new ≡ regrouped numbers.now kept)) }
    ensures refused { IfErr result (Unless RenumberFault.Memory (λ fault.
        (fault ≡ RenumberFault.NoNumber)
        × (renumbered users earlier.now ≡ Err AuthorizerFault.NoNumber))) }
{
    let mut users = users;
    match users.keep_numbers(earlier) {
        Ok(()) => {}
        Err(AuthorizerFault::NoNumber) => return Err(RenumberFault::NoNumber),
        Err(_) => return Err(RenumberFault::Memory),
    }
    match users.renumber_groups(numbers) {
        Ok(()) => Ok(users),
        Err(_) => Err(RenumberFault::Memory),
    }
}

/// The limits with other rows.
fn limits_with(
    alloc: Global,
    limits: &Limits,
    users: &Authorizer,
    numbers: &[u32],
    names: &[String],
    rates: &[Option<UserRate>],
) -> Result<Limits, RenumberFault>
    requires few { length numbers.now ≤ 2 ^ 32 }
    requires each { length rates.now ≡ length names.now }
    ensures limits { (before : Accounts)
        → rates.now ≡ map (λ name. rates_named before limits.now (string_bytes name)) names.now
        → IfOk result (λ new. new ≡ shared_by limits.now.share_by
        (stated limits.now.server limits.now.down limits.now.up
        (group_rows limits.now 0 numbers.now)
        (user_rows before users.now limits.now numbers.now (map string_bytes names.now)))) }
    ensures refused { (before : Accounts)
        → rates.now ≡ map (λ name. rates_named before limits.now (string_bytes name)) names.now
        → IfErr result (IsLimitsFault (limits_fault limits.now.server limits.now.down limits.now.up
        (group_rows limits.now 0 numbers.now)
        (user_rows before users.now limits.now numbers.now (map string_bytes names.now)))) }
{
    let groups = group_rows(alloc, limits, numbers)?;
    let users = user_rows(alloc, users, numbers, names, rates)?;
    let server = limits.rate(Name::Server);
    let down = limits.rate(Name::Direction(Way::Down));
    let up = limits.rate(Name::Direction(Way::Up));
    match Limits::of(server, down, up, groups, users) {
        Ok(all) => Ok(all.shared_by(limits.share_by())),
        Err(fault) => Err(RenumberFault::Limits(fault)),
    }
}

/// A configuration whose users and groups have the numbers that they have in a running server: users by
/// `Authorizer::keep_numbers`, and groups by their places among the names of the server's groups, new ones after them.
/// By names, nothing else has changed. `groups` of the result has all these names, those of groups that are gone too.
pub fn renumbered(
    alloc: Global,
    config: Config,
    old_users: &Authorizer,
    old_groups: &[String],
) -> Result<Config, RenumberFault>
    ensures renumbered { IfOk result
        (IsRenumbered config old_users.now (map string_bytes old_groups.now)) }
    ensures refused { IfErr result
        (IsRefused config old_users.now (map string_bytes old_groups.now)) }
{
    let Config {
        settings,
        numbers,
        users,
        store,
        limits,
        groups: names_in_file,
    } = config;
    let groups = merged_names(alloc, old_groups, &names_in_file)?;
    if groups.len() > MOST_GROUPS || names_in_file.len() > MOST_GROUPS {
        return Err(RenumberFault::NoNumber);
    }
    let places = numbers_of(alloc, &groups, &names_in_file)?;
    let names = users.names(alloc)?;
    let rates = named_rates(alloc, &users, &limits, &names)?;
    let users = renumbered_users(users, old_users, &places)?;
    match limits_with(alloc, &limits, &users, &places, &names, &rates) {
        Ok(limits) => Ok(Config {
            settings,
            numbers,
            users,
            store,
            limits,
            groups,
        }),
        Err(fault) => Err(fault),
    }
}
