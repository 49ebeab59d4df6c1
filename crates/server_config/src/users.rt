//! An authorizer with the users of a file.

ghost use Rattle.std.specs.Prelude.{◌≡◌, ◌≢◌, ◌<◌, ◌^◌, Err, Some, None, IfErr, IfOk, OnOk, List, length};
ghost use Rattle.memory_terms.specs.Lack.{Unless};
ghost use Rattle.authorizer.specs.Numbers.{no_users};
ghost use Rattle.server_config.specs.RateRows.{user_rows};
ghost use Rattle.config_file.specs.declared.stated.GroupTable.{GroupTable};
ghost use Rattle.server_config.specs.Users.{AddsRule, AddsRules, AddsAccount, AddsUser, AddsUsers};
ghost use Rattle.authorizer.specs.declared.fault.AuthorizerFault.TheVariants as AuthorizerFault;
ghost use Rattle.server_config.specs.UserProblems.{IsReportedAs};
ghost use Rattle.server_config.specs.Users.{IsRefusedRule, IsRefusedAccount, IsRefusedUser, IsFirstRefusal};
ghost use Rattle.config_file.specs.Lists.{FaultIs, row_at};
ghost use Rattle.authorizer.specs.Changes.{overridden};
ghost use Rattle.ftp_terms.specs.Letters.{letters_of};

use crate::user_problem::{UserProblem, stray_letter};
use authorizer::{Authorizer, AuthorizerFault};
use config_file::{Fault, Header, OverrideTable, TableName, UserTable};
use line_rates::UserRate;
use std::alloc::Global;

/// The refusal of a row that states these letters, at an index of its list, from 0.
fn refused<'a>(
    table: TableName,
    index: usize,
    name: &'a str,
    letters: &str,
    fault: AuthorizerFault,
) -> Fault<'a, UserProblem>
    requires within { index < 2 ^ 63 }
    requires stray { fault ≡ AuthorizerFault.BadLetter → letters_of letters.now ≡ None }
    ensures reported { FaultIs (λ place reported. (place ≡ row_at table index (Some name.now))
        × IsReportedAs letters.now fault reported × (fault ≢ AuthorizerFault.Memory)) result }
{
    let problem = match fault {
        AuthorizerFault::Memory => return Fault::Memory,
        AuthorizerFault::BadLetter => UserProblem::BadLetter(stray_letter(letters)),
        fault => UserProblem::Refused(fault),
    };
    let header = Header::row(table, index, Some(name));
    Fault::At { header, problem }
}

/// Adds a user with their messages and their group, and no override yet.
fn add_account(
    users: &mut Authorizer,
    user: &UserTable,
    group: Option<u32>,
) -> Result<(), AuthorizerFault>
    ensures account { OnOk result (AddsAccount group user.now users.old users.new) }
    ensures refused { IfErr result (Unless AuthorizerFault.Memory
        (IsRefusedAccount group user.now users.old)) }
{
    users.add_user(user.name, user.password, user.home, user.perms)?;
    users.set_messages(user.name, user.msg_login, user.msg_quit)?;
    users.set_group(user.name, group)
}

fn add_rule(users: &mut Authorizer, name: &str, rule: &OverrideTable) -> Result<(), AuthorizerFault>
    ensures rule { OnOk result (AddsRule name.now rule.now users.old users.new) }
    ensures refused { IfErr result (Unless AuthorizerFault.Memory (λ fault.
        overridden users.old name.now rule.now.path.now rule.now.perms.now rule.now.recursive
        ≡ Err fault)) }
{
    users.override_perm(name, rule.path, rule.perms, rule.recursive)
}

/// Adds the overrides of the user of a row, which counts from 1, in their order.
fn add_rules<'a>(
    users: &mut Authorizer,
    user: usize,
    name: &'a str,
    rules: &[OverrideTable<'a>],
) -> Result<(), Fault<'a, UserProblem>>
    ensures rules { OnOk result (AddsRules name.now rules.now users.old users.new) }
    ensures refused { IfErr result (FaultIs (IsRefusedRule user name.now rules.now users.old)) }
{
    for (index, rule) in rules.iter().enumerate() {
        match add_rule(users, name, rule) {
            Ok(()) => {}
            Err(fault) => {
                let table = TableName::Override(user);
                return Err(refused(table, index, name, rule.perms, fault));
            }
        }
    }
    Ok(())
}

/// Adds the user at an index of the file, with their messages, group and overrides.
fn add_user<'a>(
    users: &mut Authorizer,
    index: usize,
    user: &UserTable<'a>,
    rules: &[OverrideTable<'a>],
    group: Option<u32>,
) -> Result<(), Fault<'a, UserProblem>>
    requires within { index < 2 ^ 63 }
    ensures user { OnOk result (AddsUser group user.now rules.now users.old users.new) }
    ensures refused { IfErr result
        (FaultIs (IsRefusedUser index group user.now rules.now users.old)) }
{
    match add_account(users, user, group) {
        Ok(()) => add_rules(users, index + 1, user.name, rules),
        Err(fault) => Err(refused(TableName::User, index, user.name, user.perms, fault)),
    }
}

/// An authorizer with these users, who are added in the order of the file, each with their overrides; their groups are
/// those of their rows of rates. `Err` is the first refusal, with the row of the user or of the override, or lack of
/// memory.
pub(crate) fn make_users<'a>(
    alloc: Global,
    users: &[UserTable<'a>],
    overrides: &[Vec<OverrideTable<'a>>],
    rows: &[UserRate],
) -> Result<Authorizer, Fault<'a, UserProblem>>
    requires overrides { length overrides.now ≡ length users.now }
    requires rows { length rows.now ≡ length users.now }
    ensures users { (groups : List GroupTable) → rows.now ≡ user_rows groups users.now
        → IfOk result (AddsUsers groups users.now overrides.now no_users) }
    ensures refused { (groups : List GroupTable) → rows.now ≡ user_rows groups users.now
        → IfErr result (FaultIs (IsFirstRefusal groups users.now overrides.now)) }
{
    let mut authorizer = Authorizer::new(alloc)?;
    for (index, user) in users.iter().enumerate() {
        let rules = overrides[index].as_slice();
        add_user(&mut authorizer, index, user, rules, rows[index].group)?;
    }
    Ok(authorizer)
}
