//! Groups and users that are added, that are taken out, and users whose terms change.

ghost use Rattle.std.specs.Prelude.{◌≡◌, ◌++◌, OnOk, length};
ghost use Rattle.std.specs.List.{flat_map};
ghost use Rattle.change_report.specs.Changes.{added_group, added_user, gone_group, gone_user, key_change, key_text, name_changes, same_name, same_password, stated_terms, term_changes, access_terms, message_terms, when_text};

use crate::rules::same_rules;
use crate::users::{group_named, rules_named, user_named};
use config_file::{GroupTable, Tables, UserTable};
use std::alloc::AllocError;

/// A key of a user that is no rate.
#[derive(Clone, Copy, Debug, PartialEq, Eq)]
pub(crate) enum TermKey {
    Password,
    Home,
    Perms,
    Override,
    Group,
    MsgLogin,
    MsgQuit,
}

impl TermKey {
    /// The key.
    pub(crate) fn text(self) -> &'static str
        ensures text { result.now ≡ key_text self }
    {
        match self {
            TermKey::Password => "password",
            TermKey::Home => "home",
            TermKey::Perms => "perms",
            TermKey::Override => "override",
            TermKey::Group => "group",
            TermKey::MsgLogin => "msg_login",
            TermKey::MsgQuit => "msg_quit",
        }
    }

    /// The moment from which the new value is in force.
    pub(crate) fn when(self) -> &'static str
        ensures when { result.now ≡ when_text self }
    {
        match self {
            TermKey::Group => "at once",
            _ => "for logins from then on",
        }
    }
}

/// A group or a user, by name, with what becomes of it.
#[derive(Clone, Copy, Debug, PartialEq, Eq)]
pub(crate) enum NameChange<'a> {
    GroupAdded { name: &'a str },
    GroupTakenOut { name: &'a str },
    UserAdded { name: &'a str },
    UserTakenOut { name: &'a str },
    UserChanged { name: &'a str, key: TermKey },
}

/// Adds the addition of a group, unless the old file has one of its name.
fn push_added_group<'a>(
    found: &mut Vec<NameChange<'a>>,
    old: &[GroupTable<'_>],
    group: &GroupTable<'a>,
) -> Result<(), AllocError>
    ensures change { OnOk result
        (found.new.items ≡ found.old.items ++ added_group old.now group.now) }
{
    match group_named(old, group.name) {
        Some(_) => Ok(()),
        None => {
            found.push(NameChange::GroupAdded { name: group.name })?;
            Ok(())
        }
    }
}

fn push_added_groups<'a>(
    found: &mut Vec<NameChange<'a>>,
    old: &[GroupTable<'_>],
    groups: &[GroupTable<'a>],
) -> Result<(), AllocError>
    ensures changes { OnOk result
        (found.new.items ≡ found.old.items ++ flat_map (added_group old.now) groups.now) }
{
    for group in groups {
        push_added_group(found, old, group)?;
    }
    Ok(())
}

/// Adds the removal of a group, unless the new file has one of its name.
fn push_gone_group<'a>(
    found: &mut Vec<NameChange<'a>>,
    new: &[GroupTable<'_>],
    group: &GroupTable<'a>,
) -> Result<(), AllocError>
    ensures change { OnOk result
        (found.new.items ≡ found.old.items ++ gone_group new.now group.now) }
{
    match group_named(new, group.name) {
        Some(_) => Ok(()),
        None => {
            found.push(NameChange::GroupTakenOut { name: group.name })?;
            Ok(())
        }
    }
}

fn push_gone_groups<'a>(
    found: &mut Vec<NameChange<'a>>,
    new: &[GroupTable<'_>],
    groups: &[GroupTable<'a>],
) -> Result<(), AllocError>
    ensures changes { OnOk result
        (found.new.items ≡ found.old.items ++ flat_map (gone_group new.now) groups.now) }
{
    for group in groups {
        push_gone_group(found, new, group)?;
    }
    Ok(())
}

/// Adds the addition of a user, unless the old file has one of that name.
fn push_added_user<'a>(
    found: &mut Vec<NameChange<'a>>,
    old: &[UserTable<'_>],
    user: &UserTable<'a>,
) -> Result<(), AllocError>
    ensures change { OnOk result
        (found.new.items ≡ found.old.items ++ added_user old.now user.now) }
{
    match user_named(old, user.name) {
        Some(_) => Ok(()),
        None => {
            found.push(NameChange::UserAdded { name: user.name })?;
            Ok(())
        }
    }
}

fn push_added_users<'a>(
    found: &mut Vec<NameChange<'a>>,
    old: &[UserTable<'_>],
    users: &[UserTable<'a>],
) -> Result<(), AllocError>
    ensures changes { OnOk result
        (found.new.items ≡ found.old.items ++ flat_map (added_user old.now) users.now) }
{
    for user in users {
        push_added_user(found, old, user)?;
    }
    Ok(())
}

/// Adds the removal of a user, unless the new file has one of that name.
fn push_gone_user<'a>(
    found: &mut Vec<NameChange<'a>>,
    new: &[UserTable<'_>],
    user: &UserTable<'a>,
) -> Result<(), AllocError>
    ensures change { OnOk result
        (found.new.items ≡ found.old.items ++ gone_user new.now user.now) }
{
    match user_named(new, user.name) {
        Some(_) => Ok(()),
        None => {
            found.push(NameChange::UserTakenOut { name: user.name })?;
            Ok(())
        }
    }
}

fn push_gone_users<'a>(
    found: &mut Vec<NameChange<'a>>,
    new: &[UserTable<'_>],
    users: &[UserTable<'a>],
) -> Result<(), AllocError>
    ensures changes { OnOk result
        (found.new.items ≡ found.old.items ++ flat_map (gone_user new.now) users.now) }
{
    for user in users {
        push_gone_user(found, new, user)?;
    }
    Ok(())
}

/// Adds a key of a user, unless both of its values are the same.
fn push_key<'a>(
    found: &mut Vec<NameChange<'a>>,
    name: &'a str,
    key: TermKey,
    is_same: bool,
) -> Result<(), AllocError>
    ensures change { OnOk result
        (found.new.items ≡ found.old.items ++ key_change name.entry key is_same) }
{
    if !is_same {
        found.push(NameChange::UserChanged { name, key })?;
    }
    Ok(())
}

/// Returns whether the passwords are the same; that of `anonymous` is of no account.
fn same_password(old: &UserTable<'_>, new: &UserTable<'_>) -> bool
    ensures same { result ≡ same_password old.now new.now }
{
    new.name == "anonymous" || old.password == new.password
}

/// Returns whether two names are the same, or both are none.
fn same_name(old: Option<&str>, new: Option<&str>) -> bool
    ensures same { result ≡ same_name old.entry new.entry }
{
    match (old, new) {
        (None, None) => true,
        (Some(old), Some(new)) => old == new,
        _ => false,
    }
}

/// Adds the keys of a user that differ, of the password, the home and the letters, and the overrides.
fn push_access<'a>(
    found: &mut Vec<NameChange<'a>>,
    old: &UserTable<'_>,
    new: &UserTable<'a>,
    same_rules: bool,
) -> Result<(), AllocError>
    ensures changes { OnOk result
        (found.new.items ≡ found.old.items ++ access_terms old.now new.now same_rules) }
{
    let name = new.name;
    push_key(found, name, TermKey::Password, same_password(old, new))?;
    push_key(found, name, TermKey::Home, old.home == new.home)?;
    push_key(found, name, TermKey::Perms, old.perms == new.perms)?;
    push_key(found, name, TermKey::Override, same_rules)?;
    Ok(())
}

/// Adds the keys of a user that differ, of the group and the messages.
fn push_messages<'a>(
    found: &mut Vec<NameChange<'a>>,
    old: &UserTable<'_>,
    new: &UserTable<'a>,
) -> Result<(), AllocError>
    ensures changes { OnOk result
        (found.new.items ≡ found.old.items ++ message_terms old.now new.now) }
{
    let name = new.name;
    push_key(found, name, TermKey::Group, same_name(old.group, new.group))?;
    push_key(
        found,
        name,
        TermKey::MsgLogin,
        old.msg_login == new.msg_login,
    )?;
    push_key(found, name, TermKey::MsgQuit, old.msg_quit == new.msg_quit)?;
    Ok(())
}

fn push_terms<'a>(
    found: &mut Vec<NameChange<'a>>,
    old: &UserTable<'_>,
    new: &UserTable<'a>,
    same_rules: bool,
) -> Result<(), AllocError>
    ensures changes { OnOk result
        (found.new.items ≡ found.old.items ++ term_changes old.now new.now same_rules) }
{
    push_access(found, old, new, same_rules)?;
    push_messages(found, old, new)?;
    Ok(())
}

/// Adds the keys that differ of a user whom both files state.
fn push_stated<'a>(
    found: &mut Vec<NameChange<'a>>,
    old: &Tables<'_>,
    new: &Tables<'_>,
    user: &UserTable<'a>,
) -> Result<(), AllocError>
    requires old_paired { length old.now.overrides.items ≡ length old.now.users.items }
    requires new_paired { length new.now.overrides.items ≡ length new.now.users.items }
    ensures changes { OnOk result
        (found.new.items ≡ found.old.items ++ stated_terms old.now new.now user.now) }
{
    let name = user.name;
    match user_named(old.users.as_slice(), name) {
        Some(before) => {
            let earlier = rules_named(old.users.as_slice(), old.overrides.as_slice(), name);
            let later = rules_named(new.users.as_slice(), new.overrides.as_slice(), name);
            push_terms(found, &before, user, same_rules(earlier, later))
        }
        None => Ok(()),
    }
}

/// Adds those of users.
fn push_changed<'a>(
    found: &mut Vec<NameChange<'a>>,
    old: &Tables<'_>,
    new: &Tables<'_>,
    users: &[UserTable<'a>],
) -> Result<(), AllocError>
    requires old_paired { length old.now.overrides.items ≡ length old.now.users.items }
    requires new_paired { length new.now.overrides.items ≡ length new.now.users.items }
    ensures changes { OnOk result (found.new.items
        ≡ found.old.items ++ flat_map (stated_terms old.now new.now) users.now) }
{
    for user in users {
        push_stated(found, old, new, user)?;
    }
    Ok(())
}

/// Adds the groups that are added and taken out, the users that are added and taken out, and the keys of users that
/// change.
pub(crate) fn push_names<'a>(
    found: &mut Vec<NameChange<'a>>,
    old: &Tables<'a>,
    new: &Tables<'a>,
) -> Result<(), AllocError>
    requires old_paired { length old.now.overrides.items ≡ length old.now.users.items }
    requires new_paired { length new.now.overrides.items ≡ length new.now.users.items }
    ensures changes { OnOk result
        (found.new.items ≡ found.old.items ++ name_changes old.now new.now) }
{
    push_added_groups(found, old.groups.as_slice(), new.groups.as_slice())?;
    push_gone_groups(found, new.groups.as_slice(), old.groups.as_slice())?;
    push_added_users(found, old.users.as_slice(), new.users.as_slice())?;
    push_gone_users(found, new.users.as_slice(), old.users.as_slice())?;
    push_changed(found, old, new, new.users.as_slice())?;
    Ok(())
}
