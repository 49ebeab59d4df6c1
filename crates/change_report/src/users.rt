//! Groups and users by their names.

ghost use Rattle.std.specs.Prelude.{◌≡◌, ◌≤◌, length};
ghost use Rattle.change_report.specs.Changes.{group_named, rules_named, user_named};

use config_file::{GroupTable, OverrideTable, UserTable};

/// The group of a name, if there is one.
pub(crate) fn group_named<'a>(groups: &[GroupTable<'a>], name: &str) -> Option<GroupTable<'a>>
    ensures group { result ≡ group_named groups.now name.now }
{
    for group in groups {
        if group.name == name {
            return Some(*group);
        }
    }
    None
}

/// The user of a name, if there is one.
pub(crate) fn user_named<'a>(users: &[UserTable<'a>], name: &str) -> Option<UserTable<'a>>
    ensures user { result ≡ user_named users.now name.now }
{
    for user in users {
        if user.name == name {
            return Some(*user);
        }
    }
    None
}

/// The overrides of the user of a name; none if there is no such user.
pub(crate) fn rules_named<'t, 'a>(
    users: &[UserTable<'a>],
    overrides: &'t [Vec<OverrideTable<'a>>],
    name: &str,
) -> &'t [OverrideTable<'a>]
    requires paired { length overrides.now ≡ length users.now }
    ensures rules { result.now ≡ rules_named users.now overrides.now name.now }
{
    for (index, user) in users.iter().enumerate() {
        if user.name == name {
            return overrides[index].as_slice();
        }
    }
    &[]
}
