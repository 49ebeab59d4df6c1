//! The comparison of overrides.

ghost use Rattle.std.specs.Prelude.{◌≡◌};
ghost use Rattle.change_report.specs.Changes.{same_rule, same_rules};

use config_file::OverrideTable;

fn same_rule(old: &OverrideTable<'_>, new: &OverrideTable<'_>) -> bool
    ensures same { result ≡ same_rule old.now new.now }
{
    old.path == new.path && old.perms == new.perms && old.recursive == new.recursive
}

/// Returns whether two lists of overrides are the same, one after another.
pub(crate) fn same_rules(old: &[OverrideTable<'_>], new: &[OverrideTable<'_>]) -> bool
    ensures same { result ≡ same_rules old.now new.now }
{
    if old.len() != new.len() {
        return false;
    }
    for (index, rule) in old.iter().enumerate() {
        if !same_rule(rule, &new[index]) {
            return false;
        }
    }
    true
}
