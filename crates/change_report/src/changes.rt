//! All differences of two configurations.

ghost use Rattle.std.specs.Prelude.{◌≡◌, IfOk, is_some, length};
ghost use Rattle.change_report.specs.Lines.{is_unchanged};
ghost use Rattle.change_report.specs.Reports.{AreChanges};

use crate::limits::{LimitChange, push_limits};
use crate::names::{NameChange, push_names};
use crate::reason::{Reason, reason_of};
use crate::settings::{SettingChange, push_settings};
use config_file::Tables;
use std::alloc::{AllocError, Global};

/// The differences of two configurations.
#[derive(Drop)]
pub(crate) struct Changes<'a> {
    /// The reason for which a server would refuse the new one, whoever is connected.
    pub(crate) reason: Option<Reason<'a>>,
    pub(crate) settings: Vec<SettingChange<'a>>,
    pub(crate) names: Vec<NameChange<'a>>,
    pub(crate) limits: Vec<LimitChange<'a>>,
}

impl Changes<'_> {
    /// Returns whether a server would refuse the new configuration, whoever is connected.
    pub(crate) fn is_refused(&self) -> bool
        ensures refused { result ≡ is_some self.now.reason }
    {
        self.reason.is_some()
    }

    /// Returns whether nothing differs, except for what a server refuses.
    pub(crate) fn is_unchanged(&self) -> bool
        ensures unchanged { result ≡ is_unchanged self.now }
    {
        self.settings.is_empty() && self.names.is_empty() && self.limits.is_empty()
    }
}

/// The differences of the tables of two configurations.
pub(crate) fn changes_of<'a>(
    alloc: Global,
    old: &Tables<'a>,
    new: &Tables<'a>,
) -> Result<Changes<'a>, AllocError>
    requires old_paired { length old.now.overrides.items ≡ length old.now.users.items }
    requires new_paired { length new.now.overrides.items ≡ length new.now.users.items }
    ensures changes { IfOk result (AreChanges old.now new.now) }
{
    let mut settings = Vec::new(alloc);
    push_settings(&mut settings, &old.server, &new.server)?;
    let mut names = Vec::new(alloc);
    push_names(&mut names, old, new)?;
    let mut limits = Vec::new(alloc);
    push_limits(&mut limits, old, new)?;
    Ok(Changes {
        reason: reason_of(&old.server, &new.server),
        settings,
        names,
        limits,
    })
}
