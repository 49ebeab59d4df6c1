//! Keys of `[server]` that are neither rates nor fixed, and have another value.

ghost use Rattle.std.specs.Prelude.{◌≡◌, ◌++◌, OnOk};
ghost use Rattle.change_report.specs.Changes.{access_changes, address_change, count_changes, flag_change, number_change, same_address, setting_changes, setting_text, start_text, text_change};

use config_file::ServerTable;
use std::alloc::AllocError;
use std::net::Ipv4Addr;

/// A key of `[server]` that a server takes from a new configuration, or at its start alone.
#[derive(Clone, Copy, Debug, PartialEq, Eq)]
pub(crate) enum SettingKey {
    Banner,
    MaxCons,
    MaxConsPerAddress,
    MaxLoginAttempts,
    PermitForeignAddresses,
    PermitPrivilegedPorts,
    MasqueradeAddress,
    Sessions,
}

impl SettingKey {
    /// The key.
    pub(crate) fn text(self) -> &'static str
        ensures text { result.now ≡ setting_text self }
    {
        match self {
            SettingKey::Banner => "banner",
            SettingKey::MaxCons => "max_cons",
            SettingKey::MaxConsPerAddress => "max_cons_per_address",
            SettingKey::MaxLoginAttempts => "max_login_attempts",
            SettingKey::PermitForeignAddresses => "permit_foreign_addresses",
            SettingKey::PermitPrivilegedPorts => "permit_privileged_ports",
            SettingKey::MasqueradeAddress => "masquerade_address",
            SettingKey::Sessions => "sessions",
        }
    }

    /// The words after a value that a server takes at its start alone.
    pub(crate) fn start(self) -> &'static str
        ensures start { result.now ≡ start_text self }
    {
        match self {
            SettingKey::Sessions => ", at the next start alone",
            _ => "",
        }
    }
}

/// A key with its value before and its value after, which differ.
#[derive(Clone, Copy, Debug, PartialEq, Eq)]
pub(crate) enum SettingChange<'a> {
    Text {
        key: SettingKey,
        old: &'a str,
        new: &'a str,
    },
    Number {
        key: SettingKey,
        old: u64,
        new: u64,
    },
    Flag {
        key: SettingKey,
        old: bool,
        new: bool,
    },
    Address {
        key: SettingKey,
        old: Option<Ipv4Addr>,
        new: Option<Ipv4Addr>,
    },
}

fn push_text<'a>(
    found: &mut Vec<SettingChange<'a>>,
    key: SettingKey,
    old: &'a str,
    new: &'a str,
) -> Result<(), AllocError>
    ensures change { OnOk result
        (found.new.items ≡ found.old.items ++ text_change key old.entry new.entry) }
{
    if old != new {
        found.push(SettingChange::Text { key, old, new })?;
    }
    Ok(())
}

fn push_number(
    found: &mut Vec<SettingChange<'_>>,
    key: SettingKey,
    old: u64,
    new: u64,
) -> Result<(), AllocError>
    ensures change { OnOk result (found.new.items ≡ found.old.items ++ number_change key old new) }
{
    if old != new {
        found.push(SettingChange::Number { key, old, new })?;
    }
    Ok(())
}

fn push_flag(
    found: &mut Vec<SettingChange<'_>>,
    key: SettingKey,
    old: bool,
    new: bool,
) -> Result<(), AllocError>
    ensures change { OnOk result (found.new.items ≡ found.old.items ++ flag_change key old new) }
{
    if old != new {
        found.push(SettingChange::Flag { key, old, new })?;
    }
    Ok(())
}

/// Returns whether two addresses are the same, or both are none.
fn same_address(old: Option<Ipv4Addr>, new: Option<Ipv4Addr>) -> bool
    ensures same { result ≡ same_address old new }
{
    match (old, new) {
        (None, None) => true,
        (Some(old), Some(new)) => old.to_bits() == new.to_bits(),
        _ => false,
    }
}

fn push_address(
    found: &mut Vec<SettingChange<'_>>,
    key: SettingKey,
    old: Option<Ipv4Addr>,
    new: Option<Ipv4Addr>,
) -> Result<(), AllocError>
    ensures change { OnOk result (found.new.items ≡ found.old.items ++ address_change key old new) }
{
    if !same_address(old, new) {
        found.push(SettingChange::Address { key, old, new })?;
    }
    Ok(())
}

/// Adds the texts, the addresses and the flags that differ.
fn push_access<'a>(
    found: &mut Vec<SettingChange<'a>>,
    old: &ServerTable<'a>,
    new: &ServerTable<'a>,
) -> Result<(), AllocError>
    ensures changes { OnOk result
        (found.new.items ≡ found.old.items ++ access_changes old.now new.now) }
{
    push_text(found, SettingKey::Banner, old.banner, new.banner)?;
    push_flag(
        found,
        SettingKey::PermitForeignAddresses,
        old.permit_foreign_addresses,
        new.permit_foreign_addresses,
    )?;
    push_flag(
        found,
        SettingKey::PermitPrivilegedPorts,
        old.permit_privileged_ports,
        new.permit_privileged_ports,
    )?;
    push_address(
        found,
        SettingKey::MasqueradeAddress,
        old.masquerade_address,
        new.masquerade_address,
    )?;
    Ok(())
}

/// Adds the maximum numbers that differ.
fn push_counts(
    found: &mut Vec<SettingChange<'_>>,
    old: &ServerTable<'_>,
    new: &ServerTable<'_>,
) -> Result<(), AllocError>
    ensures changes { OnOk result
        (found.new.items ≡ found.old.items ++ count_changes old.now new.now) }
{
    push_number(
        found,
        SettingKey::MaxCons,
        u64::from(old.max_cons),
        u64::from(new.max_cons),
    )?;
    push_number(
        found,
        SettingKey::MaxConsPerAddress,
        u64::from(old.max_cons_per_address),
        u64::from(new.max_cons_per_address),
    )?;
    push_number(
        found,
        SettingKey::MaxLoginAttempts,
        u64::from(old.max_login_attempts),
        u64::from(new.max_login_attempts),
    )?;
    Ok(())
}

/// Adds the settings that differ.
pub(crate) fn push_settings<'a>(
    found: &mut Vec<SettingChange<'a>>,
    old: &ServerTable<'a>,
    new: &ServerTable<'a>,
) -> Result<(), AllocError>
    ensures changes { OnOk result
        (found.new.items ≡ found.old.items ++ setting_changes old.now new.now) }
{
    push_access(found, old, new)?;
    push_counts(found, old, new)?;
    push_number(found, SettingKey::Sessions, old.sessions, new.sessions)?;
    Ok(())
}
