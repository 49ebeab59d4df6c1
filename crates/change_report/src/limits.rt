//! Rates and guarantees that differ.

ghost use Rattle.std.specs.Prelude.{◌≡◌, ◌++◌, OnOk, option_map};
ghost use Rattle.std.specs.List.{flat_map};
ghost use Rattle.change_report.specs.Changes.{group_limits, group_named, limit_changes, own_limits, rate_change, rate_text, server_limits, session_limits, stated_group_limits, stated_user_limits, user_limits, user_named};

use crate::users::{group_named, user_named};
use config_file::{GroupTable, ServerTable, Tables, UserTable};
use std::alloc::AllocError;

/// The table that states a rate.
#[derive(Clone, Copy, Debug, PartialEq, Eq)]
pub(crate) enum Owner<'a> {
    Server,
    Group(&'a str),
    User(&'a str),
}

/// The key of a rate or of a guarantee.
#[derive(Clone, Copy, Debug, PartialEq, Eq)]
pub(crate) enum RateKey {
    Rate,
    DownRate,
    UpRate,
    SessionDownRate,
    SessionUpRate,
    SessionDownFloor,
    SessionUpFloor,
}

impl RateKey {
    /// The key.
    pub(crate) fn text(self) -> &'static str
        ensures text { result.now ≡ rate_text self }
    {
        match self {
            RateKey::Rate => "rate",
            RateKey::DownRate => "down_rate",
            RateKey::UpRate => "up_rate",
            RateKey::SessionDownRate => "session_down_rate",
            RateKey::SessionUpRate => "session_up_rate",
            RateKey::SessionDownFloor => "session_down_floor",
            RateKey::SessionUpFloor => "session_up_floor",
        }
    }
}

/// A rate or a guarantee, in octets per second, before and after; the two differ.
#[derive(Clone, Copy, Debug, PartialEq, Eq)]
pub(crate) struct LimitChange<'a> {
    pub(crate) owner: Owner<'a>,
    pub(crate) key: RateKey,
    pub(crate) old: u64,
    pub(crate) new: u64,
}

fn push_rate<'a>(
    found: &mut Vec<LimitChange<'a>>,
    owner: Owner<'a>,
    key: RateKey,
    old: u64,
    new: u64,
) -> Result<(), AllocError>
    ensures change { OnOk result
        (found.new.items ≡ found.old.items ++ rate_change owner.entry key old new) }
{
    if old != new {
        found.push(LimitChange {
            owner,
            key,
            old,
            new,
        })?;
    }
    Ok(())
}

fn push_server<'a>(
    found: &mut Vec<LimitChange<'a>>,
    old: &ServerTable<'_>,
    new: &ServerTable<'_>,
) -> Result<(), AllocError>
    ensures changes { OnOk result
        (found.new.items ≡ found.old.items ++ server_limits old.now new.now) }
{
    push_rate(found, Owner::Server, RateKey::Rate, old.rate, new.rate)?;
    push_rate(
        found,
        Owner::Server,
        RateKey::DownRate,
        old.down_rate,
        new.down_rate,
    )?;
    push_rate(
        found,
        Owner::Server,
        RateKey::UpRate,
        old.up_rate,
        new.up_rate,
    )?;
    Ok(())
}

fn push_group<'a>(
    found: &mut Vec<LimitChange<'a>>,
    old: &GroupTable<'_>,
    new: &GroupTable<'a>,
) -> Result<(), AllocError>
    ensures changes { OnOk result
        (found.new.items ≡ found.old.items ++ group_limits old.now new.now) }
{
    let owner = Owner::Group(new.name);
    push_rate(
        found,
        owner,
        RateKey::DownRate,
        old.down_rate,
        new.down_rate,
    )?;
    push_rate(found, owner, RateKey::UpRate, old.up_rate, new.up_rate)?;
    Ok(())
}

/// Adds the rates of a user that differ.
fn push_own<'a>(
    found: &mut Vec<LimitChange<'a>>,
    old: &UserTable<'_>,
    new: &UserTable<'a>,
) -> Result<(), AllocError>
    ensures changes { OnOk result
        (found.new.items ≡ found.old.items ++ own_limits old.now new.now) }
{
    let owner = Owner::User(new.name);
    push_rate(
        found,
        owner,
        RateKey::DownRate,
        old.down_rate,
        new.down_rate,
    )?;
    push_rate(found, owner, RateKey::UpRate, old.up_rate, new.up_rate)?;
    Ok(())
}

/// Adds the rates and guarantees of a user's sessions that differ.
fn push_session<'a>(
    found: &mut Vec<LimitChange<'a>>,
    old: &UserTable<'_>,
    new: &UserTable<'a>,
) -> Result<(), AllocError>
    ensures changes { OnOk result
        (found.new.items ≡ found.old.items ++ session_limits old.now new.now) }
{
    let owner = Owner::User(new.name);
    push_rate(
        found,
        owner,
        RateKey::SessionDownRate,
        old.session_down_rate,
        new.session_down_rate,
    )?;
    push_rate(
        found,
        owner,
        RateKey::SessionUpRate,
        old.session_up_rate,
        new.session_up_rate,
    )?;
    push_rate(
        found,
        owner,
        RateKey::SessionDownFloor,
        old.session_down_floor,
        new.session_down_floor,
    )?;
    push_rate(
        found,
        owner,
        RateKey::SessionUpFloor,
        old.session_up_floor,
        new.session_up_floor,
    )?;
    Ok(())
}

fn push_user<'a>(
    found: &mut Vec<LimitChange<'a>>,
    old: &UserTable<'_>,
    new: &UserTable<'a>,
) -> Result<(), AllocError>
    ensures changes { OnOk result
        (found.new.items ≡ found.old.items ++ user_limits old.now new.now) }
{
    push_own(found, old, new)?;
    push_session(found, old, new)?;
    Ok(())
}

/// Adds those of a group that both files state.
fn push_stated_group<'a>(
    found: &mut Vec<LimitChange<'a>>,
    old: &[GroupTable<'_>],
    new: &GroupTable<'a>,
) -> Result<(), AllocError>
    ensures changes { OnOk result
        (found.new.items ≡ found.old.items ++ stated_group_limits old.now new.now) }
{
    match group_named(old, new.name) {
        Some(before) => push_group(found, &before, new),
        None => Ok(()),
    }
}

/// Adds those of a user whom both files state.
fn push_stated_user<'a>(
    found: &mut Vec<LimitChange<'a>>,
    old: &[UserTable<'_>],
    new: &UserTable<'a>,
) -> Result<(), AllocError>
    ensures changes { OnOk result
        (found.new.items ≡ found.old.items ++ stated_user_limits old.now new.now) }
{
    match user_named(old, new.name) {
        Some(before) => push_user(found, &before, new),
        None => Ok(()),
    }
}

fn push_groups<'a>(
    found: &mut Vec<LimitChange<'a>>,
    old: &[GroupTable<'_>],
    new: &[GroupTable<'a>],
) -> Result<(), AllocError>
    ensures changes { OnOk result
        (found.new.items ≡ found.old.items ++ flat_map (stated_group_limits old.now) new.now) }
{
    for group in new {
        push_stated_group(found, old, group)?;
    }
    Ok(())
}

fn push_users<'a>(
    found: &mut Vec<LimitChange<'a>>,
    old: &[UserTable<'_>],
    new: &[UserTable<'a>],
) -> Result<(), AllocError>
    ensures changes { OnOk result
        (found.new.items ≡ found.old.items ++ flat_map (stated_user_limits old.now) new.now) }
{
    for user in new {
        push_stated_user(found, old, user)?;
    }
    Ok(())
}

/// Adds the rates and guarantees that differ: of the server, and of the groups and users that both files state.
pub(crate) fn push_limits<'a>(
    found: &mut Vec<LimitChange<'a>>,
    old: &Tables<'a>,
    new: &Tables<'a>,
) -> Result<(), AllocError>
    ensures changes { OnOk result
        (found.new.items ≡ found.old.items ++ limit_changes old.now new.now) }
{
    push_server(found, &old.server, &new.server)?;
    push_groups(found, old.groups.as_slice(), new.groups.as_slice())?;
    push_users(found, old.users.as_slice(), new.users.as_slice())?;
    Ok(())
}
