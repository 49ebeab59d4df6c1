//! The warnings of a configuration.

ghost use Rattle.std.specs.Prelude.{◌≡◌, ◌++◌, IfOk, OnOk};
ghost use Rattle.server_config.specs.Settings.{reported_address};
ghost use Rattle.std.specs.List.{flat_map, list_any};
ghost use Rattle.config_report.specs.Together.{all_warnings, name_warnings};
ghost use Rattle.config_report.specs.Warnings.{access_warnings, file_warnings, floor_warnings, has_few_ports, has_word, home_warnings, is_among_own, is_open, is_public, is_unlisted, is_unreported, lacks_home, one_user_warnings, port_warnings, own_port_warnings, passive_port_warnings, root_warnings, server_warnings, shares_as_one, sight_warnings, user_warnings, warnings};

use crate::floors::{first_shortage, second_shortage};
use crate::letters::may_browse;
use crate::looks::Sight;
use crate::roots::{is_nearly_memory, is_relative};
use crate::seen::SeenUser;
use crate::together::{is_among_passive, warn_of_all, warn_of_name};
use crate::warning::Warning;
use config_file::{GroupTable, ServerTable, UserTable};
use line_rates::ShareBy;
use std::alloc::{AllocError, Global};
use std::net::Ipv4Addr;

/// First and last port that the machine takes for its own connections, by the default of Linux.
pub(crate) const OWN_FIRST: u16 = 32_768;

pub(crate) const OWN_LAST: u16 = 60_999;

/// Returns the address announced to clients for passive connections.
pub(crate) fn reported_address(server: &ServerTable) -> Ipv4Addr
    ensures reported { result ≡ reported_address server.now.masquerade_address server.now.address }
{
    match server.masquerade_address {
        Some(address) => address,
        None => server.address,
    }
}

/// Returns whether the address announced to clients is 0.0.0.0.
pub(crate) fn is_unreported(server: &ServerTable) -> bool
    ensures unreported { result ≡ is_unreported server.now }
{
    reported_address(server).to_bits() == 0
}

/// Returns whether a passive port is among those of the machine.
fn is_among_own(server: &ServerTable) -> bool
    ensures among { result ≡ is_among_own server.now }
{
    server.passive_first <= OWN_LAST && OWN_FIRST <= server.passive_last
}

/// Returns whether there are fewer passive ports than connections.
fn has_few_ports(server: &ServerTable) -> bool
    ensures few { result ≡ has_few_ports server.now }
{
    u32::from(server.passive_last) + 1
        < u32::from(server.passive_first) + u32::from(server.max_cons)
}

/// Returns whether a user other than `anonymous` has an empty password.
fn is_open(user: &UserTable) -> bool
    ensures open { result ≡ is_open user.now }
{
    user.password.is_empty() && user.name != "anonymous"
}

/// Returns whether everybody may read a file of these permission bits.
fn is_public(mode: Option<u32>) -> bool
    ensures public { result ≡ is_public mode }
{
    match mode {
        Some(mode) => mode & 4 != 0,
        None => false,
    }
}

/// Returns whether a user has a password that is not empty.
fn has_passwords(rows: &[SeenUser]) -> bool
    ensures passwords { result ≡ list_any has_word rows.now }
{
    for row in rows {
        if !row.user.password.is_empty() {
            return true;
        }
    }
    false
}

/// Returns whether the root is no folder whose entries can be listed, so that nothing is known of homes in it.
fn is_unlisted(root: Option<Sight>) -> bool
    ensures unlisted { result ≡ is_unlisted root }
{
    match root {
        None | Some(Sight::Listed) => false,
        Some(Sight::Absent | Sight::NoFolder | Sight::Closed) => true,
    }
}

/// Returns whether a home is no directory of the store in memory, or of a folder that can be listed.
fn lacks_home(root: Option<Sight>, row: &SeenUser) -> bool
    ensures lacks { result ≡ lacks_home root row.now }
{
    !row.has_home && !is_unlisted(root)
}

/// Returns whether the sessions of a user, which may be those of several people, are one of those that share the line.
fn shares_as_one(share_by: ShareBy, user: &UserTable) -> bool
    ensures one { result ≡ shares_as_one share_by user.now }
{
    match share_by {
        ShareBy::Sessions => false,
        ShareBy::Users => user.name == "anonymous",
    }
}

/// Adds the warnings of the root.
fn warn_of_root<'a>(found: &mut Vec<Warning<'a>>, root: &'a str) -> Result<(), AllocError>
    ensures warnings { OnOk result (found.new.items ≡ found.old.items ++ root_warnings root.entry) }
{
    if is_nearly_memory(root) {
        found.push(Warning::NearlyMemory { root })?;
    }
    if is_relative(root) {
        found.push(Warning::RelativeRoot { root })?;
    }
    Ok(())
}

/// Adds the warning of what is at the root.
fn warn_of_sight<'a>(
    found: &mut Vec<Warning<'a>>,
    root: &'a str,
    sight: Option<Sight>,
) -> Result<(), AllocError>
    ensures warnings { OnOk result
        (found.new.items ≡ found.old.items ++ sight_warnings root.entry sight) }
{
    match sight {
        Some(Sight::Absent) => {
            found.push(Warning::AbsentRoot { root })?;
            Ok(())
        }
        Some(Sight::NoFolder) => {
            found.push(Warning::NoFolderRoot { root })?;
            Ok(())
        }
        Some(Sight::Closed) => {
            found.push(Warning::ClosedRoot { root })?;
            Ok(())
        }
        Some(Sight::Listed) | None => Ok(()),
    }
}

/// Adds the warning of the configuration's file.
fn warn_of_file(
    found: &mut Vec<Warning>,
    mode: Option<u32>,
    rows: &[SeenUser],
) -> Result<(), AllocError>
    ensures warnings { OnOk result
        (found.new.items ≡ found.old.items ++ file_warnings mode rows.now) }
{
    if is_public(mode) && has_passwords(rows) {
        found.push(Warning::PublicPasswords)?;
    }
    Ok(())
}

/// Adds the warnings of the address, and of passive ports that are the machine's own.
fn warn_of_own_ports<'a>(
    found: &mut Vec<Warning<'a>>,
    server: &ServerTable,
) -> Result<(), AllocError>
    ensures warnings { OnOk result
        (found.new.items ≡ found.old.items ++ own_port_warnings server.now) }
{
    let (first, last) = (server.passive_first, server.passive_last);
    if is_unreported(server) {
        found.push(Warning::NoAddress)?;
    }
    if is_among_own(server) {
        found.push(Warning::OwnPorts { first, last })?;
    }
    Ok(())
}

/// Adds the warnings of passive ports that are one for control connections, or too few.
fn warn_of_passive_ports<'a>(
    found: &mut Vec<Warning<'a>>,
    server: &ServerTable,
) -> Result<(), AllocError>
    ensures warnings { OnOk result
        (found.new.items ≡ found.old.items ++ passive_port_warnings server.now) }
{
    let (first, last) = (server.passive_first, server.passive_last);
    if is_among_passive(server) {
        found.push(Warning::PortAmongPassive {
            port: server.port,
            first,
            last,
        })?;
    }
    if has_few_ports(server) {
        found.push(Warning::FewPorts {
            first,
            last,
            connections: server.max_cons,
        })?;
    }
    Ok(())
}

/// Adds the warnings of the address and the ports.
fn warn_of_ports<'a>(found: &mut Vec<Warning<'a>>, server: &ServerTable) -> Result<(), AllocError>
    ensures warnings { OnOk result
        (found.new.items ≡ found.old.items ++ port_warnings server.now) }
{
    warn_of_own_ports(found, server)?;
    warn_of_passive_ports(found, server)?;
    Ok(())
}

/// Adds the warnings of a user's password and letters.
fn warn_of_access<'a>(found: &mut Vec<Warning<'a>>, user: &UserTable<'a>) -> Result<(), AllocError>
    ensures warnings { OnOk result
        (found.new.items ≡ found.old.items ++ access_warnings user.now) }
{
    if is_open(user) {
        found.push(Warning::NoPassword { user: user.name })?;
    }
    if !may_browse(user.perms) {
        found.push(Warning::Unbrowsed {
            user: user.name,
            letters: user.perms,
        })?;
    }
    Ok(())
}

/// Adds the warnings of a user's guarantees.
fn warn_of_floors<'a>(
    found: &mut Vec<Warning<'a>>,
    server: &ServerTable,
    groups: &[GroupTable],
    user: &UserTable<'a>,
) -> Result<(), AllocError>
    ensures warnings { OnOk result (found.new.items
        ≡ found.old.items ++ floor_warnings server.now groups.now user.now) }
{
    if let Some(why) = first_shortage(server, groups, user) {
        found.push(Warning::NoFirstSession {
            user: user.name,
            why,
        })?;
    }
    if let Some(why) = second_shortage(server, groups, user) {
        found.push(Warning::NoSecondSession {
            user: user.name,
            why,
        })?;
    }
    Ok(())
}

/// Adds the warning of a user's home.
fn warn_of_home<'a>(
    found: &mut Vec<Warning<'a>>,
    root: Option<Sight>,
    row: &SeenUser<'_, 'a>,
) -> Result<(), AllocError>
    ensures warnings { OnOk result
        (found.new.items ≡ found.old.items ++ home_warnings root row.now) }
{
    if lacks_home(root, row) {
        found.push(Warning::NoHome {
            user: row.user.name,
            home: row.user.home,
        })?;
    }
    Ok(())
}

/// Adds the warning of a user whose sessions share one part of the line.
fn warn_of_one_user<'a>(
    found: &mut Vec<Warning<'a>>,
    share_by: ShareBy,
    user: &UserTable<'a>,
) -> Result<(), AllocError>
    ensures warnings { OnOk result
        (found.new.items ≡ found.old.items ++ one_user_warnings share_by user.now) }
{
    if shares_as_one(share_by, user) {
        found.push(Warning::OneUser { user: user.name })?;
    }
    Ok(())
}

/// Adds the warnings of a user.
fn warn_of_user<'a>(
    found: &mut Vec<Warning<'a>>,
    share_by: ShareBy,
    server: &ServerTable,
    groups: &[GroupTable],
    root: Option<Sight>,
    row: &SeenUser<'_, 'a>,
) -> Result<(), AllocError>
    ensures warnings { OnOk result (found.new.items
        ≡ found.old.items ++ user_warnings share_by server.now groups.now root row.now) }
{
    let user = row.user;
    warn_of_name(found, user)?;
    warn_of_access(found, user)?;
    warn_of_floors(found, server, groups, user)?;
    warn_of_home(found, root, row)?;
    warn_of_one_user(found, share_by, user)?;
    Ok(())
}

/// Adds the warnings of the root, of the server and of the file.
fn warn_of_server<'a>(
    found: &mut Vec<Warning<'a>>,
    server: &ServerTable<'a>,
    root: Option<Sight>,
    mode: Option<u32>,
    rows: &[SeenUser],
) -> Result<(), AllocError>
    ensures warnings { OnOk result
        (found.new.items ≡ found.old.items ++ server_warnings server.now root mode rows.now) }
{
    warn_of_root(found, server.root)?;
    warn_of_sight(found, server.root, root)?;
    warn_of_ports(found, server)?;
    warn_of_all(found, server, rows)?;
    warn_of_file(found, mode, rows)?;
    Ok(())
}

/// Adds the warnings of users, in their order.
fn warn_of_users<'a>(
    found: &mut Vec<Warning<'a>>,
    share_by: ShareBy,
    server: &ServerTable,
    groups: &[GroupTable],
    root: Option<Sight>,
    rows: &[SeenUser<'_, 'a>],
) -> Result<(), AllocError>
    ensures warnings { OnOk result (found.new.items ≡ found.old.items
        ++ flat_map (user_warnings share_by server.now groups.now root) rows.now) }
{
    for row in rows {
        warn_of_user(found, share_by, server, groups, root, row)?;
    }
    Ok(())
}

/// Returns the warnings of a configuration: those of its root, of its server and of its file, and then those of its users
/// in their order.
pub(crate) fn warnings_of<'a>(
    alloc: Global,
    share_by: ShareBy,
    server: &ServerTable<'a>,
    groups: &[GroupTable],
    root: Option<Sight>,
    mode: Option<u32>,
    rows: &[SeenUser<'_, 'a>],
) -> Result<Vec<Warning<'a>>, AllocError>
    ensures warnings { IfOk result
        (λ found. found.items ≡ warnings share_by server.now groups.now root mode rows.now) }
{
    let mut found = Vec::new(alloc);
    warn_of_server(&mut found, server, root, mode, rows)?;
    warn_of_users(&mut found, share_by, server, groups, root, rows)?;
    Ok(found)
}
