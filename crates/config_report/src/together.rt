//! The checks of what all users have together: lanes, names, and guarantees of a session of each.

ghost use Rattle.std.specs.Prelude.{◌≡◌, ◌++◌, OnOk};
ghost use Rattle.std.specs.List.{list_any};
ghost use Rattle.config_report.specs.Together.{all_warnings, has_few_lanes, has_guarantee, is_among_passive, is_blank_at_an_end, lane_warnings, may_wait, name_warnings, nobody_warnings, promised_down, promised_up, promise_warnings, way_warnings, both_warnings};

use crate::floors::{fits, has_floor};
use crate::seen::SeenUser;
use crate::warning::Warning;
use config_file::{ServerTable, UserTable};
use std::alloc::AllocError;

/// The most lanes that a configuration may state.
pub(crate) const MOST_LANES: u16 = 64;

/// Returns whether fewer transfers run at once than there may be connections, and more lanes can be stated.
fn has_few_lanes(server: &ServerTable) -> bool
    ensures few { result ≡ has_few_lanes server.now }
{
    server.lanes < server.max_cons && server.lanes < MOST_LANES
}

/// Returns whether a transfer may have to wait for a lane.
fn may_wait(server: &ServerTable) -> bool
    ensures wait { result ≡ may_wait server.now }
{
    server.lanes < server.max_cons
}

/// Returns whether the port of control connections is among the passive ports.
pub(crate) fn is_among_passive(server: &ServerTable) -> bool
    ensures among { result ≡ is_among_passive server.now }
{
    server.passive_first <= server.port && server.port <= server.passive_last
}

/// Returns whether sessions of a user have a guarantee.
fn has_guarantees(rows: &[SeenUser]) -> bool
    ensures guarantees { result ≡ list_any has_guarantee rows.now }
{
    for row in rows {
        if has_floor(row.user) {
            return true;
        }
    }
    false
}

/// Returns what a session of each user is guaranteed downwards, in all: at most 2^64 - 1.
fn promised_down(rows: &[SeenUser]) -> u64
    ensures promised { result ≡ promised_down rows.now }
{
    let mut total: u64 = 0;
    for row in rows {
        total = total.saturating_add(row.user.session_down_floor);
    }
    total
}

/// Returns what a session of each user is guaranteed upwards, in all: at most 2^64 - 1.
fn promised_up(rows: &[SeenUser]) -> u64
    ensures promised { result ≡ promised_up rows.now }
{
    let mut total: u64 = 0;
    for row in rows {
        total = total.saturating_add(row.user.session_up_floor);
    }
    total
}

/// Adds the warnings of lanes.
fn warn_of_lanes(
    found: &mut Vec<Warning>,
    server: &ServerTable,
    rows: &[SeenUser],
) -> Result<(), AllocError>
    ensures warnings { OnOk result
        (found.new.items ≡ found.old.items ++ lane_warnings server.now rows.now) }
{
    if has_few_lanes(server) {
        found.push(Warning::FewLanes {
            lanes: server.lanes,
            connections: server.max_cons,
        })?;
    }
    if may_wait(server) && has_guarantees(rows) {
        found.push(Warning::GuaranteesWait {
            lanes: server.lanes,
        })?;
    }
    Ok(())
}

/// Adds the warnings of guarantees one way, of which these are the sums.
fn warn_of_ways(
    found: &mut Vec<Warning>,
    server: &ServerTable,
    down: u64,
    up: u64,
) -> Result<(), AllocError>
    ensures warnings { OnOk result
        (found.new.items ≡ found.old.items ++ way_warnings server.now down up) }
{
    if !fits(down, server.down_rate) {
        found.push(Warning::PromisedDown {
            promised: down,
            rate: server.down_rate,
        })?;
    }
    if !fits(up, server.up_rate) {
        found.push(Warning::PromisedUp {
            promised: up,
            rate: server.up_rate,
        })?;
    }
    Ok(())
}

/// Adds the warning of guarantees both ways together, of which this is the sum.
fn warn_of_both(found: &mut Vec<Warning>, server: &ServerTable, both: u64) -> Result<(), AllocError>
    ensures warnings { OnOk result
        (found.new.items ≡ found.old.items ++ both_warnings server.now both) }
{
    if !fits(both, server.rate) {
        found.push(Warning::PromisedBoth {
            promised: both,
            rate: server.rate,
        })?;
    }
    Ok(())
}

/// Adds the warnings of guarantees that a session of each user cannot have at once, within the rates of the server.
fn warn_of_promises(
    found: &mut Vec<Warning>,
    server: &ServerTable,
    rows: &[SeenUser],
) -> Result<(), AllocError>
    ensures warnings { OnOk result
        (found.new.items ≡ found.old.items ++ promise_warnings server.now rows.now) }
{
    let down = promised_down(rows);
    let up = promised_up(rows);
    warn_of_ways(found, server, down, up)?;
    warn_of_both(found, server, down.saturating_add(up))?;
    Ok(())
}

/// Adds the warning that there is no user.
fn warn_of_nobody(found: &mut Vec<Warning>, rows: &[SeenUser]) -> Result<(), AllocError>
    ensures warnings { OnOk result
        (found.new.items ≡ found.old.items ++ nobody_warnings rows.now) }
{
    if rows.is_empty() {
        found.push(Warning::NoUser)?;
    }
    Ok(())
}

/// Adds the warnings of what all users have together.
pub(crate) fn warn_of_all(
    found: &mut Vec<Warning>,
    server: &ServerTable,
    rows: &[SeenUser],
) -> Result<(), AllocError>
    ensures warnings { OnOk result
        (found.new.items ≡ found.old.items ++ all_warnings server.now rows.now) }
{
    warn_of_lanes(found, server, rows)?;
    warn_of_promises(found, server, rows)?;
    warn_of_nobody(found, rows)?;
    Ok(())
}

/// Returns whether a name begins or ends with a blank.
fn is_blank_at_an_end(name: &str) -> bool
    ensures blank { result ≡ is_blank_at_an_end name.now }
{
    let octets = name.as_bytes();
    !octets.is_empty() && (octets[0] == b' ' || octets[octets.len() - 1] == b' ')
}

/// Adds the warning of a user's name.
pub(crate) fn warn_of_name<'a>(
    found: &mut Vec<Warning<'a>>,
    user: &UserTable<'a>,
) -> Result<(), AllocError>
    ensures warnings { OnOk result
        (found.new.items ≡ found.old.items ++ name_warnings user.now) }
{
    if user.name.is_empty() {
        found.push(Warning::NoName)?;
    }
    if is_blank_at_an_end(user.name) {
        found.push(Warning::BlankName { user: user.name })?;
    }
    Ok(())
}
