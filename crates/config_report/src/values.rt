//! The report on a configuration as JSON.

ghost use Rattle.std.specs.Prelude.{◌≡◌, IfOk, map, string_bytes};
ghost use Rattle.std.specs.Net.Addr.{ipv4_octets};
ghost use Rattle.std.specs.Net.Text.{ipv4_text};
ghost use Rattle.serde_json.specs.View.{view};
ghost use Rattle.config_report.specs.ReportData.{IsJsonOf, address_data, announced_data, connections_data, group_data, limits_data, masquerade_data, members_data, name_data, override_data, rate_data, rates_data, report_data, row_data, server_data, store_data, user_data, user_rates_data, warning_data, whole_data};

use crate::letters::ordered;
use crate::seen::SeenUser;
use crate::warning::Warning;
use crate::warnings::{is_unreported, reported_address};
use config_file::{GroupTable, OverrideTable, ServerTable, Tables, UserTable};
use serde_json::{Value, json};
use std::alloc::{AllocError, Global};
use std::net::Ipv4Addr;

/// A rate, or null for none.
fn rate_value(rate: u64) -> Value
    ensures rate { view result ≡ rate_data rate }
{
    if rate == 0 {
        Value::Null
    } else {
        Value::from(rate)
    }
}

fn address_text(alloc: Global, address: Ipv4Addr) -> Result<String, AllocError>
    ensures text { IfOk result (λ text. string_bytes text ≡ ipv4_text (ipv4_octets address)) }
{
    format!(in alloc; "{address}")
}

fn address_value(alloc: Global, address: Ipv4Addr) -> Result<Value, AllocError>
    ensures address { IfOk result (λ v. view v ≡ address_data address) }
{
    let text = address_text(alloc, address)?;
    Ok(Value::from(text))
}

/// The address that is announced to clients, or null if it is the one that they reached.
fn announced_value(alloc: Global, server: &ServerTable<'_>) -> Result<Value, AllocError>
    ensures announced { IfOk result (λ v. view v ≡ announced_data server.now) }
{
    if is_unreported(server) {
        return Ok(Value::Null);
    }
    address_value(alloc, reported_address(server))
}

/// The address that is stated for clients, or null.
fn masquerade_value(alloc: Global, server: &ServerTable<'_>) -> Result<Value, AllocError>
    ensures masquerade { IfOk result
        (λ v. view v ≡ masquerade_data server.now.masquerade_address) }
{
    match server.masquerade_address {
        Some(address) => address_value(alloc, address),
        None => Ok(Value::Null),
    }
}

/// The name of a group, or null.
fn name_value(alloc: Global, name: Option<&str>) -> Result<Value, AllocError>
    ensures name { IfOk result (λ v. view v ≡ name_data name.entry) }
{
    match name {
        Some(name) => {
            let text = String::from_str(alloc, name)?;
            Ok(Value::from(text))
        }
        None => Ok(Value::Null),
    }
}

fn connections_value(alloc: Global, server: &ServerTable<'_>) -> Result<Value, AllocError>
    ensures connections { IfOk result (λ v. view v ≡ connections_data server.now) }
{
    let announced = announced_value(alloc, server)?;
    let masquerade = masquerade_value(alloc, server)?;
    json!(in alloc; {
        "announced_address": announced,
        "masquerade_address": masquerade,
        "passive_first": server.passive_first,
        "passive_last": server.passive_last,
        "permit_foreign_addresses": server.permit_foreign_addresses,
        "permit_privileged_ports": server.permit_privileged_ports
    })
}

fn limits_value(alloc: Global, server: &ServerTable<'_>) -> Result<Value, AllocError>
    ensures limits { IfOk result (λ v. view v ≡ limits_data server.now) }
{
    json!(in alloc; {
        "lanes": server.lanes,
        "max_cons": server.max_cons,
        "max_cons_per_address": server.max_cons_per_address,
        "max_login_attempts": server.max_login_attempts
    })
}

fn rates_value(alloc: Global, server: &ServerTable<'_>) -> Result<Value, AllocError>
    ensures rates { IfOk result (λ v. view v ≡ rates_data server.now) }
{
    json!(in alloc; {
        "down_rate": rate_value(server.down_rate),
        "rate": rate_value(server.rate),
        "up_rate": rate_value(server.up_rate)
    })
}

fn store_value(alloc: Global, tables: &Tables<'_>) -> Result<Value, AllocError>
    ensures store { IfOk result (λ v. view v ≡ store_data tables.now) }
{
    json!(in alloc; {
        "capacity": tables.server.capacity,
        "dirs": tables.dirs.len(),
        "files": tables.files.len(),
        "root": tables.server.root
    })
}

/// A server, with its address, its data connections, its limits, its rates and its store.
fn server_members(
    alloc: Global,
    server: &ServerTable<'_>,
    address: Value,
    connections: Value,
    limits: Value,
    rates: Value,
    store: Value,
) -> Result<Value, AllocError>
    ensures server { IfOk result (λ v. view v ≡ members_data server.now (view address)
        (view connections) (view limits) (view rates) (view store)) }
{
    json!(in alloc; {
        "address": address,
        "banner": server.banner,
        "data_connections": connections,
        "limits": limits,
        "port": server.port,
        "rates": rates,
        "sessions": server.sessions,
        "store": store
    })
}

fn server_value(alloc: Global, tables: &Tables<'_>) -> Result<Value, AllocError>
    ensures server { IfOk result (λ v. view v ≡ server_data tables.now) }
{
    let server = &tables.server;
    let address = address_value(alloc, server.address)?;
    let connections = connections_value(alloc, server)?;
    let limits = limits_value(alloc, server)?;
    let rates = rates_value(alloc, server)?;
    let store = store_value(alloc, tables)?;
    let value = server_members(alloc, server, address, connections, limits, rates, store)?;
    Ok(value)
}

fn group_value(alloc: Global, group: &GroupTable<'_>) -> Result<Value, AllocError>
    ensures group { IfOk result (λ v. view v ≡ group_data group.now) }
{
    json!(in alloc; {
        "down_rate": rate_value(group.down_rate),
        "name": group.name,
        "up_rate": rate_value(group.up_rate)
    })
}

fn override_value(alloc: Global, rule: &OverrideTable<'_>) -> Result<Value, AllocError>
    ensures rule { IfOk result (λ v. view v ≡ override_data rule.now) }
{
    let letters = ordered(alloc, rule.perms)?;
    json!(in alloc; {
        "path": rule.path,
        "perms": letters,
        "recursive": rule.recursive
    })
}

fn override_values(alloc: Global, rules: &[OverrideTable<'_>]) -> Result<Vec<Value>, AllocError>
    ensures rules { IfOk result
        (λ values. map view values.items ≡ map override_data rules.now) }
{
    let mut values = Vec::with_capacity(alloc, rules.len())?;
    for rule in rules {
        values.push(override_value(alloc, rule)?)?;
    }
    Ok(values)
}

fn user_rates_value(alloc: Global, user: &UserTable<'_>) -> Result<Value, AllocError>
    ensures rates { IfOk result (λ v. view v ≡ user_rates_data user.now) }
{
    json!(in alloc; {
        "down_rate": rate_value(user.down_rate),
        "session_down_floor": rate_value(user.session_down_floor),
        "session_down_rate": rate_value(user.session_down_rate),
        "session_up_floor": rate_value(user.session_up_floor),
        "session_up_rate": rate_value(user.session_up_rate),
        "up_rate": rate_value(user.up_rate)
    })
}

/// A user, with its group, its overrides and its rates.
fn user_members(
    alloc: Global,
    user: &UserTable<'_>,
    group: Value,
    overrides: Value,
    rates: Value,
) -> Result<Value, AllocError>
    ensures user { IfOk result (λ v. view v
        ≡ user_data user.now (view group) (view overrides) (view rates)) }
{
    let letters = ordered(alloc, user.perms)?;
    json!(in alloc; {
        "group": group,
        "home": user.home,
        "msg_login": user.msg_login,
        "msg_quit": user.msg_quit,
        "name": user.name,
        "overrides": overrides,
        "perms": letters,
        "rates": rates
    })
}

fn row_value(alloc: Global, row: &SeenUser<'_, '_>) -> Result<Value, AllocError>
    ensures row { IfOk result (λ v. view v ≡ row_data row.now) }
{
    let group = name_value(alloc, row.user.group)?;
    let overrides = override_values(alloc, row.overrides)?;
    let rates = user_rates_value(alloc, row.user)?;
    let value = user_members(alloc, row.user, group, Value::Array(overrides), rates)?;
    Ok(value)
}

fn row_values(alloc: Global, rows: &[SeenUser<'_, '_>]) -> Result<Vec<Value>, AllocError>
    ensures rows { IfOk result (λ values. map view values.items ≡ map row_data rows.now) }
{
    let mut values = Vec::with_capacity(alloc, rows.len())?;
    for row in rows {
        values.push(row_value(alloc, row)?)?;
    }
    Ok(values)
}

fn group_values(alloc: Global, groups: &[GroupTable<'_>]) -> Result<Vec<Value>, AllocError>
    ensures groups { IfOk result
        (λ values. map view values.items ≡ map group_data groups.now) }
{
    let mut values = Vec::with_capacity(alloc, groups.len())?;
    for group in groups {
        values.push(group_value(alloc, group)?)?;
    }
    Ok(values)
}

fn warning_value(alloc: Global, warning: &Warning<'_>) -> Result<Value, AllocError>
    ensures warning { IfOk result (λ v. view v ≡ warning_data warning.now) }
{
    let text = format!(in alloc; "{warning}")?;
    Ok(Value::from(text))
}

fn warning_values(alloc: Global, warnings: &[Warning<'_>]) -> Result<Vec<Value>, AllocError>
    ensures warnings { IfOk result
        (λ values. map view values.items ≡ map warning_data warnings.now) }
{
    let mut values = Vec::with_capacity(alloc, warnings.len())?;
    for warning in warnings {
        values.push(warning_value(alloc, warning)?)?;
    }
    Ok(values)
}

/// The report, with its server, groups, users and warnings.
fn whole_value(
    alloc: Global,
    version: u64,
    server: Value,
    groups: Value,
    users: Value,
    reported: Value,
) -> Result<Value, AllocError>
    ensures whole { IfOk result (λ v. view v
        ≡ whole_data version (view server) (view groups) (view users) (view reported)) }
{
    json!(in alloc; {
        "config_version": version,
        "groups": groups,
        "server": server,
        "unit": "octets a second",
        "users": users,
        "version": 1u64,
        "warnings": reported
    })
}

fn report_value(
    alloc: Global,
    tables: &Tables<'_>,
    groups: &[GroupTable<'_>],
    rows: &[SeenUser<'_, '_>],
    warnings: &[Warning<'_>],
) -> Result<Value, AllocError>
    ensures report { IfOk result
        (λ v. view v ≡ report_data tables.now groups.now rows.now warnings.now) }
{
    let server = server_value(alloc, tables)?;
    let stated = group_values(alloc, groups)?;
    let users = row_values(alloc, rows)?;
    let reported = warning_values(alloc, warnings)?;
    let value = whole_value(
        alloc,
        tables.version,
        server,
        Value::Array(stated),
        Value::Array(users),
        Value::Array(reported),
    )?;
    Ok(value)
}

/// Returns the report as a text of JSON and a line feed.
pub(crate) fn json_text(
    alloc: Global,
    tables: &Tables<'_>,
    groups: &[GroupTable<'_>],
    rows: &[SeenUser<'_, '_>],
    warnings: &[Warning<'_>],
) -> Result<String, AllocError>
    ensures text { IfOk result (λ text. IsJsonOf
        (report_data tables.now groups.now rows.now warnings.now) (string_bytes text)) }
{
    let report = report_value(alloc, tables, groups, rows, warnings)?;
    let mut text = report.to_string(alloc)?;
    text.push('\n')?;
    Ok(text)
}
