//! The report on a change as JSON.

ghost use Rattle.std.specs.Prelude.{◌≡◌, IfOk, map, string_bytes};
ghost use Rattle.std.specs.Net.Addr.{ipv4_octets};
ghost use Rattle.std.specs.Net.Text.{ipv4_text};
ghost use Rattle.serde_json.specs.View.{view};
ghost use Rattle.config_change.specs.Words.{count_text, key_text};
ghost use Rattle.config_report.specs.ReportData.{IsJsonOf, masquerade_data, rate_data};
ghost use Rattle.change_report.specs.ChangeData.{change_data, limit_data, limit_row, name_data, name_row, outcome_word, pair_data, reason_data, setting_data, text_data, whole_data};

use crate::changes::Changes;
use crate::limits::{LimitChange, Owner};
use crate::names::NameChange;
use crate::reason::Reason;
use crate::settings::SettingChange;
use config_change::{CountFault, FixedKey};
use serde_json::{Value, json};
use std::alloc::{AllocError, Global};
use std::net::Ipv4Addr;

/// A rate, or null for none.
fn rate_value(rate: u64) -> Value
    ensures rate { view result ≡ rate_data rate }
{
    if rate == 0 {
        Value::Null
    } else {
        Value::from(rate)
    }
}

fn text_value(alloc: Global, text: &str) -> Result<Value, AllocError>
    ensures text { IfOk result (λ v. view v ≡ text_data text.now) }
{
    let text = String::from_str(alloc, text)?;
    Ok(Value::from(text))
}

fn address_text(alloc: Global, address: Ipv4Addr) -> Result<String, AllocError>
    ensures text { IfOk result (λ text. string_bytes text ≡ ipv4_text (ipv4_octets address)) }
{
    format!(in alloc; "{address}")
}

/// An address, or null for none.
fn address_value(alloc: Global, address: Option<Ipv4Addr>) -> Result<Value, AllocError>
    ensures address { IfOk result (λ v. view v ≡ masquerade_data address) }
{
    match address {
        Some(address) => {
            let text = address_text(alloc, address)?;
            Ok(Value::from(text))
        }
        None => Ok(Value::Null),
    }
}

/// A key with its values.
fn pair_value(alloc: Global, key: &str, old: Value, new: Value) -> Result<Value, AllocError>
    ensures pair { IfOk result (λ v. view v ≡ pair_data key.now (view old) (view new)) }
{
    json!(in alloc; {
        "key": key,
        "new": new,
        "old": old
    })
}

fn setting_value(alloc: Global, change: SettingChange<'_>) -> Result<Value, AllocError>
    ensures setting { IfOk result (λ v. view v ≡ setting_data change.entry) }
{
    match change {
        SettingChange::Text { key, old, new } => {
            let before = text_value(alloc, old)?;
            let after = text_value(alloc, new)?;
            pair_value(alloc, key.text(), before, after)
        }
        SettingChange::Number { key, old, new } => {
            pair_value(alloc, key.text(), Value::from(old), Value::from(new))
        }
        SettingChange::Flag { key, old, new } => {
            pair_value(alloc, key.text(), Value::from(old), Value::from(new))
        }
        SettingChange::Address { key, old, new } => {
            let before = address_value(alloc, old)?;
            let after = address_value(alloc, new)?;
            pair_value(alloc, key.text(), before, after)
        }
    }
}

fn setting_values(alloc: Global, changes: &[SettingChange<'_>]) -> Result<Vec<Value>, AllocError>
    ensures settings { IfOk result
        (λ values. map view values.items ≡ map setting_data changes.now) }
{
    let mut values = Vec::with_capacity(alloc, changes.len())?;
    for change in changes {
        values.push(setting_value(alloc, *change)?)?;
    }
    Ok(values)
}

/// A group or a user, with what becomes of it.
fn row_value(
    alloc: Global,
    of: &str,
    name: &str,
    change: &str,
    key: Value,
) -> Result<Value, AllocError>
    ensures row { IfOk result
        (λ v. view v ≡ name_row of.now name.now change.now (view key)) }
{
    json!(in alloc; {
        "change": change,
        "key": key,
        "name": name,
        "of": of
    })
}

fn name_value(alloc: Global, change: NameChange<'_>) -> Result<Value, AllocError>
    ensures name { IfOk result (λ v. view v ≡ name_data change.entry) }
{
    match change {
        NameChange::GroupAdded { name } => row_value(alloc, "group", name, "added", Value::Null),
        NameChange::GroupTakenOut { name } => {
            row_value(alloc, "group", name, "taken out", Value::Null)
        }
        NameChange::UserAdded { name } => row_value(alloc, "user", name, "added", Value::Null),
        NameChange::UserTakenOut { name } => {
            row_value(alloc, "user", name, "taken out", Value::Null)
        }
        NameChange::UserChanged { name, key } => {
            let key = text_value(alloc, key.text())?;
            row_value(alloc, "user", name, "changed", key)
        }
    }
}

fn name_values(alloc: Global, changes: &[NameChange<'_>]) -> Result<Vec<Value>, AllocError>
    ensures names { IfOk result (λ values. map view values.items ≡ map name_data changes.now) }
{
    let mut values = Vec::with_capacity(alloc, changes.len())?;
    for change in changes {
        values.push(name_value(alloc, *change)?)?;
    }
    Ok(values)
}

/// A rate with its values, of the table of a name.
fn limit_row(
    alloc: Global,
    of: &str,
    name: Value,
    change: &LimitChange<'_>,
) -> Result<Value, AllocError>
    ensures row { IfOk result (λ v. view v ≡ limit_row of.now (view name) change.now) }
{
    json!(in alloc; {
        "key": change.key.text(),
        "name": name,
        "new": rate_value(change.new),
        "of": of,
        "old": rate_value(change.old)
    })
}

fn limit_value(alloc: Global, change: &LimitChange<'_>) -> Result<Value, AllocError>
    ensures limit { IfOk result (λ v. view v ≡ limit_data change.now) }
{
    match change.owner {
        Owner::Server => limit_row(alloc, "server", Value::Null, change),
        Owner::Group(name) => {
            let name = text_value(alloc, name)?;
            limit_row(alloc, "group", name, change)
        }
        Owner::User(name) => {
            let name = text_value(alloc, name)?;
            limit_row(alloc, "user", name, change)
        }
    }
}

fn limit_values(alloc: Global, changes: &[LimitChange<'_>]) -> Result<Vec<Value>, AllocError>
    ensures limits { IfOk result (λ values. map view values.items ≡ map limit_data changes.now) }
{
    let mut values = Vec::with_capacity(alloc, changes.len())?;
    for change in changes {
        values.push(limit_value(alloc, change)?)?;
    }
    Ok(values)
}

fn key_words(alloc: Global, key: &FixedKey<'_>) -> Result<String, AllocError>
    ensures words { IfOk result (λ text. string_bytes text ≡ key_text key.now) }
{
    format!(in alloc; "{key}")
}

fn count_words(alloc: Global, fault: &CountFault) -> Result<String, AllocError>
    ensures words { IfOk result (λ text. string_bytes text ≡ count_text fault.now) }
{
    format!(in alloc; "{fault}")
}

/// The words of a reason, or null for none.
fn reason_value(alloc: Global, reason: Option<Reason<'_>>) -> Result<Value, AllocError>
    ensures reason { IfOk result (λ v. view v ≡ reason_data reason.entry) }
{
    match reason {
        Some(Reason::Key(key)) => {
            let text = key_words(alloc, &key)?;
            Ok(Value::from(text))
        }
        Some(Reason::Count(fault)) => {
            let text = count_words(alloc, &fault)?;
            Ok(Value::from(text))
        }
        None => Ok(Value::Null),
    }
}

/// The word for what becomes of a reload.
fn outcome(changes: &Changes<'_>) -> &'static str
    ensures outcome { result.now ≡ outcome_word changes.now }
{
    if changes.is_refused() {
        "refused"
    } else if changes.is_unchanged() {
        "nothing"
    } else {
        "taken"
    }
}

fn whole_value(
    alloc: Global,
    outcome: &str,
    reason: Value,
    settings: Value,
    names: Value,
    limits: Value,
) -> Result<Value, AllocError>
    ensures whole { IfOk result (λ v. view v
        ≡ whole_data outcome.now (view reason) (view settings) (view names) (view limits)) }
{
    json!(in alloc; {
        "limits": limits,
        "names": names,
        "outcome": outcome,
        "reason": reason,
        "settings": settings,
        "unit": "octets a second",
        "version": 1u64
    })
}

fn change_value(alloc: Global, changes: &Changes<'_>) -> Result<Value, AllocError>
    ensures change { IfOk result (λ v. view v ≡ change_data changes.now) }
{
    let reason = reason_value(alloc, changes.reason)?;
    let settings = setting_values(alloc, changes.settings.as_slice())?;
    let names = name_values(alloc, changes.names.as_slice())?;
    let limits = limit_values(alloc, changes.limits.as_slice())?;
    let value = whole_value(
        alloc,
        outcome(changes),
        reason,
        Value::Array(settings),
        Value::Array(names),
        Value::Array(limits),
    )?;
    Ok(value)
}

/// Returns the report as a text of JSON and a line feed.
pub(crate) fn json_of(alloc: Global, changes: &Changes<'_>) -> Result<String, AllocError>
    ensures text { IfOk result
        (λ text. IsJsonOf (change_data changes.now) (string_bytes text)) }
{
    let report = change_value(alloc, changes)?;
    let mut text = report.to_string(alloc)?;
    text.push('\n')?;
    Ok(text)
}
