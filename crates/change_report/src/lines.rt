//! The lines of the report on a change.

ghost use Rattle.std.specs.Prelude.{◌≡◌, ◌++◌, IfOk, OnOk, string_bytes};
ghost use Rattle.std.specs.Fmt.{decimal};
ghost use Rattle.std.specs.List.{flat_map};
ghost use Rattle.change_report.specs.Lines.{address_text, becomes_line, flag_text, key_column, limit_line, lines_text, megabits_head, name_line, octets_head, outcome_line, owner_column, rates_table, refused_line, removal_line, removal_text, setting_line, table_head, taken_line, term_line};

use crate::changes::Changes;
use crate::limits::{LimitChange, Owner};
use crate::names::{NameChange, TermKey};
use crate::reason::Reason;
use crate::settings::{SettingChange, SettingKey};
use rate_columns::{write_megabits_column, write_rate_column};
use std::alloc::{AllocError, Global};
use std::net::Ipv4Addr;

/// Writes what becomes of a reload.
fn write_outcome(text: &mut String, changes: &Changes<'_>) -> Result<(), AllocError>
    ensures line { OnOk result
        (string_bytes text.new ≡ string_bytes text.old ++ outcome_line changes.now) }
{
    match &changes.reason {
        Some(reason) => write_refused(text, reason),
        None => write_taken(text, changes.is_unchanged()),
    }
}

fn write_refused(text: &mut String, reason: &Reason<'_>) -> Result<(), AllocError>
    ensures line { OnOk result
        (string_bytes text.new ≡ string_bytes text.old ++ refused_line reason.now) }
{
    match reason {
        Reason::Key(key) => writeln!(text, "a reload would be refused: {key}"),
        Reason::Count(fault) => writeln!(text, "a reload would be refused: {fault}"),
    }
}

fn write_taken(text: &mut String, is_unchanged: bool) -> Result<(), AllocError>
    ensures line { OnOk result
        (string_bytes text.new ≡ string_bytes text.old ++ taken_line is_unchanged) }
{
    if is_unchanged {
        writeln!(text, "a reload would change nothing")
    } else {
        writeln!(
            text,
            "a reload would be taken, unless the sessions of connected clients were guaranteed more than a rate"
        )
    }
}

fn flag_word(flag: bool) -> &'static str
    ensures word { result.now ≡ flag_text flag }
{
    if flag { "true" } else { "false" }
}

/// An address; `none` if there is none.
fn address_text(alloc: Global, address: Option<Ipv4Addr>) -> Result<String, AllocError>
    ensures text { IfOk result (λ text. string_bytes text ≡ address_text address) }
{
    match address {
        Some(address) => format!(in alloc; "{address}"),
        None => String::from_str(alloc, "none"),
    }
}

/// Writes a key with its values before and after.
fn write_becomes(text: &mut String, key: SettingKey, old: &str, new: &str) -> Result<(), AllocError>
    ensures line { OnOk result
        (string_bytes text.new ≡ string_bytes text.old ++ becomes_line key old.now new.now) }
{
    let (word, start) = (key.text(), key.start());
    writeln!(text, "{word}: {old} becomes {new}{start}")
}

fn write_counts(text: &mut String, key: SettingKey, old: u64, new: u64) -> Result<(), AllocError>
    ensures line { OnOk result (string_bytes text.new
        ≡ string_bytes text.old ++ becomes_line key (decimal old) (decimal new)) }
{
    let (word, start) = (key.text(), key.start());
    writeln!(text, "{word}: {old} becomes {new}{start}")
}

fn write_addresses(
    alloc: Global,
    text: &mut String,
    key: SettingKey,
    old: Option<Ipv4Addr>,
    new: Option<Ipv4Addr>,
) -> Result<(), AllocError>
    ensures line { OnOk result (string_bytes text.new
        ≡ string_bytes text.old ++ becomes_line key (address_text old) (address_text new)) }
{
    let before = address_text(alloc, old)?;
    let after = address_text(alloc, new)?;
    write_becomes(text, key, before.as_str(), after.as_str())
}

fn write_setting(
    alloc: Global,
    text: &mut String,
    change: SettingChange<'_>,
) -> Result<(), AllocError>
    ensures line { OnOk result
        (string_bytes text.new ≡ string_bytes text.old ++ setting_line change.entry) }
{
    match change {
        SettingChange::Text { key, old, new } => write_becomes(text, key, old, new),
        SettingChange::Number { key, old, new } => write_counts(text, key, old, new),
        SettingChange::Flag { key, old, new } => {
            write_becomes(text, key, flag_word(old), flag_word(new))
        }
        SettingChange::Address { key, old, new } => write_addresses(alloc, text, key, old, new),
    }
}

fn write_settings(
    alloc: Global,
    text: &mut String,
    changes: &[SettingChange<'_>],
) -> Result<(), AllocError>
    ensures lines { OnOk result
        (string_bytes text.new ≡ string_bytes text.old ++ flat_map setting_line changes.now) }
{
    for change in changes {
        write_setting(alloc, text, *change)?;
    }
    Ok(())
}

fn write_term(text: &mut String, name: &str, key: TermKey) -> Result<(), AllocError>
    ensures line { OnOk result
        (string_bytes text.new ≡ string_bytes text.old ++ term_line name.now key) }
{
    let (word, when) = (key.text(), key.when());
    writeln!(text, "user {name}: {word} changes {when}")
}

// The consequence for a user who is taken out.
fn removal_text() -> &'static str
    ensures text { result.now ≡ removal_text }
{
    " is taken out, and its sessions end"
}

fn write_removal(text: &mut String, name: &str) -> Result<(), AllocError>
    ensures line { OnOk result
        (string_bytes text.new ≡ string_bytes text.old ++ removal_line name.now) }
{
    let removal = removal_text();
    writeln!(text, "user {name}{removal}")
}

fn write_name(text: &mut String, change: NameChange<'_>) -> Result<(), AllocError>
    ensures line { OnOk result
        (string_bytes text.new ≡ string_bytes text.old ++ name_line change.entry) }
{
    match change {
        NameChange::GroupAdded { name } => writeln!(text, "group {name} is added"),
        NameChange::GroupTakenOut { name } => writeln!(text, "group {name} is taken out"),
        NameChange::UserAdded { name } => writeln!(text, "user {name} is added"),
        NameChange::UserTakenOut { name } => write_removal(text, name),
        NameChange::UserChanged { name, key } => write_term(text, name, key),
    }
}

fn write_names(text: &mut String, changes: &[NameChange<'_>]) -> Result<(), AllocError>
    ensures lines { OnOk result
        (string_bytes text.new ≡ string_bytes text.old ++ flat_map name_line changes.now) }
{
    for change in changes {
        write_name(text, *change)?;
    }
    Ok(())
}

/// Writes the table that states a rate, in its column.
fn write_owner(text: &mut String, owner: Owner<'_>) -> Result<(), AllocError>
    ensures column { OnOk result
        (string_bytes text.new ≡ string_bytes text.old ++ owner_column owner.entry) }
{
    match owner {
        Owner::Server => write!(text, "{:<24}", "server"),
        Owner::Group(name) => write!(text, "group {name:<18}"),
        Owner::User(name) => write!(text, "user {name:<19}"),
    }
}

fn write_key(text: &mut String, key: &str) -> Result<(), AllocError>
    ensures column { OnOk result
        (string_bytes text.new ≡ string_bytes text.old ++ key_column key.now) }
{
    write!(text, " {key:<19}")
}

fn write_limit(text: &mut String, change: &LimitChange<'_>) -> Result<(), AllocError>
    ensures line { OnOk result
        (string_bytes text.new ≡ string_bytes text.old ++ limit_line change.now) }
{
    write_owner(text, change.owner)?;
    write_key(text, change.key.text())?;
    write_rate_column(text, change.old)?;
    write_rate_column(text, change.new)?;
    write_megabits_column(text, change.old)?;
    write_megabits_column(text, change.new)?;
    text.push('\n')
}

fn write_limits(text: &mut String, changes: &[LimitChange<'_>]) -> Result<(), AllocError>
    ensures lines { OnOk result
        (string_bytes text.new ≡ string_bytes text.old ++ flat_map limit_line changes.now) }
{
    for change in changes {
        write_limit(text, change)?;
    }
    Ok(())
}

fn write_octets_head(text: &mut String) -> Result<(), AllocError>
    ensures line { OnOk result (string_bytes text.new ≡ string_bytes text.old ++ octets_head) }
{
    write!(
        text,
        "\n{:<24} {:<19}{:>14}{:>14}",
        "octets a second", "key", "is", "becomes"
    )
}

fn write_megabits_head(text: &mut String) -> Result<(), AllocError>
    ensures line { OnOk result (string_bytes text.new ≡ string_bytes text.old ++ megabits_head) }
{
    writeln!(text, "{:>12}{:>12}", "Mbit/s is", "becomes")
}

fn write_head(text: &mut String) -> Result<(), AllocError>
    ensures line { OnOk result (string_bytes text.new ≡ string_bytes text.old ++ table_head) }
{
    write_octets_head(text)?;
    write_megabits_head(text)
}

/// Writes the table of rates, unless it is empty.
fn write_table(text: &mut String, changes: &[LimitChange<'_>]) -> Result<(), AllocError>
    ensures table { OnOk result
        (string_bytes text.new ≡ string_bytes text.old ++ rates_table changes.now) }
{
    if changes.is_empty() {
        return Ok(());
    }
    write_head(text)?;
    write_limits(text, changes)?;
    Ok(())
}

/// Returns all lines: what becomes of a reload, the settings, the groups and users, and the rates.
pub(crate) fn lines_of(alloc: Global, changes: &Changes<'_>) -> Result<String, AllocError>
    ensures text { IfOk result (λ text. string_bytes text ≡ lines_text changes.now) }
{
    let mut text = String::new(alloc);
    write_outcome(&mut text, changes)?;
    write_settings(alloc, &mut text, changes.settings.as_slice())?;
    write_names(&mut text, changes.names.as_slice())?;
    write_table(&mut text, changes.limits.as_slice())?;
    Ok(text)
}
