//! The lines of the report on a configuration.

ghost use Rattle.std.specs.Prelude.{◌≡◌, ◌++◌, IfOk, OnOk, string_bytes};
ghost use Rattle.std.specs.List.{flat_map};
ghost use Rattle.config_report.specs.Lines.{both_line, group_rates, part_line, rate_columns, rates_head, report_text, server_rates, user_line, user_rates, warning_line, warning_row, ways_line};

use crate::seen::SeenUser;
use crate::server_lines::write_server;
use crate::user_lines::{write_users, write_users_head};
use crate::warning::Warning;
use config_file::{GroupTable, ServerTable, Tables, UserTable};
use rate_columns::{write_megabits_column, write_rate_column};
use std::alloc::{AllocError, Global};

/// Writes two rates in their columns, in octets and in Mbit/s, and ends the line.
fn write_rates(text: &mut String, down: u64, up: u64) -> Result<(), AllocError>
    ensures columns { OnOk result
        (string_bytes text.new ≡ string_bytes text.old ++ rate_columns down up) }
{
    write_rate_column(text, down)?;
    write_rate_column(text, up)?;
    write_megabits_column(text, down)?;
    write_megabits_column(text, up)?;
    text.push('\n')
}

/// Writes a line of two rates below those of a user, unless both are 0.
fn write_part(text: &mut String, head: &str, down: u64, up: u64) -> Result<(), AllocError>
    ensures line { OnOk result
        (string_bytes text.new ≡ string_bytes text.old ++ part_line head.now down up) }
{
    if down == 0 && up == 0 {
        return Ok(());
    }
    write!(text, "{head:<24}")?;
    write_rates(text, down, up)
}

fn write_rates_head(text: &mut String) -> Result<(), AllocError>
    ensures line { OnOk result (string_bytes text.new ≡ string_bytes text.old ++ rates_head) }
{
    writeln!(
        text,
        "\n{:<24}{:>14}{:>14}{:>12}{:>12}",
        "octets a second", "down", "up", "Mbit/s down", "Mbit/s up"
    )
}

fn write_ways(text: &mut String, server: &ServerTable) -> Result<(), AllocError>
    ensures line { OnOk result
        (string_bytes text.new ≡ string_bytes text.old ++ ways_line server.now) }
{
    write!(text, "{:<24}", "server")?;
    write_rates(text, server.down_rate, server.up_rate)
}

fn write_both(text: &mut String, server: &ServerTable) -> Result<(), AllocError>
    ensures line { OnOk result
        (string_bytes text.new ≡ string_bytes text.old ++ both_line server.now) }
{
    write!(text, "{:<24}", "both ways together")?;
    write_rate_column(text, server.rate)?;
    write!(text, "{:>14}", "")?;
    write_megabits_column(text, server.rate)?;
    text.push('\n')
}

fn write_server_rates(text: &mut String, server: &ServerTable) -> Result<(), AllocError>
    ensures lines { OnOk result
        (string_bytes text.new ≡ string_bytes text.old ++ server_rates server.now) }
{
    write_rates_head(text)?;
    write_ways(text, server)?;
    write_both(text, server)?;
    Ok(())
}

fn write_group(text: &mut String, group: &GroupTable) -> Result<(), AllocError>
    ensures line { OnOk result
        (string_bytes text.new ≡ string_bytes text.old ++ group_rates group.now) }
{
    write!(text, "group {:<18}", group.name)?;
    write_rates(text, group.down_rate, group.up_rate)
}

fn write_user_line(text: &mut String, user: &UserTable) -> Result<(), AllocError>
    ensures line { OnOk result
        (string_bytes text.new ≡ string_bytes text.old ++ user_line user.now) }
{
    write!(text, "user {:<19}", user.name)?;
    write_rates(text, user.down_rate, user.up_rate)
}

fn write_user_rates(text: &mut String, user: &UserTable) -> Result<(), AllocError>
    ensures lines { OnOk result
        (string_bytes text.new ≡ string_bytes text.old ++ user_rates user.now) }
{
    write_user_line(text, user)?;
    write_part(
        text,
        "  each session",
        user.session_down_rate,
        user.session_up_rate,
    )?;
    write_part(
        text,
        "  guaranteed to each",
        user.session_down_floor,
        user.session_up_floor,
    )?;
    Ok(())
}

fn write_groups(text: &mut String, groups: &[GroupTable]) -> Result<(), AllocError>
    ensures lines { OnOk result
        (string_bytes text.new ≡ string_bytes text.old ++ flat_map group_rates groups.now) }
{
    for group in groups {
        write_group(text, group)?;
    }
    Ok(())
}

fn write_rates_of_users(text: &mut String, users: &[UserTable]) -> Result<(), AllocError>
    ensures lines { OnOk result
        (string_bytes text.new ≡ string_bytes text.old ++ flat_map user_rates users.now) }
{
    for user in users {
        write_user_rates(text, user)?;
    }
    Ok(())
}

fn write_warnings(text: &mut String, warnings: &[Warning]) -> Result<(), AllocError>
    ensures lines { OnOk result
        (string_bytes text.new ≡ string_bytes text.old ++ flat_map warning_line warnings.now) }
{
    for warning in warnings {
        writeln!(text, "warning: {warning}")?;
    }
    Ok(())
}

/// Returns the texts of warnings, a line each.
pub(crate) fn warning_rows(alloc: Global, warnings: &[Warning]) -> Result<String, AllocError>
    ensures rows { IfOk result
        (λ text. string_bytes text ≡ flat_map warning_row warnings.now) }
{
    let mut text = String::new(alloc);
    for warning in warnings {
        writeln!(&mut text, "{warning}")?;
    }
    Ok(text)
}

/// Returns all lines: of the server, of rates, of users, and the warnings.
pub(crate) fn lines_of(
    alloc: Global,
    tables: &Tables,
    groups: &[GroupTable],
    users: &[UserTable],
    rows: &[SeenUser],
    warnings: &[Warning],
) -> Result<String, AllocError>
    ensures text { IfOk result (λ text. string_bytes text
        ≡ report_text tables.now groups.now users.now rows.now warnings.now) }
{
    let mut text = String::new(alloc);
    write_server(&mut text, tables)?;
    write_server_rates(&mut text, &tables.server)?;
    write_groups(&mut text, groups)?;
    write_rates_of_users(&mut text, users)?;
    write_users_head(&mut text)?;
    write_users(alloc, &mut text, rows)?;
    write_warnings(&mut text, warnings)?;
    Ok(text)
}
