//! The lines of a report on the users: their permissions, homes, overrides and texts.

ghost use Rattle.std.specs.Prelude.{◌≡◌, ◌++◌, OnOk, string_bytes};
ghost use Rattle.std.specs.List.{flat_map};
ghost use Rattle.config_report.specs.UserLines.{login_line, override_line, quit_line, reach_text, text_line, user_line, user_lines, users_head};

use crate::letters::ordered;
use crate::seen::SeenUser;
use config_file::{OverrideTable, UserTable};
use std::alloc::{AllocError, Global};

pub(crate) fn write_users_head(text: &mut String) -> Result<(), AllocError>
    ensures line { OnOk result (string_bytes text.new ≡ string_bytes text.old ++ users_head) }
{
    writeln!(text, "\n{:<16} {:<10} {:<16} home", "user", "may", "group")
}

fn write_user(alloc: Global, text: &mut String, user: &UserTable) -> Result<(), AllocError>
    ensures line { OnOk result
        (string_bytes text.new ≡ string_bytes text.old ++ user_line user.now) }
{
    let group = user.group.unwrap_or("-");
    let letters = ordered(alloc, user.perms)?;
    writeln!(
        text,
        "{:<16} {:<10} {:<16} {}",
        user.name, letters, group, user.home
    )
}

/// The paths that an override covers, from its own.
fn reach(rule: &OverrideTable) -> &'static str
    ensures reach { result.now ≡ reach_text rule.now }
{
    if rule.recursive {
        "and all beneath it"
    } else {
        "and the entries in it"
    }
}

fn write_override(alloc: Global, text: &mut String, rule: &OverrideTable) -> Result<(), AllocError>
    ensures line { OnOk result
        (string_bytes text.new ≡ string_bytes text.old ++ override_line rule.now) }
{
    let letters = ordered(alloc, rule.perms)?;
    let reach = reach(rule);
    writeln!(text, "  {:<14} {:<10} {}", rule.path, letters, reach)
}

fn write_overrides(
    alloc: Global,
    text: &mut String,
    rules: &[OverrideTable],
) -> Result<(), AllocError>
    ensures lines { OnOk result
        (string_bytes text.new ≡ string_bytes text.old ++ flat_map override_line rules.now) }
{
    for rule in rules {
        write_override(alloc, text, rule)?;
    }
    Ok(())
}

/// Writes a text of a reply, unless it is the usual one.
fn write_text(text: &mut String, head: &str, usual: &str, reported: &str) -> Result<(), AllocError>
    ensures line { OnOk result
        (string_bytes text.new ≡ string_bytes text.old
        ++ text_line head.now usual.now reported.now) }
{
    if reported == usual {
        return Ok(());
    }
    writeln!(text, "{head}{reported}")
}

fn write_login(text: &mut String, user: &UserTable) -> Result<(), AllocError>
    ensures line { OnOk result
        (string_bytes text.new ≡ string_bytes text.old ++ login_line user.now) }
{
    write_text(text, "  at login: ", "Welcome", user.msg_login)
}

fn write_quit(text: &mut String, user: &UserTable) -> Result<(), AllocError>
    ensures line { OnOk result
        (string_bytes text.new ≡ string_bytes text.old ++ quit_line user.now) }
{
    write_text(text, "  at QUIT: ", "Goodbye", user.msg_quit)
}

fn write_row(alloc: Global, text: &mut String, row: &SeenUser) -> Result<(), AllocError>
    ensures lines { OnOk result
        (string_bytes text.new ≡ string_bytes text.old ++ user_lines row.now) }
{
    write_user(alloc, text, row.user)?;
    write_overrides(alloc, text, row.overrides)?;
    write_login(text, row.user)?;
    write_quit(text, row.user)?;
    Ok(())
}

/// Writes the lines of users.
pub(crate) fn write_users(
    alloc: Global,
    text: &mut String,
    rows: &[SeenUser],
) -> Result<(), AllocError>
    ensures lines { OnOk result
        (string_bytes text.new ≡ string_bytes text.old ++ flat_map user_lines rows.now) }
{
    for row in rows {
        write_row(alloc, text, row)?;
    }
    Ok(())
}
