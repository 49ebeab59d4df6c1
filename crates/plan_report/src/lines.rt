//! The lines of a plan.

ghost use Rattle.std.specs.Prelude.{◌≡◌, ◌++◌, OnOk, string_bytes};
ghost use Rattle.plan_report.specs.PlanData.{group_text, held_text, user_text, way_text};

use crate::parts::{Part, parts_of, total_of};
use config_file::{GroupTable, ServerTable, UserTable};
use line_rates::{Name, ShareBy, Way};
use rate_columns::{write_megabits, write_megabits_column, write_rate_column};
use rate_plan::TransferShare;
use std::alloc::{AllocError, Global};

/// The tables of a configuration that name who is planned for.
#[derive(Clone, Copy)]
pub(crate) struct Named<'t, 'a> {
    pub server: &'t ServerTable<'a>,
    pub groups: &'t [GroupTable<'a>],
    pub users: &'t [UserTable<'a>],
}

pub(crate) fn way_text(way: Way) -> &'static str
    ensures text { result.now ≡ way_text way }
{
    match way {
        Way::Down => "down",
        Way::Up => "up",
    }
}

pub(crate) fn user_name<'a>(named: Named<'_, 'a>, user: u32) -> &'a str
    ensures name { result.now ≡ user_text named.entry.users.now user }
{
    match named.users.get(user as usize) {
        Some(table) => table.name,
        None => "?",
    }
}

fn group_name<'a>(named: Named<'_, 'a>, group: u32) -> &'a str
    ensures name { result.now ≡ group_text named.entry.groups.now group }
{
    match named.groups.get(group as usize) {
        Some(table) => table.name,
        None => "?",
    }
}

/// Writes a limit: `server`, or what it limits and the direction; `want` for none.
pub(crate) fn write_held(
    text: &mut String,
    named: Named<'_, '_>,
    held: Option<Name>,
) -> Result<(), AllocError>
    ensures held { OnOk result (string_bytes text.new
        ≡ string_bytes text.old ++ held_text named.entry.groups.now named.entry.users.now held) }
{
    match held {
        None => text.push_str("want"),
        Some(Name::Server) => text.push_str("server"),
        Some(Name::Direction(way)) => write!(text, "server {}", way_text(way)),
        Some(Name::Group(way, group)) => {
            write!(text, "group {} {}", group_name(named, group), way_text(way))
        }
        Some(Name::User(way, user)) => {
            write!(text, "user {} {}", user_name(named, user), way_text(way))
        }
        Some(Name::Session(way, _, _)) => write!(text, "session {}", way_text(way)),
    }
}

/// The last line of a plan among users.
const AMONG_USERS: &str =
    "shared among users: one share each way, and one for all who are anonymous\n";

fn write_part(text: &mut String, named: Named<'_, '_>, part: Part) -> Result<(), AllocError> {
    let (count, grant) = (part.count, part.grant);
    write!(
        text,
        "{:<16} {:<5} {count:>3} x {grant:>13}",
        user_name(named, part.user),
        way_text(part.way)
    )?;
    write_rate_column(text, part.floor)?;
    write_megabits_column(text, grant)?;
    write_megabits_column(text, part.floor)?;
    text.push_str("  ")?;
    write_held(text, named, part.held)?;
    text.push('\n')
}

/// Writes a total within the rate that bounds it; 0 is no rate.
fn write_total(text: &mut String, way: &str, total: u64, rate: u64) -> Result<(), AllocError> {
    write!(text, "{:<16} {way:<5} {:>19}", "total", total)?;
    if rate != 0 {
        write!(text, " of {rate}")?;
    }
    text.push_str(", ")?;
    write_megabits(text, total)?;
    if rate != 0 {
        text.push_str(" of ")?;
        write_megabits(text, rate)?;
    }
    text.push_str(" Mbit/s\n")
}

/// Writes the total of one way, if there are transfers of it.
fn write_way(
    text: &mut String,
    way: Way,
    shares: &[TransferShare],
    rate: u64,
) -> Result<(), AllocError> {
    for share in shares {
        if share.ask.way == way {
            return write_total(text, way_text(way), total_of(shares, way), rate);
        }
    }
    Ok(())
}

fn write_both(text: &mut String, shares: &[TransferShare], rate: u64) -> Result<(), AllocError> {
    if rate == 0 {
        return Ok(());
    }
    let total = total_of(shares, Way::Down).saturating_add(total_of(shares, Way::Up));
    write_total(text, "both", total, rate)
}

/// The lines of a plan: a head, one for each part, and the totals; among users, whose shares they are.
pub(crate) fn lines_of(
    alloc: Global,
    named: Named<'_, '_>,
    share_by: ShareBy,
    shares: &[TransferShare],
) -> Result<String, AllocError> {
    let parts = parts_of(alloc, shares)?;
    let mut text = String::new(alloc);
    writeln!(
        &mut text,
        "{:<16} {:<5} {:>19}{:>14}{:>12}{:>12}  held by",
        "octets a second", "", "each", "guaranteed", "Mbit/s each", "guaranteed"
    )?;
    for part in &parts {
        write_part(&mut text, named, *part)?;
    }
    write_way(&mut text, Way::Down, shares, named.server.down_rate)?;
    write_way(&mut text, Way::Up, shares, named.server.up_rate)?;
    write_both(&mut text, shares, named.server.rate)?;
    if share_by == ShareBy::Users {
        text.push_str(AMONG_USERS)?;
    }
    Ok(text)
}
