//! The report on a configuration, from its text.

ghost use Rattle.std.specs.Prelude.{◌≡◌, IfErr, IfOk, length, string_bytes};
ghost use Rattle.server_config.specs.Refused.{IsFaultOfText};
ghost use Rattle.server_config.specs.declared.fault.ConfigFault.TheVariants.{Memory};
ghost use Rattle.config_report.specs.Reports.{AreWarningsOf, IsReport, IsReportJson, IsReportOf, IsReportedBy};

use crate::lines::{lines_of, warning_rows};
use crate::looks::Lookout;
use crate::seen::{Seen, seen_of};
use crate::values::json_text;
use crate::warnings::warnings_of;
use config_file::{Tables, read_tables};
use line_rates::ShareBy;
use server_config::{Config, ConfigFault, ServedStore};
use std::alloc::{AllocError, Global};

/// A part of a report, in its form.
#[derive(Clone, Copy, Debug, PartialEq, Eq)]
pub(crate) enum Part {
    /// All of its lines.
    Whole,
    /// The whole, as JSON.
    Json,
    /// The texts of its warnings, a line each.
    Warnings,
}

/// Returns a part of the report on tables, for a line that is shared in that way.
fn text_of(
    alloc: Global,
    part: Part,
    share_by: ShareBy,
    tables: &Tables,
    seen: &Seen<'_, '_>,
) -> Result<String, AllocError>
    ensures text { IfOk result
        (λ text. IsReportedBy part share_by tables.now seen.now (string_bytes text)) }
{
    let (groups, users) = (tables.groups.as_slice(), tables.users.as_slice());
    let (server, rows) = (&tables.server, seen.users.as_slice());
    let warnings = warnings_of(alloc, share_by, server, groups, seen.root, seen.mode, rows)?;
    let reported = warnings.as_slice();
    match part {
        Part::Whole => lines_of(alloc, tables, groups, users, rows, reported),
        Part::Json => json_text(alloc, tables, groups, rows, reported),
        Part::Warnings => warning_rows(alloc, reported),
    }
}

/// Returns a part of the report on a text that was read as a configuration before. Only memory can run out.
fn reported_of<L: Lookout>(
    alloc: Global,
    part: Part,
    share_by: ShareBy,
    path: &str,
    octets: &[u8],
    lookout: &L,
    store: &mut ServedStore,
) -> Result<String, ConfigFault>
    ensures report { IfOk result (λ text. IsReport part share_by (L.Shows lookout.now) path.now
        octets.now store.old (string_bytes text)) }
    ensures memory { IfErr result (λ fault. fault ≡ Memory) }
{
    let Ok(document) = toml::table_from_slice(alloc, octets) else {
        return Err(ConfigFault::Memory);
    };
    let Ok(tables) = read_tables(alloc, &document) else {
        return Err(ConfigFault::Memory);
    };
    let Ok(seen) = seen_of(alloc, lookout, path, store, &tables) else {
        return Err(ConfigFault::Memory);
    };
    match text_of(alloc, part, share_by, &tables, &seen) {
        Ok(text) => Ok(text),
        Err(_) => Err(ConfigFault::Memory),
    }
}

/// Returns the report on the configuration of a text, with its warnings. The text is that of the file of a path, and the
/// lookout looks at the machine. `share_by` is the way in which the line is to be shared, for the warnings of it. `Err`
/// is the first fault of a text that is refused, or lack of memory.
pub fn report<L: Lookout>(
    alloc: Global,
    share_by: ShareBy,
    path: &str,
    octets: &[u8],
    lookout: &L,
) -> Result<String, ConfigFault>
    ensures report { IfOk result (λ text. IsReportOf share_by (L.Shows lookout.now) path.now
        octets.now (string_bytes text)) }
    ensures refused { IfErr result (IsFaultOfText octets.now) }
{
    let mut config = Config::read(alloc, octets)?;
    reported_of(
        alloc,
        Part::Whole,
        share_by,
        path,
        octets,
        lookout,
        &mut config.store,
    )
}

/// Returns the same report as JSON, and a line feed.
pub fn report_json<L: Lookout>(
    alloc: Global,
    share_by: ShareBy,
    path: &str,
    octets: &[u8],
    lookout: &L,
) -> Result<String, ConfigFault>
    ensures report { IfOk result (λ text. IsReportJson share_by (L.Shows lookout.now) path.now
        octets.now (string_bytes text)) }
    ensures refused { IfErr result (IsFaultOfText octets.now) }
{
    let mut config = Config::read(alloc, octets)?;
    reported_of(
        alloc,
        Part::Json,
        share_by,
        path,
        octets,
        lookout,
        &mut config.store,
    )
}

/// Returns the texts of the warnings of the report on the configuration of a text, for a line that is shared among
/// sessions, a line each, without the word that is before them in the report. `Err` is the first fault of a text that is refused, or lack of memory.
pub fn warning_texts<L: Lookout>(
    alloc: Global,
    path: &str,
    octets: &[u8],
    lookout: &L,
) -> Result<String, ConfigFault>
    ensures warnings { IfOk result
        (λ text. AreWarningsOf (L.Shows lookout.now) path.now octets.now (string_bytes text)) }
    ensures refused { IfErr result (IsFaultOfText octets.now) }
{
    let mut config = Config::read(alloc, octets)?;
    reported_of(
        alloc,
        Part::Warnings,
        ShareBy::Sessions,
        path,
        octets,
        lookout,
        &mut config.store,
    )
}
