//! The report on a change, from the texts of two configurations.

ghost use Rattle.std.specs.Prelude.{◌≡◌, IfErr, IfOk, Some, length, string_bytes};
ghost use Rattle.toml.specs.Parse.{parse_document};
ghost use Rattle.toml.specs.View.{table_view};
ghost use Rattle.server_config.specs.Configs.{IsConfigText};
ghost use Rattle.server_config.specs.Refused.{IsFaultOfText};
ghost use Rattle.server_config.specs.declared.config.Config.{Config};
ghost use Rattle.server_config.specs.declared.fault.ConfigFault.TheVariants.{Memory};
ghost use Rattle.change_report.specs.Reports.{HasTables, IsChangeFault, IsDocument, IsReportIn, IsReportOf, IsWritten};

use crate::changes::{Changes, changes_of};
use crate::fault::ChangeFault;
use crate::lines::lines_of;
use crate::values::json_of;
use config_file::{Tables, read_tables};
use server_config::{Config, ConfigFault};
use std::alloc::{AllocError, Global};
use toml::Table;

/// The report on a change.
#[derive(Drop)]
pub struct ChangeReport {
    /// The report, as lines or as JSON.
    pub text: String,
    /// A server would refuse the new configuration, whoever is connected.
    pub is_refused: bool,
}

/// The document of a text that is a configuration.
fn judged(alloc: Global, octets: &[u8]) -> Result<Table, ConfigFault>
    ensures document { IfOk result (λ table. IsDocument octets.now (table_view table)) }
    ensures refused { IfErr result (IsFaultOfText octets.now) }
{
    let _config = Config::read(alloc, octets)?;
    match toml::table_from_slice(alloc, octets) {
        Ok(table) => Ok(table),
        Err(_) => Err(ConfigFault::Memory),
    }
}

/// The tables of a document that was judged before. Only memory can run out.
fn tables_of<'a>(alloc: Global, document: &'a Table) -> Result<Tables<'a>, AllocError>
    ensures tables { IfOk result (HasTables (table_view document.now)) }
    ensures paired { IfOk result
        (λ tables. length tables.overrides.items ≡ length tables.users.items) }
{
    match read_tables(alloc, document) {
        Ok(tables) => Ok(tables),
        Err(_) => Err(AllocError),
    }
}

/// The text of the report, as JSON or in lines.
fn text_of(alloc: Global, json: bool, changes: &Changes<'_>) -> Result<String, AllocError>
    ensures text { IfOk result (λ text. IsWritten json changes.now (string_bytes text)) }
{
    if json {
        json_of(alloc, changes)
    } else {
        lines_of(alloc, changes)
    }
}

/// The report on two documents that were judged before. Only memory can run out.
fn report_of(
    alloc: Global,
    json: bool,
    new: &Table,
    old: &Table,
) -> Result<ChangeReport, AllocError>
    ensures report { IfOk result
        (IsReportIn json (table_view old.now) (table_view new.now)) }
{
    let after = tables_of(alloc, new)?;
    let before = tables_of(alloc, old)?;
    let changes = changes_of(alloc, &before, &after)?;
    let text = text_of(alloc, json, &changes)?;
    Ok(ChangeReport {
        text,
        is_refused: changes.is_refused(),
    })
}

/// Returns the report on what a server that has the configuration of `old` since its start would change if it read that
/// of `new`, in lines or as JSON. `Err` is the first fault of the new text, or otherwise of the old one, if one of them is
/// refused; or lack of memory.
pub fn reload_report(
    alloc: Global,
    json: bool,
    new: &[u8],
    old: &[u8],
) -> Result<ChangeReport, ChangeFault>
    ensures report { IfOk result (IsReportOf json old.now new.now) }
    ensures refused { IfErr result (IsChangeFault old.now new.now) }
{
    let after = match judged(alloc, new) {
        Ok(document) => document,
        Err(fault) => return Err(ChangeFault::New(fault)),
    };
    let before = match judged(alloc, old) {
        Ok(document) => document,
        Err(fault) => return Err(ChangeFault::Old(fault)),
    };
    match report_of(alloc, json, &after, &before) {
        Ok(report) => Ok(report),
        Err(_) => Err(ChangeFault::New(ConfigFault::Memory)),
    }
}
