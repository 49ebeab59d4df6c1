//! The commands that print a text about a file: a configuration, or the status of a server.

ghost use Rattle.std.specs.Prelude.{◌≡◌, ◌≢◌, ◌<◌, ℕ, List, true, IfErr, IfOk, IfSome, IsErrOf, OnOk, length, string_bytes};
ghost use Rattle.text_io.specs.Texts.{IsTextOf};
ghost use Rattle.ftpd_program.specs.Printing.{AppendsPrint, IsPlanRefusal, IsPrintFault, IsPrintOf, IsPrintRefusal, IsTableRefusal};
ghost use Rattle.ftpd_program.specs.Watching.{IsTableOf};
ghost use Rattle.plan_report.specs.Reports.{IsNoPlan, IsPlanJson, IsPlanReport};

use command_line::ShareBy;
use config_report::{Lookout, report, report_json};
use plan_report::{NoPlan, plan_json, plan_lines};
use server_config::{ConfigFault, migrate};
use server_status::{StatusFault, read_status};
use status_table::table_lines;
use std::alloc::Global;
use text_io::{MAX_TEXT, TextFault, TextReader, TextWriter, read_whole, write_whole};

/// A text about a configuration, or about the status of a server.
#[derive(Clone, Copy, Debug, PartialEq, Eq)]
pub enum Print<'w> {
    /// The report on it, with its warnings, for a line that is shared among these; the path of its file.
    Report(&'w str, ShareBy),
    /// The same report as JSON.
    ReportJson(&'w str, ShareBy),
    /// Its text in version 2.
    Latest,
    /// The plan of the transfers that a word states, in lines, of a line that is shared among these.
    Plan(&'w str, ShareBy),
    /// The same plan as JSON.
    PlanJson(&'w str, ShareBy),
    /// The table of the transfers of a status, in at most this number of lines.
    Table(u16),
}

/// The reason for which no text about a file is printed.
#[derive(Debug, Drop)]
pub enum PrintFault {
    /// The file could not be read whole, the output could not be written, or memory ran out.
    Text(TextFault),
    /// The configuration is refused, or its text in version 2 could not be read back.
    Config(ConfigFault),
    /// Transfers are refused: the name of the fault, and what is wrong with them.
    Transfers {
        name: &'static str,
        reported: String,
    },
    /// The file has no status of a server.
    Status(StatusFault),
}

fn unplanned(fault: NoPlan) -> PrintFault
    ensures refused { (text : List ℕ) → IsNoPlan text fault → IsPlanRefusal text result }
{
    match fault {
        NoPlan::Config(fault) => PrintFault::Config(fault),
        NoPlan::Transfers { name, reported } => PrintFault::Transfers { name, reported },
        NoPlan::Memory => PrintFault::Text(TextFault::Memory),
    }
}

/// Returns the plan of transfers by the configuration of these octets, in lines.
fn plan_about(
    alloc: Global,
    transfers: &str,
    share_by: ShareBy,
    octets: &[u8],
) -> Result<String, PrintFault>
    ensures prints { IfOk result (λ _. IsPlanReport share_by octets.now) }
    ensures refused { IfErr result (IsPlanRefusal octets.now) }
{
    match plan_lines(alloc, octets, share_by, transfers) {
        Ok(text) => Ok(text),
        Err(fault) => Err(unplanned(fault)),
    }
}

/// Returns the same plan as JSON.
fn plan_json_about(
    alloc: Global,
    transfers: &str,
    share_by: ShareBy,
    octets: &[u8],
) -> Result<String, PrintFault>
    ensures prints { IfOk result (λ text. IsPlanJson share_by octets.now (string_bytes text)) }
    ensures refused { IfErr result (IsPlanRefusal octets.now) }
{
    match plan_json(alloc, octets, share_by, transfers) {
        Ok(text) => Ok(text),
        Err(fault) => Err(unplanned(fault)),
    }
}

/// Fewest lines of a table.
const LEAST_LINES: usize = 6;

/// Returns the table of the transfers of the status of these octets, each with its rate since its begin.
fn table_about(alloc: Global, rows: u16, octets: &[u8]) -> Result<String, PrintFault>
    ensures prints { IfOk result (λ text. IsTableOf rows octets.now (string_bytes text)) }
    ensures refused { IfErr result (IsTableRefusal octets.now) }
{
    let status = match read_status(alloc, octets) {
        Ok(status) => status,
        Err(StatusFault::Memory) => return Err(PrintFault::Text(TextFault::Memory)),
        Err(fault) => return Err(PrintFault::Status(fault)),
    };
    let lines = usize::from(rows).max(LEAST_LINES);
    match table_lines(alloc, None, None, &status, lines) {
        Ok(text) => Ok(text),
        Err(_) => Err(PrintFault::Text(TextFault::Memory)),
    }
}

/// Returns the text about the file of these octets.
fn text_about<L: Lookout>(
    alloc: Global,
    print: Print<'_>,
    octets: &[u8],
    lookout: &L,
) -> Result<String, PrintFault>
    ensures prints { IfOk result (λ text.
        IsPrintOf print.entry (L.Shows lookout.now) octets.now (string_bytes text)) }
    ensures refused { IfErr result (IsPrintRefusal print.entry octets.now) }
{
    let text = match print {
        Print::Report(path, by) => report(alloc, by, path, octets, lookout),
        Print::ReportJson(path, by) => report_json(alloc, by, path, octets, lookout),
        Print::Latest => migrate(alloc, octets),
        Print::Plan(transfers, by) => return plan_about(alloc, transfers, by, octets),
        Print::PlanJson(transfers, by) => return plan_json_about(alloc, transfers, by, octets),
        Print::Table(rows) => return table_about(alloc, rows, octets),
    };
    match text {
        Ok(text) => Ok(text),
        Err(ConfigFault::Memory) => Err(PrintFault::Text(TextFault::Memory)),
        Err(fault) => Err(PrintFault::Config(fault)),
    }
}

/// Reads a file, and writes a text about it; if the file is refused, nothing is written. A fault other than the output's
/// own comes before the first octet is written. The lookout looks at the machine for a report.
///
/// `TooLong`: the file has more than `MAX_TEXT` octets. `ReadFault`: a read of it failed. `WriteFault`: the
/// writer refuses this text.
pub fn run_print<R: TextReader, W: TextWriter, L: Lookout>(
    alloc: Global,
    print: Print<'_>,
    reader: &mut R,
    writer: &mut W,
    lookout: &L,
) -> Result<(), PrintFault>
    ensures printed { OnOk result (AppendsPrint print.entry (L.Shows lookout.now)
        (R.remaining reader.old) (W.contents writer.old) (W.contents writer.new)) }
    ensures refused { IfErr result (IsPrintFault print.entry (R.remaining reader.old)) }
    ensures too_long { IsErrOf result (PrintFault.Text TextFault.TooLong)
        → IfSome (R.remaining reader.old) (λ text. MAX_TEXT < length text) }
    ensures read_fault { IsErrOf result (PrintFault.Text TextFault.ReadFault)
        → R.may_fail reader.old ≡ true }
    ensures write_fault { IsErrOf result (PrintFault.Text TextFault.WriteFault)
        → (text printed : List ℕ) × IsTextOf text (R.remaining reader.old)
        × IsPrintOf print.entry (L.Shows lookout.now) text printed
        × W.may_refuse writer.old printed }
    ensures unwritten { IfErr result (λ fault. fault ≢ PrintFault.Text TextFault.WriteFault
        → writer.new ≡ writer.old) }
{
    let octets = match read_whole(alloc, reader) {
        Ok(octets) => octets,
        Err(fault) => return Err(PrintFault::Text(fault)),
    };
    let text = match text_about(alloc, print, octets.as_slice(), lookout) {
        Ok(text) => text,
        Err(fault) => return Err(fault),
    };
    match write_whole(text.as_str(), writer) {
        Ok(()) => Ok(()),
        Err(fault) => Err(PrintFault::Text(fault)),
    }
}
