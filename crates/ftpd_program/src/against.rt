//! The command that reports what a server with one configuration would change if it read another one.

ghost use Rattle.std.specs.Prelude.{◌≡◌, ◌↔◌, ◌⊎◌, ℕ, List, Option, IfErr, IfOk, IsTrue};
ghost use Rattle.change_report.specs.Reports.{IsChangeFault};
ghost use Rattle.sheets_program.specs.Runs.{IsNamedTwice};
ghost use Rattle.ftpd_program.specs.Against.{IsAgainstEnd, IsChangeEnd, IsChangeWritten, IsRefusedChange, IsTextIn, IsUnread};
ghost use Rattle.ftpd_program.specs.Causes.{AreAgainstOpened, IsAgainstWhy, IsReadWhy};
ghost use Rattle.ftpd_program.specs.Endings.{IsUnwritten};
ghost use Rattle.ftpd_program.specs.declared.ending.FtpdExit.TheVariants.{Common as CommonExit};

use crate::ending::FtpdExit;
use change_report::{ChangeFault, ChangeReport, reload_report};
use server_config::ConfigFault;
use sheets_program::{Exit as Common, Opener, is_input, text_cause};
use std::alloc::Global;
use text_io::{TextFault, TextWriter, read_whole, write_whole};

/// Path at which a server of the package keeps the text of the configuration that it has.
pub const RUNNING_FILE: &str = "/run/ftpd/running.toml";

const READ_TWICE: &str = "error: standard input cannot be both configurations\n";

/// Reads the text of a file whole; the file is then closed. `Err` is the ending of the command without it.
fn text_at<'w, O: Opener>(
    alloc: Global,
    path: &'w str,
    files: &mut O,
) -> Result<Vec<u8>, Common<'w>>
    ensures text { IfOk result (λ octets. IsTextIn (O.Gives files.old path.now) octets.items) }
    ensures unread { IfErr result (IsUnread (O.Gives files.old path.now) path.now) }
    ensures why { IfErr result (λ ending. IsReadWhy path.now
        (O.MayRefuse files.old path.now ⊎ O.MayFail files.old path.now) (CommonExit ending)) }
    ensures opened { O.Opens files.old path.now files.new }
    ensures stays { (other : List ℕ) (octets : Option (List ℕ))
        → O.Gives files.new other octets → O.Gives files.old other octets }
    ensures no_more_refused { (other : List ℕ)
        → O.MayRefuse files.new other → O.MayRefuse files.old other }
    ensures no_more_fail { (other : List ℕ)
        → O.MayFail files.new other → O.MayFail files.old other }
{
    let mut file = match files.open(path) {
        Ok(file) => file,
        Err(error) => {
            let cause = text_cause(TextFault::ReadFault, path, Some(error));
            return Err(Common::Text(TextFault::ReadFault, cause));
        }
    };
    match read_whole(alloc, &mut file) {
        Ok(octets) => Ok(octets),
        Err(fault) => {
            let cause = text_cause(fault, path, O::reason(&file));
            Err(Common::Text(fault, cause))
        }
    }
}

/// Writes a report, and returns whether a server would refuse the new configuration, as an ending.
fn written<'w, W: TextWriter>(report: &ChangeReport, path: &'w str, output: &mut W) -> FtpdExit<'w>
    ensures end { IsChangeWritten report.now (W.may_refuse output.old)
        (W.contents output.old) (W.contents output.new) result }
    ensures unwritten { IsUnwritten result → output.new ≡ output.old }
{
    match write_whole(report.text.as_str(), output) {
        Ok(()) => {
            if report.is_refused {
                FtpdExit::NoReload
            } else {
                FtpdExit::Common(Common::Done)
            }
        }
        Err(fault) => FtpdExit::Common(Common::Text(fault, text_cause(fault, path, None))),
    }
}

/// The ending for the fault of one of two configurations, whose files have these paths.
fn refused<'w>(fault: ChangeFault, config: &'w str, other: &'w str) -> FtpdExit<'w>
    ensures end { (new old : List ℕ) → IsChangeFault old new fault
        → IsRefusedChange config.now other.now new old result }
    ensures unwritten { IsUnwritten result }
{
    match fault {
        ChangeFault::New(ConfigFault::Memory) | ChangeFault::Old(ConfigFault::Memory) => {
            FtpdExit::Common(Common::out_of_memory())
        }
        ChangeFault::New(fault) => FtpdExit::ConfigOf {
            file: config,
            fault,
        },
        ChangeFault::Old(fault) => FtpdExit::ConfigOf { file: other, fault },
    }
}

/// Reports on the change from one text to another, whose files have these paths.
fn changed<'w, W: TextWriter>(
    alloc: Global,
    json: bool,
    config: &'w str,
    other: &'w str,
    new: &[u8],
    old: &[u8],
    output: &mut W,
) -> FtpdExit<'w>
    ensures end { IsChangeEnd json config.now other.now new.now old.now
        (W.may_refuse output.old) (W.contents output.old) (W.contents output.new) result }
    ensures unwritten { IsUnwritten result → output.new ≡ output.old }
{
    match reload_report(alloc, json, new, old) {
        Ok(report) => written(&report, config, output),
        Err(fault) => refused(fault, config, other),
    }
}

/// Returns whether both paths name standard input, which can be read only once.
fn is_named_twice(config: &str, other: &str) -> bool
    ensures { IsTrue result ↔ IsNamedTwice config.now other.now }
{
    is_input(config) && is_input(other)
}

/// Runs `check-config` with another configuration. The new one is read whole, and its file is closed; and then the other
/// one.
pub(crate) fn check_against<'w, O: Opener, W: TextWriter>(
    alloc: Global,
    json: bool,
    config: &'w str,
    other: &'w str,
    files: &mut O,
    output: &mut W,
) -> FtpdExit<'w>
    ensures end { IsAgainstEnd json (O.Gives files.old) config.now other.now
        (W.may_refuse output.old) (W.contents output.old) (W.contents output.new) result }
    ensures why { IsAgainstWhy (O.MayRefuse files.old) (O.MayFail files.old)
        config.now other.now result }
    ensures opened { AreAgainstOpened O.Opens files.old files.new config.now other.now result }
    ensures unwritten { IsUnwritten result → output.new ≡ output.old }
{
    if is_named_twice(config, other) {
        return FtpdExit::Common(Common::refused(alloc, READ_TWICE));
    }
    let new = match text_at(alloc, config, files) {
        Ok(text) => text,
        Err(ending) => return FtpdExit::Common(ending),
    };
    let old = match text_at(alloc, other, files) {
        Ok(text) => text,
        Err(ending) => return FtpdExit::Common(ending),
    };
    changed(
        alloc,
        json,
        config,
        other,
        new.as_slice(),
        old.as_slice(),
        output,
    )
}
