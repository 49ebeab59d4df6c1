//! The transfer logs that are added up.

ghost use Rattle.std.specs.Prelude.{◌≡◌};
ghost use Rattle.ftpd_program.specs.declared.ending.FtpdExit.TheVariants.{AddsUp as AddsUpEnd};
ghost use Rattle.machine_parts.specs.LookedFile.{IsTextEnding};
ghost use Rattle.machine_parts.specs.UsageFiles.{IsTooMuch, IsUnreported};

use ftpd_program::{FtpdExit, Opener, UsageWords, read_usage_words};
use sheets_program::{Exit as Common, Machine, Noted, Opened, report, text_cause};
use std::alloc::Global;
use std::io;
use std::io::{BufReader, Write};
use std::rt::Files;
use text_io::{FallibleIo, TextFault, write_whole};
use usage_report::{AskWords, LogSource, NoUsage, usage_text};

/// The transfer logs of the machine.
#[derive(Drop)]
struct LogFiles<'r> {
    machine: &'r HostRuntime,
    files: Machine<'r, HostRuntime>,
}

impl LogSource for LogFiles<'_> {
    type Log = BufReader<
        Noted<Opened<<HostRuntime as Files>::File, <HostRuntime as Input>::Reader>>,
    >;

    fn open(
        &mut self,
        path: &str,
    ) -> io::Result<
        BufReader<Noted<Opened<<HostRuntime as Files>::File, <HostRuntime as Input>::Reader>>>,
    > {
        let log = self.files.open(path)?;
        BufReader::new(self.machine.alloc(), log.0)
    }
}

fn read_ending(fault: TextFault, path: &str, reason: Option<io::Error>) -> FtpdExit<'_>
    ensures ending { IsTextEnding fault path.now result }
{
    FtpdExit::Common(Common::Text(fault, text_cause(fault, path, reason)))
}

fn too_much<'w>(alloc: Global, path: &str) -> FtpdExit<'w>
    ensures much { IsTooMuch path.now result }
{
    let text = format!(in alloc; "{path}: the sums are not below 2^64");
    match text {
        Ok(reported) => FtpdExit::Transfers {
            name: "TooMuch",
            reported,
        },
        Err(_) => FtpdExit::Common(Common::out_of_memory()),
    }
}

/// The ending without a report.
fn unreported<'w>(alloc: Global, fault: NoUsage<'w>) -> FtpdExit<'w>
    ensures end { IsUnreported fault.entry result }
{
    match fault {
        NoUsage::Refused(text) => FtpdExit::Common(Common::Refused(text)),
        NoUsage::Log { path, error } => read_ending(TextFault::ReadFault, path, Some(error)),
        NoUsage::TooMuch { path } => too_much(alloc, path),
        NoUsage::Memory => FtpdExit::Common(Common::out_of_memory()),
    }
}

/// The words that ask for the report.
fn ask_of<'w>(stated: &UsageWords<'w>) -> AskWords<'w>
    ensures ask { result ≡ record {
      by = stated.now.by;
      day = stated.now.day;
      first = stated.now.first;
      json = stated.now.json;
      csv = stated.now.csv;
    } }
{
    AskWords {
        by: stated.by,
        day: stated.day,
        first: stated.first,
        json: stated.json,
        csv: stated.csv,
    }
}

/// Writes the report on the logs that the words name. Returns the ending.
fn usage<'w, W: Write>(
    machine: &HostRuntime,
    stated: &UsageWords<'w>,
    output: &mut FallibleIo<W>,
) -> FtpdExit<'w> {
    let words = ask_of(stated);
    let mut source = LogFiles {
        machine,
        files: Machine { rt: machine },
    };
    match usage_text(machine.alloc(), &words, stated.logs.as_slice(), &mut source) {
        Ok(text) => match write_whole(text.as_str(), output) {
            Ok(()) => FtpdExit::Common(Common::Done),
            Err(fault) => read_ending(fault, "", None),
        },
        Err(fault) => unreported(machine.alloc(), fault),
    }
}

/// Adds up the logs that the words name, if the ending of the command asks for it. Returns the ending.
pub fn added_up<'w, W: Write>(
    machine: &HostRuntime,
    words: &'w [&'w str],
    ending: FtpdExit<'w>,
    output: &mut FallibleIo<W>,
) -> FtpdExit<'w>
    ensures other { (ending.entry ≡ AddsUpEnd → ⊥) → result ≡ ending.entry }
    ensures unwritten { (ending.entry ≡ AddsUpEnd → ⊥) → output.new ≡ output.old }
{
    let FtpdExit::AddsUp = ending else {
        return ending;
    };
    match read_usage_words(machine.alloc(), words) {
        Ok(Some(stated)) => usage(machine, &stated, output),
        Ok(None) => FtpdExit::AddsUp,
        Err(fault) => FtpdExit::Common(report(fault, output)),
    }
}
