//! The logs that are added up.

ghost use Rattle.std.specs.Prelude.{◌≡◌, ◌++◌, ◌∷◌, [], ℕ, List, Option, IfOk, OnOk};
ghost use Rattle.usage_report.specs.Reports.{IsOneTaken, TakesLogs};
ghost use Rattle.usage_report.specs.declared.report.LogSeen.{LogSeen};

use crate::fault::UsageFault;
use crate::report::LogSeen;
use crate::usage::Usage;
use std::alloc::Global;
use std::io;
use std::io::BufRead;

/// Opens the logs of paths.
pub trait LogSource {
    type Log: BufRead + Drop;

    /// The octets that the log of a path may have; None for unknown octets.
    ghost Gives: { Self → List ℕ → Option (List ℕ) → Type 0 } = { λ _ _ _. Unit {0} };

    /// Opens the log of a path, or returns the machine's error. The octets of logs do not change.
    fn open(&mut self, path: &str) -> io::Result<Self::Log>
        ensures gives { IfOk result (λ log. Gives self.old path.now (Self.Log.remaining log)) }
        ensures stays { (other : List ℕ) (octets : Option (List ℕ))
            → Gives self.new other octets → Gives self.old other octets };
}

/// The reason for which there is no report on logs.
#[derive(Debug, Drop)]
pub enum NoUsage<'p> {
    /// The words ask for no report; the text has the reason, and ends its line.
    Refused(String),
    /// The log of this path could not be opened or read.
    Log { path: &'p str, error: io::Error },
    /// A sum is not below 2^64 with the log of this path.
    TooMuch { path: &'p str },
    /// Memory ran out.
    Memory,
}

fn no_usage(path: &str, fault: UsageFault) -> NoUsage<'_> {
    match fault {
        UsageFault::Read(error) => NoUsage::Log { path, error },
        UsageFault::TooMuch => NoUsage::TooMuch { path },
        UsageFault::Memory => NoUsage::Memory,
    }
}

// Adds the log of a path.
fn add_log<'p, S: LogSource>(
    alloc: Global,
    usage: &mut Usage,
    path: &'p str,
    source: &mut S,
) -> Result<LogSeen<'p>, UsageFault>
    ensures taken { IfOk result (IsOneTaken (S.Gives source.old) usage.old usage.new path.entry) }
    ensures stays { (other : List ℕ) (octets : Option (List ℕ))
        → S.Gives source.new other octets → S.Gives source.old other octets }
{
    let mut log = match source.open(path) {
        Ok(log) => log,
        Err(error) => return Err(UsageFault::Read(error)),
    };
    let look = usage.take_log(alloc, &mut log)?;
    Ok(LogSeen { path, look })
}

// Adds the log of a path, and keeps what was seen of it.
fn add_next<'p, S: LogSource>(
    alloc: Global,
    usage: &mut Usage,
    logs: &mut Vec<LogSeen<'p>>,
    path: &'p str,
    source: &mut S,
) -> Result<(), NoUsage<'p>>
    ensures taken { OnOk result ((log : LogSeen) × (logs.new.items ≡ logs.old.items ++ log ∷ [])
        × IsOneTaken (S.Gives source.old) usage.old usage.new path.entry log) }
    ensures stays { (other : List ℕ) (octets : Option (List ℕ))
        → S.Gives source.new other octets → S.Gives source.old other octets }
{
    let log = match add_log(alloc, usage, path, source) {
        Ok(log) => log,
        Err(fault) => return Err(no_usage(path, fault)),
    };
    match logs.push(log) {
        Ok(()) => Ok(()),
        Err(_) => Err(NoUsage::Memory),
    }
}

/// Adds the logs of paths, one after another. Returns what was seen of each.
pub(crate) fn add_logs<'p, S: LogSource>(
    alloc: Global,
    usage: &mut Usage,
    paths: &[&'p str],
    source: &mut S,
) -> Result<Vec<LogSeen<'p>>, NoUsage<'p>>
    ensures taken { IfOk result (λ logs.
        TakesLogs (S.Gives source.old) paths.now logs.items usage.old usage.new) }
{
    let mut logs = Vec::new(alloc);
    for path in paths {
        add_next(alloc, usage, &mut logs, path, source)?;
    }
    Ok(logs)
}
