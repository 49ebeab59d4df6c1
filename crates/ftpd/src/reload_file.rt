//! The reload file of a server: once it appears, the configuration is read again.

ghost use Rattle.std.specs.Prelude.{◌≡◌, IfErr, IfOk, option_map, string_bytes};
ghost use Rattle.machine_parts.specs.Reloads.{IsNotTaken};
ghost use Rattle.ftpd.specs.Taken.{AreParted, TakesNext};

use change_report::{ChangeReport, reload_report};
use ftp_daemon::{Reload, ReloadFault, ReloadSign};
use machine_parts::{
    AtStart, ConfigReader, Known, NextConfig, ReadOctets, RunningWriter, SignFile, limit_words,
    next_config, words,
};
use rate_floors::CarryFault;
use status_keeper::StatusFacts;
use std::alloc::Global;
use std::fs;
use std::sync::{Arc, Mutex, Wait};

/// The parts of a configuration that the server is about to take, which are kept until then.
#[derive(Drop)]
pub(crate) struct KeptNext {
    pub known: Known,
    /// The facts that a status shows; none without memory for them.
    pub facts: Option<StatusFacts>,
    /// The octets of the configuration.
    pub octets: Arc<Vec<u8>>,
}

/// The configuration that the server has taken.
#[derive(Drop)]
pub(crate) struct TakenConfig {
    /// Number of the users that it has no longer.
    pub gone: u64,
    /// The facts that its status shows from now on; none without memory for them.
    pub facts: Option<StatusFacts>,
    /// Its changes, in lines; none without memory for them.
    pub changes: Option<String>,
}

/// A configuration that is read again once a file appears.
#[derive(Drop)]
pub(crate) struct ReloadFile {
    pub machine: HostRuntime,
    pub sign: SignFile,
    /// The thread that reads the configuration.
    pub reader: Arc<ConfigReader>,
    pub at_start: AtStart,
    pub known: Mutex<Known>,
    /// The octets of the configuration that the server has.
    pub octets: Mutex<Arc<Vec<u8>>>,
    /// The thread that writes them to the running file, if there is one.
    pub running: Option<Arc<RunningWriter>>,
    /// The configuration that the server is about to take.
    pub next: Mutex<Option<KeptNext>>,
    /// The file could not be removed.
    pub is_stuck: Mutex<bool>,
}

/// The lines of a report below the first, which says that a reload would be taken; none if memory runs out.
fn below_first(alloc: Global, report: &str) -> Option<String> {
    let (_, lines) = report.split_once('\n')?;
    String::from_str(alloc, lines).ok()
}

/// The parts that the server is to take, and those that are kept until it has taken them.
fn parted(next: NextConfig, octets: Arc<Vec<u8>>) -> (Reload, KeptNext)
    ensures parted { AreParted next result.0 result.1 }
    ensures of_address { result.0.max_cons_per_address ≡ next.numbers.max_cons_per_address }
    ensures octets { result.1.octets ≡ octets }
{
    let NextConfig {
        terms,
        limits,
        numbers,
        known,
        facts,
    } = next;
    let reload = Reload {
        terms,
        limits,
        max_cons: numbers.max_cons,
        max_cons_per_address: numbers.max_cons_per_address,
    };
    let kept = KeptNext {
        known,
        facts,
        octets,
    };
    (reload, kept)
}

/// The parts of the configuration that octets of the file at a path are, for a server that knows these names. `Err` is the
/// reason for which it cannot take them; none without memory for it.
fn next_of(
    alloc: Global,
    path: &str,
    octets: Vec<u8>,
    at_start: &AtStart,
    known: &Known,
) -> Result<(Reload, KeptNext), Option<String>>
    ensures next { IfOk result
        (λ both. TakesNext octets.items at_start.now known.now both.0 both.1) }
    ensures refused { IfErr result (λ words. IsNotTaken path.now octets.items at_start.now
        known.now (option_map string_bytes words)) }
{
    let next = next_config(alloc, path, octets.as_slice(), at_start, known)?;
    match Arc::new(alloc, octets) {
        Ok(octets) => Ok(parted(next, octets)),
        Err(_) => Err(None),
    }
}

/// The reason for which a configuration is not read again.
const STILL_READS: &str = "the file has not been read since the last time that it was asked for";

impl ReloadFile {
    // Returns whether the file has appeared, and removes it. One that cannot be removed counts once.
    fn is_asked<R: Wait>(&self, rt: &R) -> bool {
        let mut is_stuck = self.is_stuck.lock(rt);
        if !self.sign.is_there() {
            *is_stuck = false;
            return false;
        }
        let was_stuck = *is_stuck;
        *is_stuck = fs::remove_file(&self.machine, self.sign.path()).is_err();
        !was_stuck
    }

    // Takes the configuration of what was read, and keeps what it names until the server has taken it.
    fn read<R: Wait>(&self, rt: &R, octets: ReadOctets) -> Result<Reload, Option<String>> {
        let alloc = self.machine.alloc();
        let octets = octets?;
        let earlier = self.known.lock(rt);
        let path = self.reader.path();
        let (reload, kept) = next_of(alloc, path, octets, &self.at_start, &*earlier)?;
        *self.next.lock(rt) = Some(kept);
        Ok(reload)
    }

    /// The configuration that the server is to take now, if it was to be read again and has been read.
    pub fn asked<R: Wait>(&self, rt: &R) -> ReloadSign {
        if self.is_asked(rt) && !self.reader.ask(rt) {
            return ReloadSign::Refused(words(self.machine.alloc(), &STILL_READS));
        }
        let Some(octets) = self.reader.take(rt) else {
            return ReloadSign::Nothing;
        };
        match self.read(rt, octets) {
            Ok(reload) => ReloadSign::Asked(reload),
            Err(reason) => ReloadSign::Refused(reason),
        }
    }

    /// The server has taken the configuration.
    pub fn taken<R: Wait>(&self, rt: &R) -> Option<TakenConfig> {
        let KeptNext {
            known,
            facts,
            octets,
        } = self.next.lock(rt).take()?;
        let mut earlier = self.known.lock(rt);
        let gone = earlier.gone(&known);
        *earlier = known;
        if let (Some(writer), Ok(octets)) = (&self.running, Arc::try_clone(&octets)) {
            writer.put(rt, octets);
        }
        Some(TakenConfig {
            gone,
            facts,
            changes: self.changed(rt, octets),
        })
    }

    // Exchanges the octets of the configuration for these. Returns what these change, in lines.
    fn changed<R: Wait>(&self, rt: &R, octets: Arc<Vec<u8>>) -> Option<String> {
        let mut earlier = self.octets.lock(rt);
        let alloc = self.machine.alloc();
        let report = reload_report(alloc, false, octets.as_slice(), earlier.as_slice());
        *earlier = octets;
        match report {
            Ok(ChangeReport { text, .. }) => below_first(alloc, text.as_str()),
            Err(_) => None,
        }
    }

    /// The reason in words for which the server has refused the configuration.
    pub fn refused<R: Wait>(&self, rt: &R, fault: ReloadFault) -> Option<String> {
        let alloc = self.machine.alloc();
        let next = self.next.lock(rt).take();
        match (fault, next) {
            (
                ReloadFault::Guarantees(
                    CarryFault::Broken {
                        name,
                        promised,
                        rate,
                    },
                ),
                Some(next),
            ) => {
                let Ok(Some(limit)) = limit_words(alloc, &next.known, name) else {
                    return None;
                };
                format!(in alloc;
                    "the sessions inside are promised {promised}, and {limit} would be {rate}"
                ).ok()
            }
            _ => words(alloc, &fault),
        }
    }
}
