//! The server of the machine that the program runs on.

ghost use Rattle.std.specs.Prelude.{◌≡◌, ◌≢◌, ◌+◌, ◌*◌, ◌<◌, ◌≤◌, ◌&&◌, [], true, None, Some, Ok, Err, IfErr, IfOk, IfSome, is_some, option_map};
ghost use Rattle.ftp_daemon.specs.SameRates.{may_hold};
ghost use Rattle.line_rates.specs.Rates.{Rates};
ghost use Rattle.line_rates.specs.declared.ask.Name.TheVariants.{Server};
ghost use Rattle.paced_rounds.specs.Allowed.{AreAllowed};
ghost use Rattle.paced_rounds.specs.Settled.{rounds_of};
ghost use Rattle.paced_rounds.specs.Spans.{IsWithinRates, granted_to, seconds_from};
ghost use Rattle.round_pace.specs.Stretches.{StretchesKeep};
ghost use Rattle.ftpd_program.specs.declared.server.ServeFault.TheVariants.{TransferLog};
ghost use Rattle.machine_parts.specs.Names.{AreKnown};
ghost use Rattle.ftpd.specs.Served.{IsFollowed, IsServed};

use crate::end_file::EndFile;
use crate::reload_file::ReloadFile;
use crate::signs::{FixedSigns, MachineSigns};
use authorizer::Authorizer;
use ftp_daemon::{OwnerSigns, Patience, RoundClock, ServeFault, ServerRuntime, Terms};
use ftp_server::{FtpServerFault, ServerParts, StopFlag, Stores, open_folder, serve_stores};
use ftpd_program::{FtpdExit, ReadyOutput, StartFault};
use grant_ledger::{Book, BookName};
use line_rates::Limits;
use machine_parts::{
    AskedService, AtStart, Cells, Known, LogThreads, MachineNotes, MachineReadyFile, Means,
    OwnThreads, Prepared, ReadPaths, ReadText, Shown, SignFile, Signs, Start, Unprepared, another,
    copied_limits, keeper_of, prepare, start_of,
};
use paced_rounds::Settlement;
use server_config::{Config, ServedStore};
use sheets_program::Exit as Common;
use status_keeper::StatusCell;
use std::alloc::{AllocError, Global};
use std::io::Write;
use std::sync::{Arc, Mutex};
use std::thread::Threads;
use text_io::{FallibleIo, TextWriter};

/// The fault of a server whose folder cannot be opened.
fn opening_fault(fault: FtpServerFault) -> ServeFault
    ensures memory { fault ≡ FtpServerFault.Memory → result ≡ ServeFault.Memory }
    ensures others { fault ≢ FtpServerFault.Memory → result ≡ ServeFault.Store }
{
    match fault {
        FtpServerFault::Memory => ServeFault::Memory,
        _ => ServeFault::Store,
    }
}

/// The name of the program's book.
#[derive(Drop)]
pub(crate) struct OfProgram {}

impl BookName for OfProgram {}

/// A configuration as a server takes it at its start.
#[derive(Drop)]
struct ServedConfig {
    parts: ServerParts,
    store: ServedStore,
    /// A folder has the octets of each file that is received written to the device.
    syncs: bool,
}

/// Serves a configuration: its store is in memory, or a folder of the machine, whose listings are left once that flag is
/// raised. Returns the settlement of the program's book.
fn serve_config<R, P, W>(
    rt: &R,
    config: ServedConfig,
    handler: MachineNotes<R>,
    machine: &HostRuntime,
    signs: P,
    leaves: &StopFlag,
    output: &mut W,
) -> Result<Settlement<OfProgram>, ServeFault>
where
    R: Threads + ServerRuntime + RoundClock + Copy + Send + Sync,
    P: OwnerSigns + Send + Sync + Drop,
    W: TextWriter,
    ensures issued { IfOk result (λ s. s.issued ≡ granted_to Server (rounds_of s)) }
    ensures every_second { IfOk result (λ s. StretchesKeep (rounds_of s)) }
    ensures kept { IfOk result (λ s. IsWithinRates (rounds_of s) s.opened s.latest) }
    ensures rates { IfOk result (λ s.
        AreAllowed (may_hold config.parts.limits P.allows) (rounds_of s)) }
    ensures seconds { IfOk result (λ s. config.parts.limits.server ≢ 0
        → ((rates : Rates) → P.allows rates ≡ true
        → rates.server ≡ config.parts.limits.server)
        → s.issued ≤ seconds_from s.opened s.latest * config.parts.limits.server) }
{
    let ServedConfig {
        parts,
        store,
        syncs,
    } = config;
    match store {
        ServedStore::Memory(store) => {
            let stores = Stores::one(rt.alloc(), store);
            let book = Book::<OfProgram>::open(0);
            serve_stores(rt, parts, stores, handler, signs, book, output)
        }
        ServedStore::Folder(folder) => {
            let folder = folder.as_str();
            let sessions = parts.numbers.max_cons;
            let stores = match open_folder(machine, folder, sessions, syncs, leaves) {
                Ok(stores) => stores,
                Err(fault) => return Err(opening_fault(fault)),
            };
            let book = Book::<OfProgram>::open(0);
            serve_stores(rt, parts, stores, handler, signs, book, output)
        }
    }
}

/// Returns the ending of a server with a fault, and the reason for which it did not start, if it is known.
fn faulty<'w, W>(
    fault: ServeFault,
    output: ReadyOutput<W, MachineReadyFile>,
) -> (FtpdExit<'w>, Option<StartFault>)
where
    W: Drop,
{
    let ending = FtpdExit::Server(output.cause(fault));
    let ReadyOutput { file, fault, .. } = output;
    let start = match (file, fault) {
        (Some(MachineReadyFile { path, .. }), Some(reason)) => {
            Some(StartFault::ReadyFileUnmade { path, reason })
        }
        _ => None,
    };
    (ending, start)
}

/// A configuration as a server takes it, and the parts by which another can follow it. Fails without memory.
fn followed_of(
    alloc: Global,
    read: ReadText,
    syncs: bool,
    user_sessions: u32,
    patience: Patience,
    start: Start,
) -> Result<(ServedConfig, Followed), AllocError>
    ensures limits { IfOk result (λ both. both.0.parts.limits ≡ read.config.limits) }
    ensures served { IfOk result (λ both. IsServed read syncs user_sessions patience both.0) }
    ensures followed { IfOk result (λ both. IsFollowed read start both.1) }
{
    let ReadText {
        path,
        config,
        warnings: _,
        octets,
    } = read;
    let Config {
        settings,
        numbers,
        users,
        store,
        limits,
        groups,
    } = config;
    let at_start = AtStart::of(alloc, numbers, &store, start)?;
    let known = known_of(alloc, &users, groups, &limits)?;
    let parts = ServerParts {
        terms: Arc::new(alloc, Terms { users, settings })?,
        numbers,
        limits,
        patience,
        user_sessions,
    };
    let served = ServedConfig {
        parts,
        store,
        syncs,
    };
    let followed = Followed {
        path,
        octets,
        known,
        at_start,
    };
    Ok((served, followed))
}

/// The names that a server knows by numbers at its start. Fails without memory.
fn known_of(
    alloc: Global,
    users: &Authorizer,
    groups: Vec<String>,
    limits: &Limits,
) -> Result<Known, AllocError>
    ensures names { IfOk result (λ known. AreKnown users.now [] known.users.items) }
    ensures groups { IfOk result (λ known. known.groups ≡ groups) }
    ensures limits { IfOk result (λ known. known.limits ≡ limits.now) }
{
    match copied_limits(alloc, limits) {
        Some(copy) => Known::of(alloc, users, &[], groups, copy),
        None => Err(AllocError),
    }
}

/// The signs of a server of the machine, and the threads that own its files and sockets.
#[derive(Drop)]
struct Guidance<R> {
    fixed: FixedSigns<R>,
    /// The reload file, if there is to be one.
    reload: Option<ReloadFile>,
    /// Raised once the server is to end: listings under way are left.
    leaves: StopFlag,
    threads: OwnThreads,
}

/// The parts of a configuration by which another can follow it.
#[derive(Drop)]
struct Followed {
    /// The path of the configuration.
    path: String,
    /// Its octets, if they are kept.
    octets: Option<Vec<u8>>,
    known: Known,
    at_start: AtStart,
}

/// The reload file of a configuration with its octets, if there is to be one and a thread that reads it.
fn reload_file(
    machine: &HostRuntime,
    stated: Option<(SignFile, Arc<Vec<u8>>)>,
    threads: &OwnThreads,
    known: Known,
    at_start: AtStart,
) -> Result<Option<ReloadFile>, AllocError>
    ensures none { stated ≡ None → IfOk result (λ file. file ≡ None) }
    ensures there { IfOk result
        (λ file. is_some file ≡ (is_some stated && is_some threads.now.reader)) }
    ensures sign { IfOk result (λ file. IfSome file
        (λ file. option_map (λ both. both.0) stated ≡ Some file.sign)) }
    ensures start { IfOk result (λ file. IfSome file (λ file. file.at_start ≡ at_start)) }
{
    let reader = another(&threads.reader)?;
    let (Some((sign, octets)), Some(reader)) = (stated, reader) else {
        return Ok(None);
    };
    Ok(Some(ReloadFile {
        machine: *machine,
        sign,
        reader,
        at_start,
        known: Mutex::new(known),
        octets: Mutex::new(octets),
        running: another(&threads.running)?,
        next: Mutex::new(None),
        is_stuck: Mutex::new(false),
    }))
}

/// The end file, if there is to be one and a thread that reads it.
fn end_file(
    machine: &HostRuntime,
    sign: Option<SignFile>,
    threads: &OwnThreads,
) -> Result<Option<EndFile>, AllocError>
    ensures there { IfOk result
        (λ file. is_some file ≡ (is_some sign && is_some threads.now.ender)) }
    ensures sign { IfOk result (λ file. IfSome file (λ file. sign ≡ Some file.sign)) }
{
    let reader = another(&threads.ender)?;
    let (Some(sign), Some(reader)) = (sign, reader) else {
        return Ok(None);
    };
    Ok(Some(EndFile {
        alloc: machine.alloc(),
        sign,
        reader,
        is_stuck: Mutex::new(false),
    }))
}

/// The end file, and its path, if there is to be one.
fn split(end: Option<(SignFile, String)>) -> (Option<SignFile>, Option<String>)
    ensures sign { result.0 ≡ option_map (λ both. both.0) end }
    ensures path { result.1 ≡ option_map (λ both. both.1) end }
{
    match end {
        Some((sign, path)) => (Some(sign), Some(path)),
        None => (None, None),
    }
}

/// The octets of a configuration, if they are kept, which its running file is to have, if there is one.
fn kept_octets<R: ServerRuntime>(
    rt: &R,
    octets: Option<Vec<u8>>,
    threads: &OwnThreads,
) -> Result<Option<Arc<Vec<u8>>>, AllocError> {
    let Some(octets) = octets else {
        return Ok(None);
    };
    let octets = Arc::new(rt.alloc(), octets)?;
    if let Some(running) = &threads.running {
        running.put(rt, Arc::try_clone(&octets)?);
    }
    Ok(Some(octets))
}

/// Starts the threads of a server, and has its signs.
fn guidance_of<R>(
    rt: &R,
    machine: &HostRuntime,
    signs: Signs,
    shown: Shown,
    followed: Followed,
    cells: (Arc<StatusCell>, Option<Arc<StatusCell>>),
    log: &LogThreads,
) -> Result<Guidance<R>, ServeFault>
where
    R: Threads + ServerRuntime + RoundClock + Copy + Send + Sync + 'static,
    ensures none { signs.reload ≡ None → IfOk result (λ guidance. guidance.reload ≡ None) }
    ensures stop { IfOk result (λ guidance. guidance.fixed.stop ≡ signs.stop) }
    ensures drain { IfOk result (λ guidance. guidance.fixed.drain ≡ signs.drain) }
{
    let Signs {
        stop,
        drain,
        reload,
        end,
    } = signs;
    let Followed {
        path,
        octets,
        known,
        at_start,
    } = followed;
    let (cell, watched) = cells;
    let (end, end_path) = split(end);
    let read = ReadPaths {
        config: if reload.is_some() { Some(path) } else { None },
        end: end_path,
    };
    let threads = OwnThreads::start(rt, machine, read, shown, log, cell)?;
    let octets = kept_octets(rt, octets, &threads)?;
    let reload = reload_file(machine, reload.zip(octets), &threads, known, at_start)?;
    let leaves = StopFlag::new(machine.alloc())?;
    let fixed = FixedSigns {
        rt: *rt,
        stop,
        leaves: leaves.another()?,
        drain,
        end: end_file(machine, end, &threads)?,
        notes: log.plain_notes()?,
        status: another(&threads.status)?,
        cell: watched,
    };
    Ok(Guidance {
        fixed,
        reload,
        leaves,
        threads,
    })
}

/// Serves a configuration whose rates stay as they are.
fn serve_fixed<R, W>(
    rt: &R,
    config: ServedConfig,
    handler: MachineNotes<R>,
    machine: &HostRuntime,
    signs: FixedSigns<R>,
    leaves: &StopFlag,
    output: &mut W,
) -> Result<Settlement<OfProgram>, ServeFault>
where
    R: Threads + ServerRuntime + RoundClock + Copy + Send + Sync + 'static,
    W: TextWriter,
    ensures issued { IfOk result (λ s. s.issued ≡ granted_to Server (rounds_of s)) }
    ensures every_second { IfOk result (λ s. StretchesKeep (rounds_of s)) }
    ensures kept { IfOk result (λ s. IsWithinRates (rounds_of s) s.opened s.latest) }
    ensures fixed { IfOk result (λ s. config.parts.limits.server ≢ 0
        → s.issued ≤ seconds_from s.opened s.latest * config.parts.limits.server) }
{
    serve_config(rt, config, handler, machine, signs, leaves, output)
}

/// Serves a configuration with these signs and threads, which end with the server. Without a reload file the rates stay
/// as they are.
fn serve_guided<R, W>(
    rt: &R,
    config: ServedConfig,
    handler: MachineNotes<R>,
    machine: &HostRuntime,
    guidance: Guidance<R>,
    output: &mut W,
) -> Result<Settlement<OfProgram>, ServeFault>
where
    R: Threads + ServerRuntime + RoundClock + Copy + Send + Sync + 'static,
    W: TextWriter,
    ensures issued { IfOk result (λ s. s.issued ≡ granted_to Server (rounds_of s)) }
    ensures every_second { IfOk result (λ s. StretchesKeep (rounds_of s)) }
    ensures kept { IfOk result (λ s. IsWithinRates (rounds_of s) s.opened s.latest) }
    ensures fixed { guidance.reload ≡ None
        → IfOk result (λ s. config.parts.limits.server ≢ 0
        → s.issued ≤ seconds_from s.opened s.latest * config.parts.limits.server) }
{
    let Guidance {
        fixed,
        reload,
        leaves,
        threads,
    } = guidance;
    let served = match reload {
        Some(reload) => {
            let signs = MachineSigns { fixed, reload };
            serve_config(rt, config, handler, machine, signs, &leaves, output)
        }
        None => serve_fixed(rt, config, handler, machine, fixed, &leaves, output),
    };
    threads.leave(rt);
    served
}

/// Serves with what was prepared, and with the threads that write its lines. Without a reload file no more is issued
/// than the line gives at its rate.
fn serve_logged<R, W>(
    rt: &R,
    machine: &HostRuntime,
    means: Means,
    log: &LogThreads,
    output: &mut W,
) -> Result<Settlement<OfProgram>, ServeFault>
where
    R: Threads + ServerRuntime + RoundClock + Copy + Send + Sync + 'static,
    W: TextWriter,
    ensures issued { IfOk result (λ s. s.issued ≡ granted_to Server (rounds_of s)) }
    ensures every_second { IfOk result (λ s. StretchesKeep (rounds_of s)) }
    ensures kept { IfOk result (λ s. IsWithinRates (rounds_of s) s.opened s.latest) }
    ensures fixed { means.signs.reload ≡ None
        → IfOk result (λ s. means.read.config.limits.server ≢ 0
        → s.issued ≤ seconds_from s.opened s.latest * means.read.config.limits.server) }
{
    let Means {
        read,
        signs,
        shown,
        form: _,
        log: _,
        syncs,
        user_sessions,
        patience,
    } = means;
    let start = start_of(machine);
    let is_shown = shown.status.is_some() || shown.page.is_some();
    let Cells {
        cell,
        kept,
        watched,
    } = Cells::new(rt.alloc(), is_shown)?;
    let handler = keeper_of(rt, machine, log, &read, start, kept)?;
    let (config, followed) = followed_of(rt.alloc(), read, syncs, user_sessions, patience, start)?;
    let guidance = guidance_of(rt, machine, signs, shown, followed, (cell, watched), log)?;
    serve_guided(rt, config, handler, machine, guidance, output)
}

/// The outcome of a server that lost this number of lines of its transfer log at the end.
fn with_lost(
    served: Result<Settlement<OfProgram>, ServeFault>,
    lost: u64,
) -> Result<Settlement<OfProgram>, ServeFault>
    ensures whole { lost ≡ 0 → result ≡ served }
    ensures same { IfOk result (λ settlement. served ≡ Ok settlement) }
    ensures lost { IfOk served (λ _. 0 < lost → result ≡ Err TransferLog) }
    ensures faulty { IfErr served (λ fault. result ≡ Err fault) }
{
    match served {
        Ok(settlement) => {
            if lost > 0 {
                settlement.numbers();
                return Err(ServeFault::TransferLog);
            }
            Ok(settlement)
        }
        Err(fault) => Err(fault),
    }
}

/// Serves with what was prepared. Returns the settlement of the program's book.
fn serve_with<R, W>(
    rt: &R,
    machine: &HostRuntime,
    means: Means,
    output: &mut W,
) -> Result<Settlement<OfProgram>, ServeFault>
where
    R: Threads + ServerRuntime + RoundClock + Copy + Send + Sync + 'static,
    W: TextWriter,
    ensures issued { IfOk result (λ s. s.issued ≡ granted_to Server (rounds_of s)) }
    ensures every_second { IfOk result (λ s. StretchesKeep (rounds_of s)) }
    ensures kept { IfOk result (λ s. IsWithinRates (rounds_of s) s.opened s.latest) }
    ensures fixed { means.signs.reload ≡ None
        → IfOk result (λ s. means.read.config.limits.server ≢ 0
        → s.issued ≤ seconds_from s.opened s.latest * means.read.config.limits.server) }
{
    let mut means = means;
    let log = LogThreads::start(rt, machine.alloc(), means.form, means.log.take())?;
    let served = serve_logged(rt, machine, means, &log, output);
    with_lost(served, log.leave(rt))
}

/// Serves as asked. The ready file, if any, is made before `ready` is written, and removed at the end. Returns the ending
/// of the program, and the reason for which the server did not start, if it is known.
pub(crate) fn serve_asked<'w, R, W>(
    rt: &R,
    machine: &HostRuntime,
    service: AskedService,
    output: &mut FallibleIo<W>,
) -> (FtpdExit<'w>, Option<StartFault>)
where
    R: Threads + ServerRuntime + RoundClock + Copy + Send + Sync + 'static,
    W: Write,
{
    let Prepared { means, ready } = match prepare(rt, machine, service) {
        Ok(prepared) => prepared,
        Err(Unprepared { fault, start }) => return (FtpdExit::Server(fault), start),
    };
    let mut output = ReadyOutput::new(FallibleIo(&mut output.0), ready);
    let served = serve_with(rt, machine, means, &mut output);
    output.remove_file();
    match served {
        Ok(settlement) => {
            settlement.numbers();
            (FtpdExit::Common(Common::Done), None)
        }
        Err(fault) => faulty(fault, output),
    }
}
