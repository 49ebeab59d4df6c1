//! The files and sockets that a server needs from the machine at its start.

ghost use Rattle.std.specs.Prelude.{◌≡◌, IfErr, IfOk, IfSome, None, Some, is_some, false, string_bytes, true};
ghost use Rattle.std.specs.Fs.{IsDir, file_type};
ghost use Rattle.std.specs.IoError.{raw_os_error};
ghost use Rattle.machine_parts.specs.Answers.{group_mode, owner_mode};
ghost use Rattle.machine_parts.specs.Prepared.{AreShownAt, AreSignsAt, IsEndAt, IsLogAt, IsPrepared, IsReadyAt, IsSignAt, hindrance_of};
ghost use Rattle.machine_parts.specs.Starting.{IsFileIf, IsSignFault};
ghost use Rattle.machine_parts.specs.Unprepared.{HasItsFault, fault_of, fault_of_sign, named_by};
ghost use Rattle.machine_parts.specs.declared.starting.Hindrance.{Hindrance};

use crate::asked::{AskedService, ReadText, SignPaths, WrittenPaths};
use crate::log_file::LogFile;
use crate::page_thread::PageSocket;
use crate::ready_file::MachineReadyFile;
use crate::running_file::RUNNING_MODE;
use crate::sign_file::{SignFile, SignLook, look_at};
use crate::stated_files::{FRONT, found_at, twin_of};
use crate::stated_options::{
    Unprepared, check_options, form_named, not_prepared, part, sessions_in, warned,
};
use crate::status_file::{STATUS_MODE, StatusFile};
use client_patience::Patience;
use ftpd_program::{ServeFault, StartFault, is_free_for_log, is_free_for_status};
use line_queue::LogForm;
use server_config::ServedStore;
use std::net::{Net, TcpListener, TcpStream};
use std::{fs, io};

/// The signs of the owner, those that there are to be.
#[derive(Drop)]
pub struct Signs {
    pub stop: Option<SignFile>,
    pub drain: Option<SignFile>,
    /// The sign that the configuration is to be read again.
    pub reload: Option<SignFile>,
    /// The sign that sessions are to end, with its path again.
    pub end: Option<(SignFile, String)>,
}

/// The files and the socket that show the state of a server, those that there are to be.
#[derive(Drop)]
pub struct Shown {
    pub running: Option<StatusFile<HostRuntime>>,
    pub status: Option<StatusFile<HostRuntime>>,
    pub page: Option<PageSocket>,
}

/// The means of a server: its configuration, its files and sockets.
#[derive(Drop)]
pub struct Means {
    pub read: ReadText,
    pub signs: Signs,
    pub shown: Shown,
    pub form: LogForm,
    /// The transfer log, if there is to be one, until its thread takes it.
    pub log: Option<LogFile>,
    /// Each file that is received is written to the device before its end is told.
    pub syncs: bool,
    /// The greatest number of sessions in which one user is logged in; 0 is no limit.
    pub user_sessions: u32,
    pub patience: Patience,
}

/// A server that may start, and its ready file, if it is to have one.
#[derive(Drop)]
pub struct Prepared {
    pub means: Means,
    pub ready: Option<MachineReadyFile>,
}

/// Number of the machine's error "Not a directory".
const NOT_A_DIRECTORY: i32 = 20;

/// Returns the reason for which what the machine finds is no folder, if there is one.
fn no_folder_in(found: io::Result<fs::Metadata>) -> Option<io::Error>
    ensures folder { IfOk found (λ found. result ≡ None → IsDir (file_type found)) }
    ensures taken { IfOk found (λ found. IsDir (file_type found) → result ≡ None) }
    ensures number { IfOk found (λ _. IfSome result
        (λ reason. raw_os_error reason ≡ Some NOT_A_DIRECTORY)) }
    ensures reason { IfErr found (λ reason. result ≡ Some reason) }
{
    match found {
        Ok(found) if found.is_dir() => None,
        Ok(_) => Some(io::Error::from_raw_os_error(NOT_A_DIRECTORY)),
        Err(reason) => Some(reason),
    }
}

/// Returns the machine's reason for which there is no folder at a path, if there is one.
fn no_folder(machine: &HostRuntime, path: &str) -> Option<io::Error> {
    no_folder_in(fs::metadata(machine, path))
}

/// Returns the path of the folder of a file.
fn folder_of(path: &str) -> &str {
    match path.rsplit_once('/') {
        None => ".",
        Some(("", _)) => "/",
        Some((folder, _)) => folder,
    }
}

/// The reason for which no file can appear at a path.
#[derive(Clone, Copy)]
enum Hindrance {
    /// There is something at the path.
    There,
    /// The machine's reason.
    Reported(io::Error),
}

/// Returns the hindrance that a look at the path itself shows, if it shows one.
fn hindrance_of(look: SignLook) -> Option<Hindrance>
    ensures hindrance { result ≡ hindrance_of look }
{
    match look {
        SignLook::There => Some(Hindrance::There),
        SignLook::Nothing => None,
        SignLook::Unseen(reason) => Some(Hindrance::Reported(reason)),
    }
}

/// Returns the reason for which no file can appear at a path, if there is one.
fn hindrance_at(machine: &HostRuntime, path: &str) -> Option<Hindrance> {
    let mut files = *machine;
    match look_at(&mut files, path) {
        SignLook::Nothing => match no_folder(machine, folder_of(path)) {
            Some(reason) => Some(Hindrance::Reported(reason)),
            None => None,
        },
        look => hindrance_of(look),
    }
}

/// A sign of the owner's.
#[derive(Clone, Copy)]
enum Sign {
    Stop,
    Drain,
    Reload,
    End,
}

/// Returns the fault of a start whose sign could not be noticed at a path.
fn sign_fault(sign: Sign, path: String, hindrance: Hindrance) -> StartFault
    ensures fault { IsSignFault sign (string_bytes path) hindrance result }
    ensures its { fault_of result ≡ fault_of_sign sign }
{
    match (sign, hindrance) {
        (Sign::Stop, Hindrance::There) => StartFault::StopFileThere { path },
        (Sign::Stop, Hindrance::Reported(reason)) => StartFault::StopFileUnseen { path, reason },
        (Sign::Drain, Hindrance::There) => StartFault::DrainFileThere { path },
        (Sign::Drain, Hindrance::Reported(reason)) => StartFault::DrainFileUnseen { path, reason },
        (Sign::Reload, Hindrance::There) => StartFault::ReloadFileThere { path },
        (Sign::Reload, Hindrance::Reported(reason)) => StartFault::ReloadFileUnseen {
            path,
            reason,
        },
        (Sign::End, Hindrance::There) => StartFault::EndFileThere { path },
        (Sign::End, Hindrance::Reported(reason)) => StartFault::EndFileUnseen { path, reason },
    }
}

/// Returns the sign at a path, if there is to be one. `Err` if no file there could be noticed.
fn sign_if_any(
    machine: &HostRuntime,
    sign: Sign,
    path: Option<String>,
) -> Result<Option<SignFile>, StartFault>
    ensures sign { IfOk result (IsSignAt path) }
    ensures refused { IfErr result (λ fault. IfSome path
        (λ at. (hindrance : Hindrance) × IsSignFault sign (string_bytes at) hindrance fault)) }
    ensures stated { IfErr result (λ _. is_some path ≡ true) }
    ensures its { IfErr result (λ reason. fault_of reason ≡ fault_of_sign sign) }
{
    let Some(path) = path else {
        return Ok(None);
    };
    match hindrance_at(machine, path.as_str()) {
        Some(hindrance) => Err(sign_fault(sign, path, hindrance)),
        None => Ok(Some(SignFile::new(*machine, path))),
    }
}

/// Returns the end file at a path, with the path again, if there is to be one. `Err` if no file there could be noticed.
fn end_if_any(
    machine: &HostRuntime,
    path: Option<String>,
) -> Result<Option<(SignFile, String)>, Unprepared>
    ensures sign { IfOk result (IsEndAt path) }
    ensures its { IfErr result HasItsFault }
{
    let sign = part(sign_if_any(machine, Sign::End, path), ServeFault::EndFile)?;
    let Some(sign) = sign else {
        return Ok(None);
    };
    match String::from_str(machine.alloc(), sign.path()) {
        Ok(path) => Ok(Some((sign, path))),
        Err(_) => Err(Unprepared {
            fault: ServeFault::Memory,
            start: None,
        }),
    }
}

fn ready_if_any(
    machine: &HostRuntime,
    path: Option<String>,
) -> Result<Option<MachineReadyFile>, StartFault>
    ensures ready { IfOk result (IsReadyAt path) }
    ensures its { IfErr result (λ reason. fault_of reason ≡ ServeFault.ReadyFile) }
{
    match path {
        Some(path) => match ready_at(machine, path) {
            Ok(ready) => Ok(Some(ready)),
            Err(start) => Err(start),
        },
        None => Ok(None),
    }
}

/// Returns the ready file at a path. `Err` if there is something at the path, or if no file could be made there.
fn ready_at(machine: &HostRuntime, path: String) -> Result<MachineReadyFile, StartFault>
    ensures path { IfOk result (λ ready. ready.path ≡ path) }
    ensures none { IfOk result (λ ready. ready.is_there ≡ false) }
    ensures its { IfErr result (λ reason. fault_of reason ≡ ServeFault.ReadyFile) }
    ensures named { IfErr result (λ reason. named_by reason ≡ Some (string_bytes path)) }
{
    match hindrance_at(machine, path.as_str()) {
        Some(Hindrance::There) => Err(StartFault::ReadyFileThere { path }),
        Some(Hindrance::Reported(reason)) => Err(StartFault::ReadyFileUnmade { path, reason }),
        None => Ok(MachineReadyFile {
            machine: *machine,
            path,
            is_there: false,
        }),
    }
}

/// Returns the transfer log at a path, if there is to be one. `Err` if its file cannot be opened.
fn log_at(machine: &HostRuntime, path: Option<String>) -> Result<Option<LogFile>, StartFault>
    ensures log { IfOk result (IsLogAt path) }
    ensures its { IfErr result (λ reason. fault_of reason ≡ ServeFault.TransferLog) }
{
    match path {
        None => Ok(None),
        Some(path) => match LogFile::at(*machine, log_path(machine, path)?) {
            Ok(file) => Ok(Some(file)),
            Err((path, reason)) => Err(StartFault::TransferLogUnopened { path, reason }),
        },
    }
}

/// Fails if the folder of a store is not there.
fn check_folder(machine: &HostRuntime, store: &ServedStore) -> Result<(), Unprepared>
    ensures its { IfErr result HasItsFault }
{
    let ServedStore::Folder(folder) = store else {
        return Ok(());
    };
    let Some(reason) = no_folder(machine, folder.as_str()) else {
        return Ok(());
    };
    match String::from_str(machine.alloc(), folder.as_str()) {
        Ok(path) => Err(not_prepared(ServeFault::Store, StartFault::Folder { path, reason })),
        Err(_) => Err(Unprepared {
            fault: ServeFault::Memory,
            start: None,
        }),
    }
}

/// Returns the path of a status, at which nothing else is. `Err` if there is.
fn status_path(machine: &HostRuntime, path: String) -> Result<String, StartFault>
    ensures path { IfOk result (λ same. same ≡ path) }
    ensures its { IfErr result (λ reason. fault_of reason ≡ ServeFault.StatusFile) }
    ensures named { IfErr result (λ reason. named_by reason ≡ Some (string_bytes path)) }
{
    let mut octets = [0; FRONT];
    match found_at(machine, path.as_str(), &mut octets) {
        Ok(found) if is_free_for_status(found) => Ok(path),
        Ok(_) => Err(StartFault::NoStatus { path }),
        Err(reason) => Err(StartFault::StatusUnwritten { path, reason }),
    }
}

/// Returns the path of a transfer log, at which nothing else is. `Err` if there is.
fn log_path(machine: &HostRuntime, path: String) -> Result<String, StartFault>
    ensures path { IfOk result (λ same. same ≡ path) }
    ensures its { IfErr result (λ reason. fault_of reason ≡ ServeFault.TransferLog) }
    ensures named { IfErr result (λ reason. named_by reason ≡ Some (string_bytes path)) }
{
    let mut octets = [0; FRONT];
    match found_at(machine, path.as_str(), &mut octets) {
        Ok(found) if is_free_for_log(found) => Ok(path),
        Ok(_) => Err(StartFault::NoTransferLog { path }),
        Err(reason) => Err(StartFault::TransferLogUnopened { path, reason }),
    }
}

/// Fails if two paths of a service are those of one file.
fn check_twins(machine: &HostRuntime, service: &AskedService) -> Result<(), Unprepared>
    ensures its { IfErr result HasItsFault }
{
    match twin_of(machine, machine.alloc(), service) {
        Ok(None) => Ok(()),
        Ok(Some(path)) => Err(not_prepared(ServeFault::OnePath, StartFault::OnePath { path })),
        Err(_) => Err(Unprepared {
            fault: ServeFault::Memory,
            start: None,
        }),
    }
}

/// Returns the status file at these paths, if there is to be one. `Err` if none can be written there.
fn status_at(
    machine: &HostRuntime,
    paths: Option<(String, String)>,
) -> Result<Option<StatusFile<HostRuntime>>, StartFault>
    ensures file { IfOk result (IsFileIf group_mode paths) }
    ensures its { IfErr result (λ reason. fault_of reason ≡ ServeFault.StatusFile) }
{
    let Some((path, beside)) = paths else {
        return Ok(None);
    };
    let path = status_path(machine, path)?;
    let mut file = StatusFile::new(*machine, path, beside, STATUS_MODE);
    match file.try_out() {
        Ok(()) => Ok(Some(file)),
        Err(reason) => Err(StartFault::StatusUnwritten {
            path: file.into_path(),
            reason,
        }),
    }
}

/// Returns the running file at these paths, if there is to be one. Whether it can be written is noted later.
fn running_at(
    machine: &HostRuntime,
    paths: Option<(String, String)>,
) -> Option<StatusFile<HostRuntime>>
    ensures file { IsFileIf owner_mode paths result }
{
    match paths {
        None => None,
        Some((path, beside)) => {
            let file = StatusFile::new(*machine, path, beside, RUNNING_MODE);
            Some(file)
        }
    }
}

/// Returns the socket of the status page at a port, if there is to be one. `Err` if it cannot be had.
fn page_at<R>(rt: &R, port: Option<u16>) -> Result<Option<PageSocket>, StartFault>
where
    R: Net<Listener = TcpListener, Stream = TcpStream>,
    ensures page { IfOk result (λ page. is_some page ≡ is_some port) }
    ensures its { IfErr result (λ reason. fault_of reason ≡ ServeFault.StatusPort) }
{
    let Some(port) = port else {
        return Ok(None);
    };
    match PageSocket::new(rt, port) {
        Ok(socket) => Ok(Some(socket)),
        Err(reason) => Err(StartFault::StatusPortTaken { port, reason }),
    }
}

/// Returns the signs at these paths. `Err` says what could not be had.
fn signs_at(machine: &HostRuntime, paths: SignPaths) -> Result<Signs, Unprepared>
    ensures signs { IfOk result (AreSignsAt paths) }
    ensures its { IfErr result HasItsFault }
{
    let SignPaths {
        stop,
        drain,
        reload,
        end,
    } = paths;
    let stop = part(sign_if_any(machine, Sign::Stop, stop), ServeFault::Stopped)?;
    let drain = part(
        sign_if_any(machine, Sign::Drain, drain),
        ServeFault::Stopped,
    )?;
    let reload = part(
        sign_if_any(machine, Sign::Reload, reload),
        ServeFault::ReloadFile,
    )?;
    let end = end_if_any(machine, end)?;
    Ok(Signs {
        stop,
        drain,
        reload,
        end,
    })
}

/// Returns what shows the state at these paths and this port. `Err` says what could not be had.
fn shown_at<R>(
    rt: &R,
    machine: &HostRuntime,
    running: Option<(String, String)>,
    status: Option<(String, String)>,
    port: Option<u16>,
) -> Result<Shown, Unprepared>
where
    R: Net<Listener = TcpListener, Stream = TcpStream>,
    ensures shown { IfOk result (AreShownAt running status port) }
    ensures its { IfErr result HasItsFault }
{
    let running = running_at(machine, running);
    let status = part(status_at(machine, status), ServeFault::StatusFile)?;
    let page = part(page_at(rt, port), ServeFault::StatusPort)?;
    Ok(Shown {
        running,
        status,
        page,
    })
}

/// Prepares a service. `Err` says what could not be had.
pub fn prepare<R>(
    rt: &R,
    machine: &HostRuntime,
    service: AskedService,
) -> Result<Prepared, Unprepared>
where
    R: Net<Listener = TcpListener, Stream = TcpStream>,
    ensures prepared { IfOk result (IsPrepared service) }
    ensures its { IfErr result HasItsFault }
{
    check_twins(machine, &service)?;
    let AskedService {
        read,
        signs,
        written,
        log_form,
        status_port,
        syncs,
        user_sessions,
        patience,
    } = service;
    let WrittenPaths {
        ready,
        log,
        status,
        running,
    } = written;
    let form = part(form_named(log_form), ServeFault::LogForm)?;
    let user_sessions = part(sessions_in(user_sessions), ServeFault::UserSessions)?;
    check_options(patience, &read, &signs)?;
    let read = warned(read, syncs, user_sessions)?;
    let signs = signs_at(machine, signs)?;
    let ready = part(ready_if_any(machine, ready), ServeFault::ReadyFile)?;
    check_folder(machine, &read.config.store)?;
    let shown = shown_at(rt, machine, running, status, status_port)?;
    let log = part(log_at(machine, log), ServeFault::TransferLog)?;
    let means = Means {
        read,
        signs,
        shown,
        form,
        log,
        syncs,
        user_sessions,
        patience,
    };
    Ok(Prepared { means, ready })
}
