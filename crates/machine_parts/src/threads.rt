//! The threads that own files and sockets of the machine for a server.

ghost use Rattle.std.specs.Prelude.{◌≡◌, IfOk, is_some, option_map};
ghost use Rattle.std.specs.Arc.{arc_value};
ghost use Rattle.machine_parts.specs.OwnThreads.{AreStarted, IsReader, IsServed};

use crate::config_thread::ConfigReader;
use crate::log_thread::{LogThreads, PlainNotes};
use crate::page_thread::{PageSocket, PageThread};
use crate::running_file::RunningWriter;
use crate::starting::Shown;
use crate::status_file::StatusFile;
use crate::status_thread::StatusWriter;
use ftpd_program::ServeFault;
use server_house::ServerRuntime;
use status_keeper::StatusCell;
use std::alloc::AllocError;
use std::sync::Arc;
use std::thread::Threads;

/// The threads that own files and sockets of the machine for a server, as far as they are wanted.
#[derive(Drop)]
pub struct OwnThreads {
    /// It reads the configuration again.
    pub reader: Option<Arc<ConfigReader>>,
    /// It writes the running file.
    pub running: Option<Arc<RunningWriter>>,
    /// It reads the end file, and removes it.
    pub ender: Option<Arc<ConfigReader>>,
    /// It writes the status file.
    pub status: Option<Arc<StatusWriter>>,
    // it serves the status page
    page: Option<Arc<PageThread>>,
}

/// The files that such threads read, by their paths, if they are to be read.
#[derive(Drop)]
pub struct ReadPaths {
    /// The configuration, which may be read again.
    pub config: Option<String>,
    /// The end file.
    pub end: Option<String>,
}

/// Another handle of a thread, if there is one.
pub fn another<T>(thread: &Option<Arc<T>>) -> Result<Option<Arc<T>>, AllocError>
    ensures same { IfOk result
        (λ other. option_map arc_value other ≡ option_map arc_value thread.now) }
{
    match thread {
        Some(thread) => Ok(Some(Arc::try_clone(thread)?)),
        None => Ok(None),
    }
}

// A file that a thread writes, if there is to be one, with notes of what cannot be written.
fn with_notes(
    written: Option<StatusFile<HostRuntime>>,
    log: &LogThreads,
) -> Result<Option<(StatusFile<HostRuntime>, PlainNotes)>, AllocError>
    ensures file { IfOk result (λ both. option_map (λ both. both.0) both ≡ written) }
{
    match written {
        Some(file) => Ok(Some((file, log.plain_notes()?))),
        None => Ok(None),
    }
}

// The thread that reads a file, if it is to be read.
fn reader_of<R>(
    rt: &R,
    machine: &HostRuntime,
    path: Option<String>,
    removes: bool,
) -> Result<Option<Arc<ConfigReader>>, ServeFault>
where
    R: Threads + ServerRuntime + Copy + Send + Sync + 'static,
    ensures reader { IfOk result (IsReader removes path) }
{
    match path {
        Some(path) => {
            let reader = ConfigReader::start(rt, machine, path, removes)?;
            Ok(Some(reader))
        }
        None => Ok(None),
    }
}

// Starts the thread that writes the running file, if there is to be one.
fn running_of<R>(
    rt: &R,
    machine: &HostRuntime,
    file: Option<StatusFile<HostRuntime>>,
    log: &LogThreads,
) -> Result<Option<Arc<RunningWriter>>, ServeFault>
where
    R: Threads + ServerRuntime + Copy + Send + Sync + 'static,
    ensures running { IfOk result (λ thread. is_some thread ≡ is_some file) }
{
    match with_notes(file, log)? {
        Some((file, notes)) => {
            let writer = RunningWriter::start(rt, machine.alloc(), file, notes)?;
            Ok(Some(writer))
        }
        None => Ok(None),
    }
}

// Starts the thread that writes the status file, if there is to be one.
fn status_of<R>(
    rt: &R,
    machine: &HostRuntime,
    file: Option<StatusFile<HostRuntime>>,
    log: &LogThreads,
) -> Result<Option<Arc<StatusWriter>>, ServeFault>
where
    R: Threads + ServerRuntime + Copy + Send + Sync + 'static,
    ensures status { IfOk result (λ thread. is_some thread ≡ is_some file) }
{
    match with_notes(file, log)? {
        Some((file, notes)) => {
            let writer = StatusWriter::start(rt, machine.alloc(), file, notes)?;
            Ok(Some(writer))
        }
        None => Ok(None),
    }
}

// Starts the thread that serves the status page from a cell, if there is to be one.
fn page_of<R>(
    rt: &R,
    machine: &HostRuntime,
    socket: Option<PageSocket>,
    cell: Arc<StatusCell>,
) -> Result<Option<Arc<PageThread>>, ServeFault>
where
    R: Threads + ServerRuntime + Copy + Send + Sync + 'static,
    ensures page { IfOk result (IsServed cell socket) }
{
    match socket {
        Some(socket) => {
            let page = PageThread::start(rt, machine, socket, cell)?;
            Ok(Some(page))
        }
        None => Ok(None),
    }
}

impl OwnThreads {
    /// Starts those that are wanted: what they show is in the cell, and what they cannot write is in the notes. Fails
    /// without a thread, or memory.
    pub fn start<R>(
        rt: &R,
        machine: &HostRuntime,
        read: ReadPaths,
        shown: Shown,
        log: &LogThreads,
        cell: Arc<StatusCell>,
    ) -> Result<OwnThreads, ServeFault>
    where
        R: Threads + ServerRuntime + Copy + Send + Sync + 'static,
        ensures started { IfOk result (AreStarted read shown cell) }
    {
        let ReadPaths { config, end } = read;
        let Shown {
            running,
            status,
            page,
        } = shown;
        let reader = reader_of(rt, machine, config, false)?;
        let ender = reader_of(rt, machine, end, true)?;
        let running = running_of(rt, machine, running, log)?;
        let status = status_of(rt, machine, status, log)?;
        let page = page_of(rt, machine, page, cell)?;
        Ok(OwnThreads {
            reader,
            running,
            ender,
            status,
            page,
        })
    }

    /// Waits for the end of each, at most a second.
    pub fn leave<R: ServerRuntime>(&self, rt: &R) {
        if let Some(page) = &self.page {
            page.leave(rt);
        }
        if let Some(status) = &self.status {
            status.leave(rt);
        }
        if let Some(running) = &self.running {
            running.leave(rt);
        }
        if let Some(ender) = &self.ender {
            ender.leave(rt);
        }
        if let Some(reader) = &self.reader {
            reader.leave(rt);
        }
    }
}
