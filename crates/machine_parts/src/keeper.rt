//! The notes, the transfer log and the status, which a server's events are told to.

ghost use Rattle.std.specs.Prelude.{◌≡◌, IfOk, None, Some, cond, option_map};
ghost use Rattle.std.specs.Arc.{arc_value};

use crate::asked::ReadText;
use crate::facts::{Start, facts_of};
use crate::log_thread::{LogThreads, QueuedTransfers};
use ftpd_program::ServeFault;
use line_queue::QueuedLog;
use log::{Level, Logged};
use server_house::ServerRuntime;
use session_notes::Notes;
use status_keeper::{StatusCell, StatusKeeper};
use std::alloc::{AllocError, Global};
use std::sync::Arc;

/// Notes on standard error and a transfer log, which threads of their own write, and the status.
pub type MachineNotes<R> = StatusKeeper<
    R,
    Notes<Logged<HostRuntime, QueuedLog<R>>, QueuedTransfers<R>>,
>;

/// The cell of a status, with other handles if the status is shown.
#[derive(Drop)]
pub struct Cells {
    pub cell: Arc<StatusCell>,
    /// That of the keeper, who puts the status there.
    pub kept: Option<Arc<StatusCell>>,
    /// That of the signs, which see to it that the status is written.
    pub watched: Option<Arc<StatusCell>>,
}

impl Cells {
    /// A cell without a status.
    pub fn new(alloc: Global, is_shown: bool) -> Result<Cells, AllocError>
        ensures kept { IfOk result (λ cells. option_map arc_value cells.kept
            ≡ cond is_shown (Some (arc_value cells.cell)) None) }
        ensures watched { IfOk result (λ cells. option_map arc_value cells.watched
            ≡ cond is_shown (Some (arc_value cells.cell)) None) }
    {
        let cell = Arc::new(alloc, StatusCell::new())?;
        if !is_shown {
            return Ok(Cells {
                cell,
                kept: None,
                watched: None,
            });
        }
        let kept = Arc::try_clone(&cell)?;
        let watched = Arc::try_clone(&cell)?;
        Ok(Cells {
            cell,
            kept: Some(kept),
            watched: Some(watched),
        })
    }
}

// The notes and the transfer log, once the warnings of the configuration are noted.
fn notes_of<R>(
    rt: &R,
    machine: &HostRuntime,
    log: &LogThreads,
    warnings: &str,
) -> Result<Notes<Logged<HostRuntime, QueuedLog<R>>, QueuedTransfers<R>>, AllocError>
where
    R: ServerRuntime + Copy + Send + Sync,
{
    let form = log.form();
    let queued = QueuedLog::new(*rt, log.notes()?, form);
    let transfers = QueuedTransfers::new(*rt, log.transfers()?, log.plain_notes()?);
    let notes = Notes::new(Logged::new(*machine, Level::Debug, queued), form, transfers);
    notes.note_warnings(warnings);
    Ok(notes)
}

/// The keeper of the events of a server with this configuration, from its start on. Fails without memory.
pub fn keeper_of<R>(
    rt: &R,
    machine: &HostRuntime,
    log: &LogThreads,
    read: &ReadText,
    start: Start,
    kept: Option<Arc<StatusCell>>,
) -> Result<MachineNotes<R>, ServeFault>
where
    R: ServerRuntime + Copy + Send + Sync,
{
    let Some(facts) = facts_of(rt.alloc(), start, &read.config, &read.config.limits) else {
        return Err(ServeFault::Memory);
    };
    let notes = notes_of(rt, machine, log, read.warnings.as_str())?;
    Ok(StatusKeeper::new(*rt, notes, facts, kept))
}
