//! The signs of the machine by which the owner guides a server.

ghost use Rattle.std.specs.Prelude.{true};

use crate::end_file::EndFile;
use crate::reload_file::{ReloadFile, TakenConfig};
use ftp_daemon::{EndSign, OwnerSigns, ReloadFault, ReloadSign};
use ftp_server::StopFlag;
use machine_parts::{PlainNotes, SignFile, SignLook, StatusWriter};
use server_status::status_text;
use status_keeper::StatusCell;
use std::sync::{Arc, Wait};

/// The signs of the machine for a server whose rates stay as they are: that it is to end or to drain, by files that appear,
/// and that it is to show what goes on.
#[derive(Drop)]
pub struct FixedSigns<R> {
    pub rt: R,
    pub stop: Option<SignFile>,
    /// Raised once the server is to end: listings under way are left.
    pub leaves: StopFlag,
    pub drain: Option<SignFile>,
    pub end: Option<EndFile>,
    /// The notes, for a file that cannot be examined.
    pub notes: PlainNotes,
    /// The thread that writes the status file, if there is one.
    pub status: Option<Arc<StatusWriter>>,
    /// The status, if it is shown at all.
    pub cell: Option<Arc<StatusCell>>,
}

impl<R: Wait + AllocGlobal> FixedSigns<R> {
    // Returns whether a sign is there; not if there is no such file to be. One that cannot be examined is noted once.
    fn is_given(&self, sign: &Option<SignFile>) -> bool {
        let Some(sign) = sign else {
            return false;
        };
        let look = sign.look();
        if let Some(reason) = sign.new_reason(look) {
            self.notes.note_unseen(&self.rt, sign.path(), reason);
        }
        matches!(look, SignLook::There)
    }
}

// It takes no configuration, so it puts no rates in force.
impl<R: Wait + AllocGlobal> OwnerSigns for FixedSigns<R> {
    fn is_up(&self) -> bool {
        let is_up = self.is_given(&self.stop);
        if is_up {
            self.leaves.raise();
        }
        is_up
    }

    fn is_to_drain(&self) -> bool {
        self.is_given(&self.drain)
    }

    fn to_end(&self) -> EndSign {
        match &self.end {
            Some(file) => file.asked(&self.rt),
            None => EndSign::Nothing,
        }
    }

    fn wants_looks(&self) -> bool {
        self.cell.is_some()
    }

    // If memory runs out, the next look is written.
    fn looked(&self) {
        if let (Some(writer), Some(cell)) = (&self.status, &self.cell) {
            if let Ok(Some(status)) = cell.last(&self.rt) {
                if let Ok(text) = status_text(self.rt.alloc(), &status) {
                    writer.put(&self.rt, text);
                }
            }
        }
    }
}

/// The signs of the machine for a server that takes another configuration once its reload file appears. Any rates may be in
/// it.
#[derive(Drop)]
pub struct MachineSigns<R> {
    /// All other signs.
    pub fixed: FixedSigns<R>,
    pub reload: ReloadFile,
}

impl<R: Wait + AllocGlobal> OwnerSigns for MachineSigns<R> {
    fn is_up(&self) -> bool {
        self.fixed.is_up()
    }

    fn is_to_drain(&self) -> bool {
        self.fixed.is_to_drain()
    }

    ghost allows = { λ _. true };

    fn reload(&self) -> ReloadSign {
        self.reload.asked(&self.fixed.rt)
    }

    fn taken(&self) -> Option<String> {
        let TakenConfig {
            gone,
            facts,
            changes,
        } = self.reload.taken(&self.fixed.rt)?;
        if gone > 0 {
            self.fixed.notes.note_gone(&self.fixed.rt, gone);
        }
        if let (Some(facts), Some(cell)) = (facts, &self.fixed.cell) {
            cell.put_facts(&self.fixed.rt, facts);
        }
        changes
    }

    fn refused(&self, fault: ReloadFault) -> Option<String> {
        self.reload.refused(&self.fixed.rt, fault)
    }

    fn to_end(&self) -> EndSign {
        self.fixed.to_end()
    }

    fn wants_looks(&self) -> bool {
        self.fixed.wants_looks()
    }

    fn looked(&self) {
        self.fixed.looked()
    }
}
