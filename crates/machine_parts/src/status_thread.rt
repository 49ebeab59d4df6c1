//! The thread that writes the status file.

ghost use Rattle.std.specs.Prelude.{◌≡◌, false, MatchResult, true};

use crate::log_thread::PlainNotes;
use crate::own_thread::{STACK, ThreadSigns, shared};
use crate::status_file::StatusFile;
use ftpd_program::ServeFault;
use std::alloc::Global;
use std::io;
use std::sync::{Arc, Mutex, Wait};
use std::thread::{Builder, Threads};
use std::time::Clock;

/// A status file that a thread writes, which nobody waits for.
#[derive(Drop)]
pub struct StatusWriter {
    // the text that is to be written next
    text: Mutex<Option<String>>,
    signs: ThreadSigns,
}

impl StatusWriter {
    /// Starts the thread for a file; that it cannot be written is noted once, until it can. Fails without a thread, or
    /// memory.
    pub fn start<R>(
        rt: &R,
        alloc: Global,
        file: StatusFile<HostRuntime>,
        notes: PlainNotes,
    ) -> Result<Arc<StatusWriter>, ServeFault>
    where
        R: Threads + Wait + Clock + AllocGlobal + Copy + Send + Sync + 'static,
    {
        let writer = shared(
            alloc,
            StatusWriter {
                text: Mutex::new(None),
                signs: ThreadSigns::new(),
            },
        )?;
        let own = Arc::try_clone(&writer)?;
        let runtime = *rt;
        let started = Builder::new()
            .stack_size(STACK)
            .spawn(rt, move || own.work(&runtime, file, &notes));
        match started {
            Ok(_) => Ok(writer),
            Err(_) => Err(ServeFault::NoThread),
        }
    }

    // Writes each text that it is given, until no more work comes; then removes the file.
    fn work<R: Wait + Clock + AllocGlobal>(
        &self,
        rt: &R,
        file: StatusFile<HostRuntime>,
        notes: &PlainNotes,
    ) {
        let mut file = file;
        let mut is_noted = false;
        for _ in rt.forever() {
            let seen = self.signs.seen();
            if self.signs.is_closed() {
                file.remove();
                self.signs.end();
                return;
            }
            match self.next(rt) {
                Some(text) => {
                    let written = file.write(text.as_bytes());
                    is_noted = noted(rt, &file, notes, is_noted, written);
                }
                None => self.signs.wait(rt, seen),
            }
        }
        unreachable!()
    }

    fn next<R: Wait>(&self, rt: &R) -> Option<String> {
        self.text.lock(rt).take()
    }

    /// Gives the thread a text to write. One that it has not begun to write is dropped for it.
    pub fn put<R: Wait>(&self, rt: &R, text: String) {
        *self.text.lock(rt) = Some(text);
        self.signs.wake();
    }

    /// Has the file removed, and waits for the end of the thread, at most a second.
    pub fn leave<R: Wait + Clock>(&self, rt: &R) {
        self.signs.leave(rt);
    }
}

// Notes the machine's reason for which a text was not written, unless that of an earlier one is noted. Returns whether one
// is noted now, until a text is written.
fn noted<R: Wait + AllocGlobal>(
    rt: &R,
    file: &StatusFile<HostRuntime>,
    notes: &PlainNotes,
    is_noted: bool,
    written: io::Result<()>,
) -> bool
    ensures noted { MatchResult written (λ _. result ≡ false) (λ _. result ≡ true) }
{
    match written {
        Ok(()) => false,
        Err(reason) => {
            if !is_noted {
                notes.note_unwritten(rt, "status file", file.path(), reason);
            }
            true
        }
    }
}
