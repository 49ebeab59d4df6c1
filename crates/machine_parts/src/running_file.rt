//! The running file: the text of the configuration that the server has, and the thread that writes it.

ghost use Rattle.std.specs.Prelude.{◌≡◌};
ghost use Rattle.std.specs.Result.{is_ok};

use crate::log_thread::PlainNotes;
use crate::own_thread::{STACK, ThreadSigns, shared};
use crate::status_file::StatusFile;
use ftpd_program::ServeFault;
use std::alloc::Global;
use std::io;
use std::sync::{Arc, Mutex, Wait};
use std::thread::{Builder, Threads};
use std::time::Clock;

/// The permissions of the file: it has passwords, so its owner alone may read it.
pub const RUNNING_MODE: u32 = 0o600;

/// A running file that a thread writes, which nobody waits for.
#[derive(Drop)]
pub struct RunningWriter {
    // the octets that are to be written next
    octets: Mutex<Option<Arc<Vec<u8>>>>,
    signs: ThreadSigns,
}

impl RunningWriter {
    /// Starts the thread for a file; what cannot be written is noted. Fails without a thread, or memory.
    pub fn start<R>(
        rt: &R,
        alloc: Global,
        file: StatusFile<HostRuntime>,
        notes: PlainNotes,
    ) -> Result<Arc<RunningWriter>, ServeFault>
    where
        R: Threads + Wait + Clock + AllocGlobal + Copy + Send + Sync + 'static,
    {
        let writer = shared(
            alloc,
            RunningWriter {
                octets: Mutex::new(None),
                signs: ThreadSigns::new(),
            },
        )?;
        let own = Arc::try_clone(&writer)?;
        let runtime = *rt;
        let started = Builder::new()
            .stack_size(STACK)
            .spawn(rt, move || own.work(&runtime, file, &notes));
        match started {
            Ok(_) => Ok(writer),
            Err(_) => Err(ServeFault::NoThread),
        }
    }

    // Writes each text that it is given, until no more work comes; then removes the file, if it has the last one.
    fn work<R: Wait + Clock + AllocGlobal>(
        &self,
        rt: &R,
        file: StatusFile<HostRuntime>,
        notes: &PlainNotes,
    ) {
        let mut file = file;
        let mut is_written = false;
        for _ in rt.forever() {
            let seen = self.signs.seen();
            if let Some(octets) = self.next(rt) {
                let written = file.write(octets.as_slice());
                is_written = noted(rt, &file, notes, written);
            } else if self.signs.is_closed() {
                if is_written {
                    file.remove();
                }
                self.signs.end();
                return;
            } else {
                self.signs.wait(rt, seen);
            }
        }
        unreachable!()
    }

    fn next<R: Wait>(&self, rt: &R) -> Option<Arc<Vec<u8>>> {
        self.octets.lock(rt).take()
    }

    /// Gives the thread octets to write. Those that it has not begun to write are dropped for them.
    pub fn put<R: Wait>(&self, rt: &R, octets: Arc<Vec<u8>>) {
        *self.octets.lock(rt) = Some(octets);
        self.signs.wake();
    }

    /// Has the file removed, and waits for the end of the thread, at most a second.
    pub fn leave<R: Wait + Clock>(&self, rt: &R) {
        self.signs.leave(rt);
    }
}

// Notes the machine's reason for which a text was not written, if there is one. Returns whether it was written.
fn noted<R: Wait + AllocGlobal>(
    rt: &R,
    file: &StatusFile<HostRuntime>,
    notes: &PlainNotes,
    written: io::Result<()>,
) -> bool
    ensures written { result ≡ is_ok written }
{
    match written {
        Ok(()) => true,
        Err(reason) => {
            notes.note_unwritten(rt, "running file", file.path(), reason);
            false
        }
    }
}
