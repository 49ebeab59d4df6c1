//! The threads that read the configuration again, and the file of sessions that are to end.

ghost use Rattle.std.specs.Prelude.{◌≡◌, IfErr, IfOk, not, option_map, string_bytes};
ghost use Rattle.std.specs.Arc.{arc_value};
ghost use Rattle.machine_parts.specs.FileReading.{IsNotHad, ReadsOnce};
ghost use Rattle.machine_parts.specs.OwnThreads.{after_take, is_asked, octets_of};
ghost use Rattle.machine_parts.specs.declared.config_thread.Reading.TheVariants.{Asked};

use crate::file_reading::{ReadOctets, read_once};
use crate::own_thread::{STACK, ThreadSigns, shared};
use folder_store::FolderMachine;
use ftpd_program::ServeFault;
use std::alloc::Global;
use std::sync::{Arc, Mutex, Wait};
use std::thread::{Builder, Threads};
use std::time::Clock;

/// The state of the thread.
#[derive(Drop)]
enum Reading {
    /// It is asked for nothing.
    Idle,
    /// It is to read the file, or reads it.
    Asked,
    /// It has read it.
    Done(ReadOctets),
}

impl Reading {
    // Returns whether the file is to be read.
    fn is_asked(&self) -> bool
        ensures asked { result ≡ is_asked self.now }
    {
        matches!(self, Reading::Asked)
    }

    // Asks for the file. Returns whether that was not done already.
    fn ask(&mut self) -> bool
        ensures first { result ≡ not (is_asked self.old) }
        ensures asked { self.new ≡ Asked }
    {
        let is_first = !self.is_asked();
        *self = Reading::Asked;
        is_first
    }

    // Takes what was read, once it is.
    fn take(&mut self) -> Option<ReadOctets>
        ensures octets { result ≡ octets_of self.old }
        ensures rest { self.new ≡ after_take self.old }
    {
        match std::mem::replace(self, Reading::Idle) {
            Reading::Done(octets) => Some(octets),
            other => {
                *self = other;
                None
            }
        }
    }
}

/// A file that a thread reads, which nobody waits for.
#[derive(Drop)]
pub struct ConfigReader {
    path: String,
    reading: Mutex<Reading>,
    signs: ThreadSigns,
    /// A file is removed once it is read, unless it is empty.
    removes: bool,
}

impl ConfigReader {
    /// Starts the thread for a file at a path, which is removed once it is read, if it is to be. Fails without a thread,
    /// or memory.
    pub fn start<R>(
        rt: &R,
        machine: &HostRuntime,
        path: String,
        removes: bool,
    ) -> Result<Arc<ConfigReader>, ServeFault>
    where
        R: Threads + Wait + Clock + Copy + Send + Sync + 'static,
        ensures path { IfOk result (λ reader. (arc_value reader).path ≡ path) }
        ensures removes { IfOk result (λ reader. (arc_value reader).removes ≡ removes) }
    {
        let reader = shared(
            machine.alloc(),
            ConfigReader {
                path,
                reading: Mutex::new(Reading::Idle),
                signs: ThreadSigns::new(),
                removes,
            },
        )?;
        let own = Arc::try_clone(&reader)?;
        let runtime = *rt;
        let machine = *machine;
        let started = Builder::new()
            .stack_size(STACK)
            .spawn(rt, move || own.work(&runtime, machine));
        match started {
            Ok(_) => Ok(reader),
            Err(_) => Err(ServeFault::NoThread),
        }
    }

    /// Returns the path.
    pub fn path(&self) -> &str
        ensures path { result.now ≡ string_bytes self.now.path }
    {
        self.path.as_str()
    }

    // Reads the file, and removes it then, if it is to be.
    fn read<M: FolderMachine>(&self, alloc: Global, machine: &mut M) -> ReadOctets
        ensures octets { IfOk result (λ octets. ReadsOnce M.Does (λ f. M.File.remaining f)
            self.now.removes machine.old (string_bytes self.now.path) octets.items machine.new) }
        ensures refused { IfErr result (λ words. IsNotHad M.Does (λ f. M.File.remaining f)
            self.now.removes machine.old (string_bytes self.now.path)
            (option_map string_bytes words) machine.new) }
    {
        read_once(alloc, machine, self.path.as_str(), self.removes)
    }

    // Reads the file each time that it is asked to, until no more work comes.
    fn work<R: Wait + Clock>(&self, rt: &R, machine: HostRuntime) {
        let mut machine = machine;
        for _ in rt.forever() {
            let seen = self.signs.seen();
            if self.signs.is_closed() {
                self.signs.end();
                return;
            }
            if self.is_asked(rt) {
                let octets = self.read(machine.alloc(), &mut machine);
                *self.reading.lock(rt) = Reading::Done(octets);
            } else {
                self.signs.wait(rt, seen);
            }
        }
        unreachable!()
    }

    fn is_asked<R: Wait>(&self, rt: &R) -> bool {
        self.reading.lock(rt).is_asked()
    }

    /// Asks for the octets of the file. Returns whether the thread was idle: otherwise it still reads.
    pub fn ask<R: Wait>(&self, rt: &R) -> bool {
        let is_first = self.reading.lock(rt).ask();
        self.signs.wake();
        is_first
    }

    /// Returns the octets of the file once they are read.
    pub fn take<R: Wait>(&self, rt: &R) -> Option<ReadOctets> {
        self.reading.lock(rt).take()
    }

    /// Waits for the end of the thread, at most a second.
    pub fn leave<R: Wait + Clock>(&self, rt: &R) {
        self.signs.leave(rt);
    }
}
