//! The store.

ghost use Rattle.std.specs.Prelude.{◌≡◌, ◌⊎◌, false, IfOk, IfErr, Some};
ghost use Rattle.folder_store.specs.Honest.{IsHonest};
ghost use Rattle.folder_store.specs.Refusals.{store_fault};

use crate::count::FaultCount;
use crate::fault::MachineFault;
use crate::folder::Folder;
use crate::leaving::LeaveSign;
use crate::looked::LookedKind;
use crate::machine::FolderMachine;
use crate::open::{DirSink, DirSource, read_rest, write_new};
use ftp_terms::Meta;
use last_fault::LastFault;
use std::io::ErrorKind;
use std::marker::Model;
use virtual_path::VPath;
use virtual_tree::{ListedEntry, Store, StoreFault, WriteMode};

/// A folder of the machine and everything beneath it. It has no capacity: a full disk is a fault of the
/// device.
///
/// The machine's error of the last fault of the device is left in a [`LastFault`], also that of a read or write of a file
/// that it has opened.
#[derive(Drop)]
pub struct DirStore<M: FolderMachine + Drop> {
    folder: Folder<M>,
    faults: FaultCount,
    fault: LastFault,
    // files that were written are synced before they are closed
    syncs: bool,
}

impl<M: FolderMachine + Drop> Model for DirStore<M> {
    ghost use Rattle.std.specs.Prelude.{string_bytes};
    ghost use Rattle.folder_store.specs.Honest.{FolderState};

    ghost Value = { FolderState M };

    ghost view = { λ store. record {
      machine = store.folder.machine;
      numbered = store.folder.has_proc;
      folder = string_bytes store.folder.path;
      syncs = store.syncs;
      faults = store.faults;
    } };
}

impl<M: FolderMachine + Drop> DirStore<M> {
    /// The folder at a path of the machine, which must exist. A link at its end is followed. The errors of its faults
    /// are left in `fault`.
    pub fn new(machine: M, folder: &str, fault: LastFault) -> Result<DirStore<M>, StoreFault>
        ensures new { IfOk result (λ store. store.faults.count ≡ 0) }
        ensures folder { IfOk result (λ store. store.folder ≡ folder.now) }
        ensures syncs { IfOk result (λ store. store.syncs ≡ false) }
        ensures faults { IfErr result (λ fault. (fault ≡ StoreFault.NotFound)
            ⊎ (fault ≡ StoreFault.NotDir) ⊎ (fault ≡ StoreFault.Device)
            ⊎ (fault ≡ StoreFault.Memory)) }
    {
        let mut machine = machine;
        match machine.follow(folder) {
            Ok(looked) => {
                if looked.kind != LookedKind::Directory {
                    return Err(StoreFault::NotDir);
                }
            }
            Err(error) => {
                return match error.kind() {
                    ErrorKind::NotFound => Err(StoreFault::NotFound),
                    ErrorKind::NotADirectory => Err(StoreFault::NotDir),
                    ErrorKind::OutOfMemory => Err(StoreFault::Memory),
                    _ => {
                        fault.put(error);
                        Err(StoreFault::Device)
                    }
                };
            }
        }
        let path = String::from_str(machine.alloc(), folder)?;
        Ok(DirStore {
            folder: Folder {
                machine,
                path,
                has_proc: false,
                leaves: None,
            },
            faults: FaultCount { count: 0 },
            fault,
            syncs: false,
        })
    }

    /// The store, whose listings are left, with a fault of the device, once this sign is given.
    pub fn left_by(self, sign: LeaveSign) -> DirStore<M>
        ensures same { result ≡ self }
    {
        let mut store = self;
        store.folder.leaves = Some(sign);
        store
    }

    /// The store, and whether it has the octets of a file that was written put on the device before the file is closed. A
    /// new store does not.
    pub fn syncing(self, syncs: bool) -> DirStore<M>
        ensures same { result ≡ record self { syncs = syncs } }
    {
        let DirStore {
            folder,
            faults,
            fault,
            syncs: _,
        } = self;
        DirStore {
            folder,
            faults,
            fault,
            syncs,
        }
    }

    /// The fault as a store returns it. A fault of the device is counted, and its error kept.
    fn refused(&mut self, fault: MachineFault) -> StoreFault
        ensures same { result ≡ store_fault fault }
        ensures honest { IsHonest self.old.faults.count self.new.faults.count (Some result) }
        ensures folder { self.new.folder ≡ self.old.folder }
        ensures syncs { self.new.syncs ≡ self.old.syncs }
    {
        if let MachineFault::Device(error) = fault {
            self.fault.put(error);
        }
        let fault = fault.in_store();
        if fault == StoreFault::Device {
            self.faults = FaultCount {
                count: self.faults.count.wrapping_add(1),
            };
        }
        fault
    }
}

impl<M: FolderMachine + Drop> Store<M::A> for DirStore<M> {
    ghost use Rattle.std.specs.Prelude.{None};
    ghost use Rattle.folder_store.specs.Honest.{FolderStep};

    type Source = DirSource<M::File>;

    type Sink = DirSink<M::File>;

    ghost Step = { λ old exchange new.
        FolderStep M.Does (λ directory. M.Directory.raw_fd directory) old exchange new };

    ghost capacity = { λ _. None };

    ghost would_hold = { λ _ _ _. 0 };

    ghost fault_count = { λ store. store.faults.count };

    fn faults(&self) -> u64 {
        self.faults.count
    }

    fn stat(&mut self, path: &VPath<M::A>) -> Result<Meta, StoreFault> {
        match self.folder.look_at(path) {
            Ok(reported) => Ok(reported),
            Err(fault) => Err(self.refused(fault)),
        }
    }

    fn list(&mut self, path: &VPath<M::A>) -> Result<Vec<ListedEntry<M::A>, M::A>, StoreFault> {
        match self.folder.list(path) {
            Ok(reported) => Ok(reported),
            Err(fault) => Err(self.refused(fault)),
        }
    }

    fn open_read(
        &mut self,
        path: &VPath<M::A>,
        offset: u64,
    ) -> Result<DirSource<M::File>, StoreFault> {
        let Ok(fault) = self.fault.another() else {
            return Err(StoreFault::Memory);
        };
        match self.folder.read_from(path, offset) {
            Ok(rest) => Ok(read_rest(rest, fault)),
            Err(refused) => Err(self.refused(refused)),
        }
    }

    fn open_write(
        &mut self,
        path: &VPath<M::A>,
        mode: WriteMode,
        _moment: u64,
    ) -> Result<DirSink<M::File>, StoreFault> {
        let Ok(fault) = self.fault.another() else {
            return Err(StoreFault::Memory);
        };
        match self.folder.write_by(path, mode) {
            Ok(file) => Ok(write_new(file, fault)),
            Err(refused) => Err(self.refused(refused)),
        }
    }

    fn finish(&mut self, sink: DirSink<M::File>, _moment: u64) -> Result<(), StoreFault> {
        match self.folder.finish(sink.into_file(), self.syncs) {
            Ok(reported) => Ok(reported),
            Err(fault) => Err(self.refused(fault)),
        }
    }

    fn make_dir(&mut self, path: &VPath<M::A>) -> Result<(), StoreFault> {
        match self.folder.make_directory(path) {
            Ok(reported) => Ok(reported),
            Err(fault) => Err(self.refused(fault)),
        }
    }

    fn remove_dir(&mut self, path: &VPath<M::A>) -> Result<(), StoreFault> {
        match self.folder.remove_directory(path) {
            Ok(reported) => Ok(reported),
            Err(fault) => Err(self.refused(fault)),
        }
    }

    fn remove_file(&mut self, path: &VPath<M::A>) -> Result<(), StoreFault> {
        match self.folder.remove_file(path) {
            Ok(reported) => Ok(reported),
            Err(fault) => Err(self.refused(fault)),
        }
    }

    fn rename(&mut self, from: &VPath<M::A>, to: &VPath<M::A>) -> Result<(), StoreFault> {
        match self.folder.rename(from, to) {
            Ok(reported) => Ok(reported),
            Err(fault) => Err(self.refused(fault)),
        }
    }

    ghost honest = { λ old new exchange step. step.honest.device };

    ghost fits = { λ old new exchange step full. absurd (step.honest.never_full full) };

    ghost counts = { λ store. store.faults.small };
}
