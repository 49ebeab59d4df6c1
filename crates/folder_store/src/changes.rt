//! Creating, removing and renaming entries of a folder.

ghost use Rattle.std.specs.Prelude.{◌≡◌, Ok, OnOk, string_bytes};
ghost use Rattle.folder_store.specs.MachineCalls.MachineCall.{MakesDirectory};
ghost use Rattle.folder_store.specs.Served.{AtPlace, RemovesShown, RemovesThatFile, RenamesEntry};
ghost use Rattle.folder_store.specs.Walks.{walker};

use crate::fault::MachineFault;
use crate::folder::Folder;
use crate::look::fault_of;
use crate::machine::FolderMachine;
use crate::moving::move_to_free;
use crate::opening::look_file;
use ftp_terms::EntryKind;
use virtual_path::VPath;

impl<M: FolderMachine + Drop> Folder<M> {
    /// Creates an empty directory.
    pub fn make_directory(&mut self, path: &VPath<M::A>) -> Result<(), MachineFault>
        ensures path { self.new.path ≡ self.old.path }
        ensures made { OnOk result (AtPlace M.Does (λ directory. M.Directory.raw_fd directory)
            (walker self.old.machine self.old.has_proc) (string_bytes self.old.path) path.now
            (λ here place after. M.Does here (MakesDirectory place (Ok tt)) after)
            (walker self.new.machine self.new.has_proc)) }
    {
        if path.is_root() {
            return Err(MachineFault::Exists);
        }
        let place = self.place(path)?;
        self.make_at(place.text())
    }

    fn make_at(&mut self, place: &str) -> Result<(), MachineFault>
        ensures path { self.new.path ≡ self.old.path }
        ensures proc { self.new.has_proc ≡ self.old.has_proc }
        ensures made { OnOk result
            (M.Does self.old.machine (MakesDirectory place.now (Ok tt)) self.new.machine) }
    {
        match self.machine.make_directory(place) {
            Ok(()) => Ok(()),
            Err(error) => Err(fault_of(&error)),
        }
    }

    /// Removes an empty directory.
    pub fn remove_directory(&mut self, path: &VPath<M::A>) -> Result<(), MachineFault>
        ensures path { self.new.path ≡ self.old.path }
        ensures removed { OnOk result (AtPlace M.Does (λ directory. M.Directory.raw_fd directory)
            (walker self.old.machine self.old.has_proc) (string_bytes self.old.path) path.now
            (λ here place after. RemovesShown M.Does here place after)
            (walker self.new.machine self.new.has_proc)) }
    {
        if path.is_root() {
            return Err(MachineFault::NotEmpty);
        }
        let place = self.found(path)?;
        self.remove_shown(place.text())
    }

    /// Removes an empty directory at a path of the machine.
    fn remove_shown(&mut self, place: &str) -> Result<(), MachineFault>
        ensures path { self.new.path ≡ self.old.path }
        ensures proc { self.new.has_proc ≡ self.old.has_proc }
        ensures removed { OnOk result
            (RemovesShown M.Does self.old.machine place.now self.new.machine) }
    {
        let meta = self.look(place)?;
        if meta.kind == EntryKind::File {
            return Err(MachineFault::NotDir);
        }
        match self.machine.remove_directory(place) {
            Ok(()) => Ok(()),
            Err(error) => Err(fault_of(&error)),
        }
    }

    /// Removes a file.
    pub fn remove_file(&mut self, path: &VPath<M::A>) -> Result<(), MachineFault>
        ensures path { self.new.path ≡ self.old.path }
        ensures removed { OnOk result (AtPlace M.Does (λ directory. M.Directory.raw_fd directory)
            (walker self.old.machine self.old.has_proc) (string_bytes self.old.path) path.now
            (λ here place after. RemovesThatFile M.Does here place after)
            (walker self.new.machine self.new.has_proc)) }
    {
        let place = self.found_file(path)?;
        self.remove_that(place.text())
    }

    /// Removes a file at a path of the machine.
    fn remove_that(&mut self, place: &str) -> Result<(), MachineFault>
        ensures path { self.new.path ≡ self.old.path }
        ensures proc { self.new.has_proc ≡ self.old.has_proc }
        ensures removed { OnOk result
            (RemovesThatFile M.Does self.old.machine place.now self.new.machine) }
    {
        let _looked = look_file(&mut self.machine, place)?;
        match self.machine.remove_file(place) {
            Ok(()) => Ok(()),
            Err(error) => Err(fault_of(&error)),
        }
    }

    /// Moves an entry to a path without an entry.
    pub fn rename(&mut self, from: &VPath<M::A>, to: &VPath<M::A>) -> Result<(), MachineFault>
        ensures path { self.new.path ≡ self.old.path }
        ensures moved { OnOk result (RenamesEntry M.Does (λ directory. M.Directory.raw_fd directory)
            (walker self.old.machine self.old.has_proc) (string_bytes self.old.path) from.now to.now
            (walker self.new.machine self.new.has_proc)) }
    {
        if from.is_root() || to.is_root() {
            return Err(MachineFault::Inside);
        }
        let old = self.found(from)?;
        let meta = self.look(old.text())?;
        let new = self.place(to)?;
        self.nothing_at(new.text())?;
        if to.starts_with(from) {
            return Err(MachineFault::Inside);
        }
        move_to_free(&mut self.machine, meta.kind, old.text(), new.text())
    }
}
