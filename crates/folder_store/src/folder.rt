//! Paths of entries in a folder of the machine, and their metadata.

ghost use Rattle.std.specs.Prelude.{◌≡◌, ◌⊎◌, ◌++◌, ◌∷◌, [], false, map, Err, IfOk, Ok, OnOk, Some, string_bytes};
ghost use Rattle.folder_store.specs.Looks.{meta_of};
ghost use Rattle.folder_store.specs.MachineCalls.MachineCall.{Follows, Looks};
ghost use Rattle.folder_store.specs.Served.{StatsEntry};
ghost use Rattle.folder_store.specs.Walks.{FindsNumber, GoesInto, StepsInto, Walks, WalksTo, walker};
ghost use Rattle.folder_store.specs.declared.looked.Looked.{Looked};
ghost use Rattle.folder_store.specs.MachinePaths.{IsEntered, IsOpenText};
ghost use Rattle.folder_store.specs.Places.{LeadsTo};
ghost use Rattle.ftp_terms.specs.declared.entries.EntryKind.TheVariants as entry;
ghost use Rattle.std.specs.IoError.{error_kind};
ghost use Rattle.std.specs.declared.io.Error.{Error};
ghost use Rattle.std.specs.declared.io.ErrorKind.TheVariants.{PermissionDenied};

use crate::fault::MachineFault;
use crate::leaving::LeaveSign;
use crate::look::{fault_of, found, is_same, meta_of};
use crate::looked::Looked;
use crate::machine::FolderMachine;
use crate::machine_path::{MachinePath, open_text};
use ftp_terms::{EntryKind, Meta};
use std::io;
use std::io::ErrorKind;
use virtual_path::VPath;

/// A folder of the machine, given by the machine's path.
#[derive(Drop)]
pub(crate) struct Folder<M: FolderMachine + Drop> {
    pub machine: M,
    pub path: String<M::A>,
    /// The machine has `/proc`: an open directory was found there by its number.
    pub has_proc: bool,
    /// A sign that listings are to be left, if there is one.
    pub leaves: Option<LeaveSign>,
}

/// The metadata of a directory or a file; anything else is not found.
fn known(looked: &Looked) -> Result<Meta, MachineFault>
    ensures known { IfOk result (λ meta. meta_of looked.now ≡ Some meta) }
{
    meta_of(looked).ok_or(MachineFault::NotFound)
}

impl<M: FolderMachine + Drop> Folder<M> {
    /// The folder, by its path. It may be reached through a link.
    fn top(&self) -> Result<MachinePath<M::Directory, M::A>, MachineFault>
        ensures place { IfOk result (LeadsTo (string_bytes self.now.path) []) }
        ensures top { IfOk result (λ place. place ≡ string_bytes self.now.path) }
    {
        let place = MachinePath::named(self.machine.alloc(), self.path.as_str())?;
        Ok(place)
    }

    /// Returns whether the open directory at a place is found by the path of its number too. This is asked until it was
    /// found once. `NotFound` if another entry is at the place by now.
    fn is_numbered(&mut self, place: &str, text: &str) -> Result<bool, MachineFault>
        ensures path { self.new.path ≡ self.old.path }
        ensures found { IfOk result (λ found. FindsNumber M.Does
            (walker self.old.machine self.old.has_proc) place.now text.now found
            (walker self.new.machine self.new.has_proc)) }
    {
        if self.has_proc {
            return Ok(true);
        }
        let Ok(numbered) = self.machine.follow(text) else {
            return Ok(false);
        };
        let named = found(self.machine.look(place))?;
        if !is_same(&named, &numbered) {
            return Err(MachineFault::NotFound);
        }
        self.has_proc = true;
        Ok(true)
    }

    /// Continues through the open directory that a path leads to. If the machine has no `/proc`, the path continues by its
    /// name.
    pub fn go_on(
        &mut self,
        place: &mut MachinePath<M::Directory, M::A>,
        directory: M::Directory,
    ) -> Result<(), MachineFault>
        ensures entered { OnOk result (IsEntered place.old place.new) }
        ensures path { self.new.path ≡ self.old.path }
        ensures went { OnOk result (GoesInto M.Does (λ directory. M.Directory.raw_fd directory)
            (walker self.old.machine self.old.has_proc) directory place.old place.new
            (walker self.new.machine self.new.has_proc)) }
    {
        let text = open_text(self.machine.alloc(), &directory)?;
        if self.is_numbered(place.text(), text.as_str())? {
            place.hold(directory, text);
        }
        Ok(())
    }

    /// Returns whether a file is at a place that could not be opened as a directory. A directory that this process may not
    /// read is followed by its name.
    pub fn is_file_at(&mut self, place: &str, error: &io::Error) -> Result<bool, MachineFault>
        ensures path { self.new.path ≡ self.old.path }
        ensures proc { self.new.has_proc ≡ self.old.has_proc }
        ensures directory { IfOk result (λ is_file. is_file ≡ false
            → (error_kind error.now ≡ PermissionDenied) × ((looked : Looked) × (meta : Meta)
            × M.Does self.old.machine (Looks place.now (Ok looked)) self.new.machine
            × (meta_of looked ≡ Some meta) × (meta.kind ≡ entry.Directory))) }
    {
        let is_denied = error.kind() == ErrorKind::PermissionDenied;
        let is_none = error.kind() == ErrorKind::NotADirectory
            || error.kind() == ErrorKind::FilesystemLoop;
        if !is_denied && !is_none {
            return Err(fault_of(error));
        }
        let looked = self.look(place)?;
        match looked.kind {
            EntryKind::File => Ok(true),
            EntryKind::Directory if is_denied => Ok(false),
            // It came after the call.
            EntryKind::Directory => Err(MachineFault::NotFound),
        }
    }

    /// Goes one name further, and enters the directory there. Returns whether a file is there.
    fn step(
        &mut self,
        place: &mut MachinePath<M::Directory, M::A>,
        name: &str,
    ) -> Result<bool, MachineFault>
        ensures place { OnOk result (IsOpenText place.new
            ⊎ (place.new ≡ place.old ++ 47 ∷ name.now)) }
        ensures path { self.new.path ≡ self.old.path }
        ensures stepped { IfOk result (λ is_file. is_file ≡ false → StepsInto M.Does
            (λ directory. M.Directory.raw_fd directory) (walker self.old.machine self.old.has_proc)
            (place.old ++ 47 ∷ name.now) place.new
            (walker self.new.machine self.new.has_proc)) }
    {
        place.push(name)?;
        match self.machine.enter(place.text()) {
            Ok(directory) => {
                self.go_on(place, directory)?;
                Ok(false)
            }
            Err(error) => self.is_file_at(place.text(), &error),
        }
    }

    /// The directory that these names lead to; each must be the name of a directory, not of a link.
    ///
    /// Returns `NotDir` if the last name is that of a file, and `NotFound` if no entry can be
    /// there.
    pub fn directory(
        &mut self,
        names: &[&str],
    ) -> Result<MachinePath<M::Directory, M::A>, MachineFault>
        ensures place { IfOk result
            (LeadsTo (string_bytes self.old.path) (map (λ name. name.now) names.now)) }
        ensures path { self.new.path ≡ self.old.path }
        ensures walked { IfOk result (λ place. Walks M.Does
            (λ directory. M.Directory.raw_fd directory)
            (walker self.old.machine self.old.has_proc) (string_bytes self.old.path)
            (map (λ name. name.now) names.now) place
            (walker self.new.machine self.new.has_proc)) }
    {
        let mut place = self.top()?;
        let mut is_file = false;
        for name in names {
            if is_file {
                return Err(MachineFault::NotFound);
            }
            is_file = self.step(&mut place, name)?;
        }
        if is_file {
            return Err(MachineFault::NotDir);
        }
        Ok(place)
    }

    /// The path of an entry with this name, existing or not, in the directory that names lead to.
    fn below(
        &mut self,
        above: &[&str],
        last: &str,
    ) -> Result<MachinePath<M::Directory, M::A>, MachineFault>
        ensures place { IfOk result
            (LeadsTo (string_bytes self.old.path)
            (map (λ name. name.now) above.now ++ last.now ∷ [])) }
        ensures path { self.new.path ≡ self.old.path }
        ensures walked { IfOk result (λ place. WalksTo M.Does
            (λ directory. M.Directory.raw_fd directory)
            (walker self.old.machine self.old.has_proc) (string_bytes self.old.path)
            (map (λ name. name.now) above.now ++ last.now ∷ []) place
            (walker self.new.machine self.new.has_proc)) }
    {
        let mut place = self.directory(above)?;
        place.push(last)?;
        Ok(place)
    }

    /// The path of an entry, existing or not, below existing directories.
    pub fn place(
        &mut self,
        path: &VPath<M::A>,
    ) -> Result<MachinePath<M::Directory, M::A>, MachineFault>
        ensures place { IfOk result (LeadsTo (string_bytes self.old.path) path.now) }
        ensures path { self.new.path ≡ self.old.path }
        ensures walked { IfOk result (λ place. WalksTo M.Does
            (λ directory. M.Directory.raw_fd directory)
            (walker self.old.machine self.old.has_proc) (string_bytes self.old.path) path.now place
            (walker self.new.machine self.new.has_proc)) }
    {
        let mut names = path.names(self.machine.alloc())?;
        match names.pop() {
            None => self.top(),
            Some(last) => self.below(&names, last),
        }
    }

    /// The path of an entry that must exist; there is nothing beneath a file.
    pub fn found(
        &mut self,
        path: &VPath<M::A>,
    ) -> Result<MachinePath<M::Directory, M::A>, MachineFault>
        ensures place { IfOk result (LeadsTo (string_bytes self.old.path) path.now) }
        ensures path { self.new.path ≡ self.old.path }
        ensures walked { IfOk result (λ place. WalksTo M.Does
            (λ directory. M.Directory.raw_fd directory)
            (walker self.old.machine self.old.has_proc) (string_bytes self.old.path) path.now place
            (walker self.new.machine self.new.has_proc)) }
    {
        match self.place(path) {
            Err(MachineFault::NotDir) => Err(MachineFault::NotFound),
            answer => answer,
        }
    }

    /// The metadata of the entry at a path of the machine.
    pub fn look(&mut self, place: &str) -> Result<Meta, MachineFault>
        ensures path { self.new.path ≡ self.old.path }
        ensures proc { self.new.has_proc ≡ self.old.has_proc }
        ensures shown { IfOk result (λ meta. (looked : Looked)
            × M.Does self.old.machine (Looks place.now (Ok looked)) self.new.machine
            × (meta_of looked ≡ Some meta)) }
    {
        let looked = found(self.machine.look(place))?;
        known(&looked)
    }

    /// The metadata of the entry at a path.
    pub fn look_at(&mut self, path: &VPath<M::A>) -> Result<Meta, MachineFault>
        ensures path { self.new.path ≡ self.old.path }
        ensures shown { IfOk result (λ meta. StatsEntry M.Does
            (λ directory. M.Directory.raw_fd directory)
            (walker self.old.machine self.old.has_proc) (string_bytes self.old.path) path.now meta
            (walker self.new.machine self.new.has_proc)) }
    {
        if path.is_root() {
            return self.itself();
        }
        let place = self.found(path)?;
        self.look(place.text())
    }

    /// The metadata of the folder itself, which may be reached through a link.
    fn itself(&mut self) -> Result<Meta, MachineFault>
        ensures path { self.new.path ≡ self.old.path }
        ensures proc { self.new.has_proc ≡ self.old.has_proc }
        ensures shown { IfOk result (λ meta. (looked : Looked)
            × M.Does self.old.machine (Follows (string_bytes self.old.path) (Ok looked))
            self.new.machine × (meta_of looked ≡ Some meta)) }
    {
        let looked = found(self.machine.follow(self.path.as_str()))?;
        known(&looked)
    }

    /// The path of a file that must exist. The root is not a file.
    pub fn found_file(
        &mut self,
        path: &VPath<M::A>,
    ) -> Result<MachinePath<M::Directory, M::A>, MachineFault>
        ensures place { IfOk result (LeadsTo (string_bytes self.old.path) path.now) }
        ensures path { self.new.path ≡ self.old.path }
        ensures walked { IfOk result (λ place. WalksTo M.Does
            (λ directory. M.Directory.raw_fd directory)
            (walker self.old.machine self.old.has_proc) (string_bytes self.old.path) path.now place
            (walker self.new.machine self.new.has_proc)) }
    {
        if path.is_root() {
            return Err(MachineFault::IsDir);
        }
        self.found(path)
    }

    /// Refuses if there is any entry, even a link.
    pub fn nothing_at(&mut self, place: &str) -> Result<(), MachineFault>
        ensures path { self.new.path ≡ self.old.path }
        ensures proc { self.new.has_proc ≡ self.old.has_proc }
        ensures nothing { OnOk result ((error : Error)
            × M.Does self.old.machine (Looks place.now (Err error)) self.new.machine) }
    {
        match found(self.machine.look(place)) {
            Ok(_) => Err(MachineFault::Exists),
            Err(MachineFault::NotFound) => Ok(()),
            Err(fault) => Err(fault),
        }
    }
}
