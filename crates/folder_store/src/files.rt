//! Opening files of a folder.

ghost use Rattle.std.specs.Prelude.{◌≡◌, IfOk, Ok, string_bytes};
ghost use Rattle.folder_store.specs.Opening.{OpensToRead, OpensToWrite};
ghost use Rattle.folder_store.specs.Served.{AtPlace, ClosesFile};
ghost use Rattle.folder_store.specs.Walks.{WalksTo, walker};

use crate::fault::MachineFault;
use crate::folder::Folder;
use crate::machine::FolderMachine;
use crate::machine_path::MachinePath;
use crate::open::FileRest;
use crate::opening::{finish, read_at, write_at};
use virtual_path::VPath;
use virtual_tree::WriteMode;

impl<M: FolderMachine + Drop> Folder<M> {
    /// A file's octets from an offset on.
    pub fn read_from(
        &mut self,
        path: &VPath<M::A>,
        offset: u64,
    ) -> Result<FileRest<M::File>, MachineFault>
        ensures path { self.new.path ≡ self.old.path }
        ensures opened { IfOk result (λ rest. AtPlace M.Does
            (λ directory. M.Directory.raw_fd directory)
            (walker self.old.machine self.old.has_proc) (string_bytes self.old.path) path.now
            (λ here place after. OpensToRead M.Does here place offset rest.file rest.left after)
            (walker self.new.machine self.new.has_proc)) }
    {
        let place = self.found_file(path)?;
        read_at(&mut self.machine, place.text(), offset)
    }

    /// Opens a file for writing in a mode.
    pub fn write_by(&mut self, path: &VPath<M::A>, mode: WriteMode) -> Result<M::File, MachineFault>
        ensures path { self.new.path ≡ self.old.path }
        ensures opened { IfOk result (λ file. AtPlace M.Does
            (λ directory. M.Directory.raw_fd directory)
            (walker self.old.machine self.old.has_proc) (string_bytes self.old.path) path.now
            (λ here place after. OpensToWrite M.Does mode here place file after)
            (walker self.new.machine self.new.has_proc)) }
    {
        if path.is_root() {
            return Err(MachineFault::IsDir);
        }
        let place = self.place_for(path, mode)?;
        write_at(&mut self.machine, place.text(), mode)
    }

    /// The path of a file to be written: one that is written from an offset on must exist.
    fn place_for(
        &mut self,
        path: &VPath<M::A>,
        mode: WriteMode,
    ) -> Result<MachinePath<M::Directory, M::A>, MachineFault>
        ensures path { self.new.path ≡ self.old.path }
        ensures walked { IfOk result (λ place. WalksTo M.Does
            (λ directory. M.Directory.raw_fd directory)
            (walker self.old.machine self.old.has_proc) (string_bytes self.old.path) path.now place
            (walker self.new.machine self.new.has_proc)) }
    {
        match mode {
            WriteMode::At(_) => self.found(path),
            WriteMode::New | WriteMode::Append => self.place(path),
        }
    }

    /// Closes a file, after its octets were written to the device if that is wanted.
    pub fn finish(&mut self, file: M::File, syncs: bool) -> Result<(), MachineFault>
        ensures path { self.new.path ≡ self.old.path }
        ensures proc { self.new.has_proc ≡ self.old.has_proc }
        ensures closed { IfOk result (λ _.
            ClosesFile M.Does syncs self.old.machine file self.new.machine) }
    {
        finish(&mut self.machine, file, syncs)
    }
}
