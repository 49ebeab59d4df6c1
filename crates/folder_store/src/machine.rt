//! The machine's calls on files, one after another.

ghost use Rattle.std.specs.Prelude.{◌≤◌, length, IfOk};
ghost use Rattle.folder_store.specs.MachineCalls.{names_read};
ghost use Rattle.folder_store.specs.MachineCalls.MachineCall.{Opens, Enters, Looks, LooksIn, Follows, Examines, Cuts, Goes, Syncs, Closes, Reads, MakesDirectory, RemovesDirectory, RemovesFile, Renames};

use crate::entry_name::EntryName;
use crate::looked::Looked;
use std::fs::OpenOptions;
use std::io;
use std::io::{Read, Write};
use std::os::fd::AsRawFd;

/// A machine with files. `Does` is the effect of one call with its result.
///
/// All calls of a store go to one machine, one after another, so what is proved of a store over every machine includes
/// which calls it makes, with which arguments, and in which order. A place is a path of the machine.
pub trait FolderMachine: Alloc {
    /// An open file.
    type File: Read + Write + Drop;

    /// An open directory.
    type Directory: AsRawFd + Drop;

    ghost use Rattle.folder_store.specs.MachineCalls.{MachineCall};

    /// The effect of one call with its result.
    ghost Does: { Self → MachineCall Self.File Self.Directory → Self → Type 0 };

    /// Opens a file.
    fn open(&mut self, how: &OpenOptions, place: &str) -> io::Result<Self::File>
        ensures { Does self.old (Opens how.now place.now result) self.new };

    /// Opens the directory at a place that no link leads to: a link at its end is refused, unless a slash follows.
    fn enter(&mut self, place: &str) -> io::Result<Self::Directory>
        ensures { Does self.old (Enters place.now result) self.new };

    /// Examines an entry; a link at the end of the place is not followed.
    fn look(&mut self, place: &str) -> io::Result<Looked>
        ensures { Does self.old (Looks place.now result) self.new };

    /// Examines the entry with a name in an open directory; a link is not followed.
    fn look_in(&mut self, directory: &Self::Directory, name: &EntryName) -> io::Result<Looked>
        ensures { Does self.old (LooksIn directory.now name.now result) self.new };

    /// Examines an entry that may be reached through links.
    fn follow(&mut self, place: &str) -> io::Result<Looked>
        ensures { Does self.old (Follows place.now result) self.new };

    /// Examines an open file.
    fn examine(&mut self, file: &Self::File) -> io::Result<Looked>
        ensures { Does self.old (Examines file.now result) self.new };

    /// Reads the next names in an open directory, each followed by a NUL, into the front of the buffer. Returns the number
    /// of octets: 0 only after the last name. No read ends in the middle of a name.
    fn read_names(&mut self, directory: &Self::Directory, buffer: &mut [u8]) -> io::Result<usize>
        ensures bound { IfOk result (λ count. count ≤ length buffer.new) }
        ensures did { Does self.old (Reads directory.now (names_read buffer.new result)) self.new };

    /// Cuts a file to a length.
    fn cut(&mut self, file: &Self::File, length: u64) -> io::Result<()>
        ensures { Does self.old (Cuts file.now length result) self.new };

    /// Goes to an offset of a file.
    fn go_to(&mut self, file: Self::File, offset: u64) -> io::Result<Self::File>
        ensures { Does self.old (Goes file offset result) self.new };

    /// Has the octets of a file written to the device, so that they outlast a power cut.
    fn sync(&mut self, file: &Self::File) -> io::Result<()>
        ensures { Does self.old (Syncs file.now result) self.new };

    /// Closes a file. A file system that takes octets later, or elsewhere, reports here that it could not. A file whose
    /// close failed is closed.
    fn close(&mut self, file: Self::File) -> io::Result<()>
        ensures { Does self.old (Closes file result) self.new };

    /// Makes an empty directory.
    fn make_directory(&mut self, place: &str) -> io::Result<()>
        ensures { Does self.old (MakesDirectory place.now result) self.new };

    /// Removes an empty directory.
    fn remove_directory(&mut self, place: &str) -> io::Result<()>
        ensures { Does self.old (RemovesDirectory place.now result) self.new };

    /// Removes a file.
    fn remove_file(&mut self, place: &str) -> io::Result<()>
        ensures { Does self.old (RemovesFile place.now result) self.new };

    /// Moves an entry, over one that is at the new place.
    fn rename(&mut self, from: &str, to: &str) -> io::Result<()>
        ensures { Does self.old (Renames from.now to.now result) self.new };
}
