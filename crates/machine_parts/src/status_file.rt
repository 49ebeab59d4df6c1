//! A file to which a text is written again and again.

ghost use Rattle.std.specs.Prelude.{◌≡◌, ◌⊎◌, Err, IfErr, OnErr, OnOk, Result, string_bytes};
ghost use Rattle.std.specs.declared.io.Error.{Error};
ghost use Rattle.folder_store.specs.MachineCalls.MachineCall.{Closes, Follows, RemovesFile};
ghost use Rattle.folder_store.specs.declared.looked.Looked.{Looked};
ghost use Rattle.machine_parts.specs.Answers.{may_be_replaced};
ghost use Rattle.machine_parts.specs.Rewriting.{Fills, LeavesOthers, Rewrites, TriesOut, WritesNew, kind_in};

use crate::answers::may_be_replaced;
use crate::options::new_file_of;
use folder_store::{FolderMachine, Looked, LookedKind};
use std::io;
use std::io::Write;

/// The permissions of the file of a status: its group may read it.
pub const STATUS_MODE: u32 = 0o640;

/// The file to which a text is written again and again, that of the status or of the configuration. Each text is written to
/// a new file beside it, which then takes its name: a reader sees whole texts only.
#[derive(Drop)]
pub struct StatusFile<M: Drop> {
    machine: M,
    path: String,
    beside: String,
    // the permissions
    mode: u32,
}

// Writes a text to a file, and closes it. A file system that takes octets later reports at its close that it could not.
fn fill<M: FolderMachine>(machine: &mut M, file: M::File, text: &[u8]) -> io::Result<()>
    ensures filled { OnOk result (Fills M.Does (λ f. M.File.contents f) machine.old file text.now
        machine.new) }
    ensures refused { IfErr result (λ error. (machine.new ≡ machine.old)
        ⊎ ((full : M.File) × M.Does machine.old (Closes full (Err error)) machine.new)) }
{
    let mut file = file;
    file.write_all(text)?;
    machine.close(file)
}

// Writes a text to a new file with these permissions.
fn write_new<M: FolderMachine>(
    machine: &mut M,
    place: &str,
    mode: u32,
    text: &[u8],
) -> io::Result<()>
    ensures written { OnOk result (WritesNew M.Does (λ f. M.File.contents f) machine.old place.now
        text.now machine.new) }
    ensures left { LeavesOthers M.Does place.now machine.old machine.new }
{
    let _ = machine.remove_file(place);
    let file = machine.open(&new_file_of(mode), place)?;
    fill(machine, file, text)
}

// The kind in the machine's answer on a path, if it finds something.
fn kind_in(found: io::Result<Looked>) -> Option<LookedKind>
    ensures kind { result ≡ kind_in found }
{
    match found {
        Ok(found) => Some(found.kind),
        Err(_) => None,
    }
}

// Returns whether a text may replace what is at a path.
fn is_free<M: FolderMachine>(machine: &mut M, path: &str) -> bool
    ensures free { (found : Result Looked Error)
        × M.Does machine.old (Follows path.now found) machine.new
        × (result ≡ may_be_replaced (kind_in found)) }
{
    may_be_replaced(kind_in(machine.follow(path)))
}

impl<M: FolderMachine + Drop> StatusFile<M> {
    /// The file at a path, with the path of the new file beside it, and the permissions.
    pub fn new(machine: M, path: String, beside: String, mode: u32) -> StatusFile<M>
        ensures path { result.path ≡ path }
        ensures beside { result.beside ≡ beside }
        ensures mode { result.mode ≡ mode }
    {
        StatusFile {
            machine,
            path,
            beside,
            mode,
        }
    }

    /// Writes a text. `Err` is the machine's reason: then what was at the path is still there. What is no regular file
    /// stays.
    pub fn write(&mut self, text: &[u8]) -> io::Result<()>
        ensures written { OnOk result (Rewrites M.Does (λ f. M.File.contents f) self.old text.now
            self.new.machine) }
        ensures left { OnErr result (LeavesOthers M.Does (string_bytes self.old.beside)
            self.old.machine self.new.machine) }
        ensures path { self.new.path ≡ self.old.path }
        ensures beside { self.new.beside ≡ self.old.beside }
    {
        if !is_free(&mut self.machine, self.path.as_str()) {
            return Err(io::Error::from(io::ErrorKind::AlreadyExists));
        }
        write_new(&mut self.machine, self.beside.as_str(), self.mode, text)?;
        self.machine
            .rename(self.beside.as_str(), self.path.as_str())
    }

    /// Tries whether a new file can be written, and removes it again. `Err` is the machine's reason.
    pub fn try_out(&mut self) -> io::Result<()>
        ensures tried { OnOk result (TriesOut M.Does (λ f. M.File.contents f) self.old
            self.new.machine) }
        ensures left { LeavesOthers M.Does (string_bytes self.old.beside) self.old.machine
            self.new.machine }
        ensures path { self.new.path ≡ self.old.path }
        ensures beside { self.new.beside ≡ self.old.beside }
        ensures mode { self.new.mode ≡ self.old.mode }
    {
        write_new(&mut self.machine, self.beside.as_str(), self.mode, b"")?;
        self.machine.remove_file(self.beside.as_str())
    }

    /// Removes the file.
    pub fn remove(&mut self)
        ensures removed { (answer : Result (Unit {0}) Error) × M.Does self.old.machine
            (RemovesFile (string_bytes self.old.path) answer) self.new.machine }
    {
        let _ = self.machine.remove_file(self.path.as_str());
    }

    /// Returns the path.
    pub fn path(&self) -> &str
        ensures path { result.now ≡ string_bytes self.now.path }
    {
        self.path.as_str()
    }

    /// Returns the path.
    pub fn into_path(self) -> String
        ensures path { result ≡ self.path }
    {
        self.path
    }
}
