//! The machine's calls by which a file is opened.

ghost use Rattle.std.specs.Prelude.{◌≡◌, IfErr, IfOk, Ok, Err, Result};
ghost use Rattle.std.specs.declared.io.Error.{Error};
ghost use Rattle.folder_store.specs.MachineCalls.MachineCall.{Closes, Examines, Looks, Opens, Syncs};
ghost use Rattle.folder_store.specs.Opening.{Creates, ExaminesThatFile, GoesTo, LooksAtFile, OpensAtEnd, OpensByEither, OpensOver, OpensToRead, OpensToWrite, WritesInto};
ghost use Rattle.folder_store.specs.Served.{ClosesFile};
ghost use Rattle.folder_store.specs.declared.looked.Looked.{Looked};

use crate::fault::MachineFault;
use crate::look::{beneath, fault_of, is_same};
use crate::looked::{Looked, LookedKind};
use crate::machine::FolderMachine;
use crate::open::FileRest;
use crate::options::{
    appending_options, creating_options, creating_to_append, overwriting_options, reading_options,
    updating_at_end, updating_options,
};
use std::fs::OpenOptions;
use virtual_tree::WriteMode;

/// Opens a file.
pub(crate) fn open_by<M: FolderMachine>(
    machine: &mut M,
    how: &OpenOptions,
    place: &str,
) -> Result<M::File, MachineFault>
    ensures opened { IfOk result (λ file.
        M.Does machine.old (Opens how.now place.now (Ok file)) machine.new) }
    ensures refused { IfErr result (λ _. (error : Error)
        × M.Does machine.old (Opens how.now place.now (Err error)) machine.new) }
{
    match machine.open(how, place) {
        Ok(file) => Ok(file),
        Err(error) => Err(fault_of(&error)),
    }
}

/// Opens an existing file for writing, with options that allow reading too. With these, a pipe in its place
/// does not block the call, as it could if opened for writing only. If the machine refuses that, the file is
/// opened with the other options, for writing only.
fn open_standing<M: FolderMachine>(
    machine: &mut M,
    place: &str,
    both: &OpenOptions,
    alone: &OpenOptions,
) -> Result<M::File, MachineFault>
    ensures opened { IfOk result (λ file.
        OpensByEither M.Does both.now alone.now machine.old place.now file machine.new) }
{
    match machine.open(both, place) {
        Ok(file) => Ok(file),
        Err(_refused) => {
            let file = open_by(machine, alone, place)?;
            Ok(file)
        }
    }
}

/// The machine's answer about the file at a path of the machine. Anything but a directory or a file is not found.
pub(crate) fn look_file<M: FolderMachine>(
    machine: &mut M,
    place: &str,
) -> Result<Looked, MachineFault>
    ensures file { IfOk result (λ looked.
        LooksAtFile M.Does machine.old place.now looked machine.new) }
    ensures called { (answer : Result Looked Error)
        × M.Does machine.old (Looks place.now answer) machine.new }
{
    match machine.look(place) {
        Ok(looked) => match looked.kind {
            LookedKind::Directory => Err(MachineFault::IsDir),
            LookedKind::File => Ok(looked),
            LookedKind::Other => Err(MachineFault::NotFound),
        },
        Err(error) => Err(beneath(fault_of(&error))),
    }
}

/// The length of a file that was just opened. It must be the one that was examined before; otherwise another entry took
/// its place, and the result is `NotFound`.
fn length_of<M: FolderMachine>(
    machine: &mut M,
    file: &M::File,
    looked: &Looked,
) -> Result<u64, MachineFault>
    ensures that { IfOk result (λ length. (opened : Looked)
        × ExaminesThatFile M.Does machine.old file.now looked.now opened machine.new
        × (length ≡ opened.length)) }
{
    match machine.examine(file) {
        Ok(opened) => {
            if opened.kind == LookedKind::File && is_same(looked, &opened) {
                Ok(opened.length)
            } else {
                Err(MachineFault::NotFound)
            }
        }
        Err(error) => Err(fault_of(&error)),
    }
}

/// Goes to an offset of a file that is at its beginning.
fn go_behind<M: FolderMachine>(
    machine: &mut M,
    file: M::File,
    offset: u64,
) -> Result<M::File, MachineFault>
    ensures there { IfOk result (λ there.
        GoesTo M.Does machine.old file offset there machine.new) }
{
    if offset == 0 {
        return Ok(file);
    }
    match machine.go_to(file, offset) {
        Ok(there) => Ok(there),
        Err(error) => Err(fault_of(&error)),
    }
}

/// A file's octets from an offset on. It is opened for reading only: a file open for writing could not be
/// executed meanwhile.
pub(crate) fn read_at<M: FolderMachine>(
    machine: &mut M,
    place: &str,
    offset: u64,
) -> Result<FileRest<M::File>, MachineFault>
    ensures opened { IfOk result (λ rest.
        OpensToRead M.Does machine.old place.now offset rest.file rest.left machine.new) }
{
    let looked = look_file(machine, place)?;
    let file = open_by(machine, &reading_options(), place)?;
    let length = length_of(machine, &file, &looked)?;
    if length < offset {
        return Err(MachineFault::PastEnd);
    }
    let there = go_behind(machine, file, offset)?;
    Ok(FileRest {
        file: there,
        left: length - offset,
    })
}

/// An existing file, opened without truncation and then cut to its first octets.
fn write_over<M: FolderMachine>(
    machine: &mut M,
    place: &str,
    looked: &Looked,
    kept: u64,
) -> Result<M::File, MachineFault>
    ensures opened { IfOk result (λ there.
        OpensOver M.Does machine.old place.now looked.now kept there machine.new) }
{
    let file = open_standing(machine, place, &updating_options(), &overwriting_options())?;
    let length = length_of(machine, &file, looked)?;
    if length < kept {
        return Err(MachineFault::PastEnd);
    }
    match machine.cut(&file, kept) {
        Ok(()) => {
            let there = go_behind(machine, file, kept)?;
            Ok(there)
        }
        Err(error) => Err(fault_of(&error)),
    }
}

/// An existing file, opened so that each write goes after all its octets at that time.
fn append_to<M: FolderMachine>(
    machine: &mut M,
    place: &str,
    looked: &Looked,
) -> Result<M::File, MachineFault>
    ensures opened { IfOk result (λ file.
        OpensAtEnd M.Does machine.old place.now looked.now file machine.new) }
{
    let file = open_standing(machine, place, &updating_at_end(), &appending_options())?;
    let _length = length_of(machine, &file, looked)?;
    Ok(file)
}

/// A file that was examined, opened for writing in a mode.
fn write_into<M: FolderMachine>(
    machine: &mut M,
    place: &str,
    looked: &Looked,
    mode: WriteMode,
) -> Result<M::File, MachineFault>
    ensures opened { IfOk result (λ file.
        WritesInto M.Does mode machine.old place.now looked.now file machine.new) }
{
    match mode {
        WriteMode::New => write_over(machine, place, looked, 0),
        WriteMode::At(kept) => write_over(machine, place, looked, kept),
        WriteMode::Append => append_to(machine, place, looked),
    }
}

/// A new file at a path without an entry, even a link.
fn create<M: FolderMachine>(
    machine: &mut M,
    place: &str,
    mode: WriteMode,
) -> Result<M::File, MachineFault>
    ensures created { IfOk result (λ file.
        Creates M.Does mode machine.old place.now file machine.new) }
{
    match mode {
        WriteMode::New => open_by(machine, &creating_options(), place),
        WriteMode::At(_) => Err(MachineFault::NotFound),
        WriteMode::Append => open_by(machine, &creating_to_append(), place),
    }
}

/// Opens a file for writing in a mode. A new file is created only at a path without an entry, even a link.
pub(crate) fn write_at<M: FolderMachine>(
    machine: &mut M,
    place: &str,
    mode: WriteMode,
) -> Result<M::File, MachineFault>
    ensures opened { IfOk result (λ file.
        OpensToWrite M.Does mode machine.old place.now file machine.new) }
{
    match look_file(machine, place) {
        Ok(looked) => {
            let file = write_into(machine, place, &looked, mode)?;
            Ok(file)
        }
        Err(MachineFault::NotFound) => {
            let file = create(machine, place, mode)?;
            Ok(file)
        }
        Err(fault) => Err(fault),
    }
}

/// Has the octets of a file written to the device. A fault of the device has the machine's error.
fn sync<M: FolderMachine>(machine: &mut M, file: &M::File) -> Result<(), MachineFault>
    ensures synced { IfOk result (λ done.
        M.Does machine.old (Syncs file.now (Ok done)) machine.new) }
    ensures refused { IfErr result (λ _. (error : Error)
        × M.Does machine.old (Syncs file.now (Err error)) machine.new) }
{
    match machine.sync(file) {
        Ok(()) => Ok(()),
        Err(error) => Err(fault_of(&error)),
    }
}

/// Closes a file. A fault of the device has the machine's error.
fn close<M: FolderMachine>(machine: &mut M, file: M::File) -> Result<(), MachineFault>
    ensures closed { IfOk result (λ done.
        M.Does machine.old (Closes file (Ok done)) machine.new) }
    ensures refused { IfErr result (λ _. (error : Error)
        × M.Does machine.old (Closes file (Err error)) machine.new) }
{
    match machine.close(file) {
        Ok(()) => Ok(()),
        Err(error) => Err(fault_of(&error)),
    }
}

/// Closes a file, after its octets were written to the device if that is wanted.
pub(crate) fn finish<M: FolderMachine>(
    machine: &mut M,
    file: M::File,
    syncs: bool,
) -> Result<(), MachineFault>
    ensures closed { IfOk result (λ _. ClosesFile M.Does syncs machine.old file machine.new) }
{
    if syncs {
        sync(machine, &file)?;
    }
    close(machine, file)
}
