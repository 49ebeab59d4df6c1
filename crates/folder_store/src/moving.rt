//! The machine's calls by which an entry is moved.

ghost use Rattle.std.specs.Prelude.{IfErr, OnOk};
ghost use Rattle.folder_store.specs.Moving.{MovesToFree, Replaces, ReserveRefused, Reserves, Unreserves};

use crate::fault::MachineFault;
use crate::look::fault_of;
use crate::machine::FolderMachine;
use crate::opening::open_by;
use crate::options::creating_options;
use ftp_terms::EntryKind;
use std::io;

/// Creates an empty entry at a free path, so that the machine's rename replaces only that.
fn reserve<M: FolderMachine>(
    machine: &mut M,
    kind: EntryKind,
    place: &str,
) -> Result<(), MachineFault>
    ensures reserved { OnOk result (Reserves M.Does machine.old kind place.now machine.new) }
    ensures refused { IfErr result (λ _.
        ReserveRefused M.Does machine.old kind place.now machine.new) }
{
    match kind {
        EntryKind::Directory => match machine.make_directory(place) {
            Ok(()) => Ok(()),
            Err(error) => Err(fault_of(&error)),
        },
        EntryKind::File => match open_by(machine, &creating_options(), place) {
            Ok(_file) => Ok(()),
            Err(fault) => Err(fault),
        },
    }
}

/// Removes a reserved entry again, if the machine lets it.
fn unreserve<M: FolderMachine>(machine: &mut M, kind: EntryKind, place: &str)
    ensures removed { Unreserves M.Does machine.old kind place.now machine.new }
{
    match kind {
        EntryKind::Directory => {
            let _removed = machine.remove_directory(place);
        }
        EntryKind::File => {
            let _removed = machine.remove_file(place);
        }
    }
}

/// The machine's rename, over a reserved entry. If it is refused, the reserved entry is removed.
fn replace<M: FolderMachine>(
    machine: &mut M,
    kind: EntryKind,
    from: &str,
    to: &str,
) -> Result<(), MachineFault>
    ensures replaced { Replaces M.Does machine.old kind from.now to.now result machine.new }
{
    match machine.rename(from, to) {
        Ok(()) => Ok(()),
        Err(error) => {
            unreserve(machine, kind, to);
            Err(move_fault(&error))
        }
    }
}

/// The fault of a move over a reserved entry. If a reserved directory is not empty, another process has put something
/// into it.
fn move_fault(error: &io::Error) -> MachineFault {
    match fault_of(error) {
        MachineFault::NotEmpty => MachineFault::Exists,
        fault => fault,
    }
}

/// Moves an entry of a kind to a path without an entry, over an empty entry that is created there first.
pub(crate) fn move_to_free<M: FolderMachine>(
    machine: &mut M,
    kind: EntryKind,
    from: &str,
    to: &str,
) -> Result<(), MachineFault>
    ensures moved { MovesToFree M.Does machine.old kind from.now to.now result machine.new }
{
    match reserve(machine, kind, to) {
        Ok(()) => replace(machine, kind, from, to),
        Err(fault) => Err(fault),
    }
}
