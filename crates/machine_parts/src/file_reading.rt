//! A file of the machine that is read whole.

ghost use Rattle.std.specs.Prelude.{◌≡◌, ◌++◌, IfErr, IfOk, IfSome, None, codes, option_map, string_bytes};
ghost use Rattle.machine_parts.specs.FileReading.{FindsNoFile, HasOctets, IsNotHad, IsNotRemoved, IsUnread, OpensFile, ReadsOnce, RefusesFile, Removes};
ghost use Rattle.machine_parts.specs.Reasons.{SaysUnremoved};

use crate::options::reading_options;
use crate::reasons::{words, words_at};
use folder_store::{FolderMachine, LookedKind};
use std::alloc::Global;
use std::io;
use text_io::{FallibleIo, TextFault, read_whole};

/// The octets of a file, or the reason for which they cannot be had; none for one without memory.
pub type ReadOctets = Result<Vec<u8>, Option<String>>;

/// The reason for which something at a path is not read.
const NO_FILE: &str = "is not a regular file";

/// The reasons for which a file is not read whole.
const TOO_LONG: &str = "TooLong";

const READ_FAULT: &str = "ReadFault";

/// Opens a file, unless something else than a regular file is at the path: a pipe would be waited for, and a device may
/// have no end.
fn open_regular<M: FolderMachine>(machine: &mut M, path: &str) -> io::Result<Option<M::File>>
    ensures opened { IfOk result (λ found. IfSome found
        (λ file. OpensFile M.Does machine.old path.now file machine.new)) }
    ensures other { IfOk result (λ found. found ≡ None
        → FindsNoFile M.Does machine.old path.now machine.new) }
    ensures refused { IfErr result
        (λ error. RefusesFile M.Does machine.old path.now error machine.new) }
{
    let looked = machine.follow(path)?;
    if looked.kind != LookedKind::File {
        return Ok(None);
    }
    let file = machine.open(&reading_options(), path)?;
    let opened = machine.examine(&file)?;
    if opened.kind != LookedKind::File {
        return Ok(None);
    }
    Ok(Some(file))
}

/// Reads a file. `Err` is the reason for which it cannot be had.
fn read_file<M: FolderMachine>(alloc: Global, machine: &mut M, path: &str) -> ReadOctets
    ensures octets { IfOk result (λ octets. HasOctets M.Does (λ f. M.File.remaining f)
        machine.old path.now octets.items machine.new) }
    ensures refused { IfErr result (λ words. IsUnread M.Does (λ f. M.File.remaining f)
        machine.old path.now (option_map string_bytes words) machine.new) }
{
    let file = match open_regular(machine, path) {
        Ok(Some(file)) => file,
        Ok(None) => return Err(words_at(alloc, path, &NO_FILE)),
        Err(reason) => return Err(words_at(alloc, path, &reason)),
    };
    match read_whole(alloc, &mut FallibleIo(file)) {
        Ok(octets) => Ok(octets),
        Err(TextFault::Memory) => Err(None),
        Err(TextFault::TooLong) => Err(words_at(alloc, path, &TOO_LONG)),
        Err(_) => Err(words_at(alloc, path, &READ_FAULT)),
    }
}

/// The words for the file at a path that is still there, for a reason in words; none if memory runs out.
fn unremoved_for(alloc: Global, path: &str, why: &str) -> Option<String>
    ensures words { IfSome result (λ text. string_bytes text
        ≡ path.now ++ (codes ": cannot be removed: " ++ why.now)) }
{
    format!(in alloc; "{path}: cannot be removed: {why}").ok()
}

/// The words for the file at a path that the machine has not removed; none if memory runs out.
fn unremoved(alloc: Global, path: &str, reason: io::Error) -> Option<String>
    ensures words { IfSome result (λ text. SaysUnremoved path.now (string_bytes text)) }
{
    let why = words(alloc, &reason)?;
    unremoved_for(alloc, path, why.as_str())
}

/// Removes what was read, unless it is empty. `Err` if it is still there.
fn removed<M: FolderMachine>(
    alloc: Global,
    machine: &mut M,
    path: &str,
    octets: Vec<u8>,
) -> ReadOctets
    ensures octets { IfOk result (λ same. same ≡ octets) }
    ensures removed { IfOk result
        (λ same. Removes M.Does machine.old path.now same.items machine.new) }
    ensures refused { IfErr result (λ words. IsNotRemoved M.Does machine.old path.now
        (option_map string_bytes words) machine.new) }
{
    if octets.is_empty() {
        return Ok(octets);
    }
    match machine.remove_file(path) {
        Ok(()) => Ok(octets),
        Err(reason) => Err(unremoved(alloc, path, reason)),
    }
}

/// The octets of a file, which is removed then, if it is to be, unless it is empty. `Err` is the reason for which it cannot
/// be had or removed.
pub(crate) fn read_once<M: FolderMachine>(
    alloc: Global,
    machine: &mut M,
    path: &str,
    removes: bool,
) -> ReadOctets
    ensures octets { IfOk result (λ octets. ReadsOnce M.Does (λ f. M.File.remaining f) removes
        machine.old path.now octets.items machine.new) }
    ensures refused { IfErr result (λ words. IsNotHad M.Does (λ f. M.File.remaining f) removes
        machine.old path.now (option_map string_bytes words) machine.new) }
{
    let octets = read_file(alloc, machine, path)?;
    if !removes {
        return Ok(octets);
    }
    removed(alloc, machine, path, octets)
}
