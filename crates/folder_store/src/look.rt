//! Metadata of entries of the machine.

ghost use Rattle.std.specs.Prelude.{◌≡◌, ◌≢◌, ◌⊎◌, ◌↔◌, IsTrue, IsErr, MatchResult, Ok};
ghost use Rattle.std.specs.IoError.{error_kind};
ghost use Rattle.std.specs.declared.io.Error.{Error};
ghost use Rattle.folder_store.specs.Times.{shown};
ghost use Rattle.folder_store.specs.Looks.{meta_of, IsSameEntry};

use crate::fault::MachineFault;
use crate::looked::{Looked, LookedKind};
use ftp_terms::{EntryKind, LATEST, Meta};
use last_fault::LastFault;
use std::io;
use std::io::ErrorKind;
use virtual_tree::StoreFault;

/// The reason for which a call was refused, from the machine's error kind. A full disk is a fault of the device. A fault
/// of the device has the error.
pub(crate) fn fault_of(error: &io::Error) -> MachineFault
    ensures none { error_kind error.now ≡ ErrorKind.NotFound → result ≡ MachineFault.NotFound }
    ensures file { error_kind error.now ≡ ErrorKind.NotADirectory → result ≡ MachineFault.NotDir }
    ensures directory { error_kind error.now ≡ ErrorKind.IsADirectory
        → result ≡ MachineFault.IsDir }
    ensures stands { error_kind error.now ≡ ErrorKind.AlreadyExists → result ≡ MachineFault.Exists }
    ensures bare { error_kind error.now ≡ ErrorKind.DirectoryNotEmpty
        → result ≡ MachineFault.NotEmpty }
    ensures memory { error_kind error.now ≡ ErrorKind.OutOfMemory → result ≡ MachineFault.Memory }
    ensures denied { error_kind error.now ≡ ErrorKind.PermissionDenied
        → result ≡ MachineFault.Device error.now }
    ensures disk { error_kind error.now ≡ ErrorKind.StorageFull
        → result ≡ MachineFault.Device error.now }
    ensures kept { (kept : Error) → result ≡ MachineFault.Device kept → kept ≡ error.now }
{
    match error.kind() {
        ErrorKind::NotFound => MachineFault::NotFound,
        ErrorKind::NotADirectory => MachineFault::NotDir,
        ErrorKind::IsADirectory => MachineFault::IsDir,
        ErrorKind::AlreadyExists => MachineFault::Exists,
        ErrorKind::DirectoryNotEmpty => MachineFault::NotEmpty,
        ErrorKind::OutOfMemory => MachineFault::Memory,
        _ => MachineFault::Device(*error),
    }
}

/// The fault of a look at an entry: beneath what is no directory there is none.
pub(crate) fn beneath(fault: MachineFault) -> MachineFault {
    match fault {
        MachineFault::NotDir => MachineFault::NotFound,
        other => other,
    }
}

/// The machine's answer about an entry by its path.
pub(crate) fn found(answer: io::Result<Looked>) -> Result<Looked, MachineFault>
    ensures found { MatchResult answer (λ looked. result ≡ Ok looked) (λ _. IsErr result) }
{
    match answer {
        Ok(looked) => Ok(looked),
        Err(error) => Err(beneath(fault_of(&error))),
    }
}

/// The reason for which a listing has no metadata of an entry. It is gone by now, or memory ran out; anything else is a
/// fault of the device, which has the error: a listing without the entry would say that it does not exist.
pub(crate) fn listing_fault(error: &io::Error) -> MachineFault
    ensures gone { error_kind error.now ≡ ErrorKind.NotFound → result ≡ MachineFault.NotFound }
    ensures memory { error_kind error.now ≡ ErrorKind.OutOfMemory → result ≡ MachineFault.Memory }
    ensures others { error_kind error.now ≢ ErrorKind.NotFound
        → error_kind error.now ≢ ErrorKind.OutOfMemory → result ≡ MachineFault.Device error.now }
{
    if error.kind() == ErrorKind::NotFound {
        return MachineFault::NotFound;
    }
    if error.kind() == ErrorKind::OutOfMemory {
        return MachineFault::Memory;
    }
    MachineFault::Device(*error)
}

/// The reason for which an open file could not be read or written.
pub(crate) fn end_fault(error: &io::Error) -> StoreFault
    ensures either { (result ≡ StoreFault.Device) ⊎ (result ≡ StoreFault.Memory) }
    ensures memory { error_kind error.now ≡ ErrorKind.OutOfMemory → result ≡ StoreFault.Memory }
    ensures device { error_kind error.now ≢ ErrorKind.OutOfMemory → result ≡ StoreFault.Device }
{
    if error.kind() == ErrorKind::OutOfMemory {
        return StoreFault::Memory;
    }
    StoreFault::Device
}

/// The same, for whoever has no error with the fault: a fault of the device leaves its error as the last one.
pub(crate) fn kept_end_fault(last: &LastFault, error: io::Error) -> StoreFault
    ensures either { (result ≡ StoreFault.Device) ⊎ (result ≡ StoreFault.Memory) }
    ensures memory { error_kind error ≡ ErrorKind.OutOfMemory → result ≡ StoreFault.Memory }
    ensures device { error_kind error ≢ ErrorKind.OutOfMemory → result ≡ StoreFault.Device }
{
    let fault = end_fault(&error);
    if fault == StoreFault::Device {
        last.put(error);
    }
    fault
}

/// Whole seconds since 1970; a time outside the years 1970 to 9999 becomes the nearest second
/// inside them.
pub(crate) fn seconds(time: i64) -> u64
    ensures seconds { result ≡ shown time }
{
    match u64::try_from(time) {
        Ok(seconds) => seconds.min(LATEST),
        Err(_) => 0,
    }
}

/// The metadata of a directory or a file; `None` for anything else, such as a link.
pub(crate) fn meta_of(looked: &Looked) -> Option<Meta>
    ensures meta { result ≡ meta_of looked.now }
{
    let second = seconds(looked.modified);
    match looked.kind {
        LookedKind::Directory => Some(Meta::new(EntryKind::Directory, 0, second)),
        LookedKind::File => Some(Meta::new(EntryKind::File, looked.length, second)),
        LookedKind::Other => None,
    }
}

/// Returns whether both are the same entry, by the machine's identity.
pub(crate) fn is_same(looked: &Looked, opened: &Looked) -> bool
    ensures same { IsTrue result ↔ IsSameEntry looked.now opened.now }
{
    looked.device == opened.device && looked.number == opened.number
}
