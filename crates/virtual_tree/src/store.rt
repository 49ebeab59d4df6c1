//! The trait of all stores.

ghost use Rattle.std.specs.Prelude.{◌≡◌, ◌≢◌, ◌<◌, ◌≤◌, ◌^◌, length, ℕ, List, Option, Some, Result, IfOk, IfErr, IfSome, OnOk, OnErr};
ghost use Rattle.std.specs.Cmp.Lexicographic.{slice_cmp};
ghost use Rattle.std.specs.Io.KnownBytes.{ReadConsumes, Appends};
ghost use Rattle.std.specs.List.Sorted.{IsStrictlySortedBy};
ghost use Rattle.std.specs.Ordering.{nat_cmp};
ghost use Rattle.virtual_tree.specs.Calls.{Exchange, refusal, entries_of, names_of, in_answer, IsEndFault, PassesCapacity, Target};
ghost use Rattle.virtual_tree.specs.Calls.Exchange.{Stat, Listing, OpenRead, OpenWrite, Finish, MakeDir, RemoveDir, RemoveFile, Rename};
ghost use Rattle.virtual_tree.specs.declared.fault.StoreFault.TheVariants.{Device, Full};

use crate::fault::StoreFault;
use crate::listed::ListedEntry;
use crate::mode::WriteMode;
use ftp_terms::Meta;
use std::alloc::Allocator;
use virtual_path::VPath;

/// Reads a file.
pub trait Source: Drop {
    /// The octets still to be read, if they are known.
    ghost remaining: { Self → Option (List ℕ) };

    /// Reads into the start of the buffer, and returns the number of octets. Returns 0 only at the end,
    /// or if the buffer has no room.
    ///
    /// Fails with `Memory`, or, if the octets are not known, with `Device`; no known octet is lost. These
    /// faults are not counted.
    fn read(&mut self, buffer: &mut [u8]) -> Result<usize, StoreFault>
        ensures bound { IfOk result (λ count. count ≤ length buffer.new) }
        ensures octets { ReadConsumes (remaining self.old) (remaining self.new) result buffer.new }
        ensures refusal { IfErr result (IsEndFault (remaining self.old)) };

    /// Number of octets that are expected: of a file, those that it had when it was opened and that are still to be read.
    /// `None` if nothing is known of it. A file may have more or fewer by now.
    fn expected(&self) -> Option<u64>
        ensures known { IfSome (remaining self.now)
            (λ octets. IfSome result (λ count. count ≡ length octets)) }
    {
        None
    }
}

/// Writes a file. A store's `finish` takes it.
pub trait Sink: Drop {
    /// The octets received so far, if they are known.
    ghost collected: { Self → Option (List ℕ) };

    /// The file that they go to, and the number of its octets that are kept before them, if these are known.
    ghost target: { Self → Option Target };

    /// Takes all of these octets. Success or failure, the target stays the same.
    ///
    /// Fails with `Memory`, or, if the octets are not known, with `Device`; then the known octets are
    /// those received before. These faults are not counted.
    fn write(&mut self, octets: &[u8]) -> Result<(), StoreFault>
        ensures octets { OnOk result
            (Appends (collected self.old) (collected self.new) octets.now) }
        ensures kept { OnErr result (collected self.new ≡ collected self.old) }
        ensures target { target self.new ≡ target self.old }
        ensures refusal { IfErr result (IsEndFault (collected self.old)) };
}

/// Directories and files below a root.
///
/// The effect of a call with its result is defined by `Step` alone, so what is proved of code over every
/// store holds for each. A call that changes the count of faults is a step too, so all calls but `faults`
/// take `&mut self`.
pub trait Store<A: Allocator> {
    type Source: Source;

    type Sink: Sink;

    /// The effect of one call with its result.
    ghost Step: { Self → Exchange Self.Source Self.Sink → Self → Type 0 };

    /// The most octets that the files may have, if there is such a bound.
    ghost capacity: { Self → Option ℕ };

    /// The octets that the files would have after `finish` of a sink at a moment.
    ghost would_hold: { Self → Self.Sink → ℕ → ℕ };

    /// Number of device faults so far, modulo 2^64.
    ghost fault_count: { Self → ℕ };

    /// Number of device faults so far, modulo 2^64.
    fn faults(&self) -> u64
        ensures { result ≡ fault_count self.now };

    /// The metadata of an entry.
    fn stat(&mut self, path: &VPath<A>) -> Result<Meta, StoreFault>
        ensures { Step self.old (Stat path.now result) self.new };

    /// The entries of a directory, sorted by the octets of their names; no name occurs twice.
    fn list(&mut self, path: &VPath<A>) -> Result<Vec<ListedEntry<A>, A>, StoreFault>
        ensures step { Step self.old (Listing path.now (in_answer entries_of result)) self.new }
        ensures rising { IfOk result
            (λ listed. IsStrictlySortedBy (slice_cmp nat_cmp) (names_of listed)) };

    /// Opens a file for reading, from an offset on.
    fn open_read(&mut self, path: &VPath<A>, offset: u64) -> Result<Self::Source, StoreFault>
        ensures { Step self.old (OpenRead path.now offset result) self.new };

    /// Opens a file for writing. The moment is in milliseconds since 1970.
    fn open_write(
        &mut self,
        path: &VPath<A>,
        mode: WriteMode,
        moment: u64,
    ) -> Result<Self::Sink, StoreFault>
        ensures { Step self.old (OpenWrite path.now mode moment result) self.new };

    /// Puts the received octets into their file. The moment is in milliseconds since 1970.
    fn finish(&mut self, sink: Self::Sink, moment: u64) -> Result<(), StoreFault>
        ensures { Step self.old (Finish sink moment result) self.new };

    /// Makes an empty directory.
    fn make_dir(&mut self, path: &VPath<A>) -> Result<(), StoreFault>
        ensures { Step self.old (MakeDir path.now result) self.new };

    /// Removes an empty directory.
    fn remove_dir(&mut self, path: &VPath<A>) -> Result<(), StoreFault>
        ensures { Step self.old (RemoveDir path.now result) self.new };

    /// Removes a file.
    fn remove_file(&mut self, path: &VPath<A>) -> Result<(), StoreFault>
        ensures { Step self.old (RemoveFile path.now result) self.new };

    /// Moves a file, or a directory with everything beneath it, to a path without an entry.
    fn rename(&mut self, from: &VPath<A>, to: &VPath<A>) -> Result<(), StoreFault>
        ensures { Step self.old (Rename from.now to.now result) self.new };

    /// A call refused for the device has increased the count of faults.
    ghost honest: { (old new : Self) (exchange : Exchange Self.Source Self.Sink)
        → Step old exchange new → refusal exchange ≡ Some Device
        → fault_count new ≢ fault_count old };

    /// A call is refused as full only if it is a `finish` that would exceed the capacity.
    ghost fits: { (old new : Self) (exchange : Exchange Self.Source Self.Sink)
        → Step old exchange new → refusal exchange ≡ Some Full
        → PassesCapacity (capacity old) (would_hold old) exchange };

    /// The count of faults has 64 bits.
    ghost counts: { (store : Self) → fault_count store < 2 ^ 64 };
}
