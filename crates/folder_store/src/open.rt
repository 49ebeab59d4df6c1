//! Open files of the machine.

ghost use Rattle.std.specs.Prelude.{◌≡◌, ◌-◌, ◌<◌, ◌≤◌, length, take, None, Some, IfOk, IfErr, OnErr, OnOk};
ghost use Rattle.std.specs.Io.KnownBytes.{Appends, Consumes, ReadConsumes};
ghost use Rattle.counted_file.specs.Calls.{ReportsWrite, no_calls};
ghost use Rattle.folder_store.specs.Ends.{ReportsRead, least};
ghost use Rattle.virtual_tree.specs.Calls.{IsEndFault};

use crate::look::kept_end_fault;
use counted_file::CountedFile;
use last_fault::LastFault;
use std::io::{Read, Write};
use std::marker::Model;
use virtual_tree::{Sink, Source, StoreFault};

/// The octets that are left to be read of a file.
#[derive(Clone, Copy)]
pub(crate) enum Rest {
    /// At least this number of octets: what is left of its length when it was opened.
    AtLeast(u64),
    /// Nothing: the last read had room for more than there was.
    Ended,
}

/// A file open for reading. Its contents are left to the machine; the least that it must deliver follows from its
/// length when it was opened. Once it is at its end, it is not read again.
#[derive(Drop)]
pub struct DirSource<F: Read + Drop> {
    file: CountedFile<F>,
    rest: Rest,
    // has the error of the last fault of the device
    fault: LastFault,
}

impl<F: Read + Drop> Model for DirSource<F> {
    ghost use Rattle.folder_store.specs.Ends.{SourceState, least};

    ghost Value = { SourceState F };

    ghost view = { λ source. record {
      file = source.file.file;
      calls = source.file.calls;
      left = least source.rest;
    } };
}

/// A file open for writing: octets are in it as soon as they are written.
#[derive(Drop)]
pub struct DirSink<F: Write + Drop> {
    file: CountedFile<F>,
    // has the error of the last fault of the device
    fault: LastFault,
}

impl<F: Write + Drop> Model for DirSink<F> {
    ghost use Rattle.counted_file.specs.Calls.{FileWithCalls};

    ghost Value = { FileWithCalls F };

    ghost view = { λ sink. sink.file };
}

impl<F: Read + Drop> Source for DirSource<F> {
    ghost remaining = { λ _. None };

    fn read(&mut self, buffer: &mut [u8]) -> Result<usize, StoreFault>
        ensures bound { IfOk result (λ count. count ≤ length buffer.new) }
        ensures octets { ReadConsumes None None result buffer.new }
        ensures refusal { IfErr result (IsEndFault None) }
        ensures left { IfOk result (λ count. self.new.left ≡ self.old.left - count) }
        ensures whole { IfOk result
            (λ count. count ≡ 0 → 0 < length buffer.old → self.old.left ≡ 0) }
        ensures kept { OnErr result (self.new.left ≡ self.old.left) }
        ensures reported { ReportsRead result self.old self.new }
        ensures file { IfOk result (λ count. Consumes (F.remaining self.old.file)
            (F.remaining self.new.file) (take count buffer.new)) }
    {
        match self.rest {
            Rest::AtLeast(left) => self.read_more(left, buffer),
            Rest::Ended => Ok(0),
        }
    }

    fn expected(&self) -> Option<u64>
        ensures left { result ≡ Some self.now.left }
    {
        match self.rest {
            Rest::AtLeast(left) => Some(left),
            Rest::Ended => Some(0),
        }
    }
}

impl<F: Read + Drop> DirSource<F> {
    /// Reads the file, of which at least `left` octets are left. A file that ends before it has delivered these was cut
    /// meanwhile, which is a fault of the device.
    fn read_more(&mut self, left: u64, buffer: &mut [u8]) -> Result<usize, StoreFault>
        requires left { self.old.left ≡ left }
        ensures bound { IfOk result (λ count. count ≤ length buffer.new) }
        ensures refusal { IfErr result (IsEndFault None) }
        ensures left { IfOk result (λ count. self.new.left ≡ left - count) }
        ensures whole { IfOk result (λ count. count ≡ 0 → 0 < length buffer.old → left ≡ 0) }
        ensures kept { OnErr result (self.new.left ≡ left) }
        ensures reported { ReportsRead result self.old self.new }
        ensures file { IfOk result (λ count. Consumes (F.remaining self.old.file)
            (F.remaining self.new.file) (take count buffer.new)) }
    {
        match self.file.read(buffer) {
            Ok(count) => {
                if count == 0 && left > 0 && !buffer.is_empty() {
                    // The machine has no error of this fault, and an earlier one is not its reason.
                    let _earlier = self.fault.take();
                    return Err(StoreFault::Device);
                }
                self.rest = rest_after(left, count as u64, buffer.len() as u64);
                Ok(count)
            }
            Err(error) => Err(kept_end_fault(&self.fault, error)),
        }
    }
}

/// The rest after a read of a number of octets into this room.
fn rest_after(left: u64, count: u64, room: u64) -> Rest
    ensures rest { least result ≡ left - count }
{
    let after = left.saturating_sub(count);
    if after == 0 && count < room {
        Rest::Ended
    } else {
        Rest::AtLeast(after)
    }
}

impl<F: Write + Drop> Sink for DirSink<F> {
    ghost collected = { λ _. None };

    ghost target = { λ _. None };

    fn write(&mut self, octets: &[u8]) -> Result<(), StoreFault>
        ensures octets { OnOk result (Appends None None octets.now) }
        ensures refusal { IfErr result (IsEndFault None) }
        ensures file { OnOk result
            (Appends (F.contents self.old.file) (F.contents self.new.file) octets.now) }
        ensures reported { ReportsWrite result self.old.calls self.new.calls }
    {
        match self.file.write(octets) {
            Ok(()) => Ok(()),
            Err(error) => Err(kept_end_fault(&self.fault, error)),
        }
    }
}

/// An open file to read, and the number of octets that it has from its offset on.
#[derive(Drop)]
pub(crate) struct FileRest<F: Drop> {
    pub file: F,
    pub left: u64,
}

/// The source of an open file, which leaves the errors of its faults in `fault`.
pub(crate) fn read_rest<F: Read + Drop>(rest: FileRest<F>, fault: LastFault) -> DirSource<F>
    ensures file { result.file ≡ rest.file }
    ensures left { result.left ≡ rest.left }
    ensures none { result.calls ≡ no_calls }
{
    let FileRest { file, left } = rest;
    DirSource {
        file: CountedFile::new(file),
        rest: Rest::AtLeast(left),
        fault,
    }
}

/// The sink of a file that is open for writing, which leaves the errors of its faults in `fault`.
pub fn write_new<F: Write + Drop>(file: F, fault: LastFault) -> DirSink<F>
    ensures file { result ≡ record { file = file; calls = no_calls } }
{
    DirSink {
        file: CountedFile::new(file),
        fault,
    }
}

impl<F: Write + Drop> DirSink<F> {
    /// The file.
    pub(crate) fn into_file(self) -> F
        ensures file { result ≡ self.file }
    {
        let DirSink { file, fault } = self;
        drop(fault);
        file.into_file()
    }
}
