//! Ends of a transfer, with counts of their calls and of those that failed, and with what the last read was lent.
//!
//! No other module can access the end itself, so a contract that compares these numbers covers each call that was made.

ghost use Rattle.std.specs.Prelude.{◌≡◌, ◌<◌, ◌≤◌, length, take, IfOk, IfErr, OnOk, OnErr};
ghost use Rattle.virtual_tree.specs.Calls.{IsEndFault};
ghost use Rattle.std.specs.Io.KnownBytes.{Appends, ReadConsumes};
ghost use Rattle.data_pump.specs.Counts.{next, no_calls, with_passed, with_failed, Counts};

use std::io;
use std::io::{Read, Write};
use std::marker::Model;
use virtual_tree::{Sink, Source, StoreFault};

/// An end with counts of its calls, modulo 2^64, and the length of the buffer that its last read was lent.
#[derive(Drop)]
pub(crate) struct CountedEnd<E> {
    end: E,
    made: u64,
    failed: u64,
    lent: usize,
}

impl<E> Model for CountedEnd<E> {
    ghost use Rattle.data_pump.specs.Counts.{Counted};

    ghost Value = { Counted E };

    ghost view = { λ c.
        record { end = c.end; calls = record { made = c.made; failed = c.failed }; lent = c.lent } };
}

// One more, modulo 2^64.
#[tactic(auto, unfolding(crate::specs::Counts::next))]
fn next_count(count: u64) -> u64
    ensures { result ≡ next count }
{
    count.wrapping_add(1)
}

impl<E> CountedEnd<E> {
    /// An end without calls so far, which was lent nothing.
    pub fn new(end: E) -> CountedEnd<E>
        ensures new { result ≡ record { end = end; calls = no_calls; lent = 0 } }
    {
        CountedEnd {
            end,
            made: 0,
            failed: 0,
            lent: 0,
        }
    }

    /// Returns the end itself.
    pub fn into_end(self) -> E
        ensures back { result ≡ self.end }
    {
        let CountedEnd {
            end,
            made: _,
            failed: _,
            lent: _,
        } = self;
        end
    }
}

impl<K: Read> CountedEnd<K> {
    /// One read of a connection.
    pub fn read(&mut self, buffer: &mut [u8]) -> io::Result<usize>
        ensures bound { IfOk result (λ count. count ≤ length buffer.new) }
        ensures bytes { ReadConsumes (K.remaining self.old.end) (K.remaining self.new.end)
            result buffer.new }
        ensures counts { Counts result self.old.calls self.new.calls }
        ensures lent { self.new.lent ≡ length buffer.old }
    {
        self.made = next_count(self.made);
        self.lent = buffer.len();
        match self.end.read(buffer) {
            Ok(count) => Ok(count),
            Err(fault) => {
                self.failed = next_count(self.failed);
                Err(fault)
            }
        }
    }
}

impl<K: Write> CountedEnd<K> {
    /// One write to a connection. Returns the number of octets that it took; a write that takes none has failed.
    pub fn write(&mut self, octets: &[u8]) -> usize
        ensures bound { result ≤ length octets.now }
        ensures bytes { Appends (K.contents self.old.end) (K.contents self.new.end)
            (take result octets.now) }
        ensures passed { 0 < result → self.new.calls ≡ with_passed self.old.calls }
        ensures failed { result ≡ 0 → self.new.calls ≡ with_failed self.old.calls }
    {
        self.made = next_count(self.made);
        let count = write_once(&mut self.end, octets);
        if count == 0 {
            self.failed = next_count(self.failed);
        }
        count
    }
}

// Number of octets that one write takes.
fn write_once<K: Write>(connection: &mut K, octets: &[u8]) -> usize
    ensures bound { result ≤ length octets.now }
    ensures bytes { Appends (K.contents connection.old) (K.contents connection.new)
        (take result octets.now) }
{
    match connection.write(octets) {
        Ok(count) => count,
        Err(_) => 0,
    }
}

impl<S: Source> CountedEnd<S> {
    /// One read of a source.
    pub fn fetch(&mut self, buffer: &mut [u8]) -> Result<usize, StoreFault>
        ensures bound { IfOk result (λ count. count ≤ length buffer.new) }
        ensures octets { ReadConsumes (S.remaining self.old.end) (S.remaining self.new.end)
            result buffer.new }
        ensures refusal { IfErr result (IsEndFault (S.remaining self.old.end)) }
        ensures counts { Counts result self.old.calls self.new.calls }
        ensures lent { self.new.lent ≡ length buffer.old }
    {
        self.made = next_count(self.made);
        self.lent = buffer.len();
        match self.end.read(buffer) {
            Ok(count) => Ok(count),
            Err(fault) => {
                self.failed = next_count(self.failed);
                Err(fault)
            }
        }
    }
}

impl<T: Sink> CountedEnd<T> {
    /// One write to a sink.
    pub fn put(&mut self, octets: &[u8]) -> Result<(), StoreFault>
        ensures octets { OnOk result (Appends (T.collected self.old.end)
            (T.collected self.new.end) octets.now) }
        ensures kept { OnErr result
            (T.collected self.new.end ≡ T.collected self.old.end) }
        ensures target { T.target self.new.end ≡ T.target self.old.end }
        ensures counts { Counts result self.old.calls self.new.calls }
    {
        self.made = next_count(self.made);
        match self.end.write(octets) {
            Ok(()) => Ok(()),
            Err(fault) => {
                self.failed = next_count(self.failed);
                Err(fault)
            }
        }
    }
}
