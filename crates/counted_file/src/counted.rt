//! A file, or another end that is read or written, with counts of the calls on it.
//!
//! No other module can access the end, so a contract that compares these counts covers each call that was made. A call
//! that was interrupted is made again, [`MOST_TRIES`] times in all.

ghost use Rattle.std.specs.Prelude.{◌≡◌, ◌≢◌, ◌<◌, ◌≤◌, length, take, IfErr, IfOk, OnOk};
ghost use Rattle.std.specs.Io.KnownBytes.{Appends, Keeps, ReadConsumes};
ghost use Rattle.std.specs.IoError.{error_kind};
ghost use Rattle.std.specs.declared.io.ErrorKind.TheVariants.{Interrupted};
ghost use Rattle.counted_file.specs.Calls.{IsCounted, ReportsWrite, next, no_calls, with_failed, with_interrupted, with_passed};

use std::io;
use std::io::{ErrorKind, Read, Write};
use std::marker::Model;

/// Number of times that a call is made if each time it is interrupted. A process that is stopped and continued interrupts
/// one call, so what interrupts a hundred in a row is the file itself, and nobody waits for that.
pub const MOST_TRIES: u64 = 100;

/// An open file with counts of the calls on it, modulo 2^64.
#[derive(Drop)]
pub struct CountedFile<F: Drop> {
    file: F,
    passed: u64,
    interrupted: u64,
    failed: u64,
}

impl<F: Drop> Model for CountedFile<F> {
    ghost use Rattle.counted_file.specs.Calls.{FileWithCalls};

    ghost Value = { FileWithCalls F };

    ghost view = { λ c. record {
      file = c.file;
      calls = record { passed = c.passed; interrupted = c.interrupted; failed = c.failed };
    } };
}

/// One more, modulo 2^64.
#[tactic(auto, unfolding(crate::specs::Calls::next))]
fn next_count(count: u64) -> u64
    ensures { result ≡ next count }
{
    count.wrapping_add(1)
}

impl<F: Drop> CountedFile<F> {
    /// A file without calls so far.
    pub fn new(file: F) -> CountedFile<F>
        ensures new { result ≡ record { file = file; calls = no_calls } }
    {
        CountedFile {
            file,
            passed: 0,
            interrupted: 0,
            failed: 0,
        }
    }

    /// The file.
    pub fn into_file(self) -> F
        ensures file { result ≡ self.file }
    {
        let CountedFile {
            file,
            passed: _,
            interrupted: _,
            failed: _,
        } = self;
        file
    }

    /// Counts a call with this result.
    fn count<T>(&mut self, answer: &io::Result<T>)
        ensures file { self.new.file ≡ self.old.file }
        ensures passed { OnOk answer.now (self.new.calls ≡ with_passed self.old.calls) }
        ensures interrupted { IfErr answer.now (λ error. error_kind error ≡ Interrupted
            → self.new.calls ≡ with_interrupted self.old.calls) }
        ensures failed { IfErr answer.now (λ error. error_kind error ≢ Interrupted
            → self.new.calls ≡ with_failed self.old.calls) }
    {
        match answer {
            Ok(_) => self.passed = next_count(self.passed),
            Err(error) => {
                if error.kind() == ErrorKind::Interrupted {
                    self.interrupted = next_count(self.interrupted);
                } else {
                    self.failed = next_count(self.failed);
                }
            }
        }
    }
}

impl<F: Read + Drop> CountedFile<F> {
    /// One read.
    fn read_once(&mut self, buffer: &mut [u8]) -> io::Result<usize>
        ensures bound { IfOk result (λ count. count ≤ length buffer.new) }
        ensures octets { ReadConsumes (F.remaining self.old.file) (F.remaining self.new.file)
            result buffer.new }
        ensures passed { OnOk result (self.new.calls ≡ with_passed self.old.calls) }
        ensures interrupted { IfErr result (λ error. error_kind error ≡ Interrupted
            → self.new.calls ≡ with_interrupted self.old.calls) }
        ensures failed { IfErr result (λ error. error_kind error ≢ Interrupted
            → self.new.calls ≡ with_failed self.old.calls) }
    {
        let answer = self.file.read(buffer);
        self.count(&answer);
        answer
    }

    /// Reads once, and again if the read is interrupted. `TimedOut` after [`MOST_TRIES`] interruptions.
    pub fn read(&mut self, buffer: &mut [u8]) -> io::Result<usize>
        ensures bound { IfOk result (λ count. count ≤ length buffer.new) }
        ensures octets { ReadConsumes (F.remaining self.old.file) (F.remaining self.new.file)
            result buffer.new }
        ensures counted { IsCounted result self.old.calls self.new.calls }
    {
        'reads: for turn in 0..MOST_TRIES {
            match self.read_once(buffer) {
                Err(error) if error.kind() == ErrorKind::Interrupted => {}
                answer => return answer,
            }
        }
        Err(io::Error::from(ErrorKind::TimedOut))
    }
}

impl<F: Write + Drop> CountedFile<F> {
    /// One write, which takes at least one octet. One that takes none has failed.
    fn write_once(&mut self, octets: &[u8]) -> io::Result<usize>
        ensures some { IfOk result (λ count. 0 < count) }
        ensures bound { IfOk result (λ count. count ≤ length octets.now) }
        ensures octets { IfOk result (λ count. Appends (F.contents self.old.file)
            (F.contents self.new.file) (take count octets.now)) }
        ensures kept { IfErr result (λ _. Keeps (F.contents self.old.file)
            (F.contents self.new.file)) }
        ensures passed { OnOk result (self.new.calls ≡ with_passed self.old.calls) }
        ensures interrupted { IfErr result (λ error. error_kind error ≡ Interrupted
            → self.new.calls ≡ with_interrupted self.old.calls) }
        ensures failed { IfErr result (λ error. error_kind error ≢ Interrupted
            → self.new.calls ≡ with_failed self.old.calls) }
    {
        let answer = match self.file.write(octets) {
            Ok(0) => Err(io::Error::from(ErrorKind::WriteZero)),
            answer => answer,
        };
        self.count(&answer);
        answer
    }

    /// Writes once, and again if the write is interrupted. One that takes no octet has failed. `TimedOut` after
    /// [`MOST_TRIES`] interruptions.
    pub fn write_some(&mut self, octets: &[u8]) -> io::Result<usize>
        ensures some { IfOk result (λ count. 0 < count) }
        ensures bound { IfOk result (λ count. count ≤ length octets.now) }
        ensures octets { IfOk result (λ count. Appends (F.contents self.old.file)
            (F.contents self.new.file) (take count octets.now)) }
        ensures counted { IsCounted result self.old.calls self.new.calls }
    {
        'writes: for turn in 0..MOST_TRIES {
            match self.write_once(octets) {
                Err(error) if error.kind() == ErrorKind::Interrupted => {}
                answer => return answer,
            }
        }
        Err(io::Error::from(ErrorKind::TimedOut))
    }

    /// Writes all octets.
    pub fn write(&mut self, octets: &[u8]) -> io::Result<()>
        ensures octets { OnOk result
            (Appends (F.contents self.old.file) (F.contents self.new.file) octets.now) }
        ensures reported { ReportsWrite result self.old.calls self.new.calls }
    {
        let mut done = 0;
        while done < octets.len() {
            let count = self.write_some(&octets[done..])?;
            done += count;
        }
        Ok(())
    }
}
