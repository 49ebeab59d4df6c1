//! Files, sinks and connections in memory that check themselves whether they got the expected octets.

ghost use Rattle.std.specs.Prelude.{◌≤◌, length};

use std::io;
use std::io::{ErrorKind, Read, Write};
use virtual_tree::{Sink, Source, StoreFault};

// Copies as many octets as there are and fit.
fn give(rest: &[u8], buffer: &mut [u8]) -> usize
    ensures most { result ≤ length rest.now }
    ensures fits { result ≤ length buffer.new }
{
    let count = buffer.len().min(rest.len());
    buffer[..count].copy_from_slice(&rest[..count]);
    count
}

/// A file open for reading: returns all that is left at once, and fails once this many reads were made.
#[derive(Drop)]
pub(crate) struct File {
    pub(crate) rest: &'static [u8],
    pub(crate) reads: usize,
}

impl Source for File {
    ghost use Rattle.std.specs.Prelude.{None};

    ghost remaining = { λ _. None };

    fn read(&mut self, buffer: &mut [u8]) -> Result<usize, StoreFault> {
        if self.reads == 0 {
            return Err(StoreFault::Device);
        }
        self.reads -= 1;
        let count = give(self.rest, buffer);
        self.rest = &self.rest[count..];
        Ok(count)
    }
}

/// A sink that takes exactly these octets, and refuses once this many writes were made.
#[derive(Drop)]
pub(crate) struct Kept {
    pub(crate) wanted: &'static [u8],
    pub(crate) writes: usize,
}

impl Sink for Kept {
    ghost use Rattle.std.specs.Prelude.{None};

    ghost collected = { λ _. None };

    ghost target = { λ _. None };

    fn write(&mut self, octets: &[u8]) -> Result<(), StoreFault> {
        if self.writes == 0 || !self.wanted.starts_with(octets) {
            return Err(StoreFault::Device);
        }
        self.writes -= 1;
        self.wanted = &self.wanted[octets.len()..];
        Ok(())
    }
}

/// A connection that returns octets, and takes exactly those expected. It fails once this many writes were made.
#[derive(Drop)]
pub(crate) struct Line {
    pub(crate) rest: &'static [u8],
    pub(crate) wanted: &'static [u8],
    pub(crate) writes: usize,
}

impl Read for Line {
    fn read(&mut self, buffer: &mut [u8]) -> io::Result<usize> {
        let count = give(self.rest, buffer);
        self.rest = &self.rest[count..];
        Ok(count)
    }
}

impl Write for Line {
    fn write(&mut self, octets: &[u8]) -> io::Result<usize> {
        if self.writes == 0 || !self.wanted.starts_with(octets) {
            return Err(io::Error::from(ErrorKind::ConnectionReset));
        }
        self.writes -= 1;
        self.wanted = &self.wanted[octets.len()..];
        Ok(octets.len())
    }

    fn flush(&mut self) -> io::Result<()> {
        Ok(())
    }
}
