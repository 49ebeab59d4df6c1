//! Ends in memory that follow a schedule: the result of each of their calls, one after another.

ghost use Rattle.std.specs.Prelude.{◌≤◌, length, None};
ghost use Rattle.virtual_tree.specs.Calls.{IsEndFault};

use std::io;
use std::io::{ErrorKind, Read, Write};
use virtual_tree::{Sink, Source, StoreFault};

/// The result of one call of an end. After the last step of a schedule, each call moves all that it
/// can.
#[derive(Clone, Copy, Debug, PartialEq, Eq)]
pub enum Scheduled {
    /// It moves at most this many octets.
    Move(usize),
    /// It moves nothing, as at an end.
    Nothing,
    /// It fails: a connection is reset; a source or a sink has this fault.
    Fail(StoreFault),
}

/// A fault of a device, which is also that of a connection.
pub const FAULT: Scheduled = Scheduled::Fail(StoreFault::Device);

/// Lack of memory.
pub const MEMORY: Scheduled = Scheduled::Fail(StoreFault::Memory);

// Takes the first step off a schedule.
fn next_of(schedule: &mut &[Scheduled]) -> Scheduled {
    match schedule.split_first() {
        Some((step, rest)) => {
            *schedule = rest;
            *step
        }
        None => Scheduled::Move(usize::MAX),
    }
}

// The most octets that a call moves, or why it fails.
fn most_of(step: Scheduled) -> Result<usize, StoreFault> {
    match step {
        Scheduled::Move(most) => Ok(most),
        Scheduled::Nothing => Ok(0),
        Scheduled::Fail(fault) => Err(fault),
    }
}

/// A connection open for writing.
#[derive(Drop)]
pub struct Outlet<'a> {
    pub taken: &'a mut Vec<u8>,
    pub schedule: &'a [Scheduled],
}

impl<'a> Write for Outlet<'a> {
    fn write(&mut self, octets: &[u8]) -> io::Result<usize> {
        match most_of(next_of(&mut self.schedule)) {
            Ok(most) => {
                let count = octets.len().min(most);
                self.taken.extend_from_slice(&octets[..count])?;
                Ok(count)
            }
            Err(_) => Err(io::Error::from(ErrorKind::ConnectionReset)),
        }
    }

    fn flush(&mut self) -> io::Result<()> {
        Ok(())
    }
}

// Copies as many octets as there are, as fit and as a step allows.
fn give(rest: &[u8], most: usize, buffer: &mut [u8]) -> usize
    ensures most { result ≤ length rest.now }
    ensures fits { result ≤ length buffer.new }
{
    let count = buffer.len().min(most).min(rest.len());
    buffer[..count].copy_from_slice(&rest[..count]);
    count
}

/// A connection open for reading.
#[derive(Drop)]
pub struct Inlet<'a> {
    pub rest: &'a [u8],
    pub schedule: &'a [Scheduled],
}

impl<'a> Read for Inlet<'a> {
    fn read(&mut self, buffer: &mut [u8]) -> io::Result<usize> {
        match most_of(next_of(&mut self.schedule)) {
            Ok(most) => {
                let count = give(self.rest, most, buffer);
                self.rest = &self.rest[count..];
                Ok(count)
            }
            Err(_) => Err(io::Error::from(ErrorKind::ConnectionReset)),
        }
    }
}

// The fault of an end whose octets are not known in advance.
fn end_fault(fault: StoreFault) -> StoreFault
    ensures either { IsEndFault None result }
{
    if fault == StoreFault::Memory {
        return StoreFault::Memory;
    }
    StoreFault::Device
}

/// A source.
#[derive(Drop)]
pub struct Octets<'a> {
    pub rest: &'a [u8],
    pub schedule: &'a [Scheduled],
}

impl<'a> Source for Octets<'a> {
    ghost use Rattle.std.specs.Prelude.{None};

    ghost remaining = { λ _. None };

    fn read(&mut self, buffer: &mut [u8]) -> Result<usize, StoreFault> {
        match most_of(next_of(&mut self.schedule)) {
            Ok(most) => {
                let count = give(self.rest, most, buffer);
                self.rest = &self.rest[count..];
                Ok(count)
            }
            Err(fault) => Err(end_fault(fault)),
        }
    }
}

/// A sink. A step that does not fail takes all octets.
#[derive(Drop)]
pub struct Collected<'a> {
    pub octets: &'a mut Vec<u8>,
    pub schedule: &'a [Scheduled],
}

impl<'a> Sink for Collected<'a> {
    ghost use Rattle.std.specs.Prelude.{None};

    ghost collected = { λ _. None };

    ghost target = { λ _. None };

    fn write(&mut self, octets: &[u8]) -> Result<(), StoreFault> {
        match most_of(next_of(&mut self.schedule)) {
            Ok(_) => match self.octets.extend_from_slice(octets) {
                Ok(()) => Ok(()),
                Err(_) => Err(StoreFault::Memory),
            },
            Err(fault) => Err(end_fault(fault)),
        }
    }
}
