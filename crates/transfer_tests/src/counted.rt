//! An end in memory that only counts: file, sink and connection at once.

ghost use Rattle.std.specs.Prelude.{◌≤◌, length};

use std::io;
use std::io::{ErrorKind, Read, Write};
use virtual_tree::{Sink, Source, StoreFault};

/// Returns as many octets as are left and fit, takes everything, and fails once this many calls were made.
#[derive(Clone, Copy)]
pub(crate) struct End {
    /// The octets that it still returns.
    pub(crate) left: usize,
    /// The octets that it has taken.
    pub(crate) taken: usize,
    /// The number of calls before one fails.
    pub(crate) calls: usize,
}

impl End {
    // Counts a call. Returns false if it fails.
    fn is_called(&mut self) -> bool {
        if self.calls == 0 {
            return false;
        }
        self.calls -= 1;
        true
    }

    fn give(&mut self, buffer: &mut [u8]) -> usize
        ensures fits { result ≤ length buffer.new }
    {
        let count = buffer.len().min(self.left);
        self.left -= count;
        count
    }
}

impl Source for End {
    ghost use Rattle.std.specs.Prelude.{None};

    ghost remaining = { λ _. None };

    fn read(&mut self, buffer: &mut [u8]) -> Result<usize, StoreFault> {
        if self.is_called() {
            Ok(self.give(buffer))
        } else {
            Err(StoreFault::Device)
        }
    }
}

impl Sink for End {
    ghost use Rattle.std.specs.Prelude.{None};

    ghost collected = { λ _. None };

    ghost target = { λ _. None };

    fn write(&mut self, octets: &[u8]) -> Result<(), StoreFault> {
        if !self.is_called() {
            return Err(StoreFault::Device);
        }
        self.taken = self.taken.saturating_add(octets.len());
        Ok(())
    }
}

impl Read for End {
    fn read(&mut self, buffer: &mut [u8]) -> io::Result<usize> {
        if self.is_called() {
            Ok(self.give(buffer))
        } else {
            Err(io::Error::from(ErrorKind::ConnectionReset))
        }
    }
}

impl Write for End {
    fn write(&mut self, octets: &[u8]) -> io::Result<usize> {
        if !self.is_called() {
            return Err(io::Error::from(ErrorKind::ConnectionReset));
        }
        self.taken = self.taken.saturating_add(octets.len());
        Ok(octets.len())
    }

    fn flush(&mut self) -> io::Result<()> {
        Ok(())
    }
}
