//! Sources of files that were made, and sinks that take nothing.

ghost use Rattle.std.specs.Prelude.{◌≡◌, ◌≤◌, min, take, length};

use std::marker::Model;
use virtual_tree::{Sink, Source, StoreFault};

/// The octets of a file as it was made, from an offset on.
#[derive(Drop)]
pub struct PageSource {
    pub(crate) octets: Vec<u8>,
    pub(crate) at: usize,
}

impl Model for PageSource {
    ghost use Rattle.std.specs.Prelude.{List, ℕ, drop, length, ◌≤◌};

    ghost Value = { List ℕ };

    ghost view = { λ source. drop source.at source.octets.items };

    ghost invariant = { λ source. source.at ≤ length source.octets.items };
}

/// Copies as many octets as there is room for, and returns their number.
fn copy_front(buffer: &mut [u8], octets: &[u8]) -> usize
    ensures count { result ≡ min (length buffer.old) (length octets.now) }
    ensures copied { take result buffer.new ≡ take result octets.now }
{
    let count = buffer.len().min(octets.len());
    buffer[..count].copy_from_slice(&octets[..count]);
    count
}

impl Source for PageSource {
    ghost use Rattle.std.specs.Prelude.{Some};

    ghost remaining = { λ source. Some source };

    fn read(&mut self, buffer: &mut [u8]) -> Result<usize, StoreFault> {
        let count = copy_front(buffer, &self.octets.as_slice()[self.at..]);
        self.at += count;
        Ok(count)
    }

    fn expected(&self) -> Option<u64> {
        Some((self.octets.as_slice().len() - self.at) as u64)
    }
}

/// A sink that refuses all octets. No store opens one.
#[derive(Drop)]
pub struct NoSink {
    // so that nobody else makes one
    none: (),
}

impl Sink for NoSink {
    ghost use Rattle.std.specs.Prelude.{None};

    ghost collected = { λ _. None };

    ghost target = { λ _. None };

    fn write(&mut self, _octets: &[u8]) -> Result<(), StoreFault> {
        Err(StoreFault::Device)
    }
}
