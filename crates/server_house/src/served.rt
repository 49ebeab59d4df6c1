//! The source of a download: a listing, or a file of the store.

ghost use Rattle.std.specs.Prelude.{◌≡◌, ◌≤◌, min, take, length, Some};

use session_table::Octets;
use std::alloc::Allocator;
use std::marker::Model;
use virtual_tree::{Source, StoreFault};

/// A listing, from an offset on.
#[derive(Drop)]
pub struct Listing<A: Allocator> {
    octets: Octets<A>,
    at: usize,
}

impl<A: Allocator> Model for Listing<A> {
    ghost use Rattle.std.specs.Prelude.{List, ℕ, drop, length, ◌≤◌};

    ghost Value = { List ℕ };

    ghost view = { λ listing. drop listing.at listing.octets };

    ghost invariant = { λ listing. listing.at ≤ length listing.octets };
}

impl<A: Allocator> Listing<A> {
    /// All of a listing.
    pub fn new(octets: Octets<A>) -> Listing<A>
        ensures octets { result ≡ octets }
    {
        Listing { octets, at: 0 }
    }
}

// Copies as many octets as there is room for, and returns their number.
fn copy_front(buffer: &mut [u8], octets: &[u8]) -> usize
    ensures count { result ≡ min (length buffer.old) (length octets.now) }
    ensures copied { take result buffer.new ≡ take result octets.now }
{
    let count = buffer.len().min(octets.len());
    buffer[..count].copy_from_slice(&octets[..count]);
    count
}

impl<A: Allocator> Source for Listing<A> {
    ghost use Rattle.std.specs.Prelude.{Some};

    ghost remaining = { λ listing. Some listing };

    fn read(&mut self, buffer: &mut [u8]) -> Result<usize, StoreFault> {
        let count = copy_front(buffer, &self.octets.as_slice()[self.at..]);
        self.at += count;
        Ok(count)
    }

    fn expected(&self) -> Option<u64> {
        Some((self.octets.as_slice().len() - self.at) as u64)
    }
}

/// The source of a download, with a store's sources `R`.
#[derive(Drop)]
pub enum Served<A: Allocator, R: Source> {
    Listing(Listing<A>),
    File(R),
}

impl<A: Allocator, R: Source> Source for Served<A, R> {
    ghost use Rattle.server_house.specs.Sources.{left_of};

    ghost remaining = { left_of R.remaining };

    fn read(&mut self, buffer: &mut [u8]) -> Result<usize, StoreFault> {
        match self {
            Served::Listing(listing) => listing.read(buffer),
            Served::File(source) => source.read(buffer),
        }
    }

    fn expected(&self) -> Option<u64> {
        match self {
            Served::Listing(listing) => listing.expected(),
            Served::File(source) => source.expected(),
        }
    }
}
