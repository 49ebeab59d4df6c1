//! A bitmap whose lowest clear bit is found word by word.

ghost use Rattle.std.specs.Prelude.{◌≡◌, ℕ, ◌*◌, ◌/◌, ◌<◌, ◌≤◌, false, length, replicate, IfOk, MatchOption};
ghost use Rattle.passive_ports.specs.Bits.{has_bit, PutsBit, IsLowestClear, AreAllSet};

use std::alloc::{AllocError, Allocator, Global};
use std::marker::Model;

/// Most words of a bitmap, with 65,536 bits together.
pub(crate) const MAX_WORDS: usize = 1024;

/// Bits in words of 64.
#[derive(Drop)]
pub(crate) struct Bitmap<A: Allocator = Global> {
    words: Vec<u64, A>,
}

impl<A: Allocator> Model for Bitmap<A> {
    ghost use Rattle.std.specs.Prelude.{ℕ, List, ◌≤◌, length};
    ghost use Rattle.passive_ports.specs.declared.bitmap.TheConstants.{MAX_WORDS};

    ghost Value = { List ℕ };

    ghost view = { λ inside. inside.words.items };

    ghost invariant = { λ inside. length inside.words.items ≤ MAX_WORDS };
}

impl<A: Allocator> Bitmap<A> {
    /// A bitmap of clear bits that has room for bit `last`.
    pub fn new(alloc: A, last: u16) -> Result<Bitmap<A>, AllocError>
        ensures room { IfOk result (λ words. last < 64 * length words) }
        ensures clear { IfOk result (λ words. (k : ℕ) → has_bit words k ≡ false) }
    {
        let count = usize::from(last) / 64 + 1;
        let words = zeros(alloc, count)?;
        Ok(Bitmap { words })
    }

    pub fn is_set(&self, place: usize) -> bool
        requires { place < 64 * length self.now }
        ensures bit { result ≡ has_bit self.now place }
    {
        read_bit(&self.words, place)
    }

    pub fn put(&mut self, place: usize, value: bool)
        requires { place < 64 * length self.old }
        ensures put { PutsBit self.old self.new place value }
        ensures len { length self.new ≡ length self.old }
    {
        write_bit(&mut self.words, place, value);
    }

    /// The lowest clear bit. At most 1,024 words are read, for 65,536 bits.
    pub fn lowest_clear(&self) -> Option<usize>
        ensures lowest { MatchOption result (AreAllSet self.now) (IsLowestClear self.now) }
    {
        find_clear(&self.words)
    }
}

fn zeros<A: Allocator>(alloc: A, count: usize) -> Result<Vec<u64, A>, AllocError>
    ensures zeros { IfOk result (λ words. words.items ≡ replicate count 0) }
{
    vec![in alloc; 0u64; count]
}

fn read_bit(words: &[u64], place: usize) -> bool
    requires { place / 64 < length words.now }
    ensures bit { result ≡ has_bit words.now place }
{
    words[place / 64] >> (place % 64) & 1 == 1
}

fn write_bit(words: &mut [u64], place: usize, value: bool)
    requires { place / 64 < length words.old }
    ensures put { PutsBit words.old words.new place value }
{
    let mask = 1u64 << (place % 64);
    if value {
        words[place / 64] |= mask;
    } else {
        words[place / 64] &= !mask;
    }
}

/// The lowest clear bit, found word by word.
fn find_clear(words: &[u64]) -> Option<usize>
    requires { length words.now ≤ MAX_WORDS }
    ensures lowest { MatchOption result (AreAllSet words.now) (IsLowestClear words.now) }
{
    for (index, word) in words.iter().enumerate() {
        if *word != u64::MAX {
            return Some(64 * index + word.trailing_ones() as usize);
        }
    }
    None
}
