//! Certificates.

ghost use Rattle.std.specs.Prelude.{◌≡◌};

use std::alloc::{Allocator, Global};
use std::marker::Model;

/// For each leaf the number of the branch that limits it, or none. Branches are numbered in preorder, with all
/// nodes counted.
#[derive(Drop)]
pub struct Certificate<A: Allocator = Global> {
    entries: Vec<Option<u32>, A>,
}

impl<A: Allocator> Model for Certificate<A> {
    ghost use Rattle.std.specs.Prelude.{ℕ, List, Option};

    ghost Value = { List (Option ℕ) };

    ghost view = { λ c. c.entries.items };
}

impl<A: Allocator> Certificate<A> {
    /// A certificate with these entries, one for each leaf in order.
    pub fn new(entries: Vec<Option<u32>, A>) -> Certificate<A>
        ensures entries { result ≡ entries.items }
    {
        Self { entries }
    }

    /// The entries, one for each leaf in order.
    pub fn entries(&self) -> &[Option<u32>]
        ensures entries { result.now ≡ self.now }
    {
        &self.entries
    }

    /// Returns the entries, without allocation.
    pub fn into_entries(self) -> Vec<Option<u32>, A>
        ensures entries { result.items ≡ self }
    {
        let Certificate { entries } = self;
        entries
    }
}
