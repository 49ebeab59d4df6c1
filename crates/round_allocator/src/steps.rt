//! The counter of probes.

ghost use Rattle.std.specs.Prelude.{◌≡◌, ◌+◌, ◌<◌, ◌^◌};

use std::marker::Model;
use std::sync::ledger::{Blank, Book, Ledger, Share};

/// Number of probes. Only a probe increases it, and nothing decreases or replaces it: it is the one counter of its
/// ledger `L`. A body that is lent it cannot make another.
#[derive(Drop)]
pub struct Steps<L: Ledger> {
    count: u64,
    book: Book<L>,
    share: Share<L>,
}

impl<L: Ledger> Model for Steps<L> {
    ghost use Rattle.std.specs.Prelude.{◌≡◌, ◌<◌, ℕ};

    ghost Value = { ℕ };

    ghost view = { λ s. s.book.total };

    ghost invariant = { λ s. (0 < s.share.parts) × (s.count ≡ s.book.total) };
}

impl<L: Ledger> Steps<L> {
    /// The counter of a ledger, at 0.
    pub fn new(blank: Blank) -> Steps<L>
        requires name { blank.name ≡ L.name }
        requires parts { blank.parts ≡ L.parts }
        requires some { 0 < blank.parts }
        ensures none { result ≡ 0 }
    {
        let (book, share) = blank.open::<L>();
        Steps {
            count: 0,
            book,
            share,
        }
    }

    /// The number.
    pub fn count(&self) -> u64
        ensures count { result ≡ self.now }
    {
        self.count
    }

    // Counts one probe.
    pub(crate) fn tick(&mut self)
        requires room { self.old < 2 ^ 63 }
        ensures counted { self.new ≡ self.old + 1 }
    {
        let Self { count, book, share } = self;
        book.add(share, 1);
        *count += 1;
    }
}
