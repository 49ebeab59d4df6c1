//! A book with one entry, whose octets are granted freely.

ghost use Rattle.std.specs.Prelude.{◌≤◌};

use crate::fault::FundsFault;
use crate::sealing::sealed;
use grant_ledger::{Book, Grant, Purse, SettledNumbers, Tally, settle};
use std::alloc::Global;

/// The octets of one entry of a book, and their outcome so far.
pub struct Funds {
    book: Book,
    purse: Purse,
    pub tally: Tally,
}

impl Funds {
    /// A new book that has issued these amounts.
    pub fn new(alloc: Global, amounts: &[u64]) -> Result<Funds, FundsFault> {
        let decided = sealed(alloc, amounts)?;
        let (mut book, tally) = Book::open(0);
        match book.enter_out(&decided, 1) {
            Ok(purse) => Ok(Funds { book, purse, tally }),
            Err(_) => {
                settle(book, tally).numbers();
                Err(FundsFault::Refused)
            }
        }
    }

    /// A grant of `octets` octets, or of those that are left.
    pub fn grant(&mut self, octets: u64) -> Grant
        ensures most { result.octets ≤ octets }
    {
        let count = octets.min(self.purse.left());
        self.purse.split(0, count)
    }

    /// Gives back what is left, and settles.
    pub fn settle(self) -> SettledNumbers {
        let Funds { book, purse, tally } = self;
        let mut purse = purse;
        let mut tally = tally;
        let rest = purse.split(0, purse.left());
        purse.close();
        rest.spend(0, &mut tally);
        settle(book, tally).numbers()
    }
}
