//! The book of issued octets, and the values through which each octet must pass.
//!
//! A [`Book`] enters the grants of sealed decisions, at most one entry per tick, and counts the octets issued. A
//! [`Grant`] is permission to move octets, a [`Purse`] has the octets of an entry that are in no grant yet, and a
//! [`Tally`] counts the outcome of spent grants: octets moved, and octets given back.
//!
//! All four have the name of their book, a type `N` without cost at run time: a `Book<OfDesk>` issues a
//! `Grant<OfDesk>`, which only a `Tally<OfDesk>` accepts. A program that spends a grant into a tally of another name
//! does not compile. `Book` alone means the book with the name `Plain`.
//!
//! A book is opened under a name that is a [`BookName`]. What is generic in the name without that bound can open none: it
//! settles the book that it was given, and returns the [`Settled`] of that name, which only [`settle`] makes.
//!
//! None of the five can be copied or dropped: a program that drops one does not compile. The only way to consume a
//! grant is `spend`; a purse, `close`; a tally, `join` or `settle`; a book, `settle`; a settlement, `numbers`. No call
//! allocates.
//!
//! ```text
//! let sealed = sealed(rt.alloc(), &[100])?;
//! let (mut book, mut tally): (Book, Tally) = Book::open(0);
//! match book.enter_out(&sealed, 7) {
//!     Ok(mut purse) => {
//!         let grant = purse.split(3, purse.left()); // its octets at tick 7, all for lane 3
//!         purse.close(); // since nothing is left
//!         let mut own = tally.split(); // a worker's own tally
//!         let moved = grant.octets().min(60);
//!         grant.spend(moved, &mut own); // the others are given back
//!         tally.join(own);
//!     }
//!     Err(_) => panic!(rt; "a later tick than the last is taken"),
//! }
//! let settled = settle(book, tally).numbers();
//! assert!(rt; settled.issued == 100 && settled.moved == 60 && settled.back == 40);
//! ```
#![tactic(auto)]

mod fault;
mod laws;
mod ledger;

pub use fault::BookFault;
pub use laws::{entry_gives_each_lane_its_amount, entry_is_drawn_in_turn};
pub use ledger::{
    Book, BookName, Grant, MAX_ISSUED, MAX_LANES, Plain, Purse, Settled, SettledNumbers, Tally,
    settle,
};
