//! Expectations of the tests. A call costs the prover less than an `assert!` in its place.

ghost use Rattle.std.specs.Prelude.{IsTrue};

use grant_ledger::{Book, BookName, SettledNumbers, Tally, settle};
use line_rates::Limits;
use std::process::Abort;

/// The name of the books of a worker's tests.
#[derive(Drop)]
pub(crate) struct OfTest {}

impl BookName for OfTest {}

/// Stops the test if this is false.
pub(crate) fn holds(rt: &impl Abort, fact: bool)
    ensures so { IsTrue fact }
{
    assert!(rt; fact);
}

/// Settles, and stops the test if the numbers differ.
pub(crate) fn settles(
    rt: &impl Abort,
    book: Book,
    tally: Tally,
    issued: u64,
    moved: u64,
    back: u64,
) {
    let wanted = SettledNumbers {
        issued,
        moved,
        back,
    };
    holds(rt, settle(book, tally).numbers() == wanted);
}

/// Limits with the server's rate alone; a rate of 0 limits nothing.
pub(crate) fn limits(rt: &(impl Abort + AllocGlobal), rate: u64) -> Limits {
    Limits::of(rate, 0, 0, Vec::new(rt.alloc()), Vec::new(rt.alloc())).expect(rt, "limits")
}
