//! Expectations of the tests. A call costs the prover less than an `assert!` in its place.

ghost use Rattle.std.specs.Prelude.{IsTrue};

use std::process::Abort;

/// Stops the test if this is false.
pub(crate) fn holds(rt: &impl Abort, fact: bool)
    ensures so { IsTrue fact }
{
    assert!(rt; fact);
}
