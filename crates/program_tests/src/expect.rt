//! Expectations of tests. A call costs the prover less than an `assert!` in its place.

ghost use Rattle.std.specs.Prelude.{IsTrue};

use std::fmt::Display;
use std::process::Abort;

/// Ends the test unless the fact is true.
pub(crate) fn holds(rt: &impl Abort, fact: bool)
    ensures so { IsTrue fact }
{
    assert!(rt; fact);
}

/// Ends the test unless the octets are those of the text.
pub(crate) fn same(rt: &impl Abort, found: &[u8], wanted: &str) {
    assert_eq!(rt; found, wanted.as_bytes());
}

/// Ends the test unless the value prints as this text.
pub(crate) fn reports<T: Display>(rt: &(impl Abort + AllocGlobal), shown: &T, reported: &str) {
    let text = format!(in rt.alloc(); "{shown}").expect(rt, "memory");
    same(rt, text.as_str().as_bytes(), reported);
}
