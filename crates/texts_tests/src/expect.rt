//! Expectations of tests. A call costs the prover less than an `assert!` in its place.

ghost use Rattle.std.specs.Prelude.{IsTrue};

use std::fmt::Debug;
use std::process::Abort;

/// Ends the test unless the fact is true.
pub(crate) fn holds(rt: &impl Abort, fact: bool)
    ensures so { IsTrue fact }
{
    assert!(rt; fact);
}

/// Ends the test unless the two are equal.
pub(crate) fn same<T: PartialEq + Debug>(rt: &impl Abort, found: &T, wanted: &T) {
    assert_eq!(rt; found, wanted);
}

/// Ends the test unless a value shows as this text, which names its fields.
pub(crate) fn shows<T: Debug>(rt: &(impl Abort + AllocGlobal), found: &T, wanted: &str) {
    let text = format!(in rt.alloc(); "{found:?}").expect(rt, "memory");
    assert_eq!(rt; text.as_str(), wanted);
}
