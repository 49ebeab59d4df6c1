//! Expectations of tests. A call costs the prover less than an `assert!` in its place.

use std::process::Abort;

/// Ends the test unless the fact is true.
pub(crate) fn holds(rt: &impl Abort, fact: bool) {
    assert!(rt; fact);
}

/// Ends the test unless the octets are these.
pub(crate) fn same(rt: &impl Abort, found: &[u8], wanted: &[u8]) {
    assert_eq!(rt; found, wanted);
}
