//! Expectations of tests. A call costs the prover less than an `assert!` in its place.

use std::process::Abort;

/// Ends the test unless the fact is true.
pub(crate) fn holds(rt: &impl Abort, fact: bool, why: &str) {
    assert!(rt; fact, "{why}");
}

/// Ends the test unless the octets are these.
pub(crate) fn same(rt: &impl Abort, found: &[u8], wanted: &str) {
    assert_eq!(rt; found, wanted.as_bytes());
}
