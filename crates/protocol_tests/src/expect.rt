//! Expectations of the tests. A call costs the prover less than an `assert_eq!` in its place.

ghost use Rattle.std.specs.Prelude.{IsTrue};

use ftp_reply::Reply;
use ftp_terms::LineText;
use std::alloc::{AllocError, Allocator};
use std::fmt::{Debug, Display};
use std::process::Abort;

/// Stops the test if this is false.
pub(crate) fn holds(rt: &impl Abort, fact: bool)
    ensures so { IsTrue fact }
{
    assert!(rt; fact);
}

/// Stops the test if the two differ.
pub(crate) fn same<T: PartialEq + Debug>(rt: &impl Abort, found: &T, wanted: &T) {
    assert_eq!(rt; found, wanted);
}

/// The octets are these.
pub(crate) fn same_octets(rt: &impl Abort, found: &[u8], wanted: &[u8]) {
    assert_eq!(rt; found, wanted);
}

/// Stops the test if a line with its end does not read as the expected item.
pub(crate) fn same_line(rt: &impl Abort, found: &[u8], wanted: &str, line: &str) {
    let found = std::str::from_utf8(found).expect(rt, "UTF-8");
    assert_eq!(rt; found.strip_suffix("\r\n"), Some(wanted), "{line}");
}

/// A call has returned this text.
pub(crate) fn gives<A: Allocator>(
    rt: &impl Abort,
    text: Result<LineText<A>, AllocError>,
    wanted: &str,
) {
    let text = text.expect(rt, "memory");
    assert_eq!(rt; text.as_str(), wanted);
}

/// The reply is written as these octets, after those that a buffer has.
pub(crate) fn says(rt: &(impl Abort + AllocGlobal), reply: Reply, wanted: &[u8]) {
    let mut octets = Vec::from_slice(rt.alloc(), b"before ").expect(rt, "memory");
    reply.write_to(&mut octets).expect(rt, "memory");
    assert_eq!(rt; octets.as_slice().strip_prefix(b"before "), Some(wanted));
}

/// Stops the test if the fault has another text.
pub(crate) fn reads<F: Display>(rt: &(impl Abort + AllocGlobal), fault: &F, wanted: &str) {
    let text = format!(in rt.alloc(); "{fault}").expect(rt, "memory");
    same(rt, &text.as_str(), &wanted);
}
