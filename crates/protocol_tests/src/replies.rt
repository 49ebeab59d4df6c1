//! Replies as octets.

use crate::expect::{holds, says};
use ftp_reply::{Reply, ReplyCode};
use ftp_terms::LineText;
use std::alloc::Global;
use std::process::Abort;

pub(crate) const FEATURES: &[u8] = b"211-Features\r\n EPRT\r\n 211 is no end\r\n\r\n211 End\r\n";

/// A reply of several lines, as `FEATURES`.
pub(crate) fn features(rt: &impl Abort, alloc: Global) -> Reply {
    let mut inner = Vec::new(alloc);
    for line in [" EPRT", "211 is no end", ""] {
        inner.push(LineText::fixed(line)).expect(rt, "memory");
    }
    Reply::several_lines(
        ReplyCode::new(211),
        LineText::fixed("Features"),
        inner,
        LineText::fixed("End"),
    )
}

#[test]
fn replies(rt: HostRuntime) {
    let first = Reply::one_line(ReplyCode::new(100), LineText::fixed(""));
    says(&rt, first, b"100 \r\n");
    let refusal = Reply::one_line(ReplyCode::new(530), LineText::fixed("Log in first"));
    says(&rt, refusal, b"530 Log in first\r\n");
    let last = Reply::one_line(ReplyCode::new(599), LineText::fixed("x"));
    says(&rt, last, b"599 x\r\n");
    says(&rt, features(&rt, rt.alloc()), FEATURES);
}

/// A reply of a thousand and two lines.
fn many_lines(rt: &impl Abort, alloc: Global) -> Reply {
    let mut inner = Vec::new(alloc);
    for _ in 0..1000usize {
        inner.push(LineText::fixed("1")).expect(rt, "memory");
    }
    let text = LineText::fixed("Many");
    Reply::several_lines(ReplyCode::new(211), text, inner, LineText::fixed("End"))
}

#[test]
fn thousand_lines_behind_a_long_buffer(rt: HostRuntime) {
    let mut buffer = vec![in rt.alloc(); b'x'; 1_000_000].expect(&rt, "memory");
    let written = many_lines(&rt, rt.alloc()).write_to(&mut buffer);
    written.expect(&rt, "memory");
    holds(&rt, buffer.len() == 1_000_000 + 10 + 4000 + 9);
    holds(&rt, buffer.as_slice().starts_with(b"xxxx"));
    holds(&rt, buffer.as_slice().ends_with(b" 1\r\n 1\r\n211 End\r\n"));
}
