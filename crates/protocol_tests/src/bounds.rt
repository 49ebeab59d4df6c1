//! The longest line, and floods.

use crate::expect::same;
use crate::reported::{add_reported, reported};
use ftp_wire::LineReader;
use std::alloc::Global;
use std::process::Abort;

/// A start, and one octet repeated; the number of octets stored then; an end, and the meaning of all
/// together.
type Flood = (
    &'static [u8],
    u8,
    usize,
    usize,
    &'static [u8],
    &'static [u8],
);

static FLOODS: [Flood; 9] = [
    (b"", b'x', 0, 0, b"", b""),
    (b"", b'x', 4096, 4096, b"", b""),
    (b"", b'x', 4097, 4097, b"", b""),
    (b"", b'x', 4098, 0, b"", b""),
    (b"", b'x', 1_000_000, 0, b"", b""),
    (b"CWD ", b'x', 4093, 4097, b"\r\n", b"500 Line too long\r\n"),
    (b"", 255, 1_000_000, 0, b"\n", b"500 Line too long\r\n"),
    (
        b"CWD ",
        b'x',
        1_000_000,
        0,
        b"\r\nNOOP\r\n",
        b"500 Line too long\r\nNOOP\r\n",
    ),
    (b"\xff\xfa", b'x', 1_000_000, 0, b"", b""),
];

fn check_flood(rt: &impl Abort, alloc: Global, flood: &Flood) {
    let (start, octet, count, kept, end, wanted) = *flood;
    let many = vec![in alloc; octet; count].expect(rt, "memory");
    let mut reader = LineReader::new(alloc);
    let mut out = Vec::new(alloc);
    add_reported(rt, alloc, &mut out, &mut reader, start);
    add_reported(rt, alloc, &mut out, &mut reader, many.as_slice());
    same(rt, &reader.kept(), &kept);
    add_reported(rt, alloc, &mut out, &mut reader, end);
    same(rt, &out.as_slice(), &wanted);
}

#[test]
fn nothing_is_kept_of_a_flood(rt: HostRuntime) {
    for flood in &FLOODS {
        check_flood(&rt, rt.alloc(), flood);
    }
}

#[test]
fn longest_line(rt: HostRuntime) {
    let name = "x".repeat(rt.alloc(), 4092).expect(&rt, "memory");
    let line = format!(in rt.alloc(); "CWD {name}\r\n").expect(&rt, "memory");
    let found = reported(&rt, rt.alloc(), &[line.as_bytes()]);
    same(&rt, &found.as_slice(), &line.as_bytes());
}

#[test]
fn many_lines_in_one_piece(rt: HostRuntime) {
    let lines = vec![in rt.alloc(); b'\n'; 10_000].expect(&rt, "memory");
    let mut reader = LineReader::new(rt.alloc());
    let items = reader.feed(lines.as_slice()).expect(&rt, "memory");
    same(&rt, &items.len(), &10_000);
}
