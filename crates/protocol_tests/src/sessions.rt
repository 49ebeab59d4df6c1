//! A control connection in pieces, with Telnet commands in it.

use crate::expect::{holds, same};
use crate::reported::{add_reported, reported};
use ftp_wire::{LONGEST_HELD, LineReader, items_stay, only_items, spellings_apart};
use std::alloc::Global;
use std::process::Abort;

/// Lines of a session and their meaning: the command as it is written, or the reply to a fault.
static SESSION: [(&[u8], &str); 32] = [
    (b"USER ann\r\n", "USER ann\r\n"),
    (b"pass\r\n", "PASS\r\n"),
    (b"PASS se cret\r\n", "PASS se cret\r\n"),
    (b"CWD a\n", "CWD a\r\n"),
    (b"xcwd b\r\n", "CWD b\r\n"),
    (b"XCUP\n", "CDUP\r\n"),
    (b"\r\n", "500 Empty line\r\n"),
    (b"\n", "500 Empty line\r\n"),
    (b"TYPE L 8\r\n", "TYPE I\r\n"),
    (b"PORT 10,0,0,1,20,0\r\n", "PORT 10,0,0,1,20,0\r\n"),
    (b"rEtR x\n", "RETR x\r\n"),
    (b"RETR  \r\n", "501 Argument missing\r\n"),
    (b"\xff\xf4\xff\xf2ABOR\r\n", "ABOR\r\n"),
    (b"\xff\xf4\xffABOR\r\n", "ABOR\r\n"),
    (b"\xff\xf4\xf2ABOR\r\n", "500 Unknown command\r\n"),
    (b"ABOR\rQUIT\r\n", "500 Unknown command\r\n"),
    (b"PWD x\r\n", "501 Argument not wanted\r\n"),
    (b"FOO\r\n", "500 Unknown command\r\n"),
    (b"STOU\r\n", "502 Command not served\r\n"),
    (b"AUTH \xff\xff\r\n", "502 Command not served\r\n"),
    (b"CWD \xff\xff\r\n", "501 Bad argument\r\n"),
    (b"PWD \xff\xff\r\n", "501 Argument not wanted\r\n"),
    (b"USER J\xf6rg\r\n", "501 Bad argument\r\n"),
    (b"CWD \xc3\xa4\r\n", "CWD \u{e4}\r\n"),
    (b"CWD a\xffb\r\n", "CWD ab\r\n"),
    (b"NO\xff\xfb\nOP\r\n", "NOOP\r\n"),
    (b"QU\xff\xfax\n\xff\xffy\xff\xf0IT\r\n", "QUIT\r\n"),
    (b"NOOP\r\r\n", "500 Unknown command\r\n"),
    (b"\xff\xf1\xff\xf9NOOP\xff\r\n", "NOOP\r\n"),
    (b"LIST -la x\r\n", "LIST x\r\n"),
    (b"OPTS MLST size;x;TYPE;\r\n", "OPTS MLST type;size;\r\n"),
    (b"NOO\xff\xfa\xff", ""),
];

/// The octets of the session, or their meaning.
fn session(rt: &impl Abort, alloc: Global, is_reported: bool) -> Vec<u8> {
    let mut octets = Vec::new(alloc);
    for (line, item) in &SESSION {
        let part = if is_reported { item.as_bytes() } else { *line };
        octets.extend_from_slice(part).expect(rt, "memory");
    }
    octets
}

#[test]
fn session_however_cut(rt: HostRuntime) {
    let octets = session(&rt, rt.alloc(), false);
    let items = session(&rt, rt.alloc(), true);
    for at in 0..octets.len() {
        let (first, second) = octets.as_slice().split_at(at);
        same(&rt, &reported(&rt, rt.alloc(), &[first, second]), &items);
    }
}

#[test]
fn session_by_octets(rt: HostRuntime) {
    let octets = session(&rt, rt.alloc(), false);
    let items = session(&rt, rt.alloc(), true);
    let mut reader = LineReader::new(rt.alloc());
    let mut reported = Vec::new(rt.alloc());
    for octet in &octets {
        add_reported(&rt, rt.alloc(), &mut reported, &mut reader, &[*octet]);
        holds(&rt, reader.kept() <= LONGEST_HELD);
    }
    same(&rt, &reported, &items);
    reader.reads_as();
    only_items();
    items_stay();
    spellings_apart();
}
