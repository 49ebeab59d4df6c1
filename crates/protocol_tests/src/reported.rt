//! The output of a reader, as octets: a command as it is written, a fault as its reply.

use crate::expect::same_line;
use ftp_wire::{LineItem, LineReader, write_command};
use std::alloc::Global;
use std::process::Abort;

fn add_item(rt: &impl Abort, alloc: Global, out: &mut Vec<u8>, item: &LineItem) {
    match item {
        LineItem::Command(command) => {
            let line = write_command(alloc, command).expect(rt, "memory");
            out.extend_from_slice(line.as_slice()).expect(rt, "memory");
        }
        LineItem::Fault(fault) => fault.reply::<Global>().write_to(out).expect(rt, "memory"),
    }
}

/// Adds the output of a reader for these octets.
pub(crate) fn add_reported(
    rt: &impl Abort,
    alloc: Global,
    out: &mut Vec<u8>,
    reader: &mut LineReader,
    octets: &[u8],
) {
    let items = reader.feed(octets).expect(rt, "memory");
    for item in &items {
        add_item(rt, alloc, out, item);
    }
}

/// The output of a new reader for octets in these pieces.
pub(crate) fn reported(rt: &impl Abort, alloc: Global, pieces: &[&[u8]]) -> Vec<u8> {
    let mut reader = LineReader::new(alloc);
    let mut out = Vec::new(alloc);
    for piece in pieces {
        add_reported(rt, alloc, &mut out, &mut reader, piece);
    }
    out
}

/// A line in two parts, without its end, reads as an item.
pub(crate) fn check_line(rt: &impl Abort, alloc: Global, code: &str, rest: &str, item: &str) {
    let line = format!(in alloc; "{code}{rest}\r\n").expect(rt, "memory");
    let found = reported(rt, alloc, &[line.as_bytes()]);
    same_line(rt, found.as_slice(), item, line.as_str());
}
