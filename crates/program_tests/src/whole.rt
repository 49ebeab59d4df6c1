//! Texts that are read whole and written whole.

use crate::ends::{FailingWriter, Given, Shy, ShyWriter, UnflushedWriter};
use crate::expect::{holds, same};
use crate::texts::LUNCH_LINES;
use std::process::Abort;
use text_io::{FallibleIo, TextFault, read_whole, write_whole};

/// A text as its reader returns it, and what is read; None if it breaks off.
static READ: [(Given<'static>, Option<&str>); 10] = [
    (Given::Whole(""), Some("")),
    (Given::Whole("limit / 10\n"), Some("limit / 10\n")),
    (Given::Whole("no end"), Some("no end")),
    (Given::Whole("a\0b\r\n"), Some("a\0b\r\n")),
    (Given::Interrupted("limit / 10\n", 1), Some("limit / 10\n")),
    (Given::Interrupted("limit / 10\n", 2), Some("limit / 10\n")),
    (Given::Interrupted("ab", 99), Some("ab")),
    (Given::Broken("limit / 10\n", 1), None),
    (Given::Broken("limit / 10\n", 3), None),
    (Given::Broken("limit / 10\n", 100), None),
];

/// Checks that the text is read to its end, or to its fault.
fn is_read(rt: &(impl Abort + AllocGlobal), given: Given<'_>, wanted: Option<&str>) {
    let mut reader = given.reader();
    match (read_whole(rt.alloc(), &mut FallibleIo(&mut reader)), wanted) {
        (Ok(octets), Some(text)) => same(rt, &octets, text),
        (answer, _) => holds(rt, answer == Err(TextFault::ReadFault) && wanted.is_none()),
    }
    holds(rt, reader.rest.is_empty());
}

#[test]
fn texts_are_read(rt: HostRuntime) {
    for (given, wanted) in &READ {
        is_read(&rt, *given, *wanted);
    }
}

/// After a hundred interruptions a read has failed, and nothing is read.
#[test]
fn a_text_that_is_always_interrupted(rt: HostRuntime) {
    let mut reader = Given::Interrupted("ab", 100).reader();
    let answer = read_whole(rt.alloc(), &mut FallibleIo(&mut reader));
    holds(&rt, answer == Err(TextFault::ReadFault));
    same(&rt, reader.rest, "ab");
}

/// A text, and the number of its octets that the writer takes.
static WRITTEN: [(&str, usize); 8] = [
    ("abc", 0),
    ("abc", 1),
    ("abc", 2),
    ("abc", 3),
    (LUNCH_LINES, 0),
    (LUNCH_LINES, 1),
    (LUNCH_LINES, LUNCH_LINES.len() - 1),
    (LUNCH_LINES, LUNCH_LINES.len()),
];

/// Checks that the writer has the front of the text.
fn is_written(rt: &(impl Abort + AllocGlobal), text: &str, left: usize) {
    let mut taken = Vec::new(rt.alloc());
    let mut writer = FallibleIo(FailingWriter {
        taken: &mut taken,
        left,
    });
    let wanted = if left < text.len() {
        Err(TextFault::WriteFault)
    } else {
        Ok(())
    };
    holds(rt, write_whole(text, &mut writer) == wanted);
    let octets = text.as_bytes();
    holds(rt, taken.as_slice() == &octets[..left.min(octets.len())]);
}

#[test]
fn texts_are_written(rt: HostRuntime) {
    for (text, left) in &WRITTEN {
        is_written(&rt, text, *left);
    }
}

/// Numbers of interruptions before each octet of a write that passes.
static INTERRUPTIONS: [usize; 4] = [0, 1, 2, 99];

/// An interrupted write is made again, a hundred times in all.
#[test]
fn interrupted_texts_are_written(rt: HostRuntime) {
    for times in &INTERRUPTIONS {
        let mut taken = Vec::new(rt.alloc());
        let mut writer = FallibleIo(ShyWriter {
            taken: &mut taken,
            shy: Shy::by(*times),
        });
        holds(&rt, write_whole(LUNCH_LINES, &mut writer) == Ok(()));
        same(&rt, &taken, LUNCH_LINES);
    }
}

/// A flush that fails is a fault, although all octets were taken.
#[test]
fn refused_flushes_are_reported(rt: HostRuntime) {
    let mut taken = Vec::new(rt.alloc());
    let mut writer = FallibleIo(UnflushedWriter { taken: &mut taken });
    let written = write_whole(LUNCH_LINES, &mut writer);
    holds(&rt, written == Err(TextFault::WriteFault));
    same(&rt, &taken, LUNCH_LINES);
}

/// A text of this number of octets.
fn long_text(rt: &(impl Abort + AllocGlobal), length: usize) -> String {
    let octets = vec![in rt.alloc(); b'x'; length].expect(rt, "memory");
    String::from_utf8(octets).expect(rt, "a text")
}

/// Checks that a text is written whole, and read whole.
fn goes_through(rt: &(impl Abort + AllocGlobal), text: &str) {
    let mut taken = Vec::new(rt.alloc());
    let mut writer = FallibleIo(FailingWriter {
        taken: &mut taken,
        left: text.len(),
    });
    holds(rt, write_whole(text, &mut writer) == Ok(()));
    holds(rt, taken.as_slice() == text.as_bytes());
    let mut reader = FallibleIo(Given::Whole(text).reader());
    let read = read_whole(rt.alloc(), &mut reader).expect(rt, "a text");
    holds(rt, read.as_slice() == text.as_bytes());
}

/// More than a million octets.
#[test]
fn a_long_text(rt: HostRuntime) {
    goes_through(&rt, long_text(&rt, 1_000_001).as_str());
}
