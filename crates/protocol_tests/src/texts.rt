//! The calls that return a text of one line, with the expected texts. `refused` carries them out.

ghost use Rattle.ftp_terms.specs.Lines.{IsLine};

use crate::expect::{holds, same, same_octets};
use ftp_reply::{list_line, listings_have_one_text, mdtm_line, mdtm_text, mlst_entry, quoted_path};
use ftp_terms::{EntryKind, Facts, LATEST, Letters, LineText, Meta, is_line_text};
use ftp_wire::{HostPort, facts_text, port_text, starred_facts_text};
use std::alloc::{AllocError, Allocator};
use std::process::Abort;

/// EntryKind, size and moment of an entry.
type Of = (EntryKind, u64, u64);

/// A call that returns a text.
#[derive(Clone, Copy)]
pub(crate) enum Text {
    Made(&'static str),
    WithNumber(&'static str, u64, &'static str),
    Joined(&'static str, &'static str, &'static str),
    /// Of an entry called `x`.
    ListLine(Of),
    /// Of an entry, by its path.
    MlstEntry(Of, Facts, Letters, &'static str),
    QuotedPath(&'static str),
    MdtmLine(u64),
    PortText([u8; 4], u16),
    FactsText(Facts),
    StarredFacts(Facts),
}

/// The text of a row, which is on one line.
fn line(rt: &impl Abort, text: &'static str) -> &'static str
    ensures line { IsLine result.now }
{
    holds(rt, is_line_text(text));
    text
}

fn meta((kind, size, seconds): Of) -> Meta {
    Meta::new(kind, size, seconds)
}

fn made<A: Allocator>(rt: &impl Abort, alloc: A, text: &str) -> Result<LineText<A>, AllocError> {
    let text = String::from_str(alloc, text)?;
    holds(rt, is_line_text(text.as_str()));
    Ok(LineText::made(text))
}

/// The text that a call returns.
pub(crate) fn given<A: Allocator>(
    rt: &impl Abort,
    alloc: A,
    text: Text,
) -> Result<LineText<A>, AllocError> {
    match text {
        Text::Made(text) => made(rt, alloc, text),
        Text::WithNumber(before, number, after) => {
            LineText::with_number(alloc, line(rt, before), number, line(rt, after))
        }
        Text::Joined(before, middle, after) => {
            LineText::joined(alloc, line(rt, before), line(rt, middle), line(rt, after))
        }
        Text::ListLine(of) => list_line(alloc, &meta(of), "x"),
        Text::MlstEntry(of, facts, letters, path) => {
            mlst_entry(alloc, &meta(of), facts, letters, line(rt, path))
        }
        Text::QuotedPath(path) => quoted_path(alloc, line(rt, path)),
        Text::MdtmLine(seconds) => {
            holds(rt, seconds <= LATEST);
            mdtm_line(alloc, seconds)
        }
        Text::PortText(address, port) => port_text(alloc, &HostPort { address, port }),
        Text::FactsText(facts) => facts_text(alloc, facts),
        Text::StarredFacts(facts) => starred_facts_text(alloc, facts),
    }
}

/// 2000-02-29 12:34:56.
const LEAP_DAY: u64 = 951_827_696;

const FILE: Of = (EntryKind::File, 3, LEAP_DAY);

const LARGE: Of = (EntryKind::File, u64::MAX, 0);

const FOLDER: Of = (EntryKind::Directory, 0, 0);

const SIZE_ALONE: Facts = Facts {
    size: true,
    ..Facts::NONE
};

const KIND_AND_MODIFY: Facts = Facts {
    kind: true,
    modify: true,
    ..Facts::NONE
};

const READS: Letters = Letters {
    retrieve: true,
    ..Letters::NONE
};

pub(crate) static TEXTS: &[(Text, &str)] = &[
    (Text::Made("made"), "made"),
    (
        Text::WithNumber("Restarting at ", u64::MAX, "."),
        "Restarting at 18446744073709551615.",
    ),
    (Text::WithNumber("", 0, ""), "0"),
    (
        Text::Joined("Entering Passive Mode (", "1,2,3,4,5,6", ")"),
        "Entering Passive Mode (1,2,3,4,5,6)",
    ),
    (Text::Joined("a", "", "\u{e9}b"), "a\u{e9}b"),
    // lines of listings
    (
        Text::ListLine((EntryKind::File, 120, LEAP_DAY)),
        "-rw-r--r-- 1 ftp ftp          120 Feb 29  2000 x",
    ),
    (
        Text::ListLine((EntryKind::Directory, 120, 0)),
        "drwxr-xr-x 1 ftp ftp            0 Jan  1  1970 x",
    ),
    (
        Text::ListLine((EntryKind::File, 1_234_567_890_123, LATEST)),
        "-rw-r--r-- 1 ftp ftp 1234567890123 Dec 31  9999 x",
    ),
    (
        Text::ListLine(LARGE),
        "-rw-r--r-- 1 ftp ftp 18446744073709551615 Jan  1  1970 x",
    ),
    // entries
    (
        Text::MlstEntry(FILE, Facts::ALL, READS, "/f"),
        "type=file;size=3;modify=20000229123456;perm=r; /f",
    ),
    (
        Text::MlstEntry(FILE, Facts::ALL, Letters::ALL, "/f"),
        "type=file;size=3;modify=20000229123456;perm=adfrw; /f",
    ),
    (
        Text::MlstEntry(FILE, Facts::ALL, Letters::NONE, "/f"),
        "type=file;size=3;modify=20000229123456;perm=; /f",
    ),
    (
        Text::MlstEntry(LARGE, Facts::ALL, Letters::ALL, "/a.txt"),
        "type=file;size=18446744073709551615;modify=19700101000000;perm=adfrw; /a.txt",
    ),
    (
        Text::MlstEntry(FILE, SIZE_ALONE, Letters::ALL, "/f"),
        "size=3; /f",
    ),
    (
        Text::MlstEntry(FILE, Facts::NONE, Letters::ALL, "/f"),
        " /f",
    ),
    (
        Text::MlstEntry(LARGE, SIZE_ALONE, Letters::NONE, "/f"),
        "size=18446744073709551615; /f",
    ),
    (
        Text::MlstEntry(FOLDER, Facts::ALL, Letters::ALL, "/"),
        "type=dir;modify=19700101000000;perm=cdeflmp; /",
    ),
    (
        Text::MlstEntry(FOLDER, Facts::ALL, Letters::NONE, "/"),
        "type=dir;modify=19700101000000;perm=; /",
    ),
    (
        Text::MlstEntry(FOLDER, SIZE_ALONE, Letters::NONE, "/"),
        " /",
    ),
    (
        Text::MlstEntry(FOLDER, Facts::NONE, Letters::NONE, "/"),
        " /",
    ),
    // paths and moments
    (
        Text::QuotedPath("/a \"long\" name of a folder"),
        "\"/a \"\"long\"\" name of a folder\"",
    ),
    (Text::QuotedPath("/a\"b"), "\"/a\"\"b\""),
    (Text::QuotedPath("/"), "\"/\""),
    (Text::QuotedPath("/\u{e9}\"\""), "\"/\u{e9}\"\"\"\"\""),
    (Text::MdtmLine(LEAP_DAY), "20000229123456"),
    (Text::MdtmLine(0), "19700101000000"),
    (Text::MdtmLine(LATEST), "99991231235959"),
    // ports and facts
    (Text::PortText([127, 0, 0, 1], 21), "127,0,0,1,0,21"),
    (Text::PortText([10, 0, 0, 1], 5120), "10,0,0,1,20,0"),
    (
        Text::PortText([255, 255, 255, 255], 65535),
        "255,255,255,255,255,255",
    ),
    (Text::FactsText(Facts::NONE), ""),
    (Text::FactsText(KIND_AND_MODIFY), "type;modify;"),
    (Text::FactsText(Facts::ALL), "type;size;modify;perm;"),
    (Text::StarredFacts(Facts::NONE), "type;size;modify;perm;"),
    (
        Text::StarredFacts(KIND_AND_MODIFY),
        "type*;size;modify*;perm;",
    ),
    (Text::StarredFacts(Facts::ALL), "type*;size*;modify*;perm*;"),
];

#[test]
fn moments(rt: HostRuntime) {
    same_octets(&rt, &mdtm_text(LEAP_DAY), b"20000229123456");
    same_octets(&rt, &mdtm_text(0), b"19700101000000");
    same_octets(&rt, &mdtm_text(LATEST), b"99991231235959");
    let late = Meta::new(EntryKind::File, 3, LATEST + 1); // stored as the latest
    same(&rt, &late.modified, &LATEST);
    holds(&rt, late == Meta::new(EntryKind::File, 3, u64::MAX));
    holds(&rt, late != Meta::new(EntryKind::Directory, 3, LATEST));
    listings_have_one_text();
}
