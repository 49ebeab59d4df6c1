//! Lines and their statements. Lines without one are in `runs/faulty_sheets.toml`.

use crate::expect::holds;
use limit_tree::NodeKind;
use sheet_text::{
    Hint, cut_at, cut_line, hint_of, read_entry, read_named_path, read_number, read_path,
};

static LINES: [&[u8]; 4] = [b"a", b"", b"#b", b"c\r"];

#[test]
fn lines_end_with_lf_or_cr_lf(rt: HostRuntime) {
    let mut text = b"a\r\n\n#b\nc\r".as_slice();
    for wanted in &LINES {
        holds(&rt, !text.is_empty());
        let (line, rest) = cut_line(text);
        holds(&rt, line == *wanted);
        text = rest;
    }
    holds(&rt, text.is_empty());
}

#[test]
fn a_text_is_cut_at_the_first_mark(rt: HostRuntime) {
    let (front, behind) = cut_at(b"a b c", b' ');
    holds(&rt, front == b"a".as_slice());
    holds(&rt, behind == Some(b"b c".as_slice()));
    let (_, none) = cut_at(b"abc", b' ');
    holds(&rt, none.is_none());
}

static ENTRIES: [(&[u8], &str, NodeKind); 4] = [
    (b"limit / 10", "", NodeKind::Branch { limit: Some(10) }),
    (b"limit /x/y -", "/x/y", NodeKind::Branch { limit: None }),
    (
        b"want /a-_.9 10",
        "/a-_.9",
        NodeKind::Leaf { want: 10, floor: 0 },
    ),
    (b"want /a 10 6", "/a", NodeKind::Leaf { want: 10, floor: 6 }),
];

#[test]
fn entries(rt: HostRuntime) {
    for (line, path, kind) in &ENTRIES {
        let entry = read_entry(line).expect(&rt, "an entry");
        holds(&rt, entry.path == *path && entry.kind == *kind);
    }
}

/// If a line has several slips, its hint is the first in the order of this list.
static HINTS: [(&[u8], Option<Hint>); 9] = [
    (b"\xef\xbb\xbfwant\t/a 1", Some(Hint::ByteOrderMark)),
    (b"want /a\t10M", Some(Hint::Tab)),
    (b"want /a 10  # lunch", Some(Hint::Remark)),
    (b"want /a  10M", Some(Hint::Blank)),
    (b" want /a 10", Some(Hint::Blank)),
    (b"want /a 10 ", Some(Hint::Blank)),
    (b"want /a 10M", Some(Hint::Unit)),
    (b"limit /a1x# 10 5", None),
    (b"want a 10", None),
];

#[test]
fn hints(rt: HostRuntime) {
    for (line, hint) in &HINTS {
        holds(&rt, hint_of(line) == *hint);
    }
}

static NUMBERS: [(&[u8], Option<u64>); 4] = [
    (b"0", Some(0)),
    (b"9999999999999999999", Some(9_999_999_999_999_999_999)),
    (b"00", None),
    (b"", None),
];

#[test]
fn numbers_and_paths(rt: HostRuntime) {
    for (text, number) in &NUMBERS {
        holds(&rt, read_number(text) == *number);
    }
    holds(&rt, read_path(b"/").is_some() && read_path(b"").is_none());
    holds(&rt, read_named_path(b"/a/b").is_some());
    holds(&rt, read_named_path(b"/").is_none());
}
