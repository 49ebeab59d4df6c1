//! The shared words.

use crate::expect::{holds, same};
use ftp_terms::{DataType, Facts, Letter, Letters, is_line_text, texts_of_one_line};
use std::process::Abort;

static NAMED: [(&str, Letter); 8] = [
    ("e", Letter::ChangeDirectory),
    ("l", Letter::Listing),
    ("r", Letter::Retrieve),
    ("a", Letter::AppendTo),
    ("d", Letter::Delete),
    ("f", Letter::Rename),
    ("m", Letter::MakeDirectory),
    ("w", Letter::Store),
];

/// The text is this letter alone.
fn check_letter(rt: &impl Abort, text: &str, letter: Letter) {
    let held = Letters::read(text).unwrap_or(Letters::NONE);
    for (_, other) in &NAMED {
        same(rt, &held.holds(*other), &(*other == letter));
    }
}

static LETTERS: [(&str, Option<Letters>); 5] = [
    ("", Some(Letters::NONE)),
    ("elradfmw", Some(Letters::ALL)),
    ("wwmfdarle", Some(Letters::ALL)),
    ("elx", None),
    ("E", None),
];

static LINES: [(&str, bool); 4] = [("", true), ("a b", true), ("a\r", false), ("\na", false)];

#[test]
fn words(rt: HostRuntime) {
    for (text, letter) in &NAMED {
        check_letter(&rt, text, *letter);
    }
    for (text, letters) in &LETTERS {
        same(&rt, &Letters::read(text), letters);
    }
    for (text, answer) in &LINES {
        same(&rt, &is_line_text(text), answer);
    }
    let Facts {
        kind,
        size,
        modify,
        perm,
    } = Facts::ALL;
    holds(&rt, kind && size && modify && perm);
    holds(&rt, Facts::NONE != Facts::ALL);
    holds(&rt, DataType::Ascii != DataType::Image);
    texts_of_one_line();
}
