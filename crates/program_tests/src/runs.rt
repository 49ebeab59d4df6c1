//! Runs whose ends fail midway: the fault, and the output up to it.

use crate::ends::{FailingWriter, Files, Given};
use crate::expect::{holds, reports, same};
use crate::servers::Noting;
use crate::texts::{LOGIN, LUNCH, LUNCH_GRANTS, LUNCH_LINES, SMALL, WELCOME};
use ftpd_program::{FtpdErrorText, STANDARD_INPUT, run_words};
use sheet_commands::{CheckFault, run_check};
use std::process::Abort;
use text_io::{FallibleIo, TextFault};

/// The file `file`, standard input, the number of octets that the output takes, and all that is written to it.
type Run<'a> = (Given<'a>, Option<Given<'a>>, usize, &'a str);

const READ_FAULT: &str = "ftpd: ReadFault\n";

const NO_INPUT: &str = "/dev/stdin: entity not found\nftpd: ReadFault\n";

const WRITE_FAULT: &str = "ftpd: WriteFault\n";

const ALL: usize = usize::MAX;

/// Checks that such a run of `ftpd` by these words ends with a fault, and has written what the output takes.
fn breaks_off(rt: &(impl Abort + AllocGlobal), words: &[&str], run: &Run<'_>) {
    let (file, input, left, output) = *run;
    let mut taken = Vec::new(rt.alloc());
    let mut writer = FallibleIo(FailingWriter {
        taken: &mut taken,
        left,
    });
    let mut files = Files { file, input };
    let mut server = Noting::new();
    let ending = run_words(rt.alloc(), words, &mut files, &mut server, &mut writer);
    let reported = match (left == ALL, words.contains(&"script") && input.is_none()) {
        (_, true) => NO_INPUT,
        (true, false) => READ_FAULT,
        (false, false) => WRITE_FAULT,
    };
    let shown = FtpdErrorText {
        ending: &ending,
        output: None,
        start: None,
    };
    reports(rt, &shown, reported);
    holds(rt, ending.status() == 1);
    let most = output.as_bytes();
    holds(rt, taken.as_slice() == &most[..left.min(most.len())]);
}

static SHARINGS: [Run<'static>; 6] = [
    (Given::Whole(LUNCH), None, 0, LUNCH_LINES),
    (Given::Whole(LUNCH), None, 1, LUNCH_LINES),
    (Given::Whole(LUNCH), None, 62, LUNCH_LINES),
    (Given::Broken(LUNCH, 1), None, ALL, ""),
    (Given::Broken(LUNCH, 20), None, ALL, ""),
    (Given::Broken(LUNCH, 100), None, ALL, ""),
];

#[test]
fn sharings(rt: HostRuntime) {
    for run in &SHARINGS {
        breaks_off(&rt, &["share", "file"], run);
    }
}

const BEST: Option<Given<'static>> = Some(Given::Whole(LUNCH_GRANTS));

static CHECKS: [Run<'static>; 6] = [
    (Given::Whole(LUNCH), BEST, 0, "yes\n"),
    (Given::Whole(LUNCH), BEST, 1, "yes\n"),
    (Given::Whole(LUNCH), BEST, 2, "yes\n"),
    (Given::Whole(LUNCH), BEST, 3, "yes\n"),
    (Given::Broken(LUNCH, 20), BEST, ALL, ""),
    (
        Given::Whole(LUNCH),
        Some(Given::Broken(LUNCH_GRANTS, 20)),
        ALL,
        "",
    ),
];

#[test]
fn checks(rt: HostRuntime) {
    for run in &CHECKS {
        breaks_off(&rt, &["check", "file", STANDARD_INPUT], run);
    }
}

/// If the sheet breaks off, nothing of the grants is read.
#[test]
fn grants_are_not_read(rt: HostRuntime) {
    let mut output = Vec::new(rt.alloc());
    let mut sheet = FallibleIo(Given::Broken(LUNCH, 20).reader());
    let mut grants = LUNCH_GRANTS.as_bytes();
    let answer = run_check(rt.alloc(), None, &mut sheet, &mut grants, &mut output);
    holds(
        &rt,
        answer == Err(CheckFault::SheetText(TextFault::ReadFault)),
    );
    same(&rt, grants, LUNCH_GRANTS);
    holds(&rt, output.is_empty());
}

const TALK: Option<Given<'static>> = Some(Given::Whole(LOGIN));

/// A session that cannot be opened, a configuration that breaks off, and sessions that break off: their replies are
/// written.
static SESSIONS: [Run<'static>; 10] = [
    (Given::Whole(SMALL), None, ALL, ""),
    (Given::Broken(SMALL, 1), TALK, ALL, ""),
    (
        Given::Whole(SMALL),
        Some(Given::Broken(LOGIN, 1)),
        ALL,
        WELCOME,
    ),
    (
        Given::Whole(SMALL),
        Some(Given::Broken(LOGIN, 5)),
        ALL,
        WELCOME,
    ),
    (Given::Whole(SMALL), TALK, 0, WELCOME),
    (Given::Whole(SMALL), TALK, 5, WELCOME),
    (Given::Whole(SMALL), TALK, 11, WELCOME),
    (Given::Whole(SMALL), TALK, 12, WELCOME),
    (Given::Whole(SMALL), TALK, 40, WELCOME),
    (Given::Whole(SMALL), TALK, 55, WELCOME),
];

#[test]
fn sessions(rt: HostRuntime) {
    for run in &SESSIONS {
        breaks_off(&rt, &["script", "file"], run);
    }
}
