//! Public calls of the programs' crates on their normal path, except for those in the examples.

use crate::ends::{Files, Given};
use crate::expect::{holds, reports, same};
use crate::texts::{LOGIN, LUNCH, LUNCH_GRANTS, MIGRATED, SMALL, WELCOME};
use command_line::{ShareBy, SheetWords, WordsFault};
use ftpd_program::{Print, STANDARD_INPUT, run_print, run_script};
use sheets_program::{ErrorText, Exit, as_words, report, run_sheet_words};

/// One empty file.
const NO_FILES: Files<'static> = Files {
    file: Given::Whole(""),
    input: None,
};

#[test]
fn grants_are_checked(rt: HostRuntime) {
    let mut output = Vec::new(rt.alloc());
    let mut files = Files {
        file: Given::Whole(LUNCH),
        input: Some(Given::Whole(LUNCH_GRANTS)),
    };
    let (sheet, grants) = ("file", STANDARD_INPUT);
    let by = None;
    let words = SheetWords::Check { sheet, grants, by };
    let ending = run_sheet_words(rt.alloc(), words, &mut files, &mut output);
    holds(&rt, ending.status() == 0);
    same(&rt, &output, "yes\n");
}

#[test]
fn words_are_refused(rt: HostRuntime) {
    let ending = Exit::refused(rt.alloc(), "error: no such word\n");
    holds(&rt, ending.status() == 2);
    let reported = ErrorText {
        name: "sheets",
        ending: &ending,
        output: None,
    };
    reports(&rt, &reported, "error: no such word\n");
}

#[test]
fn help_is_written(rt: HostRuntime) {
    let mut output = Vec::new(rt.alloc());
    let fault = WordsFault::Refused {
        text: String::from_str(rt.alloc(), "Usage\n").expect(&rt, "memory"),
        is_help: true,
    };
    holds(&rt, report(fault, &mut output).status() == 0);
    same(&rt, &output, "Usage\n");
}

#[test]
fn texts_are_words(rt: HostRuntime) {
    let mut texts = Vec::new(rt.alloc());
    let share = String::from_str(rt.alloc(), "share").expect(&rt, "memory");
    texts.push(share).expect(&rt, "memory");
    let words = as_words(rt.alloc(), &texts).expect(&rt, "memory");
    holds(&rt, words.as_slice() == ["share"].as_slice());
}

#[test]
fn a_configuration_is_reported(rt: HostRuntime) {
    let mut output = Vec::new(rt.alloc());
    let reported = run_print(
        rt.alloc(),
        Print::Report("file", ShareBy::Sessions),
        &mut SMALL.as_bytes(),
        &mut output,
        &NO_FILES,
    );
    holds(&rt, reported.is_ok());
    holds(&rt, output.starts_with(b"listens on 127.0.0.1:2121\n"));
}

#[test]
fn a_configuration_is_reported_as_json(rt: HostRuntime) {
    let mut output = Vec::new(rt.alloc());
    let reported = run_print(
        rt.alloc(),
        Print::ReportJson("file", ShareBy::Sessions),
        &mut SMALL.as_bytes(),
        &mut output,
        &NO_FILES,
    );
    holds(&rt, reported.is_ok());
    holds(&rt, output.starts_with(b"{\"config_version\":"));
}

#[test]
fn a_configuration_is_migrated(rt: HostRuntime) {
    let mut output = Vec::new(rt.alloc());
    let migrated = run_print(
        rt.alloc(),
        Print::Latest,
        &mut SMALL.as_bytes(),
        &mut output,
        &NO_FILES,
    );
    holds(&rt, migrated.is_ok());
    same(&rt, &output, MIGRATED);
}

#[test]
fn a_session_is_served(rt: HostRuntime) {
    let mut output = Vec::new(rt.alloc());
    let served = run_script(
        rt.alloc(),
        &mut SMALL.as_bytes(),
        &mut LOGIN.as_bytes(),
        &mut output,
    );
    holds(&rt, served.is_ok());
    same(&rt, &output, WELCOME);
}
