//! Sharing a sheet among users, and checking grants so: calls on their normal path, and what no run of a program shows.

use crate::ends::{Files, Given};
use crate::expect::{holds, reports, same};
use crate::texts::{TWO_USERS, TWO_USERS_GRANTS, TWO_USERS_LINES};
use command_line::SheetWords;
use sheet_commands::{ShareFault, SheetVerdict, run_check, run_share, sharing_at, verdict_at};
use sheet_text::read_sheet;
use sheets_program::{ErrorText, run_sheet_words};

/// The grants without users, which are not best among them.
const EQUAL_GRANTS: &str = "grant /ann 3 /\ngrant /bob/1 3 /\ngrant /bob/2 3 /\ngrant /bob/3 3 /\n";

#[test]
fn a_sheet_is_shared_among_users(rt: HostRuntime) {
    let alloc = rt.alloc();
    let text = sharing_at(alloc, TWO_USERS.as_bytes(), 1).expect(&rt, "lines");
    same(&rt, text.as_str().as_bytes(), TWO_USERS_LINES);
    let mut output = Vec::new(alloc);
    let shared = run_share(alloc, Some(1), &mut TWO_USERS.as_bytes(), &mut output);
    holds(&rt, shared == Ok(()));
    same(&rt, &output, TWO_USERS_LINES);
}

#[test]
fn grants_are_checked_among_users(rt: HostRuntime) {
    let alloc = rt.alloc();
    let sheet = read_sheet(alloc, TWO_USERS.as_bytes()).expect(&rt, "a sheet");
    let rows = [
        (TWO_USERS_GRANTS, 1, SheetVerdict::Yes, "yes\n"),
        (
            EQUAL_GRANTS,
            1,
            SheetVerdict::NotBestByUsers,
            "no 9 NotBestByUsers\n",
        ),
        (EQUAL_GRANTS, 2, SheetVerdict::Yes, "yes\n"),
        (
            TWO_USERS_GRANTS,
            2,
            SheetVerdict::NotBestByUsers,
            "no 9 NotBestByUsers\n",
        ),
    ];
    for (grants, depth, verdict, line) in rows {
        let judged = verdict_at(alloc, &sheet, grants.as_bytes(), depth).expect(&rt, "a verdict");
        holds(&rt, judged.verdict == verdict);
        same(&rt, judged.line.as_str().as_bytes(), line);
    }
    let mut output = Vec::new(alloc);
    let (mut sheet, mut grants) = (TWO_USERS.as_bytes(), TWO_USERS_GRANTS.as_bytes());
    let judged = run_check(alloc, Some(1), &mut sheet, &mut grants, &mut output);
    holds(&rt, judged == Ok(SheetVerdict::Yes));
    same(&rt, &output, "yes\n");
}

#[test]
fn a_depth_that_is_none_is_refused(rt: HostRuntime) {
    let mut output = Vec::new(rt.alloc());
    let mut files = Files {
        file: Given::Whole(TWO_USERS),
        input: None,
    };
    let words = SheetWords::Share {
        sheet: "file",
        svg: false,
        by: Some("x"),
    };
    let ending = run_sheet_words(rt.alloc(), words, &mut files, &mut output);
    holds(&rt, ending.status() == 2 && output.is_empty());
    let reported = ErrorText {
        name: "sheets",
        ending: &ending,
        output: None,
    };
    let wanted =
        "error: invalid value 'x' for '--by <DEPTH>': it must be a depth from 0 to 99, in digits\n\nFor more information, try '--help'.\n";
    reports(&rt, &reported, wanted);
}

#[test]
fn a_user_that_is_too_large_is_named(rt: HostRuntime) {
    reports(&rt, &ShareFault::UserTooLarge, "UserTooLarge");
}
