//! Each growth of each row of a script refused in turn.

use crate::refused::expect::holds;
use crate::refused::rows::{ABORTED, HELD, PATHS, PATHS_AGAIN, Row, TALK, TRANSFERS, UPLOADS};
use crate::refused::talks::Talk;
use crate::refused::{steps, talks};
use std::process::Abort;

/// The lines for a session step by step, or for a whole control session.
#[derive(Clone, Copy)]
enum Script<'a> {
    Steps(&'a [Row<'a>]),
    Whole(Talk<'a>),
}

/// Returns whether a row is refused in one hole of `hole` octets.
fn is_refused(
    rt: &(impl Abort + AllocGlobal),
    script: Script<'_>,
    index: usize,
    hole: usize,
) -> bool {
    match script {
        Script::Steps(rows) => steps::is_refused(rt, rows, index, hole),
        Script::Whole(talk) => talks::is_refused(rt, talk, index, hole),
    }
}

/// Number of growths of a row that are refused before it passes.
fn count_refused(rt: &(impl Abort + AllocGlobal), script: Script<'_>, index: usize) -> usize {
    for step in 0..512usize {
        if !is_refused(rt, script, index, 16 * step) {
            return step;
        }
    }
    panic!(rt; "never enough memory")
}

/// Number of rows, among the first `rows` of a script, that are refused at least once.
fn count_rows(rt: &(impl Abort + AllocGlobal), script: Script<'_>, rows: usize) -> usize {
    let mut refused = 0usize;
    for index in 0..rows {
        if 0 < count_refused(rt, script, index) {
            refused = refused.saturating_add(1);
        }
    }
    refused
}

fn check_steps(rt: &(impl Abort + AllocGlobal), rows: &[Row<'_>], least: usize) {
    let refused = count_rows(rt, Script::Steps(rows), rows.len());
    holds(rt, least <= refused, "each row");
}

#[test]
fn paths(rt: HostRuntime) {
    check_steps(&rt, &PATHS, 7);
}

#[test]
fn uploads(rt: HostRuntime) {
    check_steps(&rt, &UPLOADS, 10);
}

#[test]
fn aborted_downloads(rt: HostRuntime) {
    check_steps(&rt, &ABORTED, 11);
}

/// A list that has room for one line more takes no memory.
#[test]
fn held_lines(rt: HostRuntime) {
    check_steps(&rt, &HELD, 10);
}

/// The end of a session is refused nothing: it has the memory that the reads took.
fn check_talk(rt: &(impl Abort + AllocGlobal), talk: Talk<'_>) {
    let count = talk.rows.len();
    let script = Script::Whole(talk);
    let refused = count_rows(rt, script, count);
    holds(rt, refused == count, "each row");
    holds(rt, !is_refused(rt, script, count, 0), "the end");
}

#[test]
fn whole_sessions(rt: HostRuntime) {
    check_talk(
        &rt,
        Talk {
            rows: &TALK,
            again: PATHS_AGAIN,
            change: 5,
        },
    );
}

#[test]
fn whole_transfers(rt: HostRuntime) {
    check_talk(
        &rt,
        Talk {
            rows: &TRANSFERS,
            again: "",
            change: 4,
        },
    );
}
