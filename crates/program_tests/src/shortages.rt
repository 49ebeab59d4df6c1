//! Commands for which memory runs out.

use crate::expect::{holds, reports, same};
use crate::texts::{LUNCH, LUNCH_GRANTS, LUNCH_LINES};
use linked_list_allocator::LocalHeap;
use sheet_commands::{
    CheckFault, Share, ShareFault, lines_of, run_check, run_share, sharing_at, sharing_of,
    verdict_at, verdict_of,
};
use sheet_text::{Sheet, read_sheet};
use std::process::Abort;
use test_scarce_memory::leave_hole;
use text_io::{TextFault, read_whole};

// Room for the buffer of a read, and some more.
const HEAP: usize = 131_072;

const MET: Share = Share {
    path: "/cy/1",
    grant: 10,
    want: 10,
    full: None,
};

const UNMET: Share = Share {
    path: "/ann/1",
    grant: 15,
    want: 50,
    full: Some("/ann"),
};

/// The calls that are made while memory is short.
#[derive(Clone, Copy)]
enum Asked {
    NoLines,
    Lines,
    Sharing,
    Verdict,
    UserSharing,
    UserVerdict,
    Text,
}

/// The call, its text, the least room that is tried, and the least number of rooms that are too small.
type Row = (Asked, &'static str, usize, usize);

/// A text for which first its buffer is refused, then itself.
static ROWS: [Row; 7] = [
    (Asked::NoLines, "total 0\n", 0, 1),
    (
        Asked::Lines,
        "/cy/1 10 of 10\n/ann/1 15 of 50 full /ann\ntotal 25\n",
        0,
        1,
    ),
    (Asked::Sharing, LUNCH_LINES, 0, 9),
    (Asked::Verdict, "yes\n", 0, 5),
    (Asked::UserSharing, LUNCH_LINES, 0, 20),
    (Asked::UserVerdict, "yes\n", 0, 8),
    (Asked::Text, LUNCH, 65_280, 1),
];

/// Checks that the call returns this text.
fn answer<'h>(
    rt: &impl Abort,
    heap: &'h LocalHeap,
    sheet: &Sheet<'_, &'h LocalHeap>,
    asked: Asked,
    text: &str,
) -> Result<(), CheckFault> {
    match asked {
        Asked::NoLines => same(rt, lines_of(heap, &[])?.as_str().as_bytes(), text),
        Asked::Lines => same(rt, lines_of(heap, &[MET, UNMET])?.as_str().as_bytes(), text),
        Asked::Sharing => same(
            rt,
            sharing_of(heap, LUNCH.as_bytes())?.as_str().as_bytes(),
            text,
        ),
        Asked::Verdict => same(
            rt,
            verdict_of(heap, sheet, LUNCH_GRANTS.as_bytes())?
                .line
                .as_str()
                .as_bytes(),
            text,
        ),
        Asked::UserSharing => match sharing_at(heap, LUNCH.as_bytes(), 1) {
            Ok(lines) => same(rt, lines.as_str().as_bytes(), text),
            Err(fault) => {
                holds(rt, fault == ShareFault::Text(TextFault::Memory));
                return Err(CheckFault::Text(TextFault::Memory));
            }
        },
        Asked::UserVerdict => same(
            rt,
            verdict_at(heap, sheet, LUNCH_GRANTS.as_bytes(), 1)?
                .line
                .as_str()
                .as_bytes(),
            text,
        ),
        Asked::Text => same(rt, &read_whole(heap, &mut LUNCH.as_bytes())?, text),
    }
    Ok(())
}

/// Returns whether one hole of this number of octets is too small, and the call succeeds once the rest is free again.
fn is_refused<'h>(
    rt: &(impl Abort + AllocGlobal),
    heap: &'h LocalHeap,
    sheet: &Sheet<'_, &'h LocalHeap>,
    row: &Row,
    room: usize,
) -> bool {
    let (asked, text, _, _) = *row;
    let rest = leave_hole(rt, heap, room).expect(rt, "a hole");
    let first = answer(rt, heap, sheet, asked, text);
    drop(rest);
    holds(rt, answer(rt, heap, sheet, asked, text).is_ok());
    holds(
        rt,
        matches!(first, Ok(()) | Err(CheckFault::Text(TextFault::Memory))),
    );
    first.is_err()
}

/// Number of rooms that are too small before one is enough. They rise by less than the least growth, so that each
/// growth is the first that is refused.
fn count_refused<'h>(
    rt: &(impl Abort + AllocGlobal),
    heap: &'h LocalHeap,
    sheet: &Sheet<'_, &'h LocalHeap>,
    row: &Row,
) -> usize {
    for step in 0..512usize {
        if !is_refused(rt, heap, sheet, row, row.2.saturating_add(16 * step)) {
            return step;
        }
    }
    panic!(rt; "never enough memory")
}

#[test]
fn answers(rt: HostRuntime) {
    let heap = LocalHeap::new(rt.alloc(), HEAP).expect(&rt, "a heap");
    let sheet = read_sheet(&heap, LUNCH.as_bytes()).expect(&rt, "a sheet");
    for row in &ROWS {
        holds(&rt, row.3 <= count_refused(&rt, &heap, &sheet, row));
    }
}

// Contents of the output before the program runs.
const BEFORE: &str = "before\n";

/// Checks that the buffer of a read is refused.
fn are_not_read(rt: &impl Abort, heap: &LocalHeap, output: &mut Vec<u8>) {
    let shared = run_share(heap, None, &mut LUNCH.as_bytes(), output);
    holds(rt, shared == Err(ShareFault::Text(TextFault::Memory)));
    let (mut sheet, mut grants) = (LUNCH.as_bytes(), LUNCH_GRANTS.as_bytes());
    let judged = run_check(heap, None, &mut sheet, &mut grants, output);
    holds(rt, judged == Err(CheckFault::SheetText(TextFault::Memory)));
}

/// Checks that a list that cannot grow refuses the lines, and is unchanged.
fn are_not_written(rt: &(impl Abort + AllocGlobal), heap: &LocalHeap) {
    let mut output = Vec::new(heap);
    let shared = run_share(rt.alloc(), None, &mut LUNCH.as_bytes(), &mut output);
    holds(rt, shared == Err(ShareFault::Text(TextFault::WriteFault)));
    holds(rt, output.is_empty());
}

/// If memory runs out, nothing is written.
#[test]
fn runs(rt: HostRuntime) {
    let heap = LocalHeap::new(rt.alloc(), 32).expect(&rt, "a heap");
    let mut output = Vec::from_slice(rt.alloc(), BEFORE.as_bytes()).expect(&rt, "memory");
    are_not_read(&rt, &heap, &mut output);
    same(&rt, &output, BEFORE);
    are_not_written(&rt, &heap);
    reports(&rt, &TextFault::Memory, "Memory");
}
