//! A control session that is short of memory at its beginning or at one of its lines: its output is the front of the
//! replies, or reports that memory ran out, and a later session passes.

use crate::refused::expect::holds;
use crate::refused::host::HeapHost;
use crate::refused::reader::ScarceReader;
use crate::refused::rows::Reply;
use crate::refused::server::{PEER, Server, make_server, settings};
use control_session::{ControlFault, Host, run_control};
use linked_list_allocator::LocalHeap;
use script_session::ScriptSide;
use session_table::Settings;
use std::alloc::Allocator;
use std::process::Abort;
use test_scarce_memory::{HEAP, leave_hole};
use text_io::{FallibleIo, TextReader};

/// The greeting and the lines of a session, its output on a store that an earlier session has changed, and the number
/// of the first row that changes the store.
#[derive(Clone, Copy)]
pub(crate) struct Talk<'a> {
    pub rows: &'a [Reply<'a>],
    pub again: &'a str,
    pub change: usize,
}

/// The output of a session, its result, and the server after it.
#[derive(Drop)]
struct Reported<'h> {
    output: Vec<u8>,
    ended: Result<(), ControlFault>,
    server: Server<'h>,
}

/// The settings of a session. A call that names their type cannot take a `HeapHost`.
trait Given<A: Allocator> {
    fn settings(&self) -> Settings<A>;
}

/// The settings of these tests.
#[derive(Clone, Copy)]
struct TestSettings;

impl<A: Allocator> Given<A> for TestSettings {
    fn settings(&self) -> Settings<A> {
        settings()
    }
}

fn run_on<A: Allocator + Clone, H: Host<A>, G: Given<A>>(
    alloc: &A,
    host: &mut H,
    given: &G,
) -> Result<(), ControlFault> {
    run_control(alloc, host, given.settings(), PEER, 100)
}

/// Serves a session that takes all memory but that of its replies from the heap.
fn serve<'h, R: TextReader + Drop>(
    heap: &'h LocalHeap,
    server: Server<'h>,
    reader: R,
    output: Vec<u8>,
) -> Reported<'h> {
    let Server {
        users,
        store,
        floors,
    } = server;
    let side = ScriptSide {
        port: 40_000,
        came: None,
    };
    let mut host = HeapHost {
        users,
        store,
        floors,
        side,
        reader,
        output,
    };
    let ended = run_on(&heap, &mut host, &TestSettings);
    let HeapHost {
        users,
        store,
        floors,
        side: _,
        reader: _,
        output,
    } = host;
    let server = Server {
        users,
        store,
        floors,
    };
    Reported {
        output,
        ended,
        server,
    }
}

/// Serves a session in which memory is short at one row, or at the end, which counts as one row more.
fn serve_rows<'h>(
    rt: &'h (impl Abort + AllocGlobal),
    heap: &'h LocalHeap,
    server: Server<'h>,
    rows: &'h [Reply<'h>],
    scarce: usize,
    hole: usize,
) -> Reported<'h> {
    let output = Vec::new(rt.alloc());
    let taken = if scarce == 0 {
        leave_hole(rt, heap, hole).expect(rt, "a hole")
    } else {
        Vec::new(rt.alloc())
    };
    let reader = FallibleIo(ScarceReader {
        rt,
        heap,
        rows,
        last: 0,
        scarce,
        hole,
        taken,
    });
    serve(heap, server, reader, output)
}

/// Returns the rest of an output after the replies to some rows.
fn behind<'o>(output: &'o [u8], rows: &[Reply<'_>]) -> Option<&'o [u8]> {
    let mut rest = output;
    for (_, reply, _) in rows {
        rest = rest.strip_prefix(reply.as_bytes())?;
    }
    Some(rest)
}

/// Returns whether an output is the replies to some rows.
fn is_reported(output: &[u8], rows: &[Reply<'_>]) -> bool {
    behind(output, rows) == Some(b"".as_slice())
}

/// Replies to a refused line, at once or at the end of its transfer.
static REFUSALS: [&str; 2] = [
    "451 Out of memory\r\n",
    "150 Opening data connection\r\n451 Out of memory\r\n",
];

/// Returns whether the reply to a line is that the store had no memory for it, and those to the lines after it are
/// `then`.
fn is_refusal(output: &[u8], then: &str) -> bool {
    match output.strip_suffix(then.as_bytes()) {
        Some(refusal) => REFUSALS.iter().any(|it| it.as_bytes() == refusal),
        None => false,
    }
}

/// The end of a session, after all its rows.
const END: Reply<'static> = ("", "", "");

/// Returns whether a session was refused memory at a row: it broke off there with a part of the row's replies, or its
/// reply reports the refusal.
fn was_refused(rt: &impl Abort, reported: &Reported<'_>, rows: &[Reply<'_>], index: usize) -> bool {
    let (before, others) = rows.split_at(index.min(rows.len()));
    let Some(rest) = behind(&reported.output, before) else {
        panic!(rt; "the rows before");
    };
    let (_, reply, then) = others.first().unwrap_or(&END);
    if reported.ended.is_err() {
        holds(rt, reported.ended == Err(ControlFault::Memory), "memory");
        holds(rt, reply.as_bytes().starts_with(rest), "no row behind");
        return true;
    }
    if is_refusal(rest, then) {
        return true;
    }
    holds(rt, is_reported(rest, others), "all replies");
    false
}

/// Serves a session with memory, and checks its output on the store that an earlier session has left.
fn serve_later<'h>(
    rt: &'h (impl Abort + AllocGlobal),
    heap: &'h LocalHeap,
    server: Server<'h>,
    talk: Talk<'h>,
    is_unchanged: bool,
) {
    let reported = serve_rows(rt, heap, server, talk.rows, usize::MAX, 0);
    let Reported { output, ended, .. } = reported;
    holds(rt, ended.is_ok(), "a later session");
    let is_again = !is_unchanged && output.as_slice() == talk.again.as_bytes();
    holds(
        rt,
        is_again || is_reported(&output, talk.rows),
        "what stands",
    );
}

/// Returns whether a session with one hole of `hole` octets at a row is refused. Checks that a session after it, with
/// memory, is not.
fn try_row<'h>(
    rt: &'h (impl Abort + AllocGlobal),
    heap: &'h LocalHeap,
    server: Server<'h>,
    talk: Talk<'h>,
    index: usize,
    hole: usize,
) -> bool {
    let reported = serve_rows(rt, heap, server, talk.rows, index, hole);
    let is_unchanged = reported.ended.is_err() && index < talk.change;
    let is_refused = was_refused(rt, &reported, talk.rows, index);
    serve_later(rt, heap, reported.server, talk, is_unchanged);
    is_refused
}

/// The same on a server of its own.
pub(crate) fn is_refused(
    rt: &(impl Abort + AllocGlobal),
    talk: Talk<'_>,
    index: usize,
    hole: usize,
) -> bool {
    let heap = LocalHeap::new(rt.alloc(), HEAP).expect(rt, "a heap");
    let server = make_server(rt, &heap);
    try_row(rt, &heap, server, talk, index, hole)
}
