//! A step of a session while memory is short: the session, the floors and the store are as before, or the client gets a
//! reply that says so, and the line passes once there is memory.

use crate::refused::expect::same;
use crate::refused::room::{NO_MEMORY, Room, make_room};
use crate::refused::rows::Row;
use linked_list_allocator::LocalHeap;
use std::process::Abort;
use test_scarce_memory::HEAP;

fn follow<'h>(
    rt: &(impl Abort + AllocGlobal),
    heap: &'h LocalHeap,
    room: &mut Room<'h>,
    rows: &[Row<'_>],
) {
    for (line, reply) in rows {
        same(rt, &room.give(rt, heap, line, None), reply);
    }
}

/// The result of a step that is refused memory, or the reply if the store had none: the line may be sent again.
static REFUSALS: [&str; 2] = [NO_MEMORY, "451 Out of memory\r\n"];

/// The reply at the end of a file for which the store had no memory.
const LOST: &str = "451 Out of memory\r\n[received]";

/// Returns whether a line with this result was refused: it passes then, or, at the end of a file, the rows after it do.
fn was_refused<'h>(
    rt: &(impl Abort + AllocGlobal),
    heap: &'h LocalHeap,
    room: &mut Room<'h>,
    reported: &[u8],
    rows: &[Row<'_>],
) -> bool {
    if REFUSALS.iter().any(|it| it.as_bytes() == reported) {
        follow(rt, heap, room, rows);
        return true;
    }
    let Some(((_, reply), others)) = rows.split_first() else {
        return false;
    };
    follow(rt, heap, room, others);
    if reported == LOST.as_bytes() {
        return true;
    }
    same(rt, reported, reply);
    false
}

/// Returns whether a row, after those before it, is refused while the heap has only one hole of `hole` octets.
fn try_row<'h>(
    rt: &(impl Abort + AllocGlobal),
    heap: &'h LocalHeap,
    room: &mut Room<'h>,
    rows: &[Row<'_>],
    index: usize,
    hole: usize,
) -> bool {
    let (before, others) = rows.split_at(index.min(rows.len()));
    follow(rt, heap, room, before);
    let Some((line, _)) = others.first() else {
        return false;
    };
    let reported = room.give(rt, heap, line, Some(hole));
    was_refused(rt, heap, room, &reported, others)
}

/// The same in a room of its own.
pub(crate) fn is_refused(
    rt: &(impl Abort + AllocGlobal),
    rows: &[Row<'_>],
    index: usize,
    hole: usize,
) -> bool {
    let heap = LocalHeap::new(rt.alloc(), HEAP).expect(rt, "a heap");
    let mut room = make_room(rt, &heap);
    try_row(rt, &heap, &mut room, rows, index, hole)
}
