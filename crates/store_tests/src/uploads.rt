//! Uploads to a store in memory: a write or the end refused, and what a sink holds.

use crate::expect::{comes_out, holds};
use linked_list_allocator::LocalHeap;
use memory_store::MemStore;
use std::process::Abort;
use test_scarce_memory::{HEAP, leave_hole};
use virtual_path::VPath;
use virtual_tree::{Sink, Store, StoreFault, WriteMode};

/// Room enough for a write and for an end.
const PLENTY: usize = 4096;

/// Returns whether a write of one more octet is refused with only a hole of some octets.
fn is_write_refused<S: Sink>(
    rt: &(impl Abort + AllocGlobal),
    heap: &LocalHeap,
    sink: &mut S,
    room: usize,
) -> bool {
    let rest = leave_hole(rt, heap, room).expect(rt, "memory for the hole");
    let refused = sink.write(b"d").is_err();
    drop(rest);
    refused
}

/// Returns whether the end of an upload is refused in this way, for lack of memory.
fn is_end_refused<'h, S: Store<&'h LocalHeap>>(
    rt: &(impl Abort + AllocGlobal),
    heap: &'h LocalHeap,
    store: &mut S,
    sink: S::Sink,
    room: usize,
) -> bool {
    let rest = leave_hole(rt, heap, room).expect(rt, "memory for the hole");
    let fault = store.finish(sink, 6_000).err();
    drop(rest);
    holds(rt, fault.is_none() || fault == Some(StoreFault::Memory));
    fault.is_some()
}

/// Writes one more octet to a file of `abc`, and finishes the file, each with only this much room. A refused write
/// leaves the octets of the file that are kept, and a refused end leaves the file as it was opened. Returns whether the
/// write was refused, and whether the end was.
fn refused(rt: &(impl Abort + AllocGlobal), write_room: usize, end_room: usize) -> (bool, bool) {
    let heap = LocalHeap::new(rt.alloc(), HEAP).expect(rt, "memory");
    let mut store = MemStore::new(&heap, 99).expect(rt, "memory");
    comes_out(rt, &heap, &mut store, "new /f abc");
    let path = VPath::root(&heap).resolve(&heap, "/f").expect(rt, "a path");
    let mode = WriteMode::Append;
    let mut sink = store.open_write(&path, mode, 6_000).expect(rt, "a sink");
    let no_write = is_write_refused(rt, &heap, &mut sink, write_room);
    let no_end = is_end_refused(rt, &heap, &mut store, sink, end_room);
    let script = if no_write || no_end {
        "read /f = abc"
    } else {
        "read /f = abcd"
    };
    comes_out(rt, &heap, &mut store, script);
    (no_write, no_end)
}

#[test]
fn of_writes_and_ends(rt: HostRuntime) {
    let (mut writes, mut ends) = (0u32, 0u32);
    for step in 0..32usize {
        let (no_write, no_end_after) = refused(&rt, 16 * step, PLENTY);
        let (no_write_before, no_end) = refused(&rt, PLENTY, 16 * step);
        // With enough room it passes.
        holds(&rt, !no_end_after && !no_write_before);
        writes |= if no_write { 1 } else { 2 };
        ends |= if no_end { 1 } else { 2 };
    }
    // Some were refused, and some passed.
    holds(&rt, writes == 3 && ends == 3);
}

/// A text in pieces to a new file: the octets that its sink holds in the end, and why `finish` refused it, if it did.
fn put_in_pieces(
    rt: &(impl Abort + AllocGlobal),
    store: &mut MemStore,
    path: &VPath,
    pieces: &str,
) -> (usize, Option<StoreFault>) {
    let mut sink = store
        .open_write(path, WriteMode::New, 5_000)
        .expect(rt, "a sink");
    for piece in pieces.split(' ') {
        sink.write(piece.as_bytes()).expect(rt, piece);
    }
    (sink.held(), store.finish(sink, 7_000).err())
}

/// The capacity, the pieces, the octets held, whether they are refused as `Full`, and the file afterwards.
const IN_PIECES: [(u64, &str, usize, bool, &str); 7] = [
    (3, "ab cde", 3, true, "read /f ="),
    (3, "abcde", 3, true, "read /f ="),
    (3, "abc d", 3, true, "read /f ="),
    (3, "ab c", 3, false, "read /f = abc"),
    (9, "ab cde", 5, false, "read /f = abcde"),
    (0, "a", 0, true, "read /f ="),
    (0, "", 0, false, "read /f ="),
];

#[test]
fn hold_at_most_the_capacity(rt: HostRuntime) {
    let path = VPath::root(rt.alloc())
        .resolve(rt.alloc(), "/f")
        .expect(&rt, "a path");
    for (capacity, pieces, held, is_full, script) in IN_PIECES {
        let mut store = MemStore::new(rt.alloc(), capacity).expect(&rt, "memory");
        let (found, fault) = put_in_pieces(&rt, &mut store, &path, pieces);
        holds(&rt, found == held);
        holds(
            &rt,
            fault
                == if is_full {
                    Some(StoreFault::Full)
                } else {
                    None
                },
        );
        comes_out(&rt, rt.alloc(), &mut store, script);
    }
}

/// Appends four octets to `/f` of a store, and ends that in another. Returns the octets held, and why it was refused.
fn ended_elsewhere(
    rt: &(impl Abort + AllocGlobal),
    store: &mut MemStore,
    other: &mut MemStore,
) -> (usize, Option<StoreFault>) {
    let path = VPath::root(rt.alloc())
        .resolve(rt.alloc(), "/f")
        .expect(rt, "a path");
    let mut sink = store
        .open_write(&path, WriteMode::Append, 5_000)
        .expect(rt, "a sink");
    sink.write(b"bcde").expect(rt, "memory");
    (sink.held(), other.finish(sink, 7_000).err())
}

/// A sink of a store with a smaller capacity lacks octets, and has not the memory for them.
#[test]
fn end_in_another_store(rt: HostRuntime) {
    let mut small = MemStore::new(rt.alloc(), 3).expect(&rt, "memory");
    let mut large = MemStore::new(rt.alloc(), 9).expect(&rt, "memory");
    comes_out(&rt, rt.alloc(), &mut small, "new /f a");
    comes_out(&rt, rt.alloc(), &mut large, "new /f a");
    let (held, fault) = ended_elsewhere(&rt, &mut small, &mut large);
    holds(&rt, held == 3 && fault == Some(StoreFault::Memory));
    let (held, fault) = ended_elsewhere(&rt, &mut large, &mut small);
    holds(&rt, held == 4 && fault == Some(StoreFault::Full));
    comes_out(&rt, rt.alloc(), &mut small, "read /f = a");
    comes_out(&rt, rt.alloc(), &mut large, "read /f = a");
}

/// A sink that holds as much as it may takes no more memory.
#[test]
fn need_no_memory_once_full(rt: HostRuntime) {
    let heap = LocalHeap::new(rt.alloc(), HEAP).expect(&rt, "memory");
    let mut store = MemStore::new(&heap, 3).expect(&rt, "memory");
    let path = VPath::root(&heap)
        .resolve(&heap, "/f")
        .expect(&rt, "a path");
    let mut sink = store
        .open_write(&path, WriteMode::New, 6_000)
        .expect(&rt, "a sink");
    holds(&rt, is_write_refused(&rt, &heap, &mut sink, 0));
    sink.write(b"abc").expect(&rt, "memory");
    holds(&rt, !is_write_refused(&rt, &heap, &mut sink, 0));
    holds(&rt, store.finish(sink, 7_000) == Err(StoreFault::Full));
}
