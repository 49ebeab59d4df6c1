//! Each call that returns a text, writes a reply or a command, or reads, with each of its growths refused in turn.

use crate::expect::{gives, holds, same};
use crate::replies::{FEATURES, features};
use crate::texts::{TEXTS, Text, given};
use ftp_reply::Reply;
use ftp_wire::{Command, LineReader, write_command};
use linked_list_allocator::LocalHeap;
use std::alloc::Global;
use std::process::Abort;

const ROOM: usize = 16384;

/// The calls with refused memory.
#[derive(Clone, Copy)]
enum Call<'a> {
    /// With its expected text.
    Give(Text, &'static str),
    WriteReply(&'a Reply),
    WriteCommand(&'a Command<String>),
    Feed,
}

/// Takes everything that a heap has left, except this much.
fn all_but<'h>(rt: &impl Abort, heap: &'h LocalHeap, room: usize) -> Vec<u8, &'h LocalHeap> {
    let size = heap.free().saturating_sub(room);
    Vec::with_capacity(heap, size).expect(rt, "one piece of memory")
}

/// Returns whether the call returns its text with this little memory. With more it does.
fn text_outcome(rt: &impl Abort, heap: &LocalHeap, room: usize, text: Text, wanted: &str) -> bool {
    let rest = all_but(rt, heap, room);
    let first = given(rt, heap, text).is_ok();
    drop(rest);
    gives(rt, given(rt, heap, text), wanted);
    first
}

/// Returns whether the line of a command fits into this little memory. With more it does.
fn line_outcome(rt: &impl Abort, heap: &LocalHeap, room: usize, command: &Command<String>) -> bool {
    let rest = all_but(rt, heap, room);
    let first = write_command(heap, command).is_ok();
    drop(rest);
    let line = write_command(heap, command).expect(rt, "memory");
    same(rt, &line.len(), &1007);
    first
}

/// Returns whether a reply is appended to a buffer, which is unchanged after a refusal. With more memory it is
/// appended.
fn reply_outcome(rt: &impl Abort, heap: &LocalHeap, room: usize, reply: &Reply) -> bool {
    let mut buffer = Vec::from_slice(heap, b"before").expect(rt, "memory");
    let rest = all_but(rt, heap, room);
    let first = reply.write_to(&mut buffer).is_ok();
    holds(rt, first || buffer.as_slice() == b"before".as_slice());
    drop(rest);
    buffer.clear();
    holds(rt, reply.write_to(&mut buffer).is_ok());
    same(rt, &buffer.as_slice(), &FEATURES);
    first
}

/// Returns whether a reader reads its first piece with this little memory. With more, the rest of the lines is read,
/// and all of them if the first piece was refused.
fn feed_outcome(rt: &impl Abort, heap: &LocalHeap, room: usize) -> bool {
    let mut reader = LineReader::new(heap);
    let rest = all_but(rt, heap, room);
    let first = match reader.feed(b"RETR x\r\nNO") {
        Ok(items) => {
            same(rt, &items.len(), &1);
            true
        }
        Err(_) => false,
    };
    drop(rest);
    let (again, count) = if first {
        (b"OP\n".as_slice(), 1)
    } else {
        (b"RETR x\r\nNOOP\n".as_slice(), 2)
    };
    let items = reader.feed(again).expect(rt, "memory");
    same(rt, &items.len(), &count);
    first
}

/// Returns whether a call succeeds on a heap with this little room left.
fn outcome(rt: &impl Abort, alloc: Global, call: Call, room: usize) -> bool {
    let heap = LocalHeap::new(alloc, ROOM).expect(rt, "memory");
    match call {
        Call::Give(text, wanted) => text_outcome(rt, &heap, room, text, wanted),
        Call::WriteReply(reply) => reply_outcome(rt, &heap, room, reply),
        Call::WriteCommand(command) => line_outcome(rt, &heap, room, command),
        Call::Feed => feed_outcome(rt, &heap, room),
    }
}

/// With rising room, the call succeeds eventually. If it takes memory, it is refused at first.
fn check_call(rt: &impl Abort, alloc: Global, call: Call, takes_memory: bool) {
    let mut refused = false;
    let mut answered = false;
    for step in 0..256usize {
        if outcome(rt, alloc, call, 16 * step) {
            answered = true;
        } else {
            refused = true;
        }
    }
    holds(rt, answered && refused == takes_memory);
}

#[test]
fn texts(rt: HostRuntime) {
    for (text, wanted) in TEXTS {
        let takes_memory = !wanted.is_empty();
        check_call(&rt, rt.alloc(), Call::Give(*text, wanted), takes_memory);
    }
}

fn check_reply(rt: &impl Abort, alloc: Global) {
    let reply = features(rt, alloc);
    check_call(rt, alloc, Call::WriteReply(&reply), true);
}

fn check_command(rt: &impl Abort, alloc: Global) {
    let name = "x".repeat(alloc, 1000).expect(rt, "memory");
    let command = Command::Retr(name);
    check_call(rt, alloc, Call::WriteCommand(&command), true);
}

#[test]
fn replies_and_lines(rt: HostRuntime) {
    check_reply(&rt, rt.alloc());
    check_command(&rt, rt.alloc());
    check_call(&rt, rt.alloc(), Call::Feed, true);
}
