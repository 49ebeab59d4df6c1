//! A session step by step, on a server in a heap of its own.

use crate::refused::reported::{Doings, Sink, put_doing};
use crate::refused::server::{PEER, Server, make_server, settings};
use ftp_wire::LineReader;
use linked_list_allocator::LocalHeap;
use session_core::Session;
use session_table::{End, Input};
use std::alloc::AllocError;
use std::process::Abort;
use test_scarce_memory::leave_hole;

/// The word for a step for which memory ran out.
pub(crate) const NO_MEMORY: &str = "[no memory]";

#[derive(Drop)]
pub(crate) struct Room<'h> {
    server: Server<'h>,
    session: Session<&'h LocalHeap>,
    sink: Option<Sink<'h>>,
}

pub(crate) fn make_room<'h>(rt: &(impl Abort + AllocGlobal), heap: &'h LocalHeap) -> Room<'h> {
    Room {
        server: make_server(rt, heap),
        session: Session::new(heap, settings(), PEER).expect(rt, "memory"),
        sink: None,
    }
}

fn read_line<'h>(
    rt: &impl Abort,
    heap: &'h LocalHeap,
    line: &str,
) -> Input<&'h LocalHeap, Sink<'h>> {
    let mut reader = LineReader::new(heap);
    let mut items = reader.feed(line.as_bytes()).expect(rt, "memory");
    match items.pop() {
        Some(item) => Input::Line(item),
        None => rt.abort(),
    }
}

/// Returns the words of the actions; a sink is kept.
fn reported<'h>(
    rt: &(impl Abort + AllocGlobal),
    kept: &mut Option<Sink<'h>>,
    actions: Doings<'h>,
) -> Vec<u8> {
    let mut octets = Vec::new(rt.alloc());
    for action in actions {
        put_doing(&mut octets, kept, action).expect(rt, "memory");
    }
    octets
}

/// Returns the greeting of a new session, as that of a room writes it.
fn begin<'h>(heap: &'h LocalHeap) -> Result<Doings<'h>, AllocError> {
    let session = Session::new(heap, settings(), PEER)?;
    session.greet()
}

impl<'h> Room<'h> {
    fn ended(&mut self, end: End) -> Input<&'h LocalHeap, Sink<'h>> {
        Input::TransferEnded {
            end,
            sink: self.sink.take(),
        }
    }

    /// Returns the input for a word or a line; None for the word that begins a session.
    fn input_of(
        &mut self,
        rt: &impl Abort,
        heap: &'h LocalHeap,
        line: &str,
    ) -> Option<Input<&'h LocalHeap, Sink<'h>>> {
        match line {
            "begin" => None,
            "port" => Some(Input::DataReady(Some(40000))),
            "held" => Some(Input::Held),
            "closed" => Some(Input::Closed),
            "done" => Some(self.ended(End::Done)),
            "lost" => Some(self.ended(End::Lost)),
            _ => Some(read_line(rt, heap, line)),
        }
    }

    fn step(
        &mut self,
        heap: &'h LocalHeap,
        input: Option<Input<&'h LocalHeap, Sink<'h>>>,
    ) -> Result<Doings<'h>, AllocError> {
        let Some(input) = input else {
            return begin(heap);
        };
        let Server {
            users,
            store,
            floors,
        } = &mut self.server;
        self.session.step(users, floors, store, input, 0)
    }

    /// Returns the actions for a line or a word, while the heap has only one hole of `hole` octets, or all its memory.
    pub fn give(
        &mut self,
        rt: &(impl Abort + AllocGlobal),
        heap: &'h LocalHeap,
        line: &str,
        hole: Option<usize>,
    ) -> Vec<u8> {
        let input = self.input_of(rt, heap, line);
        let rest = match hole {
            Some(hole) => leave_hole(rt, heap, hole).expect(rt, "a hole"),
            None => Vec::new(rt.alloc()),
        };
        let answer = self.step(heap, input);
        drop(rest);
        match answer {
            Ok(actions) => reported(rt, &mut self.sink, actions),
            Err(_) => Vec::from_slice(rt.alloc(), NO_MEMORY.as_bytes()).expect(rt, "memory"),
        }
    }
}
