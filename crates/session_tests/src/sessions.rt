//! Whole sessions: examples with the names of their crates.

use crate::expect::{holds, same};
use crate::room::{PEER, Room, make_room, says, settings};
use authorizer::Authorizer;
use ftp_wire::{Command, LineItem};
use memory_store::MemStore;
use rate_floors::Floors;
use script_session::{ControlFault, serve_config, serve_text};
use server_config::Config;
use session_core::Session;
use session_table::Input;
use std::alloc::AllocError;
use std::io;
use std::io::Write;
use std::process::Abort;
use std::test::Fail;
use text_io::{FallibleIo, TextWriter};

/// The end of a long name.
const LONG: &str = "abcdefghijklmnopqrstuvwxyzabcdefghijklmnopqrstuvwxyzabcdefghijklmnopqrstuvwxyz";

/// A configuration of one user.
const SMALL: &str = "version = 1
[server]
root = \"memory\"
port = 2121
passive_first = 40000
passive_last = 40001
[[user]]
name = \"ann\"
password = \"secret\"
home = \"/\"
perms = \"elr\"
";

fn session_core(
    rt: &(impl Abort + AllocGlobal),
    users: &Authorizer,
    floors: &mut Floors,
    store: &mut MemStore,
) -> Result<(), AllocError> {
    let mut session = Session::new(rt.alloc(), settings(), PEER)?; // of a client at that address
    says(rt, session.greet(), "220 Ready\r\n");
    let line = Input::Line(LineItem::Command(Command::Pwd));
    let reported = session.step(users, floors, store, line, 0); // at the moment 0
    says(rt, reported, "530 Log in first\r\n");
    holds(rt, !session.held_due()); // otherwise the next input is Input::Held
    Ok(())
}

fn script_session(
    rt: &(impl Abort + AllocGlobal),
    users: &Authorizer,
    floors: &mut Floors,
    store: &mut MemStore,
) -> Result<(), ControlFault> {
    let mut input: &[u8] = b"USER ann\r\nPASS secret\r\n";
    let mut output: Vec<u8> = Vec::new(rt.alloc());
    serve_text(
        rt.alloc(),
        &mut input,
        &mut output,
        users,
        floors,
        store,
        settings(),
        40_000,
    )?;
    same(
        rt,
        &output,
        b"220 Ready\r\n331 Password required\r\n230 Welcome\r\n",
    );
    Ok(())
}

fn in_room(rt: &(impl Abort + AllocGlobal), room: &mut Room) {
    session_core(rt, &room.users, &mut room.floors, &mut room.store).expect(rt, "memory");
    script_session(rt, &room.users, &mut room.floors, &mut room.store).expect(rt, "replies");
}

#[test]
fn whole_sessions(rt: HostRuntime) {
    let mut room = make_room(&rt);
    in_room(&rt, &mut room);
}

/// A client that takes a few octets of a reply at a time.
#[derive(Drop)]
struct SlowClient {
    taken: Vec<u8>,
}

impl Write for SlowClient {
    fn write(&mut self, octets: &[u8]) -> io::Result<usize> {
        let (front, _) = octets.split_at(octets.len().min(7));
        self.taken.extend_from_slice(front)?;
        Ok(front.len())
    }

    fn flush(&mut self) -> io::Result<()> {
        Ok(())
    }
}

/// Sends a text to a session of this room.
fn talk(
    rt: &(impl Abort + AllocGlobal),
    room: &mut Room,
    text: &[u8],
    writer: &mut impl TextWriter,
) {
    let Room {
        users,
        floors,
        store,
        state: _,
    } = room;
    let mut input = text;
    let alloc = rt.alloc();
    serve_text(
        alloc,
        &mut input,
        writer,
        users,
        floors,
        store,
        settings(),
        40_000,
    )
    .expect(rt, "a session");
}

/// A login, and directories with long names, so that their listing has some 13,000 octets.
fn make_many(rt: &(impl Abort + AllocGlobal)) -> Vec<u8> {
    let mut text = Vec::new(rt.alloc());
    text.extend_from_slice(b"USER ann\r\nPASS secret\r\n")
        .expect(rt, "memory");
    for number in 100..200u32 {
        let name = format!(in rt.alloc(); "MKD {number}{LONG}\r\n").expect(rt, "memory");
        text.extend_from_slice(name.as_str().as_bytes())
            .expect(rt, "memory");
    }
    text
}

/// A reply that is longer than a socket's buffer is written whole and in order, however few octets go out at a time.
#[test]
fn a_long_reply(rt: HostRuntime) {
    let mut room = make_room(&rt);
    talk(
        &rt,
        &mut room,
        &make_many(&rt),
        &mut Vec::<u8>::new(rt.alloc()),
    );
    let lines = b"USER ann\r\nPASS secret\r\nSTAT /\r\n";
    let mut whole: Vec<u8> = Vec::new(rt.alloc());
    talk(&rt, &mut room, lines, &mut whole);
    holds(&rt, 10_000 < whole.len());
    let mut slow = FallibleIo(SlowClient {
        taken: Vec::new(rt.alloc()),
    });
    talk(&rt, &mut room, lines, &mut slow);
    same(&rt, slow.0.taken.as_slice(), whole.as_slice());
}

#[test]
fn configured_session(rt: HostRuntime) -> Result<(), Fail> {
    let config = Config::read(rt.alloc(), SMALL.as_bytes())?; // a server, and the user `ann`
    let mut input: &[u8] = b"PWD\r\n";
    let mut output: Vec<u8> = Vec::new(rt.alloc());
    serve_config(rt.alloc(), config, &mut input, &mut output)?;
    let replies = b"220 Ready\r\n530 Log in first\r\n"; // the greeting, and a reply to each line
    assert!(rt; output.as_slice() == replies.as_slice());
    Ok(())
}
