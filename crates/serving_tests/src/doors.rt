//! A door over the loopback address, its bell, and the room of those who are silent.

use crate::expect::holds;
use client_door::{
    Arrival, ClientDoor, DoorBell, Heard, LONGEST_STAY, WaitingRoom, arrival_of, await_answer,
    await_either, heard_by,
};
use server_house::{listen, socket_address};
use std::io;
use std::io::{ErrorKind, Write};
use std::net::{Net, SocketAddr, TcpListener, TcpStream};
use std::process::Abort;

/// An address of this machine that nothing listens on.
fn free_address<R>(rt: &R) -> SocketAddr
where
    R: Abort + Net<Listener = TcpListener, Stream = TcpStream>,
{
    let listener = listen(rt, socket_address([127, 0, 0, 1], 0)).expect(rt, "a port");
    listener.local_addr().expect(rt, "an address")
}

fn is_client(arrival: Arrival) -> bool {
    matches!(arrival, Arrival::Client(_, _))
}

fn is_nobody(arrival: Arrival) -> bool {
    matches!(arrival, Arrival::Nobody)
}

fn is_bell(arrival: Arrival) -> bool {
    matches!(arrival, Arrival::Bell)
}

#[test]
fn a_door_and_its_bell(rt: HostRuntime) {
    let at = free_address(&rt);
    let bell = DoorBell::new().expect(&rt, "a counter");
    let door = ClientDoor::open(&rt, at).expect(&rt, "a door");
    holds(&rt, is_nobody(door.next(&bell, 0)));
    holds(&rt, is_nobody(door.let_in()));
    let _near = TcpStream::connect(&rt, at).expect(&rt, "a connection");
    holds(&rt, is_client(door.next(&bell, 1_000)));
    bell.ring();
    let _late = TcpStream::connect(&rt, at).expect(&rt, "a connection");
    holds(&rt, is_bell(door.next(&bell, 1_000)));
    holds(&rt, is_bell(door.next(&bell, 1_000))); // it stays rung
    bell.quiet();
    holds(&rt, is_client(door.next(&bell, 1_000)));
}

#[test]
fn a_wait_beside_a_bell(rt: HostRuntime) {
    let at = free_address(&rt);
    let bell = DoorBell::rung().expect(&rt, "a counter");
    let listener = listen(&rt, at).expect(&rt, "a port");
    holds(&rt, await_either(&listener, &bell, 1_000) == Heard::Ring);
    bell.quiet();
    holds(&rt, await_either(&listener, &bell, 0) == Heard::Silence);
    let near = TcpStream::connect(&rt, at).expect(&rt, "a connection");
    holds(&rt, await_either(&listener, &bell, 1_000) == Heard::Knock);
    holds(&rt, await_answer(&near, &bell, 1_000) == Heard::Knock);
}

// A silent client waits in the room, and leaves after two seconds.
#[test]
fn a_room_for_the_silent(rt: HostRuntime) {
    let at = free_address(&rt);
    let bell = DoorBell::new().expect(&rt, "a counter");
    let door = ClientDoor::open(&rt, at).expect(&rt, "a door");
    let mut room = WaitingRoom::new(rt.alloc()).expect(&rt, "memory");
    let _silent = TcpStream::connect(&rt, at).expect(&rt, "a connection");
    holds(&rt, is_nobody(room.next(&door, &bell, 0, 1_000)));
    let mut near = TcpStream::connect(&rt, at).expect(&rt, "a connection");
    holds(&rt, is_nobody(room.next(&door, &bell, 1, 1_000)));
    holds(&rt, room.count() == 2);
    holds(&rt, near.write(b"a").ok() == Some(1));
    holds(&rt, is_client(room.next(&door, &bell, LONGEST_STAY, 1_000)));
    holds(&rt, room.count() == 1);
    holds(&rt, is_nobody(room.next(&door, &bell, LONGEST_STAY + 1, 0)));
    holds(&rt, room.count() == 0);
    bell.ring();
    holds(&rt, is_bell(room.next(&door, &bell, 0, 1_000)));
}

#[test]
fn what_is_heard(rt: HostRuntime) {
    holds(&rt, heard_by(-1, 0, 0) == Heard::Refusal);
    holds(&rt, heard_by(0, 0, 0) == Heard::Silence);
    holds(&rt, heard_by(1, 1, 0) == Heard::Knock);
    holds(&rt, heard_by(2, 1, 1) == Heard::Ring);
    let refused = io::Error::from(ErrorKind::ConnectionAborted);
    holds(&rt, matches!(arrival_of(Err(refused)), Arrival::Fault(_)));
}
