//! The room of those who came in and have sent nothing yet.

ghost use Rattle.std.specs.Prelude.{◌<◌, ◌↔◌, ◌-◌, IfSome, IsTrue, length};

use crate::bell::DoorBell;
use crate::door::ClientDoor;
use crate::heard::{Arrival, Heard, heard_by};
use libc::net::POLLIN;
use libc::types::pollfd;
use std::alloc::{AllocError, Global};
use std::io;
use std::net::{SocketAddr, TcpStream};
use std::os::fd::{AsRawFd, RawFd};

/// The greatest number of clients in a room. If one more comes in, the one that has been there longest leaves.
pub const MAX_GUESTS: usize = 64;

/// The time after which a client that has sent nothing leaves, in microseconds.
pub const LONGEST_STAY: u64 = 2_000_000;

/// A client that has sent nothing yet.
#[derive(Drop)]
struct Guest {
    stream: TcpStream,
    from: SocketAddr,
    // the moment at which it came in, in microseconds
    since: u64,
}

/// The clients that came in and have sent nothing yet, in the order in which they came.
#[derive(Drop)]
pub struct WaitingRoom {
    guests: Vec<Guest>,
    // the descriptors for poll(2): the door, the bell, and then the guests
    asked: Vec<pollfd>,
}

// A descriptor for poll(2).
fn asked_of(number: RawFd) -> pollfd {
    pollfd {
        fd: number,
        events: POLLIN,
        revents: 0,
    }
}

// Returns whether a client that came in at a moment is to leave now.
fn has_stayed(since: u64, now: u64) -> bool
    ensures stayed { IsTrue result ↔ LONGEST_STAY < now - since }
{
    now.saturating_sub(since) > LONGEST_STAY
}

// The place of the first of these descriptors that poll(2) reports.
fn first_of(asked: &[pollfd]) -> Option<usize>
    ensures within { IfSome result (λ place. place < length asked.now) }
{
    asked.iter().position(|one| one.revents != 0)
}

impl WaitingRoom {
    /// An empty room. Fails if memory runs out.
    pub fn new(alloc: Global) -> Result<WaitingRoom, AllocError> {
        Ok(WaitingRoom {
            guests: Vec::with_capacity(alloc, MAX_GUESTS)?,
            asked: Vec::with_capacity(alloc, MAX_GUESTS + 2)?,
        })
    }

    /// Number of clients.
    pub fn count(&self) -> usize {
        self.guests.len()
    }

    // Those who have stayed too long leave: they came in first.
    fn part(&mut self, now: u64) {
        for _ in 0..MAX_GUESTS {
            let is_over = match self.guests.first() {
                Some(guest) => has_stayed(guest.since, now),
                None => false,
            };
            if !is_over {
                return;
            }
            self.guests.remove(0);
        }
    }

    // A client comes in. Without memory for it, it leaves.
    fn seat(&mut self, guest: Guest) {
        if self.guests.len() >= MAX_GUESTS {
            self.guests.remove(0);
        }
        let _ = self.guests.push(guest);
    }

    // Asks about the door, the bell and the guests.
    fn ask(&mut self, door: &ClientDoor, bell: &DoorBell) -> Result<(), AllocError> {
        self.asked.clear();
        self.asked.push(asked_of(door.as_raw_fd()))?;
        self.asked.push(asked_of(bell.as_raw_fd()))?;
        for guest in &self.guests {
            self.asked.push(asked_of(guest.stream.as_raw_fd()))?;
        }
        Ok(())
    }

    // The guest that has sent something, if there is one.
    fn take(&mut self) -> Option<Arrival> {
        let place = first_of(self.asked.get(2..)?)?;
        if place >= self.guests.len() {
            return None;
        }
        let guest = self.guests.remove(place);
        Some(Arrival::Client(guest.stream, guest.from))
    }

    // Lets a client in, which waits here until it has sent something.
    fn receive(&mut self, door: &ClientDoor, now: u64) -> Arrival {
        match door.let_in() {
            Arrival::Client(stream, from) => {
                self.seat(Guest {
                    stream,
                    from,
                    since: now,
                });
                Arrival::Nobody
            }
            other => other,
        }
    }

    /// Waits for a client that has sent something, at most this time, in milliseconds, and not once the bell was rung. Those
    /// who come in meanwhile wait in the room. `now` is the moment of the call, in microseconds.
    pub fn next(&mut self, door: &ClientDoor, bell: &DoorBell, now: u64, millis: u16) -> Arrival {
        self.part(now);
        if self.ask(door, bell).is_err() {
            return Arrival::Fault(io::Error::from(io::ErrorKind::OutOfMemory));
        }
        let answer = libc::net::poll(self.asked.as_mut_slice(), i32::from(millis));
        let error = os::errno();
        let (at_door, at_bell) = match self.asked.as_slice() {
            [door, bell, ..] => (door.revents, bell.revents),
            _ => (0, 0),
        };
        match heard_by(answer, at_door, at_bell) {
            Heard::Ring => Arrival::Bell,
            Heard::Refusal => Arrival::Fault(io::Error::from_raw_os_error(error)),
            Heard::Knock => match self.take() {
                Some(client) => client,
                None => self.receive(door, now),
            },
            Heard::Silence => self.take().unwrap_or(Arrival::Nobody),
        }
    }
}
