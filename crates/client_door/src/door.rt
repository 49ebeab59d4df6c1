//! The door that clients come in by.

ghost use Rattle.std.specs.Prelude.{◌≡◌, IfSome, None, Some};
ghost use Rattle.client_door.specs.Hearing.{IsFaultOf};
ghost use Rattle.client_door.specs.declared.heard.Arrival.TheVariants.{Bell, Nobody};
ghost use Rattle.client_door.specs.declared.heard.Heard.TheVariants.{Knock, Refusal, Ring, Silence};

use crate::bell::DoorBell;
use crate::heard::{Arrival, Heard, arrival_of};
use crate::pair::await_either;
use std::io;
use std::net::{Net, SocketAddr, TcpListener, TcpStream};
use std::os::fd::{AsRawFd, RawFd};

/// A socket that listens and is not blocking: [`ClientDoor::open`] alone makes one.
#[derive(Drop)]
pub struct ClientDoor {
    listener: TcpListener,
}

impl AsRawFd for ClientDoor {
    fn as_raw_fd(&self) -> RawFd {
        self.listener.as_raw_fd()
    }
}

impl ClientDoor {
    /// Opens a door at an address. `Err` is the machine's reason.
    pub fn open<R>(rt: &R, address: SocketAddr) -> io::Result<ClientDoor>
    where
        R: Net<Listener = TcpListener, Stream = TcpStream>,
    {
        let listener = TcpListener::bind(rt, address)?;
        listener.set_nonblocking(true)?;
        Ok(ClientDoor { listener })
    }

    // Waits until somebody may be at the door or the bell was rung, at most this time, in milliseconds.
    fn wait(&self, bell: &DoorBell, millis: u16) -> Heard {
        await_either(&self.listener, bell, millis)
    }

    /// Lets a client in that is at the door; it waits for nobody.
    pub fn let_in(&self) -> Arrival {
        arrival_of(self.listener.accept())
    }

    /// Waits for a client, at most this time, in milliseconds, and not once the bell was rung.
    pub fn next(&self, bell: &DoorBell, millis: u16) -> Arrival {
        match unheard(self.wait(bell, millis), os::errno()) {
            Some(arrival) => arrival,
            None => self.let_in(),
        }
    }
}

// The outcome of a wait after which nobody can be let in, with the number of the machine's last error; none if somebody may
// be at the door.
fn unheard(heard: Heard, error: i32) -> Option<Arrival>
    ensures silence { heard ≡ Silence → result ≡ Some Nobody }
    ensures ring { heard ≡ Ring → result ≡ Some Bell }
    ensures knock { heard ≡ Knock → result ≡ None }
    ensures refusal { heard ≡ Refusal → IfSome result (IsFaultOf error) }
{
    match heard {
        Heard::Silence => Some(Arrival::Nobody),
        Heard::Ring => Some(Arrival::Bell),
        Heard::Knock => None,
        Heard::Refusal => Some(Arrival::Fault(io::Error::from_raw_os_error(error))),
    }
}
