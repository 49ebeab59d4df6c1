//! The meaning of what the machine answers to a wait at a door.

ghost use Rattle.std.specs.Prelude.{◌≡◌};
ghost use Rattle.client_door.specs.Hearing.{arrival_of, heard_by};

use std::io;
use std::io::ErrorKind;
use std::net::{SocketAddr, TcpStream};

/// The end of a wait.
#[derive(Clone, Copy, Debug, PartialEq, Eq)]
pub enum Heard {
    /// The time is over.
    Silence,
    /// The bell was rung.
    Ring,
    /// Somebody may be at the door.
    Knock,
    /// The machine refused the wait.
    Refusal,
}

/// The end of a wait by the answer of poll(2) for a door and its bell, and by the events of each. A bell that was rung
/// comes before a client.
pub fn heard_by(answer: i32, door: i16, bell: i16) -> Heard
    ensures heard { result ≡ heard_by answer door bell }
{
    if answer < 0 {
        Heard::Refusal
    } else if answer == 0 {
        Heard::Silence
    } else if bell != 0 {
        Heard::Ring
    } else if door != 0 {
        Heard::Knock
    } else {
        Heard::Silence
    }
}

/// The outcome of a wait for a client.
#[derive(Drop)]
pub enum Arrival {
    /// The bell was rung.
    Bell,
    /// Nobody came in.
    Nobody,
    /// A client came in, from this address.
    Client(TcpStream, SocketAddr),
    /// The machine's reason for which nobody could be let in, or waited for.
    Fault(io::Error),
}

/// The outcome by the answer of accept(2) on a socket that is not blocking: a client may have left before it was let in.
pub fn arrival_of(answer: io::Result<(TcpStream, SocketAddr)>) -> Arrival
    ensures arrival { result ≡ arrival_of answer }
{
    match answer {
        Ok((stream, from)) => Arrival::Client(stream, from),
        Err(error) => {
            if error.kind() == ErrorKind::WouldBlock {
                Arrival::Nobody
            } else {
                Arrival::Fault(error)
            }
        }
    }
}
