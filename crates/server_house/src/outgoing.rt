//! Connections to a client's port, which nobody waits for.

ghost use Rattle.std.specs.Prelude.{◌≡◌};
ghost use Rattle.server_house.specs.Sockets.{fault_in};

use mio::net::TcpStream as PendingStream;
use std::io;
use std::net::{Net, SocketAddr, TcpStream};
use std::os::fd::{AsRawFd, RawFd};

/// A connection that was begun.
#[derive(Drop)]
pub struct Outgoing {
    stream: PendingStream,
}

impl AsRawFd for Outgoing {
    fn as_raw_fd(&self) -> RawFd {
        self.stream.as_raw_fd()
    }
}

/// The progress of a connection that was begun.
#[derive(Drop)]
pub enum Progress {
    /// It is there; its calls wait from now on.
    Connected(TcpStream),
    /// The peer has not answered yet.
    Pending(Outgoing),
    /// The peer refused it, or cannot be reached.
    Failed(io::Error),
}

// Makes the calls on a connection wait.
fn waiting(stream: TcpStream) -> Progress {
    match stream.set_nonblocking(false) {
        Ok(()) => Progress::Connected(stream),
        Err(error) => Progress::Failed(error),
    }
}

// The fault of a socket, or of asking for it.
fn fault_in(answer: io::Result<Option<io::Error>>) -> Option<io::Error>
    ensures fault { result ≡ fault_in answer }
{
    match answer {
        Ok(fault) => fault,
        Err(error) => Some(error),
    }
}

impl Outgoing {
    /// Begins a connection to this address. Does not wait.
    pub fn begin<R: Net>(rt: &R, to: SocketAddr) -> io::Result<Outgoing> {
        let stream = PendingStream::connect(rt, to)?;
        Ok(Outgoing { stream })
    }

    /// The progress of the connection (connect(2): an error of the socket, once, if it failed; the peer's address, once
    /// it is there). Does not wait.
    pub fn progress(self) -> Progress {
        match fault_in(self.stream.take_error()) {
            Some(error) => Progress::Failed(error),
            None => match self.stream.peer_addr() {
                Ok(_) => waiting(TcpStream::from(self.stream)),
                Err(_) => Progress::Pending(self),
            },
        }
    }
}
