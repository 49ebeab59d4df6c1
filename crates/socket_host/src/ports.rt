//! The passive ports of a server, for one of its sessions.

ghost use Rattle.std.specs.Prelude.{◌≡◌, IfSome};

use passive_ports::{MOST_TRIES, PortHost, RestingPorts, open_passive};
use server_config::ServerNumbers;
use server_house::{OwnAddress, PeerConnection, accept_from, listen};
use std::io;
use std::net::{Net, TcpListener, TcpStream};
use std::sync::{Mutex, Wait};

/// Number of calls of `accept_from` in one look for a client, each of which closes at most as many strangers as it may.
/// The machine has queues of 128 connections, unless it is told otherwise.
const CROWDS: u32 = 9;

/// The connection of this peer, or of anybody if no peer is given, that waits at a listener. Strangers before it are
/// closed.
pub(crate) fn early_of(listener: &TcpListener, peer: Option<[u8; 4]>) -> Option<PeerConnection>
    ensures peer { IfSome result (λ connection. connection.peer ≡ peer) }
{
    for _ in 0..CROWDS {
        // An error of the machine is told by the look of a transfer that was begun.
        if let Ok(Some(connection)) = accept_from(listener, peer) {
            return Some(connection);
        }
    }
    None
}

/// A passive port that is leased, and listened on. It cannot be dropped: `give_back` alone takes it, so no branch of a
/// session can keep a port from all others.
pub(crate) struct LeasedPort {
    listener: TcpListener,
    number: u16,
}

impl LeasedPort {
    pub(crate) fn number(&self) -> u16
        ensures number { result ≡ self.now.number }
    {
        self.number
    }

    pub(crate) fn listener(&self) -> &TcpListener
        ensures listener { result.now ≡ self.now.listener }
    {
        &self.listener
    }
}

/// Closes a port, if there is one, and gives it back.
pub(crate) fn give_back<R: Wait>(rt: &R, ports: &Mutex<RestingPorts>, port: Option<LeasedPort>) {
    if let Some(LeasedPort { listener, number }) = port {
        drop(listener);
        ports.lock(rt).give_back(number);
    }
}

/// The passive ports behind their lock, and the numbers of the server that listens on them.
#[derive(Drop)]
pub(crate) struct SharedPorts<'r, 'p, R> {
    pub rt: &'r R,
    pub ports: &'p Mutex<RestingPorts>,
    pub numbers: ServerNumbers,
    /// The error of the last port that could not be listened on.
    pub fault: Option<io::Error>,
}

impl<'r, 'p, R> PortHost<TcpListener> for SharedPorts<'r, 'p, R>
where
    R: Wait + Net<Listener = TcpListener, Stream = TcpStream>,
{
    ghost use Rattle.std.specs.Prelude.{⊤};

    ghost Asks = { λ _ _ _. ⊤ };

    fn lease(&mut self) -> Option<u16> {
        self.ports.lock(self.rt).lease()
    }

    fn bind(&mut self, port: u16) -> Option<TcpListener>
        ensures { ⊤ }
    {
        let own = OwnAddress::of_port(&self.numbers, port);
        match listen(self.rt, own.socket()) {
            Ok(listener) => Some(listener),
            Err(error) => {
                self.fault = Some(error);
                None
            }
        }
    }

    fn rest(&mut self, port: u16) {
        self.ports.lock(self.rt).give_back(port);
    }
}

/// Leases a port and listens on it, as `open_passive`.
pub(crate) fn open_port<R>(ports: &mut SharedPorts<'_, '_, R>) -> Option<LeasedPort>
where
    R: Wait + Net<Listener = TcpListener, Stream = TcpStream>,
{
    let (number, listener) = open_passive(ports, MOST_TRIES)?;
    Some(LeasedPort { listener, number })
}
