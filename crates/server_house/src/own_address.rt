//! The addresses that a server listens on.

ghost use Rattle.std.specs.Prelude.{◌≡◌};
ghost use Rattle.server_house.specs.Peers.{IsAddress};

use crate::passive::socket_address;
use server_config::ServerNumbers;
use std::net::SocketAddr;

/// The address of a server at one of its ports. It is made of the numbers of its configuration, and of nothing else.
#[derive(Clone, Copy)]
pub struct OwnAddress {
    socket: SocketAddr,
}

impl OwnAddress {
    /// The address of control connections.
    pub fn of_server(numbers: &ServerNumbers) -> OwnAddress
        ensures own { IsAddress result.socket numbers.now.address numbers.now.port }
    {
        OwnAddress {
            socket: socket_address(numbers.address, numbers.port),
        }
    }

    /// The address of a passive port.
    pub fn of_port(numbers: &ServerNumbers, port: u16) -> OwnAddress
        ensures own { IsAddress result.socket numbers.now.address port }
    {
        OwnAddress {
            socket: socket_address(numbers.address, port),
        }
    }

    /// The address of the socket.
    pub fn socket(&self) -> SocketAddr
        ensures socket { result ≡ self.now.socket }
    {
        self.socket
    }
}
