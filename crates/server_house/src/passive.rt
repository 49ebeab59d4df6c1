//! Passive ports: listening, and accepting the peer.

ghost use Rattle.std.specs.IoError.{error_kind};
ghost use Rattle.std.specs.Prelude.{◌≡◌, ◌↔◌, IfErr, IfOk, IfSome, IsTrue, None, OnErr, OnOk, false, not, true};
ghost use Rattle.server_house.specs.Peers.{IsAddress, IsFrom, IsOctetsOf, IsWanted};
ghost use Rattle.server_house.specs.Ports.{has_no_fault, may_keep_ports, none_waits};

use server_config::ServerNumbers;
use std::io;
use std::io::ErrorKind;
use std::net::{Ipv4Addr, Net, SocketAddr, SocketAddrV4, TcpListener, TcpStream};

/// Most connections accepted in one call; the others wait for the next call.
const MOST_STRANGERS: usize = 16;

/// The address of a socket.
pub fn socket_address(address: [u8; 4], port: u16) -> SocketAddr
    ensures address { IsAddress result address port }
{
    let [a, b, c, d] = address;
    SocketAddr::V4(SocketAddrV4::new(Ipv4Addr::new(a, b, c, d), port))
}

/// The octets of an IPv4 address; those of no host for another.
pub fn address_octets(address: SocketAddr) -> [u8; 4]
    ensures octets { IsOctetsOf address result }
{
    match address {
        SocketAddr::V4(at) => at.ip().octets(),
        SocketAddr::V6(_) => [0; 4],
    }
}

/// Listens at an address, so that `accept_from` does not wait.
pub fn listen<R>(rt: &R, at: SocketAddr) -> io::Result<TcpListener>
where
    R: Net<Listener = TcpListener, Stream = TcpStream>,
{
    let listener = TcpListener::bind(rt, at)?;
    listener.set_nonblocking(true)?;
    Ok(listener)
}

/// Returns whether sessions keep their passive ports between transfers: if the range has as many ports as there can be
/// connections, so that nobody lacks a port that another session keeps.
pub fn may_keep_ports(numbers: &ServerNumbers) -> bool
    ensures keep { result ≡ may_keep_ports numbers.now }
{
    let ports = (u32::from(numbers.passive_last) + 1).saturating_sub(u32::from(
        numbers.passive_first,
    ));
    ports >= u32::from(numbers.max_cons)
}

// Returns whether a call that accepts found no connection, by its error.
fn none_waits(kind: ErrorKind) -> bool
    ensures none { result ≡ none_waits kind }
{
    kind == ErrorKind::WouldBlock
}

// Returns whether another connection may wait after this error of a call that accepts. `Err` is the error if it is a fault
// of the machine.
fn may_wait(error: io::Error) -> io::Result<bool>
    ensures wait { IfOk result (λ wait. wait ≡ not (none_waits (error_kind error))) }
    ensures well { OnOk result (has_no_fault (error_kind error) ≡ true) }
    ensures fault { OnErr result (has_no_fault (error_kind error) ≡ false) }
    ensures error { IfErr result (λ fault. fault ≡ error) }
{
    match error.kind() {
        ErrorKind::WouldBlock => Ok(false),
        ErrorKind::ConnectionAborted | ErrorKind::Interrupted => Ok(true),
        _ => Err(error),
    }
}

fn is_from(from: SocketAddr, peer: [u8; 4]) -> bool
    ensures from { IsTrue result ↔ IsFrom from peer }
{
    match from {
        SocketAddr::V4(from) => from.ip().octets() == peer,
        SocketAddr::V6(_) => false,
    }
}

// Returns whether a connection from this address is to be taken.
fn is_wanted(from: SocketAddr, peer: Option<[u8; 4]>) -> bool
    ensures wanted { IsTrue result ↔ IsWanted peer from }
{
    match peer {
        Some(peer) => is_from(from, peer),
        None => true,
    }
}

/// A connection that was accepted, whose address is the peer's, or any if no peer is given: by its type, no stranger's is
/// one.
#[derive(Drop)]
pub struct PeerConnection {
    stream: TcpStream,
    peer: Option<[u8; 4]>,
    from: SocketAddr,
    ghost wanted: { ∥ IsWanted peer from ∥₁ },
}

impl PeerConnection {
    // The connection with this address, if it is the peer's.
    fn of_peer(stream: TcpStream, from: SocketAddr, peer: Option<[u8; 4]>) -> Option<PeerConnection>
        ensures wanted { IfSome result (λ connection. (connection.peer ≡ peer)
            × (connection.from ≡ from)) }
        ensures stranger { result ≡ None → ¬ IsWanted peer from }
    {
        if is_wanted(from, peer) {
            Some(PeerConnection { stream, peer, from })
        } else {
            None
        }
    }

    /// The peer as which it was accepted; none for anybody.
    pub fn peer(&self) -> Option<[u8; 4]>
        ensures peer { result ≡ self.now.peer }
    {
        self.peer
    }

    /// The socket.
    pub fn into_stream(self) -> TcpStream
        ensures stream { result ≡ self.stream }
    {
        let PeerConnection { stream, .. } = self;
        stream
    }
}

/// Accepts a connection from this peer, or from anybody if no peer is given, and closes those of others. `None` if none
/// has come yet, or after `MOST_STRANGERS` others: the next call goes on. `Err` is the error of the machine if it cannot
/// accept a connection.
pub fn accept_from(
    listener: &TcpListener,
    peer: Option<[u8; 4]>,
) -> io::Result<Option<PeerConnection>>
    ensures peer { IfOk result (λ found. IfSome found (λ connection. connection.peer ≡ peer)) }
    ensures fault { IfErr result (λ fault. has_no_fault (error_kind fault) ≡ false) }
{
    for _ in 0..MOST_STRANGERS {
        match listener.accept() {
            Ok((stream, from)) => {
                if let Some(connection) = PeerConnection::of_peer(stream, from, peer) {
                    return Ok(Some(connection));
                }
            }
            Err(error) => {
                if !may_wait(error)? {
                    return Ok(None);
                }
            }
        }
    }
    Ok(None)
}

/// Accepts and closes the connections that wait at a listener. Returns whether none waits any more: `false` after
/// `MOST_STRANGERS` of them, or if the machine reports an error.
pub fn empty_queue(listener: &TcpListener) -> bool {
    for _ in 0..MOST_STRANGERS {
        match listener.accept() {
            Ok((stream, _)) => drop(stream),
            Err(error) => return none_waits(error.kind()),
        }
    }
    false
}
