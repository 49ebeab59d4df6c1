//! Data connections over the loopback address, and what a session and a lane exchange.

use crate::expect::holds;
use counted_file::CountedFile;
use line_rates::Way;
use server_house::{
    DataConnection, Listing, Outgoing, Progress, Served, TransferName, accept_from, address_octets,
    listen, socket_address,
};
use session_table::{End, Octets};
use std::alloc::Global;
use std::io::{Read, Write};
use std::net::{Net, SocketAddr, TcpListener, TcpStream};
use std::process::Abort;
use std::time::Duration;
use virtual_tree::Source;

const LOOPBACK: [u8; 4] = [127, 0, 0, 1];

#[test]
fn transfer_names(rt: HostRuntime) {
    let name = TransferName::new();
    holds(&rt, name.get() == (Way::Down, 0));
    name.set(Way::Up, 7);
    holds(&rt, name.get() == (Way::Up, 7));
}

/// A connection to a listener of this machine, and the other end of it.
fn connected<R>(rt: &R, listener: &TcpListener) -> Option<(TcpStream, TcpStream)>
where
    R: Net<Listener = TcpListener, Stream = TcpStream>,
{
    let address = listener.local_addr().ok()?;
    let near = TcpStream::connect(rt, address).ok()?;
    for _ in 0..1_000_000 {
        match accept_from(listener, Some(LOOPBACK)) {
            Ok(Some(far)) => return Some((near, far.into_stream())),
            Ok(None) => {}
            Err(_) => return None,
        }
    }
    None
}

// Connects without waiting, and looks until the connection is there or has failed.
fn reached<R>(rt: &R, to: SocketAddr) -> bool
where
    R: Abort + Net<Listener = TcpListener, Stream = TcpStream>,
{
    let mut outgoing = Outgoing::begin(rt, to).expect(rt, "a socket");
    for _ in 0..1_000_000 {
        match outgoing.progress() {
            Progress::Connected(_) => return true,
            Progress::Pending(same) => outgoing = same,
            Progress::Failed(_) => return false,
        }
    }
    false
}

#[test]
fn a_connection_is_begun(rt: HostRuntime) {
    let listener = listen(&rt, socket_address(LOOPBACK, 0)).expect(&rt, "a port");
    let at = listener.local_addr().expect(&rt, "an address");
    holds(&rt, reached(&rt, at));
    drop(listener);
    holds(&rt, !reached(&rt, at)); // nobody listens there any more
}

fn talk<R>(rt: &R, listener: &TcpListener)
where
    R: Abort + AllocGlobal + Net<Listener = TcpListener, Stream = TcpStream>,
{
    let (near, far) = connected(rt, listener).expect(rt, "a connection");
    let mut connection = DataConnection::new(rt.alloc(), far).expect(rt, "memory");
    let other = connection.another().expect(rt, "memory");
    holds(rt, connection.write(b"abc").ok() == Some(3));
    let mut near = near;
    let mut buffer = [0u8; 8];
    holds(rt, near.read(&mut buffer).ok() == Some(3));
    holds(rt, near.write(b"late").ok() == Some(4));
    holds(
        rt,
        other.peek(&mut buffer) == 4 && other.peek(&mut buffer[..3]) == 3,
    ); // they stay to be read
    other.abort();
    holds(rt, other.peek(&mut buffer) == 0);
    // octets that came before and were not read are not read any more
    holds(rt, connection.read(&mut buffer).ok() == Some(0));
    holds(rt, other.fault().is_none());
    holds(rt, connection.write(b"abc").is_err());
    holds(rt, other.fault().is_some()); // each handle has the error
}

// A peer that closes its end with octets unread resets the connection. A look meets the error, and the read returns it.
fn look_at_a_reset<R>(rt: &R, listener: &TcpListener)
where
    R: Abort + AllocGlobal + Net<Listener = TcpListener, Stream = TcpStream>,
{
    let (near, far) = connected(rt, listener).expect(rt, "a connection");
    let mut connection = DataConnection::new(rt.alloc(), far).expect(rt, "memory");
    holds(rt, connection.write(b"abc").ok() == Some(3));
    drop(near);
    let mut buffer = [0u8; 8];
    let other = connection.another().expect(rt, "memory");
    holds(rt, other.peek(&mut buffer) == 0);
    holds(rt, connection.read(&mut buffer).is_err());
}

#[test]
fn octets_go_over_the_loopback(rt: HostRuntime) {
    let listener = listen(&rt, socket_address(LOOPBACK, 0)).expect(&rt, "a port");
    talk(&rt, &listener);
    look_at_a_reset(&rt, &listener);
    let at = socket_address(LOOPBACK, 21);
    holds(&rt, at.port() == 21 && address_octets(at) == LOOPBACK);
}

#[test]
fn a_listing_is_read_to_its_end(rt: HostRuntime) {
    let octets = b"ab".to_vec(rt.alloc()).expect(&rt, "memory");
    let listing = Listing::new(Octets::new(octets));
    let mut source: Served<Global, Listing<Global>> = Served::Listing(listing);
    holds(&rt, source.expected() == Some(2));
    let mut buffer = [0u8; 8];
    holds(
        &rt,
        source.read(&mut buffer).ok() == Some(2) && buffer[1] == b'b',
    );
    holds(&rt, source.read(&mut buffer).ok() == Some(0));
}

#[test]
fn an_end_is_read_and_written_by_counted_calls(rt: HostRuntime) {
    let mut source = CountedFile::new(&b"abc"[..]);
    let mut buffer = [0u8; 2];
    holds(
        &rt,
        source.read(&mut buffer).ok() == Some(2) && buffer[1] == b'b',
    );
    holds(&rt, source.into_file().len() == 1);
    let mut sink = CountedFile::new(Vec::new(rt.alloc()));
    holds(
        &rt,
        sink.write_some(b"d").ok() == Some(1) && sink.write(b"ef").is_ok(),
    );
    holds(&rt, sink.into_file().len() == 3);
}
