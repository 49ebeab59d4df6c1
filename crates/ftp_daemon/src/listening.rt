//! The socket of control connections, and the files that clients will need.

ghost use Rattle.std.specs.Prelude.{◌≡◌};
ghost use Rattle.ftp_daemon.specs.Descriptors.{are_few};

use client_door::{ClientDoor, DoorBell};
use ftpd_program::ServeFault;
use libc::types::rlimit;
use server_config::ServerNumbers;
use server_house::{OwnAddress, ServerEvent, ServerHooks, descriptors_for};
use std::io;
use std::net::{Net, TcpListener, TcpStream};

/// The door that clients come in by, and the bell that ends the wait at it.
#[derive(Drop)]
pub(crate) struct Entrance {
    pub(crate) door: ClientDoor,
    pub(crate) bell: DoorBell,
}

// Opens the door at an address, with its bell. `Err` is the machine's reason.
fn open<R>(rt: &R, address: OwnAddress) -> io::Result<Entrance>
where
    R: Net<Listener = TcpListener, Stream = TcpStream>,
{
    let bell = DoorBell::new()?;
    let door = ClientDoor::open(rt, address.socket())?;
    Ok(Entrance { door, bell })
}

/// Listens on the address and port of a server. Returns `Bind` if they cannot be bound, or the bell cannot be had; the
/// handler is told the reason.
pub(crate) fn listen_on<R, H>(
    rt: &R,
    numbers: &ServerNumbers,
    handler: &mut H,
) -> Result<Entrance, ServeFault>
where
    R: Net<Listener = TcpListener, Stream = TcpStream>,
    H: ServerHooks,
{
    match open(rt, OwnAddress::of_server(numbers)) {
        Ok(entrance) => Ok(entrance),
        Err(error) => {
            handler.on_server(ServerEvent::NotBound(numbers.address, numbers.port, error));
            Err(ServeFault::Bind)
        }
    }
}

// The number of files that this process may have open (getrlimit(2)); none if it cannot be had.
fn descriptor_limit() -> Option<u64> {
    let mut limit = rlimit {
        rlim_cur: 0,
        rlim_max: 0,
    };
    if libc::getrlimit(libc::RLIMIT_NOFILE, &mut limit) == 0 {
        Some(limit.rlim_cur)
    } else {
        None
    }
}

// Returns whether a limit is known, and is below what is needed.
fn are_few(limit: Option<u64>, needed: u64) -> bool
    ensures few { result ≡ are_few limit needed }
{
    match limit {
        Some(limit) => limit < needed,
        None => false,
    }
}

/// Tells the handler if fewer files may be open than the greatest number of clients may need.
pub(crate) fn warn_of_descriptors<H: ServerHooks>(numbers: &ServerNumbers, handler: &mut H) {
    let needed = descriptors_for(numbers.max_cons);
    let limit = descriptor_limit();
    if are_few(limit, needed) {
        if let Some(limit) = limit {
            handler.on_server(ServerEvent::FewDescriptors(limit, needed));
        }
    }
}
