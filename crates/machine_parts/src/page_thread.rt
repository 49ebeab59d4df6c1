//! The thread that serves the status page.

ghost use Rattle.std.specs.Prelude.{◌≡◌, IfOk};
ghost use Rattle.std.specs.Arc.{arc_value};
ghost use Rattle.machine_parts.specs.Machine.{IsOwn};

use crate::own_thread::{STACK, ThreadSigns, shared};
use client_door::{Arrival, ClientDoor, DoorBell, WaitingRoom};
use ftpd_program::ServeFault;
use httpdate::HttpDate;
use server_house::ServerRuntime;
use server_status::Status;
use status_keeper::StatusCell;
use status_page::{MachineClock, MicrosClock, Timed, serve_request};
use std::collections::hash_map::RandomState;
use std::net::{Ipv4Addr, Net, SocketAddr, SocketAddrV4, TcpListener, TcpStream};
use std::random::RandomSource;
use std::sync::{Arc, Wait};
use std::thread::{Builder, Threads};
use std::time::{Clock, Duration};
use std::{io, thread};

/// The time that a request and its answer may take together, in microseconds.
const WHOLE: u64 = 2_000_000;

/// The time-out of each call on a connection, in milliseconds.
const CALL: u64 = 500;

/// The longest wait for a request, in milliseconds.
const LONGEST_WAIT: u16 = 2_000;

/// The time between two tries to wait, if one failed, in milliseconds.
const PAUSE: u64 = 100;

/// The socket of a status page, at an address of this machine alone, and the bell that ends the wait at it.
#[derive(Drop)]
pub struct PageSocket {
    door: ClientDoor,
    bell: DoorBell,
}

// The address of a page: no other machine reaches it.
fn page_address(port: u16) -> SocketAddr
    ensures own { IsOwn result port }
{
    SocketAddr::V4(SocketAddrV4::new(Ipv4Addr::new(127, 0, 0, 1), port))
}

impl PageSocket {
    /// Listens at a port of 127.0.0.1. `Err` is the machine's reason.
    pub fn new<R>(rt: &R, port: u16) -> io::Result<PageSocket>
    where
        R: Net<Listener = TcpListener, Stream = TcpStream>,
    {
        let bell = DoorBell::new()?;
        let door = ClientDoor::open(rt, page_address(port))?;
        Ok(PageSocket { door, bell })
    }
}

// This moment, for an answer.
fn date(machine: &HostRuntime) -> io::Result<HttpDate> {
    let seconds = match machine.since_1970() {
        Ok(time) => time.as_secs(),
        Err(_) => 0,
    };
    match HttpDate::from_unix_secs(seconds) {
        Ok(date) => Ok(date),
        Err(_) => Err(io::Error::from(io::ErrorKind::InvalidData)),
    }
}

// Answers one request on a connection. A peer that takes too long is left.
fn answer<R>(rt: &R, machine: &HostRuntime, status: &Status, stream: TcpStream) -> io::Result<()>
where
    R: Clock + AllocGlobal,
{
    let limit = Some(Duration::from_millis(CALL));
    stream.set_read_timeout(limit)?;
    stream.set_write_timeout(limit)?;
    let until = MachineClock(rt).micros().saturating_add(WHOLE);
    let keys = RandomState::new(machine)?;
    let mut reader = Timed::new(&stream, MachineClock(rt), until);
    let mut writer = Timed::new(&stream, MachineClock(rt), until);
    serve_request(
        rt.alloc(),
        keys,
        status,
        date(machine)?,
        &mut reader,
        &mut writer,
    )
}

/// A status page that a thread serves, which nobody waits for.
#[derive(Drop)]
pub struct PageThread {
    socket: PageSocket,
    cell: Arc<StatusCell>,
    signs: ThreadSigns,
}

impl PageThread {
    /// Starts the thread. Fails without a thread, or memory.
    pub fn start<R>(
        rt: &R,
        machine: &HostRuntime,
        socket: PageSocket,
        cell: Arc<StatusCell>,
    ) -> Result<Arc<PageThread>, ServeFault>
    where
        R: Threads + ServerRuntime + Copy + Send + Sync + 'static,
        ensures socket { IfOk result (λ page. (arc_value page).socket ≡ socket) }
        ensures cell { IfOk result (λ page. (arc_value page).cell ≡ cell) }
    {
        let room = WaitingRoom::new(rt.alloc())?;
        let page = shared(
            rt.alloc(),
            PageThread {
                socket,
                cell,
                signs: ThreadSigns::new(),
            },
        )?;
        let own = Arc::try_clone(&page)?;
        let runtime = *rt;
        let machine = *machine;
        let started = Builder::new()
            .stack_size(STACK)
            .spawn(rt, move || own.work(&runtime, &machine, room));
        match started {
            Ok(_) => Ok(page),
            Err(_) => Err(ServeFault::NoThread),
        }
    }

    // Answers a request, once there is a status.
    fn serve<R>(&self, rt: &R, machine: &HostRuntime, stream: TcpStream)
    where
        R: Wait + Clock + AllocGlobal,
    {
        if let Ok(Some(status)) = self.cell.last(rt) {
            let _ = answer(rt, machine, &status, stream);
        }
    }

    // Serves the page until the bell is rung. A client that is silent waits in the room, and delays nobody.
    fn work<R>(&self, rt: &R, machine: &HostRuntime, room: WaitingRoom)
    where
        R: Wait + Clock + AllocGlobal,
    {
        let mut room = room;
        for _ in rt.forever() {
            let now = MachineClock(rt).micros();
            match room.next(&self.socket.door, &self.socket.bell, now, LONGEST_WAIT) {
                Arrival::Bell => {
                    self.signs.end();
                    return;
                }
                Arrival::Nobody => {}
                Arrival::Client(stream, _) => self.serve(rt, machine, stream),
                Arrival::Fault(_) => {
                    if self.signs.is_closed() {
                        self.signs.end();
                        return;
                    }
                    thread::sleep(rt, Duration::from_millis(PAUSE));
                }
            }
        }
        unreachable!()
    }

    /// Waits for the end of the thread, at most a second.
    pub fn leave<R: Wait + Clock>(&self, rt: &R) {
        self.socket.bell.ring();
        self.signs.leave(rt);
    }
}
