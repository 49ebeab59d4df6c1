//! Control connections: admission, and a thread for each.

ghost use Rattle.std.specs.Prelude.{◌≡◌, ◌≢◌, ◌≤◌, ◌↔◌, IsTrue, false};
ghost use Rattle.std.specs.Thread.{IsSend, IsSync};
ghost use Rattle.ftp_daemon.specs.Accepting.{is_reported, refusal};

use client_door::{Arrival, ClientDoor, DoorBell};
use event_word::{has_passed, micros};
use lent_parts::PartsName;
use passive_ports::AdmitFault;
use recorded_store::Recorder;
use server_house::{
    ClientSession, House, NotServed, OwnRuns, ServerEvent, ServerHooks, ServerRuntime,
    ShutdownStage, address_octets,
};
use socket_host::serve_session;
use std::alloc::Global;
use std::io::{ErrorKind, Write};
use std::net::{Shutdown, SocketAddr, TcpStream};
use std::sync::Wait;
use std::thread::{Builder, Threads};
use std::time::{Clock, Duration};
use std::{io, thread};
use virtual_tree::Store;

/// The stack of a session's thread, in octets.
const STACK: usize = 262_144;

/// The time for a client that is not admitted to read the reply, in milliseconds.
const BRIEFLY: u64 = 50;

/// The longest wait for a client, in milliseconds: the bell ends it, and a lost ring would cost no more.
const LONGEST_WAIT: u16 = 2_000;

/// The wait after a connection could not be accepted, in milliseconds.
const PAUSE: u64 = 20;

/// The time between two reports of such failures at least, in microseconds.
const QUIET: u64 = 1_000_000;

// The reply to a client that is not served.
fn refusal(why: NotServed) -> &'static [u8]
    ensures text { result.now ≡ refusal why }
{
    match why {
        NotServed::NotAdmitted(AdmitFault::TooMany) => b"421 Too many connections\r\n",
        NotServed::NotAdmitted(AdmitFault::TooManyOfAddress) => {
            b"421 Too many connections from this address\r\n"
        }
        NotServed::NotAdmitted(AdmitFault::Memory) => b"421 Out of memory\r\n",
        NotServed::NoThread => b"421 No thread for a session\r\n",
        NotServed::Ending => b"421 Server is ending\r\n",
    }
}

// Tells a client why it is not served, and reports it to the handler.
fn refuse<R, S, H, B>(
    rt: &R,
    house: &House<S, H, B>,
    mut stream: TcpStream,
    peer: [u8; 4],
    why: NotServed,
)
where
    R: Wait,
    S: Store<Global>,
    H: ServerHooks,
    B: PartsName,
{
    house.handler.lock(rt).on_refused(peer, why);
    let _ = stream.set_write_timeout(Some(Duration::from_millis(BRIEFLY)));
    let _ = stream.write_all(refusal(why));
    let _ = stream.shutdown(Shutdown::Write);
}

// Returns whether no more sessions are to be admitted; for `sessions`, 0 is no limit.
fn is_enough(sessions: u64, admitted: u64) -> bool
    ensures endless { sessions ≡ 0 → result ≡ false }
    ensures enough { sessions ≢ 0 → (IsTrue result ↔ (sessions ≤ admitted)) }
{
    sessions != 0 && admitted >= sessions
}

// Takes the connection of a client from the arrivals.
fn take_arrival<R, S, H, B>(
    rt: &R,
    house: &House<S, H, B>,
    session: ClientSession,
) -> Option<TcpStream>
where
    R: Wait,
    S: Store<Global>,
    H: ServerHooks,
    B: PartsName,
{
    match house.arrivals.get(session.number) {
        Some(arrival) => arrival.lock(rt).take(),
        None => None,
    }
}

// Puts the connection of an admitted client among the arrivals, for its thread to take.
fn arrive<R, S, H, B>(
    rt: &R,
    house: &House<S, H, B>,
    stream: TcpStream,
    session: ClientSession,
) -> Option<ClientSession>
where
    R: Wait,
    S: Store<Global>,
    H: ServerHooks,
    B: PartsName,
{
    if let Some(sign) = house.signs.get(session.number) {
        sign.arrive(session.serial);
    }
    match house.arrivals.get(session.number) {
        Some(arrival) => {
            *arrival.lock(rt) = Some(stream);
            Some(session)
        }
        None => {
            leave(rt, house, session);
            None
        }
    }
}

// Returns whether a failure at this moment is reported: unless one was reported within the last second, and not if the
// call was only interrupted.
fn is_reported(error: &io::Error, reported: Option<u64>, now: u64) -> bool
    ensures reported { result ≡ is_reported error.now reported now }
{
    if error.kind() == ErrorKind::Interrupted {
        return false;
    }
    match reported {
        Some(since) => has_passed(since, now, QUIET),
        None => true,
    }
}

// Reports that a connection could not be accepted, and waits briefly. Returns the moment of the last report.
fn not_accepted<R, S, H, B>(
    rt: &R,
    house: &House<S, H, B>,
    error: io::Error,
    reported: Option<u64>,
) -> Option<u64>
where
    R: Wait + Clock,
    S: Store<Global>,
    H: ServerHooks,
    B: PartsName,
{
    let now = micros(rt);
    let is_due = is_reported(&error, reported, now);
    if is_due {
        house
            .handler
            .lock(rt)
            .on_server(ServerEvent::NotAccepted(error));
    }
    thread::sleep(rt, Duration::from_millis(PAUSE));
    if is_due { Some(now) } else { reported }
}

// Admits a connection as the session of a number, unless the server drains, or refuses it with the reason.
fn admit<R, S, H, B>(
    rt: &R,
    house: &House<S, H, B>,
    stream: TcpStream,
    from: SocketAddr,
    serial: u64,
) -> Option<ClientSession>
where
    R: Wait,
    S: Store<Global>,
    H: ServerHooks,
    B: PartsName,
{
    let peer = address_octets(from);
    if house.ending.has_begun(ShutdownStage::Drain) {
        refuse(rt, house, stream, peer, NotServed::Ending);
        return None;
    }
    let admitted = house.registry.lock(rt).admit(peer);
    match admitted {
        Ok(number) => arrive(
            rt,
            house,
            stream,
            ClientSession {
                peer,
                number,
                serial,
            },
        ),
        Err(fault) => {
            refuse(rt, house, stream, peer, NotServed::NotAdmitted(fault));
            None
        }
    }
}

// Waits for the next connection, for a limited time, and not once the bell was rung. `None` if it is not admitted, or there
// is none.
fn next_client<R, S, H, B>(
    rt: &R,
    house: &House<S, H, B>,
    door: &ClientDoor,
    bell: &DoorBell,
    serial: u64,
    reported: &mut Option<u64>,
) -> Option<ClientSession>
where
    R: Wait + Clock,
    S: Store<Global>,
    H: ServerHooks,
    B: PartsName,
{
    match door.next(bell, LONGEST_WAIT) {
        Arrival::Bell | Arrival::Nobody => None,
        Arrival::Client(stream, from) => {
            if house.ending.has_begun(ShutdownStage::Sessions) {
                return None;
            }
            admit(rt, house, stream, from, serial)
        }
        Arrival::Fault(error) => {
            *reported = not_accepted(rt, house, error, *reported);
            None
        }
    }
}

// Serves a client to the end.
fn serve_client<R, S, H, B, T>(rt: &R, house: &House<S, H, B>, runs: &T, session: ClientSession)
where
    R: ServerRuntime,
    S: Store<Global> + Recorder,
    H: ServerHooks,
    B: PartsName,
    T: OwnRuns,
{
    if let Some(stream) = take_arrival(rt, house, session) {
        serve_session(rt, house, runs, stream, session);
    }
}

// Leaves the registry with a session that has not begun.
fn leave<R, S, H, B>(rt: &R, house: &House<S, H, B>, session: ClientSession)
where
    R: Wait,
    S: Store<Global>,
    H: ServerHooks,
    B: PartsName,
{
    if let Some(sign) = house.signs.get(session.number) {
        sign.leave();
    }
    house.registry.lock(rt).leave(session.number);
}

// Turns away a client for which no thread could be started: it leaves the registry.
fn turn_away<R, S, H, B>(rt: &R, house: &House<S, H, B>, session: ClientSession)
where
    R: Wait,
    S: Store<Global>,
    H: ServerHooks,
    B: PartsName,
{
    if let Some(stream) = take_arrival(rt, house, session) {
        refuse(rt, house, stream, session.peer, NotServed::NoThread);
    }
    leave(rt, house, session);
}

/// Accepts control connections until the wanted number of sessions has begun, or the bell is rung since
/// the sessions are to end; then stops listening. Returns once all sessions have ended.
pub(crate) fn accept_all<R, S, H, B, T>(
    rt: &R,
    house: &House<S, H, B>,
    runs: &T,
    door: ClientDoor,
    bell: &DoorBell,
)
where
    R: Threads + ServerRuntime + Copy + Send + Sync,
    S: Store<Global> + Recorder + Send + Drop,
    S::Source: Send,
    S::Sink: Send,
    H: ServerHooks + Send,
    B: PartsName + Send + Sync,
    T: OwnRuns + Sync,
{
    thread::scope(
        thread::scope_env(),
        rt,
        |scope|
            requires { IsSync R.row × IsSend R.row × IsSend S.row × IsSend S.Source.row
                × IsSend S.Sink.row × IsSend H.row × IsSync T.row }
        {
            let mut admitted = 0u64;
            let mut serial = 0u64; // that of the next session
            let mut reported = None;
            for _ in rt.forever() {
                if house.ending.has_begun(ShutdownStage::Sessions)
                    || is_enough(house.numbers.sessions, admitted)
                {
                    break;
                }
                match next_client(rt, house, &door, bell, serial, &mut reported) {
                    Some(session) => {
                        serial = serial.saturating_add(1);
                        let started = Builder::new()
                            .stack_size(STACK)
                            .spawn_scoped(scope, move || serve_client(rt, house, runs, session));
                        match started {
                            Ok(_) => admitted = admitted.saturating_add(1),
                            Err(_) => turn_away(rt, house, session),
                        }
                    }
                    None => {}
                }
            }
            drop(door);
        },
    );
}
