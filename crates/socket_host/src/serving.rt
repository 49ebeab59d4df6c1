//! A whole control session over sockets.

ghost use Rattle.std.specs.Prelude.{◌≡◌, ◌<◌, ◌≤◌, ◌^◌, IfSome, IsTrue, None, Some, false};
ghost use Rattle.control_session.specs.Rows.{IsRow};
ghost use Rattle.rate_floors.specs.Promises.{HasNoSessions};
ghost use Rattle.socket_host.specs.Hosted.{IsHosted};
ghost use Rattle.std.specs.declared.alloc.Global.{Global};
ghost use Rattle.transfer_ticket.specs.Views.{owner_view};
ghost use Rattle.transfer_ticket.specs.declared.view.TicketView.TheVariants.{Idle};

use crate::control::ControlSocket;
use crate::host::{SessionNeeds, SocketHost};
use crate::side::SocketSide;
use control_session::{Host, run_control};
use lent_parts::PartsName;
use line_rates::Limits;
use rate_floors::Floors;
use recorded_store::Recorder;
use server_house::{
    ClientSession, House, LaneEnds, OwnRuns, ServerHooks, ServerRuntime, SessionEnd, SessionJob,
    SharedTerms,
};
use session_table::Settings;
use std::alloc::{AllocError, Global};
use std::net::TcpStream;
use std::sync::Wait;
use transfer_ticket::TicketOwner;
use virtual_tree::Store;

/// Most reads of one session: at 200 ms each, more than twenty-five years.
const MOST_READS: u32 = u32::MAX;

/// A session may read 4,294,967,295 times before it is broken off.
pub fn sessions_are_long()
    ensures reads { MOST_READS ≡ 4294967295 }
{}

/// Size of one read of what comes after the end: four of them are more than most clients send ahead of the last reply.
const LAST_PIECE: usize = 4_096;

/// A host with the settings of its session, which keeps the users of the login and charges whoever was logged in last. A
/// call whose type argument has several lifetimes may take no settings, so the functions below have one type parameter
/// for the host.
pub(crate) trait SessionHost: Host<Global> {
    ghost use Rattle.std.specs.Prelude.{ℕ};
    ghost use Rattle.authorizer.specs.Users.{Users};
    ghost use Rattle.control_session.specs.Charges.{ChargesUsers};
    ghost use Rattle.control_session.specs.Logins.{KeepsUsers};

    /// The users by whom the session goes.
    ghost kept: { Self → Users };

    /// The number of the user who was logged in last.
    ghost user: { Self → ℕ };

    /// The number charged for the transfer that was begun last.
    ghost charged: { Self → ℕ };

    /// The settings of the session.
    fn settings(&self) -> Result<Settings, AllocError>;

    /// Ends the control connection in such a way that the last reply arrives, and leaves the ticket of the session.
    fn leave_client(self, buffer: &mut [u8]);

    ghost keeps: { KeepsUsers Self.Does kept };

    ghost charges: { ChargesUsers Self.Does kept user charged };
}

impl<'h, R, S, H, B, T> SessionHost for SocketHost<'h, R, S, H, B, T>
where
    R: ServerRuntime,
    S: Store<Global> + Recorder,
    H: ServerHooks,
    B: PartsName,
    T: OwnRuns,
{
    ghost use Rattle.socket_host.specs.Doing.{kept_users};
    ghost use Rattle.socket_host.specs.DoingLaws.{charges_users, keeps_users};

    ghost kept = { λ host. kept_users host.standing };

    ghost user = { λ host. host.standing.user };

    ghost charged = { λ host. host.side.run.payer };

    ghost keeps = { keeps_users (λ host. host.standing) (λ host. host.side.run.payer) };

    ghost charges = { charges_users (λ host. host.standing) (λ host. host.side.run.payer) };

    fn settings(&self) -> Result<Settings, AllocError> {
        self.copy_settings()
    }

    fn leave_client(self, buffer: &mut [u8]) {
        let mut host = self;
        host.hang_up(buffer);
        host.leave();
    }
}

// Runs the whole session of a host. If there is no memory to begin, the client gets no reply.
fn run_hosted<T: SessionHost>(alloc: &Global, host: &mut T, peer: [u8; 4])
    ensures served { IsHosted (IsRow {A = Global} {R = T.Source} T.Step) T.Does MOST_READS peer
        host.old host.new (T.kept host.old) (T.user host.old) (T.charged host.old)
        (T.charged host.new) }
{
    if let Ok(settings) = host.settings() {
        let _ = run_control(alloc, host, settings, peer, MOST_READS);
    }
}

// Runs the session of a host, closes its connection, and leaves its ticket.
fn run_whole<T: SessionHost>(alloc: &Global, host: T, peer: [u8; 4]) {
    let mut host = host;
    run_hosted(alloc, &mut host, peer);
    let mut buffer = [0; LAST_PIECE];
    host.leave_client(&mut buffer);
}

// The number of the session of a connection, by which lanes identify it. No registry has 2^32 connections.
fn session_number(key: usize) -> u32
    ensures same { key < 2 ^ 32 → result ≡ key }
    ensures large { 2 ^ 32 ≤ key → result ≡ 0 }
{
    match u32::try_from(key) {
        Ok(session) => session,
        Err(_) => 0,
    }
}

/// The peer whose data connections a session accepts; none for any.
fn wanted_peer(settings: &Settings, peer: [u8; 4]) -> Option<[u8; 4]>
    ensures any { IsTrue settings.now.permits_foreign_addresses → result ≡ None }
    ensures peer { settings.now.permits_foreign_addresses ≡ false → result ≡ Some peer }
{
    if settings.permits_foreign_addresses {
        None
    } else {
        Some(peer)
    }
}

// Floors without rows, which need no memory.
fn floors_of_nobody(alloc: Global) -> Option<Floors>
    ensures none { IfSome result HasNoSessions }
{
    let limits = Limits::of(0, 0, 0, Vec::new(alloc), Vec::new(alloc)).ok()?;
    Floors::of(alloc, &limits).ok()
}

// The parts of a host that need memory.
fn needs_of<R: Wait + AllocGlobal>(rt: &R, terms: &SharedTerms) -> Option<SessionNeeds> {
    let held = terms.hold(rt).ok()?;
    let no_floors = floors_of_nobody(rt.alloc())?;
    Some(SessionNeeds { held, no_floors })
}

// The host of a session at its ticket.
fn host_at<'h, R, S, H, B, T>(
    rt: &'h R,
    house: &'h House<S, H, B>,
    runs: &'h T,
    stream: TcpStream,
    own: ClientSession,
    owner: TicketOwner<'h, SessionJob<S>, SessionEnd<S>, LaneEnds>,
    needs: SessionNeeds,
) -> SocketHost<'h, R, S, H, B, T>
where
    R: ServerRuntime,
    S: Store<Global> + Recorder,
    H: ServerHooks,
    B: PartsName,
    T: OwnRuns,
    requires idle { owner_view owner ≡ Idle }
    ensures own { result.own ≡ own }
{
    let wanted = wanted_peer(&needs.held.terms().settings, own.peer);
    let side = SocketSide::new(rt, house, runs, wanted, session_number(own.number), owner);
    let socket = ControlSocket::new(stream);
    SocketHost::new(rt, socket, side, own, needs)
}

// Runs a session at its ticket, closes its connection, and leaves the ticket.
fn run_at<'h, R, S, H, B, T>(
    rt: &'h R,
    house: &'h House<S, H, B>,
    runs: &'h T,
    stream: TcpStream,
    own: ClientSession,
    owner: TicketOwner<'h, SessionJob<S>, SessionEnd<S>, LaneEnds>,
    needs: SessionNeeds,
)
where
    R: ServerRuntime,
    S: Store<Global> + Recorder,
    H: ServerHooks,
    B: PartsName,
    T: OwnRuns,
    requires idle { owner_view owner ≡ Idle }
{
    let host = host_at(rt, house, runs, stream, own, owner, needs);
    run_whole(&rt.alloc(), host, own.peer);
}

// Runs a session and closes its connection. Nobody else sits at its ticket, since the session before left it before it
// left the registry.
fn run_client<R, S, H, B, T>(
    rt: &R,
    house: &House<S, H, B>,
    runs: &T,
    stream: TcpStream,
    own: ClientSession,
)
where
    R: ServerRuntime,
    S: Store<Global> + Recorder,
    H: ServerHooks,
    B: PartsName,
    T: OwnRuns,
{
    let Some(needs) = needs_of(rt, &house.terms) else {
        return;
    };
    match house.tickets.get(own.number) {
        Some(ticket) => match TicketOwner::sit(ticket) {
            Ok(owner) => run_at(rt, house, runs, stream, own, owner, needs),
            Err(_) => {}
        },
        None => {}
    }
}

/// Serves a session from the greeting to the end of its control connection, whose number is its key in the registry.
/// However the session ends, its transfers have ended and its floor is released. The connection leaves the registry
/// last, once its socket is closed, so that the registry bounds threads and sockets.
pub fn serve_session<R, S, H, B, T>(
    rt: &R,
    house: &House<S, H, B>,
    runs: &T,
    stream: TcpStream,
    own: ClientSession,
)
where
    R: ServerRuntime,
    S: Store<Global> + Recorder,
    H: ServerHooks,
    B: PartsName,
    T: OwnRuns,
{
    run_client(rt, house, runs, stream, own);
    if let Some(sign) = house.signs.get(own.number) {
        sign.leave();
    }
    house.registry.lock(rt).leave(own.number);
}
