//! The data side of a session.

ghost use Rattle.std.specs.Prelude.{◌≡◌, ◌⊎◌, IfNone, IfSome, IsTrue, false, true};
ghost use Rattle.server_house.specs.declared.cause.EndCause.TheVariants as cause;
ghost use Rattle.session_table.specs.declared.inputs.End.TheVariants.{Aborted, NoConnection, NoMemory};
ghost use Rattle.session_table.specs.declared.inputs.Input.TheVariants.{DataReady};
ghost use Rattle.socket_host.specs.Causes.{AbortCause, GoesCause, LookCause, StartCause, TakenCause, cause_of};
ghost use Rattle.socket_host.specs.Keeping.{GoesKeeps, Keeps, LookKeeps, StartKeeps, may_keep, without_port};
ghost use Rattle.socket_host.specs.Running.{Aborts, GoesOn, IsAwaited, IsConnecting, IsHandedOver, IsMovedBy, IsNoTarget, Looks, RestsBeside, RestsOn, Settles, Starts, TakesEnd, event_of, is_busy, is_moving, over, pause_after, port_in};
ghost use Rattle.transfer_ticket.specs.Tickets as ticket;
ghost use Rattle.transfer_ticket.specs.Views.{owner_view};
ghost use Rattle.transfer_ticket.specs.declared.view.TicketView.TheVariants.{Idle};

use crate::awaited::AwaitedClient;
use crate::beside::wait_beside;
use crate::control::ControlSocket;
use crate::keeping::KeptPort;
use crate::ports::{LeasedPort, SharedPorts, give_back, open_port};
use crate::run::{SessionRun, Taken};
use crate::running::{Preparation, SideTransfer, is_brief, is_upload, over};
use crate::waiting::{Beside, after_rest};
use event_word::{has_passed, micros};
use ftp_wire::HostPort;
use lent_parts::PartsName;
use server_house::{
    DataConnection, EndCause, House, LaneEnds, Outgoing, OwnRuns, PeerConnection, Progress,
    ServerRuntime, SessionEnd, SessionJob, TransferEnd, empty_queue, socket_address,
};
use session_table::{End, Input, Job};
use std::alloc::Global;
use std::io::ErrorKind;
use std::net::TcpStream;
use std::time::Duration;
use std::{io, mem, thread};
use transfer_ticket::TicketOwner;
use virtual_tree::Store;

/// The time without an octet after which the read of an upload fails, in milliseconds.
const STANDSTILL: u64 = 60_000;

/// The time for a client to connect to its passive port, in microseconds.
const PATIENCE: u64 = 60_000_000;

/// The time for a client's port to answer, in microseconds.
const CONNECTING: u64 = 5_000_000;

/// The longest wait for the end of a moving transfer alone, in milliseconds: of a session that does not read, or has no
/// bell. The end wakes it at once.
const LOOK: u64 = 50;

/// The time in which a data connection usually comes, in microseconds: the session looks for it each millisecond.
const USUAL: u64 = 100_000;

/// The shortest and the longest time between two looks for one that has not come by then, in milliseconds.
const SHORTEST_PAUSE: u64 = 20;

const LONGEST_PAUSE: u64 = 1_000;

// The time until the next look for a data connection, in milliseconds: a tenth of the microseconds waited so far.
fn pause_after(waited: u64) -> u64
    ensures pause { result ≡ pause_after waited }
{
    (waited / 10_000).max(SHORTEST_PAUSE).min(LONGEST_PAUSE)
}

// The end of a transfer: that which its lane reports, or `Aborted` if it was aborted.
fn end_of(is_aborted: bool, end: End) -> End
    ensures aborted { IsTrue is_aborted → result ≡ Aborted }
    ensures reported { is_aborted ≡ false → result ≡ end }
{
    if is_aborted { End::Aborted } else { end }
}

// The reason for the end that a lane reports, with the error of the connection, if there was one.
fn cause_of(is_aborted: bool, end: End, fault: Option<io::Error>) -> Option<EndCause>
    ensures cause { result ≡ cause_of is_aborted end fault }
{
    if is_aborted {
        return Some(EndCause::Aborted);
    }
    match end {
        End::Done => None,
        End::Lost => Some(EndCause::Connection(fault)),
        End::Local | End::Full => Some(EndCause::File),
        End::NoConnection => Some(EndCause::NoClient),
        End::NoMemory => Some(EndCause::NoMemory),
        End::Aborted => Some(EndCause::ServerEnds),
    }
}

// The report of an end, if there is one.
fn event_of<K: Drop>(end: Option<TransferEnd<K>>) -> Option<Input<Global, K>>
    ensures event { result ≡ event_of end }
{
    match end {
        Some(TransferEnd { end, sink, .. }) => Some(Input::TransferEnded { end, sink }),
        None => None,
    }
}

/// The data side of the session of one control connection. It cannot be dropped: it leaves its ticket.
pub struct SocketSide<'h, R, S: Store<Global>, H: Drop, B: PartsName, T> {
    rt: &'h R,
    pub(crate) house: &'h House<S, H, B>,
    // runs brief downloads here
    runs: &'h T,
    // the client whose data connections are accepted, and that which came before its transfer was begun
    client: AwaitedClient,
    // the number of its ticket, and its right to that
    session: u32,
    run: SessionRun<'h, S>,
    prepared: Preparation,
    // the port of the transfer before, if it is kept for the next
    kept: KeptPort,
    // the reason for the last end that was made or taken, unless it is that all was moved
    cause: Option<EndCause>,
    // the number of octets that the last transfer had moved whose end was taken
    moved: u64,
    // the result of opening a port, to be reported: the port, or that none was free
    ready: Option<Option<u16>>,
    // the error for which none could be listened on
    port_fault: Option<io::Error>,
}

impl<'h, R, S, H, B, T> SocketSide<'h, R, S, H, B, T>
where
    R: ServerRuntime,
    S: Store<Global>,
    H: Drop,
    B: PartsName,
    T: OwnRuns,
{
    /// The data side of the session with this number, at its ticket, with nothing prepared and nothing running. It accepts
    /// connections of the wanted peer, or of any if none is given.
    pub fn new(
        rt: &'h R,
        house: &'h House<S, H, B>,
        runs: &'h T,
        wanted: Option<[u8; 4]>,
        session: u32,
        owner: TicketOwner<'h, SessionJob<S>, SessionEnd<S>, LaneEnds>,
    ) -> Self
        requires idle { owner_view owner ≡ Idle }
        ensures prepared { result.prepared ≡ Preparation.Nothing }
        ensures running { result.run.running ≡ SideTransfer.Nothing }
        ensures ready { result.ready ≡ None }
        ensures wanted { result.client.wanted ≡ wanted }
        ensures keeps { result.kept.keeps ≡ may_keep house.now.numbers wanted }
        ensures kept { result.kept.at ≡ None }
    {
        SocketSide {
            rt,
            house,
            runs,
            client: AwaitedClient::new(wanted),
            session,
            run: SessionRun::new(owner),
            prepared: Preparation::Nothing,
            kept: KeptPort::new(&house.numbers, wanted),
            cause: None,
            moved: 0,
            ready: None,
            port_fault: None,
        }
    }

    /// Drops what was prepared; a port then rests.
    pub fn drop_data(&mut self)
        ensures prepared { self.new.prepared ≡ Preparation.Nothing }
        ensures early { self.new.client.early ≡ None }
        ensures running { self.new.run.running ≡ self.old.run.running }
        ensures ready { self.new.ready ≡ self.old.ready }
        ensures cause { self.new.cause ≡ self.old.cause }
        ensures kept { self.new.kept ≡ self.old.kept }
        ensures payer { self.new.run.payer ≡ self.old.run.payer }
    {
        self.client.forget();
        self.prepare(Preparation::Nothing);
    }

    // Prepares this in the place of what was prepared before; a port then rests.
    fn prepare(&mut self, next: Preparation)
        ensures prepared { self.new.prepared ≡ next }
        ensures client { self.new.client ≡ self.old.client }
        ensures running { self.new.run.running ≡ self.old.run.running }
        ensures ready { self.new.ready ≡ self.old.ready }
        ensures cause { self.new.cause ≡ self.old.cause }
        ensures kept { self.new.kept ≡ self.old.kept }
        ensures payer { self.new.run.payer ≡ self.old.run.payer }
    {
        let before = mem::replace(&mut self.prepared, next);
        self.close(before.into_port());
    }

    // Closes a port, if there is one, which then rests.
    fn close(&self, port: Option<LeasedPort>) {
        give_back(self.rt, &self.house.ports, port);
    }

    // Takes the port that is kept, once no connection waits there: one that does was made to the port of the transfer
    // before, and is closed. If the queue is not empty then, the port is closed instead.
    fn take_kept(&mut self) -> Option<LeasedPort>
        ensures found { IfSome result (λ port. self.old.kept.at ≡ Some port) }
        ensures none { self.new.kept ≡ without_port self.old.kept }
        ensures prepared { self.new.prepared ≡ self.old.prepared }
        ensures running { self.new.run.running ≡ self.old.run.running }
        ensures ready { self.new.ready ≡ self.old.ready }
        ensures cause { self.new.cause ≡ self.old.cause }
        ensures payer { self.new.run.payer ≡ self.old.run.payer }
    {
        let port = self.kept.take()?;
        if empty_queue(port.listener()) {
            return Some(port);
        }
        self.close(Some(port));
        None
    }

    // Takes the client's connection from the queue of the port that is listened on, once it has come, so that strangers
    // do not keep it out while its transfer is not begun. All others are closed.
    fn welcome(&mut self)
        ensures prepared { self.new.prepared ≡ self.old.prepared }
        ensures running { self.new.run.running ≡ self.old.run.running }
        ensures ready { self.new.ready ≡ self.old.ready }
        ensures cause { self.new.cause ≡ self.old.cause }
        ensures kept { self.new.kept ≡ self.old.kept }
        ensures payer { self.new.run.payer ≡ self.old.run.payer }
    {
        if let Preparation::Listening(port) = &self.prepared {
            self.client.welcome(port.listener());
        }
    }

    /// Takes the client's connection, if it has come early, and closes all others that wait at the port that is listened
    /// on, and at the one that is kept, which nobody has asked for. Closes that one too if the client is silent, or if
    /// others come faster than they are closed.
    pub fn tend_ports(&mut self, is_silent: bool)
        ensures silent { IsTrue is_silent → self.new.kept ≡ without_port self.old.kept }
        ensures kept { (self.new.kept ≡ self.old.kept)
            ⊎ (self.new.kept ≡ without_port self.old.kept) }
        ensures prepared { self.new.prepared ≡ self.old.prepared }
        ensures running { self.new.run.running ≡ self.old.run.running }
        ensures ready { self.new.ready ≡ self.old.ready }
        ensures cause { self.new.cause ≡ self.old.cause }
        ensures payer { self.new.run.payer ≡ self.old.run.payer }
    {
        self.welcome();
        if let Some(port) = self.take_kept() {
            let closed = if is_silent {
                Some(port)
            } else {
                self.kept.put_back(port)
            };
            self.close(closed);
        }
    }

    // Leases a port and listens on it. If none could be listened on, the error of the last is kept.
    fn listening(&mut self) -> Option<LeasedPort>
        ensures prepared { self.new.prepared ≡ self.old.prepared }
        ensures running { self.new.run.running ≡ self.old.run.running }
        ensures cause { self.new.cause ≡ self.old.cause }
        ensures kept { self.new.kept ≡ self.old.kept }
        ensures payer { self.new.run.payer ≡ self.old.run.payer }
    {
        let mut ports = SharedPorts {
            rt: self.rt,
            ports: &self.house.ports,
            numbers: self.house.numbers,
            fault: None,
        };
        let listening = open_port(&mut ports);
        let SharedPorts { fault, .. } = ports;
        self.port_fault = fault;
        listening
    }

    /// The machine's error for which no port could be listened on, when a look has just reported that none is free. None
    /// if all are leased.
    pub fn port_fault(&self) -> Option<io::Error>
        ensures fault { result ≡ self.now.port_fault }
    {
        self.port_fault
    }

    /// The reason for the last end that was reported, unless it is that all octets were moved.
    pub fn cause(&self) -> Option<EndCause>
        ensures cause { result ≡ self.now.cause }
    {
        self.cause
    }

    /// Number of octets that the transfer had moved whose end was reported last.
    pub fn moved(&self) -> u64
        ensures moved { result ≡ self.now.moved }
    {
        self.moved
    }

    // Takes the port that is kept, or leases another one and listens on it.
    fn find_port(&mut self) -> Option<LeasedPort>
        ensures none { self.new.kept ≡ without_port self.old.kept }
        ensures prepared { self.new.prepared ≡ self.old.prepared }
        ensures running { self.new.run.running ≡ self.old.run.running }
        ensures cause { self.new.cause ≡ self.old.cause }
        ensures payer { self.new.run.payer ≡ self.old.run.payer }
    {
        match self.take_kept() {
            Some(found) => Some(found),
            None => self.listening(),
        }
    }

    /// Listens on a passive port, that which is kept or another one, if one is free. The next look reports it. No
    /// connection waits there that was made before this call.
    pub fn open_passive(&mut self)
        ensures ready { self.new.ready ≡ Some (port_in self.new.prepared) }
        ensures prepared { IsNoTarget self.new.prepared }
        ensures running { self.new.run.running ≡ self.old.run.running }
        ensures kept { self.new.kept ≡ without_port self.old.kept }
        ensures payer { self.new.run.payer ≡ self.old.run.payer }
    {
        self.drop_data();
        match self.find_port() {
            Some(port) => {
                self.ready = Some(Some(port.number()));
                self.prepare(Preparation::Listening(port));
            }
            None => self.ready = Some(None),
        }
    }

    /// Makes the next transfer connect to this port. Keeps no port of its own.
    pub fn connect_to(&mut self, to: HostPort)
        ensures prepared { self.new.prepared ≡ Preparation.Target to }
        ensures running { self.new.run.running ≡ self.old.run.running }
        ensures ready { self.new.ready ≡ self.old.ready }
        ensures kept { self.new.kept ≡ without_port self.old.kept }
        ensures payer { self.new.run.payer ≡ self.old.run.payer }
    {
        self.drop_data();
        let kept = self.kept.take();
        self.close(kept);
        self.prepare(Preparation::Target(to));
    }

    // Hands a transfer to the lanes.
    fn hand_over(&mut self, stream: TcpStream, job: Job<Global, S::Source, S::Sink>)
        requires nothing { self.old.run.running ≡ SideTransfer.Nothing }
        ensures running { IsHandedOver job self.new.run.running }
        ensures prepared { self.new.prepared ≡ self.old.prepared }
        ensures ready { self.new.ready ≡ self.old.ready }
        ensures kept { self.new.kept ≡ self.old.kept }
        ensures payer { self.new.run.payer ≡ self.old.run.payer }
    {
        if is_upload(&job) {
            let _ = stream.set_read_timeout(Some(Duration::from_millis(STANDSTILL)));
        }
        match DataConnection::new(self.rt.alloc(), stream) {
            Ok(own) => match own.another() {
                Ok(theirs) => self.put(own, theirs, job),
                Err(_) => self.end_unbegun(job),
            },
            Err(_) => self.end_unbegun(job),
        }
    }

    // Hands the transfer of a client that has connected to its port to the lanes.
    fn hand_over_to(&mut self, client: PeerConnection, job: Job<Global, S::Source, S::Sink>)
        requires nothing { self.old.run.running ≡ SideTransfer.Nothing }
        requires peer { client.peer ≡ self.old.client.wanted }
        ensures running { IsHandedOver job self.new.run.running }
        ensures prepared { self.new.prepared ≡ self.old.prepared }
        ensures ready { self.new.ready ≡ self.old.ready }
        ensures kept { self.new.kept ≡ self.old.kept }
        ensures payer { self.new.run.payer ≡ self.old.run.payer }
    {
        self.hand_over(client.into_stream(), job);
    }

    // Ends a transfer for which there is no memory.
    fn end_unbegun(&mut self, job: Job<Global, S::Source, S::Sink>)
        requires nothing { self.old.run.running ≡ SideTransfer.Nothing }
        ensures running { self.new.run.running ≡ over NoMemory job }
        ensures cause { self.new.cause ≡ Some cause.NoMemory }
        ensures prepared { self.new.prepared ≡ self.old.prepared }
        ensures ready { self.new.ready ≡ self.old.ready }
        ensures kept { self.new.kept ≡ self.old.kept }
        ensures payer { self.new.run.payer ≡ self.old.run.payer }
    {
        self.cause = Some(EndCause::NoMemory);
        self.run.begin(over(End::NoMemory, job));
    }

    // Puts a transfer on the ticket. A brief download is run here, if it can be; the lanes run any other.
    fn put(
        &mut self,
        own: DataConnection,
        theirs: DataConnection,
        job: Job<Global, S::Source, S::Sink>,
    )
        requires nothing { self.old.run.running ≡ SideTransfer.Nothing }
        ensures running { self.new.run.running ≡ SideTransfer.Moving own false }
        ensures prepared { self.new.prepared ≡ self.old.prepared }
        ensures ready { self.new.ready ≡ self.old.ready }
        ensures cause { self.new.cause ≡ self.old.cause }
        ensures kept { self.new.kept ≡ self.old.kept }
        ensures payer { self.new.run.payer ≡ self.old.run.payer }
    {
        let is_brief = is_brief(&job);
        if self.run.put(own, theirs, job, self.session) {
            if is_brief && self.runs.run_here(self.session, self.run.payer) {
                return;
            }
            self.list();
        }
        self.house.jobs.signal_one();
    }

    // Appends the number of the ticket to those with a transfer that waits: to those that go first, if something is
    // guaranteed to the user. There is room for each number once.
    fn list(&self) {
        let goes_first = self
            .house
            .floors
            .lock(self.rt)
            .has_guarantee(self.run.payer);
        let mut pass = self.house.pass.lock(self.rt);
        let _ = self
            .house
            .board
            .push(self.rt, &mut *pass, self.session, goes_first);
    }

    // Ends a transfer that got no data connection.
    fn end_without(&mut self, why: EndCause, job: Job<Global, S::Source, S::Sink>)
        requires nothing { self.old.run.running ≡ SideTransfer.Nothing }
        ensures running { self.new.run.running ≡ over NoConnection job }
        ensures cause { self.new.cause ≡ Some why }
        ensures prepared { self.new.prepared ≡ self.old.prepared }
        ensures ready { self.new.ready ≡ self.old.ready }
        ensures kept { self.new.kept ≡ self.old.kept }
        ensures payer { self.new.run.payer ≡ self.old.run.payer }
    {
        self.cause = Some(why);
        self.run.begin(over(End::NoConnection, job));
    }

    // Checks once, at this moment, whether the client has connected to its port. The port is then kept, if ports are.
    fn await_client(
        &mut self,
        port: LeasedPort,
        job: Job<Global, S::Source, S::Sink>,
        since: u64,
        now: u64,
    )
        requires nothing { self.old.run.running ≡ SideTransfer.Nothing }
        ensures running { IsAwaited port job since now self.new.run.running }
        ensures prepared { self.new.prepared ≡ self.old.prepared }
        ensures ready { self.new.ready ≡ self.old.ready }
        ensures kept { Keeps self.old.kept port self.new.run.running self.new.kept }
        ensures payer { self.new.run.payer ≡ self.old.run.payer }
    {
        match self.client.take(port.listener()) {
            Some(connection) => {
                let closed = self.kept.keep(port);
                self.close(closed);
                self.hand_over_to(connection, job);
            }
            None => {
                if has_passed(since, now, PATIENCE) {
                    self.close(Some(port));
                    let why = self.client.absence();
                    self.end_without(why, job);
                } else {
                    self.run.begin(SideTransfer::Awaited { port, job, since });
                }
            }
        }
    }

    // Checks once, at this moment, whether the client's port has answered.
    fn await_answer(
        &mut self,
        outgoing: Outgoing,
        job: Job<Global, S::Source, S::Sink>,
        since: u64,
        now: u64,
    )
        requires nothing { self.old.run.running ≡ SideTransfer.Nothing }
        ensures running { IsConnecting job since now self.new.run.running }
        ensures prepared { self.new.prepared ≡ self.old.prepared }
        ensures ready { self.new.ready ≡ self.old.ready }
        ensures kept { self.new.kept ≡ self.old.kept }
        ensures payer { self.new.run.payer ≡ self.old.run.payer }
    {
        match outgoing.progress() {
            Progress::Connected(stream) => self.hand_over(stream, job),
            Progress::Failed(error) => self.end_without(EndCause::NotConnected(error), job),
            Progress::Pending(outgoing) => {
                if has_passed(since, now, CONNECTING) {
                    let error = io::Error::from(ErrorKind::TimedOut);
                    self.end_without(EndCause::NotConnected(error), job);
                } else {
                    self.run.begin(SideTransfer::Connecting {
                        outgoing,
                        job,
                        since,
                    });
                }
            }
        }
    }

    // Begins a connection to a client's port, at this moment.
    fn connect(&mut self, to: HostPort, job: Job<Global, S::Source, S::Sink>, now: u64)
        requires nothing { self.old.run.running ≡ SideTransfer.Nothing }
        ensures running { Starts (Preparation.Target to) job now self.new.run.running }
        ensures prepared { self.new.prepared ≡ self.old.prepared }
        ensures ready { self.new.ready ≡ self.old.ready }
        ensures kept { self.new.kept ≡ self.old.kept }
        ensures payer { self.new.run.payer ≡ self.old.run.payer }
    {
        match Outgoing::begin(self.rt, socket_address(to.address, to.port)) {
            Ok(outgoing) => self.await_answer(outgoing, job, now, now),
            Err(error) => self.end_without(EndCause::NotConnected(error), job),
        }
    }

    // Ends what runs: a session begins a transfer when the one before has ended.
    fn clear(&mut self)
        ensures running { self.new.run.running ≡ SideTransfer.Nothing }
        ensures prepared { self.new.prepared ≡ self.old.prepared }
        ensures ready { self.new.ready ≡ self.old.ready }
        ensures kept { self.new.kept ≡ self.old.kept }
        ensures payer { self.new.run.payer ≡ self.old.run.payer }
    {
        self.abort();
        self.await_end();
    }

    /// Begins a transfer of a user over the connection that was prepared, at this moment in microseconds. One that runs
    /// is ended first.
    pub fn start(&mut self, job: Job<Global, S::Source, S::Sink>, user: u32, now: u64)
        ensures running { Starts self.old.prepared job now self.new.run.running }
        ensures prepared { self.new.prepared ≡ Preparation.Nothing }
        ensures ready { self.new.ready ≡ self.old.ready }
        ensures cause { StartCause self.old.prepared self.new.cause }
        ensures kept { StartKeeps self.old.prepared self.old.kept self.new.run.running
            self.new.kept }
        ensures payer { self.new.run.payer ≡ user }
    {
        self.clear();
        self.run.charge(user);
        let prepared = mem::replace(&mut self.prepared, Preparation::Nothing);
        self.cause = None;
        match prepared {
            Preparation::Nothing => self.end_without(EndCause::NothingPrepared, job),
            Preparation::Target(to) => self.connect(to, job, now),
            Preparation::Listening(port) => self.await_client(port, job, now, now),
        }
    }

    /// Aborts the running transfer; a later look reports its end. One that waits for a lane is over at once, and one that
    /// a lane runs before its next ask, whatever its rates have left.
    pub fn abort(&mut self)
        ensures running { Aborts (owner_view self.old.run.owner) self.old.run.running
            self.new.run.running }
        ensures prepared { self.new.prepared ≡ self.old.prepared }
        ensures ready { self.new.ready ≡ self.old.ready }
        ensures cause { AbortCause self.old.run.running self.new.run.running self.old.cause
            self.new.cause }
        ensures kept { self.new.kept ≡ self.old.kept }
        ensures payer { self.new.run.payer ≡ self.old.run.payer }
    {
        let is_open = !matches!(
            &self.run.running,
            SideTransfer::Nothing | SideTransfer::Over(_)
        );
        let waited = self.run.abort();
        self.close(waited);
        if is_open && matches!(&self.run.running, SideTransfer::Over(_)) {
            self.cause = Some(EndCause::Aborted);
        }
    }

    // Takes the end of the running transfer, if it has ended. If it was aborted, the end is `Aborted` whatever the lane
    // reports. The connection is closed first, so that the client reads the end of the data no later than the reply.
    fn take_end(&mut self) -> Option<TransferEnd<S::Sink>>
        ensures running { TakesEnd (owner_view self.old.run.owner) self.old.run.running result
            self.new.run.running }
        ensures prepared { self.new.prepared ≡ self.old.prepared }
        ensures ready { self.new.ready ≡ self.old.ready }
        ensures cause { TakenCause self.old.run.running result self.old.cause self.new.cause }
        ensures moved { IsMovedBy result self.new.moved }
        ensures kept { self.new.kept ≡ self.old.kept }
        ensures payer { self.new.run.payer ≡ self.old.run.payer }
    {
        match self.run.take_end() {
            Taken::Nothing => None,
            Taken::Unbegun(reported) => {
                self.moved = reported.moved;
                Some(reported)
            }
            Taken::Reported(reported, is_aborted, fault) => {
                let TransferEnd { end, sink, moved } = reported;
                self.cause = cause_of(is_aborted, end, fault);
                self.moved = moved;
                Some(TransferEnd {
                    end: end_of(is_aborted, end),
                    sink,
                    moved,
                })
            }
        }
    }

    // Accepts the client's connection, if it has come by this moment, or takes that to its port, if it is there.
    fn go_on(&mut self, now: u64)
        ensures running { GoesOn now self.old.run.running self.new.run.running }
        ensures ticket { is_moving self.old.run.running ≡ true
            → owner_view self.new.run.owner ≡ owner_view self.old.run.owner }
        ensures prepared { self.new.prepared ≡ self.old.prepared }
        ensures ready { self.new.ready ≡ self.old.ready }
        ensures cause { GoesCause self.old.run.running self.old.cause self.new.cause }
        ensures kept { GoesKeeps self.old.run.running self.old.kept self.new.run.running
            self.new.kept }
        ensures payer { self.new.run.payer ≡ self.old.run.payer }
    {
        let Some(waiting) = self.run.take_out() else {
            return;
        };
        match waiting {
            SideTransfer::Awaited { port, job, since } => self.await_client(port, job, since, now),
            SideTransfer::Connecting {
                outgoing,
                job,
                since,
            } => self.await_answer(outgoing, job, since, now),
            SideTransfer::Over(reported) => self.run.begin(SideTransfer::Over(reported)),
            SideTransfer::Moving { .. } => unreachable!(),
            SideTransfer::Nothing => {}
        }
    }

    /// Reports a port, or the end of the transfer; `None` if there is neither by this moment, in microseconds. A
    /// client that has not connected to its port within a minute, or whose port has not answered within five seconds,
    /// is not waited for any longer. Does not wait.
    pub fn look(&mut self, now: u64) -> Option<Input<Global, S::Sink>>
        ensures port { IfSome self.old.ready (λ port. (result ≡ Some (DataReady port))
            × (self.new.run.running ≡ self.old.run.running)) }
        ensures end { IfNone self.old.ready (Looks (owner_view self.old.run.owner) now
            self.old.run.running result self.new.run.running self.new.moved) }
        ensures ready { self.new.ready ≡ None }
        ensures prepared { self.new.prepared ≡ self.old.prepared }
        ensures cause { IfNone self.old.ready
            (LookCause self.old.run.running result self.old.cause self.new.cause) }
        ensures same { IfSome self.old.ready (λ port. self.new.kept ≡ self.old.kept) }
        ensures kept { IfNone self.old.ready
            (LookKeeps self.old.run.running self.old.kept self.new.run.running self.new.kept) }
        ensures payer { self.new.run.payer ≡ self.old.run.payer }
    {
        if let Some(port) = self.ready.take() {
            return Some(Input::DataReady(port));
        }
        self.go_on(now);
        event_of(self.take_end())
    }

    /// Returns whether the end of something begun is not yet reported.
    pub fn is_busy(&self) -> bool
        ensures busy { result ≡ is_busy self.now.run.running }
    {
        !matches!(&self.run.running, SideTransfer::Nothing)
    }

    /// Waits briefly for the end of a moving transfer, or for a data connection that is late, and not for the client.
    /// Returns what the session does then: it looks at its data side if there is something to report.
    fn rest(&self) -> Beside
        ensures over { RestsOn self.now.run.running result }
    {
        match &self.run.running {
            SideTransfer::Moving { .. } => {
                after_rest(self.run.owner.rest(self.rt, Duration::from_millis(LOOK)))
            }
            SideTransfer::Over(_) => Beside::Look,
            SideTransfer::Nothing => Beside::Read,
            SideTransfer::Awaited { since, .. } | SideTransfer::Connecting { since, .. } => {
                let now = micros(self.rt);
                if has_passed(*since, now, USUAL) {
                    let pause = pause_after(now.saturating_sub(*since));
                    thread::sleep(self.rt, Duration::from_millis(pause));
                }
                Beside::Read
            }
        }
    }

    /// Waits for the client, or for what its transfer waits for, at most 200 ms, or a second once nothing came for two; and as
    /// `rest` if it cannot wait for both.
    /// Returns what the session does then.
    pub(crate) fn rest_beside(&self, client: &ControlSocket) -> Beside
        ensures over { RestsBeside self.now.run.running result }
    {
        let bell = if self.is_busy() {
            self.house.bell_of(self.session as usize)
        } else {
            None
        };
        match wait_beside(&self.run.running, client, bell, self.client.is_well()) {
            Some(next) => next,
            None => self.rest(),
        }
    }

    // Waits for the end of the running transfer and reports it.
    fn await_end(&mut self) -> Option<Input<Global, S::Sink>>
        ensures settled { Settles self.old.run.running result self.new.moved }
        ensures running { self.new.run.running ≡ SideTransfer.Nothing }
        ensures prepared { self.new.prepared ≡ self.old.prepared }
        ensures ready { self.new.ready ≡ self.old.ready }
        ensures kept { self.new.kept ≡ self.old.kept }
        ensures payer { self.new.run.payer ≡ self.old.run.payer }
    {
        let rt = self.rt;
        for _ in rt.forever() {
            match self.take_end() {
                Some(TransferEnd { end, sink, .. }) => {
                    return Some(Input::TransferEnded { end, sink });
                }
                None => {
                    if !self.is_busy() {
                        return None;
                    }
                    self.rest();
                }
            }
        }
        unreachable!()
    }

    /// Waits for the end of the running transfer and reports it; aborts it if there is no connection yet. Drops what was
    /// prepared.
    pub fn settle(&mut self) -> Option<Input<Global, S::Sink>>
        ensures settled { Settles self.old.run.running result self.new.moved }
        ensures running { self.new.run.running ≡ SideTransfer.Nothing }
        ensures prepared { self.new.prepared ≡ Preparation.Nothing }
        ensures ready { self.new.ready ≡ None }
        ensures kept { self.new.kept ≡ self.old.kept }
        ensures payer { self.new.run.payer ≡ self.old.run.payer }
    {
        self.drop_data();
        self.ready = None;
        if let SideTransfer::Awaited { .. } | SideTransfer::Connecting { .. } = &self.run.running {
            self.abort();
        }
        self.await_end()
    }

    /// Leaves the ticket to the next session. A transfer that still runs is ended, and no port is listened on.
    pub fn leave(self) {
        let mut side = self;
        side.clear();
        let SocketSide {
            rt,
            house,
            runs: _,
            client: _,
            session: _,
            run,
            prepared,
            kept,
            cause: _,
            moved: _,
            ready: _,
            port_fault: _,
        } = side;
        give_back(rt, &house.ports, prepared.into_port());
        give_back(rt, &house.ports, kept.into_port());
        give_back(rt, &house.ports, run.leave());
    }
}
