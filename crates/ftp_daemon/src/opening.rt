//! The parts that a server needs before it serves.

ghost use Rattle.std.specs.Prelude.{◌≡◌, ◌+◌, ◌≤◌, [], IfErr, IfOk, length, vec_capacity};
ghost use Rattle.lane_desk.specs.Open.{AreFresh};
ghost use Rattle.desk_rule.specs.Lanes.{posted_in};
ghost use Rattle.lane_desk.specs.Seats.{desk_id};
ghost use Rattle.lane_desk.specs.Posted.{AllAnswered};
ghost use Rattle.lane_desk.specs.Traces.{back, traces, IsRoundOf};
ghost use Rattle.lent_parts.specs.Rooms.{HasRoom};
ghost use Rattle.passive_ports.specs.Connections.{none_admitted};
ghost use Rattle.rate_floors.specs.Promises.{HasNoSessions};
ghost use Rattle.round_pace.specs.Earned.{tick_of};
ghost use Rattle.round_pace.specs.Guaranteed.{AreCounted};
ghost use Rattle.round_pace.specs.Paced.{IsPacedFrom};
ghost use Rattle.ftp_daemon.specs.Boards.{AreNewBoards, ArePassesOf};
ghost use Rattle.ftp_daemon.specs.Unheld.{IsUnheld};

use crate::settling::settle_unheld;
use client_patience::Patience;
use ftpd_program::ServeFault;
use grant_ledger::{Book, Tally};
use lane_desk::{Desk, LaneSeat, RoundDesk, Worked, open_desk};
use lent_parts::{LentPass, LentSeats, Moment, PartsName, RoundClock};
use line_rates::Limits;
use paced_rounds::Settlement;
use passive_ports::{Admissions, ConnectionLimits, PoolFault, Registry, RestingPorts};
use rate_floors::Floors;
use round_cadence::Cadence;
use round_pace::Pace;
use server_config::ServerNumbers;
use server_house::{LaneSign, Logins, SessionSign, SessionTicket, Terms};
use std::alloc::{AllocError, Global};
use std::net::TcpStream;
use std::sync::{Arc, Mutex};
use transfer_ticket::Ticket;
use transfer_worker::{BoardPass, JobBoard, open_board};
use virtual_tree::Store;

/// The parts that a caller hands to a server.
#[derive(Drop)]
pub struct Service<S: Drop, H: Drop, P: Drop> {
    /// The users, and the settings of sessions.
    pub terms: Arc<Terms>,
    pub numbers: ServerNumbers,
    pub limits: Limits,
    pub store: S,
    /// More stores over the same files, one for each connection, if they can be had: then no session waits for a call
    /// of another's.
    pub own_stores: Vec<S>,
    /// The owner's callbacks.
    pub handler: H,
    /// The signs of the owner, if there are any.
    pub signs: Option<P>,
    /// The limits of time for clients.
    pub patience: Patience,
    /// The greatest number of sessions in which one user is logged in; 0 is no limit.
    pub user_sessions: u32,
}

fn new_tickets<S: Store<Global>>(
    alloc: Global,
    count: usize,
) -> Result<Vec<SessionTicket<S>>, AllocError> {
    let mut tickets = Vec::with_capacity(alloc, count)?;
    for _ in 0..count {
        tickets.push(Ticket::new(alloc)?)?;
    }
    Ok(tickets)
}

fn new_signs(alloc: Global, count: usize) -> Result<Vec<SessionSign>, AllocError> {
    let mut signs = Vec::with_capacity(alloc, count)?;
    for _ in 0..count {
        signs.push(SessionSign::new())?;
    }
    Ok(signs)
}

fn new_lanes(alloc: Global, count: usize) -> Result<Vec<LaneSign>, AllocError> {
    let mut lanes = Vec::with_capacity(alloc, count)?;
    for _ in 0..count {
        lanes.push(LaneSign::new())?;
    }
    Ok(lanes)
}

// Each store behind a lock.
fn locked<S: Drop>(alloc: Global, stores: Vec<S>) -> Result<Vec<Mutex<S>>, AllocError> {
    let mut locked = Vec::with_capacity(alloc, stores.len())?;
    for store in stores {
        locked.push(Mutex::new(store))?;
    }
    Ok(locked)
}

fn new_arrivals(alloc: Global, count: usize) -> Result<Vec<Mutex<Option<TcpStream>>>, AllocError> {
    let mut arrivals = Vec::with_capacity(alloc, count)?;
    for _ in 0..count {
        arrivals.push(Mutex::new(None))?;
    }
    Ok(arrivals)
}

fn new_ports(alloc: Global, numbers: &ServerNumbers) -> Result<RestingPorts, ServeFault> {
    match RestingPorts::new(alloc, numbers.passive_first, numbers.passive_last) {
        Ok(ports) => Ok(ports),
        Err(PoolFault::EmptyRange) => Err(ServeFault::Bind),
        Err(PoolFault::Memory) => Err(ServeFault::Memory),
    }
}

/// The greatest number of users, and of groups, that have beats of their own.
const MOST_BEATS: usize = 65_536;

/// Beats for each user and each group with rates: their numbers rise, so the last has the greatest.
pub(crate) fn new_cadence(alloc: Global, limits: &Limits) -> Result<Cadence, AllocError> {
    let users = match limits.users().last() {
        Some(row) => row.user as usize + 1,
        None => 0,
    };
    let groups = match limits.groups().last() {
        Some(row) => row.group as usize + 1,
        None => 0,
    };
    Cadence::new(alloc, users.min(MOST_BEATS), groups.min(MOST_BEATS))
}

// The limits to connections that a configuration states.
fn connection_limits(numbers: &ServerNumbers) -> ConnectionLimits
    ensures limits { (result.max ≡ numbers.now.max_cons)
        × (result.max_of_address ≡ numbers.now.max_cons_per_address) }
{
    ConnectionLimits {
        max: usize::from(numbers.max_cons),
        max_of_address: usize::from(numbers.max_cons_per_address),
    }
}

// No connections, and these limits to them.
fn admissions(alloc: Global, limits: ConnectionLimits) -> Result<Admissions, AllocError>
    ensures none { IfOk result (λ a. (a.registry ≡ none_admitted limits.max limits.max_of_address)
        × (a.limits ≡ limits)) }
{
    let registry = Registry::new(alloc, limits.max, limits.max_of_address)?;
    Ok(Admissions { registry, limits })
}

/// The parts of a server that are allocated beside its line. They cannot be dropped.
pub(crate) struct Allocated<S: Store<Global>, B: PartsName, N> {
    pub(crate) own_stores: Vec<Mutex<S>>,
    pub(crate) arrivals: Vec<Mutex<Option<TcpStream>>>,
    pub(crate) floors: Floors,
    pub(crate) ports: RestingPorts,
    pub(crate) registry: Admissions,
    pub(crate) session_signs: Vec<SessionSign>,
    pub(crate) logins: Logins,
    pub(crate) tickets: Vec<SessionTicket<S>>,
    pub(crate) lanes: Vec<LaneSign>,
    pub(crate) pace: Pace,
    /// The beats of the pace's rows.
    pub(crate) cadence: Cadence,
    /// The moment at which the pace was made.
    pub(crate) begun: Moment,
    /// The passes of sessions, and those of lanes.
    pub(crate) pass: LentPass<B, u32>,
    pub(crate) passes: Vec<LentPass<B, u32>>,
    /// Room for the seats of the lanes.
    pub(crate) seats: LentSeats<B, N>,
}

/// The passes of two boards that were just opened, as many of each.
#[derive(Drop)]
pub(crate) struct NewPasses {
    /// Those of the board of transfers that go first.
    pub(crate) first: Vec<BoardPass<u32>>,
    /// Those of the board of all others.
    pub(crate) others: Vec<BoardPass<u32>>,
}

/// Two boards that were just opened: of transfers that go first, and of all others.
#[derive(Drop)]
pub(crate) struct NewBoards {
    pub(crate) first: JobBoard<u32>,
    pub(crate) others: JobBoard<u32>,
    pub(crate) passes: NewPasses,
}

/// Opens two boards with this many places, and this many passes of each.
pub(crate) fn open_boards(
    alloc: Global,
    places: usize,
    passes: usize,
) -> Result<NewBoards, ServeFault>
    ensures new { IfOk result AreNewBoards }
{
    let Ok((first, of_first)) = open_board(alloc, places, passes) else {
        return Err(ServeFault::Memory);
    };
    match open_board(alloc, places, passes) {
        Ok((others, of_others)) => Ok(NewBoards {
            first,
            others,
            passes: NewPasses {
                first: of_first,
                others: of_others,
            },
        }),
        Err(_) => Err(ServeFault::Memory),
    }
}

// Lends the passes of two boards, one of each at a time.
fn lend_passes<B: PartsName>(
    alloc: Global,
    passes: NewPasses,
) -> Result<Vec<LentPass<B, u32>>, AllocError>
    requires passes { ArePassesOf B.first B.board passes }
{
    let NewPasses { mut first, others } = passes;
    let mut lent = Vec::with_capacity(alloc, others.len())?;
    for pass in others {
        match first.pop() {
            Some(one) => lent.push_reserved(LentPass::new(one, pass)),
            None => {}
        }
    }
    Ok(lent)
}

// The guarantees of limits, with no session counted.
fn new_floors(alloc: Global, limits: &Limits) -> Result<Floors, AllocError>
    ensures counted { IfOk result (AreCounted limits.now) }
    ensures none { IfOk result HasNoSessions }
{
    let floors = Floors::of(alloc, limits)?;
    floors.promises_fit();
    Ok(floors)
}

/// Allocates the parts beside the line of a server, with room for this many seats. The pace takes the limits.
pub(crate) fn allocate<R, S, B, N>(
    rt: &R,
    numbers: &ServerNumbers,
    limits: Limits,
    own_stores: Vec<S>,
    passes: NewPasses,
    seats: usize,
    user_sessions: u32,
) -> Result<Allocated<S, B, N>, ServeFault>
where
    R: RoundClock + AllocGlobal,
    S: Store<Global> + Drop,
    B: PartsName,
    requires passes { ArePassesOf B.first B.board passes }
    ensures new { IfOk result (λ a. IsPacedFrom (tick_of a.begun.micros) limits a.pace) }
    ensures counted { IfOk result (λ a. AreCounted limits a.floors) }
    ensures room { IfOk result (λ a. HasRoom seats a.seats) }
{
    let alloc = rt.alloc();
    let most = usize::from(numbers.max_cons);
    let floors = new_floors(alloc, &limits)?;
    let ports = new_ports(alloc, numbers)?;
    let registry = admissions(alloc, connection_limits(numbers))?;
    let own_stores = locked(alloc, own_stores)?;
    let arrivals = new_arrivals(alloc, most)?;
    let session_signs = new_signs(alloc, most)?;
    let logins = Logins::new(alloc, most, user_sessions)?;
    let tickets = new_tickets::<S>(alloc, most)?;
    let lanes = new_lanes(alloc, usize::from(numbers.lanes))?;
    let cadence = new_cadence(alloc, &limits)?;
    let begun = rt.moment();
    let pace = Pace::of(alloc, limits, begun.micros())?;
    let mut lent = lend_passes::<B>(alloc, passes)?;
    let Some(pass) = lent.pop() else {
        return Err(ServeFault::NoThread);
    };
    Ok(Allocated {
        own_stores,
        arrivals,
        floors,
        ports,
        registry,
        session_signs,
        logins,
        tickets,
        lanes,
        pace,
        cadence,
        begun,
        pass,
        passes: lent,
        seats: LentSeats::open(alloc, seats)?,
    })
}

/// A desk that was just opened, with the book of a name, and room to gather its seats. It cannot be dropped.
pub(crate) struct Line<N> {
    pub(crate) desk: Desk<N>,
    pub(crate) round: RoundDesk<N>,
    pub(crate) seats: Vec<LaneSeat<N>>,
    pub(crate) book: Book<N>,
    pub(crate) tally: Tally<N>,
    pub(crate) room: Vec<Worked<N>>,
    ghost unmoved: { IsRoundOf desk round × (back round ≡ []) },
    ghost begun: { AllAnswered (traces round) × (posted_in (traces round) ≡ 0) },
    ghost fresh: { AreFresh (desk_id desk) desk.lanes seats.items },
    ghost reported: { book.issued ≡ tally.moved + tally.back },
    ghost empty: { (room.items ≡ []) × (length seats.items ≤ vec_capacity room) },
}

/// Opens a desk of `lanes` lanes for a book. If that fails, the book is settled.
pub(crate) fn open_line<R: RoundClock + AllocGlobal, N>(
    rt: &R,
    lanes: usize,
    book: Book<N>,
    tally: Tally<N>,
) -> Result<Line<N>, (Settlement<N>, ServeFault)>
    requires tally { book.issued ≡ tally.moved + tally.back }
    ensures book { IfOk result (λ line. line.book ≡ book) }
    ensures unheld { IfErr result (λ e. IsUnheld book.issued e.0) }
{
    let Ok(room) = Vec::with_capacity(rt.alloc(), lanes) else {
        return Err((settle_unheld(rt, book, tally), ServeFault::Memory));
    };
    match open_desk(rt.alloc(), lanes, &book) {
        Ok((desk, round, seats)) => Ok(Line {
            desk,
            round,
            seats,
            book,
            tally,
            room,
        }),
        Err(_) => {
            room.destroy_empty();
            Err((settle_unheld(rt, book, tally), ServeFault::Memory))
        }
    }
}
