//! One server, from its parts to their settlement.

ghost use Rattle.std.specs.Prelude.{◌≡◌, ◌+◌, true, IfErr, length};
ghost use Rattle.lent_parts.specs.Names.{IsBoardOf, IsNamed};
ghost use Rattle.lent_parts.specs.Rooms.{HasRoom};
ghost use Rattle.line_rates.specs.Rates.{Rates};
ghost use Rattle.paced_rounds.specs.Allowed.{AreAllowed};
ghost use Rattle.paced_rounds.specs.Settled.{rounds_of};
ghost use Rattle.round_pace.specs.Earned.{tick_of};
ghost use Rattle.round_pace.specs.Histories.{rates_of};
ghost use Rattle.round_pace.specs.Paced.{IsPacedFrom};
ghost use Rattle.ftp_daemon.specs.Boards.{ArePassesOf};
ghost use Rattle.ftp_daemon.specs.SameRates.{Permits};

use crate::lanes::serve_crew;
use crate::last_waits::{LanesAtWork, ToldHandler};
use crate::listening::Entrance;
use crate::opening::{Allocated, Line, NewBoards, Service, allocate};
use crate::settling::settle_unlent;
use crate::watching::{OwnerSigns, wants_looks};
use event_word::{EventCount, SharedEventCount};
use ftpd_program::ServeFault;
use lane_desk::Rounds;
use lane_rounds::Engine;
use lent_parts::{
    LentBoard, LentDesk, LentPass, LentRounds, LentSeats, Moment, PartsName, RoundClock,
};
use paced_rounds::Settlement;
use recorded_store::Recorder;
use round_cadence::Cadence;
use round_pace::{Pace, histories_keep_rates};
use server_house::{House, ServerHooks, ServerRuntime, ServerShutdown, SharedTerms};
use std::alloc::Global;
use std::sync::{Mutex, Wait};
use std::thread::Threads;
use std::time::Clock;
use text_io::TextWriter;
use virtual_tree::Store;

/// A server whose parts have a name: what its threads share. It cannot be dropped.
pub(crate) struct Server<R, S, H, B, N, P>
where
    R: RoundClock,
    S: Store<Global>,
    H: Drop,
    B: PartsName,
    P: OwnerSigns,
{
    pub(crate) rt: R,
    pub(crate) house: House<S, H, B>,
    pub(crate) engine: Engine<B, N>,
    /// The passes with which lanes take transfers: each takes one as it begins.
    pub(crate) passes: Mutex<Vec<LentPass<B, u32>>>,
    /// The signs of the owner, if there are any.
    pub(crate) signs: Option<P>,
    /// The lanes that have not ended.
    pub(crate) at_work: LanesAtWork,
    ghost owner: { Permits P.allows B.rates },
}

// Lends a line: its seats, for which there is room, its desk, and its rounds at a pace that was made at this moment, with
// the beats of its rows. If the server is watched, what holds transfers back is counted.
fn lend_line<B: PartsName, N>(
    line: Line<N>,
    pace: Pace,
    cadence: Cadence,
    begun: Moment,
    is_watched: bool,
    lent: &mut LentSeats<B, N>,
) -> (LentDesk<B, N>, LentRounds<B, N>)
    requires desk { IsNamed B.desk B.lanes line.desk }
    requires carried { line.book.issued ≡ B.carried }
    requires new { (rates : Rates) × IsPacedFrom (tick_of begun.micros) rates pace }
    requires rated { B.rates (rates_of pace) ≡ true }
    requires room { HasRoom (length line.seats.items) lent.old }
{
    let Line {
        desk,
        round,
        seats,
        book,
        mut tally,
        room,
    } = line;
    room.destroy_empty();
    lent.lend(seats, &mut tally);
    let rounds = Rounds::new(round, book, tally);
    (
        LentDesk::new(desk),
        LentRounds::new(rounds, pace, cadence, begun, is_watched),
    )
}

impl<R, S, H, B, N, P> Server<R, S, H, B, N, P>
where
    R: ServerRuntime + RoundClock + Copy,
    S: Store<Global> + Drop,
    H: Drop,
    B: PartsName,
    P: OwnerSigns + Drop,
{
    /// The server of a desk and boards of this name. If it cannot be opened, the desk is settled.
    pub(crate) fn open(
        rt: &R,
        service: Service<S, H, P>,
        boards: NewBoards,
        line: Line<N>,
    ) -> Result<Self, (Settlement<N>, ServeFault)>
        requires desk { IsNamed B.desk B.lanes line.desk }
        requires first { IsBoardOf B.first boards.first }
        requires others { IsBoardOf B.board boards.others }
        requires passes { ArePassesOf B.first B.board boards.passes }
        requires rated { B.rates service.limits ≡ true }
        requires owner { Permits P.allows B.rates }
        requires carried { line.book.issued ≡ B.carried }
        ensures carried { IfErr result (λ e. e.0.carried ≡ B.carried) }
        ensures rates { IfErr result (λ e. AreAllowed B.rates (rounds_of e.0)) }
    {
        histories_keep_rates();
        let Service {
            terms,
            numbers,
            limits,
            store,
            own_stores,
            handler,
            signs,
            patience,
            user_sessions,
        } = service;
        let NewBoards {
            first,
            others,
            passes,
        } = boards;
        let seats = line.seats.len();
        match allocate::<R, S, B, N>(
            rt,
            &numbers,
            limits,
            own_stores,
            passes,
            seats,
            user_sessions,
        ) {
            Err(fault) => Err((settle_unlent(rt, line), fault)),
            Ok(made) => {
                let Allocated {
                    own_stores,
                    arrivals,
                    floors,
                    ports,
                    registry,
                    session_signs,
                    logins,
                    tickets,
                    lanes,
                    pace,
                    cadence,
                    begun,
                    pass,
                    passes,
                    mut seats,
                } = made;
                let is_watched = wants_looks(&signs);
                let (desk, rounds) = lend_line(line, pace, cadence, begun, is_watched, &mut seats);
                let house = House {
                    terms: SharedTerms::new(terms),
                    numbers,
                    patience,
                    store: Mutex::new(store),
                    own_stores,
                    arrivals,
                    floors: Mutex::new(floors),
                    handler: Mutex::new(handler),
                    ports: Mutex::new(ports),
                    registry: Mutex::new(registry),
                    signs: session_signs,
                    logins: Mutex::new(logins),
                    tickets,
                    board: LentBoard::new(first, others),
                    pass: Mutex::new(pass),
                    jobs: SharedEventCount::new(),
                    lanes,
                    waker: EventCount::new(),
                    ending: ServerShutdown::new(),
                };
                let engine = Engine {
                    desk,
                    rounds: Mutex::new(rounds),
                    seats,
                };
                Ok(Server {
                    rt: *rt,
                    house,
                    engine,
                    passes: Mutex::new(passes),
                    signs,
                    at_work: LanesAtWork::new(),
                })
            }
        }
    }
}

impl<R, S, H, B, N, P> Server<R, S, H, B, N, P>
where
    R: Threads + ServerRuntime + RoundClock + Copy + Send + Sync,
    S: Store<Global> + Recorder + Send + Drop,
    S::Source: Send,
    S::Sink: Send,
    H: ServerHooks + Send,
    B: PartsName + Send + Sync,
    N: Send + Sync,
    P: OwnerSigns + Send + Sync + Drop,
{
    /// Serves the clients of a door in threads, until all have ended.
    pub(crate) fn run<W: TextWriter>(
        &self,
        entrance: Entrance,
        writer: &mut W,
    ) -> Result<(), ServeFault> {
        serve_crew(&self.rt, self, entrance, writer)
    }
}

impl<R, S, H, B, N, P> Server<R, S, H, B, N, P>
where
    R: RoundClock + Wait + Clock + Copy + Drop,
    S: Store<Global> + Drop,
    H: ServerHooks,
    B: PartsName,
    P: OwnerSigns + Drop,
{
    /// Settles the desk, once no thread has any part of it. A part that is not in its place is told to the handler, for
    /// ever.
    pub(crate) fn settle(self) -> Settlement<N>
        ensures carried { result.carried ≡ B.carried }
        ensures rates { AreAllowed B.rates (rounds_of result) }
    {
        let Server {
            rt,
            house,
            engine,
            passes: _,
            signs: _,
            at_work: _,
        } = self;
        let mut told = ToldHandler { rt, house };
        engine.settle(&rt, &mut told)
    }
}
