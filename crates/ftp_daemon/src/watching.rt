//! The signs of a server's owner while it serves.

ghost use Rattle.std.specs.Prelude.{◌≡◌, Bool, true, false};
ghost use Rattle.ftp_daemon.specs.Reloading.{IsAllowed};
ghost use Rattle.ftp_daemon.specs.SameRates.{Permits};
ghost use Rattle.line_rates.specs.Rates.{Rates};

use crate::draining::{EndStep, next_due};
use crate::ending_sessions::{EndSign, end_sessions};
use crate::last_waits::{LanesAtWork, TELLS, is_told, waited_for};
use crate::reloading::{ReloadFault, ReloadSign, take};
use client_door::DoorBell;
use event_word::{has_passed, micros};
use grant_ledger::MAX_LANES;
use lane_rounds::{Engine, look};
use lent_parts::PartsName;
use round_tally::Tallies;
use server_house::{
    House, LaneLook, LaneSign, Reloaded, ServerEvent, ServerHooks, ServerLook, ServerRuntime,
    ShutdownStage,
};
use std::alloc::Global;
use std::sync::Wait;
use std::thread;
use std::time::{Clock, Duration};
use virtual_tree::Store;

/// The interval between two checks of the signs, in milliseconds.
const LOOK: u64 = 100;

/// The reason that a configuration was not taken, without memory for another.
const NO_MEMORY: &str = "out of memory";

/// The time between two looks at what goes on, in microseconds.
const SECOND: u64 = 1_000_000;

/// The signs of a server's owner: that the server is to end, such as a file that appears, or to drain, and that looks at
/// what goes on are wanted. A thread of the server sees to them. Without methods of its own an owner gives no sign.
pub trait OwnerSigns {
    /// Returns whether the server is to end. It is checked before the server begins, and ten times a second while it
    /// serves.
    fn is_up(&self) -> bool {
        false
    }

    /// Returns whether the server is to drain: it admits no more clients, each session ends once no transfer of it runs,
    /// and then the server ends. It is checked as often.
    fn is_to_drain(&self) -> bool {
        false
    }

    /// A test that the rates pass which the owner may put in force: no rates pass.
    ghost allows: { Rates → Bool } = { λ _. false };

    /// The configuration that the server is to take now, or the reason for which it takes none, if one was asked for. It
    /// is asked for as often.
    fn reload(&self) -> ReloadSign
        ensures allowed { IsAllowed allows result }
    {
        ReloadSign::Nothing
    }

    /// The server has taken the configuration. Returns what it changes, in lines; none if that is not known.
    fn taken(&self) -> Option<String> {
        None
    }

    /// The server has refused the configuration. Returns the reason in words; none if memory runs out.
    fn refused(&self, _fault: ReloadFault) -> Option<String> {
        None
    }

    /// The sessions that are to end now, if the owner asks for the end of any. It is asked for as often.
    fn to_end(&self) -> EndSign {
        EndSign::Nothing
    }

    /// Returns whether the handler is to be shown what goes on, once a second.
    fn wants_looks(&self) -> bool {
        false
    }

    /// The handler was shown what goes on. Nobody waits for this call.
    fn looked(&self) {}
}

/// An owner who gives no sign: the server ends after its number of sessions, or never.
#[derive(Drop)]
pub struct NoSigns;

impl OwnerSigns for NoSigns {}

/// Returns whether the server is to end by its owner's signs, if there are any.
pub(crate) fn is_up<P: OwnerSigns>(signs: &Option<P>) -> bool {
    match signs {
        Some(signs) => signs.is_up() || signs.is_to_drain(),
        None => false,
    }
}

/// Returns whether the handler is to be shown what goes on.
pub(crate) fn wants_looks<P: OwnerSigns>(signs: &Option<P>) -> bool {
    match signs {
        Some(signs) => signs.wants_looks(),
        None => false,
    }
}

// Looks at each lane.
fn lanes_of(signs: &[LaneSign], tallies: &Tallies) -> [LaneLook; MAX_LANES] {
    let mut lanes = [LaneLook {
        session: None,
        moved: 0,
        tally: tallies.ended(),
    }; MAX_LANES];
    for lane in 0..signs.len().min(MAX_LANES) {
        let sign = &signs[lane];
        lanes[lane] = LaneLook {
            session: sign.session(),
            moved: sign.moved(),
            tally: tallies.lane(lane),
        };
    }
    lanes
}

// Shows the handler what goes on, if no round is in the way.
fn show<R, S, H, B, N>(rt: &R, house: &House<S, H, B>, engine: &Engine<B, N>)
where
    R: Wait + Clock,
    S: Store<Global>,
    H: ServerHooks,
    B: PartsName,
{
    let Some(look) = look(rt, house, engine) else {
        return;
    };
    let lanes = lanes_of(&house.lanes, &look.tallies);
    let sessions = house.registry.lock(rt).count();
    let count = house.lanes.len().min(MAX_LANES);
    let shown = ServerLook {
        micros: micros(rt),
        sessions,
        issued: look.issued,
        ended: look.tallies.ended(),
        lanes: &lanes[..count],
    };
    house.handler.lock(rt).on_look(&shown);
}

// Begins what is due, with this number of clients: if the sessions are to end, rings the bell for the thread that accepts.
// Returns whether they are.
fn begin<R, S, H, B>(
    rt: &R,
    house: &House<S, H, B>,
    bell: &DoorBell,
    due: EndStep,
    clients: usize,
) -> bool
where
    R: Wait,
    S: Store<Global>,
    H: ServerHooks,
    B: PartsName,
{
    let clients = clients as u64;
    match due {
        EndStep::Nothing => return false,
        EndStep::Drain => {
            house.ending.begin(ShutdownStage::Drain);
            house
                .handler
                .lock(rt)
                .on_server(ServerEvent::Drains(clients));
            return false;
        }
        EndStep::End => {}
        EndStep::Cut => house
            .handler
            .lock(rt)
            .on_server(ServerEvent::DrainTimedOut(clients)),
    }
    house.ending.begin(ShutdownStage::Sessions);
    bell.ring();
    true
}

// Takes the configuration of a sign, if there is one, and tells the handler what came of it.
fn reload<R, S, H, B, N, P>(rt: &R, house: &House<S, H, B>, engine: &Engine<B, N>, signs: &P)
where
    R: Wait + AllocGlobal,
    S: Store<Global>,
    H: ServerHooks,
    B: PartsName,
    P: OwnerSigns,
    requires owner { Permits P.allows B.rates }
{
    let outcome = match signs.reload() {
        ReloadSign::Nothing => return,
        ReloadSign::Refused(reason) => Err(reason),
        ReloadSign::Asked(reload) => match take(rt, rt.alloc(), house, engine, reload) {
            Ok(()) => Ok(()),
            Err(fault) => Err(signs.refused(fault)),
        },
    };
    let outcome = match outcome {
        Ok(()) => Ok(signs.taken()),
        Err(reason) => Err(reason),
    };
    let mut handler = house.handler.lock(rt);
    match &outcome {
        Ok(Some(changes)) => handler.on_reload(Reloaded::Taken(Some(changes.as_str()))),
        Ok(None) => handler.on_reload(Reloaded::Taken(None)),
        Err(Some(reason)) => handler.on_reload(Reloaded::Refused(reason.as_str())),
        Err(None) => handler.on_reload(Reloaded::Refused(NO_MEMORY)),
    }
}

// Shows the handler what goes on, if that is wanted and a second has passed since it was due last. Returns the moment at
// which it was.
fn look_if_due<R, S, H, B, N, P>(
    rt: &R,
    house: &House<S, H, B>,
    engine: &Engine<B, N>,
    signs: &P,
    shown: u64,
    now: u64,
) -> u64
where
    R: Wait + Clock,
    S: Store<Global>,
    H: ServerHooks,
    B: PartsName,
    P: OwnerSigns,
{
    if !signs.wants_looks() || !has_passed(shown, now, SECOND) {
        return shown;
    }
    show(rt, house, engine);
    signs.looked();
    shown.saturating_add(SECOND)
}

/// Checks the signs until the sessions are to end, and shows the handler what goes on, if that is wanted. Drains the
/// server, or ends its sessions, as is due.
pub(crate) fn watch<R, S, H, B, N, P>(
    rt: &R,
    house: &House<S, H, B>,
    engine: &Engine<B, N>,
    signs: &P,
    bell: &DoorBell,
)
where
    R: ServerRuntime,
    S: Store<Global>,
    H: ServerHooks,
    B: PartsName,
    P: OwnerSigns,
    requires owner { Permits P.allows B.rates }
{
    let mut shown = micros(rt);
    let mut drained = None;
    for _ in rt.forever() {
        if house.ending.has_begun(ShutdownStage::Sessions) {
            return;
        }
        let now = micros(rt);
        let is_to_drain = drained.is_none() && signs.is_to_drain();
        let clients = house.registry.lock(rt).count();
        let next = next_due(
            signs.is_up(),
            is_to_drain,
            drained,
            clients,
            now,
            house.patience,
        );
        if next == EndStep::Drain {
            drained = Some(now);
        }
        if begin(rt, house, bell, next, clients) {
            return;
        }
        reload(rt, house, engine, signs);
        end_sessions(rt, house, signs);
        shown = look_if_due(rt, house, engine, signs, shown, now);
        thread::sleep(rt, Duration::from_millis(LOOK));
    }
    unreachable!()
}

// The number of calls of the machine that the end waits for; none once all sessions and lanes have ended.
fn calls_left<R, S, H, B>(rt: &R, house: &House<S, H, B>, at_work: &LanesAtWork) -> Option<u64>
where
    R: Wait,
    S: Store<Global>,
    H: Drop,
    B: PartsName,
{
    let have_sessions_ended = house.ending.has_begun(ShutdownStage::Lanes);
    let lanes = at_work.count();
    if have_sessions_ended && lanes == 0 {
        return None;
    }
    let sessions = house.registry.lock(rt).count() as u64;
    Some(waited_for(have_sessions_ended, sessions, lanes))
}

/// Watches the end of a server until all sessions and lanes have ended. After ten seconds, and each ten seconds from then
/// on, the handler is told the number of calls of the machine that the end waits for; it is shown what goes on as before.
pub(crate) fn watch_end<R, S, H, B, N, P>(
    rt: &R,
    house: &House<S, H, B>,
    engine: &Engine<B, N>,
    signs: &P,
    at_work: &LanesAtWork,
)
where
    R: ServerRuntime,
    S: Store<Global>,
    H: ServerHooks,
    B: PartsName,
    P: OwnerSigns,
{
    let mut told = micros(rt);
    let mut shown = told;
    for _ in rt.forever() {
        let seen = at_work.seen();
        let Some(calls) = calls_left(rt, house, at_work) else {
            return;
        };
        let now = micros(rt);
        if is_told(calls, told, now) {
            told = told.saturating_add(TELLS);
            house.handler.lock(rt).on_server(ServerEvent::Waits(calls));
        }
        shown = look_if_due(rt, house, engine, signs, shown, now);
        at_work.wait(rt, seen);
    }
    unreachable!()
}
