//! Rounds, held by whichever lane needs one.

ghost use Rattle.std.specs.Prelude.{◌≡◌, true};
ghost use Rattle.lane_rounds.specs.Dues.{sooner};

use crate::awaiting::{Awaited, due_for, find_awaited, is_to_wait};
use crate::engine::Engine;
use grant_ledger::MAX_LANES;
use lane_desk::RoundRecord;
use lent_parts::{LentDesk, LentRounds, Moment, PartsName};
use line_rates::{Ask, Way};
use round_pace::{Due, TICK_MICROS};
use server_house::{House, LaneSign};
use std::alloc::Global;
use virtual_tree::Store;

/// Most rounds in a row that a lane holds for others.
const IN_A_ROW: usize = 4;

/// The result of trying to hold a round.
#[derive(Drop)]
pub(crate) enum Tried {
    /// It was held; the value is the waker's count before.
    Held(u64),
    /// Another thread is holding one.
    ByAnother,
    /// None may be held before this moment, in microseconds.
    NotBefore(u64),
}

// Wakes each lane that a round has answered, or that it was refused to: bit i is lane i.
fn wake_lanes(lanes: &[LaneSign], answered: u64, is_refused: bool) {
    let mut left = answered;
    for lane in lanes {
        if left % 2 == 1 {
            lane.answer(is_refused);
        }
        left /= 2;
    }
}

// The lanes that a round is of: those with a transfer whose rows are open and that waits for no other, or which is to stop.
// The ask of one that is to stop is answered too, so that its lane can leave it. A lane without a transfer is not tried. The
// signs are hints, as for `due_by`: a lane whose sign is stale is left out, or asked too early, in one round.
fn open_lanes<S: Store<Global>, H: Drop, B: PartsName, N>(
    house: &House<S, H, B>,
    rounds: &LentRounds<B, N>,
    now: u64,
) -> [bool; MAX_LANES] {
    let mut given = [false; MAX_LANES];
    let awaited = find_awaited(house, rounds);
    for lane in 0..house.lanes.len().min(MAX_LANES) {
        let sign = &house.lanes[lane];
        if let Some(session) = sign.session() {
            let (way, user) = sign.name.get();
            given[lane] = house.is_stopping(session)
                || rounds.is_open(way, user, now) && !is_to_wait(rounds, awaited, way, user, now);
        }
    }
    given
}

// Waits for none of these lanes any more: the round is held without those that have not asked.
fn leave_late(lanes: &[LaneSign], given: &[bool; MAX_LANES]) {
    for lane in 0..lanes.len().min(MAX_LANES) {
        if given[lane] {
            lanes[lane].set_awaited(false);
        }
    }
}

// The number of the transfer of each lane. A lane that asks keeps its transfer until it is answered.
fn transfers_of(lanes: &[LaneSign]) -> [u64; MAX_LANES] {
    let mut transfers = [0; MAX_LANES];
    for lane in 0..lanes.len().min(MAX_LANES) {
        transfers[lane] = lanes[lane].transfer();
    }
    transfers
}

// Returns whether the session of a lane's transfer has a guarantee, as the first round of the transfer has seen.
fn has_floor<B: PartsName, N>(rounds: &LentRounds<B, N>, sign: &LaneSign, ask: Ask) -> bool {
    match sign.has_floor() {
        Some(seen) => seen,
        None => {
            let (_, has_floor) = rounds.opening(ask.way, ask.user);
            sign.set_floor(has_floor);
            has_floor
        }
    }
}

// Tells each lane that a round has answered whether it was granted all that it asked for, whether rounds wait for its next
// ask, and one that receives whether its rates have plenty left, and whether none is a limit.
fn report_grants<B: PartsName, N>(
    lanes: &[LaneSign],
    rounds: &LentRounds<B, N>,
    record: &RoundRecord,
    now: u64,
) {
    let grants = record.sealed.grants().iter();
    for ((lane, ask), grant) in record.lanes.iter().zip(&record.asks).zip(grants) {
        if let Some(sign) = lanes.get(*lane as usize) {
            sign.set_whole(*grant >= ask.want);
            sign.set_awaited(has_floor(rounds, sign, *ask));
            if matches!(ask.way, Way::Up) {
                sign.set_plenty(rounds.has_plenty(Way::Up, ask.user, now));
                sign.set_free(rounds.is_free(Way::Up, ask.user));
            }
        }
    }
}

// Holds one round of the lanes whose transfers' rows are open. A refused one has answered each lane too, with 0 octets.
fn hold_one<S: Store<Global>, H: Drop, B: PartsName, N>(
    alloc: Global,
    house: &House<S, H, B>,
    desk: &LentDesk<B, N>,
    rounds: &mut LentRounds<B, N>,
    now: Moment,
) {
    let given = open_lanes(house, &*rounds, now.micros());
    leave_late(&house.lanes, &given);
    let transfers = transfers_of(&house.lanes);
    match rounds.hold(alloc, desk, now, &given, &transfers) {
        Ok(record) => {
            report_grants(&house.lanes, &*rounds, &record, now.micros());
            wake_lanes(&house.lanes, record.answered, false);
        }
        Err(fault) => wake_lanes(&house.lanes, fault.answered, true),
    }
}

// The sooner of two moments.
fn sooner(one: Due, other: Due) -> Due
    ensures sooner { result ≡ sooner one other }
{
    match (one, other) {
        (Due::At(one), Due::At(other)) => Due::At(one.min(other)),
        _ => Due::Now,
    }
}

// The earliest moment of a round for the worker of a lane: at once, if its transfer is to stop, and never without a
// transfer. The lane's sign is a hint: it may have the name of the worker's next transfer by now, and then a round is
// held too early or too late for this one.
fn due_at<S: Store<Global>, H: Drop, B: PartsName, N>(
    house: &House<S, H, B>,
    rounds: &LentRounds<B, N>,
    awaited: Awaited,
    sign: &LaneSign,
    now: u64,
) -> Due {
    match sign.session() {
        Some(session) if house.is_stopping(session) => return Due::Now,
        Some(_) => {}
        None => return Due::At(u64::MAX),
    }
    let (way, user) = sign.name.get();
    due_for(rounds, awaited, way, user, now)
}

// The earliest moment of a round for the worker of a lane, or for that of any.
fn due_by<S: Store<Global>, H: Drop, B: PartsName, N>(
    house: &House<S, H, B>,
    rounds: &LentRounds<B, N>,
    sign: Option<&LaneSign>,
    now: u64,
) -> Due {
    let awaited = find_awaited(house, rounds);
    match sign {
        Some(sign) => due_at(house, rounds, awaited, sign, now),
        None => {
            let mut due = Due::At(u64::MAX);
            for lane in &house.lanes {
                due = sooner(due, due_at(house, rounds, awaited, lane, now));
            }
            due
        }
    }
}

/// Holds one round at a moment, if none is being held and one is due: for the worker of the lane with
/// this sign, or for that of any lane.
pub(crate) fn try_one<S: Store<Global>, H: Drop, B: PartsName, N>(
    alloc: Global,
    house: &House<S, H, B>,
    engine: &Engine<B, N>,
    sign: Option<&LaneSign>,
    now: Moment,
) -> Tried {
    match engine.rounds.try_lock() {
        None => Tried::ByAnother,
        Some(mut guard) => match due_by(house, &*guard, sign, now.micros()) {
            Due::At(moment) => Tried::NotBefore(moment),
            Due::Now => {
                let seen = house.waker.seen();
                hold_one(alloc, house, &engine.desk, &mut *guard, now);
                Tried::Held(seen)
            }
        },
    }
}

/// Makes sure that a round is held after an ask: here, or by a thread that holds one now. Returns the moment at which
/// the lane is to look again if it has no answer by then; `None` if a round of its ask was held.
///
/// The waker is raised before the try. So if another thread has the lock, it sees that after it has released the lock,
/// and holds a round for whoever is due. The lane itself looks again a tick later: its rows may not have been open in
/// that round.
pub(crate) fn help<S: Store<Global>, H: Drop, B: PartsName, N>(
    alloc: Global,
    house: &House<S, H, B>,
    engine: &Engine<B, N>,
    sign: &LaneSign,
    now: Moment,
) -> Option<u64> {
    house.waker.raise();
    let mut seen = match try_one(alloc, house, engine, Some(sign), now) {
        Tried::Held(seen) => seen,
        Tried::ByAnother => return Some(now.micros().saturating_add(TICK_MICROS)),
        Tried::NotBefore(moment) => return Some(moment),
    };
    for _ in 1..IN_A_ROW {
        if house.waker.seen() == seen {
            return None;
        }
        match try_one(alloc, house, engine, None, now) {
            Tried::Held(next) => seen = next,
            Tried::ByAnother | Tried::NotBefore(_) => return None,
        }
    }
    house.waker.signal();
    None
}
