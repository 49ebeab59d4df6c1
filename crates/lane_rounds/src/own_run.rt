//! Transfers that a session runs on its own thread.

ghost use Rattle.std.specs.Prelude.{◌≡◌};

use crate::engine::Engine;
use crate::lane::run_transfer;
use lent_parts::{LentWorker, PartsName, RoundClock};
use line_rates::Way;
use server_house::{House, SessionTicket};
use std::alloc::Global;
use std::sync::Wait;
use std::time::Clock;
use virtual_tree::Store;

// Returns whether the rates of a user's downloads have plenty left, and nobody holds a round now.
fn has_plenty<R, B, N>(rt: &R, engine: &Engine<B, N>, user: u32) -> bool
where
    R: RoundClock,
    B: PartsName,
{
    match engine.rounds.try_lock() {
        Some(rounds) => rounds.has_plenty(Way::Down, user, rt.moment().micros()),
        None => false,
    }
}

// Runs the transfer that waits on a ticket at a seat, if that is free. Returns whether it was.
fn run_at<'h, R, S, H, B, N>(
    rt: &R,
    house: &'h House<S, H, B>,
    engine: &Engine<B, N>,
    worker: &mut LentWorker<B, N>,
    ticket: &'h SessionTicket<S>,
) -> bool
where
    R: Wait + Clock + RoundClock + AllocGlobal,
    S: Store<Global>,
    H: Drop,
    B: PartsName,
{
    if !worker.is_free() {
        return false;
    }
    run_transfer(rt, house, engine, worker, ticket);
    true
}

// Runs the transfer that waits on a ticket at the first seat that is free. Returns false if none is.
fn run_at_any<'h, R, S, H, B, N>(
    rt: &R,
    house: &'h House<S, H, B>,
    engine: &Engine<B, N>,
    ticket: &'h SessionTicket<S>,
) -> bool
where
    R: Wait + Clock + RoundClock + AllocGlobal,
    S: Store<Global>,
    H: Drop,
    B: PartsName,
{
    for lane in 0..engine.seats.count() {
        if let Some(seat) = engine.seats.seat(lane) {
            if let Some(mut worker) = seat.try_lock() {
                if run_at(rt, &*house, engine, &mut *worker, &*ticket) {
                    return true;
                }
            }
        }
    }
    false
}

/// Runs the download that waits on the ticket with this number to its end, on the thread that calls, at the seat of a lane
/// that runs none: so no other thread is woken for it, and none wakes this one. Returns false, and leaves it to the lanes,
/// if no seat is free, another thread holds a round, or a rate of its user may hold it back: the thread reads nothing of
/// its client meanwhile. The number must not be on the board.
pub fn run_here<R, S, H, B, N>(
    rt: &R,
    house: &House<S, H, B>,
    engine: &Engine<B, N>,
    number: u32,
    user: u32,
) -> bool
where
    R: Wait + Clock + RoundClock + AllocGlobal,
    S: Store<Global>,
    H: Drop,
    B: PartsName,
{
    if !has_plenty(rt, engine, user) {
        return false;
    }
    match (&*house).tickets.get(number as usize) {
        Some(ticket) => run_at_any(rt, &*house, engine, ticket),
        None => false,
    }
}
