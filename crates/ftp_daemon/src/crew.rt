//! The work of each thread of a server.

use crate::server::Server;
use crate::watching::{OwnerSigns, watch, watch_end};
use client_door::DoorBell;
use lane_rounds::{keep_rounds, run_here, work_lane};
use lent_parts::{PartsName, RoundClock};
use server_house::{House, OwnRuns, ServerHooks, ServerRuntime, ShutdownStage};
use std::alloc::Global;
use virtual_tree::Store;

/// The work of the threads of one server. A scope of threads is lent one type for it, with one parameter: with the
/// types of all parts of a server, the prover cannot state what the scope takes.
pub(crate) trait Crew {
    /// Number of lanes.
    fn lanes(&self) -> usize;

    /// The thread of rounds.
    fn keep_rounds(&self);

    /// The thread of a lane.
    fn work(&self, lane: usize);

    /// The thread that sees to the signs of the owner; it ends at once if there are none. It rings the bell once the
    /// sessions are to end.
    fn watch(&self, bell: &DoorBell);

    /// Ends lanes and rounds: no session is left.
    fn end_lanes(&self);
}

impl<R, S, H, B, N, P> Crew for Server<R, S, H, B, N, P>
where
    R: ServerRuntime + RoundClock,
    S: Store<Global>,
    H: ServerHooks,
    B: PartsName,
    P: OwnerSigns,
{
    fn lanes(&self) -> usize {
        self.engine.seats.count()
    }

    fn keep_rounds(&self) {
        keep_rounds(&self.rt, &self.house, &self.engine);
    }

    // Each lane takes a pass of its own; there is one for each.
    fn work(&self, lane: usize) {
        let pass = self.passes.lock(&self.rt).pop();
        self.at_work.begin();
        match (self.engine.seats.seat(lane), pass) {
            (Some(seat), Some(pass)) => work_lane(&self.rt, &self.house, &self.engine, seat, pass),
            _ => {}
        }
        self.at_work.end();
    }

    fn watch(&self, bell: &DoorBell) {
        if let Some(signs) = &self.signs {
            watch(&self.rt, &self.house, &self.engine, signs, bell);
            watch_end(&self.rt, &self.house, &self.engine, signs, &self.at_work);
        }
    }

    fn end_lanes(&self) {
        self.house.ending.begin(ShutdownStage::Lanes);
        self.house.jobs.signal_all();
        self.house.waker.signal();
    }
}

impl<R, S, H, B, N, P> OwnRuns for Server<R, S, H, B, N, P>
where
    R: ServerRuntime + RoundClock,
    S: Store<Global>,
    H: Drop,
    B: PartsName,
    P: OwnerSigns,
{
    fn run_here(&self, number: u32, user: u32) -> bool {
        run_here(&self.rt, &self.house, &self.engine, number, user)
    }
}

/// The house of a crew. A function that is lent a whole server takes no house beside it: the borrow checker covers no
/// call with both.
pub(crate) trait HasHouse<S: Store<Global>, H: Drop, B: PartsName> {
    fn house(&self) -> &House<S, H, B>;
}

impl<R, S, H, B, N, P> HasHouse<S, H, B> for Server<R, S, H, B, N, P>
where
    R: RoundClock,
    S: Store<Global>,
    H: Drop,
    B: PartsName,
    P: OwnerSigns,
{
    fn house(&self) -> &House<S, H, B> {
        &self.house
    }
}
