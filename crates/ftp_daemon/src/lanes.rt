//! The threads of lanes and rounds.

ghost use Rattle.std.specs.Thread.{IsSend, IsSync};

use crate::accepting::accept_all;
use crate::crew::{Crew, HasHouse};
use crate::listening::Entrance;
use client_door::{ClientDoor, DoorBell};
use ftpd_program::ServeFault;
use lent_parts::PartsName;
use recorded_store::Recorder;
use server_house::{House, OwnRuns, ServerHooks, ServerRuntime};
use std::alloc::Global;
use std::sync::Wait;
use std::thread;
use std::thread::{Builder, Threads};
use text_io::TextWriter;
use virtual_tree::Store;

/// The stack of each of these threads, in octets.
const STACK: usize = 262_144;

/// The line written once clients may connect.
const READY: &[u8] = b"ready\n";

// Writes `ready`, and serves clients. Returns once all sessions have ended.
fn serve_clients<R, S, H, B, T, W>(
    rt: &R,
    house: &House<S, H, B>,
    runs: &T,
    door: ClientDoor,
    bell: &DoorBell,
    writer: &mut W,
) -> Result<(), ServeFault>
where
    R: Threads + ServerRuntime + Copy + Send + Sync,
    S: Store<Global> + Recorder + Send + Drop,
    S::Source: Send,
    S::Sink: Send,
    H: ServerHooks + Send,
    B: PartsName + Send + Sync,
    T: OwnRuns + Sync,
    W: TextWriter,
{
    if writer.write_text(READY).is_err() {
        return Err(ServeFault::WriteFault);
    }
    accept_all(rt, house, runs, door, bell);
    Ok(())
}

// Runs lanes and rounds, and checks for the stop sign, while clients are served. Returns once all threads have ended.
// Nobody is served if one of these threads could not be started, or `ready` could not be written.
fn run_threads<R, T, F>(rt: &R, crew: &T, bell: &DoorBell, clients: F) -> Result<(), ServeFault>
where
    R: Threads + Wait,
    T: Crew + Sync,
    F: FnOnce() -> Result<(), ServeFault>,
    requires clients { F.pre clients }
{
    thread::scope(
        thread::scope_env(),
        rt,
        |scope| -> Result<(), ServeFault>
            requires { IsSync T.row × F.pre clients }
        {
            let mut all_work = Builder::new()
                .stack_size(STACK)
                .spawn_scoped(scope, move || crew.keep_rounds())
                .is_ok();
            for lane in 0..crew.lanes() {
                let started = Builder::new()
                    .stack_size(STACK)
                    .spawn_scoped(scope, move || crew.work(lane));
                if started.is_err() {
                    all_work = false;
                }
            }
            let started = Builder::new()
                .stack_size(STACK)
                .spawn_scoped(scope, move || crew.watch(bell));
            if started.is_err() {
                all_work = false;
            }
            let served = if all_work {
                clients()
            } else {
                Err(ServeFault::NoThread)
            };
            crew.end_lanes();
            served
        },
    )
}

/// Runs lanes and rounds, and serves the clients of a door with the parts that the crew works with.
pub(crate) fn serve_crew<R, S, H, B, T, W>(
    rt: &R,
    crew: &T,
    entrance: Entrance,
    writer: &mut W,
) -> Result<(), ServeFault>
where
    R: Threads + ServerRuntime + Copy + Send + Sync,
    S: Store<Global> + Recorder + Send + Drop,
    S::Source: Send,
    S::Sink: Send,
    H: ServerHooks + Send,
    B: PartsName + Send + Sync,
    T: Crew + OwnRuns + HasHouse<S, H, B> + Sync,
    W: TextWriter,
{
    let house = crew.house();
    let Entrance { door, bell } = entrance;
    run_threads(
        rt,
        crew,
        &bell,
        || -> Result<(), ServeFault>
            requires { IsSync R.row × IsSend R.row × IsSend S.row × IsSend S.Source.row
                × IsSend S.Sink.row × IsSend H.row × IsSync T.row }
        { serve_clients(rt, house, crew, door, &bell, writer) },
    )
}
