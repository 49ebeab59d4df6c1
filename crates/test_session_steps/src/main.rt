//! The program `test_session_steps`: it passes inputs to a session, one for each line of standard input, and prints the
//! result of each. It is no part of the server: with it, the stored runs of `runs/session_rows.toml` and
//! `tools/random-sessions` compare the session with the session table, worked by hand and read a second time.
//!
//! A line that begins with a colon is a word for the program (`words.rt`), any other a line of the client. Actions are
//! printed on lines that end with CR LF: replies as they are, and other actions in brackets (`reported.rt`). `:talk` begins
//! a whole control session, which the loop of the server runs on a host of this program (`stage.rt`): the events
//! between lines come when a word says so.
#![tactic(auto)]

mod fault;
mod hall;
mod made;
mod reported;
mod room;
mod stage;
mod words;

use crate::fault::Fault;
use crate::hall::Hall;
use crate::made::make_users;
use crate::room::Room;
use crate::stage::Stage;
use authorizer::Authorizer;
use std::io::{self, BufRead, BufReader, Write};
use std::process::ExitCode;

/// Prints the first actions, and then those of each line.
fn play_lines<R: BufRead, W: Write>(stage: &mut Stage<R, W>, room: &mut Room) -> Result<(), Fault> {
    for _ in 0..u64::MAX {
        stage.print()?;
        if !stage.next_line()? {
            return Ok(());
        }
        let line = stage.take_line();
        room.play(stage, line.as_slice())?;
    }
    Ok(())
}

/// Runs one session after another in a room, for these users, by standard input.
fn play_in<R: Input + Print + AllocGlobal>(
    rt: &R,
    room: &mut Room,
    users: Authorizer,
) -> Result<(), Fault> {
    let hall = Hall::new(rt.alloc(), users.number("ann").unwrap_or(0))?;
    let reader = BufReader::new(rt.alloc(), rt.reader())?;
    let mut stage = Stage::new(hall, users, reader, io::writer(rt));
    room.greet(&mut stage)?;
    play_lines(&mut stage, room)
}

fn play<R: Input + Print + AllocGlobal>(rt: &R) -> Result<(), Fault> {
    let mut room = Room::new(rt.alloc())?;
    play_in(rt, &mut room, make_users(rt.alloc())?)
}

fn main(rt: HostRuntime) -> ExitCode {
    match play(&rt) {
        Ok(()) => ExitCode::SUCCESS,
        Err(fault) => {
            let _ = eprintln!(rt; "test_session_steps: {fault}");
            ExitCode::FAILURE
        }
    }
}
