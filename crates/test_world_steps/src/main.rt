//! The program `test_world_steps`: it reads events of a world of lanes and rounds, one per line of standard input, and
//! prints the answer of each. It is not part of the server: through it, the stored runs of `runs/worlds.toml` and
//! `tools/random-worlds` compare the core of sharing with the table of events, worked by hand and read a second time.
//!
//! `words.rt` has the syntax of a line. An answer is a word with its numbers, a refusal the name of the fault.
#![tactic(auto)]

mod fault;
mod room;
mod words;

use crate::fault::Fault;
use crate::room::Room;
use std::io::{self, BufRead, BufReader, Write};
use std::process::ExitCode;

fn play_lines<R: BufRead, W: Write>(
    reader: &mut R,
    writer: &mut W,
    room: &mut Room,
    line: &mut Vec<u8>,
) -> Result<(), Fault> {
    for _ in 0..u64::MAX {
        line.clear();
        if reader.read_until(b'\n', line)? == 0 {
            return Ok(());
        }
        room.play(writer, line.as_slice())?;
    }
    Ok(())
}

/// Plays one world after another in a room, from standard input.
fn play_in<R: Input + Print + AllocGlobal>(rt: &R, room: &mut Room) -> Result<(), Fault> {
    let mut reader = BufReader::new(rt.alloc(), rt.reader())?;
    let mut line = Vec::new(rt.alloc());
    play_lines(&mut reader, &mut io::writer(rt), room, &mut line)
}

fn play<R: Input + Print + AllocGlobal>(rt: &R) -> Result<(), Fault> {
    let mut room = Room::new(rt.alloc())?;
    play_in(rt, &mut room)
}

fn main(rt: HostRuntime) -> ExitCode {
    match play(&rt) {
        Ok(()) => ExitCode::SUCCESS,
        Err(fault) => {
            let _ = eprintln!(rt; "test_world_steps: {fault}");
            ExitCode::FAILURE
        }
    }
}
