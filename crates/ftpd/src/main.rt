//! The program `ftpd`: reads the words of its command line, runs their command on the files that they name, and ends
//! with its status.
#![tactic(auto)]

mod end_file;
mod reload_file;
mod serving;
mod signs;

use ftp_daemon::{RoundClock, ServerRuntime};
use ftpd_program::{FtpdErrorText, FtpdExit, StartFault, run_words};
use line_queue::{LineOutlet, Readiness, StandardError};
use machine_parts::{AskedServer, MachineFiles, added_up, looked_at, watched};
use serving::serve_asked;
use sheets_program::{NOBODY_READS, Noted, as_words, line_words, null_device};
use std::io;
use std::io::Write;
use std::net::{Net, TcpListener, TcpStream};
use std::process::ExitCode;
use std::sync::Wait;
use std::thread::Threads;
use std::time::Clock;
use text_io::FallibleIo;

/// Runs the command of these words, and serves what they ask for. Returns the ending, and the reason for which a server
/// did not start, if it is known.
fn run<'w, R, W>(
    rt: &R,
    machine: &HostRuntime,
    words: &'w [&'w str],
    output: &mut FallibleIo<W>,
) -> (FtpdExit<'w>, Option<StartFault>)
where
    R: Threads + ServerRuntime + RoundClock + Copy + Send + Sync + 'static,
    W: Write,
{
    if let Some(ending) = looked_at(machine, words, output) {
        return (ending, None);
    }
    let mut asked = AskedServer::new();
    let ending = run_words(
        rt.alloc(),
        words,
        &mut MachineFiles::of(machine),
        &mut asked,
        output,
    );
    match asked.into_service() {
        Some(service) => serve_asked(rt, machine, service, output),
        None => {
            let ending = added_up(machine, words, ending, output);
            (watched(machine, ending, output), None)
        }
    }
}

/// The time that the reader of standard error has to make room for the fault of a server, in milliseconds.
const LAST_ROOM: u16 = 1_000;

/// Returns whether a fault of this ending can be told: that of a server only if its reader has room for it, since a server
/// waits for no reader.
fn can_report(ending: &FtpdExit<'_>) -> bool {
    match ending {
        FtpdExit::Server(_) => StandardError.readiness(LAST_ROOM) == Readiness::Ready,
        _ => true,
    }
}

/// Reports the ending on standard error, and returns its status. If nobody reads the output any more, that is not
/// reported as a fault, except for a server, which was to go on.
fn reported<W: Write>(
    machine: &HostRuntime,
    ending: &FtpdExit<'_>,
    start: Option<&StartFault>,
    output: &FallibleIo<Noted<W>>,
) -> u8 {
    if output.0.is_closed() && !matches!(ending, FtpdExit::Server(_)) {
        return NOBODY_READS;
    }
    let reported = FtpdErrorText {
        ending,
        output: output.0.error(),
        start,
    };
    if can_report(ending) {
        let _ = eprint!(machine; "{reported}");
    }
    ending.status()
}

/// Runs the command of the words after the program's name, and returns the status.
// (The bounds name the types of sockets, which `main` needs to know.)
fn run_line<R>(rt: &R, machine: &HostRuntime) -> u8
where
    R: Threads
        + Wait
        + Clock
        + RoundClock
        + Net<Listener = TcpListener, Stream = TcpStream>
        + AllocGlobal
        + Copy
        + Send
        + Sync
        + 'static,
{
    let mut output = FallibleIo(Noted::new(io::writer(machine)));
    let texts = match line_words(machine) {
        Ok(texts) => texts,
        Err(ending) => return reported(machine, &FtpdExit::Common(ending), None, &output),
    };
    let words = match as_words(rt.alloc(), texts.as_slice()) {
        Ok(words) => words,
        Err(ending) => return reported(machine, &FtpdExit::Common(ending), None, &output),
    };
    let (ending, start) = run(rt, machine, words.as_slice(), &mut output);
    reported(machine, &ending, start.as_ref(), &output)
}

fn main(rt: HostRuntime) -> ExitCode {
    let _held = (null_device(&rt), null_device(&rt), null_device(&rt));
    ExitCode::from(run_line(&rt, &rt))
}
