//! The program `sheets`: reads the words of its command line, runs their command on the files that they name, and ends
//! with its status.
#![tactic(auto)]

use sheets_program::{
    ErrorText, Exit, Machine, NOBODY_READS, Noted, as_words, line_words, null_device, run_sheets,
};
use std::io;
use std::io::Write;
use std::process::ExitCode;
use text_io::FallibleIo;

const NAME: &str = "sheets";

/// Reports the ending on standard error, and returns its status. If nobody reads the output any more, that is not
/// reported as a fault.
fn reported<W: Write>(rt: &HostRuntime, ending: &Exit<'_>, output: &FallibleIo<Noted<W>>) -> u8 {
    if output.0.is_closed() {
        return NOBODY_READS;
    }
    let reported = ErrorText {
        name: NAME,
        ending,
        output: output.0.error(),
    };
    let _ = eprint!(rt; "{reported}");
    ending.status()
}

/// Runs the command of the words after the program's name, and returns the status.
fn run_line(rt: &HostRuntime) -> u8 {
    let mut output = FallibleIo(Noted::new(io::writer(rt)));
    let texts = match line_words(rt) {
        Ok(texts) => texts,
        Err(ending) => return reported(rt, &ending, &output),
    };
    let words = match as_words(rt.alloc(), texts.as_slice()) {
        Ok(words) => words,
        Err(ending) => return reported(rt, &ending, &output),
    };
    let ending = run_sheets(
        rt.alloc(),
        words.as_slice(),
        &mut Machine { rt },
        &mut output,
    );
    reported(rt, &ending, &output)
}

fn main(rt: HostRuntime) -> ExitCode {
    let _held = (null_device(&rt), null_device(&rt), null_device(&rt));
    ExitCode::from(run_line(&rt))
}
