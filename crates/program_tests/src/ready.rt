//! The ready file of a server, by a file that counts its calls.

use crate::expect::{holds, same};
use ftpd_program::{ReadyFile, ReadyOutput, ServeFault};
use std::io;
use text_io::TextWriter;

/// A file that counts its calls, and may refuse to be made.
#[derive(Drop)]
struct Counting {
    is_there: bool,
    is_refused: bool,
    made: u8,
    removed: u8,
}

impl Counting {
    fn new(is_refused: bool) -> Counting {
        Counting {
            is_there: false,
            is_refused,
            made: 0,
            removed: 0,
        }
    }
}

impl ReadyFile for Counting {
    ghost is_there = { λ f. f.is_there };

    fn is_there(&self) -> bool {
        self.is_there
    }

    fn make(&mut self) -> io::Result<()> {
        self.made = self.made.saturating_add(1);
        if self.is_refused {
            return Err(io::Error::from_raw_os_error(17));
        }
        self.is_there = true;
        Ok(())
    }

    fn remove(&mut self) {
        self.removed = self.removed.saturating_add(1);
        self.is_there = false;
    }
}

/// Returns how often a file was made and removed, and whether it is there.
fn counts(file: &Option<Counting>) -> (u8, u8, bool) {
    match file {
        Some(file) => (file.made, file.removed, file.is_there),
        None => (0, 0, false),
    }
}

#[test]
fn a_ready_file_is_made_once(rt: HostRuntime) {
    let mut output = ReadyOutput::new(Vec::new(rt.alloc()), Some(Counting::new(false)));
    output.write_text(b"ready\n").expect(&rt, "room");
    holds(&rt, counts(&output.file) == (1, 0, true));
    output.write_text(b"settled\n").expect(&rt, "room");
    holds(&rt, counts(&output.file) == (1, 0, true));
    same(&rt, &output.output, "ready\nsettled\n");
    output.remove_file();
    holds(&rt, counts(&output.file) == (1, 1, false));
    output.remove_file();
    holds(&rt, counts(&output.file) == (1, 1, false));
    holds(
        &rt,
        output.cause(ServeFault::NoThread) == ServeFault::NoThread,
    );
}

#[test]
fn without_its_ready_file_nothing_is_written(rt: HostRuntime) {
    let mut output = ReadyOutput::new(Vec::new(rt.alloc()), Some(Counting::new(true)));
    holds(&rt, output.write_text(b"ready\n").is_err());
    holds(&rt, counts(&output.file) == (1, 0, false));
    holds(&rt, output.output.is_empty());
    output.remove_file();
    holds(&rt, counts(&output.file) == (1, 0, false));
    holds(
        &rt,
        output.cause(ServeFault::WriteFault) == ServeFault::ReadyFile,
    );
}
