//! The data side of a session without sockets: a download is read to its end, and ends as its file does.

use crate::expect::holds;
use control_session::DataSide;
use ftp_terms::DataType;
use memory_store::MemSink;
use script_session::ScriptSide;
use session_table::{End, Input, Job};
use std::alloc::Global;
use std::process::Abort;
use virtual_tree::{Source, StoreFault};

/// The end of the octets of a file.
#[derive(Clone, Copy)]
enum After {
    End,
    Fault,
    Shortage,
}

/// A file of which each read returns at most `step` octets, with the number of octets that are left.
#[derive(Drop)]
struct Long<'a> {
    left: &'a mut usize,
    step: usize,
    after: After,
}

impl Source for Long<'_> {
    ghost use Rattle.std.specs.Prelude.{None};

    ghost remaining = { λ _. None };

    fn read(&mut self, buffer: &mut [u8]) -> Result<usize, StoreFault> {
        let count = buffer.len().min(self.step).min(*self.left);
        *self.left -= count;
        if count > 0 || buffer.is_empty() {
            return Ok(count);
        }
        match self.after {
            After::End => Ok(0),
            After::Fault => Err(StoreFault::Device),
            After::Shortage => Err(StoreFault::Memory),
        }
    }
}

type Download<'a> = Job<Global, Long<'a>, MemSink<Global>>;

/// The end of a download that begins.
fn end_of(source: Long<'_>) -> Option<End> {
    let mut side = ScriptSide {
        port: 40_000,
        came: None,
    };
    let mut job: Option<Download<'_>> = Some(Job::SendFile(source, DataType::Image));
    side.start(&mut job);
    match side.came.take() {
        Some(Input::TransferEnded { end, sink: None }) => Some(end),
        _ => None,
    }
}

/// Number of octets of a file: several hundred reads of the side.
const LENGTH: usize = 70_000;

/// The most octets that a read returns, what comes after the last one, and the end.
static DOWNLOADS: [(usize, After, End); 5] = [
    (LENGTH, After::End, End::Done),
    (1, After::End, End::Done),
    (LENGTH, After::Fault, End::Local),
    (1, After::Fault, End::Local),
    (LENGTH, After::Shortage, End::NoMemory),
];

#[test]
fn downloads_are_read_to_their_end(rt: HostRuntime) {
    for (step, after, end) in &DOWNLOADS {
        let mut left = LENGTH;
        let found = end_of(Long {
            left: &mut left,
            step: *step,
            after: *after,
        });
        holds(&rt, found == Some(*end));
        holds(&rt, left == 0);
    }
}
