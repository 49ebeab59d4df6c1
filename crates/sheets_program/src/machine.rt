//! The files of the machine that a program runs on.

use crate::files::{Opener, is_input};
use crate::noted::Noted;
use std::fs::OpenOptions;
use std::io::Read;
use std::rt::Files;
use std::{fs, io};
use text_io::FallibleIo;

/// A file, or standard input.
#[derive(Drop)]
pub enum Opened<F, I> {
    File(F),
    Input(I),
}

impl<F: Read, I: Read> Read for Opened<F, I> {
    fn read(&mut self, buffer: &mut [u8]) -> io::Result<usize> {
        match self {
            Opened::File(file) => file.read(buffer),
            Opened::Input(input) => input.read(buffer),
        }
    }
}

/// The files of the machine that the program runs on. Standard input is read as the program was given it, since a
/// process of another user may not open it anew by its path.
#[derive(Drop)]
pub struct Machine<'r, R> {
    pub rt: &'r R,
}

impl<'r, R: Files + Input> Opener for Machine<'r, R> {
    type End = FallibleIo<Noted<Opened<R::File, R::Reader>>>;

    fn open(&mut self, path: &str) -> io::Result<FallibleIo<Noted<Opened<R::File, R::Reader>>>> {
        if is_input(path) {
            return Ok(FallibleIo(Noted::new(Opened::Input(self.rt.reader()))));
        }
        let file = fs::open(self.rt, path)?;
        Ok(FallibleIo(Noted::new(Opened::File(file))))
    }

    fn reason(end: &FallibleIo<Noted<Opened<R::File, R::Reader>>>) -> Option<io::Error> {
        end.0.error()
    }
}

/// Opens the null device once. A file that is opened takes the least number that is free: opened three times, the
/// device has the numbers of standard input, output or error that were closed at the start, so that no file opened
/// later is taken for one of them.
pub fn null_device<R: Files>(rt: &R) -> Option<R::File> {
    OpenOptions::new()
        .read(true)
        .write(true)
        .open(rt, "/dev/null")
        .ok()
}
