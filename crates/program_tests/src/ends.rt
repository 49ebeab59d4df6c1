//! Ends that read and write octets in pieces, and that fail midway.

use ftpd_program::{Lookout, Opener, STANDARD_INPUT, Sight};
use std::io;
use std::io::{ErrorKind, Read, Write};
use text_io::FallibleIo;
use virtual_path::VPath;

/// The way in which an end returns its text.
#[derive(Clone, Copy)]
pub(crate) enum Given<'t> {
    /// At once.
    Whole(&'t str),
    /// At most this number of octets at a time, and then a fault.
    Broken(&'t str, usize),
    /// Octet by octet, each after this number of interruptions.
    Interrupted(&'t str, usize),
}

/// A reader that returns at most `step` and at least one octet at a time, and then ends or fails.
#[derive(Drop)]
pub(crate) struct GivenReader<'t> {
    pub rest: &'t [u8],
    step: usize,
    fails: bool,
    shy: Shy,
}

/// The interruptions before each octet, and the number of those that are left before the next one.
#[derive(Clone, Copy)]
pub(crate) struct Shy {
    times: usize,
    left: usize,
}

impl Shy {
    pub fn by(times: usize) -> Shy {
        Shy { times, left: times }
    }

    /// Returns whether the next call is interrupted.
    fn interrupts(&mut self) -> bool {
        if self.left > 0 {
            self.left -= 1;
            return true;
        }
        self.left = self.times;
        false
    }
}

impl<'t> Given<'t> {
    pub fn reader(self) -> GivenReader<'t> {
        let (text, step, times) = match self {
            Given::Whole(text) => (text, 65_536, 0),
            Given::Broken(text, step) => (text, step, 0),
            Given::Interrupted(text, times) => (text, 1, times),
        };
        GivenReader {
            rest: text.as_bytes(),
            step,
            fails: matches!(self, Given::Broken(_, _)),
            shy: Shy::by(times),
        }
    }
}

impl Read for GivenReader<'_> {
    ghost use Rattle.std.specs.Prelude.{Some};

    ghost remaining = { λ r. Some r.rest.now };

    fn read(&mut self, buffer: &mut [u8]) -> io::Result<usize> {
        if self.shy.interrupts() {
            return Err(io::Error::from(ErrorKind::Interrupted));
        }
        let most = if self.step == 0 { 1 } else { self.step };
        let count = self.rest.len().min(most).min(buffer.len());
        if count == 0 && self.fails {
            return Err(io::Error::from(ErrorKind::ConnectionReset));
        }
        let (front, rest) = self.rest.split_at(count);
        buffer[..count].copy_from_slice(front);
        self.rest = rest;
        Ok(count)
    }
}

/// The file `file`, and standard input, if it can be opened.
#[derive(Clone, Copy)]
pub(crate) struct Files<'t> {
    pub file: Given<'t>,
    pub input: Option<Given<'t>>,
}

impl<'t> Opener for Files<'t> {
    type End = FallibleIo<GivenReader<'t>>;

    fn open(&mut self, path: &str) -> io::Result<FallibleIo<GivenReader<'t>>> {
        let given = match path {
            "file" => Some(self.file),
            STANDARD_INPUT => self.input,
            _ => None,
        };
        match given {
            Some(given) => Ok(FallibleIo(given.reader())),
            None => Err(io::Error::from(ErrorKind::NotFound)),
        }
    }

    fn reason(_end: &FallibleIo<GivenReader<'t>>) -> Option<io::Error> {
        None
    }
}

/// Nothing is to be warned of.
impl Lookout for Files<'_> {
    fn folder(&self, _path: &str) -> Sight {
        Sight::Listed
    }

    fn has_home(&self, _root: &str, _home: &VPath) -> bool {
        true
    }

    fn mode(&self, _path: &str) -> Option<u32> {
        None
    }
}

/// A writer that takes `left` octets and then fails.
#[derive(Drop)]
pub(crate) struct FailingWriter<'a> {
    pub taken: &'a mut Vec<u8>,
    pub left: usize,
}

impl Write for FailingWriter<'_> {
    fn write(&mut self, octets: &[u8]) -> io::Result<usize> {
        let count = octets.len().min(self.left);
        if count == 0 {
            return Err(io::Error::from(ErrorKind::BrokenPipe));
        }
        self.taken.extend_from_slice(&octets[..count])?;
        self.left -= count;
        Ok(count)
    }

    fn flush(&mut self) -> io::Result<()> {
        Ok(())
    }
}

/// A writer that takes one octet at a time, each after some interruptions.
#[derive(Drop)]
pub(crate) struct ShyWriter<'a> {
    pub taken: &'a mut Vec<u8>,
    pub shy: Shy,
}

impl Write for ShyWriter<'_> {
    fn write(&mut self, octets: &[u8]) -> io::Result<usize> {
        if self.shy.interrupts() {
            return Err(io::Error::from(ErrorKind::Interrupted));
        }
        let count = octets.len().min(1);
        self.taken.extend_from_slice(&octets[..count])?;
        Ok(count)
    }

    fn flush(&mut self) -> io::Result<()> {
        Ok(())
    }
}

/// A writer that takes all octets, and whose flush fails.
#[derive(Drop)]
pub(crate) struct UnflushedWriter<'a> {
    pub taken: &'a mut Vec<u8>,
}

impl Write for UnflushedWriter<'_> {
    fn write(&mut self, octets: &[u8]) -> io::Result<usize> {
        self.taken.extend_from_slice(octets)?;
        Ok(octets.len())
    }

    fn flush(&mut self) -> io::Result<()> {
        Err(io::Error::from(ErrorKind::StorageFull))
    }
}
