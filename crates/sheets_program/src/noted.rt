//! Ends of the machine that note its errors.

use std::io;
use std::io::{ErrorKind, Read, Write};

/// The status of a program that ends because nobody reads its output, as a shell reports one that SIGPIPE ended (128 +
/// 13).
pub const NOBODY_READS: u8 = 141;

/// A reader or writer, with the last error that it returned.
#[derive(Drop)]
pub struct Noted<E> {
    end: E,
    error: Option<io::Error>,
}

impl<E> Noted<E> {
    /// An end that has returned no error yet.
    pub fn new(end: E) -> Noted<E> {
        Noted { end, error: None }
    }

    /// The last error, if any.
    pub fn error(&self) -> Option<io::Error> {
        self.error
    }

    /// Returns whether the last error was that nobody reads the output, as of a closed pipe.
    pub fn is_closed(&self) -> bool {
        match self.error {
            Some(error) => error.kind() == ErrorKind::BrokenPipe,
            None => false,
        }
    }
}

impl<R: Read> Read for Noted<R> {
    fn read(&mut self, buffer: &mut [u8]) -> io::Result<usize> {
        let answer = self.end.read(buffer);
        if let Err(error) = answer {
            self.error = Some(error);
        }
        answer
    }
}

impl<W: Write> Write for Noted<W> {
    fn write(&mut self, octets: &[u8]) -> io::Result<usize> {
        let answer = self.end.write(octets);
        if let Err(error) = answer {
            self.error = Some(error);
        }
        answer
    }

    fn flush(&mut self) -> io::Result<()> {
        let answer = self.end.flush();
        if let Err(error) = answer {
            self.error = Some(error);
        }
        answer
    }
}
