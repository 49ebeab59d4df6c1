//! The readers' ends that lines are written to.

use crate::rounds::{Readiness, readiness_of};
use libc::types::pollfd;

/// A reader's end, such as standard error.
pub trait LineOutlet {
    /// Returns whether octets can be written without waiting for a reader, and waits at most this time for it, in
    /// milliseconds.
    fn readiness(&mut self, millis: u16) -> Readiness;

    /// Writes some of these octets. Returns their number; 0 if none could be written. They begin a line unless `goes_on`.
    fn write(&mut self, octets: &[u8], goes_on: bool) -> usize;

    /// Follows its file, if it has one and that was moved away. Returns whether what is written from now on goes to
    /// another file. It is asked if a line that has begun cannot go on.
    fn follow(&mut self) -> bool {
        false
    }
}

/// Standard error of the process.
#[derive(Clone, Copy, Debug)]
pub struct StandardError;

impl LineOutlet for StandardError {
    fn readiness(&mut self, millis: u16) -> Readiness {
        let mut asked = [pollfd {
            fd: libc::STDERR_FILENO,
            events: libc::net::POLLOUT,
            revents: 0,
        }];
        let answer = libc::net::poll(&mut asked, i32::from(millis));
        readiness_of(answer, asked[0].revents)
    }

    fn write(&mut self, octets: &[u8], _goes_on: bool) -> usize {
        usize::try_from(libc::write(libc::STDERR_FILENO, octets)).unwrap_or(0)
    }
}
