//! Waits for one of two descriptors.

use crate::heard::{Heard, heard_by};
use libc::net::{POLLIN, POLLOUT};
use libc::types::pollfd;
use std::os::fd::{AsRawFd, RawFd};

// Waits until the door has these events, or there is something to read at the bell, at most this time, in milliseconds.
fn polled(door: RawFd, events: i16, bell: RawFd, millis: u16) -> Heard {
    let mut asked = [
        pollfd {
            fd: door,
            events,
            revents: 0,
        },
        pollfd {
            fd: bell,
            events: POLLIN,
            revents: 0,
        },
    ];
    let answer = libc::net::poll(&mut asked, i32::from(millis));
    heard_by(answer, asked[0].revents, asked[1].revents)
}

/// Waits until somebody may be at a door, or a bell was rung, at most this time, in milliseconds. A client's socket is a
/// door at which it knocks once it has sent something or is gone; and it may be the bell of whoever waits at another.
pub fn await_either<D: AsRawFd, B: AsRawFd>(door: &D, bell: &B, millis: u16) -> Heard {
    polled(door.as_raw_fd(), POLLIN, bell.as_raw_fd(), millis)
}

/// The same at a connection that was begun: it knocks once it is there, or has failed.
pub fn await_answer<D: AsRawFd, B: AsRawFd>(begun: &D, bell: &B, millis: u16) -> Heard {
    polled(begun.as_raw_fd(), POLLOUT, bell.as_raw_fd(), millis)
}
