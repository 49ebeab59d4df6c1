//! The clients that are connected.

ghost use Rattle.std.specs.Prelude.{◌≤◌, length};

use crate::facts::{KeptSession, StatedUser};
use server_house::ClientSession;
use std::alloc::{AllocError, Global};

// The place of a session.
fn place_of(sessions: &[KeptSession], session: u64) -> Option<usize> {
    for place in 0..sessions.len() {
        if sessions[place].session == session {
            return Some(place);
        }
    }
    None
}

// The place of the session of a connection.
fn place_at(sessions: &[KeptSession], connection: u64) -> Option<usize> {
    for place in 0..sessions.len() {
        if sessions[place].connection == connection {
            return Some(place);
        }
    }
    None
}

// The number of sessions before one, in the order of their numbers.
fn count_before(sessions: &[KeptSession], session: u64) -> usize
    ensures within { result ≤ length sessions.now }
{
    for place in 0..sessions.len() {
        if sessions[place].session > session {
            return place;
        }
    }
    sessions.len()
}

// The number of the user of a name, if there is one.
fn number_of(users: &[StatedUser], name: &str) -> Option<u32> {
    for user in users {
        if user.name.as_str() == name {
            return Some(user.number);
        }
    }
    None
}

/// A client has connected. The session that its connection had before, if one was left, is none any more. Without memory
/// for it, it has no row.
pub(crate) fn arrive(sessions: &mut Vec<KeptSession>, session: ClientSession, now: u64) {
    if let Some(place) = place_at(sessions, session.number as u64) {
        if place < sessions.len() {
            drop(sessions.remove(place));
        }
    }
    let peer = session.peer;
    let kept = KeptSession {
        session: session.serial,
        connection: session.number as u64,
        user: None,
        number: None,
        peer,
        since: now,
        active: now,
    };
    let at = count_before(sessions, kept.session);
    let _ = sessions.insert(at, kept);
}

/// A session has ended.
pub(crate) fn leave(sessions: &mut Vec<KeptSession>, session: u64) {
    if let Some(place) = place_of(sessions, session) {
        if place < sessions.len() {
            drop(sessions.remove(place));
        }
    }
}

fn copied(alloc: Global, name: &str) -> Result<String, AllocError> {
    String::from_str(alloc, name)
}

/// A user has logged in, in a session. Without memory for the name it is not known who has.
pub(crate) fn log_in(
    alloc: Global,
    sessions: &mut [KeptSession],
    users: &[StatedUser],
    session: u64,
    name: &str,
) {
    if let Some(place) = place_of(sessions, session) {
        if place < sessions.len() {
            sessions[place].user = copied(alloc, name).ok();
            sessions[place].number = number_of(users, name);
        }
    }
}

/// Whoever was logged in, in a session, has left.
pub(crate) fn log_out(sessions: &mut [KeptSession], session: u64) {
    if let Some(place) = place_of(sessions, session) {
        if place < sessions.len() {
            sessions[place].user = None;
            sessions[place].number = None;
        }
    }
}

/// A session does something at this moment.
pub(crate) fn stir(sessions: &mut [KeptSession], session: u64, now: u64) {
    if let Some(place) = place_of(sessions, session) {
        if place < sessions.len() {
            sessions[place].active = now;
        }
    }
}
