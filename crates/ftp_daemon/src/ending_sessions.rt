//! Sessions that the owner of a running server ends.

use crate::watching::OwnerSigns;
use lent_parts::PartsName;
use server_house::{House, NotEnded, ServerHooks, asked_session};
use std::alloc::Global;
use std::sync::Wait;
use virtual_tree::Store;

/// Sessions that the owner of a server asks to end.
#[derive(Drop)]
pub enum EndSign {
    /// None.
    Nothing,
    /// The request cannot be read, for this reason; none if memory ran out.
    Unread(Option<String>),
    /// The sessions of these numbers, one in each line.
    Asked(String),
}

// Tells the handler that no session ends.
fn not_ended<R, S, H, B>(rt: &R, house: &House<S, H, B>, why: NotEnded<'_>)
where
    R: Wait,
    S: Store<Global>,
    H: ServerHooks,
    B: PartsName,
{
    house.handler.lock(rt).on_not_ended(why);
}

// Asks the session of a line to end. If it is the number of no session that is there, the handler is told.
fn end_session<R, S, H, B>(rt: &R, house: &House<S, H, B>, line: &str)
where
    R: Wait,
    S: Store<Global>,
    H: ServerHooks,
    B: PartsName,
{
    let is_there = match asked_session(line) {
        Some(serial) => house.ask_end(serial),
        None => false,
    };
    if !is_there {
        not_ended(rt, house, NotEnded::NoSession(line));
    }
}

/// Asks the sessions to end that a sign names, if there is one. An empty line names none.
pub(crate) fn end_sessions<R, S, H, B, P>(rt: &R, house: &House<S, H, B>, signs: &P)
where
    R: Wait,
    S: Store<Global>,
    H: ServerHooks,
    B: PartsName,
    P: OwnerSigns,
{
    let text = match signs.to_end() {
        EndSign::Nothing => return,
        EndSign::Unread(Some(reason)) => {
            not_ended(rt, house, NotEnded::Unread(Some(reason.as_str())));
            return;
        }
        EndSign::Unread(None) => {
            not_ended(rt, house, NotEnded::Unread(None));
            return;
        }
        EndSign::Asked(text) => text,
    };
    for line in text.as_str().lines() {
        let asked = line.trim();
        if !asked.is_empty() {
            end_session(rt, house, asked);
        }
    }
}
