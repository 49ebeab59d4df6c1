//! The values that the sessions of these examples share, made once for all of them, and checks of their replies.

use crate::expect::same;
use authorizer::Authorizer;
use control_session::push_answer;
use ftp_terms::LineText;
use line_rates::Limits;
use memory_store::{MemSink, MemSource, MemStore};
use rate_floors::Floors;
use session_state::{Location, State};
use session_table::{Action, Settings};
use std::alloc::{AllocError, Global};
use std::process::Abort;
use virtual_path::VPath;

pub(crate) type Actions = Vec<Action<Global, MemSource<Global>, MemSink<Global>>>;

/// The address of the client.
pub(crate) const PEER: [u8; 4] = [127, 0, 0, 1];

/// The user ann, no guaranteed rates, an empty store, and a session that has begun.
#[derive(Drop)]
pub(crate) struct Room {
    pub users: Authorizer,
    pub floors: Floors,
    pub store: MemStore,
    pub state: State,
}

pub(crate) fn settings() -> Settings {
    Settings {
        banner: LineText::fixed("Ready"),
        login_attempts: 3,
        permits_foreign_addresses: false,
        permits_privileged_ports: false,
        address: [127, 0, 0, 1],
    }
}

fn make_users(rt: &(impl Abort + AllocGlobal)) -> Authorizer {
    let mut users = Authorizer::new(rt.alloc()).expect(rt, "memory");
    users
        .add_user("ann", "secret", "/", "elradfmw")
        .expect(rt, "a user");
    users
}

pub(crate) fn make_floors(rt: &(impl Abort + AllocGlobal)) -> Floors {
    let alloc = rt.alloc();
    let limits = Limits::of(0, 0, 0, Vec::new(alloc), Vec::new(alloc)).expect(rt, "no limits");
    Floors::of(alloc, &limits).expect(rt, "memory")
}

pub(crate) fn make_room(rt: &(impl Abort + AllocGlobal)) -> Room {
    Room {
        users: make_users(rt),
        floors: make_floors(rt),
        store: MemStore::new(rt.alloc(), 1000).expect(rt, "memory"),
        state: State::new(rt.alloc(), settings(), PEER).expect(rt, "memory"),
    }
}

/// The location of a path of a user whose home is the root.
pub(crate) fn location(rt: &(impl Abort + AllocGlobal), text: &str) -> Location {
    let alloc = rt.alloc();
    let path = VPath::root(alloc).resolve(alloc, text).expect(rt, "a path");
    let stored = path.try_clone(alloc).expect(rt, "memory");
    Location::new(path, stored)
}

/// Checks that a call succeeded, and that the replies among its actions are these.
pub(crate) fn says(
    rt: &(impl Abort + AllocGlobal),
    reported: Result<Actions, AllocError>,
    text: &str,
) {
    let actions = reported.expect(rt, "memory");
    let mut octets = Vec::new(rt.alloc());
    for action in actions {
        if let Action::Say(answer) = action {
            push_answer(&mut octets, answer).expect(rt, "memory");
        }
    }
    same(rt, octets.as_slice(), text.as_bytes());
}
