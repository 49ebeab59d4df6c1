//! Expectations and asks of the tests.

ghost use Rattle.std.specs.Prelude.{IsTrue};

use grant_ledger::BookName;
use line_rates::{Ask, Limits, UserRate, Way};
use std::process::Abort;

/// Stops the test if this is false.
pub(crate) fn holds(rt: &impl Abort, fact: bool)
    ensures so { IsTrue fact }
{
    assert!(rt; fact);
}

/// The name of the tests' books.
#[derive(Clone, Copy)]
pub(crate) struct OfTest;

impl BookName for OfTest {}

/// An ask of a user in their only session, down.
pub(crate) fn down(user: u32, want: u64) -> Ask {
    session_down(user, 0, want)
}

/// An ask of one of a user's sessions, down.
pub(crate) fn session_down(user: u32, session: u32, want: u64) -> Ask {
    Ask {
        user,
        session,
        way: Way::Down,
        want,
    }
}

/// Limits with the server's rate alone, and a guarantee of downloads for each session of user 0.
pub(crate) fn limits(rt: &(impl Abort + AllocGlobal), server: u64, floor: u64) -> Limits {
    let mut users = Vec::new(rt.alloc());
    if floor > 0 {
        users
            .push(UserRate {
                user: 0,
                group: None,
                down: 0,
                up: 0,
                session_down: 0,
                session_up: 0,
                session_down_floor: floor,
                session_up_floor: 0,
            })
            .expect(rt, "memory");
    }
    Limits::of(server, 0, 0, Vec::new(rt.alloc()), users).expect(rt, "limits")
}
