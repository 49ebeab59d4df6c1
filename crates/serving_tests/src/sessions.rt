//! The sessions of users, and those that are to end.

use crate::expect::holds;
use client_door::{Heard, await_either};
use server_house::{Logins, SessionSign, asked_session};
use std::process::Abort;

#[test]
fn a_user_has_two_sessions(rt: HostRuntime) {
    let mut logins = Logins::new(rt.alloc(), 4, 2).expect(&rt, "memory");
    holds(&rt, logins.log_in(0, 5));
    holds(&rt, logins.log_in(1, 5));
    holds(&rt, !logins.log_in(2, 5));
    holds(&rt, logins.log_in(2, 6));
    logins.log_out(0);
    holds(&rt, logins.log_in(3, 5));
    holds(&rt, !logins.log_in(0, 5));
}

#[test]
fn a_session_is_to_end(rt: HostRuntime) {
    let sign = SessionSign::new();
    holds(&rt, !sign.ask_end(0));
    sign.arrive(17);
    holds(&rt, !sign.ask_end(16));
    holds(&rt, !sign.ask_end(18));
    holds(&rt, !sign.is_to_end());
    holds(&rt, sign.ask_end(17));
    holds(&rt, sign.ask_end(17));
    holds(&rt, sign.is_to_end());
    sign.leave();
    holds(&rt, !sign.is_to_end());
    holds(&rt, !sign.ask_end(17));
    sign.arrive(0);
    holds(&rt, sign.ask_end(0) && sign.is_to_end());
}

#[test]
fn a_session_has_a_bell(rt: HostRuntime) {
    let sign = SessionSign::new();
    sign.ring(); // nobody has a bell yet
    let bell = sign.bell().expect(&rt, "a counter");
    holds(&rt, await_either(bell, bell, 0) == Heard::Ring);
    bell.quiet();
    holds(&rt, await_either(bell, bell, 0) == Heard::Silence);
    sign.ring();
    holds(&rt, await_either(bell, bell, 0) == Heard::Ring);
    bell.quiet();
    sign.arrive(3);
    holds(&rt, sign.ask_end(3));
    holds(&rt, await_either(bell, bell, 0) == Heard::Ring);
}

#[test]
fn a_session_is_named(rt: HostRuntime) {
    holds(&rt, asked_session("17") == Some(17));
    holds(&rt, asked_session("007") == Some(7));
    holds(&rt, asked_session("+1").is_none());
    holds(&rt, asked_session("").is_none());
    holds(&rt, asked_session("4611686018427387904").is_none());
}
