//! The laws of the session table, at the types of a store in memory.

use crate::expect::holds;
use crate::room::{PEER, Room, make_room, says, settings};
use ftp_wire::{Command, LineItem};
use memory_store::{MemSink, MemSource};
use session_core::Session;
use session_table::{
    Input, admissions_are_rightful, calls_are_rightful, few_lines_are_held,
    floors_are_released_once, no_calls_outside, no_transfer_unprepared, one_thing_is_asked,
    others_ask_no_floors, sources_are_named,
};
use std::alloc::Global;
use std::process::Abort;

#[test]
fn laws(_rt: HostRuntime) {
    calls_are_rightful::<Global, MemSource<Global>, MemSink<Global>>();
    no_calls_outside::<Global, MemSource<Global>, MemSink<Global>>();
    no_transfer_unprepared::<Global, MemSource<Global>, MemSink<Global>>();
    few_lines_are_held::<Global, MemSource<Global>, MemSink<Global>>();
    admissions_are_rightful::<Global, MemSource<Global>, MemSink<Global>>();
    floors_are_released_once::<Global, MemSource<Global>, MemSink<Global>>();
    one_thing_is_asked::<Global, MemSource<Global>, MemSink<Global>>();
    sources_are_named::<Global, MemSource<Global>, MemSink<Global>>();
    others_ask_no_floors::<Global, MemSource<Global>, MemSink<Global>>();
}

#[test]
fn only_pass_asks_the_floors(rt: HostRuntime) {
    let session = Session::new(rt.alloc(), settings(), PEER).expect(&rt, "memory");
    let pass: Input<Global, MemSink<Global>> = Input::Line(LineItem::Command(Command::Pass(None)));
    holds(&rt, session.asks_floors(&pass));
    let other: Input<Global, MemSink<Global>> = Input::Line(LineItem::Command(Command::Pwd));
    holds(&rt, !session.asks_floors(&other));
    holds(&rt, !session.asks_floors::<MemSink<Global>>(&Input::Held));
}

fn pass(rt: &(impl Abort + AllocGlobal), word: &str) -> Input<Global, MemSink<Global>> {
    let word = String::from_str(rt.alloc(), word).expect(rt, "memory");
    Input::Line(LineItem::Command(Command::Pass(Some(word))))
}

#[test]
fn a_login_is_seen_before_it_is_made(rt: HostRuntime) {
    let Room {
        users,
        mut floors,
        mut store,
        state: _,
    } = make_room(&rt);
    let mut session = Session::new(rt.alloc(), settings(), PEER).expect(&rt, "memory");
    let right = pass(&rt, "secret");
    holds(&rt, session.entering(&users, &right).is_none());
    let name = String::from_str(rt.alloc(), "ann").expect(&rt, "memory");
    let user = Input::Line(LineItem::Command(Command::User(name)));
    let named = session.step(&users, &mut floors, &mut store, user, 0);
    says(&rt, named, "331 Password required\r\n");
    holds(&rt, session.entering(&users, &right) == Some("ann"));
    holds(&rt, session.entering(&users, &pass(&rt, "wrong")).is_none());
}
