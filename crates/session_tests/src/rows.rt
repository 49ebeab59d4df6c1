//! The state of a session, and the rows of its table: examples with the names of their crates, on one session.

use crate::expect::holds;
use crate::room::{Actions, Room, location, make_room, says};
use authorizer::Authorizer;
use ftp_terms::DataType;
use handler_hooks::{Hooks, run_hooks};
use memory_store::MemStore;
use rate_floors::Floors;
use session_events::{close, end_transfer, take_port};
use session_rows::{
    greeting, list_row, mkd_row, pass_row, pasv_row, rest_row, retr_row, rnfr_row, stor_row,
    type_row, user_row,
};
use session_state::{Location, State};
use session_table::{End, Notice, Passive, Style};
use std::process::Abort;
use virtual_path::VPath;

fn session_state(rt: &(impl Abort + AllocGlobal), state: &mut State, path: VPath) {
    state.change_directory(path); // each such call changes just what its name says
    holds(rt, state.cwd().text() == "/in");
    let reported = state.reply_notice(Notice::DirectoryChanged); // actions, of which one is a reply
    says(rt, reported, "250 Directory changed\r\n");
}

fn session_login(
    rt: &(impl Abort + AllocGlobal),
    state: &mut State,
    users: &Authorizer,
    floors: &mut Floors,
) {
    says(rt, user_row(state, "ann"), "331 Password required\r\n");
    let reported = pass_row(state, users, floors, "secret");
    says(rt, reported, "230 Welcome\r\n"); // otherwise 530
}

fn session_parameters(rt: &(impl Abort + AllocGlobal), state: &mut State) {
    says(rt, type_row(state, DataType::Image), "200 Type is I\r\n");
    says(rt, rest_row(state, 1000), "350 Restart at 1000\r\n");
    let reported = pasv_row(state); // a port is asked for: the reply comes with it
    says(rt, reported, "");
}

fn session_rows(
    rt: &(impl Abort + AllocGlobal),
    state: &mut State,
    store: &mut MemStore,
    place: Location,
) {
    says(rt, type_row(state, DataType::Image), "200 Type is I\r\n");
    let reported = mkd_row(state, store, &place); // or what the store refused
    says(rt, reported, "257 \"/in\"\r\n");
    let reported = rnfr_row(state, store, place); // the path is kept for RNTO
    says(rt, reported, "350 Send RNTO\r\n");
}

fn session_transfers(
    rt: &(impl Abort + AllocGlobal),
    state: &mut State,
    store: &mut MemStore,
    missing: Location,
    place: Location,
) {
    let reported = retr_row(state, store, missing);
    says(rt, reported, "550 No such file or directory\r\n");
    let reported = stor_row(state, store, place, 951_827_696_000); // milliseconds since 1970
    says(rt, reported, "150 Opening data connection\r\n"); // and a job takes the file
}

fn session_listings(
    rt: &(impl Abort + AllocGlobal),
    state: &mut State,
    users: &Authorizer,
    store: &mut MemStore,
    place: &Location,
) {
    let reported = list_row(state, users, store, place, Style::Names);
    says(rt, reported, "150 Opening data connection\r\n"); // and a job sends the names
}

fn session_events(
    rt: &(impl Abort + AllocGlobal),
    state: &mut State,
    users: &Authorizer,
    store: &mut MemStore,
) {
    let reported = end_transfer(state, users, store, End::Done, &mut None, 0);
    says(rt, reported, "226 Transfer complete\r\n"); // and the replies to the lines that waited
    state.await_port(Passive::Plain);
    let reported = take_port(state, users, Some(40_000));
    says(
        rt,
        reported,
        "227 Entering Passive Mode (127,0,0,1,156,64)\r\n",
    );
    says(rt, close(state), ""); // what is left to drop, and to tell the handler
}

/// A handler that counts the clients that came and are there.
#[derive(Drop)]
struct Clients {
    there: u32,
}

impl Hooks for Clients {
    ghost Reported = { λ _ _ _. Unit {0} };

    fn on_connect(&mut self) {
        self.there = self.there.saturating_add(1);
    }

    fn on_disconnect(&mut self) {
        self.there = self.there.saturating_sub(1);
    }

    fn on_login(&mut self, _user: &str) {}

    fn on_login_failed(&mut self, _user: &str) {}

    fn on_logout(&mut self, _user: &str) {}

    fn on_file_sent(&mut self, _path: &str) {}

    fn on_file_received(&mut self, _path: &str) {}

    fn on_incomplete_file_sent(&mut self, _path: &str) {}

    fn on_incomplete_file_received(&mut self, _path: &str) {}
}

fn handler_hooks(rt: &(impl Abort + AllocGlobal), greeting: &Actions) {
    let mut clients = Clients { there: 0 }; // a handler, with a callback for each event
    run_hooks(&mut clients, greeting); // one call for each Hook among the actions, in order
    holds(rt, clients.there == 1);
}

/// The greeting of a new client, and its handler.
fn greeted(rt: &(impl Abort + AllocGlobal), state: &State) {
    let greeting = greeting(state).expect(rt, "memory");
    handler_hooks(rt, &greeting);
}

/// A login, and commands without a transfer.
fn in_session(rt: &(impl Abort + AllocGlobal), room: &mut Room) {
    greeted(rt, &room.state);
    session_login(rt, &mut room.state, &room.users, &mut room.floors);
    session_rows(rt, &mut room.state, &mut room.store, location(rt, "/in"));
    session_state(rt, &mut room.state, location(rt, "/in").into_path());
}

/// Transfers, and the commands that prepare them.
fn in_transfers(rt: &(impl Abort + AllocGlobal), room: &mut Room, root: &Location) {
    let missing = location(rt, "/g");
    let place = location(rt, "/f");
    session_transfers(rt, &mut room.state, &mut room.store, missing, place);
    session_parameters(rt, &mut room.state);
    session_listings(rt, &mut room.state, &room.users, &mut room.store, root);
    session_events(rt, &mut room.state, &room.users, &mut room.store);
}

#[test]
fn a_session(rt: HostRuntime) {
    let root = location(&rt, "/");
    let mut room = make_room(&rt);
    in_session(&rt, &mut room);
    in_transfers(&rt, &mut room, &root);
}
