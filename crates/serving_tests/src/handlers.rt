//! The callbacks of a handler: each event comes to one of them, once.

use crate::expect::holds;
use server_house::{ClientSession, EndCause, NoHooks, ServerHooks, TransferKind, TransferRecord};
use session_table::{HookCall, Text};
use std::alloc::Global;
use std::process::Abort;
use virtual_path::VPath;

/// The only client.
const ANN: ClientSession = ClientSession {
    peer: [127, 0, 0, 1],
    number: 7,
    serial: 21,
};

/// A handler that knows how often it was called, and the last callback with the length of its text, or its octets.
#[derive(Drop)]
struct Called {
    times: u32,
    last: &'static str,
    size: u64,
}

impl Called {
    fn note(&mut self, name: &'static str, client: ClientSession, size: u64) {
        if client == ANN {
            self.times = self.times.saturating_add(1);
        }
        self.last = name;
        self.size = size;
    }
}

impl ServerHooks for Called {
    fn on_connect(&mut self, client: ClientSession) {
        self.note("connect", client, 0);
    }

    fn on_disconnect(&mut self, client: ClientSession) {
        self.note("disconnect", client, 0);
    }

    fn on_login(&mut self, client: ClientSession, user: &str) {
        self.note("login", client, user.len() as u64);
    }

    fn on_login_failed(&mut self, client: ClientSession, user: &str) {
        self.note("login failed", client, user.len() as u64);
    }

    fn on_logout(&mut self, client: ClientSession, user: &str) {
        self.note("logout", client, user.len() as u64);
    }

    fn on_file_sent(&mut self, client: ClientSession, file: &TransferRecord<'_>) {
        self.note("sent", client, file.octets);
    }

    fn on_file_received(&mut self, client: ClientSession, file: &TransferRecord<'_>) {
        self.note("received", client, file.octets);
    }

    fn on_incomplete_file_sent(&mut self, client: ClientSession, file: &TransferRecord<'_>) {
        self.note("not sent", client, file.octets);
    }

    fn on_incomplete_file_received(&mut self, client: ClientSession, file: &TransferRecord<'_>) {
        self.note("not received", client, file.octets);
    }
}

fn new_called() -> Called {
    Called {
        times: 0,
        last: "none",
        size: 0,
    }
}

// Stops the test unless a handler was called once, by this name.
fn was_called(rt: &impl Abort, called: &Called, name: &str, size: u64) {
    holds(rt, called.times == 1);
    holds(rt, called.last == name);
    holds(rt, called.size == size);
}

fn calls(rt: &impl Abort, call: &HookCall<Global>, name: &str, size: u64) {
    let mut called = new_called();
    called.on_call(ANN, call);
    was_called(rt, &called, name, size);
}

fn ends(rt: &impl Abort, kind: TransferKind, cause: Option<EndCause>, name: &str) {
    let record = TransferRecord {
        user: "ann",
        kind,
        path: Some("/a.txt"),
        is_text: false,
        octets: 12,
        micros: 1_000,
        cause,
        error: None,
    };
    let mut called = new_called();
    called.on_transfer(ANN, &record);
    was_called(rt, &called, name, 12);
}

#[test]
fn of_clients_and_users(rt: HostRuntime) {
    let name = |text: &str| Text::copy_of(rt.alloc(), text).expect(&rt, "memory");
    calls(&rt, &HookCall::Connect, "connect", 0);
    calls(&rt, &HookCall::Disconnect, "disconnect", 0);
    calls(&rt, &HookCall::Login(name("ann")), "login", 3);
    calls(&rt, &HookCall::LoginFailed(name("ann1")), "login failed", 4);
    calls(&rt, &HookCall::Logout(name("ann12")), "logout", 5);
}

#[test]
fn of_files(rt: HostRuntime) {
    ends(&rt, TransferKind::Sent, None, "sent");
    ends(&rt, TransferKind::Sent, Some(EndCause::Aborted), "not sent");
    ends(&rt, TransferKind::Received, None, "received");
    ends(
        &rt,
        TransferKind::Received,
        Some(EndCause::File),
        "not received",
    );
}

// A file's event comes by its record alone, and a listing is no file.
#[test]
fn of_no_callback(rt: HostRuntime) {
    let mut called = new_called();
    let root = VPath::root(rt.alloc());
    let path = root.resolve(rt.alloc(), "/a.txt").expect(&rt, "a path");
    called.on_call(ANN, &HookCall::FileSent(path));
    let listed = TransferRecord {
        user: "ann",
        kind: TransferKind::Listed,
        path: None,
        is_text: true,
        octets: 12,
        micros: 1_000,
        cause: None,
        error: None,
    };
    called.on_transfer(ANN, &listed);
    holds(&rt, called.times == 0);
    holds(&rt, !called.wants_sizes());
    NoHooks.on_transfer(ANN, &listed);
}
