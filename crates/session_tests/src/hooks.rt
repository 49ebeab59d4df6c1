//! The callbacks of a handler, each by its name.

use crate::expect::same;
use handler_hooks::{Hooks, report};
use session_table::{HookCall, Text};
use std::alloc::{AllocError, Global};
use std::process::Abort;
use virtual_path::VPath;

/// A handler that writes down the name of each callback, and the word with which it is called.
#[derive(Drop)]
struct Named {
    called: Vec<u8>,
    written: Result<(), AllocError>,
}

/// Writes a line of a name and a word.
fn put(called: &mut Vec<u8>, name: &str, word: &str) -> Result<(), AllocError> {
    called.extend_from_slice(name.as_bytes())?;
    called.extend_from_slice(word.as_bytes())?;
    called.extend_from_slice(b"\n")
}

impl Named {
    fn call(&mut self, name: &str, word: &str) {
        self.written = put(&mut self.called, name, word);
    }
}

impl Hooks for Named {
    ghost Reported = { λ _ _ _. Unit {0} };

    fn on_connect(&mut self) {
        self.call("on_connect", "");
    }

    fn on_disconnect(&mut self) {
        self.call("on_disconnect", "");
    }

    fn on_login(&mut self, user: &str) {
        self.call("on_login ", user);
    }

    fn on_login_failed(&mut self, user: &str) {
        self.call("on_login_failed ", user);
    }

    fn on_logout(&mut self, user: &str) {
        self.call("on_logout ", user);
    }

    fn on_file_sent(&mut self, path: &str) {
        self.call("on_file_sent ", path);
    }

    fn on_file_received(&mut self, path: &str) {
        self.call("on_file_received ", path);
    }

    fn on_incomplete_file_sent(&mut self, path: &str) {
        self.call("on_incomplete_file_sent ", path);
    }

    fn on_incomplete_file_received(&mut self, path: &str) {
        self.call("on_incomplete_file_received ", path);
    }
}

/// Checks that a call is this callback with its word, and no other.
fn calls(rt: &(impl Abort + AllocGlobal), call: HookCall<Global>, line: &str) {
    let mut named = Named {
        called: Vec::new(rt.alloc()),
        written: Ok(()),
    };
    report(&mut named, &call);
    named.written.expect(rt, "memory");
    same(rt, &named.called, line.as_bytes());
}

fn name(rt: &(impl Abort + AllocGlobal), text: &str) -> Text {
    Text::copy_of(rt.alloc(), text).expect(rt, "memory")
}

fn path(rt: &(impl Abort + AllocGlobal), text: &str) -> VPath {
    let root = VPath::root(rt.alloc());
    root.resolve(rt.alloc(), text).expect(rt, "a path")
}

#[test]
fn of_clients(rt: HostRuntime) {
    calls(&rt, HookCall::Connect, "on_connect\n");
    calls(&rt, HookCall::Disconnect, "on_disconnect\n");
}

#[test]
fn of_users(rt: HostRuntime) {
    let (ann, bob, eve) = (name(&rt, "ann"), name(&rt, "bob"), name(&rt, "eve"));
    calls(&rt, HookCall::Login(ann), "on_login ann\n");
    calls(&rt, HookCall::LoginFailed(bob), "on_login_failed bob\n");
    calls(&rt, HookCall::Logout(eve), "on_logout eve\n");
}

#[test]
fn of_files(rt: HostRuntime) {
    let sent = HookCall::FileSent(path(&rt, "/a"));
    calls(&rt, sent, "on_file_sent /a\n");
    let received = HookCall::FileReceived(path(&rt, "/b"));
    calls(&rt, received, "on_file_received /b\n");
    let not_sent = HookCall::IncompleteFileSent(path(&rt, "/c"));
    calls(&rt, not_sent, "on_incomplete_file_sent /c\n");
    let not_received = HookCall::IncompleteFileReceived(path(&rt, "/d"));
    calls(&rt, not_received, "on_incomplete_file_received /d\n");
}
