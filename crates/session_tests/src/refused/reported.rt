//! Actions in words: replies end with CR LF, other actions are in brackets.

use linked_list_allocator::LocalHeap;
use memory_store::{MemSink, MemSource};
use session_table::{Action, HookCall, Job};
use std::alloc::{AllocError, Allocator};

pub(crate) type Source<'h> = MemSource<&'h LocalHeap>;

pub(crate) type Sink<'h> = MemSink<&'h LocalHeap>;

pub(crate) type Doing<'h> = Action<&'h LocalHeap, Source<'h>, Sink<'h>>;

pub(crate) type Doings<'h> = Vec<Doing<'h>, &'h LocalHeap>;

fn put(octets: &mut Vec<u8>, text: &str) -> Result<(), AllocError> {
    octets.extend_from_slice(text.as_bytes())
}

fn hook_word<A: Allocator>(call: &HookCall<A>) -> &'static str {
    match call {
        HookCall::Connect => "[connected]",
        HookCall::Disconnect => "[disconnected]",
        HookCall::Login(_) => "[login]",
        HookCall::LoginFailed(_) => "[failed]",
        HookCall::Logout(_) => "[logout]",
        HookCall::FileSent(_) => "[sent]",
        HookCall::FileReceived(_) => "[received]",
        HookCall::IncompleteFileSent(_) => "[not sent]",
        HookCall::IncompleteFileReceived(_) => "[not received]",
    }
}

/// Writes a transfer that starts; its sink is kept.
fn put_job<'h>(
    octets: &mut Vec<u8>,
    kept: &mut Option<Sink<'h>>,
    job: Job<&'h LocalHeap, Source<'h>, Sink<'h>>,
) -> Result<(), AllocError> {
    match job {
        Job::TakeFile(sink, _) => {
            *kept = Some(sink);
            put(octets, "[take]")
        }
        Job::SendFile(_, _) => put(octets, "[send]"),
        Job::Text(_) => put(octets, "[text]"),
    }
}

/// The word of an action that neither writes nor starts anything.
fn word_of<'h>(action: &Doing<'h>) -> &'static str {
    match action {
        Action::Say(_) | Action::Start(_) => "",
        Action::OpenPassive => "[passive]",
        Action::ConnectTo(_) => "[connect]",
        Action::DropData => "[drop]",
        Action::Abort => "[abort]",
        Action::CloseControl => "[close]",
        Action::ReleaseFloor(_) => "[release]",
        Action::Hook(call) => hook_word(call),
    }
}

/// Writes the text of an action, or its word; a sink is kept.
pub(crate) fn put_doing<'h>(
    octets: &mut Vec<u8>,
    kept: &mut Option<Sink<'h>>,
    action: Doing<'h>,
) -> Result<(), AllocError> {
    match action {
        Action::Say(answer) => answer.into_reply().write_to(octets),
        Action::Start(job) => put_job(octets, kept, job),
        other => put(octets, word_of(&other)),
    }
}
