//! Actions in words: each action ends its line; replies are as they are, others in brackets.

use crate::fault::Fault;
use ftp_terms::DataType;
use ftp_wire::{HostPort, port_text};
use handler_hooks::{Hooks, report};
use memory_store::{MemSink, MemSource};
use session_table::{Action, Answer, HookCall, Octets};
use std::alloc::Global;
use std::mem;
use virtual_tree::Source;

/// A transfer.
pub(crate) type Job = session_table::Job<Global, MemSource<Global>, MemSink<Global>>;

pub(crate) type Actions = Vec<Action<Global, MemSource<Global>, MemSink<Global>>>;

/// Maximum number of pieces of a sent file that are printed, each of at most 8 octets.
const PIECES: usize = 8;

pub(crate) fn put(reported: &mut Vec<u8>, text: &str) -> Result<(), Fault> {
    Ok(reported.extend_from_slice(text.as_bytes())?)
}

/// Writes a word and a name, in brackets, on a line.
fn put_named(reported: &mut Vec<u8>, word: &str, name: &str) -> Result<(), Fault> {
    put(reported, word)?;
    put(reported, name)?;
    put(reported, "]\r\n")
}

pub(crate) fn put_answer(reported: &mut Vec<u8>, answer: Answer<Global>) -> Result<(), Fault> {
    Ok(answer.into_reply().write_to(reported)?)
}

/// A handler that notes its calls.
#[derive(Drop)]
struct Noter {
    reported: Vec<u8>,
    noted: Result<(), Fault>,
}

impl Noter {
    fn note(&mut self, text: &str) {
        self.noted = put(&mut self.reported, text);
    }

    fn note_named(&mut self, word: &str, name: &str) {
        self.noted = put_named(&mut self.reported, word, name);
    }
}

impl Hooks for Noter {
    ghost Reported = { λ _ _ _. Unit {0} };

    fn on_connect(&mut self) {
        self.note("[connected]\r\n");
    }

    fn on_disconnect(&mut self) {
        self.note("[disconnected]\r\n");
    }

    fn on_login(&mut self, user: &str) {
        self.note_named("[login ", user);
    }

    fn on_login_failed(&mut self, user: &str) {
        self.note_named("[failed ", user);
    }

    fn on_logout(&mut self, user: &str) {
        self.note_named("[logout ", user);
    }

    fn on_file_sent(&mut self, path: &str) {
        self.note_named("[sent ", path);
    }

    fn on_file_received(&mut self, path: &str) {
        self.note_named("[received ", path);
    }

    fn on_incomplete_file_sent(&mut self, path: &str) {
        self.note_named("[not sent ", path);
    }

    fn on_incomplete_file_received(&mut self, path: &str) {
        self.note_named("[not received ", path);
    }
}

/// Writes the call of a handler.
pub(crate) fn put_hook(
    reported: &mut Vec<u8>,
    alloc: Global,
    call: &HookCall<Global>,
) -> Result<(), Fault> {
    let mut noter = Noter {
        reported: mem::replace(reported, Vec::new(alloc)),
        noted: Ok(()),
    };
    report(&mut noter, call);
    let Noter {
        reported: all,
        noted,
    } = noter;
    *reported = all;
    noted
}

pub(crate) fn put_connect(
    reported: &mut Vec<u8>,
    alloc: Global,
    to: HostPort,
) -> Result<(), Fault> {
    let text = port_text(alloc, &to)?;
    put_named(reported, "[connect ", text.as_str())
}

/// Writes the first octets of a file.
pub(crate) fn put_octets(
    reported: &mut Vec<u8>,
    source: &mut MemSource<Global>,
) -> Result<(), Fault> {
    let mut buffer = [0; 8];
    for _ in 0..PIECES {
        let count = source.read(&mut buffer)?;
        reported.extend_from_slice(&buffer[..count])?;
    }
    Ok(())
}

fn put_sent(
    reported: &mut Vec<u8>,
    source: &mut MemSource<Global>,
    data_type: DataType,
) -> Result<(), Fault> {
    put(
        reported,
        match data_type {
            DataType::Ascii => "[send A ",
            DataType::Image => "[send I ",
        },
    )?;
    put_octets(reported, source)?;
    put(reported, "]\r\n")
}

fn taken(data_type: DataType) -> &'static str {
    match data_type {
        DataType::Ascii => "[take A]\r\n",
        DataType::Image => "[take I]\r\n",
    }
}

fn put_listing(reported: &mut Vec<u8>, listing: Octets<Global>) -> Result<(), Fault> {
    Ok(reported.extend_from_slice(listing.as_slice())?)
}

/// Writes a transfer that starts. The sink of an upload is kept.
pub(crate) fn put_job(
    reported: &mut Vec<u8>,
    kept: &mut Option<MemSink<Global>>,
    job: Job,
) -> Result<(), Fault> {
    match job {
        Job::TakeFile(sink, data_type) => {
            *kept = Some(sink);
            put(reported, taken(data_type))
        }
        Job::SendFile(mut source, data_type) => put_sent(reported, &mut source, data_type),
        Job::Text(listing) => put_listing(reported, listing),
    }
}
