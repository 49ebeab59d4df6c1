//! The end file of a server: once it appears, the sessions of its lines end.

ghost use Rattle.ftpd.specs.Ending.{IsEndSign};

use ftp_daemon::EndSign;
use machine_parts::{ConfigReader, ReadOctets, SignFile};
use std::alloc::Global;
use std::sync::{Arc, Mutex, Wait};

/// A file whose lines are numbers of sessions that are to end.
#[derive(Drop)]
pub(crate) struct EndFile {
    pub alloc: Global,
    pub sign: SignFile,
    /// The thread that reads the file, and removes it.
    pub reader: Arc<ConfigReader>,
    /// The file could not be read or removed.
    pub is_stuck: Mutex<bool>,
}

/// The reason for which what was read names no sessions.
const NO_TEXT: &str = "the end file is no text";

/// The sign of the octets of an end file. An empty file is one that is still written.
fn sign_in(alloc: Global, octets: Vec<u8>) -> EndSign
    ensures sign { IsEndSign octets.items result }
{
    if octets.is_empty() {
        return EndSign::Nothing;
    }
    match String::from_utf8(octets) {
        Ok(text) => EndSign::Asked(text),
        Err(_) => EndSign::Unread(String::from_str(alloc, NO_TEXT).ok()),
    }
}

impl EndFile {
    // Returns whether the file is to be read: it is there, and was not found to be one that cannot be.
    fn is_asked<R: Wait>(&self, rt: &R) -> bool {
        let mut is_stuck = self.is_stuck.lock(rt);
        if !self.sign.is_there() {
            *is_stuck = false;
            return false;
        }
        !*is_stuck
    }

    // The sign of what was read. An empty file stays, and is read again.
    fn sign_of<R: Wait>(&self, rt: &R, octets: ReadOctets) -> EndSign {
        match octets {
            Ok(octets) => sign_in(self.alloc, octets),
            Err(reason) => {
                *self.is_stuck.lock(rt) = true;
                EndSign::Unread(reason)
            }
        }
    }

    /// The sessions that are to end now, if the file was there and has been read.
    pub fn asked<R: Wait>(&self, rt: &R) -> EndSign {
        if self.is_asked(rt) {
            self.reader.ask(rt);
        }
        match self.reader.take(rt) {
            Some(octets) => self.sign_of(rt, octets),
            None => EndSign::Nothing,
        }
    }
}
