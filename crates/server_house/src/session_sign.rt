//! The sign that a session is to end, and its bell, from outside of it.

ghost use Rattle.std.specs.Prelude.{◌≡◌};
ghost use Rattle.server_house.specs.Signs.{ends, there, to_end};

use client_door::DoorBell;
use std::sync::OnceLock;
use std::sync::atomic::{AtomicU64, Ordering};

/// The session at a connection's number: the number by which its owner knows it, whether it is to end, and the bell that
/// wakes it.
#[derive(Drop)]
pub struct SessionSign {
    // 0 for no session, otherwise the word of the session that is there
    word: AtomicU64,
    // of all sessions here, one after another, so that nobody rings a descriptor that is another's by then
    bell: OnceLock<DoorBell>,
}

// The word of a session that is there. Numbers are below 2^62.
fn there(serial: u64) -> u64
    ensures there { result ≡ there serial }
{
    serial.saturating_mul(2).saturating_add(2)
}

// The word of one that is to end.
fn to_end(serial: u64) -> u64
    ensures ending { result ≡ to_end serial }
{
    serial.saturating_mul(2).saturating_add(3)
}

// Returns whether a word is that of a session that is to end.
fn ends(word: u64) -> bool
    ensures ends { result ≡ ends word }
{
    word > 2 && word % 2 == 1
}

impl SessionSign {
    /// No session.
    pub fn new() -> SessionSign {
        SessionSign {
            word: AtomicU64::new(0),
            bell: OnceLock::new(),
        }
    }

    /// A session of this number is there.
    pub fn arrive(&self, serial: u64) {
        self.word.store(there(serial), Ordering::SeqCst);
    }

    /// The session has ended.
    pub fn leave(&self) {
        self.word.store(0, Ordering::SeqCst);
    }

    /// The bell of the session. It is made by the first call, and has been rung then: an end may have come before. None if
    /// the machine lends no descriptor, or no memory.
    pub fn bell(&self) -> Option<&DoorBell> {
        if self.bell.get().is_none() {
            if let Ok(bell) = DoorBell::rung() {
                let _ = self.bell.try_set(bell);
            }
        }
        self.bell.get()
    }

    /// Rings the bell, if there is one. What it is rung for has to be there before.
    pub fn ring(&self) {
        if let Some(bell) = self.bell.get() {
            bell.ring();
        }
    }

    /// Asks the session of this number to end, and wakes it. Returns whether it is there.
    pub fn ask_end(&self, serial: u64) -> bool {
        let (is, will) = (there(serial), to_end(serial));
        match self
            .word
            .compare_exchange(is, will, Ordering::SeqCst, Ordering::SeqCst)
        {
            Ok(_) => {
                self.ring();
                true
            }
            Err(word) => word == will,
        }
    }

    /// Returns whether the session is to end.
    pub fn is_to_end(&self) -> bool {
        ends(self.word.load(Ordering::SeqCst))
    }
}
