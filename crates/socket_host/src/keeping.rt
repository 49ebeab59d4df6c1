//! The passive port that a session keeps between its transfers.

ghost use Rattle.std.specs.Prelude.{◌≡◌, ◌+◌, ◌<◌, ◌↔◌, IsTrue, None, false};
ghost use Rattle.socket_host.specs.Keeping.{closed_after, kept_after, may_keep, with_port, without_port};

use crate::ports::LeasedPort;
use event_word::has_passed;
use server_config::ServerNumbers;
use server_house::may_keep_ports;
use std::mem;

/// Microseconds between two looks at the port that a session keeps.
const LOOK: u64 = 1_000_000;

/// Microseconds without a sign of its client after which a session keeps no port.
const SILENCE: u64 = 10_000_000;

/// The port that a session keeps, if sessions keep ports.
pub(crate) struct KeptPort {
    keeps: bool,
    pub(crate) at: Option<LeasedPort>,
}

impl KeptPort {
    /// No port. Ports are kept if there are enough for all connections, by a session that accepts the wanted peer alone.
    pub(crate) fn new(numbers: &ServerNumbers, wanted: Option<[u8; 4]>) -> KeptPort
        ensures keeps { result.keeps ≡ may_keep numbers.now wanted }
        ensures none { result.at ≡ None }
    {
        KeptPort {
            keeps: wanted.is_some() && may_keep_ports(numbers),
            at: None,
        }
    }

    /// Keeps a port at which the client has connected, if ports are kept. Returns that which is to be closed and given
    /// back: the one kept before, if there was one, or this one if none are kept.
    pub(crate) fn keep(&mut self, port: LeasedPort) -> Option<LeasedPort>
        ensures kept { self.new ≡ kept_after self.old port }
        ensures closes { result ≡ closed_after self.old port }
    {
        if self.keeps {
            mem::replace(&mut self.at, Some(port))
        } else {
            Some(port)
        }
    }

    /// Takes the port that is kept, if there is one.
    pub(crate) fn take(&mut self) -> Option<LeasedPort>
        ensures taken { result ≡ self.old.at }
        ensures none { self.new ≡ without_port self.old }
    {
        mem::replace(&mut self.at, None)
    }

    /// Puts a port back that was taken. Returns the one that was put here meanwhile, if there is one.
    pub(crate) fn put_back(&mut self, port: LeasedPort) -> Option<LeasedPort>
        ensures kept { self.new ≡ with_port self.old port }
        ensures before { result ≡ self.old.at }
    {
        mem::replace(&mut self.at, Some(port))
    }

    /// Keeps no port any longer. Returns the one that was kept, if there was one.
    pub(crate) fn into_port(self) -> Option<LeasedPort>
        ensures port { result ≡ self.at }
    {
        let KeptPort { keeps: _, at } = self;
        at
    }
}

/// When a session last looked after the port that it keeps, and last heard of its client, in microseconds of a monotonic
/// clock.
#[derive(Clone, Copy)]
pub(crate) struct PortWatch {
    looked: u64,
    heard: u64,
}

impl PortWatch {
    /// The watch of a session that begins now.
    pub(crate) fn new(now: u64) -> PortWatch
        ensures looked { result.looked ≡ now }
        ensures heard { result.heard ≡ now }
    {
        PortWatch {
            looked: now,
            heard: now,
        }
    }

    /// Notes a sign of life.
    pub(crate) fn hear(&mut self, now: u64)
        ensures heard { self.new.heard ≡ now }
        ensures looked { self.new.looked ≡ self.old.looked }
    {
        self.heard = now;
    }

    /// Returns whether the port is to be looked after now: each second. That is noted.
    pub(crate) fn is_due(&mut self, now: u64) -> bool
        ensures due { IsTrue result ↔ (self.old.looked + 1000000 < now) }
        ensures noted { IsTrue result → self.new.looked ≡ now }
        ensures unchanged { result ≡ false → self.new ≡ self.old }
        ensures heard { self.new.heard ≡ self.old.heard }
    {
        let is_due = has_passed(self.looked, now, LOOK);
        if is_due {
            self.looked = now;
        }
        is_due
    }

    /// Returns whether the client has been silent for so long that its session keeps no port.
    pub(crate) fn is_silent(&self, now: u64) -> bool
        ensures silent { IsTrue result ↔ (self.now.heard + 10000000 < now) }
    {
        has_passed(self.heard, now, SILENCE)
    }
}
