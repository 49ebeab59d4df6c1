//! Keys that cannot change while a server runs.

ghost use Rattle.config_change.specs.Fixed.{IsAddressKey, IsPortKey, IsRootKey, IsCapacityKey, IsPassiveKey, IsLanesKey, IsFixedKey, IsCountFault};

use server_config::ServerNumbers;
use std::fmt;
use std::net::Ipv4Addr;

/// Values of a configuration that stay the same while a server runs.
#[derive(Clone, Copy, Debug)]
pub struct FixedValues<'a> {
    /// The address, the ports and the maximum counts.
    pub numbers: ServerNumbers,
    /// `memory`, or the path of the folder that is served.
    pub root: &'a str,
    /// Maximum total of the octets in the files of a store in memory.
    pub capacity: u64,
}

/// A key that cannot change while a server runs, with its value at the start and the one that is stated now.
#[derive(Clone, Copy, Debug)]
pub enum FixedKey<'a> {
    Address { old: Ipv4Addr, new: Ipv4Addr },
    Port { old: u16, new: u16 },
    Root { old: &'a str, new: &'a str },
    Capacity { old: u64, new: u64 },
    PassiveFirst { old: u16, new: u16 },
    PassiveLast { old: u16, new: u16 },
    Lanes { old: u16, new: u16 },
}

impl fmt::Display for FixedKey<'_> {
    ghost use Rattle.std.specs.Prelude.{Some};
    ghost use Rattle.config_change.specs.Words.{key_text};

    ghost output = { λ key. Some (key_text key) };

    fn fmt<W: fmt::Write>(&self, f: &mut fmt::Formatter<W>) -> fmt::Result {
        match self {
            FixedKey::Address { old, new } => write!(
                f,
                "`address` cannot change while the server runs: it is {old}; restart the server to listen on {new}"
            ),
            FixedKey::Port { old, new } => write!(
                f,
                "`port` cannot change while the server runs: it is {old}; restart the server to serve on {new}"
            ),
            FixedKey::Root { old, new } => write!(
                f,
                "`root` cannot change while the server runs: it is {old}; restart the server to serve {new}"
            ),
            FixedKey::Capacity { old, new } => write!(
                f,
                "`capacity` cannot change while the server runs: it is {old}; restart the server for {new}"
            ),
            FixedKey::PassiveFirst { old, new } => write!(
                f,
                "`passive_first` cannot change while the server runs: it is {old}; restart the server for ports from {new}"
            ),
            FixedKey::PassiveLast { old, new } => write!(
                f,
                "`passive_last` cannot change while the server runs: it is {old}; restart the server for ports up to {new}"
            ),
            FixedKey::Lanes { old, new } => write!(
                f,
                "`lanes` cannot change while the server runs: it is {old}; restart the server for {new}"
            ),
        }
    }
}

/// The reason for which a maximum number of connections cannot be taken while a server runs.
#[derive(Clone, Copy, Debug, PartialEq, Eq)]
pub enum CountFault {
    /// The maximum is above that of the start, and the server has room for no more.
    NoRoom { room: u16, stated: u16 },
    /// More connections than the maximum are there.
    TooMany { connected: u16, stated: u16 },
}

impl fmt::Display for CountFault {
    ghost use Rattle.std.specs.Prelude.{Some};
    ghost use Rattle.config_change.specs.Words.{count_text};

    ghost output = { λ fault. Some (count_text fault) };

    fn fmt<W: fmt::Write>(&self, f: &mut fmt::Formatter<W>) -> fmt::Result {
        match self {
            CountFault::NoRoom { room, stated } => write!(
                f,
                "`max_cons` cannot be above {room} while the server runs: restart the server to take {stated} connections"
            ),
            CountFault::TooMany { connected, stated } => write!(
                f,
                "`max_cons` cannot be {stated} now: {connected} clients are connected; reload again when fewer are, or restart the server"
            ),
        }
    }
}

fn address_key<'a>(old: [u8; 4], new: [u8; 4]) -> Option<FixedKey<'a>>
    ensures key { IsAddressKey old new result }
{
    if old == new {
        return None;
    }
    Some(FixedKey::Address {
        old: Ipv4Addr::from_octets(old),
        new: Ipv4Addr::from_octets(new),
    })
}

fn root_key<'a>(old: &'a str, new: &'a str) -> Option<FixedKey<'a>>
    ensures key { IsRootKey old.now new.now result }
{
    if old == new {
        return None;
    }
    Some(FixedKey::Root { old, new })
}

fn port_key<'a>(before: &ServerNumbers, after: &ServerNumbers) -> Option<FixedKey<'a>>
    ensures key { IsPortKey before.now after.now result }
{
    let (old, new) = (before.port, after.port);
    if old == new {
        return None;
    }
    Some(FixedKey::Port { old, new })
}

fn capacity_key<'a>(old: u64, new: u64) -> Option<FixedKey<'a>>
    ensures key { IsCapacityKey old new result }
{
    if old == new {
        return None;
    }
    Some(FixedKey::Capacity { old, new })
}

fn passive_key<'a>(before: &ServerNumbers, after: &ServerNumbers) -> Option<FixedKey<'a>>
    ensures key { IsPassiveKey before.now after.now result }
{
    let (old, new) = (before.passive_first, after.passive_first);
    if old != new {
        return Some(FixedKey::PassiveFirst { old, new });
    }
    let (old, new) = (before.passive_last, after.passive_last);
    if old != new {
        return Some(FixedKey::PassiveLast { old, new });
    }
    None
}

fn lanes_key<'a>(before: &ServerNumbers, after: &ServerNumbers) -> Option<FixedKey<'a>>
    ensures key { IsLanesKey before.now after.now result }
{
    let (old, new) = (before.lanes, after.lanes);
    if old == new {
        return None;
    }
    Some(FixedKey::Lanes { old, new })
}

/// The first key that cannot change while a server runs and has another value: of the address, the port, the root, the
/// capacity, the passive ports and the number of lanes, in this order. `None` if all of them are the same.
pub fn fixed_key<'a>(old: &FixedValues<'a>, new: &FixedValues<'a>) -> Option<FixedKey<'a>>
    ensures key { IsFixedKey old.now new.now result }
{
    if let Some(key) = address_key(old.numbers.address, new.numbers.address) {
        return Some(key);
    }
    if let Some(key) = port_key(&old.numbers, &new.numbers) {
        return Some(key);
    }
    if let Some(key) = root_key(old.root, new.root) {
        return Some(key);
    }
    if let Some(key) = capacity_key(old.capacity, new.capacity) {
        return Some(key);
    }
    if let Some(key) = passive_key(&old.numbers, &new.numbers) {
        return Some(key);
    }
    lanes_key(&old.numbers, &new.numbers)
}

/// The reason for which a server that has room for `room` connections, and has `connected` of them, cannot take another
/// maximum; none if it can.
pub fn count_fault(room: u16, connected: u16, stated: u16) -> Option<CountFault>
    ensures fault { IsCountFault room connected stated result }
{
    if stated > room {
        return Some(CountFault::NoRoom { room, stated });
    }
    if stated < connected {
        return Some(CountFault::TooMany { connected, stated });
    }
    None
}
