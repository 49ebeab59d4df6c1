//! Opening a passive port.

ghost use Rattle.std.specs.Prelude.{None};
ghost use Rattle.passive_ports.specs.Opening.{PortCall, Tries};
ghost use Rattle.passive_ports.specs.Opening.PortCall.{Leases, Binds, Rests};

/// Most ports that one call tries after the first.
pub const MOST_TRIES: u8 = 64;

/// Leases ports, and listens on them with listeners `L`: a server with its sockets and its
/// [`RestingPorts`](crate::RestingPorts) behind a lock, which is free while it listens.
pub trait PortHost<L> {
    /// The effect of one call with its result.
    ghost Asks: { Self → PortCall L → Self → Type 0 };

    /// Leases a port that is not in use, if there is one.
    fn lease(&mut self) -> Option<u16>
        ensures { Asks self.old (Leases result) self.new };

    /// Listens on a leased port, if possible.
    fn bind(&mut self, port: u16) -> Option<L>
        ensures { Asks self.old (Binds port result) self.new };

    /// Takes a leased port back.
    fn rest(&mut self, port: u16)
        ensures { Asks self.old (Rests port) self.new };
}

/// Leases a port and listens on it. A port that cannot be listened on stays leased while the next is tried, and is then
/// taken back. Returns `None` if no port is free, or if the first port and `tries` more could not be listened on; the
/// reply is then 425 (RFC 959, section 4.2).
pub fn open_passive<L, H: PortHost<L>>(host: &mut H, tries: u8) -> Option<(u16, L)>
    ensures tries { Tries H.Asks tries host.old result host.new }
{
    let port = host.lease()?;
    if let Some(listener) = host.bind(port) {
        return Some((port, listener));
    }
    let found = match tries {
        0 => None,
        _ => open_passive(host, tries - 1),
    };
    host.rest(port);
    found
}
