//! The open files that a server needs.

ghost use Rattle.std.specs.Prelude.{◌≡◌, ◌+◌, ◌*◌};

/// Open files of a client at most: its control connection, its passive port, which it may keep, its data connection, the
/// file and the directory that a transfer or a listing has open, and the bell that wakes its session.
const OF_A_CLIENT: u64 = 6;

/// Open files of the server itself, with some to spare: the standard streams, its listener, a client that is turned
/// away, and what its threads look at.
const OF_THE_SERVER: u64 = 16;

/// The number of files that are open at most while `clients` clients are connected.
pub fn descriptors_for(clients: u16) -> u64
    ensures needed { result ≡ 6 * clients + 16 }
{
    OF_A_CLIENT * u64::from(clients) + OF_THE_SERVER
}
