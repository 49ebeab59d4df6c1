//! Writes to a connection.

ghost use Rattle.std.specs.Prelude.{◌≡◌, ◌<◌, ◌≤◌, [], length, take};
ghost use Rattle.std.specs.Io.KnownBytes.{Appends};
ghost use Rattle.data_pump.specs.Counts.{next};

use crate::counted::CountedEnd;
use std::io::Write;

/// Writes the octets, by as many writes as needed, and returns the number that the writes reported. That is less than
/// all only if a write failed, which is then the last one.
pub(crate) fn write_front<K: Write>(connection: &mut CountedEnd<K>, octets: &[u8]) -> usize
    ensures bound { result ≤ length octets.now }
    ensures written { Appends (K.contents connection.old.end) (K.contents connection.new.end)
        (take result octets.now) }
    ensures no_call { octets.now ≡ [] → connection.new ≡ connection.old }
    ensures passed { result ≡ length octets.now
        → connection.new.calls.failed ≡ connection.old.calls.failed }
    ensures failed { result < length octets.now
        → connection.new.calls.failed ≡ next connection.old.calls.failed }
{
    if octets.is_empty() {
        return 0;
    }
    write_some(connection, octets)
}

fn write_some<K: Write>(connection: &mut CountedEnd<K>, octets: &[u8]) -> usize
    ensures bound { result ≤ length octets.now }
    ensures written { Appends (K.contents connection.old.end) (K.contents connection.new.end)
        (take result octets.now) }
    ensures passed { result ≡ length octets.now
        → connection.new.calls.failed ≡ connection.old.calls.failed }
    ensures failed { result < length octets.now
        → connection.new.calls.failed ≡ next connection.old.calls.failed }
{
    let mut moved = 0;
    'writes: while moved < octets.len() {
        let count = connection.write(&octets[moved..]);
        if count == 0 {
            return moved;
        }
        moved += count;
    }
    moved
}
