//! The octets of replies, to a client that may not read them.

ghost use Rattle.std.specs.Prelude.{◌<◌, ◌≡◌, ◌≤◌, ◌⊎◌, IfOk, OnErr, OnOk, false, length, take, true};
ghost use Rattle.std.specs.Io.KnownBytes.{Appends, Keeps};
ghost use Rattle.socket_host.specs.Replied.{AppendsPart, has_no_wait, waits_after};

use crate::control::is_pause;
use server_house::{ServerShutdown, ShutdownStage};
use std::io;
use std::io::{ErrorKind, Write};

/// Most writes in a row that may time out.
const MOST_WAITS: u32 = 20;

/// Most waits of a whole reply once the server ends.
const LAST_WAITS: u32 = 2;

// The number of waits of a reply since the server ends, after one more wait.
fn waits_after(late: u32, is_ending: bool) -> u32
    ensures waits { result ≡ waits_after late is_ending }
{
    if is_ending {
        late.saturating_add(1)
    } else {
        late
    }
}

// Counts one more wait of a reply, if the server ends. Returns whether no more wait is left.
fn has_waited(late: &mut u32, ending: &ServerShutdown) -> bool
    ensures waits { (late.new ≡ waits_after late.old true)
        ⊎ (late.new ≡ waits_after late.old false) }
    ensures spent { result ≡ has_no_wait late.new }
{
    *late = waits_after(*late, ending.has_begun(ShutdownStage::Sessions));
    *late >= LAST_WAITS
}

/// Writes some octets from the start, at least one. `late` counts the waits of the whole reply since the server ends.
fn write_some<W: Write>(
    to: &mut W,
    octets: &[u8],
    late: &mut u32,
    ending: &ServerShutdown,
) -> io::Result<usize>
    ensures some { IfOk result (λ count. 0 < count) }
    ensures bound { IfOk result (λ count. count ≤ length octets.now) }
    ensures octets { IfOk result (λ count.
        Appends (W.contents to.old) (W.contents to.new) (take count octets.now)) }
    ensures kept { OnErr result (Keeps (W.contents to.old) (W.contents to.new)) }
{
    'writes: for _ in 0..MOST_WAITS {
        match to.write(octets) {
            Ok(0) => return Err(io::Error::from(ErrorKind::WriteZero)),
            Ok(count) => return Ok(count),
            Err(error) => {
                if !is_pause(error.kind()) || has_waited(late, ending) {
                    return Err(error);
                }
            }
        }
    }
    Err(io::Error::from(ErrorKind::TimedOut))
}

/// Writes all octets of a reply, each once and in order. Waits for a peer that reads nothing: for each part of the reply
/// as often as a write may time out, but once the server ends twice for the whole of it. A write that takes a part is
/// such a wait, since it takes no more for as long as it may wait. After an error a part of the reply is written, from
/// its front.
pub(crate) fn write_reply<W: Write>(
    to: &mut W,
    octets: &[u8],
    ending: &ServerShutdown,
) -> io::Result<()>
    ensures octets { OnOk result (Appends (W.contents to.old) (W.contents to.new) octets.now) }
    ensures part { OnErr result
        (AppendsPart (W.contents to.old) (W.contents to.new) octets.now) }
{
    let mut done = 0;
    let mut late = 0;
    while done < octets.len() {
        let count = write_some(to, &octets[done..], &mut late, ending)?;
        done += count;
        if done < octets.len() && has_waited(&mut late, ending) {
            return Err(io::Error::from(ErrorKind::TimedOut));
        }
    }
    Ok(())
}
