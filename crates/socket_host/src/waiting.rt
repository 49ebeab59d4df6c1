//! Decisions on the time of a client.

ghost use Rattle.std.specs.Prelude.{◌≡◌, ◌+◌, ◌*◌, ◌<◌, ◌↔◌, IsTrue, None, false, true};
ghost use Rattle.client_patience.specs.Waits.{IsTimeOut};
ghost use Rattle.socket_host.specs.Waiting.{after_rest, after_silence, is_life, looks_at_door, looks_first};

use client_door::Heard;
use client_patience::{Patience, TimeOut, Waits};
use control_session::Piece;
use event_word::has_passed;

/// The next step of a session after a wait for its client beside what its transfer waits for.
#[derive(Clone, Copy, Debug, PartialEq, Eq)]
pub(crate) enum Beside {
    /// It looks at its data side, and then reads.
    Look,
    /// It reads.
    Read,
    /// Neither: nothing came.
    Rest,
}

/// The limit of time that a client has passed: none while the end of something that it began is not yet reported.
pub(crate) fn passed_limit(
    waits: &Waits,
    patience: Patience,
    is_busy: bool,
    now: u64,
) -> Option<TimeOut>
    ensures busy { IsTrue is_busy → result ≡ None }
    ensures idle { is_busy ≡ false → IsTimeOut waits.now patience now result }
{
    if is_busy {
        None
    } else {
        waits.time_out(patience, now)
    }
}

/// Returns whether a read is a sign of life: it found octets, or the end of the text, or something runs.
pub(crate) fn is_life(is_busy: bool, piece: Piece) -> bool
    ensures life { result ≡ is_life is_busy piece }
{
    is_busy || piece != Piece::Nothing
}

// The next step if nothing came while a session waited: within a line it reads, since a read that finds nothing restores an
// end of the line that was lost as urgent data.
fn after_silence(is_open: bool) -> Beside
    ensures after { result ≡ after_silence is_open }
{
    if is_open { Beside::Read } else { Beside::Rest }
}

/// The next step of a session that waited for its client and for its bell, by what it heard, within a line or not; `None` if
/// the machine refused the wait.
pub(crate) fn looks_first(heard: Heard, is_open: bool) -> Option<Beside>
    ensures looks { result ≡ looks_first heard is_open }
{
    match heard {
        Heard::Ring => Some(Beside::Look),
        Heard::Knock => Some(Beside::Read),
        Heard::Silence => Some(after_silence(is_open)),
        Heard::Refusal => None,
    }
}

/// The same while it waited at the door of its data connection, for which its client is the bell: strangers at that door do
/// not keep it from its client.
pub(crate) fn looks_at_door(heard: Heard, is_open: bool) -> Option<Beside>
    ensures looks { result ≡ looks_at_door heard is_open }
{
    match heard {
        Heard::Knock => Some(Beside::Look),
        Heard::Ring => Some(Beside::Read),
        Heard::Silence => Some(after_silence(is_open)),
        Heard::Refusal => None,
    }
}

/// The next step after a rest without the client, with something to report or not.
pub(crate) fn after_rest(is_over: bool) -> Beside
    ensures after { result ≡ after_rest is_over }
{
    if is_over { Beside::Look } else { Beside::Read }
}

/// Returns whether a reply has been delayed for these seconds, or is not to be delayed any longer since the server ends.
pub(crate) fn is_due(is_ending: bool, since: u64, now: u64, seconds: u32) -> bool
    ensures ending { IsTrue is_ending → IsTrue result }
    ensures waited { is_ending ≡ false → (IsTrue result ↔ (since + seconds * 1000000 < now)) }
{
    is_ending || has_passed(since, now, u64::from(seconds) * 1_000_000)
}
