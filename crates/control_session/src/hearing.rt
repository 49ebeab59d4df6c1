//! Reads of the client's text.

ghost use Rattle.std.specs.Prelude.{◌≡◌, ◌⊎◌, ◌<◌, ◌≤◌, ◌+◌, ◌++◌, [], ℕ, List, IfErr, IfOk, IsErrOf, None, OnErr, OnOk, length, true, false};
ghost use Rattle.control_session.specs.Sessions.{IsLostTo, nothing};
ghost use Rattle.control_session.specs.Rows.{IsRow};
ghost use Rattle.control_session.specs.Standing.{AllTaken, stand};
ghost use Rattle.control_session.specs.Turns.{Heard, Went, WhileOpen, due};
ghost use Rattle.ftp_wire.specs.Items.{Item};
ghost use Rattle.ftp_wire.specs.Reading.{HasRead};

use crate::fault::{ControlFault, unless_lost};
use crate::host::{Host, Piece};
use crate::talk::Talk;
use crate::turns::{catch_up, take_lines};
use ftp_wire::LineReader;
use std::alloc::Allocator;

/// Reads once, and takes the events of the data side, the held lines that are due, and the completed lines. Returns
/// whether the end was read.
fn hear<A: Allocator + Clone, H: Host<A>>(
    alloc: &A,
    host: &mut H,
    talk: &mut Talk<A, H::Sink>,
    lines: &mut LineReader<A>,
    buffer: &mut [u8],
) -> Result<bool, ControlFault>
    requires room { 0 < length buffer.old }
    requires none { talk.old.came ≡ None }
    requires whole { talk.old.lost ≡ None }
    requires live { talk.old.closed ≡ false }
    requires due { due talk.old.session ≡ false }
    ensures went { (taken : List Item) (heard : Heard) → AllTaken taken heard
        → HasRead heard.octets heard.items lines.old
        → heard.ended ≡ false → heard.asked ≡ true → (last : List Item) × (heard' : Heard)
        × Went (WhileOpen (IsRow {A = A} {R = H.Source} H.Step)) H.Does
        host.old (stand talk.old taken heard) host.new (stand talk.new last heard')
        × (heard'.reads ≡ heard.reads + 1)
        × (IsErrOf result ControlFault.ReadFault → heard'.failed ≡ true)
        × IfOk result (λ ended. (heard'.ended ≡ ended)
        × HasRead heard'.octets heard'.items lines.new
        × ((talk.new.closed ≡ true)
        ⊎ (AllTaken last heard' × ((ended ≡ true) ⊎ (heard'.asked ≡ true)))))
        × OnErr result ((fed unfed : List ℕ) × (heard'.octets ≡ fed ++ unfed)
        × HasRead fed heard'.items lines.new) }
    ensures none { OnOk result (talk.new.came ≡ None) }
    ensures whole { OnOk result (talk.new.lost ≡ None) }
    ensures due { OnOk result ((talk.new.closed ≡ true) ⊎ (due talk.new.session ≡ false)) }
    ensures lost { IfErr result (IsLostTo talk.new.lost) }
    ensures buffer { length buffer.new ≡ length buffer.old }
{
    let piece = match host.read(buffer) {
        Ok(piece) => piece,
        Err(_) => return Err(ControlFault::ReadFault),
    };
    match piece {
        Piece::Octets(count) => {
            let items = lines.feed(&buffer[..count])?;
            take_lines(alloc, host, talk, items)?;
            Ok(false)
        }
        Piece::Nothing => {
            catch_up(alloc, host, talk)?;
            Ok(false)
        }
        Piece::AtEnd => Ok(true),
    }
}

/// Reads and takes lines, up to one that closes the control connection or to the end, with this number of reads at
/// most.
pub(crate) fn converse<A: Allocator + Clone, H: Host<A>>(
    alloc: &A,
    host: &mut H,
    talk: &mut Talk<A, H::Sink>,
    lines: &mut LineReader<A>,
    buffer: &mut [u8],
    turns: u32,
) -> Result<(), ControlFault>
    requires room { 0 < length buffer.old }
    requires none { talk.old.came ≡ None }
    requires live { talk.old.closed ≡ false }
    requires start { HasRead [] [] lines.old }
    ensures went { (last : List Item) × (heard : Heard)
        × Went (WhileOpen (IsRow {A = A} {R = H.Source} H.Step)) H.Does
        host.old (stand talk.old [] nothing) host.new (stand talk.new last heard)
        × (heard.reads ≤ turns)
        × (IsErrOf result ControlFault.ReadFault
        → (heard.failed ≡ true) ⊎ (heard.reads ≡ turns))
        × OnOk result (HasRead heard.octets heard.items lines.new
        × ((talk.new.closed ≡ true) ⊎ ((heard.ended ≡ true) × AllTaken last heard)))
        × OnErr result ((fed unfed : List ℕ) × (heard.octets ≡ fed ++ unfed)
        × HasRead fed heard.items lines.new) }
    ensures whole { OnOk result (talk.new.lost ≡ None) }
    ensures lost { IfErr result (IsLostTo talk.new.lost) }
{
    unless_lost(talk.lost)?;
    catch_up(alloc, host, talk)?;
    for _turn in 0..turns {
        if talk.closed {
            return Ok(());
        }
        let ended = hear(alloc, host, talk, lines, buffer)?;
        if ended {
            return Ok(());
        }
        if talk.closed {
            return Ok(());
        }
    }
    Err(ControlFault::ReadFault)
}
