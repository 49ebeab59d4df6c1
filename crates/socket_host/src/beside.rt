//! The wait of a session for its client beside what its transfer waits for.

ghost use Rattle.std.specs.Prelude.{◌≡◌, IfSome, true};
ghost use Rattle.socket_host.specs.Running.{is_awaiting};

use crate::control::ControlSocket;
use crate::running::SideTransfer;
use crate::waiting::{Beside, looks_at_door, looks_first};
use client_door::{DoorBell, Heard, await_answer, await_either};

// Waits for a client, or for the bell of its session, which is quiet then: whoever looks for the end that it is rung for
// looks after this.
fn await_bell(client: &ControlSocket, bell: &DoorBell) -> Heard {
    let heard = await_either(client, bell, client.longest_wait());
    if heard == Heard::Ring {
        bell.quiet();
    }
    heard
}

/// Waits for a client, or for what its transfer waits for: its end, which rings the bell, its connection, or the answer of
/// its port. Returns what the session does then. `None` without a wait: nothing is awaited, there is no bell, the last accept
/// met an error, or the machine refused.
pub(crate) fn wait_beside<R: Drop, K: Drop>(
    running: &SideTransfer<R, K>,
    client: &ControlSocket,
    bell: Option<&DoorBell>,
    is_well: bool,
) -> Option<Beside>
    ensures awaiting { IfSome result (λ next. is_awaiting running.now ≡ true) }
{
    match running {
        SideTransfer::Nothing | SideTransfer::Over(_) => None,
        SideTransfer::Moving { .. } => looks_first(
            await_bell(client, bell?),
            client.is_within_line(),
        ),
        SideTransfer::Connecting { outgoing, .. } => {
            let heard = await_answer(outgoing, client, client.longest_wait());
            looks_at_door(heard, client.is_within_line())
        }
        SideTransfer::Awaited { port, .. } => {
            if !is_well {
                return None;
            }
            let heard = await_either(port.listener(), client, client.longest_wait());
            looks_at_door(heard, client.is_within_line())
        }
    }
}
