//! A whole control session.

ghost use Rattle.std.specs.Prelude.{ℕ, ◌≡◌, ◌<◌, [], IfOk, vec_len};
ghost use Rattle.authorizer.specs.Users.{Users};
ghost use Rattle.control_session.specs.Charges.{ChargesUsers, IsChargedByLogins};
ghost use Rattle.control_session.specs.Floors.{HasFloors};
ghost use Rattle.control_session.specs.Logins.{IsServedByLogins, KeepsUsers};
ghost use Rattle.control_session.specs.Sessions.{IsServed, IsSession, new_session};
ghost use Rattle.control_session.specs.Rows.{IsRow};
ghost use Rattle.ftp_wire.specs.Reading.{HasRead};
ghost use Rattle.rate_floors.specs.Promises.{Promises};
ghost use Rattle.session_table.specs.Plans.Plan.{Then};
ghost use Rattle.session_table.specs.StateRows.{greeting};

use crate::carrying::carry_all;
use crate::closing::close;
use crate::fault::ControlFault;
use crate::hearing::converse;
use crate::host::Host;
use crate::talk::Talk;
use ftp_wire::LineReader;
use session_core::Session;
use session_table::{Action, Settings, Text};
use std::alloc::{AllocError, Allocator};

/// Maximum number of octets that one read returns: more than most commands have. A session holds as much memory for them.
const PIECE: usize = 512;

/// The memory that a session needs in addition to its `Session`, allocated before the greeting.
#[derive(Drop)]
struct Room<A: Allocator> {
    lines: LineReader<A>,
    buffer: Vec<u8, A>,
    nobody: Text<A>,
}

impl<A: Allocator + Clone> Room<A> {
    // Allocates the memory. The size is a parameter, so that no proof computes a list that long.
    fn new(alloc: &A, size: usize) -> Result<Room<A>, AllocError>
        ensures start { IfOk result (λ room. HasRead [] [] room.lines) }
        ensures size { IfOk result (λ room. vec_len room.buffer ≡ size) }
        ensures nobody { IfOk result (λ room. room.nobody ≡ []) }
    {
        let lines = LineReader::new(alloc.clone()?);
        let nobody = Text::empty(alloc.clone()?);
        let buffer = vec![in alloc.clone()?; 0u8; size]?;
        Ok(Room {
            lines,
            buffer,
            nobody,
        })
    }
}

/// Greets, takes lines, and closes the session however it ends.
fn run_session<A: Allocator + Clone, H: Host<A>>(
    alloc: &A,
    host: &mut H,
    session: Session<A>,
    actions: Vec<Action<A, H::Source, H::Sink>, A>,
    room: Room<A>,
    turns: u32,
) -> Result<(), ControlFault>
    requires greeting { Then session.view actions.items ≡ greeting session.view }
    requires start { HasRead [] [] room.lines }
    requires size { 0 < vec_len room.buffer }
    requires nobody { room.nobody ≡ [] }
    ensures whole { IsSession (IsRow {A = A} {R = H.Source} H.Step) H.Does
        turns result session host.old host.new }
{
    let Room {
        mut lines,
        mut buffer,
        nobody,
    } = room;
    let lost = carry_all(alloc, host, None, actions);
    let mut talk = Talk {
        session,
        came: None,
        closed: false,
        lost,
    };
    let piece = buffer.as_mut_slice();
    let outcome = converse(alloc, host, &mut talk, &mut lines, piece, turns);
    lines.reads_as();
    close(host, &mut talk, nobody);
    outcome
}

/// Serves a whole control session of a client at this address: greets, takes lines up to one that closes the control
/// connection or to the end of the client's text, and closes the session however it ends. The banner of the settings
/// contains no end of a line. Each step is for the users that the host lends with it.
///
/// `ReadFault`: a read failed, or `turns` reads were made, each of at most 512 octets. `WriteFault`: a reply could
/// not be written. `Memory`: memory ran out. No call of the host is made before the memory to begin is allocated.
pub fn run_control<A: Allocator + Clone, H: Host<A>>(
    alloc: &A,
    host: &mut H,
    settings: Settings<A>,
    peer: [u8; 4],
    turns: u32,
) -> Result<(), ControlFault>
    ensures whole { IsServed (IsRow {A = A} {R = H.Source} H.Step) H.Does
        turns result (new_session settings peer) host.old host.new }
    ensures floors { (floors : H → Promises) → HasFloors H.Does floors
        → floors host.new ≡ floors host.old }
    ensures logins { (kept : H → Users) → KeepsUsers H.Does kept
        → IsServedByLogins (IsRow {A = A} {R = H.Source} H.Step) H.Does
        turns result (new_session settings peer) host.old host.new (kept host.old) }
    ensures charges { (kept : H → Users) (user charged : H → ℕ) → KeepsUsers H.Does kept
        → ChargesUsers H.Does kept user charged
        → IsChargedByLogins (IsRow {A = A} {R = H.Source} H.Step) H.Does
        turns result (new_session settings peer) host.old host.new
        (kept host.old) (user host.old) (charged host.old) (charged host.new) }
{
    let session = Session::new(alloc.clone()?, settings, peer)?;
    let greeting = session.greet()?;
    let room = Room::new(alloc, PIECE)?;
    run_session(alloc, host, session, greeting, room, turns)
}
