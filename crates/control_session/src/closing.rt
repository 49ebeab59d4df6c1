//! The end of a control session. It takes no memory.

ghost use Rattle.std.specs.Prelude.{◌≡◌, [], Bool, List, None, Option, true, ℕ};
ghost use Rattle.control_session.specs.Calls.{Chain, HostCall};
ghost use Rattle.control_session.specs.Rows.{IsRow};
ghost use Rattle.control_session.specs.Sides.{came_of};
ghost use Rattle.control_session.specs.Standing.{Closing, owed, owed_by, owed_in, stand};
ghost use Rattle.control_session.specs.Turns.{Carries, Heard, Went, asked_as, at, release_calls};
ghost use Rattle.control_session.specs.declared.turn_fault.TurnFault.{TurnFault};
ghost use Rattle.ftp_wire.specs.Items.{Item};
ghost use Rattle.session_events.specs.Leaving.{abort_actions, leaving_by, logout_actions};
ghost use Rattle.session_table.specs.Views.{is_closed};

use crate::actions::only_event;
use crate::host::Host;
use crate::talk::Talk;
use session_core::{Leaving, LoggedOut, Session};
use session_table::{HookCall, Input, Text};
use std::alloc::Allocator;
use std::mem;

fn abort_if<A: Allocator + Clone, H: Host<A>>(host: &mut H, aborts: bool)
    ensures aborts { (lost : Option TurnFault) → (calls : List (HostCall A H.Store H.Source H.Sink))
        × Chain H.Does host.old calls host.new × Carries (abort_actions aborts) lost calls lost }
{
    if aborts {
        host.abort();
    }
}

/// Reports the logout to the handler. Returns the user's number.
fn note_logout<A: Allocator + Clone, H: Host<A>>(
    host: &mut H,
    left: Option<LoggedOut<A>>,
) -> Option<u32>
    ensures notes { (lost : Option TurnFault) → (calls : List (HostCall A H.Store H.Source H.Sink))
        × Chain H.Does host.old calls host.new × Carries (logout_actions left) lost calls lost }
    ensures number { result ≡ owed_by left }
{
    match left {
        None => None,
        Some(left) => {
            let number = left.number;
            host.note(&HookCall::Logout(left.name));
            Some(number)
        }
    }
}

/// Carries out the actions of Closed, but for the release of a floor. Returns the number of the user who left.
fn leave<A: Allocator + Clone, H: Host<A>>(host: &mut H, leaving: Option<Leaving<A>>) -> Option<u32>
    ensures carries { (lost : Option TurnFault)
        → (calls : List (HostCall A H.Store H.Source H.Sink))
        × Chain H.Does host.old calls host.new × Carries (leaving_by leaving) lost calls lost }
    ensures owes { result ≡ owed_in leaving }
{
    match leaving {
        None => None,
        Some(leaving) => {
            abort_if(host, leaving.aborts);
            let left = note_logout(host, leaving.left);
            host.note(&HookCall::Disconnect);
            left
        }
    }
}

/// Takes an event of the data side after Closed.
fn end<A: Allocator + Clone, H: Host<A>>(
    host: &mut H,
    session: &mut Session<A>,
    came: Option<Input<A, H::Sink>>,
)
    requires closed { is_closed session.old.view.stage ≡ true }
    ensures closed { is_closed session.new.view.stage ≡ true }
    ensures went { (taken : List Item) (heard : Heard) (owed : List ℕ) (closed : Bool)
        (lost : Option TurnFault)
        → Went (IsRow {A = A} {R = H.Source} H.Step) H.Does
        host.old (at session.old (came_of came) taken heard owed closed lost)
        host.new (at session.new None taken heard owed closed lost) }
{
    if let Some(event) = only_event(came) {
        host.end(session, &mut Some(event));
    }
}

/// Releases the floor of the user who left.
fn pay<A: Allocator + Clone, H: Host<A>>(host: &mut H, left: Option<u32>)
    ensures paid { Chain {A = A} H.Does host.old
        (release_calls (owed left)) host.new }
{
    if let Some(user) = left {
        host.release(user);
    }
}

/// Ends the session: closes it, aborts a running transfer, waits for its end and passes that to the session. Then the
/// floor of the user who was logged in is released: no transfer of the session is left.
pub(crate) fn close<A: Allocator + Clone, H: Host<A>>(
    host: &mut H,
    talk: &mut Talk<A, H::Sink>,
    nobody: Text<A>,
)
    requires nobody { nobody ≡ [] }
    ensures went { (taken : List Item) (heard : Heard)
        → Went (IsRow {A = A} {R = H.Source} H.Step) H.Does
        host.old (stand talk.old taken heard)
        host.new (at talk.new.session None taken (asked_as true heard) []
        talk.old.closed talk.old.lost) }
    ensures closing { (taken : List Item) (heard : Heard)
        → Closing (IsRow {A = A} {R = H.Source} H.Step) H.Does
        host.old (stand talk.old taken heard)
        host.new (at talk.new.session None taken (asked_as true heard) []
        talk.old.closed talk.old.lost) }
    ensures closed { is_closed talk.new.session.view.stage ≡ true }
    ensures kept { talk.new.closed ≡ talk.old.closed }
    ensures lost { talk.new.lost ≡ talk.old.lost }
{
    let leaving = host.close(&mut talk.session, &mut Some(nobody));
    let left = leave(host, leaving);
    let came = mem::replace(&mut talk.came, None);
    end(host, &mut talk.session, came);
    let last = host.settle();
    end(host, &mut talk.session, last);
    pay(host, left);
}
