//! The end of the control connection.

ghost use Rattle.std.specs.Prelude.{◌≡◌, [], IfOk, OnErr};
ghost use Rattle.session_events.specs.Leaving.{left_by};
ghost use Rattle.session_table.specs.declared.stages.Stage.TheVariants.{Closed};
ghost use Rattle.session_table.specs.Plans.Plan.{Then};
ghost use Rattle.session_table.specs.Table.{closed_row};
ghost use Rattle.session_table.specs.Views.{runs};

use session_state::{RowResult, State, push_abort, push_logout, push_reserved, room_for};
use session_table::{Action, HookCall, Text};
use std::alloc::Allocator;

/// The user who was logged in at the end of the control connection.
#[derive(Drop)]
pub struct LoggedOut<A: Allocator> {
    pub name: Text<A>,
    pub number: u32,
}

/// The actions that are left at the end of the control connection.
#[derive(Drop)]
pub struct Leaving<A: Allocator> {
    /// A transfer runs, and is to be aborted.
    pub aborts: bool,
    /// The user who was logged in, if any: the handler is called, and the guaranteed rate is released.
    pub left: Option<LoggedOut<A>>,
}

/// Ends the control connection: a running transfer is to be aborted, and the user leaves. Takes no memory: the empty
/// text `nobody` becomes the name.
pub fn leave<A: Allocator + Clone>(state: &mut State<A>, nobody: Text<A>) -> Leaving<A>
    requires nobody { nobody ≡ [] }
    ensures silent { state.new ≡ record state.old { stage = Closed; name = [] } }
    ensures aborts { result.aborts ≡ runs state.old.work }
    ensures left { result.left ≡ left_by state.old }
{
    let aborts = state.runs();
    let was_inside = state.is_inside();
    let number = state.number();
    let name = state.disconnect(nobody);
    let left = if was_inside {
        Some(LoggedOut { name, number })
    } else {
        None
    };
    Leaving { aborts, left }
}

/// Ends the control connection: a running transfer is aborted, and the user leaves.
pub fn close<A: Allocator + Clone, R: Drop, K: Drop>(state: &mut State<A>) -> RowResult<A, R, K>
    ensures row { IfOk result (λ actions. Then state.new actions.items ≡ closed_row state.old) }
    ensures unchanged { OnErr result (state.new ≡ state.old) }
{
    let mut actions = room_for(state, 4)?;
    let nobody = Text::empty(state.alloc()?);
    let was_inside = state.is_inside();
    let number = state.number();
    push_abort(&mut actions, state.runs());
    let name = state.disconnect(nobody);
    push_logout(&mut actions, was_inside, name, number);
    push_reserved(&mut actions, Action::Hook(HookCall::Disconnect));
    Ok(actions)
}
