//! The end of a login: the reply to QUIT, and the actions by which a user leaves.

ghost use Rattle.std.specs.Prelude.{◌≡◌, ◌<◌, ◌≤◌, ◌+◌, [], ◌∷◌, ◌++◌, cond, IfOk, vec_len, vec_capacity};
ghost use Rattle.session_state.specs.Waiting.{if_quitting};
ghost use Rattle.session_table.specs.Plans.Plan.{Then};
ghost use Rattle.session_table.specs.StateRows.{goodbye_reply, parts};
ghost use Rattle.session_table.specs.declared.actions.Action.TheVariants.{Abort, Hook, ReleaseFloor};
ghost use Rattle.session_table.specs.declared.actions.HookCall.TheVariants.{Logout};

use crate::answers::copied;
use crate::room::push_reserved;
use crate::state::State;
use authorizer::Authorizer;
use session_table::{Action, Answer, Control, HookCall, Notice, Text};
use std::alloc::{AllocError, Allocator};
use std::marker::Model;

/// Appends the abort of a running transfer.
pub fn push_abort<A: Allocator, R: Drop, K: Drop>(actions: &mut Vec<Action<A, R, K>, A>, runs: bool)
    requires room { vec_len actions.old < vec_capacity actions.old }
    ensures items { actions.new.items ≡ actions.old.items ++ cond runs (Abort ∷ []) [] }
    ensures len { vec_len actions.new ≤ vec_len actions.old + 1 }
    ensures kept { vec_capacity actions.old ≤ vec_capacity actions.new }
{
    if runs {
        push_reserved(actions, Action::Abort);
    }
}

/// Appends the actions of a user who leaves.
pub fn push_logout<A: Allocator, R: Drop, K: Drop>(
    actions: &mut Vec<Action<A, R, K>, A>,
    was_inside: bool,
    name: Text<A>,
    number: u32,
)
    requires room { vec_len actions.old + 2 ≤ vec_capacity actions.old }
    ensures items { actions.new.items
        ≡ actions.old.items ++ cond was_inside (Hook (Logout name) ∷ ReleaseFloor number ∷ []) [] }
    ensures len { vec_len actions.new ≤ vec_len actions.old + 2 }
    ensures kept { vec_capacity actions.old ≤ vec_capacity actions.new }
{
    if was_inside {
        push_reserved(actions, Action::Hook(HookCall::Logout(name)));
        push_reserved(actions, Action::ReleaseFloor(number));
    }
}

/// The reply to QUIT.
fn quit_reply<A: Allocator + Clone>(
    state: &State<A>,
    users: &Authorizer<A>,
) -> Result<Answer<A>, AllocError>
    ensures reply { IfOk result (λ reply. reply ≡ goodbye_reply users.now.users state.now) }
{
    if !state.is_inside() {
        return Ok(Answer::Notice(Notice::Goodbye));
    }
    match users.msg_quit(state.name()) {
        None => Ok(Answer::Notice(Notice::Goodbye)),
        Some(message) => copied(state.alloc()?, 221, message),
    }
}

/// The reply to QUIT, made before anything is changed.
#[derive(Drop)]
pub struct GoodbyeReply<A: Allocator> {
    reply: Answer<A>,
    nobody: Text<A>,
}

impl<A: Allocator> Model for GoodbyeReply<A> {
    ghost use Rattle.std.specs.Prelude.{◌≡◌, []};
    ghost use Rattle.session_table.specs.declared.answers.Answer.{Answer};

    ghost Value = { Answer A };

    ghost view = { λ goodbye_reply. goodbye_reply.reply };

    ghost invariant = { λ goodbye_reply. goodbye_reply.nobody ≡ [] };
}

impl<A: Allocator + Clone> GoodbyeReply<A> {
    /// The reply to QUIT: the user's message, or `Goodbye`.
    pub fn new(state: &State<A>, users: &Authorizer<A>) -> Result<GoodbyeReply<A>, AllocError>
        ensures reply { IfOk result (λ reply. reply ≡ goodbye_reply users.now.users state.now) }
    {
        let nobody = Text::empty(state.alloc()?);
        let reply = quit_reply(state, users)?;
        Ok(GoodbyeReply { reply, nobody })
    }

    /// The reply to a QUIT that waits; `None` if none waits.
    pub fn if_waiting(
        state: &State<A>,
        users: &Authorizer<A>,
    ) -> Result<Option<GoodbyeReply<A>>, AllocError>
        ensures reply { IfOk result (λ reply.
            reply ≡ if_quitting state.now.control (goodbye_reply users.now.users state.now)) }
    {
        match state.control() {
            Control::Open | Control::Closing => Ok(None),
            Control::Quitting => {
                let goodbye_reply = GoodbyeReply::new(state, users)?;
                Ok(Some(goodbye_reply))
            }
        }
    }
}

/// Appends the farewell to other actions: the reply, the leave of the user, and the close.
pub fn push_goodbye_reply<A: Allocator + Clone, R: Drop, K: Drop>(
    state: &mut State<A>,
    goodbye_reply: GoodbyeReply<A>,
    actions: &mut Vec<Action<A, R, K>, A>,
)
    requires room { vec_len actions.old + 4 ≤ vec_capacity actions.old }
    ensures parts { Then state.new actions.new.items
        ≡ parts state.old goodbye_reply actions.old.items }
{
    let was_inside = state.is_inside();
    let number = state.number();
    let name = state.log_out(goodbye_reply.nobody);
    push_reserved(actions, Action::Say(goodbye_reply.reply));
    push_logout(actions, was_inside, name, number);
    push_reserved(actions, Action::CloseControl);
}
