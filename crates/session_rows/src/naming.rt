//! The greeting, USER and REIN.

ghost use Rattle.std.specs.Prelude.{◌≡◌, ◌<◌, ◌≤◌, ◌+◌, [], ◌∷◌, ◌++◌, cond, IfOk, OnErr, vec_len, vec_capacity};
ghost use Rattle.ftp_reply.specs.Replies.{OneLine};
ghost use Rattle.session_table.specs.Plans.Plan.{Then};
ghost use Rattle.session_table.specs.StateRows.{greeting, rein_row, restarts, user_row};
ghost use Rattle.session_table.specs.declared.actions.Action.TheVariants.{DropData};
ghost use Rattle.session_table.specs.declared.answers.Answer.TheVariants.{Made};

use session_state::{RowResult, State, copied, push_logout, push_reserved, room_for};
use session_table::{Action, Answer, HookCall, Notice, Stage, Text};
use std::alloc::{AllocError, Allocator};
use virtual_path::VPath;

fn push_drop<A: Allocator, R: Drop, K: Drop>(
    actions: &mut Vec<Action<A, R, K>, A>,
    was_prepared: bool,
)
    requires room { vec_len actions.old < vec_capacity actions.old }
    ensures items { actions.new.items ≡ actions.old.items ++ cond was_prepared (DropData ∷ []) [] }
{
    if was_prepared {
        push_reserved(actions, Action::DropData);
    }
}

fn restart<A: Allocator + Clone, R: Drop, K: Drop>(
    state: &mut State<A>,
    root: VPath<A>,
    name: Text<A>,
    stage: Stage,
    reply: Answer<A>,
    actions: &mut Vec<Action<A, R, K>, A>,
)
    requires root { root ≡ [] }
    requires empty { actions.old.items ≡ [] }
    requires room { vec_len actions.old + 4 ≤ vec_capacity actions.old }
    ensures row { Then state.new actions.new.items ≡ restarts state.old name stage reply }
{
    let was_inside = state.is_inside();
    let was_prepared = state.is_prepared();
    let number = state.number();
    let before = state.begin_anew(root, name, stage);
    push_logout(actions, was_inside, before, number);
    push_reserved(actions, Action::Say(reply));
    push_drop(actions, was_prepared);
}

/// USER (RFC 959, section 4.1.1).
pub fn user_row<A: Allocator + Clone, R: Drop, K: Drop>(
    state: &mut State<A>,
    name: &str,
) -> RowResult<A, R, K>
    ensures row { IfOk result (λ actions.
        Then state.new actions.items ≡ user_row state.old name.now) }
    ensures unchanged { OnErr result (state.new ≡ state.old) }
{
    let name = Text::copy_of(state.alloc()?, name)?;
    let root = VPath::root(state.alloc()?);
    let mut actions = room_for(state, 4)?;
    let reply = Answer::Notice(Notice::PasswordRequired);
    restart(state, root, name, Stage::Named, reply, &mut actions);
    Ok(actions)
}

fn banner_reply<A: Allocator + Clone>(state: &State<A>) -> Result<Answer<A>, AllocError>
    ensures reply { IfOk result (λ reply. reply ≡ Made (OneLine 220 state.now.banner)) }
{
    copied(state.alloc()?, 220, state.banner())
}

/// REIN (RFC 959, section 4.1.1).
pub fn rein_row<A: Allocator + Clone, R: Drop, K: Drop>(state: &mut State<A>) -> RowResult<A, R, K>
    ensures row { IfOk result (λ actions. Then state.new actions.items ≡ rein_row state.old) }
    ensures unchanged { OnErr result (state.new ≡ state.old) }
{
    let nobody = Text::empty(state.alloc()?);
    let root = VPath::root(state.alloc()?);
    let mut actions = room_for(state, 4)?;
    let reply = banner_reply(state)?;
    restart(state, root, nobody, Stage::Greeted, reply, &mut actions);
    Ok(actions)
}

/// Makes the greeting (RFC 959, section 5.4).
pub fn greeting<A: Allocator + Clone, R: Drop, K: Drop>(state: &State<A>) -> RowResult<A, R, K>
    ensures row { IfOk result (λ actions. Then state.now actions.items ≡ greeting state.now) }
{
    let mut actions = room_for(state, 2)?;
    let reply = banner_reply(state)?;
    push_reserved(&mut actions, Action::Say(reply));
    push_reserved(&mut actions, Action::Hook(HookCall::Connect));
    Ok(actions)
}
