//! PASS: the login itself.

ghost use Rattle.std.specs.Prelude.{◌≡◌, ◌≤◌, ◌+◌, [], ◌∷◌, IfOk, OnErr, vec_len, vec_capacity};
ghost use Rattle.ftp_reply.specs.Replies.{OneLine};
ghost use Rattle.session_table.specs.Plans.{RanByFloors};
ghost use Rattle.session_table.specs.Plans.Plan.{AskAdmit, Then};
ghost use Rattle.session_table.specs.StateRows.{enters, login_message, number_of, pass_row, turned_away};
ghost use Rattle.session_table.specs.declared.actions.Action.TheVariants.{CloseControl, Hook, Say};
ghost use Rattle.session_table.specs.declared.actions.HookCall.TheVariants.{Login, LoginFailed};
ghost use Rattle.session_table.specs.declared.answers.Answer.TheVariants.{Made};

use authorizer::Authorizer;
use rate_floors::Floors;
use session_state::{RowResult, State, copied, push_reserved, room_for};
use session_table::{Action, Answer, HookCall, Refusal, Stage, Text};
use std::alloc::{AllocError, Allocator};

/// The reply to a login; a removed user has no message.
fn welcome<A: Allocator + Clone>(
    state: &State<A>,
    users: &Authorizer<A>,
) -> Result<Answer<A>, AllocError>
    ensures reply { IfOk result (λ reply.
        reply ≡ Made (OneLine 230 (login_message users.now.users state.now.name))) }
{
    match users.msg_login(state.name()) {
        Some(message) => copied(state.alloc()?, 230, message),
        None => copied(state.alloc()?, 230, ""),
    }
}

fn name_of<A: Allocator + Clone>(state: &State<A>) -> Result<Text<A>, AllocError>
    ensures name { IfOk result (λ name. name ≡ state.now.name) }
{
    Text::copy_of(state.alloc()?, state.name())
}

fn welcomed<A: Allocator + Clone, R: Drop, K: Drop>(
    state: &State<A>,
    users: &Authorizer<A>,
) -> RowResult<A, R, K>
    ensures actions { IfOk result (λ actions. actions.items
        ≡ Say (Made (OneLine 230 (login_message users.now.users state.now.name)))
        ∷ Hook (Login state.now.name) ∷ []) }
{
    let mut actions = room_for(state, 2)?;
    let reply = welcome(state, users)?;
    push_reserved(&mut actions, Action::Say(reply));
    let name = name_of(state)?;
    push_reserved(&mut actions, Action::Hook(HookCall::Login(name)));
    Ok(actions)
}

/// Refuses a login whose guaranteed rate does not fit.
fn not_admitted<A: Allocator + Clone, R: Drop, K: Drop>(state: &State<A>) -> RowResult<A, R, K>
    ensures actions { IfOk result (λ actions. actions.items
        ≡ Say (Answer.Refusal Refusal.NoGuarantee) ∷ CloseControl ∷ []) }
{
    let mut actions = room_for(state, 2)?;
    let refused = Answer::Refusal(Refusal::NoGuarantee);
    push_reserved(&mut actions, Action::Say(refused));
    push_reserved(&mut actions, Action::CloseControl);
    Ok(actions)
}

fn number_of<A: Allocator + Clone>(state: &State<A>, users: &Authorizer<A>) -> u32
    ensures number { result ≡ number_of users.now.users state.now.name }
{
    users.number(state.name()).unwrap_or(0)
}

/// Picks the actions and the state, depending on whether the session was admitted.
fn settle<A: Allocator + Clone, R: Drop, K: Drop>(
    state: &mut State<A>,
    users: &Authorizer<A>,
    number: u32,
    fits: bool,
    welcomed: Vec<Action<A, R, K>, A>,
    refused: Vec<Action<A, R, K>, A>,
) -> Vec<Action<A, R, K>, A>
    requires number { number ≡ number_of users.now.users state.old.name }
    requires welcomed { welcomed.items
        ≡ Say (Made (OneLine 230 (login_message users.now.users state.old.name)))
        ∷ Hook (Login state.old.name) ∷ [] }
    requires refused { refused.items
        ≡ Say (Answer.Refusal Refusal.NoGuarantee) ∷ CloseControl ∷ [] }
    ensures row { Then state.new result.items ≡ enters users.now.users state.old fits }
{
    if fits {
        state.log_in(number);
        return welcomed;
    }
    state.close_control();
    refused
}

/// Takes a right password: asks for admission.
fn enter<A: Allocator + Clone, F: Allocator + Clone, R: Drop, K: Drop>(
    state: &mut State<A>,
    users: &Authorizer<A>,
    floors: &mut Floors<F>,
) -> RowResult<A, R, K>
    ensures row { IfOk result (λ actions.
        RanByFloors
        (AskAdmit (number_of users.now.users state.old.name) (enters users.now.users state.old))
        floors.old floors.new state.new actions.items) }
    ensures unchanged { OnErr result (state.new ≡ state.old) }
    ensures uncounted { OnErr result (floors.new ≡ floors.old) }
{
    let number = number_of(state, users);
    let welcomed = welcomed(state, users)?;
    let refused = not_admitted(state)?;
    let fits = floors.admit(number);
    Ok(settle(state, users, number, fits, welcomed, refused))
}

/// Takes a login attempt.
fn lose_attempt<A: Allocator + Clone, R: Drop, K: Drop>(
    state: &mut State<A>,
    actions: &mut Vec<Action<A, R, K>, A>,
)
    requires reported { actions.old.items ≡ Hook (LoginFailed state.old.name) ∷ [] }
    requires room { vec_len actions.old + 2 ≤ vec_capacity actions.old }
    ensures row { Then state.new actions.new.items ≡ turned_away state.old }
{
    if state.is_last_attempt() {
        push_reserved(
            actions,
            Action::Say(Answer::Refusal(Refusal::TooManyLogins)),
        );
        push_reserved(actions, Action::CloseControl);
        state.lose_last_attempt();
        return;
    }
    let refused = Answer::Refusal(Refusal::LoginIncorrect);
    push_reserved(actions, Action::Say(refused));
    state.lose_attempt();
}

/// Takes a wrong password.
fn turn_away<A: Allocator + Clone, R: Drop, K: Drop>(state: &mut State<A>) -> RowResult<A, R, K>
    ensures row { IfOk result (λ actions. Then state.new actions.items ≡ turned_away state.old) }
    ensures unchanged { OnErr result (state.new ≡ state.old) }
{
    let mut actions = room_for(state, 3)?;
    let name = name_of(state)?;
    push_reserved(&mut actions, Action::Hook(HookCall::LoginFailed(name)));
    lose_attempt(state, &mut actions);
    Ok(actions)
}

/// PASS (RFC 959, section 4.1.1). After an error the session and the floors are unchanged.
pub fn pass_row<A: Allocator + Clone, F: Allocator + Clone, R: Drop, K: Drop>(
    state: &mut State<A>,
    users: &Authorizer<A>,
    floors: &mut Floors<F>,
    password: &str,
) -> RowResult<A, R, K>
    ensures row { IfOk result (λ actions.
        RanByFloors (pass_row users.now.users state.old password.now)
        floors.old floors.new state.new actions.items) }
    ensures unchanged { OnErr result (state.new ≡ state.old) }
    ensures uncounted { OnErr result (floors.new ≡ floors.old) }
{
    match state.stage() {
        Stage::Greeted | Stage::Closed => state.refuse(Refusal::NoName),
        Stage::Inside => state.refuse(Refusal::AlreadyInside),
        Stage::Named => {
            if users.check_password(state.name(), password) {
                return enter(state, users, floors);
            }
            turn_away(state)
        }
    }
}
