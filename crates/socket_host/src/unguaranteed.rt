//! Logins that are refused, since the guaranteed rate of their user does not fit.

ghost use Rattle.std.specs.Prelude.{◌≡◌, IfNone, IfSome, MatchResult, None};
ghost use Rattle.std.specs.declared.alloc.Global.{Global};
ghost use Rattle.session_core.specs.Entering.{entering};
ghost use Rattle.socket_host.specs.Unguaranteed.{IsEntrant, lacks_in, lacks_by, reason_for};

use crate::standing::number_of;
use authorizer::Authorizer;
use control_session::{NoStep, Session};
use lent_parts::PartsName;
use rate_floors::{CarryFault, Floors};
use server_house::{ClientSession, House, ServerHooks, ServerRuntime, UnguaranteedLogin};
use session_table::{Action, Answer, Input, Refusal};
use std::alloc::Global;
use virtual_tree::Store;

/// The user whom the step of an input would log in.
#[derive(Drop)]
pub(crate) struct Entrant {
    /// The name; none if there was no memory for it.
    pub(crate) name: Option<String>,
    pub(crate) number: u32,
}

/// The user whom the step of an input would log in, by these users.
pub(crate) fn entrant_of<K>(
    alloc: Global,
    session: &Session<Global>,
    users: &Authorizer,
    input: &Option<Input<Global, K>>,
) -> Option<Entrant>
    ensures entrant { IfSome input.now (λ input. IsEntrant users.now.users
        (entering users.now.users session.now.view session.now.held input) result) }
    ensures none { IfNone input.now (result ≡ None) }
{
    let Some(input) = input else {
        return None;
    };
    match session.entering(users, input) {
        Some(name) => Some(Entrant {
            name: String::from_str(alloc, name).ok(),
            number: number_of(users, name),
        }),
        None => None,
    }
}

// Returns whether an action is the reply to a login whose guarantee does not fit.
fn lacks_in<R, K>(action: &Action<Global, R, K>) -> bool
    ensures lacks { result ≡ lacks_in action.now }
{
    matches!(action, Action::Say(Answer::Refusal(Refusal::NoGuarantee)))
}

// Returns whether one of the actions of a step is that reply.
fn lacks_by<R, K>(actions: &[Action<Global, R, K>]) -> bool
    ensures lacks { result ≡ lacks_by actions.now }
{
    for action in actions {
        if lacks_in(action) {
            return true;
        }
    }
    false
}

/// The reason for which the guarantee of a user did not fit, if a step was made that refuses their login for it: by the
/// floors after the step, which it has not changed then.
pub(crate) fn reason_for<R, K>(
    made: &Result<Vec<Action<Global, R, K>>, NoStep<Global, K>>,
    floors: &Floors,
    entrant: &Option<Entrant>,
) -> Option<CarryFault>
    ensures reason { MatchResult made.now
        (λ actions. result ≡ reason_for actions.items floors.now entrant.now)
        (λ why. result ≡ None) }
{
    let (Ok(actions), Some(entrant)) = (made, entrant) else {
        return None;
    };
    if lacks_by(actions) {
        floors.refusal(entrant.number)
    } else {
        None
    }
}

/// Reports a login that was refused for its guarantee, if there is a reason.
pub(crate) fn tell_unguaranteed<R, S, H, B>(
    rt: &R,
    house: &House<S, H, B>,
    own: ClientSession,
    entrant: &Option<Entrant>,
    reason: Option<CarryFault>,
)
where
    R: ServerRuntime,
    S: Store<Global>,
    H: ServerHooks,
    B: PartsName,
{
    let (Some(entrant), Some(why)) = (entrant, reason) else {
        return;
    };
    let user = match &entrant.name {
        Some(name) => Some(name.as_str()),
        None => None,
    };
    house
        .handler
        .lock(rt)
        .on_unguaranteed(own, &UnguaranteedLogin { user, why });
}
