//! The replies of a step that refuse.

ghost use Rattle.std.specs.Prelude.{◌≡◌, MatchResult, None, false};
ghost use Rattle.std.specs.declared.alloc.Global.{Global};
ghost use Rattle.socket_host.specs.Refusals.{first_refusal, is_refusal, refusal_of, says_refusal};

use control_session::NoStep;
use server_house::SessionRefusal;
use session_table::{Action, Answer, Refusal};
use std::alloc::Global;

// Returns whether an action is a reply that refuses.
fn is_refusal<R, K>(action: &Action<Global, R, K>) -> bool
    ensures refusal { result ≡ is_refusal action.now }
{
    matches!(action, Action::Say(Answer::Refusal(_)))
}

/// Returns whether an action of a step is a reply that refuses.
pub(crate) fn says_refusal<R, K>(actions: &[Action<Global, R, K>]) -> bool
    ensures refusal { result ≡ says_refusal actions.now }
{
    for action in actions {
        if is_refusal(action) {
            return true;
        }
    }
    false
}

/// Returns whether a step was made that says a refusal.
pub(crate) fn is_refused<R, K>(made: &Result<Vec<Action<Global, R, K>>, NoStep<Global, K>>) -> bool
    ensures refused { MatchResult made.now
        (λ actions. result ≡ says_refusal actions.items) (λ why. result ≡ false) }
{
    match made {
        Ok(actions) => says_refusal(actions),
        Err(_) => false,
    }
}

// The refusal of a reply that ends a session, if an action is such a reply. That of a guarantee is told with its reason
// (`unguaranteed.rt`).
fn refusal_of<R, K>(action: &Action<Global, R, K>) -> Option<SessionRefusal>
    ensures refusal { result ≡ refusal_of action.now }
{
    match action {
        Action::Say(Answer::Refusal(Refusal::TooManyLogins)) => Some(SessionRefusal::TooManyLogins),
        Action::Say(Answer::Refusal(Refusal::TooManyHeldLines)) => {
            Some(SessionRefusal::TooManyHeldLines)
        }
        _ => None,
    }
}

// The first such refusal among the actions of a step.
fn first_refusal<R, K>(actions: &[Action<Global, R, K>]) -> Option<SessionRefusal>
    ensures first { result ≡ first_refusal actions.now }
{
    for action in actions {
        let refusal = refusal_of(action);
        if refusal.is_some() {
            return refusal;
        }
    }
    None
}

/// The refusal by which the session ends, if a step was made that says one.
pub(crate) fn ending_refusal<R, K>(
    made: &Result<Vec<Action<Global, R, K>>, NoStep<Global, K>>,
) -> Option<SessionRefusal>
    ensures refusal { MatchResult made.now
        (λ actions. result ≡ first_refusal actions.items) (λ why. result ≡ None) }
{
    match made {
        Ok(actions) => first_refusal(actions),
        Err(_) => None,
    }
}
