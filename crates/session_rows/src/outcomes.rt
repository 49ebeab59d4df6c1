//! The outcome of a call that changes the store, told without memory: its room is taken before the call.

ghost use Rattle.std.specs.Prelude.{◌≡◌, ◌≤◌, ◌+◌, [], vec_len, vec_capacity};
ghost use Rattle.session_table.specs.FileRows.{unless_fault};
ghost use Rattle.session_table.specs.Plans.Plan.{Then};
ghost use Rattle.session_table.specs.StateRows.{refuses, reports};
ghost use Rattle.session_table.specs.TransferRows.{starts};
ghost use Rattle.session_table.specs.declared.refusals.Refusal.TheVariants.{Store};

use session_state::{State, push_reserved};
use session_table::{Action, Answer, Job, Notice, Refusal, TransferContent};
use std::alloc::Allocator;
use virtual_path::VPath;
use virtual_tree::StoreFault;

/// Puts the store's refusal.
pub(crate) fn push_refusal<A: Allocator + Clone, R: Drop, K: Drop>(
    state: &mut State<A>,
    fault: StoreFault,
    actions: &mut Vec<Action<A, R, K>, A>,
)
    requires empty { actions.old.items ≡ [] }
    requires room { vec_len actions.old + 1 ≤ vec_capacity actions.old }
    ensures row { Then state.new actions.new.items ≡ refuses state.old (Store fault) }
{
    push_reserved(actions, Action::Say(Answer::Refusal(Refusal::Store(fault))));
    state.forget_source();
}

/// Puts the reply to a change of the store, or its refusal.
pub(crate) fn push_changed<A: Allocator + Clone, R: Drop, K: Drop>(
    state: &mut State<A>,
    reply: Answer<A>,
    changed: Result<(), StoreFault>,
    actions: &mut Vec<Action<A, R, K>, A>,
)
    requires empty { actions.old.items ≡ [] }
    requires room { vec_len actions.old + 1 ≤ vec_capacity actions.old }
    ensures row { Then state.new actions.new.items
        ≡ unless_fault state.old (λ done. reports state.old reply) changed }
{
    match changed {
        Err(fault) => push_refusal(state, fault, actions),
        Ok(()) => push_reserved(actions, Action::Say(reply)),
    }
}

/// Begins a transfer.
pub(crate) fn push_start<A: Allocator + Clone, R: Drop, K: Drop>(
    state: &mut State<A>,
    content: TransferContent<VPath<A>>,
    job: Job<A, R, K>,
    actions: &mut Vec<Action<A, R, K>, A>,
)
    requires empty { actions.old.items ≡ [] }
    requires room { vec_len actions.old + 2 ≤ vec_capacity actions.old }
    ensures row { Then state.new actions.new.items ≡ starts state.old content job }
{
    push_reserved(actions, Action::Say(Answer::Notice(Notice::Opening)));
    push_reserved(actions, Action::Start(job));
    state.begin(content);
}
