//! The end of a transfer (RFC 959, sections 4.2 and 5.4).

ghost use Rattle.std.specs.Prelude.{◌≡◌, ◌≤◌, ◌<◌, ◌+◌, ◌++◌, [], IfOk, OnErr, true, vec_len, vec_capacity};
ghost use Rattle.session_table.specs.Plans.{RanByStore};
ghost use Rattle.session_table.specs.Plans.Plan.{Then};
ghost use Rattle.session_table.specs.StateRows.{goodbye_reply};
ghost use Rattle.session_table.specs.Table.{and_quits, end_hook, end_reply, end_row, end_reported, ended_row, ended_with};
ghost use Rattle.session_table.specs.Views.{is_closed};
ghost use Rattle.authorizer.specs.Users.{Users};
ghost use Rattle.session_table.specs.declared.inputs.End.{End};
ghost use Rattle.session_state.specs.Waiting.{if_quitting};
ghost use Rattle.session_table.specs.declared.stages.Work.TheVariants.{Idle};

use authorizer::Authorizer;
use session_state::{GoodbyeReply, RowResult, State, push_goodbye_reply, push_reserved, room_for};
use session_table::{
    Action, Answer, Control, End, HookCall, Notice, Refusal, Stage, TransferContent,
};
use std::alloc::Allocator;
use virtual_path::VPath;
use virtual_tree::{Store, StoreFault};

/// The reply to the end of a transfer, with the result of `finish`.
fn end_reported<A: Allocator>(end: End, finished: Result<(), StoreFault>) -> Answer<A>
    ensures reply { result ≡ end_reported end finished }
{
    match end {
        End::Done => match finished {
            Ok(()) => Answer::Notice(Notice::TransferComplete),
            Err(fault) => Answer::Refusal(Refusal::Store(fault)),
        },
        End::Lost => Answer::Refusal(Refusal::ConnectionLost),
        End::Local => Answer::Refusal(Refusal::Store(StoreFault::Device)),
        End::Full => Answer::Refusal(Refusal::Store(StoreFault::Full)),
        End::NoConnection => Answer::Refusal(Refusal::NoDataConnection),
        End::NoMemory => Answer::Refusal(Refusal::Store(StoreFault::Memory)),
        End::Aborted => Answer::Refusal(Refusal::TransferAborted),
    }
}

/// Appends the reply to the end of a transfer, unless it was aborted or the control connection is to be closed.
fn push_reply<A: Allocator, R: Drop, K: Drop>(
    actions: &mut Vec<Action<A, R, K>, A>,
    control: Control,
    was_aborted: bool,
    reply: Answer<A>,
)
    requires room { vec_len actions.old < vec_capacity actions.old }
    ensures items { actions.new.items ≡ actions.old.items ++ end_reply control was_aborted reply }
    ensures len { vec_len actions.new ≤ vec_len actions.old + 1 }
    ensures kept { vec_capacity actions.old ≤ vec_capacity actions.new }
{
    match control {
        Control::Closing => {}
        Control::Open | Control::Quitting => {
            if !was_aborted {
                push_reserved(actions, Action::Say(reply));
            }
        }
    }
}

/// Appends the event for the handler; listings have none.
fn push_hook<A: Allocator, R: Drop, K: Drop>(
    actions: &mut Vec<Action<A, R, K>, A>,
    content: TransferContent<VPath<A>>,
    end: End,
)
    requires room { vec_len actions.old < vec_capacity actions.old }
    ensures items { actions.new.items ≡ actions.old.items ++ end_hook content end }
    ensures len { vec_len actions.new ≤ vec_len actions.old + 1 }
    ensures kept { vec_capacity actions.old ≤ vec_capacity actions.new }
{
    match content {
        TransferContent::Listing => {}
        TransferContent::Sending(path) => match end {
            End::Done => push_reserved(actions, Action::Hook(HookCall::FileSent(path))),
            _ => push_reserved(actions, Action::Hook(HookCall::IncompleteFileSent(path))),
        },
        TransferContent::Taking(path) => match end {
            End::Done => push_reserved(actions, Action::Hook(HookCall::FileReceived(path))),
            _ => push_reserved(
                actions,
                Action::Hook(HookCall::IncompleteFileReceived(path)),
            ),
        },
    }
}

/// Serves a QUIT that waited, after other actions.
pub(crate) fn quit_if_waiting<A: Allocator + Clone, R: Drop, K: Drop>(
    state: &mut State<A>,
    users: &Authorizer<A>,
    parting: Option<GoodbyeReply<A>>,
    actions: &mut Vec<Action<A, R, K>, A>,
)
    requires goodbye_reply { parting
        ≡ if_quitting state.old.control (goodbye_reply users.now.users state.old) }
    requires room { vec_len actions.old + 4 ≤ vec_capacity actions.old }
    ensures row { Then state.new actions.new.items
        ≡ and_quits users.now.users state.old actions.old.items state.old.control }
{
    if let Some(goodbye_reply) = parting {
        push_goodbye_reply(state, goodbye_reply, actions);
    }
}

/// A transfer that has ended.
#[derive(Drop)]
struct Ending<A: Allocator> {
    content: TransferContent<VPath<A>>,
    was_aborted: bool,
    end: End,
    /// The reply to a QUIT that waits.
    parting: Option<GoodbyeReply<A>>,
}

/// Appends the replies and events of the end of a transfer.
fn report_end<A: Allocator + Clone, R: Drop, K: Drop>(
    state: &mut State<A>,
    users: &Authorizer<A>,
    ending: Ending<A>,
    finished: Result<(), StoreFault>,
    actions: &mut Vec<Action<A, R, K>, A>,
)
    requires idle { state.old.work ≡ Idle }
    requires goodbye_reply { ending.parting
        ≡ if_quitting state.old.control (goodbye_reply users.now.users state.old) }
    requires empty { actions.old.items ≡ [] }
    requires room { vec_len actions.old + 6 ≤ vec_capacity actions.old }
    ensures row { Then state.new actions.new.items
        ≡ end_row users.now.users state.old ending.content ending.was_aborted ending.end finished }
{
    if state.stage() == Stage::Closed {
        return;
    }
    let reply = end_reported(ending.end, finished);
    push_reply(actions, state.control(), ending.was_aborted, reply);
    push_hook(actions, ending.content, ending.end);
    quit_if_waiting(state, users, ending.parting, actions);
}

/// Finishes a returned sink, and reports the end.
fn end_content<A: Allocator + Clone, S: Store<A>>(
    state: &mut State<A>,
    users: &Authorizer<A>,
    store: &mut S,
    ending: Ending<A>,
    sink: Option<S::Sink>,
    moment: u64,
    actions: &mut Vec<Action<A, S::Source, S::Sink>, A>,
)
    requires idle { state.old.work ≡ Idle }
    requires goodbye_reply { ending.parting
        ≡ if_quitting state.old.control (goodbye_reply users.now.users state.old) }
    requires empty { actions.old.items ≡ [] }
    requires room { vec_len actions.old + 6 ≤ vec_capacity actions.old }
    ensures row { RanByStore S.Step (ended_with users.now.users state.old moment ending.content
        ending.was_aborted ending.end sink)
        store.old store.new state.new actions.new.items }
{
    match sink {
        Some(sink) => {
            let finished = store.finish(sink, moment);
            report_end(state, users, ending, finished, actions);
        }
        None => report_end(state, users, ending, Ok(()), actions),
    }
}

/// The end of a transfer. A returned sink is finished, whatever the end, or dropped if no transfer runs. If memory runs
/// out, it remains with the caller and nothing is done. The moment is in milliseconds since 1970.
pub fn end_transfer<A: Allocator + Clone, S: Store<A>>(
    state: &mut State<A>,
    users: &Authorizer<A>,
    store: &mut S,
    end: End,
    sink: &mut Option<S::Sink>,
    moment: u64,
) -> RowResult<A, S::Source, S::Sink>
    ensures row { IfOk result (λ actions.
        RanByStore S.Step (ended_row users.now.users state.old moment end sink.old)
        store.old store.new state.new actions.items) }
    ensures unchanged { OnErr result (state.new ≡ state.old) }
    ensures untouched { OnErr result (store.new ≡ store.old) }
    ensures kept { OnErr result (sink.new ≡ sink.old) }
{
    let mut actions = room_for(state, 6)?;
    let parting = GoodbyeReply::if_waiting(state, users)?;
    let came = sink.take();
    let was_aborted = state.is_aborted();
    let Some(content) = state.end_transfer() else {
        return Ok(actions);
    };
    let ending = Ending {
        content,
        was_aborted,
        end,
        parting,
    };
    end_content(state, users, store, ending, came, moment, &mut actions);
    Ok(actions)
}

/// The end of a transfer after the end of the control connection: a returned sink is finished, and there are no
/// actions. Takes no memory.
pub fn finish<A: Allocator + Clone, S: Store<A>>(
    state: &mut State<A>,
    store: &mut S,
    sink: Option<S::Sink>,
    moment: u64,
)
    requires closed { is_closed state.old.stage ≡ true }
    ensures row { (users : Users) (end : End) →
        RanByStore {A = A} {R = S.Source} S.Step (ended_row users state.old moment end sink)
        store.old store.new state.new [] }
    ensures closed { is_closed state.new.stage ≡ true }
{
    if let Some(_content) = state.end_transfer() {
        if let Some(sink) = sink {
            let _ = store.finish(sink, moment);
        }
    }
}
