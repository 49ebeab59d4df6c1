//! Carrying out of actions.

ghost use Rattle.std.specs.Prelude.{◌≡◌, ◌++◌, [], ◌∷◌, IfOk, List, MatchOption, None, Some};
ghost use Rattle.std.specs.Vec.Iter.{into_iter_items};
ghost use Rattle.control_session.specs.Calls.{Chain, HostCall};
ghost use Rattle.control_session.specs.Turns.{Carried, Carries, Said, release_calls};
ghost use Rattle.ftp_reply.specs.Replies.{reply_text};
ghost use Rattle.session_table.specs.Laws.{release_by, releases};
ghost use Rattle.session_table.specs.Answers.{answer_form};

use crate::actions::push_answer;
use crate::host::Host;
use crate::turn_fault::TurnFault;
use session_table::{Action, Answer};
use std::alloc::{AllocError, Allocator};
use std::vec::IntoIter;

/// The text of a reply.
fn text_of<A: Allocator + Clone>(alloc: &A, answer: Answer<A>) -> Result<Vec<u8, A>, AllocError>
    ensures text { IfOk result (λ text. text.items ≡ reply_text (answer_form answer)) }
{
    let mut text = Vec::new(alloc.clone()?);
    push_answer(&mut text, answer)?;
    Ok(text)
}

/// Writes a text.
fn write<A: Allocator + Clone, H: Host<A>>(host: &mut H, text: &[u8]) -> Option<TurnFault>
    ensures said { (calls : List (HostCall A H.Store H.Source H.Sink))
        × Chain H.Does host.old calls host.new × Said text.now calls result }
{
    match host.write(text) {
        Ok(()) => None,
        Err(_) => Some(TurnFault::Write),
    }
}

/// Writes a reply. Returns the fault, if any.
fn say<A: Allocator + Clone, H: Host<A>>(
    alloc: &A,
    host: &mut H,
    answer: Answer<A>,
) -> Option<TurnFault>
    ensures said { (calls : List (HostCall A H.Store H.Source H.Sink))
        × Chain H.Does host.old calls host.new
        × Said (reply_text (answer_form answer)) calls result }
{
    match text_of(alloc, answer) {
        Ok(text) => write(host, &text),
        Err(AllocError) => Some(TurnFault::Memory),
    }
}

/// Writes a reply, unless there was a fault before. Returns the first fault, if any.
fn say_unless<A: Allocator + Clone, H: Host<A>>(
    alloc: &A,
    host: &mut H,
    lost: Option<TurnFault>,
    answer: Answer<A>,
) -> Option<TurnFault>
    ensures carried { (calls : List (HostCall A H.Store H.Source H.Sink))
        × Chain H.Does host.old calls host.new
        × Carried {R = H.Source} {K = H.Sink} (Action.Say answer) lost calls result }
{
    match lost {
        None => say(alloc, host, answer),
        Some(fault) => Some(fault),
    }
}

/// Carries out an action, but for the release of a floor.
fn carry<A: Allocator + Clone, H: Host<A>>(
    alloc: &A,
    host: &mut H,
    lost: Option<TurnFault>,
    action: Action<A, H::Source, H::Sink>,
) -> Option<TurnFault>
    ensures carried { (calls : List (HostCall A H.Store H.Source H.Sink))
        × Chain H.Does host.old calls host.new × Carried action lost calls result }
{
    match action {
        Action::Say(answer) => return say_unless(alloc, host, lost, answer),
        Action::Hook(call) => host.note(&call),
        Action::OpenPassive => host.open_passive(),
        Action::ConnectTo(to) => host.connect_to(to),
        Action::DropData => host.drop_data(),
        Action::Start(job) => host.start(&mut Some(job)),
        Action::Abort => host.abort(),
        Action::CloseControl | Action::ReleaseFloor(_) => {}
    }
    lost
}

fn next_of<T, A: Allocator>(left: &mut IntoIter<T, A>) -> Option<T>
    ensures first { MatchOption result (into_iter_items left.old ≡ [])
        (λ first. into_iter_items left.old ≡ first ∷ into_iter_items left.new) }
{
    left.next()
}

/// Carries out actions in order, but for the release of floors.
pub(crate) fn carry_all<A: Allocator + Clone, H: Host<A>>(
    alloc: &A,
    host: &mut H,
    lost: Option<TurnFault>,
    actions: Vec<Action<A, H::Source, H::Sink>, A>,
) -> Option<TurnFault>
    ensures carries { (calls : List (HostCall A H.Store H.Source H.Sink))
        × Chain H.Does host.old calls host.new × Carries actions.items lost calls result }
{
    let mut left = actions.into_iter();
    let mut lost = lost;
    while let Some(action) = next_of(&mut left) {
        lost = carry(alloc, host, lost, action);
    }
    lost
}

fn release_one<A: Allocator + Clone, H: Host<A>>(
    host: &mut H,
    action: &Action<A, H::Source, H::Sink>,
)
    ensures released { Chain H.Does host.old (release_calls (release_by action.now)) host.new }
{
    if let Action::ReleaseFloor(user) = action {
        host.release(*user);
    }
}

/// Releases the floors that actions ask to release.
fn release_all<A: Allocator + Clone, H: Host<A>>(
    host: &mut H,
    actions: &[Action<A, H::Source, H::Sink>],
)
    ensures released { Chain H.Does host.old (release_calls (releases actions.now)) host.new }
{
    for action in actions {
        release_one(host, action);
    }
}

/// Carries out all actions of a step, whatever fails: first floors are released, and then the other actions are carried
/// out, in order.
pub(crate) fn carry_out<A: Allocator + Clone, H: Host<A>>(
    alloc: &A,
    host: &mut H,
    lost: Option<TurnFault>,
    actions: Vec<Action<A, H::Source, H::Sink>, A>,
) -> Option<TurnFault>
    ensures carries { (carried : List (HostCall A H.Store H.Source H.Sink))
        × Chain H.Does host.old (release_calls (releases actions.items) ++ carried) host.new
        × Carries actions.items lost carried result }
{
    release_all(host, &actions);
    carry_all(alloc, host, lost, actions)
}
