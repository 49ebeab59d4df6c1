//! The replies of a step, whether it closes the control connection, and events of the data side.

ghost use Rattle.std.specs.Prelude.{◌≡◌, ◌++◌, OnOk};
ghost use Rattle.control_session.specs.Reported.{closes, is_close};
ghost use Rattle.control_session.specs.Sides.{OnlyEvents, came_of};
ghost use Rattle.ftp_reply.specs.Replies.{reply_text};
ghost use Rattle.session_table.specs.Answers.{answer_form};

use session_table::{Action, Answer, Input};
use std::alloc::{AllocError, Allocator};

/// Appends a reply. If memory runs out the text is unchanged.
pub fn push_answer<A: Allocator>(text: &mut Vec<u8, A>, answer: Answer<A>) -> Result<(), AllocError>
    ensures text { OnOk result
        (text.new.items ≡ text.old.items ++ reply_text (answer_form answer)) }
{
    answer.into_reply().write_to(text)
}

fn is_close<A: Allocator, R, K>(action: &Action<A, R, K>) -> bool
    ensures close { result ≡ is_close action.now }
{
    matches!(action, Action::CloseControl)
}

/// Returns whether the actions close the control connection.
pub(crate) fn closes<A: Allocator, R, K>(actions: &[Action<A, R, K>]) -> bool
    ensures closes { result ≡ closes actions.now }
{
    for action in actions {
        if is_close(action) {
            return true;
        }
    }
    false
}

/// An input that came of the data side, if it is one of its events.
pub(crate) fn only_event<A: Allocator, K: Drop>(came: Option<Input<A, K>>) -> Option<Input<A, K>>
    ensures same { came_of result ≡ came_of came }
    ensures event { OnlyEvents result }
{
    match came {
        Some(Input::TransferEnded { end, sink }) => Some(Input::TransferEnded { end, sink }),
        Some(Input::DataReady(port)) => Some(Input::DataReady(port)),
        _ => None,
    }
}
