//! Commands that are refused for what they ask of the store.

ghost use Rattle.std.specs.Prelude.{◌≡◌, IfNone, IfOk, IfSome, MatchResult, None, true};
ghost use Rattle.ftp_reply.specs.Replies.{OneLine, reply_text};
ghost use Rattle.session_table.specs.Answers.{refusal_row};
ghost use Rattle.session_table.specs.Steps.{asks_floors};
ghost use Rattle.socket_host.specs.Declined.{IsLineOf, declined_by, declined_in, is_of_store};

use control_session::{NoStep, Session};
use ftp_wire::{LineItem, write_command};
use lent_parts::PartsName;
use server_house::{ClientSession, DeclinedCommand, House, ServerHooks, ServerRuntime};
use session_table::{Action, Answer, Input, Refusal};
use std::alloc::{AllocError, Global};
use virtual_path::PathFault;
use virtual_tree::{Store, StoreFault};

// Returns whether a refusal is for what a command asks of the store: its path, its letters, or what is there. Faults of the
// store itself are reported as such.
fn is_of_store(refusal: Refusal) -> bool
    ensures store { result ≡ is_of_store refusal }
{
    match refusal {
        Refusal::Store(StoreFault::Full | StoreFault::Device | StoreFault::Memory) => false,
        Refusal::Path(PathFault::Memory) => false,
        Refusal::Store(_) | Refusal::Path(_) => true,
        Refusal::NotPermitted | Refusal::ListsNoFile => true,
        _ => false,
    }
}

// The refusal of an action, if it is for what a command asks of the store.
fn declined_in<R, K>(action: &Action<Global, R, K>) -> Option<Refusal>
    ensures declined { result ≡ declined_in action.now }
{
    match action {
        Action::Say(Answer::Refusal(refusal)) => {
            if is_of_store(*refusal) {
                Some(*refusal)
            } else {
                None
            }
        }
        _ => None,
    }
}

// The first such refusal among the actions of a step.
fn declined_by<R, K>(actions: &[Action<Global, R, K>]) -> Option<Refusal>
    ensures declined { result ≡ declined_by actions.now }
{
    for action in actions {
        if let Some(refusal) = declined_in(action) {
            return Some(refusal);
        }
    }
    None
}

// The refusal that a step replies, if it was made, for what its command asks of the store.
fn declined<R, K>(made: &Result<Vec<Action<Global, R, K>>, NoStep<Global, K>>) -> Option<Refusal>
    ensures declined { MatchResult made.now
        (λ actions. result ≡ declined_by actions.items) (λ why. result ≡ None) }
{
    match made {
        Ok(actions) => declined_by(actions),
        Err(_) => None,
    }
}

/// The line whose turn it is at an input, as a client writes it. None for PASS, whose argument is for nobody to read; for
/// what is no command; and without memory.
pub(crate) fn line_of<K>(
    alloc: Global,
    session: &Session<Global>,
    input: &Option<Input<Global, K>>,
) -> Option<Vec<u8>>
    ensures line { IfSome input.now (λ input. IfSome result (λ line.
        IsLineOf session.now.held input line.items)) }
    ensures password { IfSome input.now (λ input.
        asks_floors session.now.held input ≡ true → result ≡ None) }
    ensures none { IfNone input.now (result ≡ None) }
{
    let Some(input) = input else {
        return None;
    };
    if session.asks_floors(input) {
        return None;
    }
    match session.in_turn(input) {
        Some(LineItem::Command(command)) => write_command(alloc, command).ok(),
        _ => None,
    }
}

// The text of the reply of a refusal.
fn reply_of(alloc: Global, refusal: Refusal) -> Result<Vec<u8>, AllocError>
    ensures reply { IfOk result (λ text.
        text.items ≡ reply_text (OneLine (refusal_row refusal).0 (refusal_row refusal).1)) }
{
    let reply = Answer::<Global>::Refusal(refusal).into_reply();
    let mut text = Vec::new(alloc);
    reply.write_to(&mut text)?;
    Ok(text)
}

// The text of a line without its end; empty if it is no line of UTF-8.
fn without_end(line: &[u8]) -> &str {
    match std::str::from_utf8(line) {
        Ok(text) => text.strip_suffix("\r\n").unwrap_or(text),
        Err(_) => "",
    }
}

/// Reports the command of a user's step, if it was refused for what it asks of the store. Without memory nothing is
/// reported.
pub(crate) fn tell_declined<R, S, H, B, F, K>(
    rt: &R,
    house: &House<S, H, B>,
    own: ClientSession,
    user: &str,
    session: &Session<Global>,
    line: &Option<Vec<u8>>,
    made: &Result<Vec<Action<Global, F, K>>, NoStep<Global, K>>,
)
where
    R: ServerRuntime,
    S: Store<Global>,
    H: ServerHooks,
    B: PartsName,
{
    let (Some(line), Some(refusal)) = (line, declined(made)) else {
        return;
    };
    let Ok(reply) = reply_of(rt.alloc(), refusal) else {
        return;
    };
    let command = DeclinedCommand {
        user,
        directory: session.directory(),
        line: without_end(line.as_slice()),
        reply: without_end(reply.as_slice()),
    };
    house.handler.lock(rt).on_declined(own, &command);
}
