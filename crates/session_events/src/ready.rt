//! A passive port came, or none was free (RFC 959, section 4.1.2; RFC 2428, section 3).

ghost use Rattle.std.specs.Prelude.{◌≡◌, ◌≤◌, [], ◌∷◌, IfOk, None, OnErr, Some, vec_len, vec_capacity};
ghost use Rattle.session_table.specs.Plans.Plan.{Then};
ghost use Rattle.session_table.specs.declared.actions.Action.TheVariants.{Say};
ghost use Rattle.session_table.specs.Table.{port_reported, ready_as, ready_row};

use crate::ends::quit_if_waiting;
use authorizer::Authorizer;
use ftp_terms::LineText;
use ftp_wire::{HostPort, port_text};
use session_state::{GoodbyeReply, RowResult, State, made, push_reserved, room_for};
use session_table::{Action, Answer, Passive, Refusal};
use std::alloc::{AllocError, Allocator};

/// The reply with the port.
fn port_reported<A: Allocator + Clone>(
    state: &State<A>,
    passive: Passive,
    port: u16,
) -> Result<Answer<A>, AllocError>
    ensures reply { IfOk result (λ reply. reply ≡ port_reported state.now passive port) }
{
    match passive {
        Passive::Plain => {
            let address = state.address();
            let words = port_text(state.alloc()?, &HostPort { address, port })?;
            let text = LineText::joined(
                state.alloc()?,
                "Entering Passive Mode (",
                words.as_str(),
                ")",
            )?;
            Ok(made(227, text))
        }
        Passive::Extended => {
            let text = LineText::with_number(
                state.alloc()?,
                "Entering Extended Passive Mode (|||",
                u64::from(port),
                "|)",
            )?;
            Ok(made(229, text))
        }
    }
}

/// The reply with the port, with room for the actions of a QUIT that waited.
fn say_port<A: Allocator + Clone, R: Drop, K: Drop>(
    state: &State<A>,
    passive: Passive,
    port: u16,
) -> RowResult<A, R, K>
    ensures reported { IfOk result (λ actions.
        actions.items ≡ Say (port_reported state.now passive port) ∷ []) }
    ensures len { IfOk result (λ actions. vec_len actions ≡ 1) }
    ensures room { IfOk result (λ actions. 5 ≤ vec_capacity actions) }
{
    let mut actions = room_for(state, 5)?;
    let reported = port_reported(state, passive, port)?;
    push_reserved(&mut actions, Action::Say(reported));
    Ok(actions)
}

/// A port is open.
fn report_port<A: Allocator + Clone, R: Drop, K: Drop>(
    state: &mut State<A>,
    users: &Authorizer<A>,
    passive: Passive,
    port: u16,
) -> RowResult<A, R, K>
    ensures row { IfOk result (λ actions.
        Then state.new actions.items ≡ ready_as users.now.users state.old passive (Some port)) }
    ensures unchanged { OnErr result (state.new ≡ state.old) }
{
    let mut actions = say_port(state, passive, port)?;
    let parting = GoodbyeReply::if_waiting(state, users)?;
    state.end_waiting();
    state.prepare();
    quit_if_waiting(state, users, parting, &mut actions);
    Ok(actions)
}

/// No port is free.
fn report_none<A: Allocator + Clone, R: Drop, K: Drop>(
    state: &mut State<A>,
    users: &Authorizer<A>,
    passive: Passive,
) -> RowResult<A, R, K>
    ensures row { IfOk result (λ actions.
        Then state.new actions.items ≡ ready_as users.now.users state.old passive None) }
    ensures unchanged { OnErr result (state.new ≡ state.old) }
{
    let mut actions = room_for(state, 5)?;
    let parting = GoodbyeReply::if_waiting(state, users)?;
    let none = Answer::Refusal(Refusal::NoPassivePort);
    push_reserved(&mut actions, Action::Say(none));
    state.end_waiting();
    quit_if_waiting(state, users, parting, &mut actions);
    Ok(actions)
}

/// A passive port came, or none was free.
pub fn take_port<A: Allocator + Clone, R: Drop, K: Drop>(
    state: &mut State<A>,
    users: &Authorizer<A>,
    port: Option<u16>,
) -> RowResult<A, R, K>
    ensures row { IfOk result (λ actions.
        Then state.new actions.items ≡ ready_row users.now.users state.old port) }
    ensures unchanged { OnErr result (state.new ≡ state.old) }
{
    match state.awaited() {
        None => room_for(state, 0),
        Some(passive) => match port {
            Some(port) => report_port(state, users, passive, port),
            None => report_none(state, users, passive),
        },
    }
}
