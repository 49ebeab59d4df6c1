//! Data connections: PORT, EPRT, PASV, EPSV, ABOR.

ghost use Rattle.std.specs.Prelude.{◌≡◌, IfOk, OnErr};
ghost use Rattle.session_table.specs.Plans.Plan.{Then};
ghost use Rattle.session_table.specs.StateRows.{abor_row, eprt_row, epsv_row, opens, pasv_row, port_refusal, port_row};
ghost use Rattle.ftp_wire.specs.declared.commands.ExtendedPassive.TheVariants.{All};

use ftp_wire::{ExtendedPassive, ExtendedPort, HostPort};
use session_state::{RowResult, State, push_reserved, with_room};
use session_table::{Action, Answer, Notice, Passive, Refusal};
use std::alloc::Allocator;

/// The refusal of an address for data connections, if any.
#[tactic(auto, unfolding(session_table::specs::StateRows::port_refusal))]
fn port_refusal<A: Allocator + Clone>(state: &State<A>, to: HostPort) -> Option<Refusal>
    ensures refusal { result ≡ port_refusal state.now to }
{
    if state.is_foreign(to) {
        return Some(Refusal::ForeignAddress);
    }
    if state.is_privileged(to) {
        return Some(Refusal::PrivilegedPort);
    }
    None
}

/// PORT (RFC 959, section 4.1.2).
pub fn port_row<A: Allocator + Clone, R: Drop, K: Drop>(
    state: &mut State<A>,
    to: HostPort,
) -> RowResult<A, R, K>
    ensures row { IfOk result (λ actions. Then state.new actions.items ≡ port_row state.old to) }
    ensures unchanged { OnErr result (state.new ≡ state.old) }
{
    if let Some(refusal) = port_refusal(state, to) {
        return state.refuse(refusal);
    }
    let mut actions = with_room(state.alloc()?, 2)?;
    push_reserved(&mut actions, Action::Say(Answer::Notice(Notice::Fine)));
    push_reserved(&mut actions, Action::ConnectTo(to));
    state.prepare();
    Ok(actions)
}

/// EPRT (RFC 2428, section 2).
pub fn eprt_row<A: Allocator + Clone, R: Drop, K: Drop>(
    state: &mut State<A>,
    to: ExtendedPort,
) -> RowResult<A, R, K>
    ensures row { IfOk result (λ actions. Then state.new actions.items ≡ eprt_row state.old to) }
    ensures unchanged { OnErr result (state.new ≡ state.old) }
{
    match to {
        ExtendedPort::Ipv4(to) => port_row(state, to),
        ExtendedPort::Unsupported(_) => state.refuse(Refusal::OtherProtocol),
    }
}

/// Asks for a passive port.
fn opens<A: Allocator + Clone, R: Drop, K: Drop>(
    state: &mut State<A>,
    passive: Passive,
) -> RowResult<A, R, K>
    ensures row { IfOk result (λ actions.
        Then state.new actions.items ≡ opens state.old passive) }
    ensures unchanged { OnErr result (state.new ≡ state.old) }
{
    let mut actions = with_room(state.alloc()?, 1)?;
    push_reserved(&mut actions, Action::OpenPassive);
    state.await_port(passive);
    Ok(actions)
}

/// PASV (RFC 959, section 4.1.2).
pub fn pasv_row<A: Allocator + Clone, R: Drop, K: Drop>(state: &mut State<A>) -> RowResult<A, R, K>
    ensures row { IfOk result (λ actions. Then state.new actions.items ≡ pasv_row state.old) }
    ensures unchanged { OnErr result (state.new ≡ state.old) }
{
    opens(state, Passive::Plain)
}

/// EPSV ALL (RFC 2428, section 4).
fn forbid_plain<A: Allocator + Clone, R: Drop, K: Drop>(state: &mut State<A>) -> RowResult<A, R, K>
    ensures row { IfOk result (λ actions.
        Then state.new actions.items ≡ epsv_row state.old All) }
    ensures unchanged { OnErr result (state.new ≡ state.old) }
{
    let actions = state.reply_notice(Notice::OnlyExtended)?;
    state.forbid_plain();
    Ok(actions)
}

/// EPSV (RFC 2428, sections 3 and 4).
pub fn epsv_row<A: Allocator + Clone, R: Drop, K: Drop>(
    state: &mut State<A>,
    wanted: ExtendedPassive,
) -> RowResult<A, R, K>
    ensures row { IfOk result (λ actions.
        Then state.new actions.items ≡ epsv_row state.old wanted) }
    ensures unchanged { OnErr result (state.new ≡ state.old) }
{
    match wanted {
        ExtendedPassive::Same => opens(state, Passive::Extended),
        ExtendedPassive::All => forbid_plain(state),
        ExtendedPassive::Protocol(protocol) => {
            if protocol == 1 {
                return opens(state, Passive::Extended);
            }
            state.refuse(Refusal::OtherProtocol)
        }
    }
}

/// ABOR (RFC 959, section 4.1.3). An aborted transfer counts as none.
pub fn abor_row<A: Allocator + Clone, R: Drop, K: Drop>(state: &mut State<A>) -> RowResult<A, R, K>
    ensures row { IfOk result (λ actions. Then state.new actions.items ≡ abor_row state.old) }
    ensures unchanged { OnErr result (state.new ≡ state.old) }
{
    if !state.has_transfer() {
        return state.reply_notice(Notice::NothingToAbort);
    }
    let mut actions = with_room(state.alloc()?, 3)?;
    let aborted = Answer::Refusal(Refusal::TransferAborted);
    push_reserved(&mut actions, Action::Say(aborted));
    push_reserved(&mut actions, Action::Abort);
    push_reserved(&mut actions, Action::Say(Answer::Notice(Notice::AbortDone)));
    state.abort();
    Ok(actions)
}
