//! Facts of the inputs and calls of a session that its host acts upon.

ghost use Rattle.std.specs.Prelude.{◌≡◌, IfNone, IfSome, None, false};
ghost use Rattle.control_session.specs.Sides.{given_of, is_line};
ghost use Rattle.session_table.specs.Steps.{asks_floors};
ghost use Rattle.socket_host.specs.Cuts.{cause_of_cut};
ghost use Rattle.socket_host.specs.Entrants.{entrant};
ghost use Rattle.socket_host.specs.Records.{cause_with, ends_file, ends_listing, is_end, is_text, job_kind};
ghost use Rattle.socket_host.specs.Texts.{is_without_port};

use crate::standing::number_of;
use authorizer::Authorizer;
use control_session::Session;
use ftp_terms::DataType;
use server_house::{EndCause, TransferKind};
use session_table::{End, HookCall, Input, Job};
use std::alloc::Global;

/// The reason for which the transfer was cut whose end is the last event of its session, if it was.
pub(crate) fn cause_of_cut<K>(
    last: &Option<Input<Global, K>>,
    is_ending: bool,
    is_ended: bool,
) -> Option<EndCause>
    ensures cause { result ≡ cause_of_cut last.now is_ending is_ended }
{
    match last {
        Some(Input::TransferEnded { end: End::Done, .. }) => None,
        Some(Input::TransferEnded { .. }) => Some(match (is_ending, is_ended) {
            (true, _) => EndCause::ServerEnds,
            (false, true) => EndCause::SessionEnded,
            (false, false) => EndCause::ControlLost,
        }),
        _ => None,
    }
}

/// The reason for which a transfer did not come to its end, if the store refused its file at the end or did not.
pub(crate) fn cause_with(cause: Option<EndCause>, is_refused: bool) -> Option<EndCause>
    ensures cause { result ≡ cause_with cause is_refused }
{
    match cause {
        Some(cause) => Some(cause),
        None if is_refused => Some(EndCause::Refused),
        None => None,
    }
}

/// Returns whether a passive port was asked for, and none could be had.
pub(crate) fn is_without_port<K>(event: &Option<Input<Global, K>>) -> bool
    ensures none { result ≡ is_without_port event.now }
{
    matches!(event, Some(Input::DataReady(None)))
}

/// Returns whether an input is a line, new or held.
pub(crate) fn is_line<K>(input: &Option<Input<Global, K>>) -> bool
    ensures line { IfSome input.now (λ input. result ≡ is_line (given_of input)) }
{
    matches!(input, Some(Input::Line(_)) | Some(Input::Held))
}

/// Returns whether the step of an input needs the floors.
pub(crate) fn asks_floors<K>(session: &Session<Global>, input: &Option<Input<Global, K>>) -> bool
    ensures asks { IfSome input.now (λ input. result ≡ asks_floors session.now.held input) }
    ensures none { IfNone input.now (result ≡ false) }
{
    match input {
        Some(input) => session.asks_floors(input),
        None => false,
    }
}

/// The number of the user whom the step of an input would log in, by these users.
pub(crate) fn entrant<K>(
    session: &Session<Global>,
    users: &Authorizer,
    input: &Option<Input<Global, K>>,
) -> Option<u32>
    ensures entrant { IfSome input.now (λ input. result
        ≡ entrant users.now.users session.now input) }
    ensures none { IfNone input.now (result ≡ None) }
{
    let Some(input) = input else {
        return None;
    };
    match session.entering(users, input) {
        Some(name) => Some(number_of(users, name)),
        None => None,
    }
}

/// Returns whether a call reports the end of a file's transfer.
pub(crate) fn ends_file(call: &HookCall<Global>) -> bool
    ensures ends { result ≡ ends_file call.now }
{
    match call {
        HookCall::FileSent(_) | HookCall::IncompleteFileSent(_) => true,
        HookCall::FileReceived(_) | HookCall::IncompleteFileReceived(_) => true,
        _ => false,
    }
}

/// Returns whether a transfer has the type of texts.
pub(crate) fn is_text<R, K>(job: &Job<Global, R, K>) -> bool
    ensures text { result ≡ is_text job.now }
{
    match job {
        Job::Text(_) => true,
        Job::SendFile(_, data_type) | Job::TakeFile(_, data_type) => *data_type == DataType::Ascii,
    }
}

/// The kind of a transfer.
pub(crate) fn kind_of<R, K>(job: &Job<Global, R, K>) -> TransferKind
    ensures kind { result ≡ job_kind job.now }
{
    match job {
        Job::Text(_) => TransferKind::Listed,
        Job::SendFile(_, _) => TransferKind::Sent,
        Job::TakeFile(_, _) => TransferKind::Received,
    }
}

/// Returns whether an event is the end of a transfer.
pub(crate) fn is_end<K>(event: &Option<Input<Global, K>>) -> bool
    ensures end { result ≡ is_end event.now }
{
    matches!(event, Some(Input::TransferEnded { .. }))
}

/// Returns whether an event is the end of a listing, if the last transfer was of this kind.
pub(crate) fn ends_listing<K>(event: &Option<Input<Global, K>>, kind: TransferKind) -> bool
    ensures ends { result ≡ ends_listing event.now kind }
{
    match (event, kind) {
        (Some(Input::TransferEnded { .. }), TransferKind::Listed) => true,
        _ => false,
    }
}
