//! The levels of notes: warnings are for an administrator to look at.

ghost use Rattle.std.specs.Prelude.{◌≡◌};
ghost use Rattle.session_notes.specs.Levels.{level_of_cause, level_of_event, level_of_refusal, level_of_server, level_of_session};

use crate::words::Noted;
use log::Level;
use server_house::{EndCause, NotServed, ServerEvent, SessionEvent};

/// A refused login is a warning.
pub(crate) fn level_of_event(event: Noted) -> Level
    ensures level { result ≡ level_of_event event }
{
    match event {
        Noted::LoginFailed => Level::Warn,
        _ => Level::Info,
    }
}

/// An end by a lack or a fault of the server is a warning; one by the client, by its connections or by the end of the
/// server is not.
pub(crate) fn level_of_cause(cause: EndCause) -> Level
    ensures level { result ≡ level_of_cause cause }
{
    match cause {
        EndCause::NoMemory | EndCause::File | EndCause::Refused | EndCause::NotAccepted(_) =>
            Level::Warn,
        _ => Level::Info,
    }
}

/// A client that was refused, and a session without a passive port, are warnings.
pub(crate) fn level_of_session(event: SessionEvent) -> Level
    ensures level { result ≡ level_of_session event }
{
    match event {
        SessionEvent::Refused(_) | SessionEvent::NoPort(_) => Level::Warn,
        SessionEvent::TimedOut(_) | SessionEvent::Ended => Level::Info,
    }
}

/// A client that is not served is a warning, unless the server ends.
pub(crate) fn level_of_refusal(why: NotServed) -> Level
    ensures level { result ≡ level_of_refusal why }
{
    match why {
        NotServed::Ending => Level::Info,
        NotServed::NotAdmitted(_) | NotServed::NoThread => Level::Warn,
    }
}

/// A lack of the server is a warning, as is that it cuts transfers.
pub(crate) fn level_of_server(event: ServerEvent) -> Level
    ensures level { result ≡ level_of_server event }
{
    match event {
        ServerEvent::Drains(_) => Level::Info,
        _ => Level::Warn,
    }
}
