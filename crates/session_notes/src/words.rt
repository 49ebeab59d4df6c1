//! The words of events and refusals.

ghost use Rattle.std.specs.IoError.{error_kind, raw_os_error};
ghost use Rattle.std.specs.Prelude.{◌≡◌, option_map};
ghost use Rattle.session_notes.specs.Words.{cause_words, event_words, is_own_limit, limit_words, note_of, parts_of, refusal_words, server_words, session_words};

use client_patience::TimeOut;
use line_rates::{Name, Way};
use passive_ports::AdmitFault;
use rate_floors::CarryFault;
use server_house::{
    ClientSession, DeclinedCommand, EndCause, NotServed, ServerEvent, SessionEvent, SessionRefusal,
    UnguaranteedLogin,
};
use session_table::HookCall;
use std::alloc::Global;
use std::io::ErrorKind;
use std::net::{Ipv4Addr, SocketAddrV4};
use std::{fmt, io};

/// An event of a session.
#[derive(Clone, Copy, Debug, PartialEq, Eq)]
pub(crate) enum Noted {
    Connect,
    Disconnect,
    Login,
    LoginFailed,
    Logout,
}

fn event_words(event: Noted) -> &'static str
    ensures words { result.now ≡ event_words event }
{
    match event {
        Noted::Connect => "connect",
        Noted::Disconnect => "disconnect",
        Noted::Login => "login",
        Noted::LoginFailed => "login failed",
        Noted::Logout => "logout",
    }
}

/// An event with the name or path that it is about, if it has one. It prints as its words and the name in quotation
/// marks, with all but plain characters escaped.
#[derive(Clone, Copy)]
pub(crate) struct NoteText<'a> {
    pub event: Noted,
    pub name: Option<&'a str>,
}

impl fmt::Display for NoteText<'_> {
    ghost use Rattle.session_notes.specs.Words.{note_text};

    ghost output = { note_text };

    fn fmt<W: fmt::Write>(&self, f: &mut fmt::Formatter<W>) -> fmt::Result {
        let words = event_words(self.event);
        match self.name {
            None => f.write_str(words),
            Some(name) => write!(f, "{words} {name:?}"),
        }
    }
}

/// The note of an event; the end of a file's transfer has none of its own.
pub(crate) fn note_of(call: &HookCall<Global>) -> Option<NoteText<'_>>
    ensures note { option_map parts_of result ≡ note_of call.now }
{
    let (event, name) = match call {
        HookCall::Connect => (Noted::Connect, None),
        HookCall::Disconnect => (Noted::Disconnect, None),
        HookCall::Login(name) => (Noted::Login, Some(name.as_str())),
        HookCall::LoginFailed(name) => (Noted::LoginFailed, Some(name.as_str())),
        HookCall::Logout(name) => (Noted::Logout, Some(name.as_str())),
        _ => return None,
    };
    Some(NoteText { event, name })
}

/// The session that a note is about: the address of the client, and the number of the session.
#[derive(Clone, Copy)]
pub(crate) struct SessionHead(pub ClientSession);

impl fmt::Display for SessionHead {
    ghost use Rattle.session_notes.specs.Words.{head_text};

    ghost output = { λ head. head_text head.0 };

    fn fmt<W: fmt::Write>(&self, f: &mut fmt::Formatter<W>) -> fmt::Result {
        let peer = Ipv4Addr::from(self.0.peer);
        let serial = self.0.serial;
        write!(f, "{peer} #{serial}")
    }
}

/// The reason for which a client was not served, in words.
pub(crate) fn refusal_words(why: NotServed) -> &'static str
    ensures words { result.now ≡ refusal_words why }
{
    match why {
        NotServed::NotAdmitted(AdmitFault::TooMany) => "too many connections",
        NotServed::NotAdmitted(AdmitFault::TooManyOfAddress) => {
            "too many connections from this address"
        }
        NotServed::NotAdmitted(AdmitFault::Memory) => "out of memory",
        NotServed::NoThread => "no thread could be started",
        NotServed::Ending => "the server ends",
    }
}

/// The reason for which a transfer did not come to its end, in words.
fn cause_words(cause: EndCause) -> &'static str
    ensures words { result.now ≡ cause_words cause }
{
    match cause {
        EndCause::Aborted => "aborted by the client",
        EndCause::NothingPrepared => "no data connection was prepared",
        EndCause::NoClient => "nobody connected to the passive port in time",
        EndCause::NotAccepted(_) => "the client's connection could not be accepted",
        EndCause::NotConnected(_) => "the client's port could not be connected to",
        EndCause::NoMemory => "out of memory",
        EndCause::File => "the file could not be read or written",
        EndCause::Refused => "the store refused it at its end",
        EndCause::Connection(_) => "the data connection failed",
        EndCause::ControlLost => "the control connection was lost",
        EndCause::ServerEnds => "the server ends",
        EndCause::SessionEnded => "the administrator ended the session",
    }
}

// Returns whether an error says that a limit of the server has passed: a socket has waited as long as it may, or no call of
// the machine has reported the error.
fn is_own_limit(error: io::Error) -> bool
    ensures limit { result ≡ is_own_limit (error_kind error) (raw_os_error error) }
{
    match error.kind() {
        ErrorKind::WouldBlock => true,
        ErrorKind::TimedOut => error.raw_os_error().is_none(),
        _ => false,
    }
}

// The machine's error of a cause, if there is one.
fn error_of(cause: EndCause) -> Option<io::Error> {
    match cause {
        EndCause::NotAccepted(error) | EndCause::NotConnected(error) => Some(error),
        EndCause::Connection(error) => error,
        _ => None,
    }
}

/// A cause with the machine's error, if there is one: its own, or that of the file. A time limit that passed without an octet is said in words, since
/// the machine calls it a resource that is temporarily unavailable.
#[derive(Clone, Copy)]
pub(crate) struct CauseText {
    pub cause: EndCause,
    /// The machine's error of the file.
    pub error: Option<io::Error>,
}

impl fmt::Display for CauseText {
    fn fmt<W: fmt::Write>(&self, f: &mut fmt::Formatter<W>) -> fmt::Result {
        f.write_str(cause_words(self.cause))?;
        match error_of(self.cause).or(self.error) {
            None => Ok(()),
            Some(error) if is_own_limit(error) => f.write_str(": no octet moved in time"),
            Some(error) => write!(f, ": {error}"),
        }
    }
}

fn session_words(event: SessionEvent) -> &'static str
    ensures words { result.now ≡ session_words event }
{
    match event {
        SessionEvent::Refused(SessionRefusal::TooManyLogins) => "refused: too many login attempts",
        SessionEvent::Refused(SessionRefusal::TooManyHeldLines) => "refused: too many held lines",
        SessionEvent::Refused(SessionRefusal::TooManySessions) => {
            "refused: too many sessions of this user"
        }
        SessionEvent::NoPort(_) => "no passive port",
        SessionEvent::TimedOut(TimeOut::Login) => "timed out without a login",
        SessionEvent::TimedOut(TimeOut::Idle) => "timed out without a sign of life",
        SessionEvent::Ended => "ended by the administrator",
    }
}

/// An event of a session, with its reason if it has one.
#[derive(Clone, Copy)]
pub(crate) struct SessionText(pub SessionEvent);

impl fmt::Display for SessionText {
    fn fmt<W: fmt::Write>(&self, f: &mut fmt::Formatter<W>) -> fmt::Result {
        let words = session_words(self.0);
        match self.0 {
            SessionEvent::NoPort(error) => write!(f, "{words}: {error}"),
            SessionEvent::Refused(_) | SessionEvent::TimedOut(_) | SessionEvent::Ended => {
                f.write_str(words)
            }
        }
    }
}

// A limit in the words of a plan. Of a group, a user and a session it is the user's whose login is refused.
fn limit_words(name: Name) -> &'static str
    ensures words { result.now ≡ limit_words name }
{
    match name {
        Name::Server => "server",
        Name::Direction(Way::Down) => "server down",
        Name::Direction(Way::Up) => "server up",
        Name::Group(Way::Down, _) => "group down",
        Name::Group(Way::Up, _) => "group up",
        Name::User(Way::Down, _) => "user down",
        Name::User(Way::Up, _) => "user up",
        Name::Session(Way::Down, _, _) => "session down",
        Name::Session(Way::Up, _, _) => "session up",
    }
}

/// A login that was refused for the guaranteed rate of its user.
#[derive(Clone, Copy)]
pub(crate) struct UnguaranteedText<'a>(pub UnguaranteedLogin<'a>);

impl fmt::Display for UnguaranteedText<'_> {
    fn fmt<W: fmt::Write>(&self, f: &mut fmt::Formatter<W>) -> fmt::Result {
        f.write_str("refused: the guaranteed rate is not available")?;
        if let Some(user) = self.0.user {
            write!(f, ": user {user:?}")?;
        }
        match self.0.why {
            CarryFault::Broken {
                name,
                promised,
                rate,
            } => {
                let limit = limit_words(name);
                write!(
                    f,
                    ": {promised} octets a second would be guaranteed of the {rate} of {limit}"
                )
            }
            CarryFault::TooLarge | CarryFault::Memory => write!(f, ": {}", self.0.why),
        }
    }
}

/// A command that was refused for what it asks of the store.
#[derive(Clone, Copy)]
pub(crate) struct DeclinedText<'a>(pub DeclinedCommand<'a>);

impl fmt::Display for DeclinedText<'_> {
    fn fmt<W: fmt::Write>(&self, f: &mut fmt::Formatter<W>) -> fmt::Result {
        let DeclinedCommand {
            user,
            directory,
            line,
            reply,
        } = self.0;
        write!(
            f,
            "declined {line:?}: user {user:?}, in {directory:?}: {reply}"
        )
    }
}

fn server_words(event: ServerEvent) -> &'static str
    ensures words { result.now ≡ server_words event }
{
    match event {
        ServerEvent::NotBound(_, _, _) => "cannot listen on",
        ServerEvent::NotAccepted(_) => "connections cannot be accepted",
        ServerEvent::FewDescriptors(_, _) => "too few open files are allowed",
        ServerEvent::Drains(_) => "ends once all transfers have ended",
        ServerEvent::DrainTimedOut(_) => "ends, and cuts transfers: the time for them is over",
        ServerEvent::Waits(_) => "calls of the machine",
        ServerEvent::Misplaced(_) =>
            "fault of the program: nothing is settled without the part of lane",
    }
}

/// An event of the server, with its numbers and the machine's error.
#[derive(Clone, Copy)]
pub(crate) struct ServerText(pub ServerEvent);

impl fmt::Display for ServerText {
    fn fmt<W: fmt::Write>(&self, f: &mut fmt::Formatter<W>) -> fmt::Result {
        let words = server_words(self.0);
        match self.0 {
            ServerEvent::NotBound(address, port, error) => {
                let at = SocketAddrV4::new(Ipv4Addr::from(address), port);
                write!(f, "{words} {at}: {error}")
            }
            ServerEvent::NotAccepted(error) => write!(f, "{words}: {error}"),
            ServerEvent::FewDescriptors(limit, needed) => write!(
                f,
                "{words}: {limit} of the {needed} that all clients together may need; see `ulimit -n`, LimitNOFILE"
            ),
            ServerEvent::Drains(sessions) | ServerEvent::DrainTimedOut(sessions) => {
                write!(f, "{words}; clients that are connected: {sessions}")
            }
            ServerEvent::Waits(calls) => write!(f, "waits for {calls} {words}"),
            ServerEvent::Misplaced(lane) => write!(f, "{words} {lane}"),
        }
    }
}
