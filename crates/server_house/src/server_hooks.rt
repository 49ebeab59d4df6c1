//! Callbacks of a server's owner for the events of its sessions and its own.

use crate::cause::EndCause;
use client_patience::TimeOut;
use passive_ports::AdmitFault;
use rate_floors::CarryFault;
use recorded_store::StoreRecord;
use round_tally::LaneTally;
use session_table::HookCall;
use std::alloc::Global;
use std::io;

/// The session of a client.
#[derive(Clone, Copy, Debug, PartialEq, Eq)]
pub struct ClientSession {
    /// The address of the client.
    pub peer: [u8; 4],
    /// The number of the connection, which another one has once this one is gone.
    pub number: usize,
    /// The number by which the owner knows the session: no other session of the server has it.
    pub serial: u64,
}

/// The reason for which a client is not served.
#[derive(Clone, Copy, Debug, PartialEq, Eq)]
pub enum NotServed {
    /// The registry did not admit the connection.
    NotAdmitted(AdmitFault),
    /// No thread could be started for the session.
    NoThread,
    /// The server ends, once the transfers that run have ended.
    Ending,
}

/// The reason for which a session refuses its user, or more lines.
#[derive(Clone, Copy, Debug, PartialEq, Eq)]
pub enum SessionRefusal {
    /// The last password that it takes was wrong.
    TooManyLogins,
    /// Too many lines were held while a transfer ran.
    TooManyHeldLines,
    /// The user is logged in as often as one user may be.
    TooManySessions,
}

/// An event of a session for which its handler has no callback.
#[derive(Clone, Copy)]
pub enum SessionEvent {
    /// The client was refused, with 421.
    Refused(SessionRefusal),
    /// No passive port could be listened on; the error is that of the last port tried.
    NoPort(io::Error),
    /// The session ends, since its client has passed a limit of time.
    TimedOut(TimeOut),
    /// The session ends, since the owner of the server asked for it.
    Ended,
}

/// The reason for which no session ends, though the owner of a server asked for it.
#[derive(Clone, Copy)]
pub enum NotEnded<'a> {
    /// This is the number of no session that is there.
    NoSession(&'a str),
    /// The request cannot be read, for this reason; none if memory ran out.
    Unread(Option<&'a str>),
}

/// A command that was refused for what it asks of the store: its path, the letters of its user, or what is there (the
/// replies 550 and 553, and 501 of a listing).
#[derive(Clone, Copy)]
pub struct DeclinedCommand<'a> {
    /// The name of the user; empty before a login.
    pub user: &'a str,
    /// The working directory, in which a relative path lies.
    pub directory: &'a str,
    /// The command and its argument.
    pub line: &'a str,
    /// The code and the text of the reply.
    pub reply: &'a str,
}

/// A login that was refused, with 421, since the guaranteed rate of its user does not fit.
#[derive(Clone, Copy)]
pub struct UnguaranteedLogin<'a> {
    /// The name of the user, whose password was right; none if there was no memory for it.
    pub user: Option<&'a str>,
    /// The limit that all guarantees would be above with this session, what they would add up to, and its rate.
    pub why: CarryFault,
}

/// The outcome of a changed configuration.
#[derive(Clone, Copy)]
pub enum Reloaded<'a> {
    /// The server has it, with what that changes, in lines; none if that is not known.
    Taken(Option<&'a str>),
    /// The server goes on with the one before, for this reason.
    Refused(&'a str),
}

/// An event of the whole server.
#[derive(Clone, Copy)]
pub enum ServerEvent {
    /// The address and port cannot be listened on.
    NotBound([u8; 4], u16, io::Error),
    /// A connection could not be accepted.
    NotAccepted(io::Error),
    /// Fewer files may be open (the first number) than all clients together may need (the second).
    FewDescriptors(u64, u64),
    /// The server drains, with that number of clients: it ends once their transfers have ended.
    Drains(u64),
    /// The time of a server that drains is over: that number of clients is told so, and their transfers are cut.
    DrainTimedOut(u64),
    /// The server ends, and waits for that number of calls of the machine which have not returned: on files, or on
    /// sockets.
    Waits(u64),
    /// Nothing can be settled: the part of this lane is not in its place, which is a fault of the program.
    Misplaced(u64),
}

/// The kind of a transfer.
#[derive(Clone, Copy, Debug, PartialEq, Eq)]
pub enum TransferKind {
    /// A file was sent to the client.
    Sent,
    /// A file was received from the client.
    Received,
    /// A listing was sent to the client.
    Listed,
}

/// A transfer that began and has ended, whoever ended it.
#[derive(Clone, Copy)]
pub struct TransferRecord<'a> {
    /// The user who was logged in when it began.
    pub user: &'a str,
    pub kind: TransferKind,
    /// The path of the file below the root of the store; none for a listing, or if there was no memory for it.
    pub path: Option<&'a str>,
    /// Its type is that of texts (TYPE A).
    pub is_text: bool,
    /// The octets that were moved.
    pub octets: u64,
    /// The time from its beginning to its end, in microseconds.
    pub micros: u64,
    /// The reason for which it did not come to its end; none if it did.
    pub cause: Option<EndCause>,
    /// The machine's error for which the file could not be read or written, if that is the reason and it is known.
    pub error: Option<io::Error>,
}

/// A transfer that has begun.
#[derive(Clone, Copy)]
pub struct BegunTransfer<'a> {
    /// The user who is logged in, and the number by which rounds identify them.
    pub user: &'a str,
    pub number: u32,
    pub kind: TransferKind,
    /// The path of the file below the root of the store; none for a listing, or if there was no memory for it.
    pub path: Option<&'a str>,
    /// The octets of the file that is sent, if that was asked for and is known.
    pub size: Option<u64>,
    /// The moment at which it began, in microseconds.
    pub since: u64,
}

/// A look at a lane.
#[derive(Clone, Copy)]
pub struct LaneLook {
    /// The session whose transfer the lane runs, if it runs one.
    pub session: Option<u64>,
    /// The octets that the transfer had moved before its last ask.
    pub moved: u64,
    /// The octets that rounds have granted to it.
    pub tally: LaneTally,
}

/// A look at a server at a moment.
#[derive(Clone, Copy)]
pub struct ServerLook<'a> {
    /// The moment, in microseconds.
    pub micros: u64,
    /// Number of connected clients.
    pub sessions: usize,
    /// The octets that rounds have issued so far.
    pub issued: u64,
    /// The octets that they have granted to transfers that have ended.
    pub ended: LaneTally,
    pub lanes: &'a [LaneLook],
}

/// A change that a session has made in its store, or a fault of the store.
#[derive(Clone, Copy)]
pub struct StoreNote<'a> {
    /// The user who is logged in.
    pub user: &'a str,
    pub record: &'a StoreRecord,
    /// The machine's error for a fault, if it is known.
    pub error: Option<io::Error>,
}

/// Callbacks for the events of a server and of its sessions. One that is about a session has it as its first argument. A
/// session waits for its callbacks: they may note, count or report to others, and must not take long.
///
/// A handler writes those that it wants: each does nothing otherwise, except that `on_call` and `on_transfer` pass on to
/// the callbacks above them. A handler that hands events on to another one writes all those that are not passed on.
pub trait ServerHooks: Drop {
    /// A client has connected, and was greeted.
    fn on_connect(&mut self, _session: ClientSession) {}

    /// The control connection is gone. No callback of `on_call` follows for this session.
    fn on_disconnect(&mut self, _session: ClientSession) {}

    /// A user has logged in.
    fn on_login(&mut self, _session: ClientSession, _user: &str) {}

    /// A wrong password was given for a name, which may be no user's.
    fn on_login_failed(&mut self, _session: ClientSession, _user: &str) {}

    /// A user has left: by QUIT, REIN or another USER, or because the connection is gone.
    fn on_logout(&mut self, _session: ClientSession, _user: &str) {}

    /// A file was sent whole.
    fn on_file_sent(&mut self, _session: ClientSession, _file: &TransferRecord<'_>) {}

    /// A file was received whole, and the store has it.
    fn on_file_received(&mut self, _session: ClientSession, _file: &TransferRecord<'_>) {}

    /// A file was not sent whole: the record has the cause.
    fn on_incomplete_file_sent(&mut self, _session: ClientSession, _file: &TransferRecord<'_>) {}

    /// A file was not received whole, or the store refused it: the record has the cause.
    fn on_incomplete_file_received(
        &mut self,
        _session: ClientSession,
        _file: &TransferRecord<'_>,
    ) {}

    /// An event of this session. Passes it on, unless it is of a file: `on_transfer` does that.
    fn on_call(&mut self, session: ClientSession, call: &HookCall<Global>) {
        match call {
            HookCall::Connect => self.on_connect(session),
            HookCall::Disconnect => self.on_disconnect(session),
            HookCall::Login(user) => self.on_login(session, user.as_str()),
            HookCall::LoginFailed(user) => self.on_login_failed(session, user.as_str()),
            HookCall::Logout(user) => self.on_logout(session, user.as_str()),
            HookCall::FileSent(_)
            | HookCall::FileReceived(_)
            | HookCall::IncompleteFileSent(_)
            | HookCall::IncompleteFileReceived(_) => {}
        }
    }

    /// An event of this session for which a handler has no callback.
    fn on_session(&mut self, _session: ClientSession, _event: SessionEvent) {}

    /// A command of this session was refused for what it asks of the store.
    fn on_declined(&mut self, _session: ClientSession, _command: &DeclinedCommand<'_>) {}

    /// A login of this session was refused for the guaranteed rate of its user.
    fn on_unguaranteed(&mut self, _session: ClientSession, _login: &UnguaranteedLogin<'_>) {}

    /// A client of this address is not served.
    fn on_refused(&mut self, _peer: [u8; 4], _why: NotServed) {}

    /// An event of the server.
    fn on_server(&mut self, _event: ServerEvent) {}

    /// The server has taken a changed configuration, or has refused it.
    fn on_reload(&mut self, _outcome: Reloaded<'_>) {}

    /// The owner asked for the end of a session, and none ends.
    fn on_not_ended(&mut self, _why: NotEnded<'_>) {}

    /// Returns whether the sizes of files that are sent are to be asked for.
    fn wants_sizes(&self) -> bool {
        false
    }

    /// A transfer of this session has begun.
    fn on_begun(&mut self, _session: ClientSession, _transfer: &BegunTransfer<'_>) {}

    /// A look at what goes on, once a second, if the owner's signs ask for it.
    fn on_look(&mut self, _look: &ServerLook<'_>) {}

    /// A transfer of this session has ended. It is called also if the control connection is gone. Passes a transfer of a
    /// file on.
    fn on_transfer(&mut self, session: ClientSession, record: &TransferRecord<'_>) {
        match (record.kind, record.cause) {
            (TransferKind::Sent, None) => self.on_file_sent(session, record),
            (TransferKind::Sent, Some(_)) => self.on_incomplete_file_sent(session, record),
            (TransferKind::Received, None) => self.on_file_received(session, record),
            (TransferKind::Received, Some(_)) => self.on_incomplete_file_received(session, record),
            (TransferKind::Listed, _) => {}
        }
    }

    /// This session has changed its store, or its store has a fault.
    fn on_store(&mut self, _session: ClientSession, _note: &StoreNote<'_>) {}
}

/// A handler to which no event matters.
#[derive(Drop)]
pub struct NoHooks;

impl ServerHooks for NoHooks {}
