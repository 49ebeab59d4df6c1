//! The client whom a session's passive ports are for.

ghost use Rattle.std.specs.Prelude.{◌≡◌, IfSome, None, Some, is_none};
ghost use Rattle.socket_host.specs.Causes.{absence};

use crate::ports::early_of;
use server_house::{EndCause, PeerConnection, accept_from, empty_queue};
use std::net::TcpListener;
use std::{io, mem};

/// The client of a session's passive ports: the peer whose connections are taken, none for any, and its connection if
/// that came before its transfer was begun.
#[derive(Drop)]
pub(crate) struct AwaitedClient {
    wanted: Option<[u8; 4]>,
    early: Option<PeerConnection>,
    // the machine's error of the last look for a connection, if it could not accept one
    fault: Option<io::Error>,
}

impl AwaitedClient {
    /// This peer, or any if none is given, of whom no connection has come.
    pub(crate) fn new(wanted: Option<[u8; 4]>) -> AwaitedClient
        ensures wanted { result.wanted ≡ wanted }
        ensures none { result.early ≡ None }
        ensures well { result.fault ≡ None }
    {
        AwaitedClient {
            wanted,
            early: None,
            fault: None,
        }
    }

    /// Takes the client's connection from the queue of a listener, if it has come, and holds it. All others are closed, as
    /// is every one once the client's is held.
    pub(crate) fn welcome(&mut self, listener: &TcpListener)
        ensures wanted { self.new.wanted ≡ self.old.wanted }
        ensures held { IfSome self.old.early (λ connection. self.new.early ≡ Some connection) }
        ensures own { self.old.early ≡ None
            → IfSome self.new.early (λ connection. connection.peer ≡ self.old.wanted) }
    {
        if self.early.is_none() {
            self.early = early_of(listener, self.wanted);
        } else {
            empty_queue(listener);
        }
    }

    /// The client's connection at a listener: that which came early, or one that has come by now. A connection that is
    /// held and is not the client's, as there is none, is closed.
    pub(crate) fn take(&mut self, listener: &TcpListener) -> Option<PeerConnection>
        ensures peer { IfSome result (λ connection. connection.peer ≡ self.old.wanted) }
        ensures held { IfSome self.old.early (λ connection.
            connection.peer ≡ self.old.wanted → result ≡ Some connection) }
        ensures none { self.new.early ≡ None }
        ensures wanted { self.new.wanted ≡ self.old.wanted }
    {
        let held = mem::replace(&mut self.early, None);
        if let Some(connection) = held {
            if connection.peer() == self.wanted {
                return Some(connection);
            }
        }
        match accept_from(listener, self.wanted) {
            Ok(found) => {
                self.fault = None;
                found
            }
            Err(error) => {
                self.fault = Some(error);
                None
            }
        }
    }

    /// Returns whether the last look for a connection met no error of the machine: after one the connection may still wait,
    /// so that a wait for it would end at once.
    pub(crate) fn is_well(&self) -> bool
        ensures well { result ≡ is_none self.now.fault }
    {
        self.fault.is_none()
    }

    /// The reason for the end of a transfer whose client has not come: the machine's error, if the last look had one.
    pub(crate) fn absence(&self) -> EndCause
        ensures reason { result ≡ absence self.now.fault }
    {
        match self.fault {
            Some(error) => EndCause::NotAccepted(error),
            None => EndCause::NoClient,
        }
    }

    /// Closes the connection that is held, if there is one, and forgets the error of a look.
    pub(crate) fn forget(&mut self)
        ensures none { self.new.early ≡ None }
        ensures well { self.new.fault ≡ None }
        ensures wanted { self.new.wanted ≡ self.old.wanted }
    {
        self.early = None;
        self.fault = None;
    }
}
