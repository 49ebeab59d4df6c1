//! The actions of a session, which its host carries out.

use crate::answers::Answer;
use crate::text::{Octets, Text};
use ftp_terms::DataType;
use ftp_wire::HostPort;
use std::alloc::Allocator;
use virtual_path::VPath;

/// An event for a handler.
#[derive(Drop)]
pub enum HookCall<A: Allocator> {
    Connect,
    Disconnect,
    /// With the user's name.
    Login(Text<A>),
    LoginFailed(Text<A>),
    Logout(Text<A>),
    /// With the user's path.
    FileSent(VPath<A>),
    FileReceived(VPath<A>),
    IncompleteFileSent(VPath<A>),
    IncompleteFileReceived(VPath<A>),
}

/// The octets that a transfer moves, with a store's sources `R` and its sinks `K`.
#[derive(Drop)]
pub enum Job<A: Allocator, R, K> {
    /// A listing is sent as it is.
    Text(Octets<A>),
    SendFile(R, DataType),
    TakeFile(K, DataType),
}

/// One action. Actions are carried out in their order.
#[derive(Drop)]
pub enum Action<A: Allocator, R, K> {
    Say(Answer<A>),
    Hook(HookCall<A>),
    /// Drops a prepared data connection, and opens a passive port. The input `DataReady` reports it.
    OpenPassive,
    /// Drops a prepared data connection; the next transfer connects to this address.
    ConnectTo(HostPort),
    DropData,
    /// Starts a transfer. The input `TransferEnded` reports its end.
    Start(Job<A, R, K>),
    /// Aborts the running transfer. Its end is reported all the same.
    Abort,
    CloseControl,
    /// Releases the guaranteed rate of the user with this number, once no transfer of the session is left.
    ReleaseFloor(u32),
}
