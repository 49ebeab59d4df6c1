//! The parts that the threads of a server share.
//!
//! A [`House`] is lent to all of them. Each changing part has a lock of its own, which nobody holds during a call to a
//! socket. A thread that needs two of them takes the floors first and then the store; the handler is called with no
//! other lock held. A step that needs no floors takes only the lock of its session's store, so a slow call of a store,
//! such as the listing of a large folder, delays nobody else if each session has a store of its own.
//!
//! A session listens on a port or connects ([`Outgoing`], which it does not wait for), and hands the [`DataConnection`]
//! to a lane, which moves octets on it. Both have the socket, so the session can shut it down while the lane waits on it.
//! A listing and a file are read through one type, [`Served`], so that one board takes both.
#![tactic(auto)]

mod asking;
mod cause;
mod connection;
mod descriptors;
mod ending;
mod house;
mod lane;
mod logins;
mod outgoing;
mod own_address;
mod own_runs;
mod passive;
mod runtime;
mod served;
mod server_hooks;
mod session_sign;
mod terms;
mod ticket;
mod transfer_end;
mod transfer_name;

pub use asking::{MOST_SESSIONS, asked_session};
pub use cause::EndCause;
pub use connection::{DataConnection, FIRST_WRITE};
pub use descriptors::descriptors_for;
pub use ending::{ServerShutdown, ShutdownStage, stages_stay_begun};
pub use house::{House, copy_settings};
pub use lane::LaneSign;
pub use logins::Logins;
pub use outgoing::{Outgoing, Progress};
pub use own_address::OwnAddress;
pub use own_runs::OwnRuns;
pub use passive::{
    PeerConnection, accept_from, address_octets, empty_queue, listen, may_keep_ports,
    socket_address,
};
pub use runtime::ServerRuntime;
pub use served::{Listing, Served};
pub use server_hooks::{
    BegunTransfer, ClientSession, DeclinedCommand, LaneLook, NoHooks, NotEnded, NotServed,
    Reloaded, ServerEvent, ServerHooks, ServerLook, SessionEvent, SessionRefusal, StoreNote,
    TransferKind, TransferRecord, UnguaranteedLogin,
};
pub use session_sign::SessionSign;
pub use terms::{DueTerms, HeldTerms, SharedTerms, Terms};
pub use ticket::{LaneEnds, SessionEnd, SessionJob, SessionTicket};
pub use transfer_end::TransferEnd;
pub use transfer_name::TransferName;
