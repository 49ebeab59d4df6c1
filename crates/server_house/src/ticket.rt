//! The ticket of a session, by which it hands its transfers to the lanes.

use crate::connection::DataConnection;
use crate::served::Served;
use crate::transfer_end::TransferEnd;
use std::alloc::Global;
use std::io::{Read, Write};
use transfer_ticket::{EndRule, Ticket};
use transfer_worker::LaneJob;
use virtual_tree::{Sink, Source, Store};

/// The ends that a lane may report of a transfer: that it was aborted, only if the lane saw that it was to stop; and the
/// sink of an upload comes back, unless there was no memory to begin.
pub struct LaneEnds;

impl<R: Source, K: Sink, C: Read + Write + Drop> EndRule<LaneJob<R, K, C>, TransferEnd<K>>
    for LaneEnds {
    ghost use Rattle.server_house.specs.Tickets.{IsLaneEnd};

    ghost permits = { IsLaneEnd };
}

/// A transfer of a session over a store.
pub type SessionJob<S> = LaneJob<
    Served<Global, <S as Store<Global>>::Source>,
    <S as Store<Global>>::Sink,
    DataConnection,
>;

/// The end of such a transfer.
pub type SessionEnd<S> = TransferEnd<<S as Store<Global>>::Sink>;

/// The ticket of a session over a store.
pub type SessionTicket<S> = Ticket<SessionJob<S>, SessionEnd<S>, LaneEnds>;
