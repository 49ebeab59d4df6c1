//! The transfer of a session, and the session's right to its ticket.

ghost use Rattle.std.specs.Prelude.{◌≡◌, ℕ, IfNone, IfSome, false, true};
ghost use Rattle.socket_host.specs.Payers.{charged_on};
ghost use Rattle.socket_host.specs.Running.{Aborts, Stops, Takes, is_marked, is_moving, port_of};
ghost use Rattle.transfer_ticket.specs.Tickets.{is_busy, is_owner};
ghost use Rattle.transfer_ticket.specs.Views.{owner_view};
ghost use Rattle.transfer_ticket.specs.declared.view.TicketView.TheVariants.{Idle};

use crate::ports::LeasedPort;
use crate::running::{SideTransfer, lane_job, over, put_in, taken_back};
use server_house::{DataConnection, LaneEnds, SessionEnd, SessionJob, TransferEnd};
use session_table::{End, Job};
use std::alloc::Global;
use std::{io, mem};
use transfer_ticket::TicketOwner;
use virtual_tree::Store;

// Takes a transfer back from the lanes, or has the lane that runs it stop.
fn stop<S: Store<Global>>(
    owner: &mut TicketOwner<'_, SessionJob<S>, SessionEnd<S>, LaneEnds>,
    connection: DataConnection,
) -> SideTransfer<S::Source, S::Sink>
    requires busy { is_busy (owner_view owner.old) ≡ true }
    ensures charged { (payer : ℕ) → charged_on payer (owner_view owner.old) ≡ payer
        → charged_on payer (owner_view owner.new) ≡ payer }
    ensures stops { Stops (owner_view owner.old) connection result (owner_view owner.new) }
{
    match owner.cancel() {
        Some(job) => taken_back(job),
        None => {
            connection.abort();
            let _ = owner.stop();
            SideTransfer::Moving {
                connection,
                is_aborted: true,
            }
        }
    }
}

/// The end of a transfer that was taken.
#[derive(Drop)]
pub(crate) enum Taken<K> {
    Nothing,
    /// One that never ran, or was taken back.
    Unbegun(TransferEnd<K>),
    /// The end that a lane reports of a transfer that was aborted or not, and the last error of its connection.
    Reported(TransferEnd<K>, bool, Option<io::Error>),
}

/// The transfer of a session at its ticket: it moves exactly if it is on the ticket, and a lane was asked to stop it only
/// if it was aborted. It cannot be dropped.
pub(crate) struct SessionRun<'h, S: Store<Global>> {
    pub(crate) owner: TicketOwner<'h, SessionJob<S>, SessionEnd<S>, LaneEnds>,
    pub(crate) running: SideTransfer<S::Source, S::Sink>,
    // the number of the user who is charged for it
    pub(crate) payer: u32,
    ghost charged: { charged_on payer (owner_view owner) ≡ payer },
    ghost tied: { (is_owner (owner_view owner) ≡ true)
        × (is_moving running ≡ is_busy (owner_view owner))
        × (is_marked running (owner_view owner) ≡ true) },
}

impl<'h, S: Store<Global>> SessionRun<'h, S> {
    /// No transfer, at a ticket with nothing on it.
    pub(crate) fn new(
        owner: TicketOwner<'h, SessionJob<S>, SessionEnd<S>, LaneEnds>,
    ) -> SessionRun<'h, S>
        requires idle { owner_view owner ≡ Idle }
        ensures nothing { result.running ≡ SideTransfer.Nothing }
    {
        SessionRun {
            owner,
            running: SideTransfer::Nothing,
            payer: 0,
        }
    }

    /// Charges a user for the next transfer.
    pub(crate) fn charge(&mut self, user: u32)
        requires nothing { self.old.running ≡ SideTransfer.Nothing }
        ensures payer { self.new.payer ≡ user }
        ensures running { self.new.running ≡ self.old.running }
    {
        self.payer = user;
    }

    /// Puts a transfer over a connection on the ticket, for the user who is charged. Returns whether the ticket's number is to be appended to the board.
    pub(crate) fn put(
        &mut self,
        connection: DataConnection,
        theirs: DataConnection,
        job: Job<Global, S::Source, S::Sink>,
        session: u32,
    ) -> bool
        requires nothing { self.old.running ≡ SideTransfer.Nothing }
        ensures moving { self.new.running ≡ SideTransfer.Moving connection false }
        ensures payer { self.new.payer ≡ self.old.payer }
    {
        let job = lane_job(job, theirs, self.payer, session);
        let is_to_list = self.owner.put(job);
        let moving = SideTransfer::Moving {
            connection,
            is_aborted: false,
        };
        put_in(&mut self.running, moving);
        is_to_list
    }

    /// Has a transfer wait for its connection, or be over.
    pub(crate) fn begin(&mut self, next: SideTransfer<S::Source, S::Sink>)
        requires nothing { self.old.running ≡ SideTransfer.Nothing }
        requires waits { is_moving next ≡ false }
        ensures running { self.new.running ≡ next }
        ensures payer { self.new.payer ≡ self.old.payer }
        ensures owner { owner_view self.new.owner ≡ owner_view self.old.owner }
    {
        put_in(&mut self.running, next);
    }

    /// Takes out a transfer without a connection, or its end; one on the ticket stays there.
    pub(crate) fn take_out(&mut self) -> Option<SideTransfer<S::Source, S::Sink>>
        ensures out { IfSome result (λ out. (out ≡ self.old.running)
            × (is_moving self.old.running ≡ false) × (self.new.running ≡ SideTransfer.Nothing)) }
        ensures stays { IfNone result ((is_moving self.old.running ≡ true)
            × (self.new.running ≡ self.old.running)
            × (owner_view self.new.owner ≡ owner_view self.old.owner)) }
        ensures payer { self.new.payer ≡ self.old.payer }
    {
        if let SideTransfer::Moving { .. } = &self.running {
            return None;
        }
        Some(mem::replace(&mut self.running, SideTransfer::Nothing))
    }

    /// Aborts the transfer. Returns the port that it waited at, if it did, which is to be closed.
    pub(crate) fn abort(&mut self) -> Option<LeasedPort>
        ensures running { Aborts (owner_view self.old.owner) self.old.running self.new.running }
        ensures port { result ≡ port_of self.old.running }
        ensures payer { self.new.payer ≡ self.old.payer }
    {
        let before = mem::replace(&mut self.running, SideTransfer::Nothing);
        match before {
            SideTransfer::Awaited {
                port,
                job,
                since: _,
            } => {
                put_in(&mut self.running, over(End::Aborted, job));
                Some(port)
            }
            SideTransfer::Connecting {
                outgoing,
                job,
                since: _,
            } => {
                drop(outgoing);
                put_in(&mut self.running, over(End::Aborted, job));
                None
            }
            SideTransfer::Moving {
                connection,
                is_aborted: _,
            } => {
                let stopped = stop::<S>(&mut self.owner, connection);
                put_in(&mut self.running, stopped);
                None
            }
            SideTransfer::Nothing => None,
            SideTransfer::Over(reported) => {
                put_in(&mut self.running, SideTransfer::Over(reported));
                None
            }
        }
    }

    /// Takes the end of the transfer, if it has ended. The connection is closed first.
    pub(crate) fn take_end(&mut self) -> Taken<S::Sink>
        ensures takes { Takes (owner_view self.old.owner) self.old.running result self.new.running }
        ensures payer { self.new.payer ≡ self.old.payer }
    {
        let before = mem::replace(&mut self.running, SideTransfer::Nothing);
        match before {
            SideTransfer::Nothing => Taken::Nothing,
            SideTransfer::Over(reported) => Taken::Unbegun(reported),
            SideTransfer::Moving {
                connection,
                is_aborted,
            } => match self.owner.take_end() {
                Some(reported) => {
                    let fault = connection.fault();
                    drop(connection);
                    Taken::Reported(reported, is_aborted, fault)
                }
                None => {
                    let moving = SideTransfer::Moving {
                        connection,
                        is_aborted,
                    };
                    put_in(&mut self.running, moving);
                    Taken::Nothing
                }
            },
            waiting => {
                put_in(&mut self.running, waiting);
                Taken::Nothing
            }
        }
    }

    /// Leaves the ticket, with nothing on it. Returns the port at which a client was awaited, if one was.
    pub(crate) fn leave(self) -> Option<LeasedPort>
        requires nothing { is_moving self.running ≡ false }
        ensures port { result ≡ port_of self.entry.running }
    {
        let SessionRun {
            owner,
            running,
            payer: _,
        } = self;
        owner.leave();
        running.into_port()
    }
}
