//! The ticket, which the session and all lanes share.

ghost use Rattle.std.specs.Prelude.{◌≡◌};
ghost use Rattle.transfer_ticket.specs.declared.view.TicketView.TheVariants.{Missed};

use crate::rule::{EndRule, TicketRule};
use crate::view::{TicketSlot, TicketView};
use atomic_table::{Refused, Seat, Shared, Table};
use std::alloc::{AllocError, Allocator, Global};
use std::sync::atomic::{AtomicU64, Ordering};

/// A place for one job at a time of one session at a time. `P` says which ends may be reported of a job.
#[derive(Drop)]
pub struct Ticket<J: Drop, E: Drop, P: EndRule<J, E>, A: Allocator = Global> {
    table: Table<TicketSlot<J, E>, TicketView<J>, (), TicketRule<P>, A>,
    // 1 while its number is on the board
    listed: AtomicU64,
    ghost sized: { (table.shared.table_id.words ≡ 1) × (table.shared.table_id.slots ≡ 1) },
}

/// Shows that there was nothing to take at a moment of a call: a session sat there, or no job waited.
#[derive(Drop)]
pub struct TicketMiss<J: Drop, E: Drop> {
    seat: Seat<TicketSlot<J, E>, TicketView<J>>,
    ghost missed: { seat.me.0 ≡ Missed },
}

impl<J: Drop, E: Drop> TicketMiss<J, E> {
    /// The miss that a seat found.
    pub(crate) fn new(seat: Seat<TicketSlot<J, E>, TicketView<J>>) -> TicketMiss<J, E>
        requires missed { seat.me.0 ≡ Missed }
    {
        TicketMiss { seat }
    }
}

impl<J: Drop, E: Drop, P: EndRule<J, E>, A: Allocator + Clone> Ticket<J, E, P, A> {
    /// A ticket at which nobody sits. Fails if memory runs out.
    pub fn new(alloc: A) -> Result<Ticket<J, E, P, A>, AllocError> {
        let mut slots = Vec::with_capacity(alloc.clone()?, 1)?;
        slots.push_reserved(TicketSlot::Blank);
        match Table::new(alloc, &[0u64], slots, &()) {
            Ok((table, _)) => Ok(Ticket {
                table,
                listed: AtomicU64::new(0),
            }),
            Err(Refused { slots }) => {
                drop(slots);
                Err(AllocError)
            }
        }
    }
}

impl<J: Drop, E: Drop, P: EndRule<J, E>, A: Allocator> Ticket<J, E, P, A> {
    /// Returns whether the lane that runs the job is to stop, at a moment of the call: a hint for whoever has no right to
    /// the ticket.
    pub fn is_stopping(&self) -> bool {
        self.shared().peek(0) == 4
    }

    /// After a job was put: returns whether the ticket's number is to be appended to the board. It is there at most once.
    pub(crate) fn list(&self) -> bool {
        self.listed.swap(1, Ordering::SeqCst) == 0
    }

    /// Before a job is taken: the ticket's number was taken off the board.
    pub(crate) fn unlist(&self) {
        self.listed.store(0, Ordering::SeqCst);
    }

    /// The steps on the word and the slot.
    pub(crate) fn shared(&self) -> &Shared<TicketSlot<J, E>, TicketView<J>, (), TicketRule<P>>
        ensures table { result.now.table_id ≡ self.now.table.shared.table_id }
        ensures sized { (result.now.table_id.words ≡ 1) × (result.now.table_id.slots ≡ 1) }
    {
        &self.table.shared
    }
}
