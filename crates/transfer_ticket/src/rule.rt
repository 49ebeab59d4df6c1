//! The rule of a ticket's table, and its kinds of steps.

ghost use Rattle.transfer_ticket.specs.declared.view.TicketView.TheVariants.{Away};
ghost use Rattle.transfer_ticket.specs.Tickets.{Kept, cancels, enters, leaves, looks, puts, reports, sits, stops, takes_end, takes_job};

use crate::view::{TicketSlot, TicketView};
use atomic_table::{Play, TableRule};
use std::marker::PhantomData;

/// The ends that may be reported of a job, by whether its lane saw that it was to stop.
pub trait EndRule<J, E> {
    ghost use Rattle.std.specs.Prelude.{Bool};

    ghost permits: { J → Bool → E → Type 0 };
}

/// The invariant between any two steps.
pub struct TicketRule<P> {
    ends: PhantomData<P>,
}

impl<J: Drop, E: Drop, P: EndRule<J, E>> TableRule<TicketSlot<J, E>, TicketView<J>, ()>
    for TicketRule<P> {
    ghost holds = { λ k. Kept P.permits };

    ghost first = { λ k. Away };
}

/// A thread comes with a seat that knows nothing.
pub struct Enter;

impl<J: Drop, E: Drop> Play<TicketSlot<J, E>, TicketView<J>> for Enter {
    ghost then = { enters };
}

/// A session sits down: the word goes from 0 to 1, and the seat takes the slot.
pub struct Sit;

impl<J: Drop, E: Drop> Play<TicketSlot<J, E>, TicketView<J>> for Sit {
    ghost then = { sits };
}

/// The session leaves: the word goes from 1 to 0, and the slot is returned blank.
pub struct Leave;

impl<J: Drop, E: Drop> Play<TicketSlot<J, E>, TicketView<J>> for Leave {
    ghost then = { leaves };
}

/// The session puts a job: the word goes from 1 to 2, and the slot is returned with the job.
pub struct Put;

impl<J: Drop, E: Drop> Play<TicketSlot<J, E>, TicketView<J>> for Put {
    ghost then = { puts };
}

/// The session takes its job back: if the word is 2, it goes to 1, and the seat takes the slot.
pub struct Cancel;

impl<J: Drop, E: Drop> Play<TicketSlot<J, E>, TicketView<J>> for Cancel {
    ghost then = { cancels };
}

/// The session asks the lane to stop: if the word is 3, it goes to 4.
pub struct Stop;

impl<J: Drop, E: Drop> Play<TicketSlot<J, E>, TicketView<J>> for Stop {
    ghost then = { stops };
}

/// The session takes the end: if the word is 5, it goes to 1, and the seat takes the slot.
pub struct TakeEnd<P> {
    ends: PhantomData<P>,
}

impl<J: Drop, E: Drop, P: EndRule<J, E>> Play<TicketSlot<J, E>, TicketView<J>> for TakeEnd<P> {
    ghost then = { takes_end P.permits };
}

/// A lane takes the job: if the word is 2, it goes to 3, and the seat takes the slot.
pub struct TakeJob;

impl<J: Drop, E: Drop> Play<TicketSlot<J, E>, TicketView<J>> for TakeJob {
    ghost then = { takes_job };
}

/// The lane looks whether it is to stop.
pub struct Look;

impl<J: Drop, E: Drop> Play<TicketSlot<J, E>, TicketView<J>> for Look {
    ghost then = { looks };
}

/// The lane reports the end: the word becomes 5, and the slot is returned with the end.
pub struct Report;

impl<J: Drop, E: Drop> Play<TicketSlot<J, E>, TicketView<J>> for Report {
    ghost then = { reports };
}
