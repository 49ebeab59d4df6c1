//! A lane's side of a ticket: take the job, look whether to stop, report the end.

ghost use Rattle.std.specs.Prelude.{◌≡◌, IfOk, false, true};
ghost use Rattle.transfer_ticket.specs.Tickets.{MayReport, held_by, is_runner, looked};
ghost use Rattle.transfer_ticket.specs.declared.view.TicketView.TheVariants.{Runs};

use crate::rule::{EndRule, Enter, Look, Report, TakeJob};
use crate::ticket::{Ticket, TicketMiss};
use crate::view::{TicketSlot, TicketView};
use atomic_table::Seat;
use std::alloc::{Allocator, Global};

/// The duty of a lane to report the end of a job. Contracts see what it knows as `run_view`: `Runs` with the job, and
/// whether it has seen that it is to stop. It cannot be dropped: an end must be reported.
pub struct TicketRun<'t, J: Drop, E: Drop, P: EndRule<J, E>, A: Allocator = Global> {
    ticket: &'t Ticket<J, E, P, A>,
    seat: Seat<TicketSlot<J, E>, TicketView<J>>,
    ghost tied: { seat.table_id ≡ ticket.now.table.shared.table_id },
    ghost knows: { (is_runner seat.me.0 ≡ true) × (seat.me.1 ≡ held_by seat.me.0) },
}

impl<'t, J: Drop, E: Drop, P: EndRule<J, E>, A: Allocator> TicketRun<'t, J, E, P, A> {
    ghost use Rattle.transfer_ticket.specs.Views.{run_view};

    /// Takes the job that waits, after the ticket's number was taken off the board. Fails only if none waited at a moment
    /// of the call: it was taken back.
    pub fn take(
        ticket: &'t Ticket<J, E, P, A>,
    ) -> Result<(J, TicketRun<'t, J, E, P, A>), TicketMiss<J, E>>
        ensures runs { IfOk result (λ r. run_view r.1 ≡ Runs r.0 false 0) }
    {
        ticket.unlist();
        let shared = ticket.shared();
        let (_, mut seat) = shared.load_new_seat::<Enter>(0);
        if shared.compare_exchange::<TakeJob>(&mut seat, 0, 2, 3) != 2 {
            return Err(TicketMiss::new(seat));
        }
        match shared.exchange(&mut seat, 0, TicketSlot::Blank) {
            TicketSlot::WithJob(job) => Ok((job, TicketRun { ticket, seat })),
            _ => unreachable!(),
        }
    }

    /// Returns whether the session has asked it to stop, at a moment of the call. A lane that has seen this once may
    /// report an end for that reason from then on.
    pub fn is_to_stop(&mut self) -> bool
        ensures looked { run_view self.new ≡ looked result (run_view self.old) }
    {
        self.ticket.shared().load::<Look>(&mut self.seat, 0) == 4
    }

    /// Reports the end, and wakes the session.
    pub fn report(self, end: E)
        requires permitted { MayReport P.permits (run_view self) end }
    {
        let TicketRun { ticket, mut seat } = self;
        let shared = ticket.shared();
        match shared.exchange(&mut seat, 0, TicketSlot::WithEnd(end)) {
            TicketSlot::Blank => {}
            _ => unreachable!(),
        }
        shared.store::<Report>(&mut seat, 0, 5);
        shared.wake_one(0);
    }
}
