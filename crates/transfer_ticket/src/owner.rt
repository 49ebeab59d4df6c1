//! The session's side of a ticket: sit down, put a job, take it back, stop it, take its end, leave.

ghost use Rattle.std.specs.Prelude.{◌≡◌, ℕ, IfNone, IfOk, IfSome, false, true};
ghost use Rattle.transfer_ticket.specs.Tickets.{IsPermitted, asking, begun, held_by, is_begun, is_busy, is_owner, tried};
ghost use Rattle.transfer_ticket.specs.declared.view.TicketView.TheVariants.{Busy, Idle};

use crate::rule::{Cancel, EndRule, Enter, Leave, Put, Sit, Stop, TakeEnd};
use crate::ticket::{Ticket, TicketMiss};
use crate::view::{TicketSlot, TicketView};
use atomic_table::Seat;
use std::alloc::{Allocator, Global};
use std::sync::Wait;
use std::time::Duration;

/// The right of a session to use a ticket. Contracts see what it knows as `owner_view`: `Idle`, or `Busy` with the job
/// that it put last. It cannot be dropped: it must leave, which it can only once its last job is back or has ended.
pub struct TicketOwner<'t, J: Drop, E: Drop, P: EndRule<J, E>, A: Allocator = Global> {
    ticket: &'t Ticket<J, E, P, A>,
    seat: Seat<TicketSlot<J, E>, TicketView<J>>,
    ghost tied: { seat.table_id ≡ ticket.now.table.shared.table_id },
    ghost knows: { (is_owner seat.me.0 ≡ true) × (seat.me.1 ≡ held_by seat.me.0) },
}

impl<'t, J: Drop, E: Drop, P: EndRule<J, E>, A: Allocator> TicketOwner<'t, J, E, P, A> {
    ghost use Rattle.transfer_ticket.specs.Views.{owner_view};

    /// Sits down at a ticket. Fails only if another sat there at a moment of the call.
    pub fn sit(
        ticket: &'t Ticket<J, E, P, A>,
    ) -> Result<TicketOwner<'t, J, E, P, A>, TicketMiss<J, E>>
        ensures idle { IfOk result (λ owner. owner_view owner ≡ Idle) }
    {
        let shared = ticket.shared();
        let (_, mut seat) = shared.load_new_seat::<Enter>(0);
        if shared.compare_exchange::<Sit>(&mut seat, 0, 0, 1) == 0 {
            Ok(TicketOwner { ticket, seat })
        } else {
            Err(TicketMiss::new(seat))
        }
    }

    /// Leaves the ticket to the next session.
    pub fn leave(self)
        requires idle { owner_view self ≡ Idle }
    {
        let TicketOwner { ticket, mut seat } = self;
        ticket.shared().store::<Leave>(&mut seat, 0, 0);
    }

    /// Puts a job, which waits for a lane. Returns whether the ticket's number is to be appended to the board now: it
    /// is there at most once.
    pub fn put(&mut self, job: J) -> bool
        requires idle { owner_view self.old ≡ Idle }
        ensures busy { owner_view self.new ≡ Busy job false false 0 }
    {
        let shared = self.ticket.shared();
        match shared.exchange(&mut self.seat, 0, TicketSlot::WithJob(job)) {
            TicketSlot::Blank => {}
            _ => unreachable!(),
        }
        shared.store::<Put>(&mut self.seat, 0, 2);
        self.ticket.list()
    }

    /// Takes the job back, at once. Returns `None` only if a lane has begun it.
    pub fn cancel(&mut self) -> Option<J>
        requires busy { is_busy (owner_view self.old) ≡ true }
        ensures some { IfSome result (λ job. (n : ℕ)
            × (owner_view self.old ≡ Busy job false false n) × (owner_view self.new ≡ Idle)) }
        ensures none { IfNone result (owner_view self.new ≡ begun (owner_view self.old)) }
    {
        let shared = self.ticket.shared();
        if shared.compare_exchange::<Cancel>(&mut self.seat, 0, 2, 1) != 2 {
            return None;
        }
        match shared.exchange(&mut self.seat, 0, TicketSlot::Blank) {
            TicketSlot::WithJob(job) => Some(job),
            _ => unreachable!(),
        }
    }

    /// Asks the lane that runs the job to stop. Returns true if it has reported the end already.
    pub fn stop(&mut self) -> bool
        requires begun { is_begun (owner_view self.old) ≡ true }
        ensures asks { result ≡ false → owner_view self.new ≡ asking (owner_view self.old) }
        ensures over { result ≡ true → owner_view self.new ≡ tried (owner_view self.old) }
    {
        self.ticket
            .shared()
            .compare_exchange::<Stop>(&mut self.seat, 0, 3, 4)
            == 5
    }

    /// Takes the end of the job, once a lane has reported it. Returns `None` only if none had at a moment of the call.
    pub fn take_end(&mut self) -> Option<E>
        requires busy { is_busy (owner_view self.old) ≡ true }
        ensures some { IfSome result (λ end. IsPermitted P.permits (owner_view self.old) end
            × (owner_view self.new ≡ Idle)) }
        ensures none { IfNone result (owner_view self.new ≡ tried (owner_view self.old)) }
    {
        let shared = self.ticket.shared();
        if shared.compare_exchange::<TakeEnd<P>>(&mut self.seat, 0, 5, 1) != 5 {
            return None;
        }
        match shared.exchange(&mut self.seat, 0, TicketSlot::Blank) {
            TicketSlot::WithEnd(end) => Some(end),
            _ => unreachable!(),
        }
    }

    /// Sleeps until the ticket changes, at most `limit`, unless an end is there. Returns whether one is there. May return
    /// early without one.
    pub fn rest<R: Wait>(&self, rt: &R, limit: Duration) -> bool {
        let shared = self.ticket.shared();
        match shared.peek(0) {
            2 => shared.park_timeout(rt, 0, 2, limit),
            3 => shared.park_timeout(rt, 0, 3, limit),
            4 => shared.park_timeout(rt, 0, 4, limit),
            _ => {}
        }
        shared.peek(0) == 5
    }
}
