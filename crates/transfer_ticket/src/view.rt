//! Contents of a ticket's slot, and views of its seats.

/// The content of a ticket's slot.
#[derive(Drop)]
pub enum TicketSlot<J: Drop, E: Drop> {
    Blank,
    WithJob(J),
    WithEnd(E),
}

/// The view of a seat. Exists for contracts only; no value is ever made.
pub enum TicketView<J> {
    /// Neither the session nor a lane that runs a job.
    Away,
    /// A seat that found nothing to take.
    Missed,
    /// The session, with no job on the ticket.
    Idle,
    /// The session, with the job that it put; whether it has asked the lane to stop; whether it knows that a lane has
    /// begun the job; and the number of its tries that found nothing.
    Busy(J, bool, bool, u64),
    /// The lane that runs this job, whether it has seen that it is to stop, and the number of its looks.
    Runs(J, bool, u64),
}
