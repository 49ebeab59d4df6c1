//! A clock, and the side that opens data connections.

ghost use Rattle.std.specs.Prelude.{ℕ, IfSome};
ghost use Rattle.control_session.specs.Sides.{SideCall, came_of};
ghost use Rattle.control_session.specs.Sides.SideCall.{Opens, Connects, Drops, Starts, Aborts, Looks, Settles};

use ftp_wire::HostPort;
use session_table::{Input, Job};
use std::alloc::Allocator;

/// A clock.
pub trait Moments {
    /// The clock may return this moment, and is in this state after it.
    ghost Gives: { Self → ℕ → Self → Type 0 };

    /// The moment, in milliseconds since 1970.
    fn moment(&mut self) -> u64
        ensures { Gives self.old result self.new };
}

/// The side that opens data connections and runs transfers, with a store's sources `R` and its sinks `K`. It begins a
/// connection or a transfer at once, and reports the result later: a session looks after each line that it takes,
/// before it takes a held line, and before each read.
///
/// `Asks` is the effect of one call with its answer. Each side defines its own, so the proofs about the calls apply to
/// every side. A side should report the end of each transfer once, aborted or not.
pub trait DataSide<A: Allocator, R, K> {
    /// The effect of one call with its answer.
    ghost Asks: { Self → SideCall A R K → Self → Type 0 };

    /// Drops a prepared data connection, and opens a passive port if one is free (RFC 959, section 4.1.2). The next
    /// look reports it.
    fn open_passive(&mut self)
        ensures { Asks self.old Opens self.new };

    /// Drops a prepared data connection; the next transfer connects to this address (RFC 959, section 4.1.2).
    fn connect_to(&mut self, to: HostPort)
        ensures { Asks self.old (Connects to) self.new };

    /// Drops a prepared data connection.
    fn drop_data(&mut self)
        ensures { Asks self.old Drops self.new };

    /// Begins a transfer, and takes the job out. A later look reports its end.
    fn start(&mut self, job: &mut Option<Job<A, R, K>>)
        ensures { IfSome job.old (λ job. Asks self.old (Starts job) self.new) };

    /// Aborts the running transfer. Its end is reported all the same.
    fn abort(&mut self)
        ensures { Asks self.old Aborts self.new };

    /// Returns the next event: `DataReady`, `TransferEnded`, or None. It does not wait. Any other input counts as None.
    fn look(&mut self) -> Option<Input<A, K>>
        ensures { Asks self.old (Looks (came_of result)) self.new };

    /// Waits for the end of a running transfer, and returns it; None if no transfer runs.
    fn settle(&mut self) -> Option<Input<A, K>>
        ensures { Asks self.old (Settles (came_of result)) self.new };
}
