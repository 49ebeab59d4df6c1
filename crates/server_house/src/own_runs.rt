//! Transfers that a session runs itself.

/// Runs transfers on the thread that calls.
pub trait OwnRuns {
    /// Runs the download that waits on the ticket with this number, which is not on the board, to its end, if a seat is
    /// free, nobody holds a round, and each rate that the user's downloads are within has plenty left. Returns whether it was run; otherwise it waits for a lane.
    fn run_here(&self, number: u32, user: u32) -> bool;
}
