//! The earliest moment of a round.

/// The earliest moment of a round.
#[derive(Clone, Copy, Debug, PartialEq, Eq)]
pub enum Due {
    /// At once.
    Now,
    /// Not before this moment, in microseconds.
    At(u64),
}
