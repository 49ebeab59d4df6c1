//! The share of an ask.

use line_rates::{Ask, Name};

/// The share of an ask in a tick, in the units of its rates.
#[derive(Clone, Copy, Debug, PartialEq, Eq)]
pub struct AskShare {
    /// The place of the ask among those that were shared, from 0.
    pub place: u8,
    /// The ask.
    pub ask: Ask,
    /// The guarantee of its session in the tick, at most its want.
    pub floor: u64,
    /// The units that it gets: at least its floor, and at most its want.
    pub grant: u64,
    /// The limit that holds it back, if it gets less than it wants.
    pub held: Option<Name>,
}
