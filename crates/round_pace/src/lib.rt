//! The pace of rounds: the moment and the limits that each round is handed.
//!
//! Rounds may be held at any time. A [`Pace`] counts real ticks, 500 in a second. As a tick begins, each rate earns its
//! share; a round is offered what its rates have earned and no round has granted, and its grants are subtracted from
//! that. So the rounds of any second of the clock grant at most the rate, however many and however late they are.
//!
//! ```text
//! let alloc = rt.alloc();
//! // 1,000 octets a second
//! let limits = Limits::of(1_000, 0, 0, Vec::new(alloc), Vec::new(alloc))?;
//! let mut pace = Pace::of(alloc, limits, 0)?;
//! assert!(rt; pace.offer(0) == 1_000); // the moment of the first round
//! assert!(rt; pace.limits().rate(Name::Server) == 21); // which lets 2 octets through then
//! pace.took(Way::Down, 7, 2, 2); // granted to user 7
//! assert!(rt; pace.due(1_999) == Due::At(2_000)); // when the next tick begins
//! ```
#![tactic(auto)]

mod changed;
mod credit;
mod due;
mod laws;
mod pace;
mod paced;
mod quiet;
mod rows;

pub use credit::{Credit, MOST_OFFERED, TICK_MICROS, TICKS};
pub use due::Due;
pub use laws::{
    credits_are_offered, floors_fit_what_is_offered, guarantees_are_kept, guarantees_are_offered,
    histories_keep_rates, nothing_is_lost, rates_are_kept, rates_are_reached, rows_are_handed_in,
    stretches_keep_rates,
};
pub use pace::Pace;
pub use paced::{GroupPace, UserPace};
pub use rows::TransferRows;
