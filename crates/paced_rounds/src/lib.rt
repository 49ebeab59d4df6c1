//! Rounds of a desk at a pace, with the history of what they granted.
//!
//! [`PacedRounds`] are the rounds of a desk with their pace, and a history that only proofs read. [`PacedRounds::hold`]
//! has the pace offer a moment and limits, holds the round of the given lanes, and subtracts each grant from exactly the
//! rows of the ask that it answers. Which lanes are given is a choice: those whose rows are open
//! ([`PacedRounds::is_open`]) send whole segments, and no promise depends on it. So for whoever has them, whatever was
//! done with them before: in each second of the clock the rounds granted under each name with a rate at most that rate
//! ([`PacedRounds::rates_are_kept`]), and the octets granted are those that the book issued. [`PacedRounds::change`] puts
//! other rates in force between two rounds; in a second with such a change it is the greatest of the rates, and an octet. [`HeldNames`] has the name of
//! the limit that held back each leaf of the last round.
#![tactic(auto)]

mod account;
mod beats;
mod charge;
mod held;
mod lanes;
mod laws;
mod rounds;
mod turns;

pub use account::{RoundsAccount, SettledRounds, Settlement};
pub use held::HeldNames;
pub use laws::{sessions_and_users_are_peers, spans_are_kept, turns_are_even};
pub use rounds::{MOST_ASKED, PacedRounds};
