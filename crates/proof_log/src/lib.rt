//! A log that only proofs read.
//!
//! A [`ProofLog`] has no octets, and its calls do nothing as a program runs. A type whose invariant speaks of everything
//! that was done with it has one as a field: each call appends a pair, such as a moment and a result, and clauses read
//! the pairs as `items`.
#![tactic(auto)]

mod log;

pub use log::ProofLog;
