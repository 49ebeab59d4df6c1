//! Pumps between the files of a store and data connections. They move no octet without a grant.
//!
//! A [`DataOut`] is a download: a source, its connection, and the waiting wire octets. A [`DataIn`] is an upload. Each
//! pump takes a grant, moves at most that many octets, and spends it. Text is converted on the way ([`Wire`]).
//!
//! ```text
//! let connection: Vec<u8> = Vec::new(rt.alloc());
//! let mut out = DataOut::open(rt.alloc(), source, connection, DataType::Ascii)?; // reads once
//! let pumped = pump_out(funds.grant(3), &mut out, &mut funds.tally); // at most 3 octets
//! holds(rt, pumped.moved == 3 && pumped.end == PumpEnd::More);
//! let rest = funds.grant(out.waiting() as u64); // of all that is left to move
//! let pumped = pump_out(rest, &mut out, &mut funds.tally);
//! holds(rt, pumped.end == PumpEnd::Ended && out.ended());
//! ```
#![tactic(auto)]

mod buffer;
mod counted;
mod download;
mod inflow;
mod laws;
mod outflow;
mod pumped;
mod runs;
mod upload;
mod wire;
mod writing;

pub use buffer::{LEAST_ROOM, MAX_WAITING};
pub use download::{DataOut, pump_out};
pub use inflow::MAX_READ;
pub use laws::{sent_text_is_received, wire_text_in_pieces};
pub use pumped::{FailedPart, OpenFault, PumpEnd, Pumped};
pub use upload::{DataIn, pump_in};
pub use wire::Wire;
