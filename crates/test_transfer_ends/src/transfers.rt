//! Whole transfers: opened, pumped with one grant after another, and settled.

use crate::ends::{Inlet, Outlet};
use crate::funds::Funds;
use data_pump::{DataIn, DataOut, OpenFault, PumpEnd, Pumped, pump_in, pump_out};
use ftp_terms::DataType;
use grant_ledger::SettledNumbers;
use line_rates::{Ask, Way};
use std::alloc::Global;
use virtual_tree::{Sink, Source};

/// Returns whether pumps moved these amounts, and only the last of them returned an end other than `More`.
pub fn reported(found: &[Pumped], moved: &[u64], last: PumpEnd) -> bool {
    let mut same = found.len() == moved.len();
    let mut end = PumpEnd::More;
    for (pumped, count) in found.iter().zip(moved) {
        same &= pumped.moved == *count && end == PumpEnd::More;
        end = pumped.end;
    }
    same && end == last
}

/// The outcome of a transfer.
#[derive(Drop)]
pub struct Outcome {
    pub pumps: Vec<Pumped>,
    pub settled: SettledNumbers,
    /// True if each call beside the pumps returned the right result.
    pub is_sound: bool,
}

// Returns whether a download asks for the waiting octets, and returns the end of its last pump.
fn is_sound_out<S: Source>(out: &DataOut<S, Outlet<'_>>, last: PumpEnd) -> bool {
    let wanted = Ask {
        user: 7,
        session: 3,
        way: Way::Down,
        want: out.waiting() as u64,
    };
    let ended = out.last() != PumpEnd::Ended || out.ended();
    out.ask(7, 3) == wanted && out.last() == last && ended
}

/// Sends a source over a connection that follows a schedule, with these grants out of as many octets.
pub fn send<S: Source>(
    alloc: Global,
    source: S,
    connection: Outlet<'_>,
    data_type: DataType,
    grants: &[u64],
) -> Result<Outcome, OpenFault> {
    let Ok(mut funds) = Funds::new(alloc, grants) else {
        return Err(OpenFault::Memory);
    };
    match DataOut::open(alloc, source, connection, data_type) {
        Ok(mut out) => {
            let mut pumps = Vec::new(alloc);
            let mut is_sound = is_sound_out(&out, PumpEnd::More);
            for grant in grants {
                let pumped = pump_out(funds.grant(*grant), &mut out, &mut funds.tally);
                is_sound &= is_sound_out(&out, pumped.end) && pumps.push(pumped).is_ok();
            }
            Ok(Outcome {
                pumps,
                settled: funds.settle(),
                is_sound,
            })
        }
        Err(fault) => {
            funds.settle();
            Err(fault)
        }
    }
}

// Returns whether an upload asks for as much as one pump reads, and returns the end of its last pump.
fn is_sound_in<T: Sink>(upload: &DataIn<Inlet<'_>, T>, last: PumpEnd) -> bool {
    let wanted = Ask {
        user: 8,
        session: 4,
        way: Way::Up,
        want: 65_536,
    };
    upload.ask(8, 4) == wanted && upload.last() == last
}

/// Receives what a connection returns, with these grants out of as many octets, and returns the sink.
pub fn receive<T: Sink>(
    alloc: Global,
    connection: Inlet<'_>,
    sink: T,
    data_type: DataType,
    grants: &[u64],
) -> Result<(Outcome, T), OpenFault> {
    let Ok(mut funds) = Funds::new(alloc, grants) else {
        return Err(OpenFault::Memory);
    };
    match DataIn::open(alloc, connection, sink, data_type) {
        Ok(mut upload) => {
            let mut pumps = Vec::new(alloc);
            let mut is_sound = is_sound_in(&upload, PumpEnd::More);
            for grant in grants {
                let pumped = pump_in(funds.grant(*grant), &mut upload, &mut funds.tally);
                is_sound &= is_sound_in(&upload, pumped.end) && pumps.push(pumped).is_ok();
            }
            let reported = Outcome {
                pumps,
                settled: funds.settle(),
                is_sound,
            };
            Ok((reported, upload.into_sink()))
        }
        Err(fault) => {
            funds.settle();
            Err(fault)
        }
    }
}
