//! Results of pumps.

ghost use Rattle.std.specs.Prelude.{◌≡◌};
ghost use Rattle.data_pump.specs.Counts.{failed_part};

use line_rates::Way;
use thiserror::Error;

/// The end of a pump.
#[derive(Clone, Copy, Debug, PartialEq, Eq)]
pub enum PumpEnd {
    /// The transfer is complete.
    Ended,
    /// There is more to move.
    More,
    /// The source, or the connection of an upload, could not be read.
    ReadFault,
    /// The connection, or the sink of an upload, could not be written.
    WriteFault,
    /// The store had no memory for its read or write.
    Memory,
}

/// A part of a transfer that may be at fault.
#[derive(Clone, Copy, Debug, PartialEq, Eq)]
pub enum FailedPart {
    /// The data connection.
    Connection,
    /// The source of a download.
    Source,
    /// The sink of an upload.
    Sink,
}

impl PumpEnd {
    /// The part that is at fault for this end, given the direction of the transfer.
    pub fn failed_part(self, way: Way) -> Option<FailedPart>
        ensures part { result ≡ failed_part way self }
    {
        match (self, way) {
            (PumpEnd::Ended | PumpEnd::More, _) => None,
            (PumpEnd::ReadFault, Way::Up) | (PumpEnd::WriteFault, Way::Down) => {
                Some(FailedPart::Connection)
            }
            (_, Way::Down) => Some(FailedPart::Source),
            (_, Way::Up) => Some(FailedPart::Sink),
        }
    }
}

/// Number of octets that the connection's calls reported, and the end of the pump.
#[derive(Clone, Copy, Debug, PartialEq, Eq)]
pub struct Pumped {
    pub moved: u64,
    pub end: PumpEnd,
}

/// The reason for which a transfer cannot begin.
#[derive(Clone, Copy, Debug, PartialEq, Eq, Error)]
pub enum OpenFault {
    /// The first read of the source failed.
    #[error("the first read of the source failed")]
    ReadFault,
    /// There was no memory for the buffer, or for the store's read.
    #[error("out of memory")]
    Memory,
}
