//! The reasons for which logs are not added up.

use std::alloc::AllocError;
use std::io;
use thiserror::Error;

/// The reason for which a log is not added up.
#[derive(Debug, Drop, Error)]
pub enum UsageFault {
    /// A sum, or a number of lines, is not below 2^64.
    #[error("a sum is not below 2^64")]
    TooMuch,
    /// A log could not be opened or read.
    #[error("{0}")]
    Read(io::Error),
    /// Memory ran out.
    #[error("memory ran out")]
    Memory,
}

impl From<AllocError> for UsageFault {
    ghost use Rattle.std.specs.Prelude.{◌≡◌};
    ghost use Rattle.usage_report.specs.declared.fault.UsageFault.TheVariants.{Memory};

    ghost from_gives = { λ e fault. fault ≡ Memory };

    fn from(_error: AllocError) -> UsageFault {
        UsageFault::Memory
    }
}
