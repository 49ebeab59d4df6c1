//! The reasons for which a text is not read or written.

use std::alloc::AllocError;
use thiserror::Error;

/// The reason for which a text was not read whole, or not written. It prints as its name.
#[derive(Debug, Clone, Copy, PartialEq, Eq, Error)]
pub enum TextFault {
    /// The file has more than 4,194,304 octets.
    #[error("TooLong")]
    TooLong,
    /// The file could not be opened or read.
    #[error("ReadFault")]
    ReadFault,
    /// The output could not be written; any part of the text may have gone out.
    #[error("WriteFault")]
    WriteFault,
    /// Memory ran out.
    #[error("Memory")]
    Memory,
}

impl From<AllocError> for TextFault {
    ghost use Rattle.std.specs.Prelude.{◌≡◌};
    ghost use Rattle.text_io.specs.declared.fault.TextFault.TheVariants.{Memory};

    ghost from_gives = { λ e fault. fault ≡ Memory };

    fn from(_error: AllocError) -> TextFault {
        TextFault::Memory
    }
}
