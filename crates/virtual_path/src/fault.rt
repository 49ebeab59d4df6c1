//! Faults of paths.

use std::alloc::AllocError;
use thiserror::Error;

/// The reason for which a text is not a path. Reasons are checked in this order.
#[derive(Clone, Copy, Debug, PartialEq, Eq, Error)]
pub enum PathFault {
    /// A name contains an octet below 32, or 127; or the text for `child` is not one name.
    #[error("a name contains a control octet or is not a single name")]
    BadName,
    /// A name has more than 255 octets, or the path's text more than 4,096.
    #[error("a name or the path is too long")]
    TooLong,
    #[error("out of memory")]
    Memory,
}

impl From<AllocError> for PathFault {
    ghost use Rattle.std.specs.Prelude.{◌≡◌};
    ghost use Rattle.virtual_path.specs.declared.fault.PathFault.TheVariants.{Memory};

    ghost from_gives = { λ _ fault. fault ≡ Memory };

    fn from(_error: AllocError) -> PathFault {
        PathFault::Memory
    }
}
