//! Refusals.

use std::alloc::AllocError;
use thiserror::Error;

/// The reason for which a pool of ports cannot be made. The reasons are checked in this order.
#[derive(Clone, Copy, Debug, PartialEq, Eq, Error)]
pub enum PoolFault {
    /// The first port is above the last, or 0.
    #[error("a range without a port")]
    EmptyRange,
    #[error("out of memory")]
    Memory,
}

impl From<AllocError> for PoolFault {
    ghost use Rattle.std.specs.Prelude.{◌≡◌};
    ghost use Rattle.passive_ports.specs.declared.fault.PoolFault.TheVariants.{Memory};

    ghost from_gives = { λ _ fault. fault ≡ Memory };

    fn from(_error: AllocError) -> PoolFault {
        PoolFault::Memory
    }
}

/// The reason for which a connection is not admitted. The reasons are checked in this order.
#[derive(Clone, Copy, Debug, PartialEq, Eq, Error)]
pub enum AdmitFault {
    #[error("too many connections")]
    TooMany,
    #[error("too many connections of one address")]
    TooManyOfAddress,
    #[error("out of memory")]
    Memory,
}

impl From<AllocError> for AdmitFault {
    ghost use Rattle.std.specs.Prelude.{◌≡◌};
    ghost use Rattle.passive_ports.specs.declared.fault.AdmitFault.TheVariants.{Memory};

    ghost from_gives = { λ _ fault. fault ≡ Memory };

    fn from(_error: AllocError) -> AdmitFault {
        AdmitFault::Memory
    }
}

/// The reason for which limits to connections are not set. The reasons are checked in this order.
#[derive(Clone, Copy, Debug, PartialEq, Eq, Error)]
pub enum LimitFault {
    /// So many connections are there, which are more than would be permitted.
    #[error("{0} clients are connected")]
    TooMany(usize),
    /// So many connections of this address are there, which are more than would be permitted.
    #[error("{1} clients of one address are connected")]
    TooManyOfAddress([u8; 4], usize),
}
