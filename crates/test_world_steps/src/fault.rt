//! Faults that end the program before its input does.

use share_world::WorldFault;
use std::alloc::AllocError;
use std::io;
use thiserror::Error;

#[derive(Clone, Copy, Debug, Drop, Error)]
pub(crate) enum Fault {
    #[error("out of memory")]
    Memory,
    #[error("standard input or output failed")]
    Stream,
    #[error("a line names nothing that the program has")]
    Word,
    #[error("the rates or the number of lanes are refused")]
    Refused,
}

impl From<AllocError> for Fault {
    fn from(_fault: AllocError) -> Fault {
        Fault::Memory
    }
}

impl From<io::Error> for Fault {
    fn from(_fault: io::Error) -> Fault {
        Fault::Stream
    }
}

impl From<WorldFault> for Fault {
    fn from(_fault: WorldFault) -> Fault {
        Fault::Refused
    }
}
