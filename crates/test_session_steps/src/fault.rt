//! Faults that end the program before the end of its input.

use authorizer::AuthorizerFault;
use std::alloc::AllocError;
use std::io;
use thiserror::Error;
use virtual_path::PathFault;
use virtual_tree::StoreFault;

#[derive(Clone, Copy, Debug, Drop, Error)]
pub(crate) enum Fault {
    #[error("out of memory")]
    Memory,
    #[error("standard input or output failed")]
    Stream,
    #[error("a line with a colon names nothing that the program has")]
    Word,
    #[error("a client was lost")]
    Lost,
    #[error("the store, the users or a path refused what the program itself asks")]
    Refused,
}

impl From<AllocError> for Fault {
    fn from(_fault: AllocError) -> Fault {
        Fault::Memory
    }
}

impl From<io::Error> for Fault {
    fn from(_fault: io::Error) -> Fault {
        Fault::Stream
    }
}

impl From<PathFault> for Fault {
    fn from(_fault: PathFault) -> Fault {
        Fault::Refused
    }
}

impl From<StoreFault> for Fault {
    fn from(_fault: StoreFault) -> Fault {
        Fault::Refused
    }
}

impl From<AuthorizerFault> for Fault {
    fn from(_fault: AuthorizerFault) -> Fault {
        Fault::Refused
    }
}
