//! Refused changes to the users.

use std::alloc::AllocError;
use thiserror::Error;

/// The reason for which a call is refused. Reasons are checked in this order, each if it applies.
#[derive(Clone, Copy, Debug, PartialEq, Eq, Error)]
pub enum AuthorizerFault {
    #[error("there is a user of that name")]
    UserExists,
    #[error("there is no user of that name")]
    NoSuchUser,
    /// The letters contain anything but `elradfmw`.
    #[error("no such permission letter")]
    BadLetter,
    /// A home, or the path of an override, is not a path.
    #[error("not a path")]
    BadPath,
    #[error("out of memory")]
    Memory,
    /// All 2^32 numbers of users have been used.
    #[error("no number is left for a user")]
    NoNumber,
}

impl From<AllocError> for AuthorizerFault {
    ghost use Rattle.std.specs.Prelude.{◌≡◌};
    ghost use Rattle.authorizer.specs.declared.fault.AuthorizerFault.TheVariants.{Memory};

    ghost from_gives = { λ _ fault. fault ≡ Memory };

    fn from(_error: AllocError) -> AuthorizerFault {
        AuthorizerFault::Memory
    }
}
