//! Faults of stores.

use std::alloc::AllocError;
use thiserror::Error;

/// The reason for which a store refuses a call. Reasons are checked in this order, except that a rename of or to the
/// root is `Inside` at once; `Device` and `Memory` can come at any time.
#[derive(Clone, Copy, Debug, PartialEq, Eq, Error)]
pub enum StoreFault {
    /// There is no entry at the path, or no directory above it.
    #[error("not found")]
    NotFound,
    /// A file is where a directory is needed.
    #[error("not a directory")]
    NotDir,
    /// A directory is where a file is needed.
    #[error("a directory")]
    IsDir,
    /// There is an entry at the path already.
    #[error("already exists")]
    Exists,
    /// The directory has entries.
    #[error("not empty")]
    NotEmpty,
    /// The store's capacity would be exceeded.
    #[error("full")]
    Full,
    /// The device failed.
    #[error("device fault")]
    Device,
    #[error("out of memory")]
    Memory,
    /// An offset is above the file's length.
    #[error("past the end")]
    PastEnd,
    /// A rename of the root, to the root, or to a path beneath itself.
    #[error("inside itself")]
    Inside,
}

impl From<AllocError> for StoreFault {
    ghost use Rattle.std.specs.Prelude.{◌≡◌};
    ghost use Rattle.virtual_tree.specs.declared.fault.StoreFault.TheVariants.{Memory};

    ghost from_gives = { λ _ fault. fault ≡ Memory };

    fn from(_error: AllocError) -> StoreFault {
        StoreFault::Memory
    }
}
