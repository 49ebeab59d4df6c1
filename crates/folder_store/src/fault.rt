//! Refusals by the machine.

ghost use Rattle.std.specs.Prelude.{◌≡◌, ◌≢◌};
ghost use Rattle.folder_store.specs.Refusals.{store_fault};

use std::alloc::AllocError;
use std::io;
use virtual_tree::StoreFault;

/// The reason for which a call on files of the machine is refused. There is no fault for capacity: a full disk is a
/// fault of the device.
#[derive(Clone, Copy, Debug)]
pub enum MachineFault {
    /// There is no such entry, or a directory above it is missing.
    NotFound,
    /// A file is where a directory is needed.
    NotDir,
    /// A directory is where a file is needed.
    IsDir,
    /// There is an entry already.
    Exists,
    /// The directory has entries.
    NotEmpty,
    /// A directory cannot be moved into itself.
    Inside,
    /// The file is shorter than the offset.
    PastEnd,
    /// The machine failed or refused, with this error.
    Device(io::Error),
    /// Memory ran out.
    Memory,
}

impl MachineFault {
    /// The store's fault for it.
    pub fn in_store(self) -> StoreFault
        ensures fault { result ≡ store_fault self }
        ensures full { result ≢ StoreFault.Full }
    {
        match self {
            MachineFault::NotFound => StoreFault::NotFound,
            MachineFault::NotDir => StoreFault::NotDir,
            MachineFault::IsDir => StoreFault::IsDir,
            MachineFault::Exists => StoreFault::Exists,
            MachineFault::NotEmpty => StoreFault::NotEmpty,
            MachineFault::Inside => StoreFault::Inside,
            MachineFault::PastEnd => StoreFault::PastEnd,
            MachineFault::Device(_) => StoreFault::Device,
            MachineFault::Memory => StoreFault::Memory,
        }
    }
}

impl From<AllocError> for MachineFault {
    ghost use Rattle.std.specs.Prelude.{◌≡◌};
    ghost use Rattle.folder_store.specs.declared.fault.MachineFault.TheVariants.{Memory};

    ghost from_gives = { λ _ fault. fault ≡ Memory };

    fn from(_: AllocError) -> MachineFault {
        MachineFault::Memory
    }
}
