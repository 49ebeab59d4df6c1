//! The files.

ghost use Rattle.std.specs.Prelude.{IfOk, List, Option, ℕ, ⊤};
ghost use Rattle.page_store.specs.Pages.{page_of};

use std::alloc::{AllocError, AllocFailed, Global};

/// The reason for which files cannot be listed or made.
#[derive(Clone, Copy, Debug, PartialEq, Eq)]
pub enum PageFault {
    /// They cannot be had: a fault of the device.
    Broken,
    Memory,
}

impl<T: Drop> From<AllocFailed<T>> for PageFault {
    ghost use Rattle.std.specs.Prelude.{◌≡◌};
    ghost use Rattle.page_store.specs.declared.pages.PageFault.TheVariants.{Memory};

    ghost from_gives = { λ _ fault. fault ≡ Memory };

    fn from(_error: AllocFailed<T>) -> PageFault {
        PageFault::Memory
    }
}

impl From<AllocError> for PageFault {
    ghost use Rattle.std.specs.Prelude.{◌≡◌};
    ghost use Rattle.page_store.specs.declared.pages.PageFault.TheVariants.{Memory};

    ghost from_gives = { λ _ fault. fault ≡ Memory };

    fn from(_error: AllocError) -> PageFault {
        PageFault::Memory
    }
}

/// Files that are made when they are asked for, all of them in the root. A call may give another page than the one before.
pub trait Pages: Drop {
    /// Pages that may be shown for a name: the octets of its file, or none if there is none. A store shows no others;
    /// whoever states nothing may show any.
    ghost Shows: { List ℕ → Option (List ℕ) → Type 0 } = { λ name page. ⊤ };

    /// The names of the files, in any order. A text that is no name of a path is left out of listings, and so is one for
    /// which `page` then finds no file.
    fn names(&mut self, alloc: Global) -> Result<Vec<String>, PageFault>;

    /// The octets of the file of this name; `None` if there is none.
    fn page(&mut self, alloc: Global, name: &str) -> Result<Option<Vec<u8>>, PageFault>
        ensures shown { IfOk result (λ page. Shows name.now (page_of page)) };
}
