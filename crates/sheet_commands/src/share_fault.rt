//! The reasons for which a sheet is not shared.

use depth_users::DepthFault;
use sheet_text::SheetFault;
use std::alloc::AllocError;
use text_io::TextFault;
use thiserror::Error;

/// The reason for which a sheet is not shared. It prints as its name, after the number of a faulty line.
#[derive(Debug, Clone, Copy, PartialEq, Eq, Error)]
pub enum ShareFault {
    /// The file of the sheet could not be read whole, the output could not be written, or memory ran out.
    #[error("{0}")]
    Text(TextFault),
    /// The sheet is refused. Lack of memory for it is `Text(Memory)`.
    #[error("{0}")]
    Sheet(SheetFault),
    /// No grants were found that are best among the users of a depth: a user can have more than a leaf may want, and
    /// limits above it hold it back. Lack of memory for them is `Text(Memory)`.
    #[error("UserTooLarge")]
    UserTooLarge,
}

impl From<AllocError> for ShareFault {
    ghost use Rattle.std.specs.Prelude.{◌≡◌};
    ghost use Rattle.text_io.specs.declared.fault.TextFault.TheVariants.{Memory};
    ghost use Rattle.sheet_commands.specs.declared.share_fault.ShareFault.TheVariants.{Text};

    ghost from_gives = { λ e fault. fault ≡ Text Memory };

    fn from(_error: AllocError) -> ShareFault {
        ShareFault::Text(TextFault::Memory)
    }
}

impl From<TextFault> for ShareFault {
    ghost use Rattle.std.specs.Prelude.{◌≡◌};
    ghost use Rattle.sheet_commands.specs.declared.share_fault.ShareFault.TheVariants.{Text};

    ghost from_gives = { λ e fault. fault ≡ Text e };

    fn from(fault: TextFault) -> ShareFault {
        ShareFault::Text(fault)
    }
}

impl From<SheetFault> for ShareFault {
    ghost use Rattle.std.specs.Prelude.{◌≡◌};
    ghost use Rattle.sheet_commands.specs.ShareFaults.{of_sheet};

    ghost from_gives = { λ e fault. fault ≡ of_sheet e };

    fn from(fault: SheetFault) -> ShareFault {
        match fault {
            SheetFault::Memory => ShareFault::Text(TextFault::Memory),
            _ => ShareFault::Sheet(fault),
        }
    }
}

impl From<DepthFault> for ShareFault {
    ghost use Rattle.std.specs.Prelude.{◌≡◌};
    ghost use Rattle.sheet_commands.specs.ShareFaults.{of_depth};

    ghost from_gives = { λ e fault. fault ≡ of_depth e };

    fn from(fault: DepthFault) -> ShareFault {
        match fault {
            DepthFault::Memory => ShareFault::Text(TextFault::Memory),
            DepthFault::UserTooLarge => ShareFault::UserTooLarge,
        }
    }
}
