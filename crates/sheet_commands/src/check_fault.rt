//! The reasons for which grants are not checked.

use crate::grants_fault::GrantsFault;
use sheet_text::SheetFault;
use std::alloc::AllocError;
use text_io::TextFault;
use thiserror::Error;

/// The reason for which grants are not checked. It prints as its name, after the number of a faulty line.
#[derive(Debug, Clone, Copy, PartialEq, Eq, Error)]
pub enum CheckFault {
    /// The file of the sheet could not be read whole.
    #[error("{0}")]
    SheetText(TextFault),
    /// The sheet is refused. Lack of memory for it is `Text(Memory)`.
    #[error("{0}")]
    Sheet(SheetFault),
    /// The grants file could not be read whole.
    #[error("{0}")]
    GrantsText(TextFault),
    /// The grants file is refused. Lack of memory for it is `Text(Memory)`.
    #[error("{0}")]
    Grants(GrantsFault),
    /// The output could not be written, or memory ran out.
    #[error("{0}")]
    Text(TextFault),
}

impl From<AllocError> for CheckFault {
    ghost use Rattle.std.specs.Prelude.{◌≡◌};
    ghost use Rattle.text_io.specs.declared.fault.TextFault.TheVariants.{Memory};
    ghost use Rattle.sheet_commands.specs.declared.check_fault.CheckFault.TheVariants.{Text};

    ghost from_gives = { λ e fault. fault ≡ Text Memory };

    fn from(_error: AllocError) -> CheckFault {
        CheckFault::Text(TextFault::Memory)
    }
}

impl From<TextFault> for CheckFault {
    ghost use Rattle.std.specs.Prelude.{◌≡◌};
    ghost use Rattle.sheet_commands.specs.declared.check_fault.CheckFault.TheVariants.{Text};

    ghost from_gives = { λ e fault. fault ≡ Text e };

    fn from(fault: TextFault) -> CheckFault {
        CheckFault::Text(fault)
    }
}

impl From<SheetFault> for CheckFault {
    ghost use Rattle.std.specs.Prelude.{◌≡◌};
    ghost use Rattle.sheet_commands.specs.CheckFaults.{of_sheet};

    ghost from_gives = { λ e fault. fault ≡ of_sheet e };

    fn from(fault: SheetFault) -> CheckFault {
        match fault {
            SheetFault::Memory => CheckFault::Text(TextFault::Memory),
            _ => CheckFault::Sheet(fault),
        }
    }
}

impl From<GrantsFault> for CheckFault {
    ghost use Rattle.std.specs.Prelude.{◌≡◌};
    ghost use Rattle.sheet_commands.specs.CheckFaults.{of_grants};

    ghost from_gives = { λ e fault. fault ≡ of_grants e };

    fn from(fault: GrantsFault) -> CheckFault {
        match fault {
            GrantsFault::Memory => CheckFault::Text(TextFault::Memory),
            _ => CheckFault::Grants(fault),
        }
    }
}
