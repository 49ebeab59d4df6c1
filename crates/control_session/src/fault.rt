//! Faults of a control session.

ghost use Rattle.std.specs.Prelude.{◌≡◌, ◌≢◌, IfErr, OnOk, None};
ghost use Rattle.control_session.specs.Sessions.{IsLostTo};

use crate::turn_fault::TurnFault;
use std::alloc::AllocError;
use thiserror::Error;

/// A fault of a control session. It prints as its name.
#[derive(Clone, Copy, Debug, PartialEq, Eq, Error)]
pub enum ControlFault {
    /// A read failed, or the number of reads reached its limit.
    #[error("ReadFault")]
    ReadFault,
    /// A reply could not be written.
    #[error("WriteFault")]
    WriteFault,
    /// Memory ran out.
    #[error("Memory")]
    Memory,
}

impl From<AllocError> for ControlFault {
    ghost use Rattle.std.specs.Prelude.{◌≡◌};
    ghost use Rattle.control_session.specs.declared.fault.ControlFault.TheVariants.{Memory};

    ghost from_gives = { λ _ fault. fault ≡ Memory };

    fn from(_error: AllocError) -> ControlFault {
        ControlFault::Memory
    }
}

impl From<TurnFault> for ControlFault {
    ghost use Rattle.std.specs.Prelude.{◌≡◌};
    ghost use Rattle.control_session.specs.Sessions.{fault_of};

    ghost from_gives = { λ turn fault. fault ≡ fault_of turn };

    fn from(fault: TurnFault) -> ControlFault {
        match fault {
            TurnFault::Write => ControlFault::WriteFault,
            TurnFault::Memory => ControlFault::Memory,
        }
    }
}

/// The fault of a session after a fault of a turn.
pub(crate) fn unless_lost(lost: Option<TurnFault>) -> Result<(), ControlFault>
    ensures whole { OnOk result (lost ≡ None) }
    ensures lost { IfErr result (IsLostTo lost) }
    ensures other { IfErr result (λ fault. fault ≢ ControlFault.ReadFault) }
{
    match lost {
        None => Ok(()),
        Some(fault) => Err(ControlFault::from(fault)),
    }
}
