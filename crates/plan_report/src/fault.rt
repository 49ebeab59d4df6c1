//! The reasons for which there is no plan.

use server_config::ConfigFault;
use std::alloc::AllocError;
use std::fmt;

/// The reason for which there is no plan.
#[derive(Debug, Drop)]
pub enum NoPlan {
    /// The configuration is refused.
    Config(ConfigFault),
    /// The transfers are refused: the name of the fault, and what is wrong with them.
    Transfers {
        name: &'static str,
        reported: String,
    },
    /// Memory ran out.
    Memory,
}

impl From<AllocError> for NoPlan {
    ghost use Rattle.std.specs.Prelude.{◌≡◌};
    ghost use Rattle.plan_report.specs.declared.fault.NoPlan.TheVariants.{Memory};

    ghost from_gives = { λ e fault. fault ≡ Memory };

    fn from(_error: AllocError) -> NoPlan {
        NoPlan::Memory
    }
}
