//! The rows in which an administrator states rates, in octets per second.

ghost use Rattle.std.specs.Prelude.{◌≡◌, ◌⊎◌};
ghost use Rattle.line_rates.specs.Rates.{way_of};

use crate::ask::Way;

/// The rates of a group; 0 is no limit.
#[derive(Clone, Copy, Debug, PartialEq, Eq)]
pub struct GroupRate {
    /// The number of the group.
    pub group: u32,
    /// Limit to downloads of all its users together.
    pub down: u64,
    /// Limit to their uploads.
    pub up: u64,
}

/// The rates of a user and of each of their sessions; 0 is no limit, and a floor of 0 is no guarantee.
#[derive(Clone, Copy, Debug, PartialEq, Eq)]
pub struct UserRate {
    /// The number of the user.
    pub user: u32,
    /// The number of their group, if they are in one.
    pub group: Option<u32>,
    /// Limit to the user's downloads.
    pub down: u64,
    /// Limit to the user's uploads.
    pub up: u64,
    /// Limit to the downloads of each session.
    pub session_down: u64,
    /// Limit to the uploads of each session.
    pub session_up: u64,
    /// Guarantee to the downloads of each session.
    pub session_down_floor: u64,
    /// Guarantee to the uploads of each session.
    pub session_up_floor: u64,
}

/// The one of two rates that applies to a way.
pub(crate) fn either(down: u64, up: u64, way: Way) -> u64
    ensures either { result ≡ way_of down up way }
    ensures one { (result ≡ down) ⊎ (result ≡ up) }
{
    match way {
        Way::Down => down,
        Way::Up => up,
    }
}
