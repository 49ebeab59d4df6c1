//! Tests whether sums of guarantees fit.

ghost use Rattle.std.specs.Prelude.{◌≡◌, ◌+◌, ◌*◌, ◌<◌, ◌≤◌, ◌^◌};
ghost use Rattle.rate_floors.specs.Promises.{keeps, keeps_one_more, session_fits, user_fits};

use crate::find::GroupPromise;
use line_rates::UserRate;

/// The largest sum of guarantees, in octets per second, and the largest number of counted sessions of a user.
pub const MAX_PROMISED: u64 = 4_611_686_018_427_387_904;

/// Returns whether a sum is within a rate; a rate of 0 is no limit.
pub(crate) fn keeps(sum: u64, rate: u64) -> bool
    ensures keeps { result ≡ keeps sum rate }
{
    rate == 0 || sum <= rate
}

/// Returns whether the guarantees of a session of a user are within the rates of a session.
pub(crate) fn session_fits(row: UserRate) -> bool
    ensures fits { result ≡ session_fits row }
{
    keeps(row.session_down_floor, row.session_down) && keeps(row.session_up_floor, row.session_up)
}

/// Returns whether the guarantees of `sessions` sessions of a user are within the rates of the user.
pub(crate) fn user_fits(row: UserRate, sessions: u64) -> bool
    requires down { sessions * row.session_down_floor ≤ MAX_PROMISED }
    requires up { sessions * row.session_up_floor ≤ MAX_PROMISED }
    ensures fits { result ≡ user_fits row sessions }
{
    keeps(sessions * row.session_down_floor, row.down)
        && keeps(sessions * row.session_up_floor, row.up)
}

/// Returns whether the guarantees in a group, with one more session of a user, are within the rates of the group.
pub(crate) fn group_keeps(group: GroupPromise, row: UserRate) -> bool
    requires down { group.down + row.session_down_floor < 2 ^ 64 }
    requires up { group.up + row.session_up_floor < 2 ^ 64 }
    ensures fits { result ≡ keeps_one_more group row }
{
    keeps(group.down + row.session_down_floor, group.row.down)
        && keeps(group.up + row.session_up_floor, group.row.up)
}
