//! Transfers, and their asks.

ghost use Rattle.std.specs.Prelude.{◌≡◌, ◌≤◌, ◌<◌, IfOk, Some, count_by, length, map, slice_get};
ghost use Rattle.std.specs.List.{All};
ghost use Rattle.rate_plan.specs.Asked.{AreAsked, is_same_user, want_by};

use limit_tree::MAX_WANT;
use line_rates::{Ask, ShareBy, Way};
use std::alloc::{AllocError, Allocator};

/// A transfer of a user that wants all it can get, in a session of its own.
#[derive(Clone, Copy, Debug, PartialEq, Eq)]
pub struct Transfer {
    /// The number of the user.
    pub user: u32,
    /// The direction.
    pub way: Way,
}

fn is_same_user(one: Transfer, other: Transfer) -> bool
    ensures same { result ≡ is_same_user one other }
{
    one.way == other.way && one.user == other.user
}

// The number of transfers of a user in one way.
fn count_of(transfers: &[Transfer], transfer: Transfer) -> u64
    requires few { length transfers.now ≤ 256 }
    ensures count { result ≡ count_by (is_same_user transfer) transfers.now }
{
    let mut count = 0;
    for other in transfers {
        if is_same_user(transfer, *other) {
            count += 1;
        }
    }
    count
}

// The want of a transfer, of a line that is shared among these.
fn want_of(share_by: ShareBy, transfers: &[Transfer], transfer: Transfer) -> u64
    requires few { length transfers.now ≤ 256 }
    ensures want { result ≡ want_by share_by transfers.now transfer }
{
    match share_by {
        ShareBy::Sessions => MAX_WANT,
        ShareBy::Users => MAX_WANT / count_of(transfers, transfer).max(1),
    }
}

/// The asks of transfers, in their order. The place of each is its lane, and the number of its session.
pub(crate) fn asks_of<A: Allocator>(
    alloc: A,
    share_by: ShareBy,
    transfers: &[Transfer],
) -> Result<Vec<(u8, Ask), A>, AllocError>
    requires few { length transfers.now ≤ 256 }
    ensures asked { IfOk result (λ asks. AreAsked share_by transfers.now asks.items) }
{
    let mut asks = Vec::with_capacity(alloc, transfers.len())?;
    for place in 0..transfers.len() {
        let Transfer { user, way } = transfers[place];
        let ask = Ask {
            user,
            session: place as u32,
            way,
            want: want_of(share_by, transfers, transfers[place]),
        };
        asks.push((place as u8, ask))?;
    }
    Ok(asks)
}

fn ask_in(asks: &[(u8, Ask)], lane: u8) -> (u8, Ask)
    requires lane { lane < length asks.now }
    ensures ask { slice_get asks.now lane ≡ Some result }
{
    asks[lane as usize]
}

/// The asks of lanes, in the order of the lanes.
pub(crate) fn in_order<A: Allocator>(
    alloc: A,
    asks: &[(u8, Ask)],
    lanes: &[u8],
) -> Result<Vec<(u8, Ask), A>, AllocError>
    requires lanes { All (λ lane. lane < length asks.now) lanes.now }
    ensures order { IfOk result
        (λ order. map (λ lane. slice_get asks.now lane) lanes.now
        ≡ map (λ ask. Some ask) order.items) }
{
    let mut order = Vec::with_capacity(alloc, lanes.len())?;
    for lane in lanes {
        order.push(ask_in(asks, *lane))?;
    }
    Ok(order)
}
