//! Transfers of one user that get the same, as one part.

ghost use Rattle.std.specs.Prelude.{◌≡◌};
ghost use Rattle.plan_report.specs.PlanData.{total};

use line_rates::{Name, Way};
use rate_plan::TransferShare;
use std::alloc::{AllocError, Global};

/// Transfers of a user one way that get the same and are held back by the same limit.
#[derive(Clone, Copy)]
pub struct Part {
    pub user: u32,
    pub way: Way,
    /// Number of the transfers.
    pub count: usize,
    /// Guarantee of each, in octets a second.
    pub floor: u64,
    /// Share of each, in octets a second.
    pub grant: u64,
    /// The limit that holds each back; of a session the first one's. None if each has all that it wants.
    pub held: Option<Name>,
}

fn is_alike(one: Option<Name>, other: Option<Name>) -> bool {
    match (one, other) {
        (Some(Name::Session(_, _, _)), Some(Name::Session(_, _, _))) => true,
        _ => one == other,
    }
}

fn is_of(part: Part, share: &TransferShare) -> bool {
    part.user == share.ask.user
        && part.way == share.ask.way
        && part.floor == share.floor
        && part.grant == share.grant
        && is_alike(part.held, share.held)
}

fn part_of(share: &TransferShare) -> Part {
    Part {
        user: share.ask.user,
        way: share.ask.way,
        count: 1,
        floor: share.floor,
        grant: share.grant,
        held: share.held,
    }
}

// The last part with one transfer more, if the share is of that part; otherwise a part of its own.
fn add(parts: &mut Vec<Part>, share: &TransferShare) -> Result<(), AllocError> {
    match parts.last().copied() {
        Some(part) if is_of(part, share) => {
            let _last = parts.pop();
            let count = part.count.saturating_add(1);
            parts.push(Part { count, ..part })?;
        }
        _ => parts.push(part_of(share))?,
    }
    Ok(())
}

/// The parts of shares, in their order.
pub(crate) fn parts_of(alloc: Global, shares: &[TransferShare]) -> Result<Vec<Part>, AllocError> {
    let mut parts = Vec::new(alloc);
    for share in shares {
        add(&mut parts, share)?;
    }
    Ok(parts)
}

/// The sum of what shares of one way get, in octets a second.
pub(crate) fn total_of(shares: &[TransferShare], way: Way) -> u64
    ensures total { result ≡ total way shares.now }
{
    let mut total: u64 = 0;
    for share in shares {
        if share.ask.way == way {
            total = total.saturating_add(share.grant);
        }
    }
    total
}
