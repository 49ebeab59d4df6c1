//! The asks of the leaves of a plan.

ghost use Rattle.std.specs.Prelude.{◌≡◌, IfOk};
ghost use Rattle.fair_shares.specs.Asked.{ask_on, asks_on};

use line_rates::Ask;
use std::alloc::{AllocError, Allocator};

// The ask of a lane, if there is one.
fn ask_on(asks: &[(u8, Ask)], lane: u8) -> Option<Ask>
    ensures ask { result ≡ ask_on asks.now lane }
{
    for asker in asks {
        if asker.0 == lane {
            return Some(asker.1);
        }
    }
    None
}

/// The asks of lanes, in the order of the lanes.
pub(crate) fn asks_on<A: Allocator>(
    alloc: A,
    asks: &[(u8, Ask)],
    lanes: &[u8],
) -> Result<Vec<Ask, A>, AllocError>
    ensures asks { IfOk result (λ found. found.items ≡ asks_on asks.now lanes.now) }
{
    let mut found = Vec::with_capacity(alloc, lanes.len())?;
    for lane in lanes {
        match ask_on(asks, *lane) {
            Some(ask) => found.push(ask)?,
            None => {}
        }
    }
    Ok(found)
}
