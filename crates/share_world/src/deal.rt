//! Operations on all lanes: their asks, and the amounts decided for them.

ghost use Rattle.std.specs.Prelude.{◌≡◌, ◌≤◌, ◌↔◌, length, All, IsTrue, IfOk};
ghost use Rattle.grant_ledger.specs.declared.ledger.TheConstants.{MAX_LANES};
ghost use Rattle.world_terms.specs.Decisions.{AllPosted, has_large_want, in_round};
ghost use Rattle.world_terms.specs.Lanes.{new_lane};
ghost use Rattle.share_world.specs.Shares.{AreOpen, dealt};
ghost use Rattle.share_world.specs.Performed.{HasAsk};
ghost use Rattle.std.specs.Prelude.{replicate};

use crate::lane::Lane;
use limit_tree::MAX_WANT;
use line_rates::Ask;
use std::alloc::{AllocError, Allocator};

/// New lanes: no worker has them, and they have had no ask.
pub(crate) fn new_lanes<A: Allocator + Clone>(
    alloc: A,
    lanes: usize,
) -> Result<Vec<Lane<A>, A>, AllocError>
    ensures new { IfOk result (λ made. made.items ≡ replicate lanes new_lane) }
{
    let mut made = Vec::with_capacity(alloc.clone()?, lanes)?;
    for i in 0..lanes {
        made.push(Lane::new(alloc.clone()?)?)?;
    }
    Ok(made)
}

/// Returns whether all decided amounts are posted.
pub(crate) fn all_posted<A: Allocator>(lanes: &[Lane<A>]) -> bool
    ensures posted { IsTrue result ↔ AllPosted lanes.now }
{
    for lane in lanes {
        if !lane.is_posted() {
            return false;
        }
    }
    true
}

/// Returns whether the ask of a lane in Round wants more than a leaf may.
pub(crate) fn has_large_want<A: Allocator>(lanes: &[Lane<A>]) -> bool
    ensures large { result ≡ has_large_want lanes.now }
{
    for lane in lanes {
        if let Some(ask) = lane.due() {
            if ask.want > MAX_WANT {
                return true;
            }
        }
    }
    false
}

/// The asks of the lanes in Round, each with its lane.
pub(crate) fn asks_in_round<A: Allocator>(
    alloc: A,
    lanes: &[Lane<A>],
) -> Result<Vec<(u8, Ask), A>, AllocError>
    requires few { length lanes.now ≤ MAX_LANES }
    ensures asks { IfOk result (λ asks. asks.items ≡ in_round lanes.now) }
    ensures asked { IfOk result (λ _. All HasAsk lanes.now) }
{
    let mut asks = Vec::new(alloc);
    for number in 0..lanes.len() {
        if let Some(ask) = lanes[number].due() {
            asks.push((number as u8, ask))?;
        }
    }
    Ok(asks)
}

/// Decides an amount for each of these lanes, in octets.
pub(crate) fn deal<A: Allocator>(lanes: &mut Vec<Lane<A>, A>, numbers: &[u8], amounts: &[u64])
    requires each { length numbers.now ≡ length amounts.now }
    requires due { AreOpen numbers.now lanes.old.items }
    ensures dealt { lanes.new.items ≡ dealt numbers.now amounts.now lanes.old.items }
{
    for i in 0..numbers.len() {
        lanes[numbers[i] as usize].give(amounts[i]);
    }
}
