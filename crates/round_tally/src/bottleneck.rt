//! The name of the limit that holds back a leaf.

ghost use Rattle.std.specs.Prelude.{length, ◌<◌};
ghost use Rattle.limit_tree.specs.Outline.{limits as seen};
ghost use Rattle.limit_tree.specs.Sharing.{IsWanted};
ghost use Rattle.fair_terms.specs.Fair.{IsBackedFair};
ghost use Rattle.line_rates.specs.TickTree.{IsTickTree};
ghost use Rattle.round_tally.specs.Held.{IsHeldBy};

use crate::names::name_of;
use limit_tree::Tree;
use line_rates::{Ask, Limits, Name};
use std::alloc::Allocator;

/// The name of the limit that holds back a leaf of the tree of a tick, by fair grants with the entries of their
/// certificate: that of its bottleneck, or of its user's if the line is shared among users. None if the leaf is granted
/// all that it wants.
pub fn held_by<L: Allocator, A: Allocator>(
    limits: &Limits<L>,
    tick: u64,
    asks: &[Ask],
    tree: &Tree<A>,
    grants: &[u64],
    entries: &[Option<u32>],
    leaf: usize,
) -> Option<Name>
    requires tree { IsTickTree limits.now tick asks.now (seen tree.now) }
    requires grants { IsWanted (seen tree.now) grants.now }
    requires backed { IsBackedFair limits.now.share_by asks.now (seen tree.now) grants.now
        entries.now }
    requires leaf { leaf < length asks.now }
    ensures held { IsHeldBy limits.now tick asks.now (seen tree.now) grants.now leaf result }
{
    let ask = asks[leaf];
    if grants[leaf] >= ask.want {
        return None;
    }
    match entries[leaf] {
        Some(node) => Some(name_of(limits, tick, asks, tree, node as usize, ask)),
        None => unreachable!(),
    }
}
