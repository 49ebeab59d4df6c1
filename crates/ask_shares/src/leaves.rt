//! The shares of the leaves of the tree of a tick.

ghost use Rattle.std.specs.Prelude.{◌≡◌, ◌<◌, IfErr, IfOk, length};
ghost use Rattle.limit_tree.specs.Outline.{limits as seen};
ghost use Rattle.limit_tree.specs.Sharing.{IsWanted};
ghost use Rattle.fair_terms.specs.Fair.{IsBackedFair};
ghost use Rattle.ask_shares.specs.Faults.{IsUnshared};
ghost use Rattle.line_rates.specs.TickTree.{IsTickTree};
ghost use Rattle.ask_shares.specs.Leaves.{AreBestLeaves, AreLeafShares, IsLeafShare};

use crate::fault::NotShared;
use crate::share::AskShare;
use fair_shares::share_tree;
use grant_certificate::Sealed;
use limit_tree::Tree;
use line_rates::{Ask, Limits};
use round_tally::held_by;
use std::alloc::{AllocError, Allocator};

// The share of a leaf.
fn leaf_share<L: Allocator, P: Allocator>(
    limits: &Limits<L>,
    tick: u64,
    asks: &[Ask],
    lanes: &[u8],
    sealed: &Sealed<P>,
    leaf: usize,
) -> AskShare
    requires tree { IsTickTree limits.now tick asks.now (seen sealed.now.tree) }
    requires lanes { length lanes.now ≡ length asks.now }
    requires grants { IsWanted (seen sealed.now.tree) sealed.now.grants }
    requires backed { IsBackedFair limits.now.share_by asks.now (seen sealed.now.tree)
        sealed.now.grants sealed.now.certificate }
    requires leaf { leaf < length asks.now }
    ensures share { IsLeafShare limits.now tick asks.now lanes.now
        (seen sealed.now.tree) sealed.now.grants leaf result }
{
    let ask = asks[leaf];
    let tree = sealed.tree();
    let grants = sealed.grants();
    let entries = sealed.certificate().entries();
    AskShare {
        place: lanes[leaf],
        ask,
        floor: limits.floor(ask),
        grant: grants[leaf],
        held: held_by(limits, tick, asks, tree, grants, entries, leaf),
    }
}

// The shares of all leaves, in their order.
fn leaf_shares<L: Allocator, P: Allocator, A: Allocator>(
    alloc: A,
    limits: &Limits<L>,
    tick: u64,
    asks: &[Ask],
    lanes: &[u8],
    sealed: &Sealed<P>,
) -> Result<Vec<AskShare, A>, AllocError>
    requires tree { IsTickTree limits.now tick asks.now (seen sealed.now.tree) }
    requires lanes { length lanes.now ≡ length asks.now }
    requires grants { IsWanted (seen sealed.now.tree) sealed.now.grants }
    requires backed { IsBackedFair limits.now.share_by asks.now (seen sealed.now.tree)
        sealed.now.grants sealed.now.certificate }
    ensures shares { IfOk result (λ shares. AreLeafShares limits.now tick asks.now
        lanes.now (seen sealed.now.tree) sealed.now.grants shares.items) }
{
    let mut shares = Vec::with_capacity(alloc, asks.len())?;
    for leaf in 0..asks.len() {
        shares.push(leaf_share(limits, tick, asks, lanes, sealed, leaf))?;
    }
    Ok(shares)
}

/// The shares of the leaves of a tree, in their order, by fair grants. `asks` and `lanes` are those of the leaves.
pub(crate) fn fair_leaves<L: Allocator, A: Allocator + Clone>(
    alloc: A,
    limits: &Limits<L>,
    tick: u64,
    asks: &[Ask],
    lanes: &[u8],
    tree: Tree<A>,
) -> Result<Vec<AskShare, A>, NotShared>
    requires tree { IsTickTree limits.now tick asks.now (seen tree) }
    requires lanes { length lanes.now ≡ length asks.now }
    ensures shares { IfOk result
        (λ shares. AreBestLeaves limits.now tick asks.now lanes.now (seen tree) shares.items) }
    ensures fault { IfErr result (IsUnshared limits.now.share_by asks.now) }
{
    let sealed = share_tree(alloc.clone()?, limits.share_by(), asks, tree)?;
    let shares = leaf_shares(alloc, limits, tick, asks, lanes, &sealed)?;
    Ok(shares)
}
