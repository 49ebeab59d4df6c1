//! The shares of transfers in a second.

ghost use Rattle.std.specs.Prelude.{◌≡◌, ◌≤◌, ◌<◌, IfOk, length, map, slice_get, slice_index, slice_index_or, Some};
ghost use Rattle.limit_tree.specs.Outline.{limits as seen};
ghost use Rattle.limit_tree.specs.Sharing.{IsWanted};
ghost use Rattle.fair_terms.specs.Fair.{IsBackedFair};
ghost use Rattle.fair_terms.specs.Wants.{HasLargeUser};
ghost use Rattle.line_rates.specs.Names.{floor_of};
ghost use Rattle.line_rates.specs.TickTree.{IsTickTree, ask_in};
ghost use Rattle.rate_plan.specs.Shared.{AreGrantedShares, AreTickShares, IsShareOf};

use fair_shares::{FairFault, share_tree};
use limit_tree::Tree;
use line_rates::{Ask, Limits, Name};
use round_tally::held_by;
use std::alloc::{AllocError, Allocator};

/// The share of a transfer in a second, in octets.
#[derive(Clone, Copy, Debug, PartialEq, Eq)]
pub struct TransferShare {
    /// The place of the transfer among those that were asked for.
    pub lane: u8,
    /// Its ask.
    pub ask: Ask,
    /// The guarantee of its session.
    pub floor: u64,
    /// The octets that it gets.
    pub grant: u64,
    /// The limit that holds it back, if it gets less than it wants.
    pub held: Option<Name>,
}

// The asks of leaves, without their lanes.
fn asks_alone<A: Allocator>(alloc: A, order: &[(u8, Ask)]) -> Result<Vec<Ask, A>, AllocError>
    ensures asks { IfOk result (λ asks. asks.items ≡ map ask_in order.now) }
{
    let mut asks = Vec::with_capacity(alloc, order.len())?;
    for asker in order {
        asks.push(asker.1)?;
    }
    Ok(asks)
}

// The share of a leaf.
fn leaf_share<L: Allocator, A: Allocator>(
    limits: &Limits<L>,
    order: &[(u8, Ask)],
    asks: &[Ask],
    tree: &Tree<A>,
    grants: &[u64],
    entries: &[Option<u32>],
    leaf: usize,
) -> TransferShare
    requires asks { asks.now ≡ map ask_in order.now }
    requires tree { IsTickTree limits.now 0 asks.now (seen tree.now) }
    requires grants { IsWanted (seen tree.now) grants.now }
    requires backed { IsBackedFair limits.now.share_by asks.now (seen tree.now) grants.now
        entries.now }
    requires leaf { leaf < length order.now }
    ensures share { IsShareOf limits.now order.now (seen tree.now) grants.now leaf result }
{
    let (lane, ask) = order[leaf];
    TransferShare {
        lane,
        ask,
        floor: limits.floor(ask),
        grant: grants[leaf],
        held: held_by(limits, 0, asks, tree, grants, entries, leaf),
    }
}

// The shares of the leaves of a tree, in their order.
fn leaf_shares<L: Allocator, A: Allocator, B: Allocator>(
    alloc: B,
    limits: &Limits<L>,
    order: &[(u8, Ask)],
    asks: &[Ask],
    tree: &Tree<A>,
    grants: &[u64],
    entries: &[Option<u32>],
) -> Result<Vec<TransferShare, B>, AllocError>
    requires asks { asks.now ≡ map ask_in order.now }
    requires tree { IsTickTree limits.now 0 asks.now (seen tree.now) }
    requires grants { IsWanted (seen tree.now) grants.now }
    requires backed { IsBackedFair limits.now.share_by asks.now (seen tree.now) grants.now
        entries.now }
    ensures shares { IfOk result (λ shares. AreTickShares limits.now order.now (seen tree.now)
        grants.now shares.items) }
{
    let mut shares = Vec::with_capacity(alloc, order.len())?;
    for leaf in 0..order.len() {
        shares.push(leaf_share(limits, order, asks, tree, grants, entries, leaf))?;
    }
    Ok(shares)
}

/// The shares of the leaves of a tree, in their order, by fair grants. No user wants more than `MAX_WANT` octets in one
/// way, so only memory can lack.
pub(crate) fn granted_shares<L: Allocator, A: Allocator + Clone>(
    alloc: A,
    limits: &Limits<L>,
    order: &[(u8, Ask)],
    tree: Tree<A>,
) -> Result<Vec<TransferShare, A>, AllocError>
    requires tree { IsTickTree limits.now 0 (map ask_in order.now) (seen tree) }
    requires wants { HasLargeUser limits.now.share_by (map ask_in order.now) → ⊥ }
    ensures shares { IfOk result
        (λ shares. AreGrantedShares limits.now order.now (seen tree) shares.items) }
{
    let asks = asks_alone(alloc.clone()?, order)?;
    let sealed = match share_tree(alloc.clone()?, limits.share_by(), &asks, tree) {
        Ok(sealed) => sealed,
        Err(FairFault::Memory) => return Err(AllocError),
        Err(FairFault::Unshared) => unreachable!(),
    };
    let shares = leaf_shares(
        alloc,
        limits,
        order,
        &asks,
        sealed.tree(),
        sealed.grants(),
        sealed.certificate().entries(),
    )?;
    Ok(shares)
}
