//! The plain allotment.

ghost use Rattle.std.specs.Prelude.{◌≡◌, ◌+◌, ◌<◌, ◌^◌, ◌↔◌, length, sum, IsTrue, IfSome, MatchOption, IfOk};
ghost use Rattle.limit_tree.specs.Sharing.{IsLimitTree, IsWanted, IsWithin, HasRoom};
ghost use Rattle.limit_tree.specs.Outline.{limits};
ghost use Rattle.round_allocator.specs.Rounds.{IsExhausted, HasBottlenecks};
ghost use Rattle.test_allotment.specs.Rule.{IsNext, IsRun, RunsEndAlike};
ghost use Rattle.test_allotment.specs.Turns.{IsBetter, IsBestBelow};

use limit_tree::Tree;
use std::alloc::{AllocError, Allocator};

// Returns whether the leaf may get one more octet.
fn has_room<A: Allocator>(tree: &Tree<A>, grants: &[u64], leaf: usize) -> bool
    requires grants { IsWanted (limits tree.now) grants.now }
    requires leaf { leaf < length grants.now }
    ensures room { IsTrue result ↔ HasRoom (limits tree.now) grants.now leaf }
{
    if grants[leaf] >= tree.want(leaf) {
        return false;
    }
    match tree.full_above(leaf, grants) {
        None => true,
        Some(_) => false,
    }
}

// The better of two leaves for the next octet: the best so far, if there is one, and a later leaf with room.
fn better(grants: &[u64], best: Option<usize>, leaf: usize) -> usize
    requires leaf { leaf < length grants.now }
    requires best { IfSome best (λ k. k < length grants.now) }
    ensures better { MatchOption best (result ≡ leaf) (λ k. IsBetter grants.now k leaf result) }
{
    match best {
        Some(best) => {
            if grants[leaf] < grants[best] {
                leaf
            } else {
                best
            }
        }
        None => leaf,
    }
}

// The best leaf for the next octet, after one more leaf.
fn next_below<A: Allocator>(
    tree: &Tree<A>,
    grants: &[u64],
    best: Option<usize>,
    leaf: usize,
) -> Option<usize>
    requires grants { IsWanted (limits tree.now) grants.now }
    requires leaf { leaf < length grants.now }
    requires best { IsBestBelow (limits tree.now) grants.now leaf best }
    ensures next { IsBestBelow (limits tree.now) grants.now (leaf + 1) result }
{
    if has_room(tree, grants, leaf) {
        Some(better(grants, best, leaf))
    } else {
        best
    }
}

// The leaf that gets the next octet.
fn next_leaf<A: Allocator>(tree: &Tree<A>, grants: &[u64]) -> Option<usize>
    requires grants { IsWanted (limits tree.now) grants.now }
    ensures next { MatchOption result (IsExhausted (limits tree.now) grants.now)
        (λ k. IsNext (limits tree.now) grants.now k) }
{
    let mut best: Option<usize> = None;
    for leaf in 0..grants.len() {
        best = next_below(tree, grants, best, leaf);
    }
    best
}

// The floors of all leaves.
fn floors<A: Allocator, B: Allocator>(alloc: B, tree: &Tree<A>) -> Result<Vec<u64, B>, AllocError>
    ensures floors { IfOk result (λ g. g.items ≡ (limits tree.now).floors) }
    ensures limit_tree { IsLimitTree (limits tree.now) }
    ensures octets { sum (limits tree.now).wants < 2 ^ 63 }
{
    let leaves = tree.leaves();
    let mut floors = Vec::with_capacity(alloc, leaves)?;
    for leaf in 0..leaves {
        floors.push(tree.floor(leaf))?;
    }
    Ok(floors)
}

/// The grants of the leaves of a tree, in octets, by the rule of sharing octet by octet: from the floors on, the next
/// octet goes to the leaf with the smallest grant among those with room, the lowest leaf number first, until no leaf
/// has room. One allocation. Returns `AllocError` only if memory runs out.
pub fn allot_plainly<A: Allocator, B: Allocator>(
    alloc: B,
    tree: &Tree<A>,
) -> Result<Vec<u64, B>, AllocError>
    ensures run { IfOk result (λ g. IsRun (limits tree.now) g.items) }
    ensures within { IfOk result (λ g. IsWithin (limits tree.now) g.items) }
    ensures bottlenecks { IfOk result (λ g. HasBottlenecks (limits tree.now) g.items) }
{
    let mut grants = floors(alloc, tree)?;
    while let Some(leaf) = next_leaf(tree, &grants) {
        grants[leaf] += 1;
    }
    Ok(grants)
}

/// Two complete runs of the rule end with the same grants.
pub fn runs_end_alike()
    ensures alike { RunsEndAlike }
{}
