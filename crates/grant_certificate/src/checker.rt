//! The checker.

ghost use Rattle.limit_tree.specs.declared.bounds.TheConstants.{MAX_LEAVES};
ghost use Rattle.grant_certificate.specs.declared.checker.TheConstants.{FEW_LEAVES};
ghost use Rattle.std.specs.Prelude.{◌≡◌, ◌<◌, ◌≤◌, ◌^◌, ◌↔◌, ℕ, MatchOption, length, sum};
ghost use Rattle.limit_tree.specs.Sharing.{HasNestedBranches, IsWithin, IsBackedBy, IsBest};
ghost use Rattle.limit_tree.specs.Outline.{limits};
ghost use Rattle.grant_certificate.specs.Ranges.{IsHeld, AreHeld};
ghost use Rattle.grant_certificate.specs.Flaws.{HasLengths, IsBackedAt, IsLeafFlaw, IsFirstUnbacked, IsFirstFlaw, IsVerdict};

use super::branches::look_at_branches;
use super::certificate::Certificate;
use super::flaw::{Flaw, Verdict};
use super::over::first_above;
use super::range::first_greater;
use limit_tree::{MAX_LEAVES, NodeKind, Tree};
use std::alloc::Allocator;

/// Number of leaves up to which small tables are used: the lanes of a server, and more.
pub(crate) const FEW_LEAVES: usize = 128;

/// The flaw of an unmet leaf whose entry is not the number of a bottleneck. One walk.
fn entry_flaw<A: Allocator>(
    tree: &Tree<A>,
    grants: &[u64],
    floors: &[u64],
    entries: &[Option<u32>],
    leaf: usize,
) -> Flaw
    requires lengths { length (limits tree.now).wants ≡ length grants.now }
    requires fits { sum grants.now < 2 ^ 64 }
    requires floors { floors.now ≡ (limits tree.now).floors }
    requires floored { length floors.now ≡ length grants.now }
    requires entries { length entries.now ≡ length grants.now }
    requires leaf { leaf < length grants.now }
    requires unheld { IsHeld (limits tree.now) grants.now floors.now entries.now leaf → ⊥ }
    ensures flaw { IsLeafFlaw (limits tree.now) grants.now entries.now leaf result }
{
    let Some(named) = entries[leaf] else {
        return Flaw::NoNode { leaf };
    };
    let node = named as usize;
    if node >= tree.nodes() {
        return Flaw::NoNode { leaf };
    }
    let place = tree.place(node);
    let NodeKind::Branch { .. } = place.kind else {
        return Flaw::NoNode { leaf };
    };
    if !place.holds(leaf) {
        return Flaw::NotAbove { leaf, node };
    }
    if !place.is_full(grants) {
        return Flaw::NotFull { leaf, node };
    }
    match first_greater(grants, floors, place.first, place.leaves, grants[leaf]) {
        Some(other) => Flaw::TooGreat { leaf, other },
        None => unreachable!(),
    }
}

/// The flaw of the first unmet leaf without a bottleneck: the first without a mark, since the leaves with a bottleneck
/// are marked.
fn backing_flaw<A: Allocator>(
    tree: &Tree<A>,
    grants: &[u64],
    wants: &[u64],
    floors: &[u64],
    entries: &[Option<u32>],
    backed: &[bool],
) -> Option<Flaw>
    requires lengths { length wants.now ≡ length grants.now }
    requires few { length grants.now ≤ MAX_LEAVES }
    requires fits { sum grants.now < 2 ^ 64 }
    requires wants { wants.now ≡ (limits tree.now).wants }
    requires floors { floors.now ≡ (limits tree.now).floors }
    requires floored { length floors.now ≡ length grants.now }
    requires entries { length entries.now ≡ length grants.now }
    requires marks { length grants.now ≤ length backed.now }
    requires held { AreHeld (limits tree.now) grants.now floors.now entries.now backed.now }
    ensures flaw { MatchOption result ((i : ℕ) → i < length grants.now
        → IsBackedAt (limits tree.now) grants.now entries.now i)
        (λ flaw. IsFirstUnbacked (limits tree.now) grants.now entries.now flaw) }
{
    for leaf in 0..grants.len() {
        if grants[leaf] < wants[leaf] && !backed[leaf] {
            return Some(entry_flaw(tree, grants, floors, entries, leaf));
        }
    }
    None
}

/// The first flaw of lists of the right length, given the wants and floors of the leaves.
fn flaw_beside<A: Allocator>(
    tree: &Tree<A>,
    grants: &[u64],
    entries: &[Option<u32>],
    wants: &[u64],
    floors: &[u64],
) -> Option<Flaw>
    requires lengths { HasLengths (limits tree.now) grants.now entries.now }
    requires wants { wants.now ≡ (limits tree.now).wants }
    requires floors { floors.now ≡ (limits tree.now).floors }
    ensures flaw { MatchOption result (IsWithin (limits tree.now) grants.now
        × IsBackedBy (limits tree.now) grants.now entries.now)
        (λ flaw. IsFirstFlaw (limits tree.now) grants.now entries.now flaw) }
{
    let _bounded = tree.leaves();
    if let Some(leaf) = first_above(grants, wants) {
        return Some(Flaw::OverWant { leaf });
    }
    if let Some(leaf) = first_above(floors, grants) {
        return Some(Flaw::UnderFloor { leaf });
    }
    let branches = look_at_branches(tree, grants, floors, entries);
    if let Some(node) = branches.over {
        return Some(Flaw::OverLimit { node });
    }
    backing_flaw(tree, grants, wants, floors, entries, &branches.backed)
}

/// The first flaw of lists of the right length. Reads the wants and floors into the given tables.
fn flaw_by<A: Allocator>(
    tree: &Tree<A>,
    grants: &[u64],
    entries: &[Option<u32>],
    wants: &mut [u64],
    floors: &mut [u64],
) -> Option<Flaw>
    requires lengths { HasLengths (limits tree.now) grants.now entries.now }
    requires room { length grants.now ≤ length wants.old }
    requires tables { length floors.old ≡ length wants.old }
    ensures flaw { MatchOption result (IsWithin (limits tree.now) grants.now
        × IsBackedBy (limits tree.now) grants.now entries.now)
        (λ flaw. IsFirstFlaw (limits tree.now) grants.now entries.now flaw) }
{
    tree.leaves_into(wants, floors);
    let leaves = grants.len();
    flaw_beside(tree, grants, entries, &wants[..leaves], &floors[..leaves])
}

/// `flaw_by` with tables for `FEW_LEAVES`, which are cheap to make.
fn flaw_of_few<A: Allocator>(
    tree: &Tree<A>,
    grants: &[u64],
    entries: &[Option<u32>],
) -> Option<Flaw>
    requires lengths { HasLengths (limits tree.now) grants.now entries.now }
    requires few { length grants.now ≤ FEW_LEAVES }
    ensures flaw { MatchOption result (IsWithin (limits tree.now) grants.now
        × IsBackedBy (limits tree.now) grants.now entries.now)
        (λ flaw. IsFirstFlaw (limits tree.now) grants.now entries.now flaw) }
{
    let mut wants = [0; FEW_LEAVES];
    let mut floors = [0; FEW_LEAVES];
    flaw_by(tree, grants, entries, &mut wants, &mut floors)
}

/// `flaw_by` with tables for the most leaves that a tree may have. They are 64 KB on the stack: part of a frame of its own,
/// and of no caller's, each thread that checks few leaves does without them.
#[inline(never)]
fn flaw_of_many<A: Allocator>(
    tree: &Tree<A>,
    grants: &[u64],
    entries: &[Option<u32>],
) -> Option<Flaw>
    requires lengths { HasLengths (limits tree.now) grants.now entries.now }
    requires few { length grants.now ≤ MAX_LEAVES }
    ensures flaw { MatchOption result (IsWithin (limits tree.now) grants.now
        × IsBackedBy (limits tree.now) grants.now entries.now)
        (λ flaw. IsFirstFlaw (limits tree.now) grants.now entries.now flaw) }
{
    let mut wants = [0; MAX_LEAVES];
    let mut floors = [0; MAX_LEAVES];
    flaw_by(tree, grants, entries, &mut wants, &mut floors)
}

/// Checks that grants, in octets by leaf, are within the limits of the tree and backed by their certificate; otherwise
/// returns the first flaw. The order is: the lengths, the first leaf above its want, the first leaf below its floor,
/// the first branch in preorder whose leaves have more than its limit, then the entry of each unmet leaf in order. An
/// entry must be the number of a branch that holds the leaf and is full, and no leaf of that branch may have both at
/// least two octets more and more than its own floor. Entries of leaves that have what they want are ignored.
///
/// No memory, O(nodes * depth) time: one pass over the nodes, one walk over the tree in which each branch sums the
/// grants of its leaves, and one more walk if an entry has a flaw.
pub fn check<A: Allocator, B: Allocator>(
    tree: &Tree<A>,
    grants: &[u64],
    certificate: &Certificate<B>,
) -> Verdict
    ensures verdict { IsVerdict (limits tree.now) grants.now certificate.now result }
    ensures yes { (result ≡ Verdict.Yes)
        ↔ (IsWithin (limits tree.now) grants.now
        × IsBackedBy (limits tree.now) grants.now certificate.now) }
    ensures best { result ≡ Verdict.Yes → IsBest (limits tree.now) grants.now }
{
    judge(tree, grants, certificate.entries())
}

fn judge<A: Allocator>(tree: &Tree<A>, grants: &[u64], entries: &[Option<u32>]) -> Verdict
    ensures verdict { IsVerdict (limits tree.now) grants.now entries.now result }
    ensures branches { HasNestedBranches (limits tree.now) }
{
    if grants.len() != tree.leaves() || entries.len() != tree.leaves() {
        return Verdict::No(Flaw::WrongLength);
    }
    let found = if grants.len() <= FEW_LEAVES {
        flaw_of_few(tree, grants, entries)
    } else {
        flaw_of_many(tree, grants, entries)
    };
    match found {
        Some(flaw) => Verdict::No(flaw),
        None => Verdict::Yes,
    }
}
