//! Grants that are best by users.

ghost use Rattle.std.specs.Prelude.{◌<◌, ◌≤◌, ◌↔◌, ℕ, length, slice_index, IfErr, IfOk, IsTrue};
ghost use Rattle.limit_tree.specs.Outline.{limits};
ghost use Rattle.limit_tree.specs.declared.bounds.TheConstants.{MAX_WANT};
ghost use Rattle.limit_tree.specs.Sharing.{IsWithin};
ghost use Rattle.grant_certificate.specs.Users.{IsBackedByUsers, IsBestByUsers};
ghost use Rattle.user_shares.specs.Faults.{AreSmall, IsUserFault};
ghost use Rattle.user_shares.specs.Nodes.{AreTheirOwn, AreUsers};
ghost use Rattle.user_shares.specs.Rebuilt.{IsSoundOutline};
ghost use Rattle.user_shares.specs.Stages.{AreMost, AreOuterTotals, IsShared};

use crate::fault::UserShareFault;
use crate::stages::{grants_within, most_of, totals_of};
use grant_certificate::Certificate;
use limit_tree::{Flat, Tree};
use round_allocator::{allot, deepest_entries};
use std::alloc::{AllocError, Allocator};

/// The grants within the users' totals, with their certificate.
fn share_totals<A: Allocator, B: Allocator + Clone>(
    alloc: B,
    flat: &Flat<A>,
    users: &[u32],
    owners: &[u32],
    totals: &[u64],
) -> Result<(Vec<u64, B>, Certificate<B>), AllocError>
    requires sound { IsSoundOutline flat.now }
    requires users { AreUsers flat.now users.now owners.now }
    requires totals { AreOuterTotals (limits flat.now) (length users.now) owners.now totals.now }
    ensures shared { IfOk result (λ r. IsShared (limits flat.now) (length users.now) owners.now
        r.0.items r.1) }
{
    let _bounded = flat.leaves();
    let grants = grants_within(&alloc, flat, users, owners, totals)?;
    let certificate = deepest_entries(alloc, flat, &grants)?;
    Ok((grants, certificate))
}

/// The grants by what each user can have, with their certificate.
fn share_most<A: Allocator, B: Allocator + Clone>(
    alloc: B,
    flat: &Flat<A>,
    users: &[u32],
    owners: &[u32],
    most: &[u64],
) -> Result<(Vec<u64, B>, Certificate<B>), UserShareFault>
    requires sound { IsSoundOutline flat.now }
    requires users { AreUsers flat.now users.now owners.now }
    requires most { AreMost (limits flat.now) (length users.now) owners.now most.now }
    ensures shared { IfOk result (λ r. IsShared (limits flat.now) (length users.now) owners.now
        r.0.items r.1) }
    ensures small { IfOk result
        (λ _. (u : ℕ) → u < length most.now → slice_index most.now u ≤ MAX_WANT) }
    ensures fault { IfErr result
        (IsUserFault (limits flat.now) (length users.now) owners.now) }
{
    let totals = totals_of(&alloc, flat, users, owners, most)?;
    let shared = share_totals(alloc, flat, users, owners, &totals)?;
    Ok(shared)
}

/// The grants of a tree that is given by its nodes, with their certificate.
fn share_flat<A: Allocator, B: Allocator + Clone>(
    alloc: B,
    flat: &Flat<A>,
    users: &[u32],
    owners: &[u32],
) -> Result<(Vec<u64, B>, Certificate<B>), UserShareFault>
    requires sound { IsSoundOutline flat.now }
    requires users { AreUsers flat.now users.now owners.now }
    ensures shared { IfOk result (λ r. IsShared (limits flat.now) (length users.now) owners.now
        r.0.items r.1) }
    ensures small { IfOk result
        (λ _. AreSmall (limits flat.now) (length users.now) owners.now) }
    ensures fault { IfErr result
        (IsUserFault (limits flat.now) (length users.now) owners.now) }
{
    let most = most_of(&alloc, flat, users, owners)?;
    let shared = share_most(alloc, flat, users, owners, &most)?;
    Ok(shared)
}

/// The grants of a tree by three stages, with their certificate.
fn share_stages<A: Allocator, B: Allocator + Clone>(
    alloc: B,
    tree: &Tree<A>,
    users: &[u32],
    owners: &[u32],
) -> Result<(Vec<u64, B>, Certificate<B>), UserShareFault>
    requires users { AreUsers tree.now users.now owners.now }
    ensures shared { IfOk result (λ r. IsShared (limits tree.now) (length users.now) owners.now
        r.0.items r.1) }
    ensures small { IfOk result
        (λ _. AreSmall (limits tree.now) (length users.now) owners.now) }
    ensures fault { IfErr result
        (IsUserFault (limits tree.now) (length users.now) owners.now) }
{
    tree.nodes_are_a_tree();
    let flat = Flat::of(alloc.clone()?, tree)?;
    let shared = share_flat(alloc, &flat, users, owners)?;
    Ok(shared)
}

/// Returns whether each leaf is a user of its own, with the number of the leaf. O(leaves) time.
fn are_their_own(owners: &[u32]) -> bool
    ensures own { IsTrue result ↔ AreTheirOwn owners.now }
{
    for leaf in 0..owners.len() {
        if owners[leaf] as usize != leaf {
            return false;
        }
    }
    true
}

/// The grants of a tree in which each leaf is a user of its own, with their certificate. One allotment is enough: what
/// is best among leaves is then best by users, and no user can have more than a leaf may want.
fn share_leaves<A: Allocator, B: Allocator + Clone>(
    alloc: B,
    tree: &Tree<A>,
    users: &[u32],
    owners: &[u32],
) -> Result<(Vec<u64, B>, Certificate<B>), AllocError>
    requires users { AreUsers tree.now users.now owners.now }
    requires own { AreTheirOwn owners.now }
    ensures shared { IfOk result (λ r. IsShared (limits tree.now) (length users.now) owners.now
        r.0.items r.1) }
    ensures small { IfOk result
        (λ _. AreSmall (limits tree.now) (length users.now) owners.now) }
{
    tree.nodes_are_a_tree();
    let shared = allot(alloc, tree)?;
    Ok(shared)
}

/// The grants of the leaves of a tree, in octets, max-min fair in whole octets among users, and then among the leaves
/// of each user, with their certificate. `users` has for each user the number of the branch whose leaves are the user's,
/// and `owners` for each leaf the number of its user. The entry of each leaf that has less than it wants is the deepest
/// full branch above it; all other entries are none. One allotment of this tree, if each leaf is a user of its own, with
/// the number of the leaf; otherwise three, of trees as large as this one. Besides them O(nodes + leaves * depth) time.
/// Returns an error only if memory runs out, or if a user can have more than `MAX_WANT` octets.
pub fn allot_by_users<A: Allocator, B: Allocator + Clone>(
    alloc: B,
    tree: &Tree<A>,
    users: &[u32],
    owners: &[u32],
) -> Result<(Vec<u64, B>, Certificate<B>), UserShareFault>
    requires users { AreUsers tree.now users.now owners.now }
    ensures within { IfOk result (λ r. IsWithin (limits tree.now) r.0.items) }
    ensures backed { IfOk result (λ r. IsBackedByUsers (limits tree.now) owners.now r.0.items r.1) }
    ensures best { IfOk result (λ r. IsBestByUsers (limits tree.now) (length users.now) owners.now
        r.0.items) }
    ensures small { IfOk result
        (λ _. AreSmall (limits tree.now) (length users.now) owners.now) }
    ensures fault { IfErr result
        (IsUserFault (limits tree.now) (length users.now) owners.now) }
{
    if are_their_own(owners) {
        let shared = share_leaves(alloc, tree, users, owners)?;
        return Ok(shared);
    }
    share_stages(alloc, tree, users, owners)
}
