//! The three stages by which grants are found.

ghost use Rattle.std.specs.Prelude.{◌≡◌, ◌<◌, ◌≤◌, ◌^◌, ℕ, length, slice_index, sum, IfErr, IfNone, IfOk, IfSome};
ghost use Rattle.limit_tree.specs.Outline.{limits};
ghost use Rattle.limit_tree.specs.declared.bounds.TheConstants.{MAX_WANT};
ghost use Rattle.grant_certificate.specs.Users.{HasUsers};
ghost use Rattle.user_shares.specs.Faults.{IsUserFault};
ghost use Rattle.user_shares.specs.Kinds.{AreAlike, HaveRanges, IsInnerKind, IsOuterKind, IsTightKind};
ghost use Rattle.user_shares.specs.Nodes.{AreUsers};
ghost use Rattle.user_shares.specs.Rebuilt.{IsSoundOutline};
ghost use Rattle.user_shares.specs.Stages.{AreFound, AreMost, AreOuterTotals, AreTightGrants, AreTotals, HaveHeads};

use crate::fault::UserShareFault;
use crate::kinds::{inner_kinds, outer_kinds, tight_kinds};
use crate::rebuild::rebuilt;
use limit_tree::{Flat, MAX_WANT, Tree};
use round_allocator::allot;
use std::alloc::{AllocError, Allocator};

/// Adds the grants of each user's leaves to the user's total, in octets. O(leaves) time.
fn add_totals(owners: &[u32], grants: &[u64], totals: &mut [u64])
    requires owners { length owners.now ≡ length grants.now }
    requires few { (i : ℕ) → i < length owners.now → slice_index owners.now i < length totals.old }
    requires fits { sum grants.now < 2 ^ 64 }
    requires none { (u : ℕ) → u < length totals.old → slice_index totals.old u ≡ 0 }
    ensures totals { AreTotals (length totals.old) owners.now grants.now totals.new }
{
    for leaf in 0..owners.len() {
        let user = owners[leaf] as usize;
        let total = totals[user] + grants[leaf];
        totals[user] = total;
    }
}

/// No octets for each user.
fn no_totals<B: Allocator>(alloc: B, users: usize) -> Result<Vec<u64, B>, AllocError>
    ensures each { IfOk result (λ t. length t.items ≡ users) }
    ensures none { IfOk result (λ t. (u : ℕ) → u < users → slice_index t.items u ≡ 0) }
{
    vec![in alloc; 0; users]
}

/// The sum of the grants of each user's leaves, in octets. O(leaves + users) time.
fn user_totals<B: Allocator>(
    alloc: B,
    users: usize,
    owners: &[u32],
    grants: &[u64],
) -> Result<Vec<u64, B>, AllocError>
    requires owners { length owners.now ≡ length grants.now }
    requires few { (i : ℕ) → i < length owners.now → slice_index owners.now i < users }
    requires fits { sum grants.now < 2 ^ 64 }
    ensures totals { IfOk result (λ t. AreTotals users owners.now grants.now t.items) }
{
    let mut totals = no_totals(alloc, users)?;
    add_totals(owners, grants, &mut totals);
    Ok(totals)
}

/// The floor of each leaf, in octets.
fn floors_of<A: Allocator, B: Allocator>(
    alloc: B,
    flat: &Flat<A>,
) -> Result<Vec<u64, B>, AllocError>
    ensures floors { IfOk result (λ floors. floors.items ≡ (limits flat.now).floors) }
{
    let leaves = flat.leaves();
    let mut floors = Vec::with_capacity(alloc, leaves)?;
    for leaf in 0..leaves {
        floors.push(flat.floor(leaf))?;
    }
    Ok(floors)
}

/// The tree in which only branches inside users have limits.
fn inner_tree<A: Allocator, B: Allocator + Clone>(
    alloc: &B,
    flat: &Flat<A>,
    owners: &[u32],
) -> Result<Tree<B>, AllocError>
    requires sound { IsSoundOutline flat.now }
    requires owners { length owners.now ≡ length (limits flat.now).wants }
    requires ranges { HaveRanges owners.now }
    ensures alike { IfOk result (λ tree. AreAlike flat.now (IsInnerKind owners.now) tree) }
{
    let _nodes = flat.nodes();
    let kinds = inner_kinds(alloc.clone()?, flat, owners)?;
    let tree = rebuilt(alloc, flat, &kinds)?;
    Ok(tree)
}

/// The tree in which one leaf of each user wants what the user can have.
fn outer_tree<A: Allocator, B: Allocator + Clone>(
    alloc: &B,
    flat: &Flat<A>,
    owners: &[u32],
    most: &[u64],
    floors: &[u64],
) -> Result<Tree<B>, AllocError>
    requires sound { IsSoundOutline flat.now }
    requires users { HasUsers (limits flat.now) (length most.now) owners.now }
    requires heads { HaveHeads (length most.now) owners.now }
    requires ranges { HaveRanges owners.now }
    requires most { AreMost (limits flat.now) (length most.now) owners.now most.now }
    requires small { (u : ℕ) → u < length most.now → slice_index most.now u ≤ MAX_WANT }
    requires floors { AreTotals (length most.now) owners.now (limits flat.now).floors floors.now }
    ensures alike { IfOk result
        (λ tree. AreAlike flat.now (IsOuterKind owners.now most.now floors.now) tree) }
{
    let _nodes = flat.nodes();
    let kinds = outer_kinds(alloc.clone()?, flat, owners, most, floors)?;
    let tree = rebuilt(alloc, flat, &kinds)?;
    Ok(tree)
}

/// The tree in which each user is limited to its total.
fn tight_tree<A: Allocator, B: Allocator + Clone>(
    alloc: &B,
    flat: &Flat<A>,
    users: &[u32],
    owners: &[u32],
    totals: &[u64],
) -> Result<Tree<B>, AllocError>
    requires sound { IsSoundOutline flat.now }
    requires users { AreUsers flat.now users.now owners.now }
    requires totals { AreOuterTotals (limits flat.now) (length users.now) owners.now totals.now }
    ensures alike { IfOk result
        (λ tree. AreAlike flat.now (IsTightKind users.now totals.now) tree) }
{
    let _nodes = flat.nodes();
    let kinds = tight_kinds(alloc.clone()?, flat, users, owners, totals)?;
    let tree = rebuilt(alloc, flat, &kinds)?;
    Ok(tree)
}

/// The sum of the floors of each user's leaves, in octets.
fn user_floors<A: Allocator, B: Allocator + Clone>(
    alloc: &B,
    flat: &Flat<A>,
    users: usize,
    owners: &[u32],
) -> Result<Vec<u64, B>, AllocError>
    requires owners { length owners.now ≡ length (limits flat.now).wants }
    requires few { (i : ℕ) → i < length owners.now → slice_index owners.now i < users }
    ensures floors { IfOk result
        (λ floors. AreTotals users owners.now (limits flat.now).floors floors.items) }
{
    let _bounded = flat.leaves();
    let of_leaves = floors_of(alloc.clone()?, flat)?;
    let floors = user_totals(alloc.clone()?, users, owners, &of_leaves)?;
    Ok(floors)
}

/// The total of each user in an allotment of a tree, in octets.
fn totals_in<B: Allocator + Clone>(
    alloc: &B,
    tree: &Tree<B>,
    users: usize,
    owners: &[u32],
) -> Result<Vec<u64, B>, AllocError>
    requires owners { length owners.now ≡ length (limits tree.now).wants }
    requires few { (i : ℕ) → i < length owners.now → slice_index owners.now i < users }
    ensures found { IfOk result
        (λ totals. AreFound (limits tree.now) users owners.now totals.items) }
{
    let _bounded = tree.leaves();
    let shared = allot(alloc.clone()?, tree)?;
    let totals = user_totals(alloc.clone()?, users, owners, &shared.0)?;
    Ok(totals)
}

/// The most that each user can have, in octets.
pub(crate) fn most_of<A: Allocator, B: Allocator + Clone>(
    alloc: &B,
    flat: &Flat<A>,
    users: &[u32],
    owners: &[u32],
) -> Result<Vec<u64, B>, AllocError>
    requires sound { IsSoundOutline flat.now }
    requires users { AreUsers flat.now users.now owners.now }
    ensures most { IfOk result
        (λ most. AreMost (limits flat.now) (length users.now) owners.now most.items) }
{
    let _bounded = flat.leaves();
    let tree = inner_tree(alloc, flat, owners)?;
    let _leaves = tree.leaves();
    let most = totals_in(alloc, &tree, users.len(), owners)?;
    Ok(most)
}

/// The first user that can have more than the largest want.
fn first_too_large(most: &[u64]) -> Option<usize>
    ensures some { IfSome result
        (λ user. (user < length most.now) × (MAX_WANT < slice_index most.now user)) }
    ensures none { IfNone result
        ((u : ℕ) → u < length most.now → slice_index most.now u ≤ MAX_WANT) }
{
    for user in 0..most.len() {
        if most[user] > MAX_WANT {
            return Some(user);
        }
    }
    None
}

/// The total of each user, in octets, if no user can have more than the largest want.
fn totals_by_most<A: Allocator, B: Allocator + Clone>(
    alloc: &B,
    flat: &Flat<A>,
    users: &[u32],
    owners: &[u32],
    most: &[u64],
) -> Result<Vec<u64, B>, AllocError>
    requires sound { IsSoundOutline flat.now }
    requires users { AreUsers flat.now users.now owners.now }
    requires most { AreMost (limits flat.now) (length users.now) owners.now most.now }
    requires small { (u : ℕ) → u < length most.now → slice_index most.now u ≤ MAX_WANT }
    ensures totals { IfOk result
        (λ totals. AreOuterTotals (limits flat.now) (length users.now) owners.now totals.items) }
{
    let _bounded = flat.leaves();
    let _nodes = flat.nodes();
    let floors = user_floors(alloc, flat, users.len(), owners)?;
    let tree = outer_tree(alloc, flat, owners, most, &floors)?;
    tree.nodes_are_a_tree();
    let totals = totals_in(alloc, &tree, users.len(), owners)?;
    Ok(totals)
}

/// The total of each user, in octets.
pub(crate) fn totals_of<A: Allocator, B: Allocator + Clone>(
    alloc: &B,
    flat: &Flat<A>,
    users: &[u32],
    owners: &[u32],
    most: &[u64],
) -> Result<Vec<u64, B>, UserShareFault>
    requires sound { IsSoundOutline flat.now }
    requires users { AreUsers flat.now users.now owners.now }
    requires most { AreMost (limits flat.now) (length users.now) owners.now most.now }
    ensures totals { IfOk result
        (λ totals. AreOuterTotals (limits flat.now) (length users.now) owners.now totals.items) }
    ensures small { IfOk result
        (λ _. (u : ℕ) → u < length most.now → slice_index most.now u ≤ MAX_WANT) }
    ensures fault { IfErr result
        (IsUserFault (limits flat.now) (length users.now) owners.now) }
{
    match first_too_large(most) {
        Some(user) => Err(UserShareFault::WantTooLarge { user }),
        None => Ok(totals_by_most(alloc, flat, users, owners, most)?),
    }
}

/// The grants within the users' totals, in octets by leaf.
pub(crate) fn grants_within<A: Allocator, B: Allocator + Clone>(
    alloc: &B,
    flat: &Flat<A>,
    users: &[u32],
    owners: &[u32],
    totals: &[u64],
) -> Result<Vec<u64, B>, AllocError>
    requires sound { IsSoundOutline flat.now }
    requires users { AreUsers flat.now users.now owners.now }
    requires totals { AreOuterTotals (limits flat.now) (length users.now) owners.now totals.now }
    ensures grants { IfOk result (λ grants. AreTightGrants (limits flat.now) (length users.now)
        owners.now totals.now grants.items) }
{
    let tree = tight_tree(alloc, flat, users, owners, totals)?;
    let _leaves = tree.leaves();
    let shared = allot(alloc.clone()?, &tree)?;
    Ok(shared.0)
}
