//! The nodes of the trees of three stages, beside those of the tree itself.

ghost use Rattle.std.specs.Prelude.{◌≡◌, ◌+◌, ◌<◌, ◌≤◌, ◌↔◌, ℕ, length, slice_index, true, IfOk, IsTrue};
ghost use Rattle.limit_tree.specs.Outline.{is_leaf_kind, limits};
ghost use Rattle.user_shares.specs.Kinds.{AreKinds, HaveRanges, IsInnerKind, IsOuterKind, IsOwned, IsTightKind, KnowsUsers};
ghost use Rattle.user_shares.specs.Nodes.{AreUsers};
ghost use Rattle.user_shares.specs.Stages.{IsHead};

use limit_tree::{Flat, NodeKind, Place};
use std::alloc::{AllocError, Allocator};

fn are_same(user: u32, other: u32) -> bool
    ensures same { IsTrue result ↔ (user ≡ other) }
{
    user == other
}

/// Returns whether a node has a leaf and all its leaves are of one user.
fn is_owned(owners: &[u32], place: Place) -> bool
    requires inside { place.first + place.leaves ≤ length owners.now }
    requires ranges { HaveRanges owners.now }
    ensures owned { IsTrue result ↔ IsOwned owners.now place }
{
    if place.leaves == 0 {
        return false;
    }
    are_same(owners[place.first], owners[place.first + place.leaves - 1])
}

/// Returns whether a leaf is the first of its user.
fn is_head(owners: &[u32], leaf: usize) -> bool
    requires leaf { leaf < length owners.now }
    requires ranges { HaveRanges owners.now }
    ensures head { IsTrue result ↔ IsHead owners.now leaf }
{
    if leaf == 0 {
        return true;
    }
    !are_same(owners[leaf - 1], owners[leaf])
}

/// A node of the tree in which each user gets the most that it can have.
fn inner_kind(owners: &[u32], node: usize, place: Place) -> NodeKind
    requires inside { place.first + place.leaves ≤ length owners.now }
    requires ranges { HaveRanges owners.now }
    ensures kind { IsInnerKind owners.now node place result }
{
    match place.kind {
        NodeKind::Leaf { .. } => place.kind,
        NodeKind::Branch { .. } => {
            if is_owned(owners, place) {
                place.kind
            } else {
                NodeKind::Branch { limit: None }
            }
        }
    }
}

/// A node of the tree over users.
fn outer_kind(owners: &[u32], most: &[u64], floors: &[u64], node: usize, place: Place) -> NodeKind
    requires inside { place.first + place.leaves ≤ length owners.now }
    requires ranges { HaveRanges owners.now }
    requires leaf { is_leaf_kind place.kind ≡ true → place.leaves ≡ 1 }
    requires few { (i : ℕ) → i < length owners.now → slice_index owners.now i < length most.now }
    requires floors { length floors.now ≡ length most.now }
    ensures kind { IsOuterKind owners.now most.now floors.now node place result }
{
    match place.kind {
        NodeKind::Leaf { .. } => {
            if is_head(owners, place.first) {
                let user = owners[place.first] as usize;
                NodeKind::Leaf {
                    want: most[user],
                    floor: floors[user],
                }
            } else {
                NodeKind::Leaf { want: 0, floor: 0 }
            }
        }
        NodeKind::Branch { .. } => {
            if is_owned(owners, place) {
                NodeKind::Branch { limit: None }
            } else {
                place.kind
            }
        }
    }
}

/// A node of the tree with the users' totals.
fn tight_kind(users: &[u32], owners: &[u32], totals: &[u64], node: usize, place: Place) -> NodeKind
    requires inside { place.first + place.leaves ≤ length owners.now }
    requires few { (i : ℕ) → i < length owners.now → slice_index owners.now i < length users.now }
    requires totals { length totals.now ≡ length users.now }
    requires users { KnowsUsers users.now owners.now node place }
    ensures kind { IsTightKind users.now totals.now node place result }
{
    if place.leaves == 0 {
        return place.kind;
    }
    let user = owners[place.first] as usize;
    match place.kind {
        NodeKind::Leaf { .. } => place.kind,
        NodeKind::Branch { .. } => {
            if users[user] as usize == node {
                NodeKind::Branch {
                    limit: Some(totals[user]),
                }
            } else {
                place.kind
            }
        }
    }
}

/// The nodes of the tree in which each user gets the most that it can have.
pub(crate) fn inner_kinds<A: Allocator, B: Allocator>(
    alloc: B,
    flat: &Flat<A>,
    owners: &[u32],
) -> Result<Vec<NodeKind, B>, AllocError>
    requires owners { length owners.now ≡ length (limits flat.now).wants }
    requires ranges { HaveRanges owners.now }
    ensures kinds { IfOk result (λ kinds. AreKinds flat.now (IsInnerKind owners.now) kinds.items) }
{
    let nodes = flat.nodes();
    let mut kinds = Vec::with_capacity(alloc, nodes)?;
    for node in 0..nodes {
        let place = flat.place(node);
        let kind = inner_kind(owners, node, place);
        kinds.push(kind)?;
    }
    Ok(kinds)
}

/// The nodes of the tree over users. `most` has the most that each user can have, and `floors` the sum of its floors,
/// in octets.
pub(crate) fn outer_kinds<A: Allocator, B: Allocator>(
    alloc: B,
    flat: &Flat<A>,
    owners: &[u32],
    most: &[u64],
    floors: &[u64],
) -> Result<Vec<NodeKind, B>, AllocError>
    requires owners { length owners.now ≡ length (limits flat.now).wants }
    requires ranges { HaveRanges owners.now }
    requires few { (i : ℕ) → i < length owners.now → slice_index owners.now i < length most.now }
    requires floors { length floors.now ≡ length most.now }
    ensures kinds { IfOk result
        (λ kinds. AreKinds flat.now (IsOuterKind owners.now most.now floors.now) kinds.items) }
{
    let nodes = flat.nodes();
    let mut kinds = Vec::with_capacity(alloc, nodes)?;
    for node in 0..nodes {
        let place = flat.place(node);
        let kind = outer_kind(owners, most, floors, node, place);
        kinds.push(kind)?;
    }
    Ok(kinds)
}

/// The nodes of the tree with the users' totals, in octets.
pub(crate) fn tight_kinds<A: Allocator, B: Allocator>(
    alloc: B,
    flat: &Flat<A>,
    users: &[u32],
    owners: &[u32],
    totals: &[u64],
) -> Result<Vec<NodeKind, B>, AllocError>
    requires users { AreUsers flat.now users.now owners.now }
    requires totals { length totals.now ≡ length users.now }
    ensures kinds { IfOk result
        (λ kinds. AreKinds flat.now (IsTightKind users.now totals.now) kinds.items) }
{
    let nodes = flat.nodes();
    let mut kinds = Vec::with_capacity(alloc, nodes)?;
    for node in 0..nodes {
        let place = flat.place(node);
        let kind = tight_kind(users, owners, totals, node, place);
        kinds.push(kind)?;
    }
    Ok(kinds)
}
