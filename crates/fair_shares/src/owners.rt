//! The users of the leaves of the tree of a tick, and their branches.

ghost use Rattle.std.specs.Prelude.{◌≡◌, ◌<◌, ◌≤◌, ◌↔◌, ℕ, length, IfNone, IfOk, IfSome, IsTrue};
ghost use Rattle.limit_tree.specs.Outline.{limits as seen};
ghost use Rattle.line_rates.specs.Names.{same_way};
ghost use Rattle.grant_certificate.specs.Users.{HasUsers};
ghost use Rattle.fair_terms.specs.Owners.{AreOwners};
ghost use Rattle.fair_terms.specs.Wants.{is_same_user};
ghost use Rattle.user_shares.specs.InRow.{AreInRow, IsNext};
ghost use Rattle.user_shares.specs.Nodes.{AreUsers};
ghost use Rattle.fair_shares.specs.Users.{AreNodesOf, IsRunOf, IsTreeOf};

use limit_tree::{Flat, NodeKind};
use line_rates::{Ask, Way};
use std::alloc::{AllocError, Allocator, Global};
use user_shares::owners_of;

/// The users of leaves: the branch of each, and the number of the user of each leaf.
#[derive(Drop)]
pub(crate) struct LeafUsers<A: Allocator = Global> {
    pub nodes: Vec<u32, A>,
    pub owners: Vec<u32, A>,
}

fn same_way(one: Way, other: Way) -> bool
    ensures same { result ≡ same_way one other }
{
    match (one, other) {
        (Way::Down, Way::Down) => true,
        (Way::Up, Way::Up) => true,
        (Way::Down, Way::Up) => false,
        (Way::Up, Way::Down) => false,
    }
}

// Returns whether an ask is of the user of another, in its way.
fn is_same_user(one: Ask, other: Ask) -> bool
    ensures same { result ≡ is_same_user one other }
{
    same_way(other.way, one.way) && other.user == one.user
}

// The number of asks of the same user side by side, from one on.
fn run_of(asks: &[Ask], first: usize) -> usize
    requires first { first < length asks.now }
    ensures run { IsRunOf asks.now first result }
{
    for leaf in first..asks.len() {
        if !is_same_user(asks[first], asks[leaf]) {
            return leaf - first;
        }
    }
    asks.len() - first
}

// The number of leaves of a node, if it is a branch with a leaf of which this is the first.
fn leaves_at<A: Allocator>(flat: &Flat<A>, node: usize, first: usize) -> Option<usize>
    requires node { node < length flat.now }
    ensures some { IfSome result (λ leaves. IsNext flat.now node first leaves) }
    ensures none { IfNone result ((leaves : ℕ) → IsNext flat.now node first leaves → ⊥) }
{
    let place = flat.place(node);
    match place.kind {
        NodeKind::Leaf { .. } => None,
        NodeKind::Branch { .. } => {
            if place.leaves > 0 && place.first == first {
                Some(place.leaves)
            } else {
                None
            }
        }
    }
}

// Returns whether a node is a branch with just these leaves.
fn is_over<A: Allocator>(flat: &Flat<A>, node: usize, first: usize, leaves: usize) -> bool
    requires node { node < length flat.now }
    ensures over { IsTrue result ↔ IsNext flat.now node first leaves }
{
    match leaves_at(flat, node, first) {
        Some(found) => found == leaves,
        None => false,
    }
}

// The first branch from a node on that has just these leaves.
fn branch_over<A: Allocator>(
    flat: &Flat<A>,
    from: usize,
    first: usize,
    leaves: usize,
) -> Option<usize>
    ensures some { IfSome result (λ node. IsNext flat.now node first leaves) }
    ensures none { IfNone result ((k : ℕ) → from ≤ k → IsNext flat.now k first leaves → ⊥) }
{
    for node in from..flat.nodes() {
        if is_over(flat, node, first, leaves) {
            return Some(node);
        }
    }
    None
}

// The branches of the users, in the order of their leaves. Those of a later user come later, since the nodes are in
// preorder.
fn user_nodes<A: Allocator, B: Allocator>(
    alloc: B,
    flat: &Flat<A>,
    asks: &[Ask],
) -> Result<Vec<u32, B>, AllocError>
    requires tree { IsTreeOf asks.now (seen flat.now) }
    ensures row { IfOk result (λ nodes. AreInRow flat.now nodes.items) }
    ensures users { IfOk result (λ nodes. AreNodesOf flat.now asks.now nodes.items) }
{
    let mut nodes = Vec::new(alloc);
    let mut from = 0;
    let mut leaf = 0;
    let _bounded = flat.nodes();
    while leaf < asks.len() {
        let leaves = run_of(asks, leaf);
        match branch_over(flat, from, leaf, leaves) {
            Some(node) => {
                nodes.push(node as u32)?;
                from = node;
                leaf += leaves;
            }
            None => unreachable!(),
        }
    }
    Ok(nodes)
}

/// The users of the leaves of the tree of a tick, by the ask of each leaf.
pub(crate) fn users_of<A: Allocator, B: Allocator + Clone>(
    alloc: &B,
    flat: &Flat<A>,
    asks: &[Ask],
) -> Result<LeafUsers<B>, AllocError>
    requires tree { IsTreeOf asks.now (seen flat.now) }
    ensures users { IfOk result
        (λ users. AreUsers flat.now users.nodes.items users.owners.items) }
    ensures has { IfOk result
        (λ users. HasUsers (seen flat.now) (length users.nodes.items) users.owners.items) }
    ensures owners { IfOk result
        (λ users. AreOwners asks.now (length users.nodes.items) users.owners.items) }
{
    let nodes = user_nodes(alloc.clone()?, flat, asks)?;
    let Some(owners) = owners_of(alloc.clone()?, flat, &nodes)? else {
        unreachable!()
    };
    Ok(LeafUsers { nodes, owners })
}
