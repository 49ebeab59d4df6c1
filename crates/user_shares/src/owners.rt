//! The users of a tree's leaves, by the branches of the users.

ghost use Rattle.std.specs.Prelude.{◌≡◌, ◌+◌, ◌≤◌, ℕ, length, IfNone, IfOk, IfSome, OnOk};
ghost use Rattle.limit_tree.specs.Outline.{limits};
ghost use Rattle.grant_certificate.specs.Users.{HasUsers};
ghost use Rattle.user_shares.specs.InRow.{AreInRow, IsGrown, IsNext};
ghost use Rattle.user_shares.specs.Nodes.{AreUsers};

use limit_tree::{Flat, NodeKind};
use std::alloc::{AllocError, Allocator};

/// The number of leaves of a node, if it is a branch with a leaf of which this is the first.
fn leaves_from<A: Allocator>(flat: &Flat<A>, node: u32, first: usize) -> Option<usize>
    ensures next { IfSome result (λ leaves. IsNext flat.now node first leaves) }
    ensures inside { IfSome result (λ leaves. first + leaves ≤ length (limits flat.now).wants) }
    ensures none { IfNone result ((leaves : ℕ) → IsNext flat.now node first leaves → ⊥) }
{
    let node = node as usize;
    if node >= flat.nodes() {
        return None;
    }
    let place = flat.place(node);
    match place.kind {
        NodeKind::Leaf { .. } => None,
        NodeKind::Branch { .. } => {
            if place.leaves > 0 && place.first == first {
                Some(place.leaves)
            } else {
                None
            }
        }
    }
}

/// Appends a user to the users of leaves, once for each of its leaves.
fn push_leaves<B: Allocator>(
    owners: &mut Vec<u32, B>,
    user: u32,
    leaves: usize,
) -> Result<(), AllocError>
    ensures grown { OnOk result (IsGrown owners.old.items user leaves owners.new.items) }
{
    for _leaf in 0..leaves {
        owners.push(user)?;
    }
    Ok(())
}

/// The number of the user of each leaf, if each user has one of these branches. `users` has the number of each user's
/// branch, in the order of their leaves. Returns none if one of these nodes is no branch with a leaf, or if not each leaf
/// of the tree is below just one of them, in their order; an error if memory runs out. O(leaves + users) time.
pub fn owners_of<A: Allocator, B: Allocator>(
    alloc: B,
    flat: &Flat<A>,
    users: &[u32],
) -> Result<Option<Vec<u32, B>>, AllocError>
    ensures owners { IfOk result
        (λ found. IfSome found (λ owners. AreUsers flat.now users.now owners.items)) }
    ensures users { IfOk result (λ found. IfSome found
        (λ owners. HasUsers (limits flat.now) (length users.now) owners.items)) }
    ensures none { IfOk result (λ found. IfNone found (AreInRow flat.now users.now → ⊥)) }
{
    let leaves = flat.leaves();
    let mut owners = Vec::with_capacity(alloc, leaves)?;
    for user in 0..users.len() {
        match leaves_from(flat, users[user], owners.len()) {
            Some(own) => push_leaves(&mut owners, user as u32, own)?,
            None => return Ok(None),
        }
    }
    if owners.len() == leaves {
        Ok(Some(owners))
    } else {
        Ok(None)
    }
}
