//! The users of a tree's leaves, by a depth.

ghost use Rattle.std.specs.Prelude.{◌≡◌, ◌+◌, ◌≤◌, ◌⊎◌, ◌↔◌, ℕ, length, slice_index, false, IfOk, IsTrue};
ghost use Rattle.limit_tree.specs.Outline.{leaf_range, limits};
ghost use Rattle.grant_certificate.specs.Users.{HasUsers};
ghost use Rattle.depth_users.specs.Owners.{AreOwners};

use limit_tree::{Flat, Place, Tree};
use std::alloc::{AllocError, Allocator};

/// Returns whether a node may be a user: the root, or a node at that depth or above.
fn is_high(node: usize, place: Place, depth: usize) -> bool
    ensures high { IsTrue result ↔ ((node ≡ 0) ⊎ (place.depth ≤ depth)) }
{
    node == 0 || place.depth <= depth
}

/// Makes a user the owner of the leaves of its node.
fn own(owners: &mut [u32], user: u32, place: Place)
    requires inside { place.first + place.leaves ≤ length owners.old }
    ensures size { length owners.new ≡ length owners.old }
    ensures own { (i : ℕ) → IsTrue (leaf_range place.first place.leaves i)
        → slice_index owners.new i ≡ user }
    ensures others { (i : ℕ) → leaf_range place.first place.leaves i ≡ false
        → slice_index owners.new i ≡ slice_index owners.old i }
{
    for leaf in place.first..place.first + place.leaves {
        owners[leaf] = user;
    }
}

/// The root as the user of each leaf.
fn no_owners<B: Allocator>(alloc: B, leaves: usize) -> Result<Vec<u32, B>, AllocError>
    ensures each { IfOk result (λ owners. length owners.items ≡ leaves) }
    ensures root { IfOk result
        (λ owners. (i : ℕ) → slice_index owners.items i ≡ 0) }
{
    vec![in alloc; 0; leaves]
}

/// The number of the user of each leaf: the last node, in preorder, that has the leaf and is the root or at that depth
/// or above. So the users are the nodes at that depth, and each leaf above it; the number of a user is that of its
/// node. O(nodes + leaves * depth) time. Returns `AllocError` only if memory runs out.
pub fn owners_at<A: Allocator, B: Allocator + Clone>(
    alloc: B,
    tree: &Tree<A>,
    depth: usize,
) -> Result<Vec<u32, B>, AllocError>
    ensures owners { IfOk result (λ owners. AreOwners tree.now depth owners.items) }
    ensures users { IfOk result
        (λ owners. HasUsers (limits tree.now) (length tree.now) owners.items) }
{
    let _leaves = tree.leaves();
    tree.nodes_are_a_tree();
    let flat = Flat::of(alloc.clone()?, tree)?;
    let mut owners = no_owners(alloc, flat.leaves())?;
    for node in 0..flat.nodes() {
        let place = flat.place(node);
        if is_high(node, place, depth) {
            own(&mut owners, node as u32, place);
        }
    }
    Ok(owners)
}
