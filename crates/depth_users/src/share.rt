//! Sharing among the users of a depth.

ghost use Rattle.std.specs.Prelude.{◌≡◌, length, IfOk, IsTrue};
ghost use Rattle.limit_tree.specs.Outline.{limits};
ghost use Rattle.limit_tree.specs.Sharing.{IsWanted};
ghost use Rattle.round_allocator.specs.Rounds.{IsNamed};
ghost use Rattle.depth_users.specs.Owners.{AreOwners};
ghost use Rattle.depth_users.specs.Shared.{IsSharedAt};

use crate::fault::DepthFault;
use crate::find::found_at;
use crate::owners::owners_at;
use grant_certificate::{Certificate, check_by_users};
use limit_tree::{Flat, Tree};
use round_allocator::deepest_entries;
use std::alloc::Allocator;

/// Returns whether there is one grant for each leaf, at most its want.
fn are_wanted<A: Allocator>(flat: &Flat<A>, grants: &[u64]) -> bool
    ensures wanted { IsTrue result → IsWanted (limits flat.now) grants.now }
{
    if grants.len() != flat.leaves() {
        return false;
    }
    for leaf in 0..grants.len() {
        if grants[leaf] > flat.want(leaf) {
            return false;
        }
    }
    true
}

/// The grants of the leaves of a tree, in octets, max-min fair in whole octets among the users of a depth, and then
/// among the leaves of each user, with their certificate. The users are the nodes at that depth, and each leaf above it.
/// The entry of each leaf that has less than it wants is the deepest full branch above it; all other entries are none.
///
/// The grants are found by at most three allotments, of trees as large as this one, and are then checked, in O(nodes *
/// depth + leaves²) time. `Memory`: memory ran out. `UserTooLarge`: no grants were found that pass the check, as when a
/// user can have more than `MAX_WANT` octets, and a limit above it is as large.
pub fn allot_at<A: Allocator, B: Allocator + Clone>(
    alloc: B,
    tree: &Tree<A>,
    depth: usize,
) -> Result<(Vec<u64, B>, Certificate<B>), DepthFault>
    ensures shared { IfOk result (λ r. IsSharedAt tree.now depth r.0.items r.1) }
    ensures named { IfOk result (λ r. IsNamed (limits tree.now) r.0.items r.1) }
{
    let owners = owners_at(alloc.clone()?, tree, depth)?;
    let flat = Flat::of(alloc.clone()?, tree)?;
    let grants = found_at(&alloc, tree, &flat, depth)?;
    if !are_wanted(&flat, &grants) {
        return Err(DepthFault::UserTooLarge);
    }
    let certificate = deepest_entries(alloc, &flat, &grants)?;
    if !check_by_users(tree, &owners, &grants, &certificate) {
        return Err(DepthFault::UserTooLarge);
    }
    Ok((grants, certificate))
}
