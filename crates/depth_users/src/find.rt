//! Grants that may be best among the users of a depth. They are not believed, but checked.

use crate::laid::{laid, narrowed, users_of};
use limit_tree::{Flat, MAX_DEPTH, Tree};
use round_allocator::allot;
use std::alloc::{AllocError, Allocator};
use user_shares::{UserShareFault, allot_by_users, owners_of};

/// The tree in which each user is a branch, if its numbers have no fault.
fn user_tree<A: Allocator, B: Allocator + Clone>(
    alloc: &B,
    flat: &Flat<A>,
    depth: usize,
) -> Result<Option<Tree<B>>, AllocError> {
    let kinds = narrowed(alloc.clone()?, flat)?;
    let Some(root) = laid(alloc, flat, &kinds, depth)? else {
        return Ok(None);
    };
    match Tree::new(root) {
        Ok(tree) => Ok(Some(tree)),
        Err(_) => Ok(None),
    }
}

/// The grants of a tree in which each user is one of these branches, if they are found.
fn shared_in<B: Allocator + Clone>(
    alloc: &B,
    tree: &Tree<B>,
    users: &[u32],
) -> Result<Option<Vec<u64, B>>, AllocError> {
    let flat = Flat::of(alloc.clone()?, tree)?;
    let Some(owners) = owners_of(alloc.clone()?, &flat, users)? else {
        return Ok(None);
    };
    match allot_by_users(alloc.clone()?, tree, users, &owners) {
        Ok((grants, _)) => Ok(Some(grants)),
        Err(UserShareFault::Memory) => Err(AllocError),
        Err(_) => Ok(None),
    }
}

/// The grants of the leaves of a tree by the users of a depth, if they are found.
fn found_by_users<A: Allocator, B: Allocator + Clone>(
    alloc: &B,
    flat: &Flat<A>,
    depth: usize,
) -> Result<Option<Vec<u64, B>>, AllocError> {
    let Some(tree) = user_tree(alloc, flat, depth)? else {
        return Ok(None);
    };
    let users = users_of(alloc.clone()?, flat, depth)?;
    shared_in(alloc, &tree, &users)
}

/// The grants of the leaves of a tree, which may be best among the users of a depth. At `MAX_DEPTH` each leaf is a user
/// of its own, and they are those without users; so they are if nothing holds a user back.
pub(crate) fn found_at<A: Allocator, B: Allocator + Clone>(
    alloc: &B,
    tree: &Tree<A>,
    flat: &Flat<B>,
    depth: usize,
) -> Result<Vec<u64, B>, AllocError> {
    if depth < MAX_DEPTH {
        if let Some(grants) = found_by_users(alloc, flat, depth)? {
            return Ok(grants);
        }
    }
    let (grants, _) = allot(alloc.clone()?, tree)?;
    Ok(grants)
}
