//! Limits of one want alone.

ghost use Rattle.std.specs.Prelude.{◌≡◌, ◌+◌, ◌<◌, ℕ, None, Some, IfOk, OnSome, length, slice_index_or, take};
ghost use Rattle.limit_tree.specs.Outline.{limits};
ghost use Rattle.sheet_commands.specs.Columns.{HasLids, limit_alone, tighter};

use limit_tree::{Flat, NodeKind, Place};
use std::alloc::{AllocError, Allocator};

/// The lower of a limit, if there is one, and another.
fn tighter(limit: Option<u64>, other: u64) -> Option<u64>
    ensures lower { result ≡ tighter limit (Some other) }
{
    match limit {
        Some(most) => Some(most.min(other)),
        None => Some(other),
    }
}

/// The limit of a branch that holds one leaf alone.
fn limit_alone(place: Place) -> Option<u64>
    ensures limit { result ≡ limit_alone place }
    ensures alone { OnSome result (place.leaves ≡ 1) }
{
    if place.leaves != 1 {
        return None;
    }
    match place.kind {
        NodeKind::Branch { limit } => limit,
        NodeKind::Leaf { .. } => None,
    }
}

/// The limits of single leaves among the first nodes, after one more node.
fn note_lid<A: Allocator>(flat: &Flat<A>, node: usize, lids: &mut [Option<u64>])
    requires node { node < length flat.now }
    requires size { length lids.old ≡ length (limits flat.now).wants }
    requires lids { HasLids (take node flat.now) lids.old }
    ensures size { length lids.new ≡ length lids.old }
    ensures lids { HasLids (take (node + 1) flat.now) lids.new }
{
    let place = flat.place(node);
    if let Some(most) = limit_alone(place) {
        lids[place.first] = tighter(lids[place.first], most);
    }
}

fn no_lids<A: Allocator>(alloc: A, leaves: usize) -> Result<Vec<Option<u64>, A>, AllocError>
    ensures size { IfOk result (λ v. length v.items ≡ leaves) }
    ensures none { IfOk result
        (λ v. (leaf : ℕ) → leaf < leaves → slice_index_or v.items leaf None ≡ None) }
{
    vec![in alloc; None; leaves]
}

/// For each leaf, the least limit of the branches that hold it alone. O(nodes) time.
pub(crate) fn lids_of<A: Allocator, B: Allocator>(
    alloc: B,
    flat: &Flat<A>,
) -> Result<Vec<Option<u64>, B>, AllocError>
    ensures size { IfOk result (λ v. length v.items ≡ length (limits flat.now).wants) }
    ensures lids { IfOk result (λ v. HasLids flat.now v.items) }
{
    let mut lids = no_lids(alloc, flat.leaves())?;
    for node in 0..flat.nodes() {
        note_lid(flat, node, &mut lids);
    }
    Ok(lids)
}
