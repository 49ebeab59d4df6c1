//! Grants by levels, in one pass over the nodes in preorder.

ghost use Rattle.std.specs.Prelude.{◌≡◌, ◌+◌, ◌*◌, ◌<◌, ◌≤◌, ◌^◌, ℕ, length, take, sum, IfOk};
ghost use Rattle.limit_tree.specs.Sharing.{IsWithin};
ghost use Rattle.limit_tree.specs.Outline.{limits};
ghost use Rattle.limit_tree.specs.Flat.{IsRow, HasRow};
ghost use Rattle.round_allocator.specs.Rounds.{HasBottlenecks};
ghost use Rattle.round_allocator.specs.Order.{GivesInOrder};
ghost use Rattle.round_allocator.specs.Levels.{IsPouring, AreAhead, branch_count};
ghost use Rattle.round_allocator.specs.declared.level.TheConstants.{MAX_PROBES};

use super::level::{LevelShare, leaf_grant, share_out};
use super::probe::{ProbedTree, probed};
use super::steps::Steps;
use limit_tree::{Flat, MAX_WANT, NodeKind};
use std::alloc::{AllocError, Allocator};
use std::sync::ledger::Ledger;

// Grants the leaves of trees side by side, from node `at` on, what they absorb up to a level, and one spare
// octet each to leaves with room, the lowest leaf number first. Returns the octets still spare.
fn fill<A: Allocator, L: Ledger>(
    tree: &ProbedTree<'_, A>,
    first: usize,
    trees: usize,
    share: LevelShare,
    grants: &mut [u64],
    probes: &mut Steps<L>,
) -> u64
    requires row { HasRow tree.now first trees }
    requires level { share.level < 2 ^ 32 }
    requires spare { share.spare ≤ sum (limits tree.now).wants }
    requires grants { length grants.old ≡ length (limits tree.now).wants }
    requires counted { probes.old ≤ MAX_PROBES * branch_count (take first tree.now) }
    ensures poured { (begin last past : ℕ) → IsRow tree.now first begin trees last past
        → IsPouring tree.now first trees begin share grants.old last 0 past result grants.new }
    ensures ahead { (begin last past : ℕ) → IsRow tree.now first begin trees last past
        → AreAhead tree.now grants.new begin past }
    ensures size { length grants.new ≡ length grants.old }
    ensures counted { (begin last past : ℕ) → IsRow tree.now first begin trees last past
        → probes.new ≤ MAX_PROBES * branch_count (take last tree.now) }
{
    tree.is_flat();
    let mut node = first;
    let mut left = share.spare;
    for _tree in 0..trees {
        let place = tree.place(node);
        let here = LevelShare {
            level: share.level,
            spare: left,
        };
        match place.kind {
            NodeKind::Leaf { want, floor } => {
                let grant = leaf_grant(want, floor, here);
                grants[place.first] = grant.octets;
                left = grant.rest;
            }
            NodeKind::Branch { limit } => {
                let plan = share_out(tree, node, limit, here, probes);
                let rest = fill(tree, node + 1, place.kids, plan.share, grants, probes);
                left = plan.kept + rest;
            }
        }
        node += place.nodes;
    }
    left
}

// A list of zero grants, one for each leaf.
fn zeros<B: Allocator>(alloc: B, leaves: usize) -> Result<Vec<u64, B>, AllocError>
    ensures leaves { IfOk result (λ g. length g.items ≡ leaves) }
{
    vec![in alloc; 0; leaves]
}

/// The grants of the leaves of a tree, in octets, by the levels of its branches. One allocation, O(nodes *
/// depth) time for each of at most `MAX_PROBES` probes. Returns `AllocError` only if memory runs out.
pub(crate) fn give<A: Allocator, B: Allocator, L: Ledger>(
    alloc: B,
    flat: &Flat<A>,
    probes: &mut Steps<L>,
) -> Result<Vec<u64, B>, AllocError>
    requires none { probes.old ≡ 0 }
    ensures within { IfOk result (λ g. IsWithin (limits flat.now) g.items) }
    ensures bottlenecks { IfOk result (λ g. HasBottlenecks (limits flat.now) g.items) }
    ensures order { IfOk result (λ g. GivesInOrder (limits flat.now) g.items) }
    ensures counted { probes.new ≤ MAX_PROBES * branch_count flat.now }
{
    let leaves = flat.leaves();
    let _nodes = flat.nodes();
    let mut grants = zeros(alloc, leaves)?;
    let tree = probed(flat);
    let top = LevelShare {
        level: MAX_WANT,
        spare: 0,
    };
    let _left = fill(&tree, 0, 1, top, &mut grants, probes);
    Ok(grants)
}
