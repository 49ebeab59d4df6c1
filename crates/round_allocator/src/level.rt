//! The level up to which a branch can fill its kids.

ghost use Rattle.std.specs.Prelude.{◌≡◌, ◌+◌, ◌<◌, ◌≤◌, ◌^◌, length, Some};
ghost use Rattle.limit_tree.specs.Flat.{taken_below};
ghost use Rattle.round_allocator.specs.Levels.{IsBranchAt, IsLevel, IsNarrower, IsPlan, IsLeafGrant};
ghost use Rattle.round_allocator.specs.declared.level.TheConstants.{MAX_PROBES};

use super::probe::ProbedTree;
use super::steps::Steps;
use std::alloc::Allocator;
use std::sync::ledger::Ledger;

/// Most probes of one branch: one at the level that it is handed, and, if its kids absorb too much there, 32 of a
/// binary search, since levels go up to `MAX_WANT`, which is below 2^32.
pub const MAX_PROBES: u64 = 33;

/// A level, and the octets that may be granted above it, one for each leaf.
#[derive(Clone, Copy)]
pub(crate) struct LevelShare {
    pub level: u64,
    pub spare: u64,
}

/// The share that a branch passes on to its kids, and the octets that it withholds from them.
#[derive(Clone, Copy)]
pub(crate) struct Split {
    pub share: LevelShare,
    pub kept: u64,
}

/// The grant of a leaf, and the octets still spare.
#[derive(Clone, Copy)]
pub(crate) struct LeafGrant {
    pub octets: u64,
    pub rest: u64,
}

/// Two levels: at the lower one the kids of a branch keep its limit, at the higher one they exceed it.
#[derive(Clone, Copy)]
pub(crate) struct Window {
    pub low: u64,
    pub high: u64,
    /// Octets that the kids absorb at the lower level.
    pub taken: u64,
}

// Halves a window by one probe, unless its levels are adjacent.
fn narrow<A: Allocator, L: Ledger>(
    tree: &ProbedTree<'_, A>,
    node: usize,
    most: u64,
    window: Window,
    probes: &mut Steps<L>,
) -> Window
    requires node { node < length tree.now }
    requires room { probes.old < 2 ^ 63 }
    requires order { window.low < window.high }
    requires below { window.taken ≡ taken_below window.low tree.now node }
    requires fits { window.taken ≤ most }
    requires above { most < taken_below window.high tree.now node }
    ensures narrower { IsNarrower tree.now node most window result }
    ensures counted { probes.new ≤ probes.old + 1 }
{
    if window.high - window.low <= 1 {
        return window;
    }
    let middle = window.low + (window.high - window.low) / 2;
    let taken = tree.probe(node, middle, probes);
    if taken <= most {
        Window {
            low: middle,
            high: window.high,
            taken,
        }
    } else {
        Window {
            low: window.low,
            high: middle,
            taken: window.taken,
        }
    }
}

// The greatest level below a level that is too high, and what is left of the limit there. At most 32 probes: at level 0
// the kids of the branch absorb their floors, which fit.
fn search<A: Allocator, L: Ledger>(
    tree: &ProbedTree<'_, A>,
    node: usize,
    most: u64,
    level: u64,
    probes: &mut Steps<L>,
) -> LevelShare
    requires branch { IsBranchAt tree.now node (Some most) }
    requires room { probes.old + 32 < 2 ^ 63 }
    requires level { level < 2 ^ 32 }
    requires above { most < taken_below level tree.now node }
    ensures level { IsLevel tree.now node most result }
    ensures lower { result.level < level }
    ensures counted { probes.new ≤ probes.old + 32 }
{
    tree.is_flat();
    let mut window = Window {
        low: 0,
        high: level,
        taken: tree.floors(node),
    };
    for _step in 0..32u32 {
        window = narrow(tree, node, most, window, probes);
    }
    LevelShare {
        level: window.low,
        spare: most - window.taken,
    }
}

/// The division of the spare octets above a level among the kids of a branch. At most `MAX_PROBES` probes: one if what
/// its kids absorb fits its limit, none if it has no limit.
pub(crate) fn share_out<A: Allocator, L: Ledger>(
    tree: &ProbedTree<'_, A>,
    node: usize,
    limit: Option<u64>,
    share: LevelShare,
    probes: &mut Steps<L>,
) -> Split
    requires branch { IsBranchAt tree.now node limit }
    requires room { probes.old + MAX_PROBES < 2 ^ 63 }
    requires level { share.level < 2 ^ 32 }
    ensures shared { IsPlan tree.now node limit share result }
    ensures counted { probes.new ≤ probes.old + MAX_PROBES }
{
    let Some(most) = limit else {
        return Split { share, kept: 0 };
    };
    let taken = tree.probe(node, share.level, probes);
    if taken <= most {
        let spare = share.spare.min(most - taken);
        return Split {
            share: LevelShare {
                level: share.level,
                spare,
            },
            kept: share.spare - spare,
        };
    }
    Split {
        share: search(tree, node, most, share.level, probes),
        kept: share.spare,
    }
}

/// The grant of a leaf up to a level, in octets, with one octet more if there are spare octets and the leaf has room.
pub(crate) fn leaf_grant(want: u64, floor: u64, share: LevelShare) -> LeafGrant
    requires floor { floor ≤ want }
    requires level { share.level < 2 ^ 32 }
    ensures grant { IsLeafGrant want floor share result.octets result.rest }
{
    if share.spare > 0 && floor <= share.level && share.level < want {
        return LeafGrant {
            octets: share.level + 1,
            rest: share.spare - 1,
        };
    }
    LeafGrant {
        octets: share.level.max(floor).min(want),
        rest: share.spare,
    }
}
