//! Searches of branches in one walk.

ghost use Rattle.limit_tree.specs.declared.bounds.TheConstants.{MAX_LEAVES};
ghost use Rattle.std.specs.Prelude.{◌≡◌, ◌<◌, ◌≤◌, ◌^◌, length, sum};
ghost use Rattle.limit_tree.specs.Outline.{limits};
ghost use Rattle.grant_certificate.specs.Flaws.{IsFirstOver};
ghost use Rattle.grant_certificate.specs.Ranges.{AreHeld};

use super::backing::BackingLook;
use super::over::FindOverLimit;
use limit_tree::{MAX_LEAVES, Place, Tree, Visitor};
use std::alloc::Allocator;

/// Searches for the first branch above its limit, and marks the leaves whose entry is the number of
/// their bottleneck.
#[derive(Drop)]
struct BranchLook<'a> {
    over: FindOverLimit<'a>,
    backing: BackingLook<'a>,
    ghost same: { over.grants.now ≡ backing.grants.now },
}

impl<'a> Visitor for BranchLook<'a> {
    ghost use Rattle.std.specs.Prelude.{length};
    ghost use Rattle.grant_certificate.specs.Looks.{SoughtBranches};

    ghost leaves = { λ s. length s.over.grants.now };

    ghost Saw = { SoughtBranches };

    fn visit(&mut self, number: usize, place: Place) {
        let load = self.over.load(place);
        self.over.see(number, load.over);
        self.backing.see(number, place, load.full);
    }
}

/// The results of one walk over the branches.
#[derive(Drop)]
pub(crate) struct Branches {
    /// The first branch whose leaves have more than its limit.
    pub over: Option<usize>,
    /// Marks of leaves: set if the leaf's entry is the number of its bottleneck.
    pub backed: [bool; MAX_LEAVES],
}

/// Examines the branches in one walk.
pub(crate) fn look_at_branches<A: Allocator>(
    tree: &Tree<A>,
    grants: &[u64],
    floors: &[u64],
    entries: &[Option<u32>],
) -> Branches
    requires leaves { length (limits tree.now).wants ≡ length grants.now }
    requires few { length grants.now ≤ MAX_LEAVES }
    requires fits { sum grants.now < 2 ^ 64 }
    requires floors { length floors.now ≡ length grants.now }
    requires entries { length entries.now ≡ length grants.now }
    ensures over { IsFirstOver (limits tree.now) grants.now result.over }
    ensures held { AreHeld (limits tree.now) grants.now floors.now entries.now result.backed }
{
    let mut look = BranchLook {
        over: FindOverLimit::new(grants),
        backing: BackingLook::new(grants, floors, entries),
    };
    tree.walk(&mut look);
    Branches {
        over: look.over.found,
        backed: look.backing.marks,
    }
}
