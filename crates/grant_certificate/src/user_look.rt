//! Leaves whose entry is the number of a bottleneck within their user or among users.

ghost use Rattle.limit_tree.specs.declared.bounds.TheConstants.{MAX_LEAVES};
ghost use Rattle.std.specs.Prelude.{◌≡◌, ◌+◌, ◌≤◌, ◌⊎◌, ◌↔◌, ℕ, length};
ghost use Rattle.limit_tree.specs.Outline.{limits};
ghost use Rattle.grant_certificate.specs.Ranges.{IsMarked};
ghost use Rattle.grant_certificate.specs.UserNecks.{AreNecks, IsNeckWithin};

use super::backing::{names, no_marks};
use super::by_users::{UserGrants, holds_back};
use limit_tree::{MAX_LEAVES, Place, Tree, Visitor};
use std::alloc::Allocator;

/// Marks the leaves whose entry is the number of their bottleneck, and no others.
#[derive(Drop)]
pub(crate) struct UserLook<'a> {
    pub of: UserGrants<'a>,
    pub entries: &'a [Option<u32>],
    pub marks: [bool; MAX_LEAVES],
    ghost few: { length of.grants.now ≤ MAX_LEAVES },
    ghost entered: { length entries.now ≡ length of.grants.now },
}

impl<'a> Visitor for UserLook<'a> {
    ghost use Rattle.std.specs.Prelude.{length};
    ghost use Rattle.grant_certificate.specs.UserLooks.{SoughtNecks};

    ghost leaves = { λ s. length s.of.grants.now };

    ghost Saw = { SoughtNecks };

    fn visit(&mut self, number: usize, place: Place) {
        if place.is_full(self.of.grants) {
            mark_necks(number, place, self.of, self.entries, &mut self.marks);
        }
    }
}

/// Marks the leaves of a node that it holds back and whose entry is its number; marks no others.
fn mark_necks(
    number: usize,
    place: Place,
    of: UserGrants<'_>,
    entries: &[Option<u32>],
    marks: &mut [bool],
)
    requires inside { place.first + place.leaves ≤ length of.grants.now }
    requires entries { length entries.now ≡ length of.grants.now }
    requires marks { length of.grants.now ≤ length marks.old }
    ensures marked { (i : ℕ) → IsMarked marks.new i
        ↔ (IsMarked marks.old i
        ⊎ IsNeckWithin number place.first place.leaves of.entry.owners.now of.entry.grants.now
        of.entry.floors.now entries.now i) }
{
    for leaf in place.first..place.first + place.leaves {
        if names(entries[leaf], number) && holds_back(of, place, leaf) {
            marks[leaf] = true;
        }
    }
}

/// Marks the leaves with a bottleneck in one walk over the branches.
pub(crate) fn look_at_necks<A: Allocator>(
    tree: &Tree<A>,
    of: UserGrants<'_>,
    entries: &[Option<u32>],
) -> [bool; MAX_LEAVES]
    requires leaves { length (limits tree.now).wants ≡ length of.grants.now }
    requires few { length of.grants.now ≤ MAX_LEAVES }
    requires entries { length entries.now ≡ length of.grants.now }
    ensures necks { AreNecks tree.now of.entry.owners.now of.entry.grants.now of.entry.floors.now
        entries.now result }
{
    let mut look = UserLook {
        of,
        entries,
        marks: no_marks(),
    };
    tree.walk(&mut look);
    look.marks
}
