//! Leaves whose entry is the number of a bottleneck.

ghost use Rattle.limit_tree.specs.declared.bounds.TheConstants.{MAX_LEAVES};
ghost use Rattle.std.specs.Prelude.{◌≡◌, ◌+◌, ◌<◌, ◌≤◌, ◌^◌, ◌⊎◌, ◌↔◌, ℕ, Some, IsTrue, length, sum};
ghost use Rattle.grant_certificate.specs.Ranges.{IsMarked, IsHeldWithin};

use super::range::greatest;
use limit_tree::{MAX_LEAVES, Place};

/// Marks the leaves whose entry is the number of their bottleneck, and no others.
#[derive(Drop)]
pub(crate) struct BackingLook<'a> {
    pub grants: &'a [u64],
    pub floors: &'a [u64],
    pub entries: &'a [Option<u32>],
    pub marks: [bool; MAX_LEAVES],
    ghost fits: { sum grants.now < 2 ^ 64 },
    ghost few: { length grants.now ≤ MAX_LEAVES },
    ghost floored: { length floors.now ≡ length grants.now },
    ghost entered: { length entries.now ≡ length grants.now },
}

impl<'a> BackingLook<'a> {
    ghost use Rattle.std.specs.Prelude.{◌≡◌, ◌+◌, ◌<◌, ◌≤◌, ◌^◌, [], length, sum};
    ghost use Rattle.grant_certificate.specs.Looks.{SoughtBacking, SeesBacking};

    /// A search with no leaf marked.
    pub fn new(grants: &'a [u64], floors: &'a [u64], entries: &'a [Option<u32>]) -> BackingLook<'a>
        requires fits { sum grants.now < 2 ^ 64 }
        requires few { length grants.now ≤ MAX_LEAVES }
        requires floors { length floors.now ≡ length grants.now }
        requires entries { length entries.now ≡ length grants.now }
        ensures grants { result.grants.now ≡ grants.now }
        ensures floors { result.floors.now ≡ floors.now }
        ensures entries { result.entries.now ≡ entries.now }
        ensures start { SoughtBacking result [] result }
    {
        BackingLook {
            grants,
            floors,
            entries,
            marks: no_marks(),
        }
    }

    /// Visits one more node: its number, its position, and whether it is a full branch.
    pub fn see(&mut self, number: usize, place: Place, full: bool)
        requires inside { place.first + place.leaves ≤ length self.old.grants.now }
        ensures grants { self.new.grants.now ≡ self.old.grants.now }
        ensures saw { SeesBacking self.old number place full self.new }
    {
        if full {
            mark_held(
                number,
                place,
                self.grants,
                self.floors,
                self.entries,
                &mut self.marks,
            );
        }
    }
}

/// Marks the leaves of a node whose entry is its number, if no grant in the node is too great compared with
/// theirs; marks no others. O(leaves of the node) time.
fn mark_held(
    number: usize,
    place: Place,
    grants: &[u64],
    floors: &[u64],
    entries: &[Option<u32>],
    marks: &mut [bool],
)
    requires inside { place.first + place.leaves ≤ length grants.now }
    requires floors { length floors.now ≡ length grants.now }
    requires entries { length entries.now ≡ length grants.now }
    requires marks { length grants.now ≤ length marks.old }
    ensures marked { (i : ℕ) → IsMarked marks.new i
        ↔ (IsMarked marks.old i
        ⊎ IsHeldWithin number place.first place.leaves grants.now floors.now entries.now i) }
{
    let most = greatest(grants, floors, place.first, place.leaves);
    for leaf in place.first..place.first + place.leaves {
        if names(entries[leaf], number) && is_near(most, grants[leaf]) {
            marks[leaf] = true;
        }
    }
}

/// Returns whether the entry is `number`.
pub(crate) fn names(entry: Option<u32>, number: usize) -> bool
    ensures named { IsTrue result ↔ (entry ≡ Some number) }
{
    match entry {
        Some(named) => named as usize == number,
        None => false,
    }
}

/// Returns whether `most` exceeds `grant` by less than two.
fn is_near(most: u64, grant: u64) -> bool
    ensures near { IsTrue result ↔ (most < grant + 2) }
{
    most < 2 || most - 2 < grant
}

pub(crate) fn no_marks() -> [bool; MAX_LEAVES]
    ensures none { (i : ℕ) → IsMarked result i → ⊥ }
{
    [false; MAX_LEAVES]
}
