//! Visitors that search for one node.

ghost use Rattle.std.specs.Prelude.{◌≡◌, ◌+◌, ◌<◌, ◌≤◌, ◌^◌, ◌↔◌, IsTrue, length, sum};
ghost use Rattle.limit_tree.specs.Outline.{IsFullOver};

use super::place::{NodeKind, Place};
use super::walk::Visitor;

/// Searches for the node with a given number.
#[derive(Clone, Copy)]
pub(crate) struct FindNode {
    pub number: usize,
    pub leaves: usize,
    pub found: Option<Place>,
}

impl FindNode {
    ghost use Rattle.std.specs.Prelude.{◌≡◌, []};
    ghost use Rattle.limit_tree.specs.Looks.{SoughtNode};

    /// A search for node `number` in a tree of `leaves` leaves.
    pub fn new(number: usize, leaves: usize) -> FindNode
        ensures number { result.number ≡ number }
        ensures leaves { result.leaves ≡ leaves }
        ensures start { SoughtNode result [] result }
    {
        FindNode {
            number,
            leaves,
            found: None,
        }
    }
}

impl Visitor for FindNode {
    ghost use Rattle.limit_tree.specs.Looks.{SoughtNode};

    ghost leaves = { λ s. s.leaves };

    ghost Saw = { SoughtNode };

    fn visit(&mut self, number: usize, place: Place) {
        if number == self.number {
            self.found = Some(place);
        }
    }
}

/// Searches for the want and the floor of a leaf.
#[derive(Clone, Copy)]
pub(crate) struct FindLeaf {
    pub leaf: usize,
    pub leaves: usize,
    pub want: Option<u64>,
    pub floor: Option<u64>,
}

impl FindLeaf {
    ghost use Rattle.std.specs.Prelude.{◌≡◌, []};
    ghost use Rattle.limit_tree.specs.Looks.{SoughtLeaf};

    /// A search for a leaf in a tree of `leaves` leaves.
    pub fn new(leaf: usize, leaves: usize) -> FindLeaf
        ensures leaf { result.leaf ≡ leaf }
        ensures leaves { result.leaves ≡ leaves }
        ensures start { SoughtLeaf result [] result }
    {
        FindLeaf {
            leaf,
            leaves,
            want: None,
            floor: None,
        }
    }
}

impl Visitor for FindLeaf {
    ghost use Rattle.limit_tree.specs.Looks.{SoughtLeaf};

    ghost leaves = { λ s. s.leaves };

    ghost Saw = { SoughtLeaf };

    fn visit(&mut self, _number: usize, place: Place) {
        match place.kind {
            NodeKind::Leaf { want, floor } => {
                if place.first == self.leaf {
                    self.want = Some(want);
                    self.floor = Some(floor);
                }
            }
            NodeKind::Branch { .. } => {}
        }
    }
}

/// Searches for the last full branch above a leaf.
#[derive(Drop)]
pub(crate) struct FindFull<'a> {
    pub leaf: usize,
    pub grants: &'a [u64],
    pub found: Option<usize>,
    ghost fits: { sum grants.now < 2 ^ 63 },
}

impl<'a> FindFull<'a> {
    ghost use Rattle.std.specs.Prelude.{◌≡◌, ◌<◌, ◌^◌, [], sum};
    ghost use Rattle.limit_tree.specs.Looks.{SoughtFull};

    /// A search above a leaf, with the grants of all leaves.
    pub fn new(leaf: usize, grants: &'a [u64]) -> FindFull<'a>
        requires fits { sum grants.now < 2 ^ 63 }
        ensures leaf { result.leaf ≡ leaf }
        ensures grants { result.grants.now ≡ grants.now }
        ensures start { SoughtFull result [] result }
    {
        FindFull {
            leaf,
            grants,
            found: None,
        }
    }
}

impl<'a> Visitor for FindFull<'a> {
    ghost use Rattle.std.specs.Prelude.{length};
    ghost use Rattle.limit_tree.specs.Looks.{SoughtFull};

    ghost leaves = { λ s. length s.grants.now };

    ghost Saw = { SoughtFull };

    fn visit(&mut self, number: usize, place: Place) {
        if is_full_over(place, self.grants, self.leaf) {
            self.found = Some(number);
        }
    }
}

/// Returns whether the node is a full branch that holds the leaf.
pub(crate) fn is_full_over(place: Place, grants: &[u64], leaf: usize) -> bool
    requires inside { place.first + place.leaves ≤ length grants.now }
    requires fits { sum grants.now < 2 ^ 64 }
    ensures full { IsTrue result ↔ IsFullOver place grants.now leaf }
{
    place.holds(leaf) && place.is_full(grants)
}
