//! Counted probes of what the kids of a branch absorb.

ghost use Rattle.std.specs.Prelude.{◌≡◌, ℕ, ◌+◌, ◌*◌, ◌<◌, ◌≤◌, ◌^◌, length, slice_get, sum, Option, Some};
ghost use Rattle.limit_tree.specs.Sharing.{IsLimitTree};
ghost use Rattle.limit_tree.specs.Outline.{limits};
ghost use Rattle.limit_tree.specs.Flat.{IsFlat, taken_below};
ghost use Rattle.round_allocator.specs.Levels.{IsBranchAt, upto};

use super::steps::Steps;
use limit_tree::{Flat, MAX_NODES, MAX_WANT, Place};
use std::alloc::Allocator;
use std::marker::Model;
use std::sync::ledger::Ledger;

/// A tree whose nodes can be read freely, while what the kids of a node absorb is read by a counted probe only.
#[derive(Drop)]
pub(crate) struct ProbedTree<'t, A: Allocator> {
    flat: &'t Flat<A>,
}

impl<'t, A: Allocator> Model for ProbedTree<'t, A> {
    ghost use Rattle.std.specs.Prelude.{List};
    ghost use Rattle.limit_tree.specs.declared.place.Place.{Place};

    ghost Value = { List Place };

    ghost view = { λ t. t.flat.now };
}

/// A tree that is probed.
pub(crate) fn probed<'t, A: Allocator>(flat: &'t Flat<A>) -> ProbedTree<'t, A>
    ensures tree { result ≡ flat.now }
{
    ProbedTree { flat }
}

impl<'t, A: Allocator> ProbedTree<'t, A> {
    /// The properties of the tree.
    pub fn is_flat(&self)
        ensures flat { IsFlat self.now }
        ensures few { length self.now ≤ MAX_NODES }
        ensures octets { sum (limits self.now).wants ≤ length (limits self.now).wants * MAX_WANT }
        ensures limit_tree { IsLimitTree (limits self.now) }
    {
        let _nodes = self.flat.nodes();
        let _leaves = self.flat.leaves();
    }

    /// The node with a given number.
    pub fn place(&self, node: usize) -> Place
        requires node { node < length self.now }
        ensures place { slice_get self.now node ≡ Some result }
        ensures inside { result.first + result.leaves ≤ length (limits self.now).wants }
    {
        self.flat.place(node)
    }

    /// Sum of the octets that the kids of a node absorb up to a level: one probe.
    pub fn probe<L: Ledger>(&self, node: usize, level: u64, probes: &mut Steps<L>) -> u64
        requires node { node < length self.now }
        requires room { probes.old < 2 ^ 63 }
        ensures taken { result ≡ taken_below level self.now node }
        ensures counted { probes.new ≡ probes.old + 1 }
    {
        probes.tick();
        self.flat.absorb_below(node, level)
    }

    /// Sum of the floors of the leaves of a node, in octets: what the kids of a branch absorb up to level 0. Not a
    /// probe. O(leaves below) time.
    pub fn floors(&self, node: usize) -> u64
        requires node { node < length self.now }
        ensures taken { (limit : Option ℕ) → IsBranchAt self.now node limit
            → result ≡ taken_below 0 self.now node }
    {
        let _nodes = self.flat.nodes();
        let place = self.flat.place(node);
        floor_sum(self.flat, place.first, place.leaves)
    }
}

// Sum of the floors of the `leaves` leaves from leaf `first` on.
fn floor_sum<A: Allocator>(flat: &Flat<A>, first: usize, leaves: usize) -> u64
    requires inside { first + leaves ≤ length (limits flat.now).wants }
    ensures sum { result + upto (limits flat.now).floors first
        ≡ upto (limits flat.now).floors (first + leaves) }
{
    let _nodes = flat.nodes();
    let _leaves = flat.leaves();
    let mut total = 0;
    for leaf in first..first + leaves {
        total += flat.floor(leaf);
    }
    total
}
