//! A tree as an array of nodes in preorder, without pointers.

ghost use Rattle.std.specs.Prelude.{◌≡◌, ◌+◌, ◌*◌, ◌<◌, ◌≤◌, ◌↔◌, ℕ, length, slice_get, slice_index, sum, IsTrue, Some, IfOk};
ghost use Rattle.std.specs.Option.{option_and_then};
ghost use Rattle.limit_tree.specs.Sharing.{IsWanted, IsLimitTree, Branch, IsBranch, IsFull};
ghost use Rattle.limit_tree.specs.Outline.{limits, leaves_under, absorbed};
ghost use Rattle.limit_tree.specs.Laws.{LaterIsInside};
ghost use Rattle.limit_tree.specs.Flat.{taken_in, taken_below, IsRow, IsFlat};

use super::absorb::at_most;
use super::bounds::{MAX_LEAVES, MAX_NODES, MAX_WANT};
use super::copy::Copying;
use super::place::{NodeKind, Place};
use super::recall::recall;
use super::tree::Tree;
use std::alloc::{AllocError, Allocator, Global};
use std::marker::Model;

/// A tree as arrays: its nodes in preorder, each with its end and its limit, or its want and floor; and the wants
/// and floors by leaf. Contracts see it as its list of nodes, as they see the `Tree` it was made of.
#[derive(Drop)]
pub struct Flat<A: Allocator = Global> {
    places: Vec<Place, A>,
    wants: Vec<u64, A>,
    floors: Vec<u64, A>,
}

impl<A: Allocator> Model for Flat<A> {
    ghost use Rattle.std.specs.Prelude.{List};
    ghost use Rattle.limit_tree.specs.declared.place.Place.{Place};
    ghost use Rattle.limit_tree.specs.Copies.{IsKept};

    ghost Value = { List Place };

    ghost view = { λ f. f.places.items };

    ghost invariant = { λ f. IsKept f.places.items f.wants.items f.floors.items };
}

impl<A: Allocator> Flat<A> {
    /// Copies the nodes of a tree. Three allocations, O(nodes) time. Returns `AllocError` only if memory runs
    /// out.
    pub fn of<B: Allocator>(alloc: A, tree: &Tree<B>) -> Result<Flat<A>, AllocError>
    where
        A: Clone,
        ensures of { IfOk result (λ f. f ≡ tree.now) }
    {
        let leaves = tree.leaves();
        tree.nodes_are_a_tree();
        let mut copy = Copying {
            places: Vec::with_capacity(alloc.clone()?, tree.nodes())?,
            wants: Vec::with_capacity(alloc.clone()?, leaves)?,
            floors: Vec::with_capacity(alloc, leaves)?,
        };
        tree.copy_into(&mut copy)?;
        let Copying {
            places,
            wants,
            floors,
        } = copy;
        Ok(Flat {
            places,
            wants,
            floors,
        })
    }

    /// Number of leaves.
    pub fn leaves(&self) -> usize
        ensures leaves { result ≡ length (limits self.now).wants }
        ensures most { result ≤ MAX_LEAVES }
        ensures octets { sum (limits self.now).wants ≤ result * MAX_WANT }
        ensures limit_tree { IsLimitTree (limits self.now) }
        ensures later { LaterIsInside (limits self.now) }
    {
        self.wants.len()
    }

    /// Number of nodes.
    pub fn nodes(&self) -> usize
        ensures nodes { result ≡ length self.now }
        ensures most { result ≤ MAX_NODES }
        ensures flat { IsFlat self.now }
    {
        self.places.len()
    }

    /// The node with a given number.
    pub fn place(&self, node: usize) -> Place
        requires node { node < length self.now }
        ensures place { slice_get self.now node ≡ Some result }
        ensures inside { result.first + result.leaves ≤ length (limits self.now).wants }
    {
        place_at(&self.places, node)
    }

    /// The limit of a branch, if it has one.
    pub fn limit(&self, node: usize) -> Option<u64>
        requires node { node < length self.now }
        ensures limit { result ≡ option_and_then (λ b. b.limit) ((limits self.now).branch node) }
    {
        match self.place(node).kind {
            NodeKind::Branch { limit } => limit,
            NodeKind::Leaf { .. } => None,
        }
    }

    /// Returns whether the leaf is the node itself or below it.
    pub fn under(&self, node: usize, leaf: usize) -> bool
        requires node { node < length self.now }
        ensures under { result ≡ leaves_under self.now node leaf }
        ensures branch { (b : Branch) → IsBranch (limits self.now) node b → result ≡ b.holds leaf }
    {
        self.place(node).holds(leaf)
    }

    /// Returns whether the node is a branch whose limit is used up by the grants. O(leaves below) time.
    pub fn is_full(&self, node: usize, grants: &[u64]) -> bool
        requires node { node < length self.now }
        requires grants { IsWanted (limits self.now) grants.now }
        ensures full { IsTrue result
            ↔ ((b : Branch) × IsBranch (limits self.now) node b × IsFull b grants.now) }
    {
        recall!(self.places);
        self.place(node).is_full(grants)
    }

    /// The want of a leaf, in octets.
    pub fn want(&self, leaf: usize) -> u64
        requires leaf { leaf < length (limits self.now).wants }
        ensures want { result ≡ slice_index (limits self.now).wants leaf }
    {
        self.wants[leaf]
    }

    /// The floor of a leaf, in octets.
    pub fn floor(&self, leaf: usize) -> u64
        requires leaf { leaf < length (limits self.now).wants }
        ensures floor { result ≡ slice_index (limits self.now).floors leaf }
    {
        self.floors[leaf]
    }

    /// Octets that the node absorbs up to a level: a leaf the level, at least its floor and at most its want; a
    /// branch the sum of what its kids absorb, cut to its limit. O(nodes below) time.
    pub fn absorb(&self, node: usize, level: u64) -> u64
        requires node { node < length self.now }
        ensures absorbed { result ≡ absorbed level self.now node }
        ensures most { result ≤ sum (limits self.now).wants }
    {
        let _leaves = self.leaves();
        let place = self.place(node);
        absorb_row(&self.places, node, 1, place.first + place.leaves, level)
    }

    /// Sum of what the kids of a node absorb up to a level, in octets. O(nodes below) time.
    pub fn absorb_below(&self, node: usize, level: u64) -> u64
        requires node { node < length self.now }
        ensures absorbed { result ≡ taken_below level self.now node }
        ensures most { result ≤ sum (limits self.now).wants }
    {
        let _leaves = self.leaves();
        let place = self.place(node);
        let past = place.first + place.leaves;
        match place.kind {
            NodeKind::Branch { .. } => absorb_row(&self.places, node + 1, place.kids, past, level),
            NodeKind::Leaf { .. } => 0,
        }
    }
}

fn place_at(places: &[Place], node: usize) -> Place
    requires node { node < length places.now }
    ensures place { slice_get places.now node ≡ Some result }
{
    places[node]
}

// Sum of what `trees` trees side by side absorb up to a level; the first of them is node `first`, and the leaf after
// their last one is leaf `past`.
fn absorb_row(places: &[Place], first: usize, trees: usize, past: usize, level: u64) -> u64
    requires flat { IsFlat places.now }
    requires row { (begin : ℕ) × (last : ℕ) × IsRow places.now first begin trees last past }
    ensures absorbed { result ≡ taken_in level places.now first trees }
{
    let mut node = first;
    let mut total = 0;
    for _tree in 0..trees {
        let place = place_at(places, node);
        // (most nodes of a large sheet may be limits with no want below, after those that have one)
        if place.first >= past {
            return total;
        }
        total += match place.kind {
            NodeKind::Leaf { want, floor } => level.max(floor).min(want),
            // (and no kid of such a node is examined)
            NodeKind::Branch { .. } if place.leaves == 0 => 0,
            NodeKind::Branch { limit } => {
                let end = place.first + place.leaves;
                let below = absorb_row(places, node + 1, place.kids, end, level);
                at_most(limit, below)
            }
        };
        node += place.nodes;
    }
    total
}
