//! A tree with checked numbers.

ghost use Rattle.std.specs.Prelude.{◌≡◌, ◌+◌, ◌*◌, ◌<◌, ◌≤◌, ◌↔◌, [], length, slice_get, slice_index, sum, take, IsTrue, IsSome, Some, None, MatchResult, IfOk};
ghost use Rattle.std.specs.Option.{option_and_then};
ghost use Rattle.limit_tree.specs.Sharing.{sum_over, IsWanted, IsLimitTree, Branch, IsBranch, IsFull, IsDeepestFull};
ghost use Rattle.limit_tree.specs.Outline.{places, limits, leaves_under, absorbed};
ghost use Rattle.limit_tree.specs.Copies.{AreCopied};
ghost use Rattle.limit_tree.specs.Laws.{LaterIsInside};
ghost use Rattle.limit_tree.specs.Depths.{HaveDepths, LaterIsDeeper};
ghost use Rattle.limit_tree.specs.Faults.{tree_fault};
ghost use Rattle.limit_tree.specs.Flat.{IsFlat};

use super::absorb::absorb_in;
use super::bounds::{MAX_LEAVES, MAX_NODES, MAX_WANT};
use super::copy::{Copying, copy_tree};
use super::fault::{TreeFault, check_tree, floors_of};
use super::look::{FindFull, FindLeaf, FindNode};
use super::node::Node;
use super::place::{NodeKind, Place};
use super::recall::recall;
use super::size::size_of_tree;
use super::tables::leaves_into;
use super::walk::{Passed, Visitor, walk_tree};
use std::alloc::{AllocError, Allocator, Global};
use std::marker::Model;

/// A tree of limits with checked numbers. Contracts see it as its nodes in preorder (`places`), and through `limits` as
/// a limit tree.
#[derive(Drop)]
pub struct Tree<A: Allocator = Global> {
    root: Node<A>,
    nodes: usize,
    leaves: usize,
}

impl<A: Allocator> Model for Tree<A> {
    ghost use Rattle.std.specs.Prelude.{List};
    ghost use Rattle.limit_tree.specs.declared.place.Place.{Place};
    ghost use Rattle.limit_tree.specs.Outline.{places};
    ghost use Rattle.limit_tree.specs.Faults.{IsSound};

    ghost Value = { List Place };

    ghost view = { λ t. places t.root };

    ghost invariant = { λ t. IsSound (places t.root) t.nodes t.leaves };
}

const NOTHING: Passed = Passed {
    nodes: 0,
    leaves: 0,
};

impl<A: Allocator> Tree<A> {
    /// Checks the numbers of a tree. O(nodes) time, no memory. The first node in preorder with a fault decides.
    pub fn new(root: Node<A>) -> Result<Tree<A>, TreeFault>
        ensures new { MatchResult result (λ t. (t ≡ places root)
            × (tree_fault (places root) ≡ None)) (λ e. tree_fault (places root) ≡ Some e) }
    {
        let passed = check_tree(&root, 0, NOTHING)?;
        match floors_of(&root, 0).over {
            Some(branch) => Err(TreeFault::FloorsOverLimit(branch)),
            None => Ok(Tree {
                root,
                nodes: passed.nodes,
                leaves: passed.leaves,
            }),
        }
    }

    /// Number of leaves.
    pub fn leaves(&self) -> usize
        ensures leaves { result ≡ length (limits self.now).wants }
        ensures most { result ≤ MAX_LEAVES }
        ensures octets { sum (limits self.now).wants ≤ result * MAX_WANT }
        ensures limit_tree { IsLimitTree (limits self.now) }
        ensures later { LaterIsInside (limits self.now) }
    {
        self.leaves
    }

    /// Number of nodes.
    pub fn nodes(&self) -> usize
        ensures nodes { result ≡ length self.now }
        ensures most { result ≤ MAX_NODES }
    {
        self.nodes
    }

    /// The nodes of a tree have the shape and the depths of a tree, and their numbers have no fault. Of two nodes with a
    /// common leaf, the later one is deeper.
    pub fn nodes_are_a_tree(&self)
        ensures flat { IsFlat self.now }
        ensures deeper { LaterIsDeeper self.now }
        ensures depths { HaveDepths self.now }
        ensures sound { tree_fault self.now ≡ None }
    {
        recall!(self.leaves);
    }

    /// Shows a visitor each node in preorder. O(nodes * depth) time: each node is counted once for each branch above
    /// it, except in last kids.
    pub fn walk<V: Visitor>(&self, visitor: &mut V)
        requires leaves { V.leaves visitor.old ≡ length (limits self.now).wants }
        ensures same { V.leaves visitor.new ≡ V.leaves visitor.old }
        ensures saw { (start : V) → V.Saw start [] visitor.old → V.Saw start self.now visitor.new }
    {
        let size = size_of_tree(&self.root);
        let _passed = walk_tree(&self.root, size, 0, NOTHING, visitor);
    }

    /// Copies the nodes, and the wants and floors of the leaves. O(nodes) time.
    pub(crate) fn copy_into<B: Allocator>(&self, copy: &mut Copying<B>) -> Result<(), AllocError>
        requires places { copy.old.places.items ≡ [] }
        requires wants { copy.old.wants.items ≡ [] }
        requires floors { copy.old.floors.items ≡ [] }
        ensures copied { IfOk result
            (λ _. AreCopied self.now copy.new.places.items copy.new.wants.items
            copy.new.floors.items) }
    {
        let _floors = copy_tree(&self.root, 0, copy)?;
        Ok(())
    }

    /// Writes the wants and floors of the leaves, in octets, to the start of each table. O(nodes) time.
    pub fn leaves_into(&self, wants: &mut [u64], floors: &mut [u64])
        requires room { length (limits self.now).wants ≤ length wants.old }
        requires tables { length floors.old ≡ length wants.old }
        ensures wants { take (length (limits self.now).wants) wants.new ≡ (limits self.now).wants }
        ensures floors { take (length (limits self.now).wants) floors.new
            ≡ (limits self.now).floors }
        ensures size { length wants.new ≡ length wants.old }
        ensures floors_size { length floors.new ≡ length floors.old }
    {
        let _last = leaves_into(&self.root, 0, wants, floors);
    }

    /// The node with a given number.
    pub fn place(&self, node: usize) -> Place
        requires node { node < length self.now }
        ensures place { slice_get self.now node ≡ Some result }
        ensures inside { result.first + result.leaves ≤ length (limits self.now).wants }
    {
        let mut look = FindNode::new(node, self.leaves);
        self.walk(&mut look);
        match look.found {
            Some(place) => place,
            None => unreachable!(),
        }
    }

    /// The limit of a branch, if it has one.
    pub fn limit(&self, node: usize) -> Option<u64>
        requires node { node < length self.now }
        ensures limit { result ≡ option_and_then (λ b. b.limit) ((limits self.now).branch node) }
    {
        match self.place(node).kind {
            NodeKind::Branch { limit } => limit,
            NodeKind::Leaf { .. } => None,
        }
    }

    /// Returns whether the node is a branch.
    pub fn is_branch(&self, node: usize) -> bool
        requires node { node < length self.now }
        ensures branch { IsTrue result ↔ IsSome ((limits self.now).branch node) }
    {
        match self.place(node).kind {
            NodeKind::Branch { .. } => true,
            NodeKind::Leaf { .. } => false,
        }
    }

    /// Returns whether the leaf is the node itself or below it.
    pub fn under(&self, node: usize, leaf: usize) -> bool
        requires node { node < length self.now }
        ensures under { result ≡ leaves_under self.now node leaf }
        ensures branch { (b : Branch) → IsBranch (limits self.now) node b → result ≡ b.holds leaf }
    {
        self.place(node).holds(leaf)
    }

    /// The sum of the grants of the leaves under the node, in octets.
    pub fn sum_under(&self, node: usize, grants: &[u64]) -> u64
        requires node { node < length self.now }
        requires grants { IsWanted (limits self.now) grants.now }
        ensures sum { result ≡ sum_over (leaves_under self.now node) grants.now }
        ensures branch { (b : Branch) → IsBranch (limits self.now) node b
            → result ≡ sum_over b.holds grants.now }
    {
        recall!(self.leaves);
        self.place(node).sum(grants)
    }

    /// Returns whether the node is a branch whose limit is used up by the grants.
    pub fn is_full(&self, node: usize, grants: &[u64]) -> bool
        requires node { node < length self.now }
        requires grants { IsWanted (limits self.now) grants.now }
        ensures full { IsTrue result
            ↔ ((b : Branch) × IsBranch (limits self.now) node b × IsFull b grants.now) }
    {
        recall!(self.leaves);
        self.place(node).is_full(grants)
    }

    /// Octets that the node absorbs up to a level: a leaf the level, at least its floor and at most its want; a branch
    /// the sum of what its kids absorb, cut to its limit.
    pub fn absorb(&self, node: usize, level: u64) -> u64
        requires node { node < length self.now }
        ensures absorbed { result ≡ absorbed level self.now node }
        ensures most { result ≤ sum (limits self.now).wants }
    {
        recall!(self.leaves);
        match absorb_in(&self.root, node, level) {
            Ok(octets) => octets,
            Err(_) => unreachable!(),
        }
    }

    /// The deepest full branch above the leaf. O(nodes * depth) time.
    pub fn full_above(&self, leaf: usize, grants: &[u64]) -> Option<usize>
        requires leaf { leaf < length (limits self.now).wants }
        requires grants { IsWanted (limits self.now) grants.now }
        ensures deepest { IsDeepestFull (limits self.now) grants.now leaf result }
    {
        recall!(self.leaves);
        let mut look = FindFull::new(leaf, grants);
        self.walk(&mut look);
        look.found
    }

    /// The want of a leaf, in octets.
    pub fn want(&self, leaf: usize) -> u64
        requires leaf { leaf < length (limits self.now).wants }
        ensures want { result ≡ slice_index (limits self.now).wants leaf }
    {
        match self.leaf(leaf).want {
            Some(want) => want,
            None => unreachable!(),
        }
    }

    /// The floor of a leaf, in octets.
    pub fn floor(&self, leaf: usize) -> u64
        requires leaf { leaf < length (limits self.now).wants }
        ensures floor { result ≡ slice_index (limits self.now).floors leaf }
    {
        match self.leaf(leaf).floor {
            Some(floor) => floor,
            None => unreachable!(),
        }
    }

    fn leaf(&self, leaf: usize) -> FindLeaf
        ensures want { result.want ≡ slice_get (limits self.now).wants leaf }
        ensures floor { result.floor ≡ slice_get (limits self.now).floors leaf }
    {
        let mut look = FindLeaf::new(leaf, self.leaves);
        self.walk(&mut look);
        look
    }
}
