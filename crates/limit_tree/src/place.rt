//! A node's kind and its position in the tree.

ghost use Rattle.std.specs.Prelude.{◌≡◌, ◌+◌, ◌<◌, ◌≤◌, ◌^◌, ◌↔◌, IsTrue, length, sum};
ghost use Rattle.limit_tree.specs.Sharing.{sum_over};
ghost use Rattle.limit_tree.specs.Outline.{leaf_range, IsFullPlace};

/// The kind of a node, with its own numbers.
#[derive(Clone, Copy, Debug, PartialEq, Eq)]
pub enum NodeKind {
    Branch { limit: Option<u64> },
    Leaf { want: u64, floor: u64 },
}

/// A node with its position in the tree. Nodes and leaves are numbered in preorder from 0.
#[derive(Clone, Copy, Debug, PartialEq, Eq)]
pub struct Place {
    /// Number of branches above it.
    pub depth: usize,
    /// Number of its first leaf.
    pub first: usize,
    /// Number of leaves below it; 1 for a leaf, which counts itself.
    pub leaves: usize,
    /// Number of nodes in its tree, itself included.
    pub nodes: usize,
    /// Number of kids.
    pub kids: usize,
    /// Sum of the floors of its leaves, in octets.
    pub floors: u64,
    pub kind: NodeKind,
}

impl Place {
    /// Returns whether the leaf is one of its leaves.
    pub fn holds(self, leaf: usize) -> bool
        ensures holds { result ≡ leaf_range self.first self.leaves leaf }
    {
        self.first <= leaf && leaf - self.first < self.leaves
    }

    /// Sum of the grants of its leaves, in octets. `grants` has one entry for each leaf of the
    /// whole tree.
    pub fn sum(self, grants: &[u64]) -> u64
        requires inside { self.first + self.leaves ≤ length grants.now }
        requires fits { sum grants.now < 2 ^ 64 }
        ensures sum { result ≡ sum_over (leaf_range self.first self.leaves) grants.now }
    {
        let mut total = 0;
        for leaf in self.first..self.first + self.leaves {
            total += grants[leaf];
        }
        total
    }

    /// Returns whether it is a branch whose limit is used up by its leaves. `grants` has one entry for each
    /// leaf of the whole tree.
    pub fn is_full(self, grants: &[u64]) -> bool
        requires inside { self.first + self.leaves ≤ length grants.now }
        requires fits { sum grants.now < 2 ^ 64 }
        ensures full { IsTrue result ↔ IsFullPlace self grants.now }
    {
        match self.kind {
            NodeKind::Branch { limit } => match limit {
                Some(most) => self.sum(grants) == most,
                None => false,
            },
            NodeKind::Leaf { .. } => false,
        }
    }
}
