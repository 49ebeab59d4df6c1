//! Bounds of a tree's numbers.

/// Largest depth of a node; the root is at depth 0.
pub const MAX_DEPTH: usize = 16;

/// Most nodes in a tree.
pub const MAX_NODES: usize = 4_194_304;

/// Most leaves in a tree.
pub const MAX_LEAVES: usize = 4_096;

/// The largest want, in octets.
pub const MAX_WANT: u64 = 4_294_967_295;

/// The largest limit, in octets.
pub const MAX_LIMIT: u64 = 4_503_599_627_370_496;
