//! Flaws of grants and of their certificates.

/// The reason for which grants or their certificate are refused. Leaves and nodes are given by number.
#[derive(Clone, Copy, Debug, PartialEq, Eq)]
pub enum Flaw {
    /// The number of grants or of entries is not the number of leaves.
    WrongLength,
    /// The leaf has more than it wants.
    OverWant { leaf: usize },
    /// The leaves of the branch have more than its limit.
    OverLimit { node: usize },
    /// The entry of the leaf is not the number of a branch.
    NoNode { leaf: usize },
    /// The branch in the entry does not contain the leaf.
    NotAbove { leaf: usize, node: usize },
    /// The branch in the entry is not full.
    NotFull { leaf: usize, node: usize },
    /// Another leaf of the branch in the entry has more than its floor, and at least two octets more
    /// than this leaf.
    TooGreat { leaf: usize, other: usize },
    /// The leaf has less than its floor.
    UnderFloor { leaf: usize },
}

/// The result of a check: the grants are within the limits and backed by their certificate, or the
/// first flaw.
#[derive(Clone, Copy, Debug, PartialEq, Eq)]
pub enum Verdict {
    Yes,
    No(Flaw),
}
