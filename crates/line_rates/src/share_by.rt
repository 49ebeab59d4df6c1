//! Among whom a line is shared.

/// Among whom is shared what guarantees and limits leave over.
#[derive(Clone, Copy, Debug, PartialEq, Eq)]
pub enum ShareBy {
    /// Among the sessions that transfer.
    Sessions,
    /// Among the users first, and then among the sessions of each.
    Users,
}
