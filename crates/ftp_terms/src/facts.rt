//! The facts that a listing shows of an entry.

/// A set of facts, such as those enabled for a session (RFC 3659, sections 7.5 and 7.9).
#[derive(Clone, Copy, Debug, PartialEq, Eq)]
pub struct Facts {
    /// `type`: file or directory.
    pub kind: bool,
    /// `size`: octets of a file.
    pub size: bool,
    /// `modify`: the moment of the last change.
    pub modify: bool,
    /// `perm`: the operations that are permitted on the entry.
    pub perm: bool,
}

impl Facts {
    /// No facts.
    pub const NONE: Facts = Facts {
        kind: false,
        size: false,
        modify: false,
        perm: false,
    };

    /// All four facts, which are enabled initially.
    pub const ALL: Facts = Facts {
        kind: true,
        size: true,
        modify: true,
        perm: true,
    };
}
