//! Metadata of a directory entry.

ghost use Rattle.std.specs.Prelude.{◌≤◌};
ghost use Rattle.ftp_terms.specs.declared.entries.TheConstants.{LATEST};

/// The last second of the year 9999, in seconds since 1970: the latest one that a listing can show
/// (RFC 3659, section 2.3, gives a year four digits).
pub const LATEST: u64 = 253_402_300_799;

/// The kind of an entry.
#[derive(Clone, Copy, Debug, PartialEq, Eq)]
pub enum EntryKind {
    Directory,
    File,
}

/// The metadata of an entry.
#[derive(Clone, Copy, Debug, PartialEq, Eq)]
pub struct Meta {
    pub kind: EntryKind,
    /// Size in octets; 0 for a directory.
    pub size: u64,
    /// The moment of its last change, in whole seconds since 1970.
    pub modified: u64,
    pub ghost can_be_shown: { modified ≤ LATEST },
}

impl Meta {
    ghost use Rattle.std.specs.Prelude.{◌≡◌};
    ghost use Rattle.ftp_terms.specs.Entries.{entry_meta};

    /// The metadata of an entry last changed at that second. A second after [`LATEST`] is stored as
    /// `LATEST`.
    pub fn new(kind: EntryKind, size: u64, seconds: u64) -> Meta
        ensures meta { result ≡ entry_meta kind size seconds }
    {
        Meta {
            kind,
            size,
            modified: seconds.min(LATEST),
        }
    }
}
