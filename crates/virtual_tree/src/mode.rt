//! Modes of opening a file.

/// The position in a file where written octets go.
#[derive(Clone, Copy, Debug, PartialEq, Eq)]
pub enum WriteMode {
    /// An empty file, which is created if there is none.
    New,
    /// After this number of octets; the others are cut off.
    At(u64),
    /// After all octets of the file, which is created if there is none.
    Append,
}
