//! Representation types of data connections.

/// The representation of octets on a data connection (RFC 959, section 3.1.1).
#[derive(Clone, Copy, Debug, PartialEq, Eq)]
pub enum DataType {
    /// TYPE A: text whose lines end with CR LF.
    Ascii,
    /// TYPE I: octets as they are.
    Image,
}
