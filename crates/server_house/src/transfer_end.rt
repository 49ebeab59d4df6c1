//! The end of a transfer.

use session_table::End;

/// The end of a transfer, the sink of an upload, which is returned, and the number of octets that were moved.
#[derive(Drop)]
pub struct TransferEnd<K> {
    pub end: End,
    pub sink: Option<K>,
    pub moved: u64,
}
