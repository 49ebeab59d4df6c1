//! Records of calls.

use std::alloc::{Allocator, Global};
use virtual_path::VPath;
use virtual_tree::StoreFault;

/// A call of a store that counts for an administrator: a change, a file opened for a transfer, or a fault of the
/// machine.
///
/// A path is `None` only if there was no memory for its copy.
#[derive(Drop)]
pub enum StoreRecord<A: Allocator = Global> {
    /// A file was opened for reading.
    OpenedToRead(Option<VPath<A>>),
    /// A file was opened for writing; this may have created or cut it.
    OpenedToWrite(Option<VPath<A>>),
    MadeDir(Option<VPath<A>>),
    RemovedDir(Option<VPath<A>>),
    RemovedFile(Option<VPath<A>>),
    /// An entry was moved from the first path to the second.
    Renamed(Option<VPath<A>>, Option<VPath<A>>),
    /// A call, whichever it was, was refused for this fault: `Device`, `Memory` or `Full`.
    Refused(StoreFault),
}
