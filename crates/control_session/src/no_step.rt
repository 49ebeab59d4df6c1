//! Steps that were not made.

use session_table::Input;
use std::alloc::Allocator;

/// The reason for which a host made no step.
#[derive(Drop)]
pub enum NoStep<A: Allocator, K> {
    /// Memory ran out. An event of the data side is returned.
    NoMemory(Option<Input<A, K>>),
    /// In the place of a step for a line, the host ended the session. It has told the client.
    Over,
}
