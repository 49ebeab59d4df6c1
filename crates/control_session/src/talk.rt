//! The parts that a control session owns.

use crate::turn_fault::TurnFault;
use session_core::Session;
use session_table::Input;
use std::alloc::Allocator;

/// The parts that a control session owns, with a store's sinks `K`.
#[derive(Drop)]
pub(crate) struct Talk<A: Allocator, K> {
    pub session: Session<A>,
    /// An event of the data side that was not taken.
    pub came: Option<Input<A, K>>,
    /// The control connection is to be closed.
    pub closed: bool,
    /// The fault of a reply or of a step, if any: no reply is written then.
    pub lost: Option<TurnFault>,
}
