//! The parts of a report.

use crate::adding::Sums;
use crate::ask::UsageAsk;
use crate::look::LogLook;
use crate::rank::UsageRow;

/// A log, and what was seen of it.
#[derive(Clone, Copy, Debug, PartialEq, Eq)]
pub struct LogSeen<'p> {
    pub path: &'p str,
    pub look: LogLook,
}

/// A report, before it has a form.
#[derive(Clone, Copy)]
pub struct Report<'r> {
    pub ask: UsageAsk,
    /// The rows that are shown, in their order.
    pub shown: &'r [UsageRow<'r>],
    /// The number of all rows.
    pub in_all: usize,
    /// The sums of all transfers.
    pub total: Sums,
    /// The logs, in their order.
    pub logs: &'r [LogSeen<'r>],
}
