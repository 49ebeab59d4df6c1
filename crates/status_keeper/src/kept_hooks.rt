//! Reports of a keeper to the handler within, beside the events.

use round_tally::HeldTally;
use server_house::{ClientSession, NoHooks, ServerHooks, TransferRecord};

/// The course of a transfer that has ended, as the last look at it found it.
#[derive(Clone, Copy)]
pub struct TransferCourse<'a> {
    /// The rounds that granted octets to it, by what held it back; none if no look saw it.
    pub rounds: HeldTally,
    /// The group of its user, if any.
    pub group: Option<&'a str>,
    /// The guarantee of its session in its direction, in octets a second; 0 for none.
    pub guaranteed: u64,
    /// The time in which it got less than nine tenths of that while a limit held it back, in microseconds.
    pub unmet: u64,
}

/// A handler within a keeper.
pub trait KeptHooks: ServerHooks {
    /// A transfer of this session has ended, of this course. Passes it on without that.
    fn on_course(
        &mut self,
        session: ClientSession,
        record: &TransferRecord<'_>,
        _course: &TransferCourse<'_>,
    ) {
        self.on_transfer(session, record);
    }

    /// Number of the lines of notes and of a transfer log that were dropped so far.
    fn lost_lines(&self) -> u64 {
        0
    }
}

impl KeptHooks for NoHooks {}
