//! A handler that writes a note of each event.

use crate::courses::CourseText;
use crate::levels::{
    level_of_cause, level_of_event, level_of_refusal, level_of_server, level_of_session,
};
use crate::moment::{second_of, seconds_of};
use crate::stamp::Stamp;
use crate::stores::{ChangeText, level_of_record, path_in, path_to, record_words};
use crate::transfers::{TransferText, file_transfer};
use crate::words::{
    CauseText, DeclinedText, ServerText, SessionHead, SessionText, UnguaranteedText, note_of,
    refusal_words,
};
use line_queue::LogForm;
use log::{Level, Log, log};
use server_house::{
    BegunTransfer, ClientSession, DeclinedCommand, NotEnded, NotServed, Reloaded, ServerEvent,
    ServerHooks, ServerLook, SessionEvent, StoreNote, TransferRecord, UnguaranteedLogin,
};
use session_table::HookCall;
use status_keeper::{KeptHooks, TransferCourse};
use std::alloc::Global;
use std::net::Ipv4Addr;
use std::time::Clock;
use transfer_log::FileTransfer;

/// A log of files that were sent or received.
pub trait TransferLog {
    /// Appends a transfer that has ended.
    fn append(&self, transfer: &FileTransfer<'_>);

    /// Number of its lines, and of the notes, that were dropped so far.
    fn lost_lines(&self) -> u64 {
        0
    }
}

/// Writes each event with its time, in UTC, with the peer's address and the number of the session. Refusals and
/// faults are warnings.
#[derive(Drop)]
pub struct Notes<L, T> {
    log: L,
    transfers: T,
    form: LogForm,
}

impl<L: Log + Clock, T: TransferLog> Notes<L, T> {
    /// Notes written to this log, whose lines have this form; files that were sent or received go to the transfer log
    /// too.
    pub fn new(log: L, form: LogForm, transfers: T) -> Notes<L, T> {
        Notes {
            log,
            transfers,
            form,
        }
    }

    fn stamp(&self) -> Stamp {
        Stamp::new(self.form, second_of(self.log.since_1970()))
    }

    // Appends a transfer of a file that has ended to the transfer log.
    fn log_transfer(&self, record: &TransferRecord<'_>, session: ClientSession) {
        let ended = seconds_of(self.log.since_1970());
        if let Some(transfer) = file_transfer(session, record, ended) {
            self.transfers.append(&transfer);
        }
    }

    // Notes what a configuration changes, which are the lines of a text that are not empty, if it is known.
    fn note_changes(&self, changes: Option<&str>) {
        let Some(changes) = changes else {
            return;
        };
        for line in changes.lines() {
            if !line.is_empty() {
                let stamp = self.stamp();
                log!(self.log; target: "", Level::Info, "{stamp}configuration: {line}");
            }
        }
    }

    /// Notes the warnings of a configuration, which are the lines of a text.
    pub fn note_warnings(&self, texts: &str) {
        for line in texts.lines() {
            let stamp = self.stamp();
            log!(self.log; target: "", Level::Warn, "{stamp}configuration: {line}");
        }
    }
}

impl<L: Log + Clock + Drop, T: TransferLog + Drop> ServerHooks for Notes<L, T> {
    // The record of a file's transfer has more than its event (`on_transfer`).
    fn on_call(&mut self, session: ClientSession, call: &HookCall<Global>) {
        if let Some(text) = note_of(call) {
            let stamp = self.stamp();
            let head = SessionHead(session);
            let level = level_of_event(text.event);
            log!(self.log; target: "", level, "{stamp}{head} {text}");
        }
    }

    fn on_session(&mut self, session: ClientSession, event: SessionEvent) {
        let stamp = self.stamp();
        let head = SessionHead(session);
        let level = level_of_session(event);
        let text = SessionText(event);
        log!(self.log; target: "", level, "{stamp}{head} {text}");
    }

    fn on_declined(&mut self, session: ClientSession, command: &DeclinedCommand<'_>) {
        let stamp = self.stamp();
        let head = SessionHead(session);
        let text = DeclinedText(*command);
        log!(self.log; target: "", Level::Debug, "{stamp}{head} {text}");
    }

    fn on_unguaranteed(&mut self, session: ClientSession, login: &UnguaranteedLogin<'_>) {
        let stamp = self.stamp();
        let head = SessionHead(session);
        let text = UnguaranteedText(*login);
        log!(self.log; target: "", Level::Warn, "{stamp}{head} {text}");
    }

    fn on_refused(&mut self, peer: [u8; 4], why: NotServed) {
        let stamp = self.stamp();
        let peer = Ipv4Addr::from(peer);
        let level = level_of_refusal(why);
        let why = refusal_words(why);
        log!(self.log; target: "", level, "{stamp}{peer} refused: {why}");
    }

    fn on_server(&mut self, event: ServerEvent) {
        let stamp = self.stamp();
        let level = level_of_server(event);
        let text = ServerText(event);
        log!(self.log; target: "", level, "{stamp}{text}");
    }

    fn on_reload(&mut self, outcome: Reloaded<'_>) {
        let stamp = self.stamp();
        match outcome {
            Reloaded::Taken(changes) => {
                log!(self.log; target: "", Level::Info, "{stamp}configuration reloaded");
                self.note_changes(changes);
            }
            Reloaded::Refused(why) => {
                log!(self.log; target: "", Level::Warn, "{stamp}configuration not reloaded: {why}");
            }
        }
    }

    fn on_not_ended(&mut self, why: NotEnded<'_>) {
        let stamp = self.stamp();
        match why {
            NotEnded::NoSession(asked) => {
                log!(self.log; target: "", Level::Warn, "{stamp}no session {asked:?} to end");
            }
            NotEnded::Unread(reason) => {
                let why = reason.unwrap_or("out of memory");
                log!(self.log; target: "", Level::Warn, "{stamp}no session ended: {why}");
            }
        }
    }

    fn wants_sizes(&self) -> bool {
        false
    }

    fn on_begun(&mut self, _session: ClientSession, _transfer: &BegunTransfer<'_>) {}

    fn on_look(&mut self, _look: &ServerLook<'_>) {}

    fn on_transfer(&mut self, session: ClientSession, record: &TransferRecord<'_>) {
        self.log_transfer(record, session);
        let stamp = self.stamp();
        let head = SessionHead(session);
        let text = TransferText(*record);
        match record.cause {
            None => log!(self.log; target: "", Level::Info, "{stamp}{head} {text}"),
            Some(cause) => {
                let level = level_of_cause(cause);
                let cause = CauseText {
                    cause,
                    error: record.error,
                };
                log!(self.log; target: "", level, "{stamp}{head} {text}: {cause}");
            }
        }
    }

    fn on_store(&mut self, session: ClientSession, note: &StoreNote<'_>) {
        let stamp = self.stamp();
        let head = SessionHead(session);
        let level = level_of_record(note.record);
        let text = ChangeText {
            words: record_words(note.record),
            path: path_in(note.record),
            to: path_to(note.record),
            user: note.user,
        };
        match note.error {
            None => log!(self.log; target: "", level, "{stamp}{head} {text}"),
            Some(error) => log!(self.log; target: "", level, "{stamp}{head} {text}: {error}"),
        }
    }
}

impl<L: Log + Clock + Drop, T: TransferLog + Drop> KeptHooks for Notes<L, T> {
    fn on_course(
        &mut self,
        session: ClientSession,
        record: &TransferRecord<'_>,
        course: &TransferCourse<'_>,
    ) {
        self.log_transfer(record, session);
        let stamp = self.stamp();
        let head = SessionHead(session);
        let text = TransferText(*record);
        let held = CourseText {
            user: record.user,
            kind: record.kind,
            course: *course,
        };
        match record.cause {
            None => log!(self.log; target: "", Level::Info, "{stamp}{head} {text}{held}"),
            Some(cause) => {
                let level = level_of_cause(cause);
                let cause = CauseText {
                    cause,
                    error: record.error,
                };
                log!(self.log; target: "", level, "{stamp}{head} {text}{held}: {cause}");
            }
        }
    }

    fn lost_lines(&self) -> u64 {
        self.transfers.lost_lines()
    }
}
