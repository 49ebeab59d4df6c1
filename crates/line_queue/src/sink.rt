//! Notes of the kit's `log`, as lines of a queue.

ghost use Rattle.std.specs.Prelude.{◌≡◌, ◌++◌, IfOk, IfSome, string_bytes};
ghost use Rattle.line_queue.specs.Notes.{form_text, note_line, priority};

use crate::shared::SharedLines;
use log::kv::Source;
use log::span::Spans;
use log::{Level, Line, Log, Metadata, Record};
use std::alloc::{AllocError, Global};
use std::fmt::Display;
use std::sync::{Arc, Wait};

/// The form of the lines of notes.
#[derive(Clone, Copy, Debug, PartialEq, Eq)]
pub enum LogForm {
    /// Each begins with its level in brackets; the text of a note has its time.
    Plain,
    /// Each begins with its priority in angle brackets, as systemd's journal takes it (sd-daemon(3)); the journal has the
    /// time.
    Journal,
}

/// The priority of a level, as of syslog(3), in angle brackets.
pub fn priority(level: Level) -> &'static str
    ensures priority { result.now ≡ priority level }
{
    match level {
        Level::Error => "<3>",
        Level::Warn => "<4>",
        Level::Info => "<6>",
        Level::Debug | Level::Trace => "<7>",
    }
}

// The text of a record, without its end.
fn form_text<D: Display, K: Source, S: Spans>(
    alloc: Global,
    form: LogForm,
    record: &Record<'_, D, K, S>,
) -> Result<String, AllocError>
    ensures text { IfOk result (λ line.
        IfSome (form_text D.output K.pairs S.scopes form «record».now)
        (λ text. string_bytes line ≡ text)) }
{
    match form {
        LogForm::Plain => String::format(alloc, Line::new(record)),
        LogForm::Journal => {
            let mut line = String::from_str(alloc, priority(record.level()))?;
            write!(line, "{}", record.args())?;
            Ok(line)
        }
    }
}

/// The line of a record, with its end.
pub fn note_line<D: Display, K: Source, S: Spans>(
    alloc: Global,
    form: LogForm,
    record: &Record<'_, D, K, S>,
) -> Result<String, AllocError>
    ensures line { IfOk result (λ line.
        IfSome (note_line D.output K.pairs S.scopes form «record».now)
        (λ text. string_bytes line ≡ text)) }
{
    let mut line = form_text(alloc, form, record)?;
    line.push('\n')?;
    Ok(line)
}

/// A logger whose records are notes of shared lines.
#[derive(Drop)]
pub struct QueuedLog<R: Wait + AllocGlobal> {
    rt: R,
    lines: Arc<SharedLines>,
    form: LogForm,
}

impl<R: Wait + AllocGlobal> QueuedLog<R> {
    /// A logger into these lines, in this form.
    pub fn new(rt: R, lines: Arc<SharedLines>, form: LogForm) -> QueuedLog<R> {
        QueuedLog { rt, lines, form }
    }
}

impl<R: Wait + AllocGlobal> Log for QueuedLog<R> {
    ghost use Rattle.std.specs.Prelude.{Some, true, []};

    ghost enables = { λ _ _ _. Some true };

    ghost target_of = { λ _. Some [] };

    fn enabled(&self, _metadata: &Metadata<'_>) -> bool {
        true
    }

    fn log<D: Display, K: Source, S: Spans>(&self, record: &Record<'_, D, K, S>) {
        let line = note_line(self.rt.alloc(), self.form, record);
        self.lines.note(&self.rt, line);
    }

    fn flush(&self) {}

    fn target(&self) -> &str {
        ""
    }
}
