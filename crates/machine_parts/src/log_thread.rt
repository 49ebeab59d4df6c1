//! The threads that write notes and the transfer log.

ghost use Rattle.std.specs.Prelude.{◌≡◌, ◌≤◌, IfOk, IfSome, MatchResult, None, Some, cond, false, is_some, length, nat_eq, not, option_map, string_bytes, true};
ghost use Rattle.std.specs.Arc.{arc_value};
ghost use Rattle.std.specs.Fmt.{debug_str};
ghost use Rattle.counted_file.specs.Calls.{no_calls};
ghost use Rattle.line_queue.specs.Queues.{transfers_text};
ghost use Rattle.line_queue.specs.declared.rounds.Readiness.TheVariants.{Gone};
ghost use Rattle.machine_parts.specs.LogCalls.{IsTaken, IsTakenAnew};
ghost use Rattle.machine_parts.specs.PlainNotes.{IsUnseen, IsUnwritten, gone_line, head_of, unseen_text, unwritten_text};

use crate::log_file::LogFile;
use crate::own_thread::{STACK, ThreadSigns, shared};
use ftpd_program::ServeFault;
use line_queue::{
    LineOutlet, LogForm, Readiness, SharedLines, StandardError, transfers_dropped, write_lines,
};
use session_notes::TransferLog;
use std::alloc::{AllocError, Global};
use std::io;
use std::sync::{Arc, Wait};
use std::thread::{Builder, Threads};
use std::time::Clock;
use transfer_log::{FileTransfer, transfer_line};

/// The transfer log of a server, whose lines a thread writes; none if no file is stated.
#[derive(Drop)]
pub struct QueuedTransfers<R: Wait + AllocGlobal> {
    rt: R,
    lines: Option<Arc<SharedLines>>,
    // the notes, whose lost lines are counted with those of the log
    notes: PlainNotes,
}

impl<R: Wait + AllocGlobal> QueuedTransfers<R> {
    pub fn new(rt: R, lines: Option<Arc<SharedLines>>, notes: PlainNotes) -> QueuedTransfers<R>
        ensures lines { result.lines ≡ lines }
        ensures notes { result.notes ≡ notes }
    {
        QueuedTransfers { rt, lines, notes }
    }
}

impl<R: Wait + AllocGlobal> TransferLog for QueuedTransfers<R> {
    fn append(&self, transfer: &FileTransfer<'_>) {
        if let Some(lines) = &self.lines {
            let line = transfer_line(self.rt.alloc(), transfer);
            lines.transfer(&self.rt, line);
        }
    }

    fn lost_lines(&self) -> u64 {
        let lost = match &self.lines {
            Some(lines) => lines.lost(),
            None => 0,
        };
        lost.saturating_add(self.notes.lost_lines())
    }
}

/// The head of a note with a count of dropped lines, in a form.
fn count_head(form: LogForm) -> &'static str
    ensures head { result.now ≡ head_of form }
{
    match form {
        LogForm::Plain => "[WARN ] ",
        LogForm::Journal => "<4>",
    }
}

/// The note of the number of users that a new configuration has no longer.
fn gone_line(alloc: Global, form: LogForm, count: u64) -> Result<String, AllocError>
    ensures line { IfOk result (λ line. string_bytes line ≡ gone_line form count) }
{
    let head = count_head(form);
    format!(in alloc; "{head}users that the new configuration has no longer: {count}\n")
}

/// A path as notes have it.
fn quoted(alloc: Global, path: &str) -> Result<String, AllocError>
    ensures quoted { IfOk result
        (λ text. IfSome (debug_str path.now) (λ octets. string_bytes text ≡ octets)) }
{
    format!(in alloc; "{path:?}")
}

/// The machine's reason in words.
fn reason_text(alloc: Global, reason: io::Error) -> Result<String, AllocError> {
    format!(in alloc; "{reason}")
}

/// The note of a file that cannot be written, by its path in quotation marks and the reason.
fn unwritten_for(
    alloc: Global,
    form: LogForm,
    what: &str,
    path: &str,
    why: &str,
) -> Result<String, AllocError>
    ensures line { IfOk result
        (λ line. string_bytes line ≡ unwritten_text form what.now path.now why.now) }
{
    let head = count_head(form);
    format!(in alloc; "{head}the {what} {path} cannot be written: {why}\n")
}

/// The note of a file at a path that cannot be written; `what` says which.
fn unwritten_line(
    alloc: Global,
    form: LogForm,
    what: &str,
    path: &str,
    reason: io::Error,
) -> Result<String, AllocError>
    ensures line { IfOk result (λ line. IsUnwritten form what.now path.now (string_bytes line)) }
{
    let named = quoted(alloc, path)?;
    let why = reason_text(alloc, reason)?;
    unwritten_for(alloc, form, what, named.as_str(), why.as_str())
}

/// The note of a file that cannot be examined, by its path in quotation marks and the reason.
fn unseen_for(alloc: Global, form: LogForm, path: &str, why: &str) -> Result<String, AllocError>
    ensures line { IfOk result (λ line. string_bytes line ≡ unseen_text form path.now why.now) }
{
    let head = count_head(form);
    format!(in alloc; "{head}the file {path} cannot be examined: {why}\n")
}

/// The note of a file at a path that cannot be examined.
fn unseen_line(
    alloc: Global,
    form: LogForm,
    path: &str,
    reason: io::Error,
) -> Result<String, AllocError>
    ensures line { IfOk result (λ line. IsUnseen form path.now (string_bytes line)) }
{
    let named = quoted(alloc, path)?;
    let why = reason_text(alloc, reason)?;
    unseen_for(alloc, form, named.as_str(), why.as_str())
}

/// The note of lines of the transfer log that are lost, if some are.
fn lost_line(alloc: Global, form: LogForm, lost: u64) -> Option<Result<String, AllocError>>
    ensures noted { is_some result ≡ not (nat_eq lost 0) }
    ensures line { IfSome result (λ line. IfOk line
        (λ line. string_bytes line ≡ transfers_text (head_of form) lost)) }
{
    if lost == 0 {
        return None;
    }
    Some(transfers_dropped(alloc, count_head(form), lost))
}

/// Notes without a time, under the head of a warning.
#[derive(Drop)]
pub struct PlainNotes {
    form: LogForm,
    lines: Arc<SharedLines>,
}

impl PlainNotes {
    /// Number of the notes that were dropped so far.
    pub fn lost_lines(&self) -> u64 {
        self.lines.lost()
    }

    /// Notes the number of users that a new configuration has no longer.
    pub fn note_gone<R: Wait + AllocGlobal>(&self, rt: &R, count: u64) {
        self.lines.note(rt, gone_line(rt.alloc(), self.form, count));
    }

    /// Notes that a file of the server's cannot be written; `what` says which.
    pub fn note_unwritten<R: Wait + AllocGlobal>(
        &self,
        rt: &R,
        what: &str,
        path: &str,
        reason: io::Error,
    ) {
        let line = unwritten_line(rt.alloc(), self.form, what, path, reason);
        self.lines.note(rt, line);
    }

    /// Notes that the file of a sign cannot be examined.
    pub fn note_unseen<R: Wait + AllocGlobal>(&self, rt: &R, path: &str, reason: io::Error) {
        let line = unseen_line(rt.alloc(), self.form, path, reason);
        self.lines.note(rt, line);
    }
}

/// The notes as an outlet of another queue's counts.
#[derive(Drop)]
struct NoteOutlet<R: Wait + AllocGlobal> {
    rt: R,
    notes: Arc<SharedLines>,
}

// A copy of a line.
fn copied(alloc: Global, octets: &[u8]) -> Result<String, AllocError>
    ensures copied { IfOk result (λ line. string_bytes line ≡ octets.now) }
{
    match str::from_utf8(octets) {
        Ok(text) => String::from_str(alloc, text),
        Err(_) => Err(AllocError),
    }
}

impl<R: Wait + AllocGlobal> LineOutlet for NoteOutlet<R> {
    fn readiness(&mut self, _millis: u16) -> Readiness {
        Readiness::Ready
    }

    // A count is far below the greatest write, so these are a whole line.
    fn write(&mut self, octets: &[u8], _goes_on: bool) -> usize
        ensures whole { result ≡ length octets.now }
    {
        let line = copied(self.rt.alloc(), octets);
        self.notes.note(&self.rt, line);
        octets.len()
    }
}

/// The file of the transfer log, of which is noted once that it takes nothing, until it does.
#[derive(Drop)]
struct NotedLog<R: Wait + AllocGlobal> {
    rt: R,
    notes: PlainNotes,
    file: LogFile,
    is_noted: bool,
}

impl<R: Wait + AllocGlobal> NotedLog<R> {
    // The number of octets that the file took, by its answer. That it takes none is noted once, until it does.
    fn count(&mut self, answer: io::Result<usize>) -> usize
        ensures taken { MatchResult answer (λ count. result ≡ count) (λ _. result ≡ 0) }
        ensures noted { MatchResult answer (λ _. self.new.is_noted ≡ false)
            (λ _. self.new.is_noted ≡ true) }
        ensures file { self.new.file ≡ self.old.file }
    {
        match answer {
            Ok(count) => {
                self.is_noted = false;
                count
            }
            Err(reason) => {
                if !self.is_noted {
                    let path = self.file.path();
                    self.notes
                        .note_unwritten(&self.rt, "transfer log", path, reason);
                }
                self.is_noted = true;
                0
            }
        }
    }
}

impl<R: Wait + AllocGlobal> LineOutlet for NotedLog<R> {
    fn readiness(&mut self, _millis: u16) -> Readiness {
        Readiness::Ready
    }

    fn write(&mut self, octets: &[u8], goes_on: bool) -> usize
        ensures bound { result ≤ length octets.now }
        ensures noted { self.new.is_noted ≡ nat_eq result 0 }
        ensures taken { goes_on ≡ true
            → IsTaken result self.old.file.open.file.calls self.new.file.open.file.calls }
        ensures anew { IsTakenAnew result self.old.file.open.file.calls
            self.new.file.open.file.calls }
    {
        let answer = self.file.append(octets, goes_on);
        self.count(answer)
    }

    fn follow(&mut self) -> bool
        ensures same { result ≡ false → self.new.file.open ≡ self.old.file.open }
        ensures another { result ≡ true → self.new.file.open.file.calls ≡ no_calls }
    {
        self.file.reopen()
    }
}

/// The end of a queue that nothing is written to.
#[derive(Clone, Copy)]
struct NoOutlet;

impl LineOutlet for NoOutlet {
    fn readiness(&mut self, _millis: u16) -> Readiness
        ensures gone { result ≡ Gone }
    {
        Readiness::Gone
    }

    fn write(&mut self, _octets: &[u8], _goes_on: bool) -> usize
        ensures nothing { result ≡ 0 }
    {
        0
    }
}

/// Lines that a thread writes, which nobody waits for.
#[derive(Drop)]
struct LineThread {
    lines: Arc<SharedLines>,
    signs: ThreadSigns,
}

impl LineThread {
    fn new(alloc: Global) -> Result<Arc<LineThread>, AllocError> {
        let lines = shared(alloc, SharedLines::new(alloc)?)?;
        shared(
            alloc,
            LineThread {
                lines,
                signs: ThreadSigns::new(),
            },
        )
    }

    // Writes the lines until no more come and the last are written, or a second has passed since.
    fn write<R, N, T>(&self, rt: &R, head: &str, notes: &mut N, transfers: &mut T)
    where
        R: Wait + Clock + AllocGlobal,
        N: LineOutlet,
        T: LineOutlet,
    {
        write_lines(rt, &self.lines, head, notes, transfers);
        self.signs.end();
    }

    // No more lines come: waits for the end of the thread, at most a second.
    fn leave<R: Wait + Clock>(&self, rt: &R) {
        self.lines.close();
        self.signs.leave(rt);
    }
}

/// The notes and the transfer log of a server, each written by a thread of its own: a log that hangs holds no note.
#[derive(Drop)]
pub struct LogThreads {
    // that of the notes
    form: LogForm,
    notes: Arc<LineThread>,
    transfers: Arc<LineThread>,
    // there is a transfer log
    is_logged: bool,
}

// Starts the thread of notes.
fn start_notes<R>(rt: &R, head: &'static str, thread: Arc<LineThread>) -> Result<(), ServeFault>
where
    R: Threads + Wait + Clock + AllocGlobal + Copy + Send + Sync + 'static,
{
    let runtime = *rt;
    let started = Builder::new().stack_size(STACK).spawn(rt, move || {
        thread.write(&runtime, head, &mut StandardError, &mut NoOutlet);
    });
    match started {
        Ok(_) => Ok(()),
        Err(_) => Err(ServeFault::NoThread),
    }
}

// Starts the thread of the transfer log, whose counts are among the notes.
fn start_transfers<R>(
    rt: &R,
    file: LogFile,
    thread: Arc<LineThread>,
    notes: PlainNotes,
    counts: Arc<SharedLines>,
) -> Result<(), ServeFault>
where
    R: Threads + Wait + Clock + AllocGlobal + Copy + Send + Sync + 'static,
{
    let runtime = *rt;
    let head = count_head(notes.form);
    let started = Builder::new().stack_size(STACK).spawn(rt, move || {
        let mut counts = NoteOutlet {
            rt: runtime,
            notes: counts,
        };
        let mut log = NotedLog {
            rt: runtime,
            notes,
            file,
            is_noted: false,
        };
        thread.write(&runtime, head, &mut counts, &mut log);
    });
    match started {
        Ok(_) => Ok(()),
        Err(_) => Err(ServeFault::NoThread),
    }
}

impl LogThreads {
    /// Starts the thread of notes, and that of the transfer log if there is a file. Fails without a thread, or memory.
    pub fn start<R>(
        rt: &R,
        alloc: Global,
        form: LogForm,
        file: Option<LogFile>,
    ) -> Result<LogThreads, ServeFault>
    where
        R: Threads + Wait + Clock + AllocGlobal + Copy + Send + Sync + 'static,
        ensures form { IfOk result (λ threads. threads.form ≡ form) }
        ensures logged { IfOk result (λ threads. threads.is_logged ≡ is_some file) }
    {
        let head = count_head(form);
        let notes = LineThread::new(alloc)?;
        let transfers = LineThread::new(alloc)?;
        let is_logged = file.is_some();
        start_notes(rt, head, Arc::try_clone(&notes)?)?;
        match file {
            Some(file) => {
                let own = Arc::try_clone(&transfers)?;
                let counts = Arc::try_clone(&notes.lines)?;
                let lines = Arc::try_clone(&notes.lines)?;
                start_transfers(rt, file, own, PlainNotes { form, lines }, counts)?;
            }
            None => transfers.signs.end(),
        }
        Ok(LogThreads {
            form,
            notes,
            transfers,
            is_logged,
        })
    }

    /// The form of the notes.
    pub fn form(&self) -> LogForm
        ensures form { result ≡ self.now.form }
    {
        self.form
    }

    /// Notes without a time.
    pub fn plain_notes(&self) -> Result<PlainNotes, AllocError>
        ensures form { IfOk result (λ notes. notes.form ≡ self.now.form) }
        ensures lines { IfOk result
            (λ notes. arc_value notes.lines ≡ arc_value (arc_value self.now.notes).lines) }
    {
        Ok(PlainNotes {
            form: self.form,
            lines: self.notes()?,
        })
    }

    /// The lines of notes.
    pub fn notes(&self) -> Result<Arc<SharedLines>, AllocError>
        ensures lines { IfOk result
            (λ lines. arc_value lines ≡ arc_value (arc_value self.now.notes).lines) }
    {
        Arc::try_clone(&self.notes.lines)
    }

    /// The lines of the transfer log, if there is one.
    pub fn transfers(&self) -> Result<Option<Arc<SharedLines>>, AllocError>
        ensures lines { IfOk result (λ lines. option_map arc_value lines ≡ cond self.now.is_logged
            (Some (arc_value (arc_value self.now.transfers).lines)) None) }
    {
        if !self.is_logged {
            return Ok(None);
        }
        let lines = Arc::try_clone(&self.transfers.lines)?;
        Ok(Some(lines))
    }

    /// No more lines come: waits until those of the transfer log are written, and then the notes, at most a second each.
    /// Lines of the transfer log that are left then are lost: their number is the last note, and is returned.
    pub fn leave<R: Wait + Clock + AllocGlobal>(&self, rt: &R) -> u64 {
        self.transfers.leave(rt);
        let lost = self.transfers.lines.give_up(rt);
        if let Some(line) = lost_line(rt.alloc(), self.form, lost) {
            self.notes.lines.note(rt, line);
        }
        self.notes.leave(rt);
        lost
    }
}
