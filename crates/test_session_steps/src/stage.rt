//! The host of a whole control session: the lines of the reader are its client, its data side and its handler.

ghost use Rattle.std.specs.Prelude.{◌≡◌, ◌≤◌, [], ℕ, IfOk, List, length, true};
ghost use Rattle.std.specs.declared.alloc.Global.{Global};
ghost use Rattle.control_session.specs.Calls.{reads_within};
ghost use Rattle.control_session.specs.Rows.{IsRow};
ghost use Rattle.control_session.specs.Turns.{Stepped};
ghost use Rattle.control_session.specs.Sides.{given_of};
ghost use Rattle.session_core.specs.Events.{is_event};
ghost use Rattle.test_fail_store.specs.Failing.{FailStep};
ghost use Rattle.memory_store.specs.InMemory.{InMemory};
ghost use Rattle.test_session_steps.specs.Unsaid.{AnyCall};
ghost use Rattle.session_table.specs.Views.{is_closed};

use crate::fault::Fault;
use crate::hall::Hall;
use crate::reported::{Job, put_connect, put_hook};
use crate::words::{Word, asked};
use authorizer::Authorizer;
use control_session::{Host, Leaving, NoStep, Piece, Session, close_by, end_by, step_by};
use ftp_wire::HostPort;
use memory_store::{MemSink, MemSource, MemStore};
use session_table::{Action, End, HookCall, Input, Text};
use std::alloc::Global;
use std::io::{self, BufRead, ErrorKind, Write};
use test_fail_store::FailStore;

/// The host of a session. A read returns the next line. A word in its place says what comes between the lines, and the
/// read then returns no octets.
#[derive(Drop)]
pub(crate) struct Stage<R, W> {
    pub hall: Hall,
    /// The users of the server.
    pub users: Authorizer,
    reader: R,
    writer: W,
    line: Vec<u8>,
    /// The event of the data side that waits.
    came: Option<Input<Global, MemSink<Global>>>,
    /// A transfer runs.
    runs: bool,
    /// The client takes no more replies.
    is_deaf: bool,
    fault: Option<Fault>,
}

/// Copies octets into the front of a buffer, as many as fit.
fn copy_front(octets: &[u8], buffer: &mut [u8]) -> usize
    ensures fits { result ≤ length buffer.new }
{
    let count = octets.len().min(buffer.len());
    let (front, _) = octets.split_at(count);
    buffer[..count].copy_from_slice(front);
    count
}

impl<R: BufRead, W: Write> Stage<R, W> {
    pub fn new(hall: Hall, users: Authorizer, reader: R, writer: W) -> Stage<R, W> {
        let line = Vec::new(hall.alloc);
        Stage {
            hall,
            users,
            reader,
            writer,
            line,
            came: None,
            runs: false,
            is_deaf: false,
            fault: None,
        }
    }

    /// Prints the actions.
    pub fn print(&mut self) -> Result<(), Fault> {
        self.writer.write_all(self.hall.reported.as_slice())?;
        self.hall.reported.clear();
        Ok(())
    }

    /// Reads the next line, up to its LF, if any. Returns `false` at the end.
    pub fn next_line(&mut self) -> Result<bool, Fault> {
        self.line.clear();
        let count = self.reader.read_until(b'\n', &mut self.line)?;
        Ok(count != 0)
    }

    /// Takes that line out.
    pub fn take_line(&mut self) -> Vec<u8> {
        let alloc = self.hall.alloc;
        std::mem::replace(&mut self.line, Vec::new(alloc))
    }

    /// Begins with a new client.
    pub fn begin(&mut self) {
        self.came = None;
        self.runs = false;
        self.is_deaf = false;
    }

    /// Returns the fault that ends the program after a session, if any.
    pub fn fault(&mut self) -> Result<(), Fault> {
        match self.fault.take() {
            None => Ok(()),
            Some(fault) => Err(fault),
        }
    }

    /// Keeps a fault that ends the program once the session has ended. A lost client is no such fault.
    fn keep(&mut self, done: Result<(), Fault>) {
        match done {
            Ok(()) | Err(Fault::Lost) => {}
            Err(fault) => self.fault = Some(fault),
        }
    }

    /// Follows a word that has nothing to do with a session's lines.
    pub fn follow(&mut self, word: Word<'_>) -> Result<(), Fault> {
        match word {
            Word::Other => self.hall.let_other(),
            Word::Look(path) => self.hall.look(path),
            Word::At(moment) => {
                self.hall.moment = moment;
                Ok(())
            }
            Word::Fail(passes) => {
                self.hall.store.left = Some(passes);
                Ok(())
            }
            Word::Deaf => {
                self.is_deaf = true;
                Ok(())
            }
            _ => Err(Fault::Word),
        }
    }

    /// Follows a word within a session. Returns whether the client is gone.
    fn hear(&mut self, word: Word<'_>) -> Result<bool, Fault> {
        match word {
            Word::Closed => return Ok(true),
            Word::Lost => return Err(Fault::Lost),
            Word::Held => {}
            Word::Port(port) => self.came = Some(Input::DataReady(port)),
            Word::End(end, octets) => self.end(end, octets),
            Word::Anew | Word::Talk | Word::Remove(_) => return Err(Fault::Word),
            Word::Other | Word::Look(_) | Word::At(_) | Word::Fail(_) | Word::Deaf => self.follow(
                word,
            )?,
        }
        Ok(false)
    }

    fn end(&mut self, end: End, octets: Option<&str>) {
        self.runs = false;
        match self.hall.sink_with(octets) {
            Ok(sink) => self.came = Some(Input::TransferEnded { end, sink }),
            Err(fault) => self.fault = Some(fault),
        }
    }

    /// Follows a word, and returns `AtEnd` if the client is gone then, and otherwise `Nothing`. Any other line is
    /// copied into the buffer.
    fn take_word_or_line(&mut self, line: &[u8], buffer: &mut [u8]) -> Result<Piece, Fault>
        ensures bound { IfOk result (λ piece. reads_within piece buffer.new) }
    {
        if let Some(word) = line.strip_prefix(b":") {
            return if self.hear(asked(word)?)? {
                Ok(Piece::AtEnd)
            } else {
                Ok(Piece::Nothing)
            };
        }
        let count = copy_front(line, buffer);
        if count == 0 {
            return Ok(Piece::AtEnd);
        }
        Ok(Piece::Octets(count))
    }

    fn read_line(&mut self, buffer: &mut [u8]) -> Result<Piece, Fault>
        ensures bound { IfOk result (λ piece. reads_within piece buffer.new) }
    {
        self.print()?;
        if !self.next_line()? {
            return Ok(Piece::AtEnd);
        }
        let line = self.take_line();
        self.take_word_or_line(line.as_slice(), buffer)
    }
}

impl<R: BufRead, W: Write> Stage<R, W> {
    // Takes the event of the data side after the end of the control connection.
    fn end_with(&mut self, session: &mut Session, event: Input<Global, MemSink<Global>>)
        requires closed { is_closed session.old.view.stage ≡ true }
        requires event { is_event event ≡ true }
        ensures row { Stepped (IsRow {A = Global} {R = List ℕ} (FailStep InMemory))
            AnyCall self.old session.old (given_of event) session.new [] self.new }
        ensures closed { is_closed session.new.view.stage ≡ true }
    {
        let moment = self.hall.moment;
        let (floors, store) = (&mut self.hall.floors, &mut self.hall.store);
        end_by(session, &self.users, floors, store, event, moment);
    }
}

impl<R: BufRead, W: Write> Host<Global> for Stage<R, W> {
    type Store = FailStore<MemStore>;

    type Source = MemSource<Global>;

    type Sink = MemSink<Global>;

    ghost Step = { FailStep InMemory };

    ghost Does = { AnyCall };

    fn step(
        &mut self,
        session: &mut Session,
        input: &mut Option<Input<Global, MemSink<Global>>>,
    ) -> Result<
        Vec<Action<Global, MemSource<Global>, MemSink<Global>>>,
        NoStep<Global, MemSink<Global>>,
    > {
        let moment = self.hall.moment;
        let (floors, store) = (&mut self.hall.floors, &mut self.hall.store);
        step_by(session, &self.users, floors, store, input, moment)
    }

    fn close(
        &mut self,
        session: &mut Session,
        nobody: &mut Option<Text>,
    ) -> Option<Leaving<Global>> {
        let moment = self.hall.moment;
        let (floors, store) = (&mut self.hall.floors, &mut self.hall.store);
        match nobody.take() {
            Some(nobody) => close_by(session, &self.users, floors, store, nobody, moment),
            None => unreachable!(),
        }
    }

    fn end(&mut self, session: &mut Session, event: &mut Option<Input<Global, MemSink<Global>>>) {
        match event.take() {
            Some(event) => self.end_with(session, event),
            None => {}
        }
    }

    fn release(&mut self, user: u32) {
        let done = self.hall.release(user);
        self.keep(done);
    }

    fn note(&mut self, call: &HookCall<Global>) {
        let done = put_hook(&mut self.hall.reported, self.hall.alloc, call);
        self.keep(done);
    }

    fn write(&mut self, reply: &[u8]) -> io::Result<()> {
        if self.is_deaf {
            return Err(io::Error::from(ErrorKind::BrokenPipe));
        }
        self.hall.reported.extend_from_slice(reply)?;
        Ok(())
    }

    fn read(&mut self, buffer: &mut [u8]) -> io::Result<Piece> {
        match self.read_line(buffer) {
            Ok(piece) => Ok(piece),
            Err(fault) => {
                self.keep(Err(fault));
                Err(io::Error::from(ErrorKind::ConnectionReset))
            }
        }
    }

    fn open_passive(&mut self) {
        let done = self.hall.note("[passive]\r\n");
        self.keep(done);
    }

    fn connect_to(&mut self, to: HostPort) {
        let done = put_connect(&mut self.hall.reported, self.hall.alloc, to);
        self.keep(done);
    }

    fn drop_data(&mut self) {
        let done = self.hall.note("[drop]\r\n");
        self.keep(done);
    }

    fn start(&mut self, job: &mut Option<Job>) {
        if let Some(job) = job.take() {
            self.runs = true;
            let done = self.hall.start(job);
            self.keep(done);
        }
    }

    fn abort(&mut self) {
        let done = self.hall.note("[abort]\r\n");
        self.keep(done);
    }

    fn look(&mut self) -> Option<Input<Global, MemSink<Global>>> {
        self.came.take()
    }

    /// Ends a transfer that still runs as aborted; an upload brings nothing more.
    fn settle(&mut self) -> Option<Input<Global, MemSink<Global>>> {
        if self.runs {
            self.end(End::Aborted, Some(""));
        }
        self.came.take()
    }
}
