//! A session step by step.

use crate::fault::Fault;
use crate::made::{PEER, settings};
use crate::stage::Stage;
use crate::words::{Word, asked};
use control_session::{ControlFault, Host, run_control};
use ftp_wire::LineReader;
use memory_store::MemSink;
use session_core::Session;
use session_table::{End, Input, Settings};
use std::alloc::Global;
use std::io::{BufRead, Write};

/// A session.
#[derive(Drop)]
pub(crate) struct Room {
    session: Session,
}

/// The settings of a session. A call that names their type cannot take a `Stage`.
trait Given {
    fn settings(&self) -> Settings;
}

/// The settings of each session of this program.
#[derive(Clone, Copy)]
struct UsualSettings;

impl Given for UsualSettings {
    fn settings(&self) -> Settings {
        settings()
    }
}

fn run_on<H: Host<Global>, G: Given>(
    alloc: &Global,
    host: &mut H,
    given: &G,
) -> Result<(), ControlFault> {
    run_control(alloc, host, given.settings(), PEER, u32::MAX)
}

fn read_line(alloc: Global, octets: &[u8]) -> Result<Input<Global, MemSink<Global>>, Fault> {
    let mut reader = LineReader::new(alloc);
    let mut items = reader.feed(octets)?;
    match items.pop() {
        Some(item) => Ok(Input::Line(item)),
        None => Err(Fault::Word),
    }
}

fn how_ended(ended: Result<(), ControlFault>) -> &'static str {
    match ended {
        Ok(()) => "[over]\r\n",
        Err(ControlFault::ReadFault) => "[no line came]\r\n",
        Err(ControlFault::WriteFault) => "[no reply went]\r\n",
        Err(ControlFault::Memory) => "[no memory]\r\n",
    }
}

impl Room {
    pub fn new(alloc: Global) -> Result<Room, Fault> {
        Ok(Room {
            session: Session::new(alloc, settings(), PEER)?,
        })
    }

    /// Greets a new client.
    pub fn greet<R: BufRead, W: Write>(&mut self, stage: &mut Stage<R, W>) -> Result<(), Fault> {
        let actions = self.session.greet()?;
        stage.hall.carry_out(actions)
    }

    /// Plays a line of standard input.
    pub fn play<R: BufRead, W: Write>(
        &mut self,
        stage: &mut Stage<R, W>,
        line: &[u8],
    ) -> Result<(), Fault> {
        match line.strip_prefix(b":") {
            Some(word) => self.follow(stage, asked(word)?),
            None => {
                let input = read_line(stage.hall.alloc, line)?;
                self.give(stage, input)
            }
        }
    }

    fn follow<R: BufRead, W: Write>(
        &mut self,
        stage: &mut Stage<R, W>,
        word: Word<'_>,
    ) -> Result<(), Fault> {
        match word {
            Word::Anew => self.begin_anew(stage),
            Word::Talk => self.talk(stage),
            Word::Remove(name) => Ok(stage.users.remove_user(name)?),
            Word::Held => self.give(stage, Input::Held),
            Word::Port(port) => self.give(stage, Input::DataReady(port)),
            Word::Closed => self.give(stage, Input::Closed),
            Word::End(end, octets) => self.end(stage, end, octets),
            Word::At(_) | Word::Fail(_) | Word::Look(_) | Word::Other | Word::Deaf | Word::Lost =>
                stage.follow(word),
        }
    }

    fn begin_anew<R: BufRead, W: Write>(&mut self, stage: &mut Stage<R, W>) -> Result<(), Fault> {
        self.session = Session::new(stage.hall.alloc, settings(), PEER)?;
        self.greet(stage)
    }

    /// Runs a whole control session, and prints its result.
    fn talk<R: BufRead, W: Write>(&mut self, stage: &mut Stage<R, W>) -> Result<(), Fault> {
        stage.begin();
        let alloc = stage.hall.alloc;
        let ended = run_on(&alloc, stage, &UsualSettings);
        stage.hall.note(how_ended(ended))?;
        stage.fault()
    }

    fn end<R: BufRead, W: Write>(
        &mut self,
        stage: &mut Stage<R, W>,
        end: End,
        octets: Option<&str>,
    ) -> Result<(), Fault> {
        let sink = stage.hall.sink_with(octets)?;
        self.give(stage, Input::TransferEnded { end, sink })
    }

    fn give<R: BufRead, W: Write>(
        &mut self,
        stage: &mut Stage<R, W>,
        input: Input<Global, MemSink<Global>>,
    ) -> Result<(), Fault> {
        let moment = stage.hall.moment;
        let actions = self.session.step(
            &stage.users,
            &mut stage.hall.floors,
            &mut stage.hall.store,
            input,
            moment,
        )?;
        stage.hall.carry_out(actions)
    }
}
