//! The host of a control session that takes all memory but that of its replies from a heap. Its effects are not
//! specified: the tests examine its output.

ghost use Rattle.memory_store.specs.InMemory.{InMemory};
ghost use Rattle.session_tests.specs.Unsaid.{AnyCall};

use crate::refused::reported::{Sink, Source};
use authorizer::Authorizer;
use control_session::{DataSide, Host, Leaving, NoStep, Piece, Session, close_by, end_by, step_by};
use ftp_wire::HostPort;
use linked_list_allocator::LocalHeap;
use memory_store::MemStore;
use rate_floors::Floors;
use script_session::ScriptSide;
use session_host::piece_of;
use session_table::{Action, HookCall, Input, Job, Text};
use std::io;
use text_io::{TextReader, TextWriter};

type Memory<'h> = &'h LocalHeap;

/// The host owns all that is outside of the session. Its clock always shows the same moment.
#[derive(Drop)]
pub(crate) struct HeapHost<'h, R> {
    pub users: Authorizer<Memory<'h>>,
    pub store: MemStore<Memory<'h>>,
    pub floors: Floors,
    pub side: ScriptSide<Memory<'h>, Sink<'h>>,
    pub reader: R,
    pub output: Vec<u8>,
}

impl<'h, R: TextReader> Host<Memory<'h>> for HeapHost<'h, R> {
    type Store = MemStore<Memory<'h>>;

    type Source = Source<'h>;

    type Sink = Sink<'h>;

    ghost Step = { InMemory };

    ghost Does = { AnyCall };

    fn step(
        &mut self,
        session: &mut Session<Memory<'h>>,
        input: &mut Option<Input<Memory<'h>, Sink<'h>>>,
    ) -> Result<
        Vec<Action<Memory<'h>, Source<'h>, Sink<'h>>, Memory<'h>>,
        NoStep<Memory<'h>, Sink<'h>>,
    > {
        step_by(
            session,
            &self.users,
            &mut self.floors,
            &mut self.store,
            input,
            0,
        )
    }

    fn close(
        &mut self,
        session: &mut Session<Memory<'h>>,
        nobody: &mut Option<Text<Memory<'h>>>,
    ) -> Option<Leaving<Memory<'h>>> {
        match nobody.take() {
            Some(nobody) => {
                let (floors, store) = (&mut self.floors, &mut self.store);
                close_by(session, &self.users, floors, store, nobody, 0)
            }
            None => unreachable!(),
        }
    }

    fn end(
        &mut self,
        session: &mut Session<Memory<'h>>,
        event: &mut Option<Input<Memory<'h>, Sink<'h>>>,
    ) {
        if let Some(event) = event.take() {
            let (floors, store) = (&mut self.floors, &mut self.store);
            end_by(session, &self.users, floors, store, event, 0);
        }
    }

    fn release(&mut self, user: u32) {
        self.floors.release(user);
    }

    fn note(&mut self, _call: &HookCall<Memory<'h>>) {}

    fn write(&mut self, reply: &[u8]) -> io::Result<()> {
        self.output.write_text(reply)
    }

    fn read(&mut self, buffer: &mut [u8]) -> io::Result<Piece> {
        let count = self.reader.read_front(buffer)?;
        Ok(piece_of(count))
    }

    fn open_passive(&mut self) {
        let port = self.side.port;
        self.side.came = Some(Input::DataReady(Some(port)));
    }

    fn connect_to(&mut self, _to: HostPort) {}

    fn drop_data(&mut self) {}

    fn start(&mut self, job: &mut Option<Job<Memory<'h>, Source<'h>, Sink<'h>>>) {
        self.side.start(job);
    }

    fn abort(&mut self) {}

    fn look(&mut self) -> Option<Input<Memory<'h>, Sink<'h>>> {
        self.side.came.take()
    }

    fn settle(&mut self) -> Option<Input<Memory<'h>, Sink<'h>>> {
        self.side.came.take()
    }
}
