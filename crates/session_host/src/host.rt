//! The host of one session, which is lent all its parts.

ghost use Rattle.std.specs.Prelude.{◌≡◌, ◌<◌};

use authorizer::Authorizer;
use control_session::{
    DataSide, Host, Leaving, Moments, NoStep, Piece, Session, close_by, end_by, step_by,
};
use ftp_wire::HostPort;
use handler_hooks::{Hooks, report};
use rate_floors::Floors;
use session_table::{Action, HookCall, Input, Job, Text};
use std::alloc::{Allocator, Global};
use std::io;
use text_io::{TextReader, TextWriter};
use virtual_tree::Store;

/// The parts outside of a control session, lent to this session alone: no other session changes them while it runs. All
/// its steps are for the same users.
#[derive(Drop)]
pub struct SoleHost<'u, 's, 'f, 'c, 'd, 'r, 'w, 'h, S, F: Allocator, C, D, R, W, H> {
    pub users: &'u Authorizer,
    pub store: &'s mut S,
    pub floors: &'f mut Floors<F>,
    /// The clock, read once for each step.
    pub clock: &'c mut C,
    pub side: &'d mut D,
    /// The client's text. A read waits for octets.
    pub reader: &'r mut R,
    /// The writer of the replies.
    pub writer: &'w mut W,
    pub hooks: &'h mut H,
}

/// The result of a read of this number of octets.
pub fn piece_of(count: usize) -> Piece
    ensures end { count ≡ 0 → result ≡ Piece.AtEnd }
    ensures octets { 0 < count → result ≡ Piece.Octets count }
{
    if count == 0 {
        return Piece::AtEnd;
    }
    Piece::Octets(count)
}

impl<
    'u,
    's,
    'f,
    'c,
    'd,
    'r,
    'w,
    'h,
    S: Store<Global>,
    F: Allocator + Clone,
    C: Moments,
    D: DataSide<Global, S::Source, S::Sink>,
    R: TextReader,
    W: TextWriter,
    H: Hooks,
> Host<Global> for SoleHost<'u, 's, 'f, 'c, 'd, 'r, 'w, 'h, S, F, C, D, R, W, H> {
    type Store = S;

    type Source = S::Source;

    type Sink = S::Sink;

    ghost use Rattle.session_host.specs.Alone.{SoleDoes};

    ghost Step = { S.Step };

    ghost Does = { SoleDoes C.Gives D.Asks H.Reported R.remaining R.may_fail W.contents
        W.may_refuse };

    fn step(
        &mut self,
        session: &mut Session,
        input: &mut Option<Input<Global, S::Sink>>,
    ) -> Result<Vec<Action<Global, S::Source, S::Sink>>, NoStep<Global, S::Sink>> {
        let moment = self.clock.moment();
        step_by(session, self.users, self.floors, self.store, input, moment)
    }

    fn close(
        &mut self,
        session: &mut Session,
        nobody: &mut Option<Text>,
    ) -> Option<Leaving<Global>> {
        let moment = self.clock.moment();
        match nobody.take() {
            Some(nobody) => close_by(session, self.users, self.floors, self.store, nobody, moment),
            None => unreachable!(),
        }
    }

    fn end(&mut self, session: &mut Session, event: &mut Option<Input<Global, S::Sink>>) {
        let moment = self.clock.moment();
        if let Some(event) = event.take() {
            end_by(session, self.users, self.floors, self.store, event, moment);
        }
    }

    fn release(&mut self, user: u32) {
        self.floors.release(user);
    }

    fn note(&mut self, call: &HookCall<Global>) {
        report(self.hooks, call);
    }

    fn write(&mut self, reply: &[u8]) -> io::Result<()> {
        self.writer.write_text(reply)
    }

    fn read(&mut self, buffer: &mut [u8]) -> io::Result<Piece> {
        let count = self.reader.read_front(buffer)?;
        Ok(piece_of(count))
    }

    fn open_passive(&mut self) {
        self.side.open_passive();
    }

    fn connect_to(&mut self, to: HostPort) {
        self.side.connect_to(to);
    }

    fn drop_data(&mut self) {
        self.side.drop_data();
    }

    fn start(&mut self, job: &mut Option<Job<Global, S::Source, S::Sink>>) {
        self.side.start(job);
    }

    fn abort(&mut self) {
        self.side.abort();
    }

    fn look(&mut self) -> Option<Input<Global, S::Sink>> {
        self.side.look()
    }

    fn settle(&mut self) -> Option<Input<Global, S::Sink>> {
        self.side.settle()
    }
}
