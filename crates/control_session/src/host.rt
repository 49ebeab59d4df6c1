//! The host of a control session: everything outside of it.

ghost use Rattle.std.specs.Prelude.{◌≡◌, ◌<◌, IfErr, IfOk, IfSome, OnErr, Some, [], length, true};
ghost use Rattle.control_session.specs.Calls.{HostCall, read_call, reads_within, write_call};
ghost use Rattle.control_session.specs.Calls.HostCall.{Asked, Noted, Released};
ghost use Rattle.control_session.specs.Rows.{IsRow};
ghost use Rattle.control_session.specs.Turns.{StepRefused, Stepped};
ghost use Rattle.control_session.specs.Sides.{OnlyEvents, back_in, came_of, given_of};
ghost use Rattle.control_session.specs.Sides.Given.{Closed};
ghost use Rattle.control_session.specs.Sides.SideCall.{Aborts, Connects, Drops, Looks, Opens, Settles, Starts};
ghost use Rattle.handler_hooks.specs.Events.{event_of};
ghost use Rattle.session_events.specs.Leaving.{leaving_by};
ghost use Rattle.session_table.specs.Views.{is_closed};

use crate::no_step::NoStep;
use ftp_wire::HostPort;
use session_core::{Leaving, Session};
use session_table::{Action, HookCall, Input, Job, Text};
use std::alloc::Allocator;
use std::io;

/// The result of a read.
#[derive(Clone, Copy, Debug, PartialEq, Eq)]
pub enum Piece {
    /// Number of octets at the front of the buffer, at least one.
    Octets(usize),
    /// No octets have arrived yet. The session looks at the data side, and reads again.
    Nothing,
    /// The end of the text.
    AtEnd,
}

/// The host of a control session: the users, the store, the floors, the clock, the data side, the client's text and the
/// handler.
///
/// `Does` is the effect of each call. Each host defines its own. All calls go to one host, one after another, so the
/// proofs about a session include their order. A session is lent the users, the store and the floors for one step, so
/// other sessions may change the store and the floors in between, and the host may take newer users. A host by whose
/// `Does` it takes them only for a step before which nobody is logged in serves whoever is logged in by the users of that
/// login (`run_control`, clause `logins`). A host may end the session in the place of a step for a line: no line is taken
/// after that. No call has to wait: a host that waits, in a read or for the end of a
/// transfer, has all that it needs for that. Values that own memory of the session are passed in an `Option`, to be
/// taken out.
pub trait Host<A: Allocator + Clone> {
    /// The store.
    type Store;

    /// The sources and sinks of the store.
    type Source: Drop;

    type Sink: Drop;

    ghost use Rattle.control_session.specs.Calls.{HostCall};
    ghost use Rattle.virtual_tree.specs.Calls.{Exchange};

    /// The effect of one call of the store with its answer.
    ghost Step: { Self.Store → Exchange Self.Source Self.Sink → Self.Store → Type 0 };

    /// The effect of one call with its answer on the host.
    ghost Does: { Self → HostCall A Self.Store Self.Source Self.Sink → Self → Type 0 };

    /// Lends the users, the store and the floors for one step of a session, at a moment of the clock, which is read
    /// once. If memory runs out, an event of the data side is returned. For a line, new or held, the host may end the
    /// session instead.
    fn step(
        &mut self,
        session: &mut Session<A>,
        input: &mut Option<Input<A, Self::Sink>>,
    ) -> Result<Vec<Action<A, Self::Source, Self::Sink>, A>, NoStep<A, Self::Sink>>
        ensures row { IfSome input.old (λ input. IfOk result (λ actions.
            Stepped (IsRow Step) Does
            self.old session.old (given_of input) session.new actions.items self.new)) }
        ensures unchanged { OnErr result (session.new ≡ session.old) }
        ensures refused { IfSome input.old (λ input. IfErr result (λ why.
            StepRefused (IsRow Step) Does
            self.old session.old (given_of input) (back_in input) why self.new)) };

    /// Lends them for the end of the control connection.
    fn close(
        &mut self,
        session: &mut Session<A>,
        nobody: &mut Option<Text<A>>,
    ) -> Option<Leaving<A>>
        requires nobody { nobody.old ≡ Some [] }
        ensures row { Stepped (IsRow Step) Does
            self.old session.old Closed session.new (leaving_by result) self.new }
        ensures closed { is_closed session.new.view.stage ≡ true };

    /// Lends them for an event of the data side after that.
    fn end(&mut self, session: &mut Session<A>, event: &mut Option<Input<A, Self::Sink>>)
        requires closed { is_closed session.old.view.stage ≡ true }
        requires event { OnlyEvents event.old }
        ensures row { IfSome event.old (λ event. Stepped (IsRow Step) Does
            self.old session.old (given_of event) session.new [] self.new) }
        ensures closed { is_closed session.new.view.stage ≡ true };

    /// Releases the guaranteed rate of the user with this number.
    fn release(&mut self, user: u32)
        ensures { Does self.old (Released user) self.new };

    /// Reports an event to the handler.
    fn note(&mut self, call: &HookCall<A>)
        ensures { Does self.old (Noted (event_of call.now)) self.new };

    /// Writes all of a reply. After an error some of it, from its front, may have gone out.
    fn write(&mut self, reply: &[u8]) -> io::Result<()>
        ensures { Does self.old (write_call result reply.now) self.new };

    /// Reads the next octets of the client's text.
    fn read(&mut self, buffer: &mut [u8]) -> io::Result<Piece>
        requires room { 0 < length buffer.old }
        ensures did { Does self.old (read_call result buffer.new) self.new }
        ensures bound { IfOk result (λ piece. reads_within piece buffer.new) };

    /// The calls of `DataSide`.
    fn open_passive(&mut self)
        ensures { Does self.old (Asked Opens) self.new };

    fn connect_to(&mut self, to: HostPort)
        ensures { Does self.old (Asked (Connects to)) self.new };

    fn drop_data(&mut self)
        ensures { Does self.old (Asked Drops) self.new };

    fn start(&mut self, job: &mut Option<Job<A, Self::Source, Self::Sink>>)
        ensures { IfSome job.old (λ job. Does self.old (Asked (Starts job)) self.new) };

    fn abort(&mut self)
        ensures { Does self.old (Asked Aborts) self.new };

    fn look(&mut self) -> Option<Input<A, Self::Sink>>
        ensures { Does self.old (Asked (Looks (came_of result))) self.new };

    fn settle(&mut self) -> Option<Input<A, Self::Sink>>
        ensures { Does self.old (Asked (Settles (came_of result))) self.new };
}
