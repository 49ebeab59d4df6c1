//! Events of the data side, and the end of the control connection: nothing is lost for lack of memory.

ghost use Rattle.std.specs.Prelude.{◌≡◌, ℕ, [], IfOk, OnErr, true};
ghost use Rattle.authorizer.specs.Users.{Users};
ghost use Rattle.rate_floors.specs.Promises.{Promises};
ghost use Rattle.session_core.specs.Events.{is_event};
ghost use Rattle.session_events.specs.Leaving.{leaving_by};
ghost use Rattle.session_table.specs.declared.inputs.Input.TheVariants.{Closed, DataReady, TransferEnded};

use crate::session::Session;
use authorizer::Authorizer;
use session_events::{Leaving, end_transfer, finish, leave};
use session_state::RowResult;
use session_table::{End, Input, Text};
use std::alloc::Allocator;
use virtual_tree::Store;

impl<A: Allocator + Clone> Session<A> {
    ghost use Rattle.session_table.specs.Steps.{SessionStep};
    ghost use Rattle.session_table.specs.Views.{is_closed};

    /// Takes the end of a transfer, as `step` does. If memory runs out nothing is done, and a sink that came back remains
    /// with the caller. The moment is in milliseconds since 1970.
    pub fn take_end<S: Store<A>>(
        &mut self,
        users: &Authorizer<A>,
        store: &mut S,
        end: End,
        sink: &mut Option<S::Sink>,
        moment: u64,
    ) -> RowResult<A, S::Source, S::Sink>
        ensures row { (promises : Promises) → IfOk result (λ actions.
            SessionStep S.Step users.now.users self.old.view self.old.held
            moment (TransferEnded end sink.old) store.old store.new promises promises
            self.new.view self.new.held actions.items) }
        ensures unchanged { OnErr result (self.new ≡ self.old) }
        ensures untouched { OnErr result (store.new ≡ store.old) }
        ensures kept { OnErr result (sink.new ≡ sink.old) }
    {
        end_transfer(&mut self.state, users, store, end, sink, moment)
    }

    /// Takes a passive port, or that none was free, as `step` does.
    pub fn take_ready<S: Store<A>>(
        &mut self,
        users: &Authorizer<A>,
        port: Option<u16>,
    ) -> RowResult<A, S::Source, S::Sink>
        ensures row { (promises : Promises) → (moment : ℕ) → (store : S) → IfOk result (λ actions.
            SessionStep S.Step users.now.users self.old.view self.old.held
            moment (DataReady port) store store promises promises
            self.new.view self.new.held actions.items) }
        ensures unchanged { OnErr result (self.new ≡ self.old) }
    {
        self.take_port(users, port)
    }

    /// Ends the control connection, as `step` does at `Closed`. Returns the actions that are left; None if it had ended
    /// before. Takes no memory: the empty text `nobody` becomes the name.
    pub fn leave<S: Store<A>>(&mut self, nobody: Text<A>) -> Option<Leaving<A>>
        requires nobody { nobody ≡ [] }
        ensures row { (users : Users) → (promises : Promises) → (moment : ℕ) → (store : S) →
            SessionStep {A = A} {R = S.Source} {K = S.Sink} S.Step users
            self.old.view self.old.held moment Closed store store promises promises
            self.new.view self.new.held (leaving_by result) }
        ensures closed { is_closed self.new.view.stage ≡ true }
    {
        if self.is_closed() {
            return None;
        }
        Some(leave(&mut self.state, nobody))
    }

    /// Takes an event of the data side after the end of the control connection, as `step` does: a returned sink is
    /// finished, and there are no actions. Takes no memory.
    pub fn take_silently<S: Store<A>>(
        &mut self,
        store: &mut S,
        event: Input<A, S::Sink>,
        moment: u64,
    )
        requires closed { is_closed self.old.view.stage ≡ true }
        requires event { is_event event ≡ true }
        ensures row { (users : Users) → (promises : Promises) →
            SessionStep {A = A} {R = S.Source} S.Step users
            self.old.view self.old.held moment event
            store.old store.new promises promises self.new.view self.new.held [] }
        ensures closed { is_closed self.new.view.stage ≡ true }
    {
        match event {
            Input::TransferEnded { end: _, sink } => finish(&mut self.state, store, sink, moment),
            Input::DataReady(_) => {}
            Input::Line(_) | Input::Held | Input::Closed => unreachable!(),
        }
    }
}
