//! A session, and its held lines.

ghost use Rattle.std.specs.Prelude.{◌≡◌, [], ◌∷◌, ◌++◌, IfOk, OnErr, option_map};
ghost use Rattle.session_core.specs.Entering.{entering, is_right};
ghost use Rattle.session_table.specs.declared.inputs.Input.TheVariants.{Held, Line};

use crate::rules::{is_pass, is_right, meanwhile_of};
use crate::served::serve;
use authorizer::Authorizer;
use ftp_wire::LineItem;
use rate_floors::Floors;
use session_events::{close, take_port};
use session_rows::greeting;
use session_state::{RowResult, State, push_abort, push_reserved, room_for};
use session_table::{Action, Answer, Control, Input, Meanwhile, Refusal, Settings, Stage};
use std::alloc::{AllocError, Allocator, Global};
use std::marker::Model;
use virtual_tree::Store;

/// Maximum number of held lines.
pub const MOST_HELD: usize = 16;

/// A control connection, from its greeting to its end.
#[derive(Drop)]
pub struct Session<A: Allocator = Global> {
    pub(crate) state: State<A>,
    pub(crate) held: Vec<LineItem<A>, A>,
}

impl<A: Allocator> Model for Session<A> {
    ghost use Rattle.ftp_wire.specs.Reading.{items_of};
    ghost use Rattle.session_table.specs.Steps.{Standing};

    ghost Value = { Standing };

    ghost view = { λ session. record { view = session.state; held = items_of session.held.items } };
}

impl<A: Allocator + Clone> Session<A> {
    ghost use Rattle.ftp_wire.specs.Reading.{item_of};
    ghost use Rattle.session_table.specs.Plans.{Stops};
    ghost use Rattle.session_table.specs.Plans.Plan.{Then};
    ghost use Rattle.session_table.specs.StateRows.{greeting};
    ghost use Rattle.session_table.specs.Steps.{IsTaken, SessionStep, SessionStops, Took, asks_floors, in_its_turn, is_due};
    ghost use Rattle.session_table.specs.Table.{closed_at, gives_up, holds, idle, meanwhile, ready_at};
    ghost use Rattle.session_table.specs.Views.{counts_lines, fresh, is_closed, is_inside};
    ghost use Rattle.virtual_path.specs.Path.{path_text};

    /// A new session of a client at this address.
    pub fn new(alloc: A, settings: Settings<A>, peer: [u8; 4]) -> Result<Session<A>, AllocError>
        ensures fresh { IfOk result (λ session.
            session ≡ record { view = fresh settings peer; held = [] }) }
    {
        let held = Vec::new(alloc.clone()?);
        let state = State::new(alloc, settings, peer)?;
        Ok(Session { state, held })
    }

    /// Makes the greeting, which comes before any line.
    pub fn greet<R: Drop, K: Drop>(&self) -> RowResult<A, R, K>
        ensures row { IfOk result (λ actions.
            Then self.now.view actions.items ≡ greeting self.now.view) }
    {
        greeting(&self.state)
    }

    pub(crate) fn is_closed(&self) -> bool
        ensures closed { result ≡ is_closed self.now.view.stage }
    {
        self.state.stage() == Stage::Closed
    }

    /// Returns whether a user is logged in.
    pub fn is_inside(&self) -> bool
        ensures inside { result ≡ is_inside self.now.view.stage }
    {
        self.state.stage() == Stage::Inside
    }

    /// The working directory.
    pub fn directory(&self) -> &str
        ensures directory { result.now ≡ path_text self.now.view.cwd }
    {
        self.state.cwd().text()
    }

    /// Returns whether lines are served or held, and not ignored.
    fn is_open(&self) -> bool
        ensures open { result ≡ counts_lines self.now.view }
    {
        !self.is_closed() && self.state.control() == Control::Open
    }

    /// Returns whether the input `Held` takes a line.
    pub fn held_due(&self) -> bool
        ensures due { result ≡ is_due self.now.view self.now.held }
    {
        self.is_open() && !self.state.is_busy() && !self.held.is_empty()
    }

    /// Returns whether the step of this input serves PASS. No other step asks for admission (`others_ask_no_floors` of
    /// `session_table`), so a host lends the floors to such a step alone.
    pub fn asks_floors<K>(&self, input: &Input<A, K>) -> bool
        ensures asks { result ≡ asks_floors self.now.held input.now }
    {
        match input {
            Input::Line(item) => self.held.is_empty() && is_pass(item),
            Input::Held => match self.held.first() {
                Some(item) => is_pass(item),
                None => false,
            },
            _ => false,
        }
    }

    /// The line whose turn it is at an input: a new one if no line waits, otherwise the first of those that wait.
    pub fn in_turn<'s, K>(&'s self, input: &'s Input<A, K>) -> Option<&'s LineItem<A>>
        ensures turn { option_map (λ item. item_of item.now) result
            ≡ in_its_turn input.now self.now.held }
    {
        match input {
            Input::Line(item) if self.held.is_empty() => Some(item),
            Input::Held => self.held.first(),
            _ => None,
        }
    }

    // Returns whether the line of an input is PASS in its turn with the password of the user who was named.
    fn is_right<K>(&self, users: &Authorizer<A>, input: &Input<A, K>) -> bool
        ensures right { result ≡ is_right users.now.users self.now.view.name
            (in_its_turn input.now self.now.held) }
    {
        match self.in_turn(input) {
            Some(item) => is_right(users, self.state.name(), item),
            None => false,
        }
    }

    /// The name of the user for whom the step of this input asks for admission: the one who was named, if it is PASS in
    /// its turn with the right password. None for any other input. So a host can decline a login before it is made.
    pub fn entering<K>(&self, users: &Authorizer<A>, input: &Input<A, K>) -> Option<&str>
        ensures entering { option_map (λ name. name.now) result
            ≡ entering users.now.users self.now.view self.now.held input.now }
    {
        let serves = self.is_open() && !self.state.is_busy();
        if serves && self.state.stage() == Stage::Named && self.is_right(users, input) {
            return Some(self.state.name());
        }
        None
    }

    fn nothing<R: Drop, K: Drop>(&self) -> RowResult<A, R, K>
        ensures idle { IfOk result (λ actions. actions.items ≡ []) }
    {
        room_for(&self.state, 0)
    }

    /// Takes one line too many: aborts a running transfer and closes the control connection.
    fn give_up<R: Drop, K: Drop>(&mut self) -> RowResult<A, R, K>
        ensures row { IfOk result (λ actions.
            Then self.new.view actions.items ≡ gives_up self.old.view) }
        ensures held { self.new.held ≡ self.old.held }
        ensures unchanged { OnErr result (self.new ≡ self.old) }
    {
        let mut actions = room_for(&self.state, 3)?;
        let refused = Answer::Refusal(Refusal::TooManyHeldLines);
        push_reserved(&mut actions, Action::Say(refused));
        push_abort(&mut actions, self.state.runs());
        push_reserved(&mut actions, Action::CloseControl);
        self.state.close_control();
        Ok(actions)
    }

    /// Holds one line more.
    fn keep<R: Drop, K: Drop>(&mut self, item: LineItem<A>) -> RowResult<A, R, K>
        ensures row { IfOk result (λ actions.
            IsTaken
            (record { plan = idle self.old.view; held = self.old.held ++ item_of item ∷ [] })
            self.new actions.items) }
        ensures unchanged { OnErr result (self.new ≡ self.old) }
    {
        let actions = self.nothing()?;
        self.held.push(item)?;
        Ok(actions)
    }

    /// Holds a line; the 17th ends the control connection.
    fn hold<R: Drop, K: Drop>(&mut self, item: LineItem<A>) -> RowResult<A, R, K>
        ensures row { IfOk result (λ actions.
            IsTaken (holds self.old.view self.old.held (item_of item)) self.new actions.items) }
        ensures unchanged { OnErr result (self.new ≡ self.old) }
    {
        if self.held.len() >= MOST_HELD {
            drop(item);
            return self.give_up();
        }
        self.keep(item)
    }

    /// A line while a transfer runs or a passive port is awaited.
    fn take_meanwhile<F: Allocator + Clone, S: Store<A>>(
        &mut self,
        users: &Authorizer<A>,
        floors: &mut Floors<F>,
        store: &mut S,
        item: LineItem<A>,
        moment: u64,
    ) -> RowResult<A, S::Source, S::Sink>
        ensures row { IfOk result (λ actions.
            Took S.Step
            (meanwhile users.now.users self.old.view self.old.held moment
            (item_of item)) store.old store.new floors.old floors.new
            self.new actions.items) }
        ensures unchanged { OnErr result (self.new ≡ self.old) }
        ensures stops { OnErr result (
            Stops {A = A} {R = S.Source} {K = S.Sink} S.Step
            (meanwhile users.now.users self.old.view self.old.held moment
            (item_of item)).plan store.old store.new) }
        ensures uncounted { OnErr result (floors.new ≡ floors.old) }
    {
        match meanwhile_of(&item) {
            Meanwhile::Served => {
                let answer = serve(&mut self.state, users, floors, store, &item, moment);
                drop(item);
                answer
            }
            Meanwhile::QuitsLater => {
                drop(item);
                let actions = self.nothing()?;
                self.state.await_quit();
                Ok(actions)
            }
            Meanwhile::Waits => self.hold(item),
        }
    }

    /// A new line.
    fn take_line<F: Allocator + Clone, S: Store<A>>(
        &mut self,
        users: &Authorizer<A>,
        floors: &mut Floors<F>,
        store: &mut S,
        item: LineItem<A>,
        moment: u64,
    ) -> RowResult<A, S::Source, S::Sink>
        ensures row { IfOk result (λ actions.
            SessionStep S.Step users.now.users self.old.view self.old.held
            moment (Line item) store.old store.new floors.old floors.new
            self.new.view self.new.held actions.items) }
        ensures unchanged { OnErr result (self.new ≡ self.old) }
        ensures stops { OnErr result (
            SessionStops {A = A} {R = S.Source} {K = S.Sink} S.Step users.now.users
            self.old.view self.old.held moment (Line item)
            store.old store.new) }
        ensures uncounted { OnErr result (floors.new ≡ floors.old) }
    {
        if !self.is_open() {
            drop(item);
            return self.nothing();
        }
        if self.state.is_busy() {
            return self.take_meanwhile(users, floors, store, item, moment);
        }
        if !self.held.is_empty() {
            return self.hold(item);
        }
        let answer = serve(&mut self.state, users, floors, store, &item, moment);
        drop(item);
        answer
    }

    /// The first of the held lines.
    fn take_held<F: Allocator + Clone, S: Store<A>>(
        &mut self,
        users: &Authorizer<A>,
        floors: &mut Floors<F>,
        store: &mut S,
        moment: u64,
    ) -> RowResult<A, S::Source, S::Sink>
        ensures row { IfOk result (λ actions.
            SessionStep S.Step users.now.users self.old.view self.old.held
            moment Held store.old store.new floors.old floors.new
            self.new.view self.new.held actions.items) }
        ensures unchanged { OnErr result (self.new ≡ self.old) }
        ensures stops { OnErr result (
            SessionStops {A = A} {R = S.Source} {K = S.Sink} S.Step users.now.users
            self.old.view self.old.held moment Held store.old store.new) }
        ensures uncounted { OnErr result (floors.new ≡ floors.old) }
    {
        if !self.held_due() {
            return self.nothing();
        }
        let actions = serve(&mut self.state, users, floors, store, &self.held[0], moment)?;
        drop(self.held.remove(0));
        Ok(actions)
    }

    /// A passive port, or that none was free; after CloseControl and Closed it is ignored.
    pub(crate) fn take_port<R: Drop, K: Drop>(
        &mut self,
        users: &Authorizer<A>,
        port: Option<u16>,
    ) -> RowResult<A, R, K>
        ensures row { IfOk result (λ actions.
            Then self.new.view actions.items
            ≡ ready_at users.now.users self.old.view port) }
        ensures held { self.new.held ≡ self.old.held }
        ensures unchanged { OnErr result (self.new ≡ self.old) }
    {
        if self.is_closed() || self.state.control() == Control::Closing {
            return self.nothing();
        }
        take_port(&mut self.state, users, port)
    }

    /// The control connection is gone.
    fn close<R: Drop, K: Drop>(&mut self) -> RowResult<A, R, K>
        ensures row { IfOk result (λ actions.
            Then self.new.view actions.items ≡ closed_at self.old.view) }
        ensures held { self.new.held ≡ self.old.held }
        ensures unchanged { OnErr result (self.new ≡ self.old) }
    {
        if self.is_closed() {
            return self.nothing();
        }
        close(&mut self.state)
    }

    /// Takes an input and returns the actions: the row of the session table. The moment is in
    /// milliseconds since 1970.
    ///
    /// `Err` is lack of memory: the session and the floors are then unchanged, the store is as its looks, if any, left
    /// it, and a sink that came back is dropped. `take_end` leaves it with the caller instead.
    pub fn step<F: Allocator + Clone, S: Store<A>>(
        &mut self,
        users: &Authorizer<A>,
        floors: &mut Floors<F>,
        store: &mut S,
        input: Input<A, S::Sink>,
        moment: u64,
    ) -> RowResult<A, S::Source, S::Sink>
        ensures row { IfOk result (λ actions.
            SessionStep S.Step users.now.users self.old.view self.old.held
            moment input store.old store.new floors.old floors.new
            self.new.view self.new.held actions.items) }
        ensures unchanged { OnErr result (self.new ≡ self.old) }
        ensures stops { OnErr result (
            SessionStops {A = A} {R = S.Source} {K = S.Sink} S.Step users.now.users
            self.old.view self.old.held moment input store.old store.new) }
        ensures uncounted { OnErr result (floors.new ≡ floors.old) }
    {
        match input {
            Input::Line(item) => self.take_line(users, floors, store, item, moment),
            Input::Held => self.take_held(users, floors, store, moment),
            Input::TransferEnded { end, sink } => {
                let mut sink = sink;
                self.take_end(users, store, end, &mut sink, moment)
            }
            Input::DataReady(port) => self.take_port(users, port),
            Input::Closed => self.close(),
        }
    }
}
