//! The host of a control session.

ghost use Rattle.std.specs.Prelude.{◌≡◌, ◌<◌, IfErr, IfOk, IfSome, OnErr, [], false, length, option_map, string_bytes, true};
ghost use Rattle.std.specs.declared.alloc.Global.{Global};
ghost use Rattle.control_session.specs.Calls.{reads_within};
ghost use Rattle.control_session.specs.Rows.{IsRow};
ghost use Rattle.control_session.specs.Turns.{StepRefused, Stepped};
ghost use Rattle.control_session.specs.Sides.{back_in, given_of, is_line};
ghost use Rattle.session_core.specs.Events.{is_event};
ghost use Rattle.session_table.specs.Views.{is_closed};
ghost use Rattle.socket_host.specs.Records.{path_of};
ghost use Rattle.socket_host.specs.Standing.{Follows};
ghost use Rattle.socket_host.specs.Patience.{FollowsInWaits, delay_of, is_wrong_after};
ghost use Rattle.socket_host.specs.Doing.{SocketDoes, Stays, kept_users};
ghost use Rattle.socket_host.specs.Lending.{LentFor, RefusedFor};

use crate::control::ControlSocket;
use crate::declining::{line_of, tell_declined};
use crate::judging::{
    asks_floors, cause_of_cut, cause_with, ends_file, ends_listing, entrant, is_end, is_line,
    is_text, is_without_port, kind_of,
};
use crate::keeping::PortWatch;
use crate::last_replies::{CROWDED, last_reply, time_out_reply};
use crate::moments::millis_since_1970;
use crate::refusals::{ending_refusal, is_refused};
use crate::side::SocketSide;
use crate::standing::Standing;
use crate::unguaranteed::{Entrant, entrant_of, reason_for, tell_unguaranteed};
use crate::waiting::{Beside, is_due, is_life, passed_limit};
use client_patience::{TimeOut, Waits};
use control_session::{Host, Leaving, NoStep, Piece, Session, close_by, end_by, step_by};
use event_word::micros;
use ftp_wire::HostPort;
use lent_parts::PartsName;
use rate_floors::{CarryFault, Floors};
use recorded_store::{Recorder, StoreRecord};
use server_house::{
    BegunTransfer, ClientSession, EndCause, HeldTerms, OwnRuns, ServerHooks, ServerRuntime,
    SessionEvent, SessionRefusal, ShutdownStage, StoreNote, TransferKind, TransferRecord,
    copy_settings,
};
use session_table::{Action, HookCall, Input, Job, Settings, Text};
use std::alloc::{AllocError, Global};
use std::time::Duration;
use std::{io, mem, thread};
use virtual_path::VPath;
use virtual_tree::Store;

/// Interval between two looks, of a session that delays a reply, whether the server ends, in milliseconds.
const LOOK: u64 = 50;

// A transfer that was begun, at `since` in microseconds.
#[derive(Clone, Copy)]
struct Begun {
    since: u64,
    kind: TransferKind,
    // its type is that of texts
    is_text: bool,
}

/// The parts of a host that need memory.
#[derive(Drop)]
pub struct SessionNeeds {
    /// The terms in force.
    pub held: HeldTerms,
    /// Floors of nobody, lent to steps that need none.
    pub no_floors: Floors,
}

/// The host of the session of one control connection. It cannot be dropped: its data side leaves its ticket.
pub struct SocketHost<'h, R, S: Store<Global>, H: Drop, B: PartsName, T> {
    rt: &'h R,
    // the user, and the terms whose users are lent to each step
    standing: Standing,
    socket: ControlSocket,
    side: SocketSide<'h, R, S, H, B, T>,
    // the session, as the owner's handler knows it
    own: ClientSession,
    waits: Waits,
    // when the port that is kept was looked after
    watch: PortWatch,
    // the last transfer that was begun
    begun: Begun,
    // the path of the last file that was opened, if it is known
    path: Option<VPath>,
    // the reply that comes next is to a wrong password
    is_wrong: bool,
    // the last step said a refusal: if it was the end of an upload, the store refused the file
    is_refused: bool,
    // lent to steps that need no floors
    no_floors: Floors,
}

impl<'h, R, S, H, B, T> SocketHost<'h, R, S, H, B, T>
where
    R: ServerRuntime,
    S: Store<Global> + Recorder,
    H: ServerHooks,
    B: PartsName,
    T: OwnRuns,
{
    /// The host of this session, over its connection and with this data side, which holds these terms. The floors are
    /// those of nobody.
    pub fn new(
        rt: &'h R,
        socket: ControlSocket,
        side: SocketSide<'h, R, S, H, B, T>,
        own: ClientSession,
        needs: SessionNeeds,
    ) -> Self
        ensures own { result.own ≡ own }
    {
        let SessionNeeds { held, no_floors } = needs;
        let now = micros(rt);
        SocketHost {
            rt,
            standing: Standing::new(rt.alloc(), held),
            socket,
            side,
            own,
            waits: Waits::new(now),
            watch: PortWatch::new(now),
            begun: Begun {
                since: 0,
                kind: TransferKind::Listed,
                is_text: true,
            },
            path: None,
            is_wrong: false,
            is_refused: false,
            no_floors,
        }
    }

    /// Leaves its ticket to the next session. A transfer that still runs is ended.
    pub fn leave(self) {
        let SocketHost {
            rt: _,
            standing: _,
            socket: _,
            side,
            own: _,
            waits: _,
            watch: _,
            begun: _,
            path: _,
            is_wrong: _,
            is_refused: _,
            no_floors: _,
        } = self;
        side.leave();
    }

    /// The settings of the session.
    pub(crate) fn copy_settings(&self) -> Result<Settings, AllocError> {
        let arrived = self.socket.arrived_at();
        copy_settings(self.rt.alloc(), &self.standing.terms().settings, arrived)
    }

    fn is_ending(&self) -> bool {
        self.side.house.ending.has_begun(ShutdownStage::Sessions)
    }

    // Returns whether the owner of the server has ended this session.
    fn is_ended(&self) -> bool {
        self.side.house.is_to_end(self.own.number)
    }

    // The terms in force, if they were exchanged. Without memory they are had at the next call.
    fn newer_terms(&self) -> Option<HeldTerms> {
        let terms = &self.side.house.terms;
        if !self.standing.is_behind(terms.exchanges()) {
            return None;
        }
        terms.hold(self.rt).ok()
    }

    // Compares newer terms, if there are any. The session keeps those that it has, if it is to.
    fn take_terms(&mut self, newer: Option<HeldTerms>, keeps: bool)
        ensures kept { keeps ≡ true → self.new.standing.held ≡ self.old.standing.held }
        ensures user { self.new.standing.user ≡ self.old.standing.user }
        ensures side { self.new.side ≡ self.old.side }
    {
        if let Some(newest) = newer {
            self.standing.judge(&newest.terms().users);
            self.standing.take(newest, keeps);
        }
    }

    // Compares the terms in force, if they were exchanged, and keeps those that it has.
    fn compare_terms(&mut self)
        ensures stays { Stays self.old.standing self.new.standing }
        ensures side { self.new.side ≡ self.old.side }
    {
        let newer = self.newer_terms();
        self.take_terms(newer, true);
    }

    // Leaves the place among the sessions of a user.
    fn leave_place(&self) {
        self.side
            .house
            .logins
            .lock(self.rt)
            .log_out(self.own.number);
    }

    // Leaves the place that was taken for a step with PASS, if nobody is logged in after it.
    fn keep_place(&self, was_pass: bool, session: &Session<Global>) {
        if was_pass && !session.is_inside() {
            self.leave_place();
        }
    }

    // Takes a place among the sessions of a user. Returns whether there is one.
    fn takes_place(&self, user: u32) -> bool {
        self.side
            .house
            .logins
            .lock(self.rt)
            .log_in(self.own.number, user)
    }

    // Ends the session in the place of a step that would log a user in, by newer terms if there are any, who is logged in as
    // often as one user may be. The client is told. Otherwise the session has a place among those of the user.
    fn declines(
        &mut self,
        session: &Session<Global>,
        input: &Option<Input<Global, S::Sink>>,
        newer: &Option<HeldTerms>,
    ) -> bool
        ensures line { IfSome input.now (λ input.
            result ≡ true → is_line (given_of input) ≡ true) }
        ensures standing { self.new.standing ≡ self.old.standing }
        ensures side { self.new.side ≡ self.old.side }
    {
        if !is_line(input) {
            return false;
        }
        let terms = match newer {
            Some(newest) => newest.terms(),
            None => self.standing.terms(),
        };
        let Some(user) = entrant(session, &terms.users, input) else {
            return false;
        };
        if self.takes_place(user) {
            return false;
        }
        self.report(SessionEvent::Refused(SessionRefusal::TooManySessions));
        let _ = self.socket.write(CROWDED, &self.side.house.ending);
        true
    }

    // The last reply to the client, if the session is to end now, other than for a limit of time.
    fn last_reply(&self) -> Option<&'static [u8]> {
        let drains = self.side.house.ending.has_begun(ShutdownStage::Drain);
        let is_busy = self.side.is_busy();
        last_reply(
            self.is_ending(),
            drains,
            self.is_ended(),
            self.standing.is_removed(),
            is_busy,
        )
    }

    // Writes the last reply to the client.
    fn write_last(&mut self, reply: &[u8])
        ensures standing { self.new.standing ≡ self.old.standing }
        ensures side { self.new.side ≡ self.old.side }
    {
        if self.is_ended() {
            self.report(SessionEvent::Ended);
        }
        let _ = self.socket.write(reply, &self.side.house.ending);
    }

    // Lets this many seconds pass, without a lock; ends early if the server ends, or its owner has ended the session.
    fn delay(&self, seconds: u32) {
        if seconds == 0 {
            return;
        }
        let since = micros(self.rt);
        for _ in self.rt.forever() {
            let ends = self.is_ending() || self.is_ended();
            if is_due(ends, since, micros(self.rt), seconds) {
                return;
            }
            thread::sleep(self.rt, Duration::from_millis(LOOK));
        }
    }

    // The seconds by which the next reply is delayed: those of the server if it is to a wrong password.
    fn take_delay(&mut self) -> u32
        ensures delay { result ≡ delay_of self.old.is_wrong self.old.side.house.now.patience }
        ensures taken { self.new.is_wrong ≡ false }
        ensures standing { self.new.standing ≡ self.old.standing }
        ensures side { self.new.side ≡ self.old.side }
    {
        if mem::replace(&mut self.is_wrong, false) {
            self.side.house.patience.login_delay
        } else {
            0
        }
    }

    // Follows who is logged in, and when, and whether the next reply is to a wrong password.
    fn follow(&mut self, call: &HookCall<Global>)
        ensures follows { Follows self.old.standing call.now self.new.standing }
        ensures waits { FollowsInWaits self.old.waits call.now self.new.waits }
        ensures wrong { self.new.is_wrong ≡ is_wrong_after self.old.is_wrong call.now }
        ensures side { self.new.side ≡ self.old.side }
    {
        match call {
            HookCall::Login(name) => {
                self.standing.log_in(self.rt.alloc(), name.as_str());
                self.waits.log_in();
            }
            HookCall::Logout(_) => {
                self.leave_place();
                self.standing.log_out();
                self.waits.log_out(micros(self.rt));
            }
            HookCall::LoginFailed(_) => self.is_wrong = true,
            _ => {}
        }
    }

    // The path of the file of the last transfer, if it is one and is known.
    fn last_path(&self) -> Option<&str>
        ensures path { option_map (λ path. path.now) result
            ≡ path_of self.now.begun.kind self.now.path }
    {
        match (self.begun.kind, &self.path) {
            (TransferKind::Listed, _) | (_, None) => None,
            (_, Some(path)) => Some(path.text()),
        }
    }

    // The record of the transfer whose end was reported last.
    fn record(&self, cause: Option<EndCause>) -> TransferRecord<'_>
        ensures user { result.user.now ≡ string_bytes self.now.standing.name }
        ensures kind { (result.kind ≡ self.now.begun.kind)
            × (result.is_text ≡ self.now.begun.is_text) }
        ensures path { option_map (λ path. path.now) result.path
            ≡ path_of self.now.begun.kind self.now.path }
        ensures octets { result.octets ≡ self.now.side.moved }
        ensures cause { result.cause ≡ cause }
    {
        TransferRecord {
            user: self.standing.name(),
            kind: self.begun.kind,
            path: self.last_path(),
            is_text: self.begun.is_text,
            octets: self.side.moved(),
            micros: micros(self.rt).saturating_sub(self.begun.since),
            cause,
            error: match cause {
                Some(EndCause::File) => self.store_error(),
                _ => None,
            },
        }
    }

    // The last error of the machine in the session's store or files, if there was one since it was asked for.
    fn store_error(&self) -> Option<io::Error> {
        self.side
            .house
            .store_of(self.own.number)
            .lock(self.rt)
            .take_error()
    }

    // The octets of the file that is sent, if the owner asks for that. The call is none of the session's.
    fn size(&self) -> Option<u64> {
        let path = match (self.begun.kind, &self.path) {
            (TransferKind::Sent, Some(path)) => path,
            _ => return None,
        };
        if !self.side.house.handler.lock(self.rt).wants_sizes() {
            return None;
        }
        let mut store = self.side.house.store_of(self.own.number).lock(self.rt);
        let found = store.stat(path);
        let _ = store.take_last();
        let _ = store.take_error();
        match found {
            Ok(meta) => Some(meta.size),
            Err(_) => None,
        }
    }

    // The last transfer as it was begun, of a file of this size.
    fn beginning(&self, size: Option<u64>) -> BegunTransfer<'_>
        ensures user { (result.user.now ≡ string_bytes self.now.standing.name)
            × (result.number ≡ self.now.standing.user) }
        ensures begun { (result.kind ≡ self.now.begun.kind)
            × (result.since ≡ self.now.begun.since) }
        ensures path { option_map (λ path. path.now) result.path
            ≡ path_of self.now.begun.kind self.now.path }
        ensures size { result.size ≡ size }
    {
        BegunTransfer {
            user: self.standing.name(),
            number: self.standing.user(),
            kind: self.begun.kind,
            path: self.last_path(),
            size,
            since: self.begun.since,
        }
    }

    // Reports that the last transfer was begun.
    fn report_begin(&self) {
        let transfer = self.beginning(self.size());
        self.side
            .house
            .handler
            .lock(self.rt)
            .on_begun(self.own, &transfer);
    }

    // Reports the end of the last transfer that was begun.
    fn report_end(&self, cause: Option<EndCause>) {
        let record = self.record(cause);
        self.side
            .house
            .handler
            .lock(self.rt)
            .on_transfer(self.own, &record);
    }

    // Reports a change of the store, or a fault.
    fn report_change(&self, record: &StoreRecord) {
        let error = match record {
            StoreRecord::Refused(_) => self.store_error(),
            _ => None,
        };
        let note = StoreNote {
            user: self.standing.name(),
            record,
            error,
        };
        self.side
            .house
            .handler
            .lock(self.rt)
            .on_store(self.own, &note);
    }

    // Follows a step, which may have said a refusal, and its call of the store: the file that is opened, a change, or a
    // fault.
    fn follow_store(&mut self, record: Option<StoreRecord>, is_refused: bool)
        ensures standing { self.new.standing ≡ self.old.standing }
        ensures side { self.new.side ≡ self.old.side }
        ensures refused { self.new.is_refused ≡ is_refused }
    {
        self.is_refused = is_refused;
        match record {
            Some(StoreRecord::OpenedToRead(path)) => self.path = path,
            Some(StoreRecord::OpenedToWrite(path)) => self.path = path,
            Some(change) => self.report_change(&change),
            None => {}
        }
    }

    // Reports the refusal of a step by which the session ends, if it was made and says one.
    fn report_made<F, K>(&self, made: &Result<Vec<Action<Global, F, K>>, NoStep<Global, K>>) {
        if let Some(why) = ending_refusal(made) {
            self.report(SessionEvent::Refused(why));
        }
    }

    // Makes a step of the session. Returns the record of its store too, and why the guarantee of the user whom it would
    // have logged in did not fit, if it was refused for that.
    fn step_over(
        &mut self,
        session: &mut Session<Global>,
        input: &mut Option<Input<Global, S::Sink>>,
        entrant: &Option<Entrant>,
    ) -> (
        Result<Vec<Action<Global, S::Source, S::Sink>>, NoStep<Global, S::Sink>>,
        Option<StoreRecord>,
        Option<CarryFault>,
    )
        ensures row { IfSome input.old (λ input. IfOk result.0 (λ actions.
            LentFor (IsRow S.Step) (kept_users self.old.standing)
            session.old (given_of input) session.new actions.items)) }
        ensures unchanged { OnErr result.0 (session.new ≡ session.old) }
        ensures refused { IfSome input.old (λ input. IfErr result.0 (λ why.
            RefusedFor {A = Global} {R = S.Source} (IsRow S.Step) (kept_users self.old.standing)
            session.old (given_of input) (back_in input) why)) }
        ensures standing { self.new.standing ≡ self.old.standing }
        ensures side { self.new.side ≡ self.old.side }
    {
        let moment = millis_since_1970(self.rt);
        let users = &self.standing.terms().users;
        if asks_floors(session, input) {
            let mut floors = self.side.house.floors.lock(self.rt);
            let mut store = self.side.house.store_of(self.own.number).lock(self.rt);
            let made = step_by(session, users, &mut *floors, &mut *store, input, moment);
            let reason = reason_for(&made, &*floors, entrant);
            return (made, store.take_last(), reason);
        }
        // Asks for no admission (`others_ask_no_floors` of `session_table`), so needs no lock of the floors.
        let floors = &mut self.no_floors;
        let mut store = self.side.house.store_of(self.own.number).lock(self.rt);
        let made = step_by(session, users, floors, &mut *store, input, moment);
        (made, store.take_last(), None)
    }

    // Reports an event of the session that is none of its steps.
    fn report(&self, event: SessionEvent) {
        self.side
            .house
            .handler
            .lock(self.rt)
            .on_session(self.own, event);
    }

    // Ends the session in the place of a step for a line, if it is to end now. The client is told.
    fn ends_instead(&mut self, input: &Option<Input<Global, S::Sink>>) -> bool
        ensures line { IfSome input.now (λ input.
            result ≡ true → is_line (given_of input) ≡ true) }
        ensures stays { Stays self.old.standing self.new.standing }
        ensures side { self.new.side ≡ self.old.side }
    {
        if !is_line(input) {
            return false;
        }
        self.compare_terms();
        match self.last_reply() {
            Some(reply) => {
                self.write_last(reply);
                true
            }
            None => false,
        }
    }

    // Ends the session in the place of a step for a line, if it is to end now or the step would log in a user who is logged
    // in as often as one user may be. The client is told.
    fn is_over(
        &mut self,
        session: &Session<Global>,
        input: &Option<Input<Global, S::Sink>>,
        newer: &Option<HeldTerms>,
    ) -> bool
        ensures line { IfSome input.now (λ input.
            result ≡ true → is_line (given_of input) ≡ true) }
        ensures stays { Stays self.old.standing self.new.standing }
        ensures side { self.new.side ≡ self.old.side }
    {
        if self.ends_instead(input) {
            return true;
        }
        self.declines(session, input, newer)
    }

    // Tells the client that it has passed a limit of time.
    fn time_out(&mut self, why: TimeOut)
        ensures standing { self.new.standing ≡ self.old.standing }
        ensures side { self.new.side ≡ self.old.side }
    {
        self.report(SessionEvent::TimedOut(why));
        let _ = self
            .socket
            .write(time_out_reply(why), &self.side.house.ending);
    }

    // Notes a sign of life.
    fn hear(&mut self)
        ensures standing { self.new.standing ≡ self.old.standing }
        ensures side { self.new.side ≡ self.old.side }
    {
        let now = micros(self.rt);
        self.waits.hear(now);
        self.watch.hear(now);
    }

    // Reads once, and notes a sign of life.
    fn read_some(&mut self, buffer: &mut [u8]) -> io::Result<Piece>
        requires room { 0 < length buffer.old }
        ensures bound { IfOk result (λ piece. reads_within piece buffer.new) }
        ensures standing { self.new.standing ≡ self.old.standing }
        ensures side { self.new.side ≡ self.old.side }
    {
        let is_busy = self.side.is_busy();
        let piece = self.socket.read(is_busy, buffer)?;
        if is_life(is_busy, piece) {
            self.hear();
        }
        Ok(piece)
    }

    // Looks after the ports of the session, each second.
    fn tend_port(&mut self)
        ensures standing { self.new.standing ≡ self.old.standing }
        ensures payer { self.new.side.run.payer ≡ self.old.side.run.payer }
    {
        let now = micros(self.rt);
        if self.watch.is_due(now) {
            let is_silent = self.watch.is_silent(now);
            self.side.tend_ports(is_silent);
        }
    }

    // Passes on the events of the data side after the end of the control connection.
    fn end_with(&mut self, session: &mut Session<Global>, event: Input<Global, S::Sink>)
        requires closed { is_closed session.old.view.stage ≡ true }
        requires event { is_event event ≡ true }
        ensures row { LentFor (IsRow {A = Global} {R = S.Source} S.Step)
            (kept_users self.old.standing) session.old (given_of event) session.new [] }
        ensures closed { is_closed session.new.view.stage ≡ true }
        ensures standing { self.new.standing ≡ self.old.standing }
        ensures side { self.new.side ≡ self.old.side }
    {
        let record = {
            let moment = millis_since_1970(self.rt);
            let mut store = self.side.house.store_of(self.own.number).lock(self.rt);
            let floors = &mut self.no_floors;
            let users = &self.standing.terms().users;
            end_by(session, users, floors, &mut *store, event, moment);
            store.take_last()
        };
        self.follow_store(record, false);
    }

    /// Ends the control connection in such a way that the last reply arrives.
    pub fn hang_up(&mut self, buffer: &mut [u8]) {
        self.socket.hang_up(buffer);
    }
}

impl<'h, R, S, H, B, T> Host<Global> for SocketHost<'h, R, S, H, B, T>
where
    R: ServerRuntime,
    S: Store<Global> + Recorder,
    H: ServerHooks,
    B: PartsName,
    T: OwnRuns,
{
    type Store = S;

    type Source = S::Source;

    type Sink = S::Sink;

    ghost Step = { S.Step };

    ghost Does = { λ old call new.
        SocketDoes old.standing old.side.run.payer call new.standing new.side.run.payer };

    fn step(
        &mut self,
        session: &mut Session<Global>,
        input: &mut Option<Input<Global, S::Sink>>,
    ) -> Result<Vec<Action<Global, S::Source, S::Sink>>, NoStep<Global, S::Sink>> {
        let newer = self.newer_terms();
        if self.is_over(session, input, &newer) {
            return Err(NoStep::Over);
        }
        let is_pass = asks_floors(session, input);
        self.take_terms(newer, session.is_inside());
        let line = line_of(self.rt.alloc(), session, input);
        let users = &self.standing.terms().users;
        let entrant = entrant_of(self.rt.alloc(), session, users, input);
        let (made, record, reason) = self.step_over(session, input, &entrant);
        self.keep_place(is_pass, session);
        self.follow_store(record, is_refused(&made));
        self.report_made(&made);
        let (house, user) = (self.side.house, self.standing.name());
        tell_declined(self.rt, house, self.own, user, session, &line, &made);
        tell_unguaranteed(self.rt, house, self.own, &entrant, reason);
        made
    }

    fn close(
        &mut self,
        session: &mut Session<Global>,
        nobody: &mut Option<Text<Global>>,
    ) -> Option<Leaving<Global>> {
        let moment = millis_since_1970(self.rt);
        let mut store = self.side.house.store_of(self.own.number).lock(self.rt);
        let users = &self.standing.terms().users;
        let floors = &mut self.no_floors;
        match nobody.take() {
            Some(nobody) => close_by(session, users, floors, &mut *store, nobody, moment),
            None => unreachable!(),
        }
    }

    fn end(&mut self, session: &mut Session<Global>, event: &mut Option<Input<Global, S::Sink>>) {
        match event.take() {
            Some(event) => self.end_with(session, event),
            None => {}
        }
    }

    fn release(&mut self, user: u32) {
        self.side.house.floors.lock(self.rt).release(user);
    }

    fn note(&mut self, call: &HookCall<Global>) {
        self.follow(call);
        if ends_file(call) {
            self.report_end(cause_with(self.side.cause(), self.is_refused));
        }
        self.side
            .house
            .handler
            .lock(self.rt)
            .on_call(self.own, call);
    }

    fn write(&mut self, reply: &[u8]) -> io::Result<()> {
        let seconds = self.take_delay();
        self.delay(seconds);
        self.socket.write(reply, &self.side.house.ending)
    }

    fn read(&mut self, buffer: &mut [u8]) -> io::Result<Piece> {
        self.compare_terms();
        if let Some(reply) = self.last_reply() {
            self.write_last(reply);
            return Ok(Piece::AtEnd);
        }
        self.tend_port();
        match self.side.rest_beside(&self.socket) {
            Beside::Look => return Ok(Piece::Nothing),
            Beside::Rest => {
                self.socket.count_rest();
                self.hear();
                return Ok(Piece::Nothing);
            }
            Beside::Read => {}
        }
        let (is_busy, now) = (self.side.is_busy(), micros(self.rt));
        if let Some(why) = passed_limit(&self.waits, self.side.house.patience, is_busy, now) {
            self.time_out(why);
            return Ok(Piece::AtEnd);
        }
        self.read_some(buffer)
    }

    fn open_passive(&mut self) {
        self.side.open_passive();
    }

    fn connect_to(&mut self, to: HostPort) {
        self.side.connect_to(to);
    }

    fn drop_data(&mut self) {
        self.side.drop_data();
    }

    fn start(&mut self, job: &mut Option<Job<Global, S::Source, S::Sink>>) {
        if let Some(job) = job.take() {
            let since = micros(self.rt);
            self.begun = Begun {
                since,
                kind: kind_of(&job),
                is_text: is_text(&job),
            };
            self.report_begin();
            self.side.start(job, self.standing.user(), since);
        }
    }

    fn abort(&mut self) {
        self.side.abort();
    }

    fn look(&mut self) -> Option<Input<Global, S::Sink>> {
        let event = self.side.look(micros(self.rt));
        if is_without_port(&event) {
            if let Some(error) = self.side.port_fault() {
                self.report(SessionEvent::NoPort(error));
            }
        }
        if ends_listing(&event, self.begun.kind) {
            self.report_end(self.side.cause());
        }
        event
    }

    fn settle(&mut self) -> Option<Input<Global, S::Sink>> {
        let last = self.side.settle();
        if is_end(&last) {
            self.report_end(cause_of_cut(&last, self.is_ending(), self.is_ended()));
        }
        last
    }
}
