//! The handler.

ghost use Rattle.std.specs.Prelude.{◌≡◌, ◌≤◌, length};
ghost use Rattle.status_keeper.specs.Made.{waits_after};

use crate::cell::StatusCell;
use crate::endings::counted;
use crate::facts::{Counts, KeptAccount, KeptSession, KeptTransfer, StatusFacts};
use crate::kept_hooks::{KeptHooks, TransferCourse};
use crate::looks::note_look;
use crate::making::{floor_rate, group_name, lane_of, status_of, way_of};
use crate::shown::shown_path;
use crate::{accounts, sessions};
use event_word::micros;
use round_tally::HeldTally;
use server_house::{
    BegunTransfer, ClientSession, DeclinedCommand, NotEnded, NotServed, Reloaded, ServerEvent,
    ServerHooks, ServerLook, SessionEvent, SessionRefusal, StoreNote, TransferRecord,
    UnguaranteedLogin,
};
use session_table::HookCall;
use std::alloc::{AllocError, Global};
use std::sync::{Arc, Wait};
use std::time::Clock;

/// A handler that passes each call on to another, and keeps a status if it has a cell for it.
#[derive(Drop)]
pub struct StatusKeeper<R, N> {
    rt: R,
    within: N,
    facts: StatusFacts,
    cell: Option<Arc<StatusCell>>,
    transfers: Vec<KeptTransfer>,
    sessions: Vec<KeptSession>,
    accounts: Vec<KeptAccount>,
    counts: Counts,
}

fn path_of(alloc: Global, path: Option<&str>) -> Option<String> {
    shown_path(alloc, path?).ok()
}

// A transfer of a session that has begun, to be kept.
fn kept(
    alloc: Global,
    session: ClientSession,
    transfer: &BegunTransfer<'_>,
) -> Result<KeptTransfer, AllocError> {
    Ok(KeptTransfer {
        session: session.serial,
        connection: session.number as u64,
        user: String::from_str(alloc, transfer.user)?,
        number: transfer.number,
        peer: session.peer,
        kind: transfer.kind,
        path: path_of(alloc, transfer.path),
        size: transfer.size,
        since: transfer.since,
        granted: 0,
        rounds: HeldTally::NONE,
        looked: transfer.since,
        unmet: 0,
    })
}

// The calls of the machine that an end waits for, as this event or one before it told.
fn waits_after(before: u64, event: ServerEvent) -> u64
    ensures waits { result ≡ waits_after before event }
{
    match event {
        ServerEvent::Waits(calls) => calls,
        _ => before,
    }
}

// The place of the transfer of a session.
fn place_of(transfers: &[KeptTransfer], session: u64) -> Option<usize> {
    for place in 0..transfers.len() {
        if transfers[place].session == session {
            return Some(place);
        }
    }
    None
}

// The number of transfers before that of a session, in the order of sessions.
fn count_before(transfers: &[KeptTransfer], session: u64) -> usize
    ensures within { result ≤ length transfers.now }
{
    for place in 0..transfers.len() {
        if transfers[place].session > session {
            return place;
        }
    }
    transfers.len()
}

impl<R: Wait + AllocGlobal + Clock, N> StatusKeeper<R, N> {
    /// A handler over another, with the facts of a configuration and the cell for its status, if there is to be one.
    pub fn new(
        rt: R,
        within: N,
        facts: StatusFacts,
        cell: Option<Arc<StatusCell>>,
    ) -> StatusKeeper<R, N> {
        let transfers = Vec::new(rt.alloc());
        let sessions = Vec::new(rt.alloc());
        let accounts = Vec::new(rt.alloc());
        StatusKeeper {
            rt,
            within,
            facts,
            cell,
            transfers,
            sessions,
            accounts,
            counts: Counts::NONE,
        }
    }

    // Drops the transfer of a session.
    fn forget(&mut self, session: u64) {
        if let Some(place) = place_of(&self.transfers, session) {
            if place < self.transfers.len() {
                drop(self.transfers.remove(place));
            }
        }
    }

    // Keeps a transfer of a session. Without memory for it, it has no row.
    fn keep(&mut self, session: ClientSession, transfer: &BegunTransfer<'_>) {
        self.forget(session.serial);
        let alloc = self.rt.alloc();
        accounts::open(alloc, &mut self.accounts, transfer.user, transfer.number);
        if let Ok(kept) = kept(alloc, session, transfer) {
            let place = count_before(&self.transfers, kept.session);
            let _ = self.transfers.insert(place, kept);
        }
    }

    // A session does something now.
    fn stir(&mut self, session: ClientSession) {
        if self.cell.is_some() {
            let now = micros(&self.rt);
            sessions::stir(&mut self.sessions, session.serial, now);
        }
    }

    // Keeps who is inside.
    fn follow(&mut self, session: ClientSession, call: &HookCall<Global>) {
        match call {
            HookCall::Connect => sessions::arrive(&mut self.sessions, session, micros(&self.rt)),
            HookCall::Disconnect => sessions::leave(&mut self.sessions, session.serial),
            HookCall::Login(user) => sessions::log_in(
                self.rt.alloc(),
                &mut self.sessions,
                &self.facts.names,
                session.serial,
                user.as_str(),
            ),
            HookCall::Logout(_) => sessions::log_out(&mut self.sessions, session.serial),
            _ => {}
        }
    }

    // Counts a login that worked, or did not.
    fn count(&mut self, call: &HookCall<Global>) {
        match call {
            HookCall::Login(_) => self.counts.logins = self.counts.logins.saturating_add(1),
            HookCall::LoginFailed(_) => {
                self.counts.failed_logins = self.counts.failed_logins.saturating_add(1);
            }
            _ => {}
        }
    }

    // Notes what a look finds of a transfer.
    fn look_at(&mut self, place: usize, look: &ServerLook<'_>) {
        if place >= self.transfers.len() {
            return;
        }
        let transfer = &mut self.transfers[place];
        let lane = lane_of(look.lanes, transfer.connection);
        let missed = note_look(&self.facts, transfer, lane, look.micros);
        if missed > 0 {
            let (number, way) = (transfer.number, way_of(transfer.kind));
            accounts::miss(&mut self.accounts, number, way, missed);
        }
    }

    // Notes what a look finds of the transfers.
    fn note_looks(&mut self, look: &ServerLook<'_>) {
        for place in 0..self.transfers.len() {
            self.look_at(place, look);
        }
    }

    // Adds to the account of its user what a transfer got that has ended.
    fn close(&mut self, session: u64, moved: u64) {
        if let Some(place) = place_of(&self.transfers, session) {
            if place < self.transfers.len() {
                let transfer = &self.transfers[place];
                let (number, way) = (transfer.number, way_of(transfer.kind));
                let octets = moved.max(transfer.granted);
                accounts::grant(&mut self.accounts, number, way, octets);
            }
        }
    }
}

// The course of a transfer that has ended.
fn course_of<'a>(facts: &'a StatusFacts, transfer: &KeptTransfer) -> TransferCourse<'a> {
    TransferCourse {
        rounds: transfer.rounds,
        group: group_name(facts, transfer.number),
        guaranteed: floor_rate(&facts.limits, transfer.number, way_of(transfer.kind)),
        unmet: transfer.unmet,
    }
}

impl<R: Wait + AllocGlobal + Clock + Drop, N: KeptHooks> ServerHooks for StatusKeeper<R, N> {
    fn on_call(&mut self, session: ClientSession, call: &HookCall<Global>) {
        self.count(call);
        if self.cell.is_some() {
            self.follow(session, call);
            self.stir(session);
        }
        self.within.on_call(session, call);
    }

    fn on_session(&mut self, session: ClientSession, event: SessionEvent) {
        if let SessionEvent::Refused(SessionRefusal::TooManySessions) = event {
            self.counts.refused_logins = self.counts.refused_logins.saturating_add(1);
        }
        self.within.on_session(session, event);
    }

    fn on_declined(&mut self, session: ClientSession, command: &DeclinedCommand<'_>) {
        self.stir(session);
        self.within.on_declined(session, command);
    }

    fn on_unguaranteed(&mut self, session: ClientSession, login: &UnguaranteedLogin<'_>) {
        self.counts.refused_guarantees = self.counts.refused_guarantees.saturating_add(1);
        self.within.on_unguaranteed(session, login);
    }

    fn on_refused(&mut self, peer: [u8; 4], why: NotServed) {
        self.counts.refused = self.counts.refused.saturating_add(1);
        self.within.on_refused(peer, why);
    }

    fn on_server(&mut self, event: ServerEvent) {
        self.counts.waits = waits_after(self.counts.waits, event);
        self.within.on_server(event);
    }

    fn on_reload(&mut self, outcome: Reloaded<'_>) {
        if let (Reloaded::Taken(_), Some(cell)) = (outcome, &self.cell) {
            if let Some(facts) = cell.take_facts(&self.rt) {
                self.facts = facts;
            }
        }
        self.within.on_reload(outcome);
    }

    fn on_not_ended(&mut self, why: NotEnded<'_>) {
        self.within.on_not_ended(why);
    }

    fn wants_sizes(&self) -> bool {
        self.cell.is_some()
    }

    fn on_begun(&mut self, session: ClientSession, transfer: &BegunTransfer<'_>) {
        if self.cell.is_some() {
            self.keep(session, transfer);
            self.stir(session);
        }
        self.within.on_begun(session, transfer);
    }

    fn on_look(&mut self, look: &ServerLook<'_>) {
        self.counts.lost_lines = self.within.lost_lines();
        self.note_looks(look);
        if let Some(cell) = &self.cell {
            let alloc = self.rt.alloc();
            let made = status_of(
                alloc,
                &self.facts,
                &self.transfers,
                &self.sessions,
                &self.accounts,
                self.counts,
                look,
            );
            if let Ok(status) = made {
                cell.put(&self.rt, alloc, status);
            }
        }
        self.within.on_look(look);
    }

    fn on_transfer(&mut self, session: ClientSession, record: &TransferRecord<'_>) {
        self.counts.ended = self.counts.ended.saturating_add(1);
        self.counts.ended_moved = self.counts.ended_moved.saturating_add(record.octets);
        self.counts.endings = counted(self.counts.endings, record.cause);
        self.close(session.serial, record.octets);
        self.stir(session);
        match place_of(&self.transfers, session.serial) {
            Some(place) if place < self.transfers.len() => {
                let course = course_of(&self.facts, &self.transfers[place]);
                self.within.on_course(session, record, &course);
            }
            _ => self.within.on_transfer(session, record),
        }
        self.forget(session.serial);
    }

    fn on_store(&mut self, session: ClientSession, note: &StoreNote<'_>) {
        self.stir(session);
        self.within.on_store(session, note);
    }
}
