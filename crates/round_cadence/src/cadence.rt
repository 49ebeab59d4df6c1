//! The beats of all rows of a line.

ghost use Rattle.std.specs.Prelude.{◌≡◌, ◌≤◌, ◌+◌, replicate, IfOk};
ghost use Rattle.round_cadence.specs.declared.intervals.TheConstants.{LONGEST};
ghost use Rattle.round_cadence.specs.Beats.{new_beats, asked, capped, change, settled};
ghost use Rattle.round_pace.specs.Rows.{has_floor};
ghost use Rattle.round_cadence.specs.Closed.{closed_by, closed_group, closed_line};
ghost use Rattle.round_cadence.specs.Cadences.{worth_of, crowd_worth, session_worth, new_cadence, opens_at, opens_for, added_to, soonest, aligned, change_at, change_for, opens_of, add_to, align_if, settled_of, settle_of};

use crate::beat::{Beat, WayBeats};
use crate::intervals::{LONGEST, MOST_WORTH, WORTH, WORTH_UP};
use line_rates::{Ask, Name, Way};
use round_pace::{Credit, TransferRows};
use std::alloc::{AllocError, Allocator, Global};
use std::marker::Model;

/// The beats of the server, of each direction, of each group and each user, by their numbers, and of the sessions of each
/// user: each has a rate of its own, and they have one beat in common.
///
/// In a round, the caller adds each ask with its grant, and then settles each ask: the first settles its rows, and
/// others within the same rows change nothing.
#[derive(Drop)]
pub struct Cadence<A: Allocator = Global> {
    server: Beat,
    ways: WayBeats,
    groups: Vec<WayBeats, A>,
    users: Vec<WayBeats, A>,
    // of the sessions of the user with that number
    sessions: Vec<WayBeats, A>,
}

impl<A: Allocator> Model for Cadence<A> {
    ghost use Rattle.round_cadence.specs.Cadences.{Beats, beats_code};

    ghost Value = { Beats };

    ghost coded = { beats_code };

    ghost view = { λ c. record {
      server = c.server;
      ways = c.ways;
      groups = c.groups.items;
      users = c.users.items;
      sessions = c.sessions.items;
    } };
}

// The octets that a transfer is to have in a round.
fn worth_of(way: Way) -> u64
    ensures worth { result ≡ worth_of way }
{
    match way {
        Way::Down => WORTH,
        Way::Up => WORTH_UP,
    }
}

// The octets that a session is to have in a round of its own rate: at most a quarter of what it wants. Sessions share
// their credit, so what one that has all it wants leaves of a round's is lost to it.
fn session_worth(ask: Ask) -> u64
    ensures worth { result ≡ session_worth ask }
{
    worth_of(ask.way).min(ask.want / 4)
}

// The octets that the transfers of a crowd, which share a part of a row, are to have in a round: each as many, and together
// at most those that one of them asks for.
fn crowd_worth(way: Way, crowd: u64) -> u64
    ensures worth { result ≡ crowd_worth way crowd }
{
    worth_of(way).saturating_mul(crowd).min(MOST_WORTH)
}

fn open_beats<A: Allocator>(alloc: A, count: usize) -> Result<Vec<WayBeats, A>, AllocError>
    ensures beats { IfOk result (λ beats. beats.items ≡ replicate count new_beats) }
{
    vec![in alloc; WayBeats::new(); count]
}

fn opens_at(beats: &[WayBeats], number: u32, way: Way) -> u64
    ensures opens { result ≡ opens_at way beats.now number }
{
    let place = number as usize;
    if place < beats.len() {
        beats[place].beat(way).opens
    } else {
        0
    }
}

// A grant of the current round: the guarantee of the session of its ask, its octets, how many asks share the part of the
// row that the ask has, and the octets that the part is to have in a round.
#[derive(Clone, Copy)]
struct Share {
    floor: u64,
    grant: u64,
    crowd: u64,
    worth: u64,
}

// A beat after a grant of the current round.
fn added_to(beat: Beat, share: Share) -> Beat
    ensures added { result ≡ added_to share.floor share.grant share.crowd share.worth beat }
{
    if share.floor == 0 {
        beat.add(share.grant, share.worth)
    } else {
        beat.keep(share.grant, share.floor, share.worth, share.crowd)
    }
}

fn ways_added_to(beats: WayBeats, way: Way, share: Share) -> WayBeats
    ensures added { result
        ≡ change way (added_to share.floor share.grant share.crowd share.worth) beats }
{
    if share.floor == 0 {
        beats.add(way, share.grant, share.worth)
    } else {
        beats.keep(way, share.grant, share.floor, share.worth, share.crowd)
    }
}

fn add_at<A: Allocator>(beats: &mut Vec<WayBeats, A>, number: u32, way: Way, share: Share)
    ensures added { beats.new.items ≡ change_at way
        (added_to share.floor share.grant share.crowd share.worth) number beats.old.items }
{
    let place = number as usize;
    if place < beats.len() {
        beats[place] = ways_added_to(beats[place], way, share);
    }
}

fn ask_at<A: Allocator>(beats: &mut Vec<WayBeats, A>, number: u32, way: Way, worth: u64)
    ensures asked { beats.new.items ≡ change_at way (asked worth) number beats.old.items }
{
    let place = number as usize;
    if place < beats.len() {
        beats[place] = beats[place].ask(way, worth);
    }
}

fn settle_at<A: Allocator>(
    beats: &mut Vec<WayBeats, A>,
    number: u32,
    way: Way,
    credit: Credit,
    tick: u64,
)
    ensures settled { beats.new.items ≡ change_at way (settled tick credit) number beats.old.items }
{
    let place = number as usize;
    if place < beats.len() {
        beats[place] = beats[place].settle(way, credit, tick);
    }
}

fn cap_at<A: Allocator>(beats: &mut Vec<WayBeats, A>, number: u32, way: Way, most: u64)
    ensures capped { beats.new.items ≡ change_at way (capped most) number beats.old.items }
{
    let place = number as usize;
    if place < beats.len() {
        beats[place] = beats[place].cap(way, most);
    }
}

// The sooner of two ticks in which rows open; 0 is that of a row that is open.
fn soonest(one: u64, other: u64) -> u64
    ensures soonest { result ≡ soonest one other }
{
    if one == 0 {
        other
    } else if other == 0 {
        one
    } else {
        one.min(other)
    }
}

impl<A: Allocator + Clone> Cadence<A> {
    /// Beats of the server, the directions, the users with their sessions, and the groups, with numbers below these. All
    /// rows are open. A group or a user with a greater number has no beat, and is never closed.
    pub fn new(alloc: A, users: usize, groups: usize) -> Result<Cadence<A>, AllocError>
        ensures new { IfOk result (λ c. c ≡ new_cadence users groups) }
    {
        let of_groups = open_beats(alloc.clone()?, groups)?;
        let of_users = open_beats(alloc.clone()?, users)?;
        let of_sessions = open_beats(alloc, users)?;
        Ok(Cadence {
            server: Beat::new(),
            ways: WayBeats::new(),
            groups: of_groups,
            users: of_users,
            sessions: of_sessions,
        })
    }
}

impl<A: Allocator> Cadence<A> {
    /// The first tick in which all rows that a user's transfer is within are open, those of its session too; 0 if they are
    /// open now.
    pub fn opens(&self, way: Way, user: u32, rows: &TransferRows) -> u64
        ensures opens { result ≡ opens_of way user rows.now self.now }
    {
        let line = self.server.opens.max(self.ways.beat(way).opens);
        let group = match rows.group_number {
            Some(group) => opens_at(&self.groups, group, way),
            None => 0,
        };
        let own = opens_at(&self.users, user, way).max(opens_at(&self.sessions, user, way));
        line.max(group.max(own))
    }

    // The direction or the server, if its row is closed at a tick; the inner one if both are.
    fn closed_line(&self, way: Way, tick: u64) -> Option<Name>
        ensures closed { result ≡ closed_line way tick self.now }
    {
        if tick < self.ways.beat(way).opens {
            return Some(Name::Direction(way));
        }
        if tick < self.server.opens {
            return Some(Name::Server);
        }
        None
    }

    // The group, if there is one and its row is closed at a tick.
    fn closed_group(&self, way: Way, group: Option<u32>, tick: u64) -> Option<Name>
        ensures closed { result ≡ closed_group way tick group self.now }
    {
        match group {
            Some(group) if tick < opens_at(&self.groups, group, way) => {
                Some(Name::Group(way, group))
            }
            _ => None,
        }
    }

    /// The name of the innermost row that an ask's transfer is within and that is closed at a tick; none if all are open.
    pub fn closed_by(&self, ask: Ask, rows: &TransferRows, tick: u64) -> Option<Name>
        ensures closed { result ≡ closed_by ask rows.now tick self.now }
    {
        if tick < opens_at(&self.sessions, ask.user, ask.way) {
            return Some(Name::Session(ask.way, ask.user, ask.session));
        }
        if tick < opens_at(&self.users, ask.user, ask.way) {
            return Some(Name::User(ask.way, ask.user));
        }
        let group = self.closed_group(ask.way, rows.group_number, tick);
        group.or(self.closed_line(ask.way, tick))
    }

    /// Adds a grant of the current round to the rows that its ask is within, and the ask to the beat of the user's sessions,
    /// of which each has its rate to itself. `crowd` is the number of the round's asks that share the part of the line that
    /// the ask has: 1 among sessions, and among users those of the same user and direction. No memory.
    pub fn add(&mut self, ask: Ask, rows: &TransferRows, grant: u64, crowd: u64)
        ensures added { self.new ≡ add_to ask rows.now grant crowd self.old }
    {
        let share = Share {
            floor: rows.floor,
            grant,
            crowd,
            worth: crowd_worth(ask.way, crowd),
        };
        self.server = added_to(self.server, share);
        self.ways = ways_added_to(self.ways, ask.way, share);
        if let Some(group) = rows.group_number {
            add_at(&mut self.groups, group, ask.way, share);
        }
        let alone = Share {
            crowd: 1,
            worth: worth_of(ask.way),
            ..share
        };
        add_at(&mut self.users, ask.user, ask.way, alone);
        let own = session_worth(ask);
        ask_at(&mut self.sessions, ask.user, ask.way, own);
    }

    // Lets each row of a transfer with a guarantee open no later than the rows that it is within: others may drain those.
    fn align(&mut self, way: Way, user: u32, rows: &TransferRows)
        ensures aligned { self.new ≡ aligned way user rows.now self.old }
    {
        let server = self.server.opens;
        let line = soonest(server, self.ways.beat(way).opens);
        let group = match rows.group_number {
            Some(group) => opens_at(&self.groups, group, way),
            None => 0,
        };
        let inner = soonest(line, group);
        let own = soonest(inner, opens_at(&self.users, user, way));
        self.ways = self.ways.cap(way, server);
        if let Some(group) = rows.group_number {
            cap_at(&mut self.groups, group, way, line);
        }
        cap_at(&mut self.users, user, way, inner);
        cap_at(&mut self.sessions, user, way, own);
    }

    // Settles the rows that a user's transfer is within, without a guarantee.
    fn settle_rows(&mut self, way: Way, user: u32, rows: &TransferRows, tick: u64)
        ensures settled { self.new ≡ settled_of way user rows.now tick self.old }
    {
        self.server = self.server.settle(rows.server, tick);
        self.ways = self.ways.settle(way, rows.way, tick);
        if let Some(group) = rows.group_number {
            settle_at(&mut self.groups, group, way, rows.group, tick);
        }
        settle_at(&mut self.users, user, way, rows.user, tick);
        settle_at(&mut self.sessions, user, way, rows.session, tick);
    }

    // Aligns the rows of a transfer with a guarantee.
    fn align_if(&mut self, way: Way, user: u32, rows: &TransferRows)
        ensures aligned { self.new ≡ align_if (has_floor rows.now) way user rows.now self.old }
    {
        if rows.has_floor() {
            self.align(way, user, rows);
        }
    }

    /// Settles the rows that a user's transfer is within, those of its session too, after a round that was held in `tick`
    /// and left these credits. They open at most [`LONGEST`] ticks later, and with a guarantee each no later than those that
    /// it is within. No memory.
    pub fn settle(&mut self, way: Way, user: u32, rows: &TransferRows, tick: u64)
        ensures settled { self.new ≡ settle_of way user rows.now tick self.old }
        ensures soon { opens_of way user rows.now self.old ≤ tick + LONGEST
            → opens_of way user rows.now self.new ≤ tick + LONGEST }
    {
        self.settle_rows(way, user, rows, tick);
        self.align_if(way, user, rows);
    }
}
