//! One lane of the core.

ghost use Rattle.std.specs.Prelude.{◌≡◌, ◌+◌, ◌<◌, ◌^◌, ℕ, false, IsTrue, ◌↔◌, IfOk};
ghost use Rattle.world_terms.specs.Decisions.{IsPosted, with_amount};
ghost use Rattle.world_terms.specs.Lanes.{amount, new_lane};
ghost use Rattle.world_terms.specs.declared.event.LaneState.TheVariants as state;
ghost use Rattle.world_terms.specs.declared.event.Event.TheVariants as event;
ghost use Rattle.share_world.specs.Kept.{IsSound};
ghost use Rattle.share_world.specs.Performed.{LaneReply, HasAsk, due_ask, is_decide};

use line_rates::Ask;
use std::alloc::{AllocError, Allocator};
use std::marker::Model;
use world_terms::{Event, EventAnswer, LaneState, StepFault};

/// A lane: its state, its last ask, the amounts posted and taken, and their outcome, in octets.
#[derive(Drop)]
pub(crate) struct Lane<A: Allocator> {
    state: LaneState,
    ask: Option<Ask>,
    posted: Vec<u64, A>,
    taken: Vec<u64, A>,
    moved: u64,
    back: u64,
    // the amount in hand
    hand: Option<u64>,
    // the amount decided and not posted
    decided: Option<u64>,
}

impl<A: Allocator> Model for Lane<A> {
    ghost use Rattle.world_terms.specs.Lanes.{Lane as LaneValue, shown, hidden};
    ghost use Rattle.share_world.specs.Kept.{IsSound};

    ghost Value = { LaneValue };

    ghost view = { λ l. record {
      shown = shown l.state l.ask l.posted.items l.taken.items;
      hidden = hidden l.moved l.back l.hand l.decided;
    } };

    ghost invariant = { λ l. IsSound (record {
      shown = shown l.state l.ask l.posted.items l.taken.items;
      hidden = hidden l.moved l.back l.hand l.decided;
    }) };
}

impl<A: Allocator + Clone> Lane<A> {
    /// A lane that no worker has, and that has had no ask.
    pub fn new(alloc: A) -> Result<Lane<A>, AllocError>
        ensures new { IfOk result (λ l. l ≡ new_lane) }
    {
        Ok(Lane {
            state: LaneState::Free,
            ask: None,
            posted: Vec::new(alloc.clone()?),
            taken: Vec::new(alloc),
            moved: 0,
            back: 0,
            hand: None,
            decided: None,
        })
    }
}

impl<A: Allocator> Lane<A> {
    /// Performs an event of the lane. A refused one changes nothing.
    pub fn perform(&mut self, event: Event) -> Result<EventAnswer, StepFault>
        requires lanes { is_decide event ≡ false }
        requires fits { self.old.hidden.moved + self.old.hidden.back + amount self.old.hidden.hand
            < 2 ^ 64 }
        ensures perform { LaneReply event result self.old self.new }
        ensures sound { IsSound self.old }
    {
        match event {
            Event::Sit { lane: _ } => self.sit(),
            Event::Asked { lane: _, ask } => self.ask(ask),
            Event::Collect { lane: _ } => Ok(self.collect()),
            Event::Decide { moment: _ } => unreachable!(),
            Event::Post { lane: _ } => self.post(),
            Event::Taken { lane: _ } => self.take(),
            Event::Moved { lane: _, octets } => self.spend(octets),
            Event::Rise { lane: _ } => self.rise(),
        }
    }

    fn sit(&mut self) -> Result<EventAnswer, StepFault>
        ensures perform { (i : ℕ) → LaneReply (event.Sit i) result self.old self.new }
        ensures sound { IsSound self.old }
    {
        if !matches!(self.state, LaneState::Free) {
            return Err(StepFault::WrongState);
        }
        self.state = LaneState::Worker;
        Ok(EventAnswer::Done)
    }

    fn ask(&mut self, ask: Ask) -> Result<EventAnswer, StepFault>
        ensures perform { (i : ℕ) → LaneReply (event.Asked i ask) result self.old self.new }
        ensures sound { IsSound self.old }
    {
        let seated = matches!(self.state, LaneState::Worker);
        if !seated || self.hand.is_some() {
            return Err(StepFault::WrongState);
        }
        self.state = LaneState::Asked;
        self.ask = Some(ask);
        Ok(EventAnswer::Done)
    }

    fn collect(&mut self) -> EventAnswer
        ensures perform { (i : ℕ) → LaneReply (event.Collect i) (Ok result) self.old self.new }
        ensures sound { IsSound self.old }
    {
        if !matches!(self.state, LaneState::Asked) {
            return EventAnswer::Missed;
        }
        self.state = LaneState::Round;
        EventAnswer::Got
    }

    fn post(&mut self) -> Result<EventAnswer, StepFault>
        ensures perform { (i : ℕ) → LaneReply (event.Post i) result self.old self.new }
        ensures sound { IsSound self.old }
    {
        if !matches!(self.state, LaneState::Round) {
            return Err(StepFault::WrongState);
        }
        let octets = self.decided.unwrap_or(0);
        if self.posted.push(octets).is_err() {
            return Err(StepFault::Memory);
        }
        self.state = LaneState::Granted;
        self.decided = None;
        Ok(EventAnswer::Posted(octets))
    }

    fn take(&mut self) -> Result<EventAnswer, StepFault>
        ensures perform { (i : ℕ) → LaneReply (event.Taken i) result self.old self.new }
        ensures sound { IsSound self.old }
    {
        if !matches!(self.state, LaneState::Granted) {
            return Err(StepFault::WrongState);
        }
        let octets = self.posted[self.taken.len()];
        if self.taken.push(octets).is_err() {
            return Err(StepFault::Memory);
        }
        self.state = LaneState::Worker;
        self.hand = Some(octets);
        Ok(EventAnswer::Taken(octets))
    }

    // Moves `octets` of the amount in hand, and gives the rest back.
    fn spend(&mut self, octets: u64) -> Result<EventAnswer, StepFault>
        requires fits { self.old.hidden.moved + self.old.hidden.back + amount self.old.hidden.hand
            < 2 ^ 64 }
        ensures perform { (i : ℕ) → LaneReply (event.Moved i octets) result self.old self.new }
        ensures sound { IsSound self.old }
    {
        let Some(hand) = self.hand else {
            return Err(StepFault::WrongState);
        };
        if hand < octets {
            return Err(StepFault::TooMuch);
        }
        self.hand = None;
        self.moved += octets;
        self.back += hand - octets;
        Ok(EventAnswer::Done)
    }

    fn rise(&mut self) -> Result<EventAnswer, StepFault>
        ensures perform { (i : ℕ) → LaneReply (event.Rise i) result self.old self.new }
        ensures sound { IsSound self.old }
    {
        let can_rise = matches!(self.state, LaneState::Worker);
        if !can_rise || self.hand.is_some() {
            return Err(StepFault::WrongState);
        }
        self.state = LaneState::Free;
        Ok(EventAnswer::Done)
    }

    /// Returns whether no amount is decided and not posted.
    pub fn is_posted(&self) -> bool
        ensures posted { IsTrue result ↔ IsPosted self.now }
    {
        self.decided.is_none()
    }

    /// The ask to be answered, if the lane is in Round.
    pub fn due(&self) -> Option<Ask>
        ensures due { result ≡ due_ask self.now }
        ensures asked { HasAsk self.now }
    {
        match self.state {
            LaneState::Round => self.ask,
            _ => None,
        }
    }

    /// Decides an amount for the lane, in octets.
    pub fn give(&mut self, octets: u64)
        requires round { self.old.shown.state ≡ state.Round }
        ensures given { self.new ≡ with_amount octets self.old }
    {
        self.decided = Some(octets);
    }

    /// The amounts posted, in octets, the oldest first.
    pub fn posted(&self) -> &[u64]
        ensures posted { result.now ≡ self.now.shown.posted }
    {
        self.posted.as_slice()
    }

    /// The amounts taken, in octets, the oldest first.
    pub fn taken(&self) -> &[u64]
        ensures taken { result.now ≡ self.now.shown.taken }
    {
        self.taken.as_slice()
    }

    /// The octets moved.
    pub fn moved(&self) -> u64
        ensures moved { result ≡ self.now.hidden.moved }
    {
        self.moved
    }

    /// The octets given back.
    pub fn back(&self) -> u64
        ensures back { result ≡ self.now.hidden.back }
    {
        self.back
    }
}
