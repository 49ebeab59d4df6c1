//! The core: lanes, the last tick and the octets issued.

ghost use Rattle.std.specs.Prelude.{◌≡◌, ◌≤◌, ◌<◌, length, All, true, false, Ok, Err, IfOk, OnErr, IfErr, IsErrOf};
ghost use Rattle.grant_ledger.specs.declared.ledger.TheConstants.{MAX_ISSUED};
ghost use Rattle.world_terms.specs.Lanes.{new_world};
ghost use Rattle.world_terms.specs.Runs.{IsRun};
ghost use Rattle.world_terms.specs.Steps.{RefusesDecide, Step, lane_of};
ghost use Rattle.world_terms.specs.Sums.{shares_in};
ghost use Rattle.world_terms.specs.Decisions.{IsReady, has_large_want, in_round};
ghost use Rattle.limit_tree.specs.Outline.{limits as seen};
ghost use Rattle.share_world.specs.Shares.{IsFairPlan, IsUnshared};
ghost use Rattle.share_world.specs.Stopped.{HadMemory, IsStoppedRun};
ghost use Rattle.world_terms.specs.declared.event.Event.TheVariants as event;
ghost use Rattle.share_world.specs.Limited.{lane_at};
ghost use Rattle.share_world.specs.Performed.{HasAsk, is_collect, is_decide};

use crate::deal::{all_posted, asks_in_round, deal, has_large_want, new_lanes};
use crate::fault::WorldFault;
use crate::lane::Lane;
use crate::share::share;
use grant_certificate::Sealed;
use grant_ledger::{MAX_ISSUED, MAX_LANES};
use line_rates::Limits;
use std::alloc::{AllocError, Allocator, Global};
use std::marker::Model;
use world_terms::{Event, EventAnswer, StepFault};

/// The lanes of a server, its limits, and the octets issued. Contracts see the lanes as `world_terms` defines them,
/// with the rates of the limits.
#[derive(Drop)]
pub struct World<A: Allocator = Global> {
    lanes: Vec<Lane<A>, A>,
    // the tick of the last decision
    last_tick: Option<u64>,
    // in octets
    issued: u64,
    limits: Limits<A>,
    alloc: A,
}

impl<A: Allocator> Model for World<A> {
    ghost use Rattle.share_world.specs.Limited.{Limited, IsKept};
    ghost use Rattle.share_world.specs.Codes.{limited_code};

    ghost Value = { Limited };

    ghost coded = { limited_code };

    ghost view = { λ w. record {
      rates = w.limits;
      world = record { lanes = w.lanes.items; last_tick = w.last_tick; issued = w.issued };
    } };

    ghost invariant = { λ w. IsKept w.lanes.items w.issued };
}

impl<A: Allocator + Clone> World<A> {
    /// A world of `lanes` lanes, at most `MAX_LANES`, in which nothing has happened. It keeps the allocator for its
    /// lists, which grow.
    pub fn new(alloc: A, lanes: usize, limits: Limits<A>) -> Result<World<A>, WorldFault>
        ensures new { IfOk result (λ w. w ≡ record { rates = limits; world = new_world lanes }) }
        ensures few { IfOk result (λ _. lanes ≤ MAX_LANES) }
        ensures many { MAX_LANES < lanes → IsErrOf result WorldFault.TooMany }
        ensures refused { IfErr result (λ f. lanes ≤ MAX_LANES → f ≡ WorldFault.Memory) }
    {
        if lanes > MAX_LANES {
            return Err(WorldFault::TooMany);
        }
        let lanes = new_lanes(alloc.clone()?, lanes)?;
        Ok(World {
            lanes,
            last_tick: None,
            issued: 0,
            limits,
            alloc,
        })
    }

    /// Performs one event. A refused one changes nothing.
    pub fn step(&mut self, event: Event) -> Result<EventAnswer, StepFault>
        ensures step { Step self.old.rates self.old.world event result self.new.world }
        ensures rates { self.new.rates ≡ self.old.rates }
    {
        if let Event::Decide { moment } = event {
            return self.decide(moment);
        }
        self.perform(event)
    }

    /// Performs the events in order, and returns the reply to each. Fails if memory runs out for one of them, or for the
    /// replies: the events before that one are kept.
    pub fn run(
        &mut self,
        events: &[Event],
    ) -> Result<Vec<Result<EventAnswer, StepFault>, A>, AllocError>
        ensures run { IfOk result (λ replies.
            IsRun (λ _. self.old.rates) self.old.world events.now replies.items self.new.world) }
        ensures had { IfOk result (λ replies. All HadMemory replies.items) }
        ensures stopped { OnErr result
            (IsStoppedRun (λ _. self.old.rates) self.old.world events.now self.new.world) }
        ensures rates { self.new.rates ≡ self.old.rates }
    {
        let mut replies = Vec::new(self.alloc.clone()?);
        for event in events {
            replies.reserve(1)?;
            let reply = self.step(*event);
            if is_lack(&reply) {
                return Err(AllocError);
            }
            replies.push_reserved(reply);
        }
        Ok(replies)
    }

    // Performs an event of one lane.
    fn perform(&mut self, event: Event) -> Result<EventAnswer, StepFault>
        requires lanes { is_decide event ≡ false }
        ensures step { Step self.old.rates self.old.world event result self.new.world }
        ensures rates { self.new.rates ≡ self.old.rates }
    {
        let lane = lane_of(&event);
        if lane >= self.lanes.len() {
            return Err(StepFault::NoLane);
        }
        if is_collect(&event) && !all_posted(&self.lanes) {
            return Err(StepFault::WrongState);
        }
        self.lanes[lane].perform(event)
    }

    // Decides at a moment in milliseconds.
    fn decide(&mut self, moment: u64) -> Result<EventAnswer, StepFault>
        ensures step { Step self.old.rates self.old.world
            (event.Decide moment) result self.new.world }
        ensures rates { self.new.rates ≡ self.old.rates }
    {
        self.check_ready(moment)?;
        let tick = moment / 100;
        let (numbers, sealed) = self.share(tick)?;
        let total = sealed.total();
        if MAX_ISSUED - self.issued < total {
            return Err(StepFault::BookFull);
        }
        deal(&mut self.lanes, &numbers, sealed.grants());
        self.last_tick = Some(tick);
        self.issued += total;
        Ok(EventAnswer::Decided { tick, total })
    }

    // Checks that the round may decide at a moment.
    fn check_ready(&self, moment: u64) -> Result<(), StepFault>
        ensures ready { IfOk result (λ _. IsReady self.now.world moment) }
        ensures refused { IfErr result (RefusesDecide self.now.rates self.now.world moment) }
    {
        if !all_posted(&self.lanes) {
            return Err(StepFault::WrongState);
        }
        if let Some(last) = self.last_tick {
            if moment / 100 <= last {
                return Err(StepFault::NotYet(last));
            }
        }
        if has_large_want(&self.lanes) {
            return Err(StepFault::TooMuch);
        }
        Ok(())
    }

    // The lanes of a plan for the asks in Round, and its fair grants.
    fn share(&self, tick: u64) -> Result<(Vec<u8, A>, Sealed<A>), StepFault>
        requires wants { has_large_want self.now.world.lanes ≡ false }
        ensures fair { IfOk result (λ r. IsFairPlan self.now.rates tick
            (in_round self.now.world.lanes) (seen r.1.tree) r.0.items r.1.grants) }
        ensures asked { IfOk result (λ _. All HasAsk self.now.world.lanes) }
        ensures refused { IfErr result
            (IsUnshared self.now.rates tick (in_round self.now.world.lanes)) }
    {
        let asks = asks_in_round(self.alloc.clone()?, &self.lanes)?;
        share(self.alloc.clone()?, &self.limits, tick, &asks)
    }
}

impl<A: Allocator> World<A> {
    /// Number of lanes.
    pub fn lanes(&self) -> usize
        ensures lanes { result ≡ length self.now.world.lanes }
        ensures most { result ≤ MAX_LANES }
    {
        self.lanes.len()
    }

    /// The amounts posted to a lane, in octets, the oldest first.
    pub fn posted(&self, lane: usize) -> &[u64]
        requires lane { lane < length self.now.world.lanes }
        ensures posted { result.now ≡ (lane_at self.now.world lane).shown.posted }
    {
        self.lanes[lane].posted()
    }

    /// The amounts that a lane has taken, in octets, the oldest first.
    pub fn taken(&self, lane: usize) -> &[u64]
        requires lane { lane < length self.now.world.lanes }
        ensures taken { result.now ≡ (lane_at self.now.world lane).shown.taken }
    {
        self.lanes[lane].taken()
    }

    /// The octets that a lane has moved.
    pub fn moved(&self, lane: usize) -> u64
        requires lane { lane < length self.now.world.lanes }
        ensures moved { result ≡ (lane_at self.now.world lane).hidden.moved }
    {
        self.lanes[lane].moved()
    }

    /// The octets that a lane has given back.
    pub fn back(&self, lane: usize) -> u64
        requires lane { lane < length self.now.world.lanes }
        ensures back { result ≡ (lane_at self.now.world lane).hidden.back }
    {
        self.lanes[lane].back()
    }

    /// The octets that decisions have issued: the sum of the shares of the world.
    pub fn issued(&self) -> u64
        ensures issued { result ≡ self.now.world.issued }
        ensures shares { result ≡ shares_in self.now.world }
        ensures most { result ≤ MAX_ISSUED }
    {
        self.issued
    }
}

/// Returns whether memory ran out for the event of a reply.
fn is_lack(reply: &Result<EventAnswer, StepFault>) -> bool
    ensures lack { result ≡ true → reply.now ≡ Err StepFault.Memory }
    ensures had { result ≡ false → HadMemory reply.now }
{
    match reply {
        Ok(_) => false,
        Err(fault) => *fault == StepFault::Memory,
    }
}

// The lane of an event; 0 for a decision.
fn lane_of(event: &Event) -> usize
    ensures lane { result ≡ lane_of event.now }
{
    match *event {
        Event::Sit { lane } => lane,
        Event::Asked { lane, ask: _ } => lane,
        Event::Collect { lane } => lane,
        Event::Decide { moment: _ } => 0,
        Event::Post { lane } => lane,
        Event::Taken { lane } => lane,
        Event::Moved { lane, octets: _ } => lane,
        Event::Rise { lane } => lane,
    }
}

// Returns whether an event collects an ask.
fn is_collect(event: &Event) -> bool
    ensures collect { result ≡ is_collect event.now }
{
    matches!(*event, Event::Collect { lane: _ })
}
