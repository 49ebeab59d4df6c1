//! A transfer in progress, in either direction.

ghost use Rattle.std.specs.Prelude.{◌≡◌, ℕ, IfSome, IfNone};
ghost use Rattle.data_pump.specs.declared.pumped.PumpEnd.TheVariants.{More};
ghost use Rattle.desk_rule.specs.declared.view.SeatState.TheVariants.{Asked};
ghost use Rattle.desk_rule.specs.Lanes.{has_looked, has_taken};
ghost use Rattle.grant_ledger.specs.Books.{capped};
ghost use Rattle.lane_desk.specs.Seats.{seat_view, IsSeatOf, IsSameSeat};
ghost use Rattle.transfer_worker.specs.declared.gate.Go.{Go};
ghost use Rattle.transfer_worker.specs.Ends.{EndsAs, MayReport};
ghost use Rattle.transfer_worker.specs.Turns.{IsReported};

use crate::end::JobEnd;
use crate::gate::Gate;
use crate::job::Ran;
use crate::turns::{turn_in, turn_out};
use data_pump::{DataIn, DataOut, PumpEnd, Pumped};
use grant_ledger::Tally;
use lane_desk::{Desk, LaneSeat};
use line_rates::Ask;
use std::alloc::Allocator;
use std::io::{Read, Write};
use virtual_tree::{Sink, Source};

/// The pump of an open transfer.
#[derive(Drop)]
pub(crate) enum Running<R: Source, K: Sink, C: Read + Write + Drop, A: Allocator> {
    Out(DataOut<R, C, A>),
    In(DataIn<C, K, A>),
}

impl<R: Source, K: Sink, C: Read + Write + Drop, A: Allocator> Running<R, K, C, A> {
    ghost use Rattle.transfer_worker.specs.Transfers.{known, flow_of, way_in, last_in, MayWant, Pumps, ToppedUp};

    // The ask for a round: for the octets that wait, or for what the gate chooses for an upload.
    fn ask<G: Gate<Ran<R, K, C, A>>>(&self, gate: &G, user: u32, session: u32) -> Ask
        ensures user { result.user ≡ user }
        ensures session { result.session ≡ session }
        ensures way { result.way ≡ way_in (flow_of self.now) }
        ensures want { MayWant G.may_want (flow_of self.now) result.want }
    {
        match self {
            Running::Out(out) => out.ask(user, session),
            Running::In(upload) => {
                let mut ask = upload.ask(user, session);
                ask.want = gate.upload_want();
                ask
            }
        }
    }

    // Takes the grant that answers the ask, pumps it, and spends it.
    fn turn<N, D: Allocator>(
        &mut self,
        desk: &Desk<N, D>,
        seat: &mut LaneSeat<N>,
        tally: &mut Tally<N>,
    ) -> Option<Pumped>
        requires desk { IsSeatOf desk.now seat.old }
        requires state { (seat_view seat.old).state ≡ Asked }
        requires reported { IsReported tally.old (seat_view seat.old) }
        requires more { last_in (flow_of self.old) ≡ More }
        ensures same { IsSameSeat seat.old seat.new }
        ensures reported { IsReported tally.new (seat_view seat.new) }
        ensures none { IfNone result ((seat_view seat.new ≡ has_looked (seat_view seat.old))
            × (flow_of self.new ≡ flow_of self.old) × (tally.new ≡ tally.old)) }
        ensures some { IfSome result (λ pumped. (octets : ℕ)
            × (seat_view seat.new ≡ has_taken octets (seat_view seat.old))
            × Pumps (known R.remaining K.collected K.target C.remaining C.contents) octets
            (flow_of self.old) (flow_of self.new) pumped
            × (tally.new.moved ≡ capped tally.old.moved pumped.moved)) }
    {
        match self {
            Running::Out(out) => turn_out(desk, seat, out, tally),
            Running::In(upload) => turn_in(desk, seat, upload, tally),
        }
    }

    // Tops the octets that wait up, if it is a download.
    fn top_up(&mut self)
        ensures topped { ToppedUp (known R.remaining K.collected K.target C.remaining C.contents)
            (flow_of self.old) (flow_of self.new) }
    {
        match self {
            Running::Out(out) => out.top_up(),
            Running::In(_) => {}
        }
    }

    // Returns the remnant of the transfer.
    fn into_ran(self) -> Ran<R, K, C, A>
        ensures ends { (go : Go) (end : JobEnd) → EndsAs go (last_in (flow_of self)) end
            → MayReport go end result }
    {
        match self {
            Running::Out(out) => Ran::Out(out),
            Running::In(upload) => Ran::In(upload),
        }
    }
}

/// A transfer in progress: its user and session, and the octets that it has moved, at most 2^64 - 1.
#[derive(Drop)]
pub(crate) struct Transfer<R: Source, K: Sink, C: Read + Write + Drop, A: Allocator> {
    pub(crate) user: u32,
    pub(crate) session: u32,
    pub(crate) moved: u64,
    pub(crate) running: Running<R, K, C, A>,
}

impl<R: Source, K: Sink, C: Read + Write + Drop, A: Allocator> Transfer<R, K, C, A> {
    ghost use Rattle.transfer_worker.specs.Transfers.{known, flow_of, way_in, last_in, MayWant, Pumps, ToppedUp};

    /// The ask for a round.
    pub(crate) fn ask<G: Gate<Ran<R, K, C, A>>>(&self, gate: &G) -> Ask
        ensures user { result.user ≡ self.now.user }
        ensures session { result.session ≡ self.now.session }
        ensures way { result.way ≡ way_in (flow_of self.now.running) }
        ensures want { MayWant G.may_want (flow_of self.now.running) result.want }
    {
        self.running.ask(gate, self.user, self.session)
    }

    /// Takes the grant that answers the ask, pumps it, and spends it. Returns `None` if there is none
    /// yet.
    pub(crate) fn turn<N, D: Allocator>(
        &mut self,
        desk: &Desk<N, D>,
        seat: &mut LaneSeat<N>,
        tally: &mut Tally<N>,
    ) -> Option<Pumped>
        requires desk { IsSeatOf desk.now seat.old }
        requires state { (seat_view seat.old).state ≡ Asked }
        requires reported { IsReported tally.old (seat_view seat.old) }
        requires more { last_in (flow_of self.old.running) ≡ More }
        ensures same { IsSameSeat seat.old seat.new }
        ensures user { self.new.user ≡ self.old.user }
        ensures session { self.new.session ≡ self.old.session }
        ensures reported { IsReported tally.new (seat_view seat.new) }
        ensures none { IfNone result ((seat_view seat.new ≡ has_looked (seat_view seat.old))
            × (flow_of self.new.running ≡ flow_of self.old.running) × (tally.new ≡ tally.old)
            × (self.new.moved ≡ self.old.moved)) }
        ensures some { IfSome result (λ pumped. (octets : ℕ)
            × (seat_view seat.new ≡ has_taken octets (seat_view seat.old))
            × Pumps (known R.remaining K.collected K.target C.remaining C.contents) octets
            (flow_of self.old.running) (flow_of self.new.running) pumped
            × (tally.new.moved ≡ capped tally.old.moved pumped.moved)
            × (self.new.moved ≡ capped self.old.moved pumped.moved)) }
    {
        let pumped = self.running.turn(desk, seat, tally)?;
        self.moved = self.moved.saturating_add(pumped.moved);
        Some(pumped)
    }

    /// Tops the octets that wait up, if it is a download: by one read of its source, if they are few.
    pub(crate) fn top_up(&mut self)
        ensures user { self.new.user ≡ self.old.user }
        ensures session { self.new.session ≡ self.old.session }
        ensures moved { self.new.moved ≡ self.old.moved }
        ensures topped { ToppedUp (known R.remaining K.collected K.target C.remaining C.contents)
            (flow_of self.old.running) (flow_of self.new.running) }
    {
        self.running.top_up();
    }

    /// Returns the remnant of the transfer.
    pub(crate) fn into_ran(self) -> Ran<R, K, C, A>
        ensures ends { (go : Go) (end : JobEnd) → EndsAs go
            (last_in (flow_of self.running)) end
            → MayReport go end result }
    {
        self.running.into_ran()
    }
}
