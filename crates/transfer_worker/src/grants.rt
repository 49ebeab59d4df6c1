//! Waiting for a gate, and for a grant.

ghost use Rattle.std.specs.Prelude.{◌≡◌, ℕ, false, IfSome, IfNone};
ghost use Rattle.data_pump.specs.declared.pumped.PumpEnd.TheVariants.{More};
ghost use Rattle.desk_rule.specs.declared.view.SeatState.TheVariants.{Asked};
ghost use Rattle.grant_ledger.specs.Books.{capped};
ghost use Rattle.lane_desk.specs.Seats.{seat_view, IsSeatOf, IsSameSeat};
ghost use Rattle.transfer_worker.specs.declared.gate.Go.TheVariants.{Stop};
ghost use Rattle.transfer_worker.specs.Passes.{Passes, calls_until, go_of};
ghost use Rattle.transfer_worker.specs.Runs.{worker};
ghost use Rattle.transfer_worker.specs.Transfers.{known, flow_of, last_in};
ghost use Rattle.transfer_worker.specs.Turns.{IsReported};
ghost use Rattle.transfer_worker.specs.Works.{WaitsInVain, Takes};

use crate::gate::{Gate, Go};
use crate::job::Ran;
use crate::running::Transfer;
use data_pump::Pumped;
use grant_ledger::Tally;
use lane_desk::{Desk, LaneSeat};
use std::alloc::Allocator;
use std::io::{Read, Write};
use std::sync::Wait;
use virtual_tree::{Sink, Source};

/// Returns whether the gate lets a transfer continue. Asks again while the gate says `Later`.
pub(crate) fn may_go_on<R, K, C, A, G, W>(
    rt: &W,
    gate: &mut G,
    transfer: &Transfer<R, K, C, A>,
) -> bool
where
    R: Source,
    K: Sink,
    C: Read + Write + Drop,
    A: Allocator,
    G: Gate<Ran<R, K, C, A>>,
    W: Wait,
    ensures heard { G.heard gate.new ≡ G.heard gate.old }
    ensures stop { result ≡ false → G.last_go gate.new ≡ Stop }
    ensures passed { (laters : ℕ) × Passes (G.passed gate.old) (G.passed gate.new)
        (calls_until transfer.now.session transfer.now.moved (go_of result) laters) }
{
    for _ in rt.forever() {
        match gate.pass(transfer.session, transfer.moved) {
            Go::On => return true,
            Go::Later => {}
            Go::Stop => return false,
        }
    }
    unreachable!()
}

/// Returns whether the gate lets a transfer ask, as `may_go_on`. The gate knows that an ask is next.
pub(crate) fn may_ask<R, K, C, A, G, W>(
    rt: &W,
    gate: &mut G,
    transfer: &Transfer<R, K, C, A>,
) -> bool
where
    R: Source,
    K: Sink,
    C: Read + Write + Drop,
    A: Allocator,
    G: Gate<Ran<R, K, C, A>>,
    W: Wait,
    ensures heard { G.heard gate.new ≡ G.heard gate.old }
    ensures stop { result ≡ false → G.last_go gate.new ≡ Stop }
    ensures passed { (laters : ℕ) × Passes (G.passed gate.old) (G.passed gate.new)
        (calls_until transfer.now.session transfer.now.moved (go_of result) laters) }
{
    gate.ask_is_next();
    may_go_on(rt, gate, transfer)
}

/// Pumps the grant that answers the last ask, once it is there. `None` if the gate says `Stop` first.
pub(crate) fn pump_next<R, K, C, A, G, W, N, D>(
    rt: &W,
    desk: &Desk<N, D>,
    seat: &mut LaneSeat<N>,
    tally: &mut Tally<N>,
    transfer: &mut Transfer<R, K, C, A>,
    gate: &mut G,
) -> Option<Pumped>
where
    R: Source,
    K: Sink,
    C: Read + Write + Drop,
    A: Allocator,
    G: Gate<Ran<R, K, C, A>>,
    W: Wait,
    D: Allocator,
    requires desk { IsSeatOf desk.now seat.old }
    requires state { (seat_view seat.old).state ≡ Asked }
    requires reported { IsReported tally.old (seat_view seat.old) }
    requires more { last_in (flow_of transfer.old.running) ≡ More }
    ensures same { IsSameSeat seat.old seat.new }
    ensures user { transfer.new.user ≡ transfer.old.user }
    ensures session { transfer.new.session ≡ transfer.old.session }
    ensures reported { IsReported tally.new (seat_view seat.new) }
    ensures heard { G.heard gate.new ≡ G.heard gate.old }
    ensures none { IfNone result (WaitsInVain transfer.old.session transfer.old.moved
        (worker (seat_view seat.old) tally.old (G.heard gate.old) (G.passed gate.old))
        (worker (seat_view seat.new) tally.new (G.heard gate.new) (G.passed gate.new))
        × (flow_of transfer.new.running ≡ flow_of transfer.old.running)
        × (G.last_go gate.new ≡ Stop)) }
    ensures some { IfSome result (λ pumped. Takes
        (known R.remaining K.collected K.target C.remaining C.contents)
        transfer.old.session transfer.old.moved (flow_of transfer.old.running)
        (flow_of transfer.new.running) pumped
        (worker (seat_view seat.old) tally.old (G.heard gate.old) (G.passed gate.old))
        (worker (seat_view seat.new) tally.new (G.heard gate.new) (G.passed gate.new))
        × (transfer.new.moved ≡ capped transfer.old.moved pumped.moved)) }
{
    for _ in rt.forever() {
        match transfer.turn(desk, seat, tally) {
            Some(pumped) => return Some(pumped),
            None => {}
        }
        if !may_go_on(rt, gate, transfer) {
            return None;
        }
    }
    unreachable!()
}
