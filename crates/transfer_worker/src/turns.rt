//! One turn of a transfer: takes the grant that waits on its lane, and pumps it.

ghost use Rattle.std.specs.Prelude.{◌≡◌, ◌+◌, ℕ, List, ◌++◌, Some, IfSome, IfNone};
ghost use Rattle.desk_rule.specs.declared.view.SeatState.TheVariants.{Asked};
ghost use Rattle.desk_rule.specs.Lanes.{has_looked};
ghost use Rattle.lane_desk.specs.Seats.{seat_view, IsSeatOf, IsSameSeat};
ghost use Rattle.data_pump.specs.Downloads.{IsSending};
ghost use Rattle.data_pump.specs.Uploads.{IsReceiving};
ghost use Rattle.data_pump.specs.WireText.{received};
ghost use Rattle.transfer_worker.specs.Turns.{TurnsOut, TurnsIn, IsReported};

use data_pump::{DataIn, DataOut, PumpEnd, Pumped, pump_in, pump_out};
use grant_ledger::Tally;
use lane_desk::{Desk, LaneSeat};
use std::alloc::Allocator;
use std::io::{Read, Write};
use virtual_tree::{Sink, Source};

/// Takes the grant that answers the ask, pumps it, and spends it. If there is none yet, returns `None` and changes only
/// the seat's count of looks.
pub fn turn_out<S: Source, K: Write + Drop, A: Allocator, N, D: Allocator>(
    desk: &Desk<N, D>,
    seat: &mut LaneSeat<N>,
    out: &mut DataOut<S, K, A>,
    tally: &mut Tally<N>,
) -> Option<Pumped>
    requires desk { IsSeatOf desk.now seat.old }
    requires state { (seat_view seat.old).state ≡ Asked }
    ensures same { IsSameSeat seat.old seat.new }
    ensures none { IfNone result ((seat_view seat.new ≡ has_looked (seat_view seat.old))
        × (out.new ≡ out.old) × (tally.new ≡ tally.old)) }
    ensures some { IfSome result (TurnsOut S.remaining K.contents (seat_view seat.old)
        (seat_view seat.new) out.old out.new tally.old tally.new) }
    ensures reported { IsReported tally.old (seat_view seat.old)
        → IsReported tally.new (seat_view seat.new) }
    ensures sending { (before text : List ℕ)
        → IsSending S.remaining K.contents before text out.old.flow
        → IsSending S.remaining K.contents before text out.new.flow }
    ensures whole { IfSome result (λ pumped. (before text : List ℕ)
        → IsSending S.remaining K.contents before text out.old.flow
        → pumped.end ≡ PumpEnd.Ended
        → K.contents out.new.flow.connection ≡ Some (before ++ text)) }
{
    match seat.try_take(desk) {
        Some(grant) => Some(pump_out(grant, out, tally)),
        None => None,
    }
}

/// Takes the grant that answers the ask, pumps it, and spends it. If there is none yet, returns `None` and changes only
/// the seat's count of looks.
pub fn turn_in<K: Read + Drop, T: Sink, A: Allocator, N, D: Allocator>(
    desk: &Desk<N, D>,
    seat: &mut LaneSeat<N>,
    upload: &mut DataIn<K, T, A>,
    tally: &mut Tally<N>,
) -> Option<Pumped>
    requires desk { IsSeatOf desk.now seat.old }
    requires state { (seat_view seat.old).state ≡ Asked }
    ensures same { IsSameSeat seat.old seat.new }
    ensures none { IfNone result ((seat_view seat.new ≡ has_looked (seat_view seat.old))
        × (upload.new ≡ upload.old) × (tally.new ≡ tally.old)) }
    ensures some { IfSome result (TurnsIn K.remaining T.collected T.target (seat_view seat.old)
        (seat_view seat.new) upload.old upload.new tally.old tally.new) }
    ensures reported { IsReported tally.old (seat_view seat.old)
        → IsReported tally.new (seat_view seat.new) }
    ensures receiving { (before octets : List ℕ)
        → IsReceiving K.remaining T.collected before octets upload.old
        → IsReceiving K.remaining T.collected before octets upload.new }
    ensures whole { IfSome result (λ pumped. (before octets : List ℕ)
        → IsReceiving K.remaining T.collected before octets upload.old
        → pumped.end ≡ PumpEnd.Ended
        → T.collected upload.new.flow.sink
        ≡ Some (before ++ received upload.old.flow.data_type octets)) }
{
    match seat.try_take(desk) {
        Some(grant) => Some(pump_in(grant, upload, tally)),
        None => None,
    }
}
