//! Opening a desk.

ghost use Rattle.std.specs.Prelude.{◌≡◌, ◌+◌, ◌<◌, ◌≤◌, [], length, replicate, IfOk, IfErr, Some, vec_capacity};
ghost use Rattle.desk_rule.specs.declared.view.LaneSlot.TheVariants.{Blank};
ghost use Rattle.desk_rule.specs.declared.view.DeskView.TheVariants.{Round};
ghost use Rattle.desk_rule.specs.Lanes.{untraced, first_round, posted_in};
ghost use Rattle.lane_desk.specs.Seats.{desk_id};
ghost use Rattle.lane_desk.specs.Traces.{traces, back, IsRoundOf};
ghost use Rattle.lane_desk.specs.Begun.{dealt_round};
ghost use Rattle.lane_desk.specs.Posted.{AllAnswered};
ghost use Rattle.lane_desk.specs.Open.{AreFresh, IsNotOpened};

use crate::desk::Desk;
use crate::fault::DeskFault;
use crate::round::RoundDesk;
use crate::seat::LaneSeat;
use atomic_table::{Refused, Seat, Shared, Table};
use desk_rule::{Deal, DeskRule, DeskView, LaneSlot};
use grant_ledger::{Book, MAX_LANES};
use std::alloc::{AllocError, Allocator, Global};

/// A desk, the right to its rounds, and the seats of its lanes: seat i is that of lane i.
pub(crate) type Opened<N, A = Global> = (Desk<N, A>, RoundDesk<N>, Vec<LaneSeat<N>, A>);

// Consumes blank slots; slots are not `Drop`.
fn discard<N, A: Allocator>(mut slots: Vec<LaneSlot<N>, A>)
    requires { slots.items ≡ replicate (length slots.items) Blank }
{
    while let Some(slot) = slots.pop() {
        let LaneSlot::Blank = slot else {
            unreachable!()
        };
    }
    slots.destroy_empty();
}

fn blank_slots<N, A: Allocator>(alloc: A, lanes: usize) -> Result<Vec<LaneSlot<N>, A>, AllocError>
    ensures slots { IfOk result (λ v. v.items ≡ replicate lanes Blank) }
{
    let mut slots = Vec::with_capacity(alloc, lanes)?;
    for i in 0..lanes {
        slots.push_reserved(LaneSlot::Blank);
    }
    Ok(slots)
}

// Splits a seat for each lane off the round's seat.
fn deal<N, A: Allocator>(
    shared: &Shared<LaneSlot<N>, DeskView, u64, DeskRule>,
    round: &mut Seat<LaneSlot<N>, DeskView>,
    lanes: usize,
    seats: &mut Vec<LaneSeat<N>, A>,
)
    requires { (round.old.table_id ≡ shared.now.table_id)
        × (round.old.me ≡ (Round (first_round lanes), [])) × (0 < shared.now.table_id.words)
        × (seats.old.items ≡ []) × (lanes ≤ vec_capacity seats.old) }
    ensures { (round.new.table_id ≡ round.old.table_id)
        × (round.new.me ≡ (Round (dealt_round lanes lanes), []))
        × AreFresh shared.now.table_id lanes seats.new.items }
{
    for lane in 0..lanes {
        let seat = shared.split_seat::<Deal>(round);
        seats.push_reserved(LaneSeat::new(seat, lane));
    }
}

/// Opens a desk of at most 64 lanes, possibly none, for a book: it has the book's name, and reads nothing of it.
///
/// Returns `TooMany` if there would be more lanes, and otherwise `Memory` if memory runs out.
pub fn open_desk<N, A: Allocator + Clone>(
    alloc: A,
    lanes: usize,
    _book: &Book<N>,
) -> Result<Opened<N, A>, DeskFault>
    ensures desk { IfOk result (λ r. r.0.lanes ≡ lanes) }
    ensures round { IfOk result (λ r. IsRoundOf r.0 r.1 × (traces r.1 ≡ replicate lanes untraced)
        × (back r.1 ≡ [])) }
    ensures begun { IfOk result (λ r. AllAnswered (traces r.1) × (posted_in (traces r.1) ≡ 0)) }
    ensures seats { IfOk result (λ r. AreFresh (desk_id r.0) lanes r.2.items) }
    ensures few { IfOk result (λ r. lanes ≤ MAX_LANES) }
    ensures fault { IfErr result (IsNotOpened lanes) }
{
    if lanes > MAX_LANES {
        return Err(DeskFault::TooMany);
    }
    let words = Vec::from_elem(alloc.clone()?, 0u64, if lanes == 0 { 1 } else { lanes })?;
    let mut seats = Vec::with_capacity(alloc.clone()?, lanes)?;
    let slots = blank_slots(alloc.clone()?, lanes)?;
    match Table::new(alloc, words.as_slice(), slots, &(lanes as u64)) {
        Ok((table, mut round)) => {
            deal(&table.shared, &mut round, lanes, &mut seats);
            Ok((Desk::new(table, lanes), RoundDesk::new(round, lanes), seats))
        }
        Err(Refused { slots }) => {
            discard(slots);
            Err(DeskFault::Memory)
        }
    }
}
