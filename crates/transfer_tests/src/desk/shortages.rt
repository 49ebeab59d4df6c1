//! Memory that is refused, at each growth in turn, and then available again.

use super::expect::{OfTest, down, holds, limits};
use lane_desk::{DeskFault, RoundFault, RoundRefusal};
use line_rates::Limits;
use linked_list_allocator::LocalHeap;
use std::process::Abort;
use test_checked_desk::CheckedDesk;
use test_scarce_memory::{HEAP, leave_hole};

/// Returns whether a desk has memory; if so, it is one of two lanes.
fn has_desk(rt: &impl Abort, heap: &LocalHeap) -> bool {
    match CheckedDesk::<OfTest, &LocalHeap>::open(heap, 2, 0) {
        Ok(desk) => {
            let mut desk = desk;
            holds(rt, desk.sit(0) && desk.sit(1) && !desk.sit(2));
            holds(rt, desk.close().issued == 0);
            true
        }
        Err(fault) => {
            holds(rt, fault == DeskFault::Memory);
            false
        }
    }
}

/// Opens a desk over every room from none up to enough; each that is refused leaves all memory free.
#[test]
fn a_desk_without_memory(rt: HostRuntime) {
    let heap = LocalHeap::new(rt.alloc(), HEAP).expect(&rt, "a heap");
    let mut was_refused = false;
    let mut was_open = false;
    for room in 1..64 {
        let rest = leave_hole(&rt, &heap, room * 8).expect(&rt, "memory");
        was_open = has_desk(&rt, &heap);
        drop(rest);
        holds(&rt, has_desk(&rt, &heap));
        if was_open {
            break;
        }
        was_refused = true;
    }
    holds(&rt, was_refused && was_open);
}

/// Both workers ask for 4 octets.
fn ask_both(rt: &impl Abort, desk: &mut CheckedDesk<OfTest>) {
    holds(rt, desk.ask(0, down(0, 4)) && desk.ask(1, down(1, 4)));
}

/// Two workers share the three octets of the first tick. They move two of them, give one back, and ask again.
fn begin(rt: &(impl Abort + AllocGlobal), desk: &mut CheckedDesk<OfTest>, limits: &Limits) {
    holds(rt, desk.sit(0) && desk.sit(1));
    ask_both(rt, desk);
    holds(rt, desk.round(rt.alloc(), limits, 0).is_ok());
    holds(rt, desk.take(0, 1) == Some(2) && desk.take(1, 1) == Some(1));
    ask_both(rt, desk);
}

/// Returns whether the round of the second tick has memory; if not, each ask is answered with 0 octets.
fn has_round(
    rt: &impl Abort,
    heap: &LocalHeap,
    desk: &mut CheckedDesk<OfTest>,
    limits: &Limits,
) -> bool {
    match desk.round(heap, limits, 100) {
        Ok(record) => {
            holds(rt, record.tick == 1 && record.answered == 3);
            holds(rt, record.sealed.grants() == [2, 1].as_slice());
            true
        }
        Err(fault) => {
            let memory = RoundFault {
                reason: RoundRefusal::Memory,
                answered: 3,
            };
            holds(rt, fault == memory);
            holds(rt, desk.take(0, 4) == Some(0) && desk.take(1, 4) == Some(0));
            false
        }
    }
}

/// Returns whether the second round is refused in a hole of this many octets.
fn is_refused(
    rt: &(impl Abort + AllocGlobal),
    heap: &LocalHeap,
    desk: &mut CheckedDesk<OfTest>,
    limits: &Limits,
    room: usize,
) -> bool {
    begin(rt, desk, limits);
    let rest = leave_hole(rt, heap, room).expect(rt, "memory");
    let first = has_round(rt, heap, desk, limits);
    drop(rest);
    !first
}

/// The step after a refused round: the desk is closed at once, or after one more round at the same tick, of whose
/// grants the first is taken.
#[derive(Clone, Copy, PartialEq)]
enum Then {
    Close,
    Again,
}

/// As `is_refused`, with a new desk, which is then settled: a refused round leaves the book unchanged, so the next one
/// at the same tick is accepted, and the sums add up in each case.
fn settles(
    rt: &(impl Abort + AllocGlobal),
    heap: &LocalHeap,
    limits: &Limits,
    room: usize,
    then: Then,
) -> bool {
    let mut desk = CheckedDesk::<OfTest>::open(rt.alloc(), 2, 0).expect(rt, "a desk");
    let refused = is_refused(rt, heap, &mut desk, limits, room);
    if refused && then == Then::Again {
        ask_both(rt, &mut desk);
        holds(rt, has_round(rt, heap, &mut desk, limits));
    }
    let is_granted = !refused || then == Then::Again;
    holds(
        rt,
        desk.take(0, 2) == if is_granted { Some(2) } else { None },
    );
    let settled = desk.close();
    let wanted = if is_granted { (6, 4, 2) } else { (3, 2, 1) };
    holds(rt, (settled.issued, settled.moved, settled.back) == wanted);
    refused
}

/// A round over every room from none up to enough.
#[test]
fn a_round_without_memory(rt: HostRuntime) {
    let limits = limits(&rt, 30, 0);
    let heap = LocalHeap::new(rt.alloc(), HEAP).expect(&rt, "a heap");
    for then in [Then::Close, Then::Again] {
        for step in 0..192usize {
            let refused = settles(&rt, &heap, &limits, 16 * step, then);
            // With no room it is refused, and with enough it is not.
            holds(&rt, if refused { step < 191 } else { step > 0 });
        }
    }
}

/// On a full heap, a worker sits, asks, takes and rises, and the desk is closed.
#[test]
fn all_other_calls_take_no_memory(rt: HostRuntime) {
    let limits = limits(&rt, 30, 0);
    let heap = LocalHeap::new(rt.alloc(), HEAP).expect(&rt, "a heap");
    let mut desk = CheckedDesk::<OfTest, &LocalHeap>::open(&heap, 2, 0).expect(&rt, "a desk");
    let _rest = leave_hole(&rt, &heap, 0).expect(&rt, "no hole");
    holds(&rt, desk.sit(0) && desk.ask(0, down(0, 5)));
    holds(&rt, desk.round(rt.alloc(), &limits, 0).is_ok());
    holds(&rt, desk.take(0, 1) == Some(3) && desk.rise(0));
    let settled = desk.close();
    holds(
        &rt,
        settled.issued == 3 && settled.moved == 1 && settled.back == 2,
    );
}
