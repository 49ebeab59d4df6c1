//! Memory that is refused, at each growth in turn, and then available again: the events before are kept.

use crate::desk::expect::holds;
use crate::desk::world_rounds::{EVENTS, REPLIES, is_settled, two_lanes};
use line_rates::{Limits, ShareBy};
use linked_list_allocator::LocalHeap;
use share_world::{StepFault, World, WorldFault};
use std::process::Abort;
use test_scarce_memory::{HEAP, leave_hole};

// Performs the events from one on until memory is refused. Returns the first that was not performed.
fn steps<'h>(rt: &impl Abort, world: &mut World<&'h LocalHeap>, from: usize) -> usize {
    for at in from..EVENTS.len() {
        let reply = world.step(EVENTS[at]);
        if reply == Err(StepFault::Memory) {
            return at;
        }
        holds(rt, reply == REPLIES[at]);
    }
    EVENTS.len()
}

// Returns whether a world has memory for all events beside one hole of some octets. If memory is refused, it is
// available again for that event, and the world ends as one that never lacked any.
fn has_memory(rt: &(impl Abort + AllocGlobal), share_by: ShareBy, room: usize) -> bool {
    let heap = LocalHeap::new(rt.alloc(), HEAP).expect(rt, "a heap");
    let mut world = two_lanes(rt, share_by, &heap, &heap, &heap);
    let rest = leave_hole(rt, &heap, room).expect(rt, "a hole");
    let refused = steps(rt, &mut world, 0);
    drop(rest);
    holds(rt, steps(rt, &mut world, refused) == EVENTS.len());
    is_settled(rt, &world);
    refused == EVENTS.len()
}

// Returns whether a whole run has memory; if it is refused, the lists are those of the events before it.
fn runs(rt: &(impl Abort + AllocGlobal), share_by: ShareBy, room: usize) -> bool {
    let heap = LocalHeap::new(rt.alloc(), HEAP).expect(rt, "a heap");
    let mut world = two_lanes(rt, share_by, &heap, &heap, &heap);
    let rest = leave_hole(rt, &heap, room).expect(rt, "a hole");
    let has_run = world.run(&EVENTS).is_ok();
    drop(rest);
    holds(rt, world.lanes() == 2);
    holds(rt, [1, 0, 3].as_slice().starts_with(world.posted(1)));
    holds(rt, world.posted(1).starts_with(world.taken(1)));
    has_run
}

// Performs runs of one event each until memory is refused. Returns the first event that was not performed.
fn runs_of_one<'h>(rt: &impl Abort, world: &mut World<&'h LocalHeap>) -> usize {
    for at in 0..EVENTS.len() {
        match world.run(&EVENTS[at..at + 1]) {
            Ok(replies) => holds(rt, replies.as_slice() == &REPLIES[at..at + 1]),
            Err(_) => return at,
        }
    }
    EVENTS.len()
}

// Returns whether these runs have memory. Once there is memory again, one run of all other events passes.
fn runs_on(rt: &(impl Abort + AllocGlobal), share_by: ShareBy, room: usize) -> bool {
    let heap = LocalHeap::new(rt.alloc(), HEAP).expect(rt, "a heap");
    let mut world = two_lanes(rt, share_by, &heap, &heap, &heap);
    let rest = leave_hole(rt, &heap, room).expect(rt, "a hole");
    let refused = runs_of_one(rt, &mut world);
    drop(rest);
    let (_, others) = EVENTS.split_at(refused.min(EVENTS.len()));
    let (_, wanted) = REPLIES.split_at(refused.min(REPLIES.len()));
    let replies = world.run(others).expect(rt, "memory");
    holds(rt, replies.as_slice() == wanted);
    is_settled(rt, &world);
    refused == EVENTS.len()
}

// Returns for each kind of run whether it has memory beside one hole of some octets.
fn answers_in(rt: &(impl Abort + AllocGlobal), share_by: ShareBy, room: usize) -> [bool; 3] {
    [
        has_memory(rt, share_by, room),
        runs(rt, share_by, room),
        runs_on(rt, share_by, room),
    ]
}

#[test]
fn each_growth(rt: HostRuntime) {
    // Room rises by less than the smallest growth, so each growth in turn is the first to be refused.
    for step in 0..256usize {
        let answers = answers_in(&rt, ShareBy::Sessions, 16 * step);
        // With no room each is refused, and with enough none.
        holds(&rt, step > 0 || answers == [false; 3]);
        holds(&rt, step < 255 || answers == [true; 3]);
    }
}

#[test]
fn each_growth_among_users(rt: HostRuntime) {
    for step in 0..512usize {
        let answers = answers_in(&rt, ShareBy::Users, 16 * step);
        holds(&rt, step > 0 || answers == [false; 3]);
        holds(&rt, step < 511 || answers == [true; 3]);
    }
}

// Returns whether a world opens over this heap. If not, memory ran out.
fn opens(rt: &impl Abort, heap: &LocalHeap) -> bool {
    let limits = Limits::of(30, 0, 0, Vec::new(heap), Vec::new(heap)).expect(rt, "limits");
    match World::new(heap, 2, limits) {
        Ok(world) => {
            holds(rt, world.lanes() == 2 && world.issued() == 0);
            true
        }
        Err(fault) => {
            holds(rt, fault == WorldFault::Memory);
            false
        }
    }
}

#[test]
fn a_world_opens_once_there_is_memory(rt: HostRuntime) {
    let heap = LocalHeap::new(rt.alloc(), HEAP).expect(&rt, "a heap");
    for step in 0..64usize {
        let rest = leave_hole(&rt, &heap, 16 * step).expect(&rt, "a hole");
        let is_open = opens(&rt, &heap);
        drop(rest);
        holds(&rt, if is_open { step > 0 } else { step < 63 });
        holds(&rt, opens(&rt, &heap));
    }
}
