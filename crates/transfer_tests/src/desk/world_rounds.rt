//! Two lanes over three rounds: events, their replies, and the state of the lanes at the end.

use crate::desk::expect::holds;
use line_rates::{Ask, Limits, ShareBy, Way};
use share_world::{Event, EventAnswer, StepFault, World, WorldFault};
use std::alloc::Allocator;
use std::process::Abort;

pub(crate) type Reply = Result<EventAnswer, StepFault>;

const FIRST: Ask = Ask {
    user: 0,
    session: 0,
    way: Way::Down,
    want: 5,
};

const SECOND: Ask = Ask {
    user: 1,
    session: 1,
    way: Way::Down,
    want: 5,
};

const LATER: Ask = Ask {
    user: 1,
    session: 1,
    way: Way::Down,
    want: 4,
};

pub(crate) static EVENTS: [Event; 29] = [
    Event::Sit { lane: 0 },
    Event::Sit { lane: 1 },
    Event::Asked {
        lane: 0,
        ask: FIRST,
    },
    Event::Asked {
        lane: 1,
        ask: SECOND,
    },
    Event::Collect { lane: 0 },
    Event::Collect { lane: 1 },
    Event::Decide { moment: 0 },
    Event::Post { lane: 0 },
    Event::Post { lane: 1 },
    Event::Taken { lane: 0 },
    Event::Taken { lane: 1 },
    Event::Moved { lane: 0, octets: 1 },
    Event::Rise { lane: 0 },
    Event::Moved { lane: 1, octets: 1 },
    Event::Asked {
        lane: 1,
        ask: LATER,
    },
    Event::Collect { lane: 0 },
    Event::Collect { lane: 1 },
    Event::Decide { moment: 50 },
    Event::Post { lane: 1 },
    Event::Taken { lane: 1 },
    Event::Moved { lane: 1, octets: 0 },
    Event::Asked {
        lane: 1,
        ask: LATER,
    },
    Event::Collect { lane: 1 },
    Event::Decide { moment: 100 },
    Event::Post { lane: 1 },
    Event::Taken { lane: 1 },
    Event::Moved { lane: 1, octets: 3 },
    Event::Rise { lane: 1 },
    Event::Sit { lane: 2 },
];

pub(crate) static REPLIES: [Reply; 29] = [
    Ok(EventAnswer::Done),
    Ok(EventAnswer::Done),
    Ok(EventAnswer::Done),
    Ok(EventAnswer::Done),
    Ok(EventAnswer::Got),
    Ok(EventAnswer::Got),
    Ok(EventAnswer::Decided { tick: 0, total: 3 }),
    Ok(EventAnswer::Posted(2)),
    Ok(EventAnswer::Posted(1)),
    Ok(EventAnswer::Taken(2)),
    Ok(EventAnswer::Taken(1)),
    Ok(EventAnswer::Done),
    Ok(EventAnswer::Done),
    Ok(EventAnswer::Done),
    Ok(EventAnswer::Done),
    Ok(EventAnswer::Missed),
    Ok(EventAnswer::Got),
    Err(StepFault::NotYet(0)),
    Ok(EventAnswer::Posted(0)),
    Ok(EventAnswer::Taken(0)),
    Ok(EventAnswer::Done),
    Ok(EventAnswer::Done),
    Ok(EventAnswer::Got),
    Ok(EventAnswer::Decided { tick: 1, total: 3 }),
    Ok(EventAnswer::Posted(3)),
    Ok(EventAnswer::Taken(3)),
    Ok(EventAnswer::Done),
    Ok(EventAnswer::Done),
    Err(StepFault::NoLane),
];

/// A world of two lanes with a rate of 30 octets per second. Each lane is one user's, so the line is shared alike among
/// sessions and among users.
pub(crate) fn two_lanes<A: Allocator + Clone>(
    rt: &impl Abort,
    share_by: ShareBy,
    alloc: A,
    groups: A,
    users: A,
) -> World<A> {
    let limits = Limits::of(30, 0, 0, Vec::new(groups), Vec::new(users)).expect(rt, "limits");
    World::new(alloc, 2, limits.shared_by(share_by)).expect(rt, "a world")
}

/// The state of the world after these events.
pub(crate) fn is_settled<A: Allocator>(rt: &impl Abort, world: &World<A>) {
    holds(rt, world.lanes() == 2);
    holds(rt, world.issued() == 6);
    holds(rt, world.posted(0) == [2].as_slice());
    holds(rt, world.taken(0) == [2].as_slice());
    holds(rt, world.moved(0) == 1 && world.back(0) == 1);
    holds(rt, world.posted(1) == [1, 0, 3].as_slice());
    holds(rt, world.taken(1) == [1, 0, 3].as_slice());
    holds(rt, world.moved(1) == 4 && world.back(1) == 0);
}

#[test]
fn a_whole_run(rt: HostRuntime) {
    let alloc = rt.alloc();
    for share_by in [ShareBy::Sessions, ShareBy::Users] {
        let mut world = two_lanes(&rt, share_by, alloc, alloc, alloc);
        let replies = world.run(&EVENTS).expect(&rt, "memory");
        holds(&rt, replies.as_slice() == REPLIES.as_slice());
        is_settled(&rt, &world);
    }
}

// The events of one round of this number of lanes, each of which wants as many octets as its number.
fn one_round(rt: &(impl Abort + AllocGlobal), lanes: usize) -> Vec<Event> {
    let mut events = Vec::new(rt.alloc());
    for lane in 0..lanes {
        let ask = Ask {
            want: lane as u64,
            ..FIRST
        };
        for event in [
            Event::Sit { lane },
            Event::Asked { lane, ask },
            Event::Collect { lane },
        ] {
            events.push(event).expect(rt, "memory");
        }
    }
    let decide = Event::Decide { moment: u64::MAX };
    events.push(decide).expect(rt, "memory");
    for lane in 0..lanes {
        let octets = lane as u64;
        for event in [
            Event::Post { lane },
            Event::Taken { lane },
            Event::Moved { lane, octets },
            Event::Rise { lane },
        ] {
            events.push(event).expect(rt, "memory");
        }
    }
    events
}

/// A run of 449 events in a world of 64 lanes, at the last moment that there is.
#[test]
fn a_long_run(rt: HostRuntime) {
    let alloc = rt.alloc();
    let limits = Limits::of(0, 0, 0, Vec::new(alloc), Vec::new(alloc)).expect(&rt, "limits");
    let mut world = World::new(alloc, 64, limits).expect(&rt, "a world");
    let replies = world.run(&one_round(&rt, 64)).expect(&rt, "memory");
    holds(&rt, replies.len() == 449);
    for reply in &replies {
        holds(&rt, reply.is_ok());
    }
    holds(&rt, world.lanes() == 64);
    holds(&rt, world.issued() == 2_016);
    holds(&rt, world.moved(63) == 63 && world.back(63) == 0);
}

#[test]
fn too_many_lanes(rt: HostRuntime) {
    let alloc = rt.alloc();
    let limits = Limits::of(0, 0, 0, Vec::new(alloc), Vec::new(alloc)).expect(&rt, "limits");
    match World::new(alloc, 65, limits) {
        Ok(_) => holds(&rt, false),
        Err(fault) => holds(&rt, fault == WorldFault::TooMany),
    }
}
