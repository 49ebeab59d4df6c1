//! The example in the head of the crate.

use crate::desk::expect::holds;
use line_rates::{Ask, Limits, Way};
use share_world::{Event, EventAnswer, World};
use std::test::Fail;

#[test]
fn share_world(rt: HostRuntime) -> Result<(), Fail> {
    let alloc = rt.alloc();
    // 30 octets a second, so 3 in a tick
    let limits = Limits::of(30, 0, 0, Vec::new(alloc), Vec::new(alloc))?;
    let mut world = World::new(alloc, 1, limits)?;
    let ask = Ask {
        user: 0,
        session: 0,
        way: Way::Down,
        want: 5,
    };
    let events = [
        Event::Sit { lane: 0 },
        Event::Asked { lane: 0, ask },
        Event::Collect { lane: 0 },
        Event::Decide { moment: 100 },
        Event::Post { lane: 0 },
    ];
    let replies = world.run(&events)?;
    holds(&rt, replies.len() == 5);
    holds(&rt, replies.last() == Some(&Ok(EventAnswer::Posted(3))));
    holds(&rt, world.issued() == 3);
    Ok(())
}
