//! Worlds whose line is shared among users: the grants of one round.

use crate::desk::expect::holds;
use line_rates::{Ask, Limits, ShareBy, UserRate, Way};
use share_world::{Event, EventAnswer, StepFault, World};
use std::process::Abort;

// The ask of a session of a user, for 10 octets down.
const fn ask_of(user: u32, session: u32) -> Ask {
    Ask {
        user,
        session,
        way: Way::Down,
        want: 10,
    }
}

// A world whose line is shared among users. The rate of the line and the guarantee of each session of user 0 are in
// octets per second.
fn world_of(rt: &(impl Abort + AllocGlobal), lanes: usize, rate: u64, floor: u64) -> World {
    let mut users = Vec::new(rt.alloc());
    let row = UserRate {
        user: 0,
        group: None,
        down: 0,
        up: 0,
        session_down: 0,
        session_up: 0,
        session_down_floor: floor,
        session_up_floor: 0,
    };
    users.push(row).expect(rt, "memory");
    let limits = Limits::of(rate, 0, 0, Vec::new(rt.alloc()), users).expect(rt, "limits");
    World::new(rt.alloc(), lanes, limits.shared_by(ShareBy::Users)).expect(rt, "a world")
}

// Lane i asks for ask i, and the round collects it.
fn collect_all(rt: &impl Abort, world: &mut World, asks: &[Ask]) {
    for lane in 0..asks.len() {
        let ask = asks[lane];
        holds(rt, world.step(Event::Sit { lane }).is_ok());
        holds(rt, world.step(Event::Asked { lane, ask }).is_ok());
        holds(rt, world.step(Event::Collect { lane }).is_ok());
    }
}

fn post_all(rt: &impl Abort, world: &mut World, grants: &[u64]) {
    for lane in 0..grants.len() {
        let reply = world.step(Event::Post { lane });
        holds(rt, reply == Ok(EventAnswer::Posted(grants[lane])));
    }
}

// These asks get these grants in the first tick, of this many octets in total.
fn shares(rt: &impl Abort, world: &mut World, asks: &[Ask], total: u64, grants: &[u64]) {
    collect_all(rt, world, asks);
    let reply = world.step(Event::Decide { moment: 0 });
    holds(rt, reply == Ok(EventAnswer::Decided { tick: 0, total }));
    post_all(rt, world, grants);
    holds(rt, world.issued() == total);
}

/// Two lanes of one user share what one lane of another has alone.
#[test]
fn a_quarter_a_quarter_and_a_half(rt: HostRuntime) {
    let mut world = world_of(&rt, 3, 80, 0);
    let asks = [ask_of(0, 0), ask_of(0, 1), ask_of(1, 0)];
    shares(&rt, &mut world, &asks, 8, &[2, 2, 4]);
}

/// Of 7 octets for three users the first has 3, one for each of its lanes; of 5 for two the first has 3, and 2 of them its
/// first lane.
#[test]
fn odd_octets(rt: HostRuntime) {
    let mut world = world_of(&rt, 5, 70, 0);
    let asks = [
        ask_of(1, 0),
        ask_of(2, 0),
        ask_of(1, 1),
        ask_of(3, 0),
        ask_of(1, 2),
    ];
    shares(&rt, &mut world, &asks, 7, &[1, 2, 1, 2, 1]);
    let mut world = world_of(&rt, 3, 50, 0);
    let asks = [ask_of(1, 0), ask_of(2, 0), ask_of(1, 1)];
    shares(&rt, &mut world, &asks, 5, &[2, 2, 1]);
}

/// The guarantees of a user's two lanes, 3 octets and a want of 1, count together towards the user's share. What the user
/// has beyond them goes to the lane with less.
#[test]
fn guarantees_inside_a_user(rt: HostRuntime) {
    let small = Ask {
        want: 1,
        ..ask_of(0, 1)
    };
    let mut world = world_of(&rt, 4, 60, 30);
    let asks = [ask_of(0, 0), small, ask_of(1, 0), ask_of(1, 1)];
    shares(&rt, &mut world, &asks, 6, &[3, 1, 1, 1]);
    let mut world = world_of(&rt, 3, 160, 30);
    let asks = [ask_of(0, 0), ask_of(0, 1), ask_of(1, 0)];
    shares(&rt, &mut world, &asks, 16, &[4, 4, 8]);
}

/// A user that can have more octets than a leaf may want is refused, and what is refused changes nothing.
#[test]
fn a_user_who_wants_too_much(rt: HostRuntime) {
    let most = Ask {
        want: 4_294_967_295,
        ..ask_of(0, 0)
    };
    let limits = Limits::of(0, 0, 0, Vec::new(rt.alloc()), Vec::new(rt.alloc()));
    let limits = limits.expect(&rt, "limits").shared_by(ShareBy::Users);
    let mut world = World::new(rt.alloc(), 2, limits).expect(&rt, "a world");
    collect_all(&rt, &mut world, &[most, ask_of(0, 1)]);
    let reply = world.step(Event::Decide { moment: 0 });
    holds(&rt, reply == Err(StepFault::Unshared));
    holds(&rt, world.issued() == 0);
    post_all(&rt, &mut world, &[0, 0]);
}
