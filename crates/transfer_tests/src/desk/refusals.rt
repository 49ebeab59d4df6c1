//! Desks that cannot be opened, and calls at the wrong time.

use super::expect::{OfTest, down, holds};
use lane_desk::DeskFault;
use test_checked_desk::CheckedDesk;

#[test]
fn sixty_five_lanes(rt: HostRuntime) {
    match CheckedDesk::<OfTest>::open(rt.alloc(), 65, 0) {
        Ok(_) => panic!(&rt; "65 lanes were opened"),
        Err(fault) => holds(&rt, fault == DeskFault::TooMany),
    }
}

#[test]
fn no_lane(rt: HostRuntime) {
    let mut desk = CheckedDesk::<OfTest>::open(rt.alloc(), 0, 5).expect(&rt, "a desk");
    holds(&rt, !desk.sit(0));
    let settled = desk.close();
    holds(
        &rt,
        settled.issued == 5 && settled.moved == 5 && settled.back == 0,
    );
}

/// The state of a seat determines what a worker may do.
#[test]
fn the_state_of_a_seat(rt: HostRuntime) {
    let mut desk = CheckedDesk::<OfTest>::open(rt.alloc(), 1, 0).expect(&rt, "a desk");
    holds(
        &rt,
        !desk.ask(0, down(0, 1)) && !desk.rise(0) && desk.take(0, 0).is_none(),
    );
    holds(
        &rt,
        desk.sit(0) && !desk.sit(0) && desk.take(0, 0).is_none(),
    );
    holds(
        &rt,
        desk.ask(0, down(0, 1)) && !desk.ask(0, down(0, 1)) && !desk.rise(0),
    );
    holds(&rt, desk.take(0, 0).is_none()); // nothing was posted
    holds(&rt, desk.close().back == 0);
}
