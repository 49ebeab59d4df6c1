//! Lines that are divided among asks. The shares are worked by hand.

use crate::shown::expect::holds;
use ask_shares::{Ask, AskShare, GroupRate, Limits, Name, NotShared, UserRate, Way, share_asks};
use std::process::Abort;
use std::test::Fail;

fn ask(user: u32, want: u64) -> Ask {
    Ask {
        user,
        session: 0,
        way: Way::Down,
        want,
    }
}

// The row of a user in group 0, with a limit and a guarantee to each session.
fn row(user: u32, down: u64, floor: u64) -> UserRate {
    UserRate {
        user,
        group: Some(0),
        down,
        up: 0,
        session_down: 0,
        session_up: 0,
        session_down_floor: floor,
        session_up_floor: 0,
    }
}

// Stops the test unless the share at a place has these octets, and is held back by this name.
fn gets(rt: &impl Abort, shares: &[AskShare], place: usize, grant: u64, held: Option<Name>) {
    match shares.get(place) {
        Some(share) => {
            holds(rt, usize::from(share.place) == place);
            holds(rt, share.grant == grant);
            holds(rt, share.held == held);
        }
        None => holds(rt, false),
    }
}

// A line of 1,000 a second, all users in a group of 960; user 0 is guaranteed 500, and user 3 has at most 100.
fn limits(rt: &(impl Abort + AllocGlobal)) -> Result<Limits, Fail> {
    let mut groups = Vec::new(rt.alloc());
    groups.push(GroupRate {
        group: 0,
        down: 960,
        up: 0,
    })?;
    let mut users = Vec::new(rt.alloc());
    users.push(row(3, 100, 0))?;
    users.push(row(0, 0, 500))?;
    users.push(row(1, 0, 0))?;
    Ok(Limits::of(1_000, 0, 0, groups, users)?)
}

#[test]
fn a_line_is_divided(rt: HostRuntime) -> Result<(), Fail> {
    let limits = limits(&rt)?;
    // the tick has 100 of the line, 96 of the group, and 10 of user 3; user 2 is in no group
    let asks = [
        ask(3, 400),
        ask(1, 400),
        ask(0, 400),
        ask(1, 7),
        ask(2, 400),
    ];
    let shares = share_asks(rt.alloc(), &limits, 0, &asks)?;
    let line = Some(Name::Server);
    gets(&rt, &shares, 0, 10, Some(Name::User(Way::Down, 3)));
    gets(&rt, &shares, 1, 17, line);
    gets(&rt, &shares, 2, 50, line);
    gets(&rt, &shares, 3, 7, None);
    gets(&rt, &shares, 4, 16, line);
    Ok(())
}

#[test]
fn what_cannot_be_divided(rt: HostRuntime) -> Result<(), Fail> {
    let limits = limits(&rt)?;
    let large = share_asks(rt.alloc(), &limits, 0, &[ask(1, 4_294_967_296)]);
    holds(&rt, matches!(large, Err(NotShared::Tree(_))));
    let guaranteed = [ask(0, 400), ask(0, 400), ask(0, 400)];
    let three = share_asks(rt.alloc(), &limits, 0, &guaranteed);
    holds(&rt, matches!(three, Err(NotShared::Tree(_))));
    let none = share_asks(rt.alloc(), &limits, 0, &[])?;
    holds(&rt, none.is_empty());
    Ok(())
}
