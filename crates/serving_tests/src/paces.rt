//! The pace of rounds. The function with the crate's name is the example in its head.

use super::expect::holds;
use line_rates::{GroupRate, Limits, Name, UserRate, Way};
use round_pace::{Due, Pace};
use std::process::Abort;
use std::test::Fail;

#[test]
fn round_pace(rt: HostRuntime) -> Result<(), Fail> {
    let alloc = rt.alloc();
    // 1,000 octets a second
    let limits = Limits::of(1_000, 0, 0, Vec::new(alloc), Vec::new(alloc))?;
    let mut pace = Pace::of(alloc, limits, 0)?;
    assert!(rt; pace.offer(0) == 1_000); // the moment of the first round
    assert!(rt; pace.limits().rate(Name::Server) == 21); // which lets 2 octets through then
    pace.took(Way::Down, 7, 2, 2); // granted to user 7
    assert!(rt; pace.due(1_999) == Due::At(2_000)); // when the next tick begins
    Ok(())
}

const USER: UserRate = UserRate {
    user: 3,
    group: Some(9),
    down: 5_000,
    up: 0,
    session_down: 500,
    session_up: 0,
    session_down_floor: 500,
    session_up_floor: 0,
};

// The pace of a group of 10,000 octets a second up, and of a user in it.
fn pace_of_a_user(rt: &(impl Abort + AllocGlobal)) -> Pace {
    let mut groups = Vec::new(rt.alloc());
    groups
        .push(GroupRate {
            group: 9,
            down: 0,
            up: 10_000,
        })
        .expect(rt, "memory");
    let mut users = Vec::new(rt.alloc());
    users.push(USER).expect(rt, "memory");
    let limits = Limits::of(0, 0, 0, groups, users).expect(rt, "limits");
    Pace::of(rt.alloc(), limits, 4_000_000).expect(rt, "memory")
}

// The rates for a round: of the user down and of the group up, of a session, and its guarantee.
fn rates(pace: &Pace) -> (u64, u64, u64, u64) {
    let limits = pace.limits();
    match limits.user_row(3) {
        Some(row) => (
            row.down,
            limits.rate(Name::Group(Way::Up, 9)),
            row.session_down,
            row.session_down_floor,
        ),
        None => (0, 0, 0, 0),
    }
}

/// Rounds: their moments, the rates for them, their grants to the user down and up, and whether a download of the user
/// can be granted more in the same tick.
static ROUNDS: [(u64, (u64, u64, u64, u64), u64, u64, bool); 8] = [
    // the first tick: a five-hundredth of each rate, ten times, and one more; the guarantee ten times
    (4_000_000, (101, 201, 11, 10), 1, 20, false),
    // the same tick: what is left, and nothing of the session's octet
    (4_001_999, (91, 1, 1, 0), 0, 0, false),
    // three ticks later, together
    (4_007_000, (391, 601, 31, 30), 2, 0, true),
    // the same tick: the session has an octet left, and is owed it
    (4_007_999, (371, 601, 11, 10), 0, 0, true),
    // a tick later, it has that and another; sessions together got more
    (4_009_000, (471, 801, 21, 20), 3, 0, false),
    // late: at most a tenth of a second and an octet
    (4_900_000, (5_011, 10_011, 511, 500), 501, 1_001, false),
    // the second's last tick
    (4_999_000, (4_901, 9_801, 491, 490), 0, 0, true),
    // the next second begins with one tick of its own
    (5_000_000, (101, 201, 11, 10), 0, 0, true),
];

#[test]
fn rounds_are_paced(rt: HostRuntime) {
    let mut pace = pace_of_a_user(&rt);
    let mut moment = 0u64;
    for (now, offered, down, up, is_due) in &ROUNDS {
        moment = moment.saturating_add(1_000);
        holds(&rt, pace.offer(*now) == moment);
        holds(&rt, rates(&pace) == *offered);
        pace.took(Way::Down, 3, *down, *down);
        pace.took(Way::Up, 3, *up, *up);
        holds(&rt, pace.due(*now) == Due::Now);
        holds(
            &rt,
            (pace.due_for(Way::Down, 3, *now) == Due::Now) == *is_due,
        );
    }
}
