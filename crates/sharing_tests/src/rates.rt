//! Rates that are refused, and lookups of those that are not.

use crate::expect::holds;
use line_rates::{GroupRate, Limits, LimitsFault, MAX_RATE, Name, UserRate, Way};
use std::process::Abort;

/// Rates of the server, of both ways, of groups and of users.
#[derive(Clone, Copy)]
pub(crate) struct Rates {
    pub server: u64,
    pub down: u64,
    pub up: u64,
    pub groups: &'static [GroupRate],
    pub users: &'static [UserRate],
}

/// No rates.
pub(crate) const FREE: Rates = Rates {
    server: 0,
    down: 0,
    up: 0,
    groups: &[],
    users: &[],
};

/// A user without rates.
pub(crate) const USER: UserRate = UserRate {
    user: 0,
    group: None,
    down: 0,
    up: 0,
    session_down: 0,
    session_up: 0,
    session_down_floor: 0,
    session_up_floor: 0,
};

/// A rate down of 100; group 0 has 40 of it, with users 0 and 1; user 2 is in no group and has no row. Each session of
/// user 5 has a guarantee of 80 of the 100 of group 4.
pub(crate) const TWO_GROUPS: Rates = Rates {
    down: 100,
    groups: &[
        GroupRate {
            group: 0,
            down: 40,
            up: 0,
        },
        GroupRate {
            group: 4,
            down: 100,
            up: 0,
        },
    ],
    users: &[
        UserRate {
            user: 1,
            group: Some(0),
            ..USER
        },
        UserRate {
            user: 0,
            group: Some(0),
            ..USER
        },
        UserRate {
            user: 5,
            group: Some(4),
            session_down_floor: 80,
            ..USER
        },
    ],
    ..FREE
};

/// The limits of rates, or their fault.
pub(crate) fn limits_or_fault(
    rt: &(impl Abort + AllocGlobal),
    rates: &Rates,
) -> Result<Limits, LimitsFault> {
    let groups = rates.groups.to_vec(rt.alloc()).expect(rt, "memory");
    let users = rates.users.to_vec(rt.alloc()).expect(rt, "memory");
    Limits::of(rates.server, rates.down, rates.up, groups, users)
}

/// The limits of rates without a fault.
pub(crate) fn limits_of(rt: &(impl Abort + AllocGlobal), rates: &Rates) -> Limits {
    limits_or_fault(rt, rates).expect(rt, "rates without a fault")
}

static FAULTS: [(Rates, Option<LimitsFault>); 5] = [
    (
        Rates {
            server: MAX_RATE,
            groups: &[GroupRate {
                group: 7,
                down: MAX_RATE,
                up: 0,
            }],
            ..FREE
        },
        None,
    ),
    (
        Rates {
            users: &[
                UserRate {
                    user: 3,
                    session_up_floor: MAX_RATE + 1,
                    ..USER
                },
                UserRate {
                    user: 3,
                    group: Some(9),
                    ..USER
                },
            ],
            ..FREE
        },
        Some(LimitsFault::RateTooLarge),
    ),
    // A user has at most one row, and so has a group.
    (
        Rates {
            users: &[
                UserRate { user: 3, ..USER },
                UserRate {
                    user: 1,
                    group: Some(9),
                    ..USER
                },
                UserRate { user: 3, ..USER },
            ],
            ..FREE
        },
        Some(LimitsFault::Twice),
    ),
    (
        Rates {
            groups: &[
                GroupRate {
                    group: 5,
                    down: 1,
                    up: 0,
                },
                GroupRate {
                    group: 4,
                    down: 2,
                    up: 0,
                },
                GroupRate {
                    group: 5,
                    down: 3,
                    up: 0,
                },
            ],
            ..FREE
        },
        Some(LimitsFault::Twice),
    ),
    // The group of a user has a row.
    (
        Rates {
            groups: &[GroupRate {
                group: 4,
                down: 1,
                up: 0,
            }],
            users: &[
                UserRate {
                    user: 1,
                    group: Some(4),
                    ..USER
                },
                UserRate {
                    user: 2,
                    group: Some(5),
                    ..USER
                },
            ],
            ..FREE
        },
        Some(LimitsFault::NoSuchGroup),
    ),
];

#[test]
fn rates_that_are_refused(rt: HostRuntime) {
    for (rates, fault) in &FAULTS {
        holds(&rt, limits_or_fault(&rt, rates).err() == *fault);
    }
}

const FOUND: Rates = Rates {
    server: 1,
    down: 2,
    up: 3,
    groups: &[
        GroupRate {
            group: 2,
            down: 20,
            up: 0,
        },
        GroupRate {
            group: 1,
            down: 10,
            up: 0,
        },
    ],
    users: &[
        UserRate { user: 50, ..USER },
        UserRate {
            user: 40,
            group: Some(2),
            down: 10,
            session_up: 3,
            ..USER
        },
        UserRate {
            user: 7,
            group: Some(1),
            ..USER
        },
    ],
};

static NAMES: [(Name, u64); 6] = [
    (Name::Server, 1),
    (Name::Direction(Way::Up), 3),
    (Name::Group(Way::Down, 2), 20),
    (Name::Group(Way::Down, 3), 0),
    (Name::User(Way::Down, 40), 10),
    (Name::Session(Way::Up, 40, 6), 3),
];

fn look_at_rows(rt: &impl Abort, limits: &Limits) {
    for (name, rate) in &NAMES {
        holds(rt, limits.rate(*name) == *rate);
    }
    holds(
        rt,
        limits.group_of(7) == Some(1) && limits.group_of(8).is_none(),
    );
    let row = UserRate { user: 50, ..USER };
    holds(rt, limits.user_row(50) == Some(row));
}

#[test]
fn rows_are_found_by_their_numbers(rt: HostRuntime) {
    look_at_rows(&rt, &limits_of(&rt, &FOUND));
}

/// Replaces the rates of the server, of group 2 and of user 40, and of a user and a group without a row.
fn put_others(limits: &mut Limits) {
    limits.put_line(100, 200, 300);
    for (guess, group) in [(0, 2), (9, 3)] {
        let row = GroupRate {
            group,
            down: 21,
            up: 22,
        };
        limits.put_group(row, guess);
    }
    for (guess, user) in [(0, 40), (1, 41)] {
        let row = UserRate {
            user,
            group: Some(2),
            down: 11,
            ..USER
        };
        limits.put_user(row, guess);
    }
}

static PUT_NAMES: [(Name, u64); 8] = [
    (Name::Server, 100),
    (Name::Direction(Way::Up), 300),
    (Name::Group(Way::Down, 1), 10),
    (Name::Group(Way::Up, 2), 22),
    (Name::Group(Way::Down, 3), 0),
    (Name::User(Way::Down, 40), 11),
    (Name::Session(Way::Up, 40, 6), 0),
    (Name::User(Way::Down, 41), 0),
];

#[test]
fn rates_are_put_in_place(rt: HostRuntime) {
    let mut limits = limits_of(&rt, &FOUND);
    put_others(&mut limits);
    for (name, rate) in &PUT_NAMES {
        holds(&rt, limits.rate(*name) == *rate);
    }
}
