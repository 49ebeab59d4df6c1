//! Admission of sessions.

use super::rates::{FREE, Rates, USER, limits_of};
use crate::expect::holds;
use line_rates::{GroupRate, Name, UserRate, Way};
use rate_floors::{CarryFault, Floors};
use std::process::Abort;

/// A call on the guarantees: a session of a user is to be admitted, or has ended.
enum Turn {
    Admit(u32),
    Release(u32),
}

use Turn::{Admit, Release};

/// Sessions of users 1 and 2 have guarantees of 80 and 15 of a server's 100.
const SHARED: Rates = Rates {
    server: 100,
    users: &[
        UserRate {
            user: 1,
            session_down_floor: 80,
            ..USER
        },
        UserRate {
            user: 2,
            session_down_floor: 15,
            ..USER
        },
    ],
    ..FREE
};

/// Users 1 and 2 share the 50 of their group.
const IN_A_GROUP: Rates = Rates {
    groups: &[GroupRate {
        group: 4,
        down: 50,
        up: 0,
    }],
    users: &[
        UserRate {
            user: 1,
            group: Some(4),
            session_down_floor: 30,
            ..USER
        },
        UserRate {
            user: 2,
            group: Some(4),
            session_down_floor: 20,
            ..USER
        },
        UserRate {
            user: 3,
            session_down_floor: 30,
            ..USER
        },
    ],
    ..FREE
};

/// A session of user 1 has a rate below its guarantee, and user 2 has a rate of the guarantees of
/// two sessions.
const LIMITED: Rates = Rates {
    users: &[
        UserRate {
            user: 1,
            session_down: 20,
            session_down_floor: 21,
            ..USER
        },
        UserRate {
            user: 2,
            down: 50,
            session_down_floor: 25,
            ..USER
        },
    ],
    ..FREE
};

/// Rates, and the results of calls on their guarantees, one after another.
static TURNS: [(Rates, &[(Turn, bool)]); 5] = [
    // One at a time.
    (
        SHARED,
        &[
            (Admit(1), true),
            (Admit(1), false),
            (Release(1), true),
            (Release(1), false),
            (Admit(1), true),
        ],
    ),
    // Both.
    (
        SHARED,
        &[
            (Admit(2), true),
            (Admit(1), true),
            (Admit(2), false),
            (Release(1), true),
            (Admit(2), true),
        ],
    ),
    // A user without a row is admitted and not counted.
    (
        SHARED,
        &[(Admit(7), true), (Admit(7), true), (Release(7), false)],
    ),
    (
        IN_A_GROUP,
        &[
            (Admit(1), true),
            (Admit(1), false),
            (Admit(2), true),
            (Admit(3), true),
            (Admit(2), false),
        ],
    ),
    (
        LIMITED,
        &[
            (Admit(1), false),
            (Admit(2), true),
            (Admit(2), true),
            (Admit(2), false),
        ],
    ),
];

fn expect_answers(rt: &impl Abort, floors: &mut Floors, turns: &[(Turn, bool)]) {
    for (turn, wanted) in turns {
        let answer = match turn {
            Admit(user) => {
                let fits = floors.refusal(*user).is_none();
                holds(rt, floors.admit(*user) == fits);
                fits
            }
            Release(user) => floors.release(*user),
        };
        holds(rt, answer == *wanted);
        floors.promises_fit();
    }
}

#[test]
fn sessions_are_admitted(rt: HostRuntime) {
    for (rates, turns) in &TURNS {
        let limits = limits_of(&rt, rates);
        let mut floors = Floors::of(rt.alloc(), &limits).expect(&rt, "memory");
        expect_answers(&rt, &mut floors, turns);
    }
}

/// Rates, the users whose sessions are admitted, one who is not, and why: the name, the guarantees and the rate.
static REASONS: [(Rates, &[u32], u32, (Name, u64, u64)); 4] = [
    (SHARED, &[1], 1, (Name::Server, 160, 100)),
    (IN_A_GROUP, &[1], 1, (Name::Group(Way::Down, 4), 60, 50)),
    (LIMITED, &[], 1, (Name::Session(Way::Down, 1, 0), 21, 20)),
    (LIMITED, &[2, 2], 2, (Name::User(Way::Down, 2), 75, 50)),
];

#[test]
fn sessions_are_refused_for_a_limit(rt: HostRuntime) {
    for (rates, admitted, user, (name, promised, rate)) in &REASONS {
        let limits = limits_of(&rt, rates);
        let mut floors = Floors::of(rt.alloc(), &limits).expect(&rt, "memory");
        for other in *admitted {
            holds(&rt, floors.admit(*other));
        }
        let reason = CarryFault::Broken {
            name: *name,
            promised: *promised,
            rate: *rate,
        };
        holds(&rt, floors.refusal(*user) == Some(reason));
        holds(&rt, floors.has_guarantee(*user) && !floors.has_guarantee(7));
    }
}

/// Sessions that are admitted, and the result under other rates: the users with the numbers of counted sessions that
/// can then be released, or the name, the guarantees and the rate of the fault.
struct Carry {
    old: Rates,
    admitted: &'static [u32],
    new: Rates,
    wanted: Result<&'static [(u32, u64)], (Name, u64, u64)>,
}

/// A session of user 1 is guaranteed 40 down and 5 up, of user 2 10 down.
const BEFORE: Rates = Rates {
    server: 1_000,
    users: &[
        UserRate {
            user: 1,
            session_down_floor: 40,
            session_up_floor: 5,
            ..USER
        },
        UserRate {
            user: 2,
            session_down_floor: 10,
            ..USER
        },
    ],
    ..FREE
};

/// The users 1 and 9 with the guarantees of `BEFORE`, under no rate.
const WITHOUT_2: Rates = Rates {
    server: 0,
    users: &[
        UserRate {
            user: 1,
            session_down_floor: 40,
            session_up_floor: 5,
            ..USER
        },
        UserRate {
            user: 9,
            session_down_floor: 1_000,
            ..USER
        },
    ],
    ..FREE
};

/// Users 1 and 2 in a group whose rate is one octet less than two sessions of user 1 and one of user 2 are guaranteed.
const TIGHT_GROUP: Rates = Rates {
    server: 10,
    groups: &[GroupRate {
        group: 3,
        down: 89,
        up: 0,
    }],
    users: &[
        UserRate {
            user: 1,
            group: Some(3),
            session_down_floor: 40,
            session_up_floor: 5,
            ..USER
        },
        UserRate {
            user: 2,
            group: Some(3),
            session_down_floor: 10,
            ..USER
        },
    ],
    ..FREE
};

static CARRIES: [Carry; 4] = [
    Carry {
        old: BEFORE,
        admitted: &[1, 2, 1],
        new: WITHOUT_2,
        wanted: Ok(&[(1, 2), (2, 0), (9, 0)]),
    },
    // The group is before the server, whose rate of 10 is broken too.
    Carry {
        old: BEFORE,
        admitted: &[1, 2, 1],
        new: TIGHT_GROUP,
        wanted: Err((Name::Group(Way::Down, 3), 90, 89)),
    },
    // The rate of each session of user 2 is below the guarantee.
    Carry {
        old: BEFORE,
        admitted: &[2],
        new: Rates {
            users: &[UserRate {
                user: 2,
                session_down: 9,
                session_down_floor: 10,
                ..USER
            }],
            ..FREE
        },
        wanted: Err((Name::Session(Way::Down, 2, 0), 10, 9)),
    },
    // Both ways of two sessions are above the rate of the server.
    Carry {
        old: BEFORE,
        admitted: &[1, 1],
        new: Rates {
            server: 89,
            ..BEFORE
        },
        wanted: Err((Name::Server, 90, 89)),
    },
];

fn expect_carried(rt: &impl Abort, floors: &mut Floors, counts: &[(u32, u64)]) {
    for (user, sessions) in counts {
        for _ in 0..*sessions {
            holds(rt, floors.release(*user));
        }
        holds(rt, !floors.release(*user));
    }
}

#[test]
fn sessions_go_over_to_other_rates(rt: HostRuntime) {
    for row in &CARRIES {
        let mut floors = Floors::of(rt.alloc(), &limits_of(&rt, &row.old)).expect(&rt, "memory");
        for user in row.admitted {
            holds(&rt, floors.admit(*user));
        }
        match (
            floors.carried(rt.alloc(), &limits_of(&rt, &row.new)),
            row.wanted,
        ) {
            (Ok(mut carried), Ok(counts)) => expect_carried(&rt, &mut carried, counts),
            (Err(fault), Err((name, promised, rate))) => holds(
                &rt,
                fault
                    == CarryFault::Broken {
                        name,
                        promised,
                        rate,
                    },
            ),
            _ => holds(&rt, false),
        }
        // the counted sessions are still there
        holds(&rt, floors.release(row.admitted[0]));
    }
}
