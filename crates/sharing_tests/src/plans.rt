//! The tree of a tick, the order of its kids, and its grants.

use super::allotting::expect_grants;
use super::rates::{FREE, Rates, TWO_GROUPS, USER, limits_of};
use crate::expect::holds;
use limit_tree::{Tree, TreeFault};
use line_rates::{Ask, GroupRate, Limits, PlanFault, UserRate, Way, tree_of};
use std::process::Abort;

/// An ask of session 0 of user 0, down.
pub(crate) const DOWN: Ask = Ask {
    user: 0,
    session: 0,
    way: Way::Down,
    want: 10,
};

/// No limit.
const NO: Option<u64> = None;

/// The tree of a tick: rates, a tick, and the asks of lanes; then the lanes of its leaves, each node's limit with its
/// number of leaves, in preorder, and the grants of the leaves.
struct Row {
    rates: Rates,
    tick: u64,
    asks: &'static [(u8, Ask)],
    lanes: &'static [u8],
    nodes: &'static [(Option<u64>, usize)],
    grants: &'static [u64],
}

/// A group with a rate has a user with rates; its sessions are under both.
const ONE_IN_A_GROUP: Rates = Rates {
    down: 90,
    groups: &[GroupRate {
        group: 4,
        down: 50,
        up: 0,
    }],
    users: &[UserRate {
        user: 1,
        group: Some(4),
        down: 30,
        session_down: 20,
        session_down_floor: 19,
        ..USER
    }],
    ..FREE
};

/// Each session of user 0 has a guarantee of all of a server's rate of 30.
const ALL_OF_IT: Rates = Rates {
    server: 30,
    users: &[UserRate {
        session_down_floor: 30,
        ..USER
    }],
    ..FREE
};

static PLANS: [Row; 8] = [
    // Kids are in the order of first ask.
    Row {
        rates: TWO_GROUPS,
        tick: 0,
        asks: &[
            (5, DOWN),
            (6, Ask { user: 2, ..DOWN }),
            (7, Ask { user: 1, ..DOWN }),
            (8, Ask { session: 1, ..DOWN }),
            (9, DOWN),
        ],
        lanes: &[5, 9, 8, 7, 6],
        nodes: &[
            (NO, 5),
            (Some(10), 5),
            (Some(4), 4),
            (NO, 3),
            (NO, 2),
            (NO, 1),
            (NO, 1),
            (NO, 1),
            (NO, 1),
            (NO, 1),
            (NO, 1),
            (NO, 1),
            (NO, 1),
            (NO, 1),
            (NO, 1),
        ],
        grants: &[1, 1, 1, 1, 6],
    },
    // Users and sessions too, whatever their numbers are; the remainder goes to the first.
    Row {
        rates: Rates { server: 50, ..FREE },
        tick: 0,
        asks: &[
            (
                0,
                Ask {
                    user: 9,
                    session: 5,
                    ..DOWN
                },
            ),
            (1, Ask { user: 3, ..DOWN }),
            (
                2,
                Ask {
                    user: 9,
                    session: 2,
                    ..DOWN
                },
            ),
        ],
        lanes: &[0, 2, 1],
        nodes: &[
            (Some(5), 3),
            (NO, 3),
            (NO, 2),
            (NO, 1),
            (NO, 1),
            (NO, 1),
            (NO, 1),
            (NO, 1),
            (NO, 1),
            (NO, 1),
        ],
        grants: &[2, 2, 1],
    },
    // Both ways, and the same session number of two users.
    Row {
        rates: TWO_GROUPS,
        tick: 3,
        asks: &[
            (
                3,
                Ask {
                    user: 2,
                    session: 1,
                    way: Way::Up,
                    want: 4,
                },
            ),
            (
                1,
                Ask {
                    user: 2,
                    session: 1,
                    want: 4,
                    ..DOWN
                },
            ),
            (
                2,
                Ask {
                    user: 3,
                    session: 1,
                    want: 4,
                    ..DOWN
                },
            ),
        ],
        lanes: &[3, 1, 2],
        nodes: &[
            (NO, 3),
            (NO, 1),
            (NO, 1),
            (NO, 1),
            (NO, 1),
            (Some(10), 2),
            (NO, 1),
            (NO, 1),
            (NO, 1),
            (NO, 1),
            (NO, 1),
            (NO, 1),
        ],
        grants: &[4, 4, 4],
    },
    // Nobody asks.
    Row {
        rates: TWO_GROUPS,
        tick: 0,
        asks: &[],
        lanes: &[],
        nodes: &[(NO, 0)],
        grants: &[],
    },
    // Two of a group, and a user without a row.
    Row {
        rates: TWO_GROUPS,
        tick: 0,
        asks: &[
            (0, DOWN),
            (1, Ask { user: 1, ..DOWN }),
            (2, Ask { user: 2, ..DOWN }),
        ],
        lanes: &[0, 1, 2],
        nodes: &[
            (NO, 3),
            (Some(10), 3),
            (Some(4), 2),
            (NO, 1),
            (NO, 1),
            (NO, 1),
            (NO, 1),
            (NO, 1),
            (NO, 1),
            (NO, 1),
            (NO, 1),
            (NO, 1),
        ],
        grants: &[2, 2, 6],
    },
    // Two sessions of a user with rates and a floor.
    Row {
        rates: ONE_IN_A_GROUP,
        tick: 0,
        asks: &[
            (0, Ask { user: 1, ..DOWN }),
            (
                1,
                Ask {
                    user: 1,
                    session: 1,
                    want: 1,
                    ..DOWN
                },
            ),
        ],
        lanes: &[0, 1],
        nodes: &[
            (NO, 2),
            (Some(9), 2),
            (Some(5), 2),
            (Some(3), 2),
            (Some(2), 1),
            (NO, 1),
            (Some(2), 1),
            (NO, 1),
        ],
        grants: &[2, 1],
    },
    // The sessions of a user of a group too are in the order of first ask: the remainder goes to the first.
    Row {
        rates: ONE_IN_A_GROUP,
        tick: 0,
        asks: &[
            (
                0,
                Ask {
                    user: 1,
                    session: 5,
                    ..DOWN
                },
            ),
            (
                1,
                Ask {
                    user: 1,
                    session: 2,
                    ..DOWN
                },
            ),
        ],
        lanes: &[0, 1],
        nodes: &[
            (NO, 2),
            (Some(9), 2),
            (Some(5), 2),
            (Some(3), 2),
            (Some(2), 1),
            (NO, 1),
            (Some(2), 1),
            (NO, 1),
        ],
        grants: &[2, 1],
    },
    // A floor takes everything that the server has.
    Row {
        rates: ALL_OF_IT,
        tick: 0,
        asks: &[
            (0, Ask { want: 5, ..DOWN }),
            (
                1,
                Ask {
                    user: 1,
                    want: 5,
                    ..DOWN
                },
            ),
        ],
        lanes: &[0, 1],
        nodes: &[
            (Some(3), 2),
            (NO, 2),
            (NO, 1),
            (NO, 1),
            (NO, 1),
            (NO, 1),
            (NO, 1),
            (NO, 1),
        ],
        grants: &[3, 0],
    },
];

fn expect_nodes(rt: &impl Abort, tree: &Tree, nodes: &[(Option<u64>, usize)]) {
    holds(rt, tree.nodes() == nodes.len());
    for (node, (limit, leaves)) in nodes.iter().enumerate() {
        holds(rt, node < tree.nodes() && tree.limit(node) == *limit);
        holds(rt, tree.place(node).leaves == *leaves);
    }
}

fn expect_plan(rt: &(impl Abort + AllocGlobal), limits: &Limits, row: &Row) {
    let plan = tree_of(rt.alloc(), limits, row.tick, row.asks).expect(rt, "a plan");
    holds(rt, plan.lanes.as_slice() == row.lanes);
    expect_nodes(rt, &plan.tree, row.nodes);
    expect_grants(rt, &plan.tree, row.grants);
}

#[test]
fn plans_of_ticks(rt: HostRuntime) {
    for row in &PLANS {
        expect_plan(&rt, &limits_of(&rt, &row.rates), row);
    }
}

/// Asks whose tree is refused, and its fault.
static FAULTS: [(&[(u8, Ask)], TreeFault); 2] = [
    (
        &[
            (0, Ask { want: 5, ..DOWN }),
            (
                1,
                Ask {
                    session: 1,
                    want: 5,
                    ..DOWN
                },
            ),
        ],
        TreeFault::FloorsOverLimit(0),
    ),
    (
        &[(
            0,
            Ask {
                want: 4_294_967_296,
                ..DOWN
            },
        )],
        TreeFault::WantTooLarge,
    ),
];

#[test]
fn trees_of_ticks_that_are_refused(rt: HostRuntime) {
    let limits = limits_of(&rt, &ALL_OF_IT);
    for (asks, fault) in &FAULTS {
        let refused = tree_of(rt.alloc(), &limits, 0, asks).err();
        holds(&rt, refused == Some(PlanFault::Tree(*fault)));
    }
}
