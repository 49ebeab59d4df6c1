//! Fair shares of a tick, among sessions and among users, as worked by hand.

use ask_shares::{NotShared, share_asks};
use line_rates::{Ask, Limits, ShareBy, UserRate, Way};
use std::process::Abort;
use std::test::Fail;

/// Asks of a tick by user and way, in the order of their leaves, each in a session of its own; the rate of the server,
/// and the guarantee of each session of user 8.
struct Row {
    rate: u64,
    floor: u64,
    asks: &'static [(u32, Way)],
    by_sessions: &'static [u64],
    by_users: &'static [u64],
}

fn ask(user: u32, session: u32, way: Way) -> Ask {
    Ask {
        user,
        session,
        way,
        want: 1_000,
    }
}

static ROWS: [Row; 5] = [
    // one transfer of user 7 gets as much as both of user 8
    Row {
        rate: 4_000,
        floor: 0,
        asks: &[(7, Way::Down), (8, Way::Down), (8, Way::Down)],
        by_sessions: &[134, 133, 133],
        by_users: &[200, 100, 100],
    },
    // a user has a share in each way
    Row {
        rate: 3_000,
        floor: 0,
        asks: &[(7, Way::Down), (8, Way::Down), (8, Way::Up)],
        by_sessions: &[100, 100, 100],
        by_users: &[100, 100, 100],
    },
    // an odd octet stays within its user
    Row {
        rate: 100,
        floor: 0,
        asks: &[(7, Way::Down), (8, Way::Down), (8, Way::Down)],
        by_sessions: &[4, 3, 3],
        by_users: &[5, 3, 2],
    },
    // guarantees enter among users by their sum
    Row {
        rate: 1_000,
        floor: 300,
        asks: &[(7, Way::Down), (8, Way::Down), (8, Way::Down)],
        by_sessions: &[34, 33, 33],
        by_users: &[40, 30, 30],
    },
    // who wants less leaves the rest to the others
    Row {
        rate: 50_000,
        floor: 0,
        asks: &[(7, Way::Down), (8, Way::Down), (8, Way::Down)],
        by_sessions: &[1_000, 1_000, 1_000],
        by_users: &[1_000, 1_000, 1_000],
    },
];

/// The grants of asks, if they are shared.
fn shared(
    rt: &(impl Abort + AllocGlobal),
    row: &Row,
    share_by: ShareBy,
) -> Result<Vec<u64>, NotShared> {
    let alloc = rt.alloc();
    let mut users = Vec::new(alloc);
    users
        .push(UserRate {
            user: 8,
            group: None,
            down: 0,
            up: 0,
            session_down: 0,
            session_up: 0,
            session_down_floor: row.floor,
            session_up_floor: 0,
        })
        .expect(rt, "memory");
    let limits = Limits::of(row.rate, 0, 0, Vec::new(alloc), users).expect(rt, "limits");
    let mut asks = Vec::new(alloc);
    for (place, (user, way)) in row.asks.iter().enumerate() {
        let session = u32::try_from(place).expect(rt, "few asks");
        asks.push(ask(*user, session, *way)).expect(rt, "memory");
    }
    assert!(rt; asks.len() <= 64);
    let shares = share_asks(alloc, &limits.shared_by(share_by), 0, &asks)?;
    let mut grants = Vec::new(alloc);
    for share in &shares {
        grants.push(share.grant).expect(rt, "memory");
    }
    Ok(grants)
}

#[test]
fn among_sessions_and_users(rt: HostRuntime) {
    for row in &ROWS {
        let by_sessions = shared(&rt, row, ShareBy::Sessions).expect(&rt, "shares");
        assert!(&rt; by_sessions.as_slice() == row.by_sessions);
        let by_users = shared(&rt, row, ShareBy::Users).expect(&rt, "shares");
        assert!(&rt; by_users.as_slice() == row.by_users);
    }
}

#[test]
fn a_user_wants_too_much(rt: HostRuntime) -> Result<(), Fail> {
    let alloc = rt.alloc();
    let limits = Limits::of(1_000, 0, 0, Vec::new(alloc), Vec::new(alloc))?;
    let limits = limits.shared_by(ShareBy::Users);
    let large = Ask {
        want: 3_000_000_000,
        ..ask(8, 1, Way::Down)
    };
    let more = Ask {
        session: 2,
        ..large
    };
    // of two users, or in two directions, as much may be wanted
    let apart = [
        large,
        Ask { user: 7, ..more },
        Ask {
            way: Way::Up,
            ..more
        },
    ];
    let shares = share_asks(alloc, &limits, 0, &apart)?;
    assert!(&rt; shares.len() == 3);
    let shared = share_asks(alloc, &limits, 0, &[ask(7, 0, Way::Down), large, more]);
    assert!(&rt; matches!(shared, Err(NotShared::Unshared)));
    Ok(())
}
