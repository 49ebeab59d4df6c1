//! The ticks in which transfers are in a round. The function with the crate's name is the example in its head.

use super::expect::holds;
use line_rates::{Ask, GroupRate, Limits, ShareBy, UserRate, Way};
use linked_list_allocator::LocalHeap;
use round_cadence::{
    Beat, Cadence, LONGEST, WORTH, WORTH_UP, WayBeats, crowd_of, interval, next_opening,
};
use round_pace::{Credit, Pace, TransferRows};
use std::alloc::AllocError;
use std::process::Abort;
use std::test::Fail;
use test_scarce_memory::{HEAP, leave_hole};

fn round_cadence(
    rt: &(impl Abort + AllocGlobal),
    ask: Ask,
    rows: &TransferRows,
) -> Result<(), AllocError> {
    let mut cadence = Cadence::new(rt.alloc(), 8, 0)?; // of users with numbers below 8
    for _ in 0..64 {
        // the grants of a round in tick 0, which drained the server's rate of 2,000,000 octets a second
        cadence.add(ask, rows, 62, 1);
    }
    cadence.settle(Way::Down, 7, rows, 0);
    holds(rt, cadence.opens(Way::Down, 7, rows) == 31); // the last tick of the first 32
    Ok(())
}

/// The line's 4,000 octets of a tick, less those of 64 transfers with 62 each, leave it drained.
#[test]
fn sixty_four_downloads_wait(rt: HostRuntime) {
    let alloc = rt.alloc();
    let limits = Limits::of(2_000_000, 0, 0, Vec::new(alloc), Vec::new(alloc));
    let mut pace = Pace::of(alloc, limits.expect(&rt, "limits"), 0).expect(&rt, "memory");
    pace.offer(0);
    pace.took(Way::Down, 7, 3_968, 62);
    let rows = pace.rows_of(Way::Down, 7);
    holds(&rt, rows == rows_of(2_000_000, 32, OPEN));
    round_cadence(&rt, asked(7, Way::Down), &rows).expect(&rt, "memory");
}

// An ask of a user for all that a buffer has.
fn asked(user: u32, way: Way) -> Ask {
    Ask {
        user,
        session: 0,
        way,
        want: 65_536,
    }
}

const OPEN: Credit = Credit { rate: 0, left: 0 };

// The rows of a transfer within a server's rate and a user's.
fn rows_of(rate: u64, left: u64, user: Credit) -> TransferRows {
    TransferRows {
        server: Credit { rate, left },
        way: OPEN,
        group: OPEN,
        user,
        session: OPEN,
        group_number: None,
        floor: 0,
    }
}

/// Rates, sharers, and the ticks in which the rate earns 4,096 octets for each of them.
static INTERVALS: [(u64, u64, u64); 13] = [
    (2_000_000, 64, 32),
    (4_194_304, 4, 2),
    (20_000_000, 1, 1),
    (10_000, 64, 32),
    (2_048_000, 1, 1),
    (2_047_999, 1, 2),
    (1_024_000, 1, 2),
    (512_000, 1, 4),
    (256_000, 1, 8),
    (128_000, 1, 16),
    (127_999, 1, 32),
    (0, 1, 32),
    (u64::MAX, u64::MAX, 32),
];

/// Ticks, intervals, and the next ticks in which rows of these open.
static OPENINGS: [(u64, u64, u64); 10] = [
    (31, 32, 63),
    (479, 32, 489),
    (489, 32, 499),
    (499, 32, 531),
    (7, 1, 8),
    (30, 32, 31),
    (0, 4, 3),
    (488, 16, 489),
    (495, 4, 499),
    (u64::MAX, 32, u64::MAX),
];

#[test]
fn rows_open_in_their_ticks(rt: HostRuntime) {
    holds(&rt, WORTH == 4_096 && WORTH_UP == 256 && LONGEST == 32);
    for (rate, sharers, ticks) in &INTERVALS {
        holds(
            &rt,
            interval(*rate, sharers.saturating_mul(WORTH)) == *ticks,
        );
    }
    for (tick, ticks, next) in &OPENINGS {
        holds(&rt, next_opening(*tick, *ticks) == *next);
    }
}

// A rate of 2,000,000 octets a second, of which this is left.
fn left(left: u64) -> Credit {
    Credit {
        rate: 2_000_000,
        left,
    }
}

#[test]
fn beats_count_sharers(rt: HostRuntime) {
    let mut beat = Beat::new();
    holds(&rt, beat.settle(left(0), 0) == beat); // no round
    for _ in 0..8 {
        beat = beat.add(500, WORTH);
    }
    beat = beat.add(1, WORTH);
    beat = beat.settle(left(2_000), 0);
    // 4,001 octets are 9 grants of at most 500; 8 ticks earn 32,000, too little for 9
    holds(&rt, beat.sharers == 9 && beat.opens == 15);
    beat = beat.add(4_000, WORTH).settle(left(2_001), 15);
    holds(&rt, beat.sharers == 7 && beat.opens == 0); // more than a thousandth is left
    beat = beat.keep(500, 500, WORTH, 1).settle(left(0), 16);
    holds(&rt, beat.sharers == 6 && beat.opens == 23); // 8 ticks earn 4,096 octets for each of 6
    beat = beat
        .add(500, WORTH)
        .add(500, WORTH_UP)
        .keep(0, 0, WORTH, 1)
        .keep(900, 800, WORTH_UP, 1);
    holds(
        &rt,
        beat.whole == 1_900 && beat.largest == 900 && beat.floor == 800,
    );
    beat = beat.settle(left(0), 0);
    holds(&rt, beat.floor == 700);
    holds(&rt, beat.sharers == 5); // an eighth fewer: two equal grants and two guarantees are four
    let first = Beat::new()
        .keep(0, 0, WORTH, 1)
        .add(500, WORTH)
        .settle(left(0), 0);
    holds(&rt, first.sharers == 2 && first.kept == 0);
    holds(
        &rt,
        first.whole == 0 && first.largest == 0 && first.floor == 0,
    );
    holds(&rt, first.cap(0) == first && first.cap(2).opens == 2); // at the latest then
    let beats = WayBeats::new().add(Way::Up, 10, WORTH_UP);
    let beats = beats.settle(Way::Up, left(0), 0);
    holds(&rt, beats.beat(Way::Down) == Beat::new());
    holds(&rt, beats.beat(Way::Up).opens == 1);
    let beat = Beat::new().ask(WORTH).ask(WORTH_UP).settle(left(0), 0);
    holds(&rt, beat.sharers == 1 && beat.opens == 1); // 1 tick earns 256 octets
    let beats = WayBeats::new()
        .keep(Way::Up, 0, 0, WORTH_UP, 1)
        .settle(Way::Up, left(0), 0);
    holds(&rt, beats.cap(Way::Up, 1).beat(Way::Up).opens == 1);
    let beats = WayBeats::new().ask(Way::Down, WORTH);
    let beats = beats.settle(Way::Down, left(0), 1);
    holds(&rt, beats.beat(Way::Up) == Beat::new());
    holds(&rt, beats.beat(Way::Down).opens == 3); // 2 ticks earn 4,096 octets
}

// The rows of a transfer whose session has this credit and this guarantee, within the server's rate.
fn rows_of_session(server: Credit, session: Credit, floor: u64) -> TransferRows {
    TransferRows {
        server,
        way: OPEN,
        group: OPEN,
        user: OPEN,
        session,
        group_number: None,
        floor,
    }
}

// The rate of a session, of which nothing is left.
fn drained(rate: u64) -> Credit {
    Credit { rate, left: 0 }
}

// The first tick in which the rows of a user are open, after a round in `tick` of 64 such transfers of user 2.
fn opens_after(
    rt: &(impl Abort + AllocGlobal),
    way: Way,
    rows: &TransferRows,
    tick: u64,
    user: u32,
) -> u64 {
    let mut cadence = Cadence::new(rt.alloc(), 3, 0).expect(rt, "memory");
    for _ in 0..64 {
        cadence.add(asked(2, way), rows, 62, 1);
    }
    cadence.settle(way, 2, rows, tick);
    cadence.opens(way, user, rows)
}

/// The rate of each of 64 sessions, their guarantee, the tick of the round that drained it, and the next in
/// which they are open.
static SESSIONS: [(u64, u64, u64, u64); 9] = [
    (31_250, 0, 0, 31),
    (31_250, 0, 40, 63),
    (31_250, 0, 63, 95),
    (31_250, 500, 40, 63),
    (2_000_000, 0, 0, 1),
    (2_000_000, 0, 1, 3),
    (15_000_000, 0, 1, 2),
    (0, 0, 40, 0),
    (0, 500, 40, 0),
];

#[test]
fn sessions_have_a_beat_in_common(rt: HostRuntime) {
    for (rate, floor, tick, opens) in &SESSIONS {
        let rows = rows_of_session(OPEN, drained(*rate), *floor);
        let next = opens_after(&rt, Way::Down, &rows, *tick, 2);
        holds(&rt, next == *opens);
        holds(&rt, opens_after(&rt, Way::Down, &rows, *tick, 1) == 0); // of another user
    }
    let mut cadence = Cadence::new(rt.alloc(), 3, 0).expect(&rt, "memory");
    let mut small = asked(2, Way::Down);
    small.want = 1_024;
    let rows = rows_of_session(OPEN, drained(100_000), 0);
    cadence.add(small, &rows, 200, 1);
    cadence.settle(Way::Down, 2, &rows, 0);
    holds(&rt, cadence.opens(Way::Down, 2, &rows) == 1); // 2 ticks earn 256 octets, a quarter of what it wants
    let slow = rows_of_session(OPEN, drained(31_250), 0);
    holds(&rt, opens_after(&rt, Way::Up, &slow, 0, 2) == 7); // 8 ticks earn 256 octets
    // beside it, the server's rate is shared by 64 in 32 ticks, whether they have a guarantee or not
    let rows = rows_of_session(left(0), drained(31_250), 0);
    holds(&rt, opens_after(&rt, Way::Down, &rows, 0, 1) == 31);
    let rows = rows_of_session(left(0), drained(31_250), 500);
    holds(&rt, opens_after(&rt, Way::Down, &rows, 0, 1) == 31);
}

// The first tick in which the server's rate is open again, after a round in tick 0 that drained it: one transfer of user 1
// was granted half, and the other half some transfers of user 2, each an equal part. The line is shared among users.
fn opens_beside(
    rt: &(impl Abort + AllocGlobal),
    rate: u64,
    transfers: u64,
    floors: (u64, u64),
) -> u64 {
    let mut cadence = Cadence::new(rt.alloc(), 3, 0).expect(rt, "memory");
    let rows = rows_of_session(drained(rate), OPEN, floors.0);
    cadence.add(asked(1, Way::Down), &rows, 9_600, 1);
    let rows = rows_of_session(drained(rate), OPEN, floors.1);
    for _ in 0..transfers {
        cadence.add(asked(2, Way::Down), &rows, 9_600 / transfers, transfers);
    }
    cadence.settle(Way::Down, 1, &rows, 0);
    cadence.opens(Way::Down, 1, &rows)
}

/// The rate of a server, the transfers of user 2, the guarantees of those of user 1 and of user 2, and the next tick
/// in which the rate is open.
static CROWDS: [(u64, u64, (u64, u64), u64); 8] = [
    (2_048_000, 1, (0, 0), 1), // 2 parts of 4,096 octets
    (2_048_000, 8, (0, 0), 15), // of 8 times as many
    (2_048_000, 60, (0, 0), 15), // of 32,768: the one transfer asks for 65,536 at most
    (4_096_000, 60, (0, 0), 7),
    (65_536_000, 60, (0, 0), 1),
    (4_096_000, 60, (0, 500), 7), // 60 with a guarantee are one sharer
    (4_096_000, 60, (500, 500), 7),
    (4_096_000, 1, (500, 500), 1),
];

#[test]
fn transfers_of_a_user_share_a_part(rt: HostRuntime) {
    for (rate, transfers, floors, opens) in &CROWDS {
        holds(&rt, opens_beside(&rt, *rate, *transfers, *floors) == *opens);
    }
    let asks = [
        asked(1, Way::Down),
        asked(2, Way::Down),
        asked(2, Way::Up),
        asked(2, Way::Down),
    ];
    holds(&rt, crowd_of(ShareBy::Sessions, &asks, asks[1]) == 1);
    holds(&rt, crowd_of(ShareBy::Users, &asks, asks[1]) == 2);
    holds(&rt, crowd_of(ShareBy::Users, &asks, asks[2]) == 1);
}

/// The guarantee of a transfer beside 60 others on a line of 4 MiB a second, how many rounds it has missed, and the next
/// tick in which the line is open.
static LARGE_PARTS: [(u64, usize, u64); 6] = [
    (0, 0, 31),
    (419_430, 0, 31), // a tenth
    (1_048_576, 0, 15), // a quarter
    (3_145_728, 0, 7), // three quarters
    (3_145_728, 3, 31), // after rounds in 0, 7, 15 and 23
    (3_145_728, 4, 47),
];

// Holds a round of 60 transfers without a guarantee on that line in a tick; returns the next in which it is open.
fn hold_beside(cadence: &mut Cadence, tick: u64) -> u64 {
    let rows = rows_of_session(drained(4_194_304), OPEN, 0);
    for _ in 0..60 {
        cadence.add(asked(2, Way::Down), &rows, 1_000, 1);
    }
    cadence.settle(Way::Down, 2, &rows, tick);
    cadence.opens(Way::Down, 2, &rows)
}

#[test]
fn a_large_part_is_within_an_ask(rt: HostRuntime) {
    for (floor, missed, opens) in &LARGE_PARTS {
        let mut cadence = Cadence::new(rt.alloc(), 3, 0).expect(&rt, "memory");
        let rows = rows_of_session(drained(4_194_304), OPEN, *floor);
        cadence.add(asked(1, Way::Down), &rows, 1_000, 1);
        let mut next = hold_beside(&mut cadence, 0);
        for _ in 0..*missed {
            next = hold_beside(&mut cadence, next);
        }
        holds(&rt, next == *opens);
    }
}

/// The rows of a transfer with a guarantee open no later than those that they are within.
#[test]
fn rows_with_a_guarantee_are_aligned(rt: HostRuntime) {
    for (floor, opens) in &[(0, 31), (500, 3)] {
        let mut cadence = Cadence::new(rt.alloc(), 3, 0).expect(&rt, "memory");
        let rows = rows_of_session(left(0), drained(31_250), *floor);
        cadence.add(asked(2, Way::Down), &rows, 62, 1);
        cadence.settle(Way::Down, 2, &rows, 1); // the server's 2 ticks, the session's 32
        holds(&rt, cadence.opens(Way::Down, 2, &rows) == *opens);
    }
}

#[test]
fn sessions_have_enough_left(rt: HostRuntime) {
    let seven = Credit { rate: 50, left: 7 };
    let rows = rows_of_session(OPEN, seven, 0);
    holds(&rt, rows.have_left(7) && !rows.have_left(8));
    holds(
        &rt,
        !rows.are_free() && rows_of_session(OPEN, OPEN, 500).are_free(),
    );
    holds(&rt, rows_of_session(OPEN, OPEN, 0).have_left(u64::MAX));
    holds(&rt, !rows_of_session(OPEN, OPEN, 500).have_left(0)); // a guarantee
}

// A group with a rate of downloads, and a user in it with rates of uploads and a guarantee of downloads.
fn pace_of_a_group(rt: &(impl Abort + AllocGlobal)) -> Pace {
    let mut groups = Vec::new(rt.alloc());
    let group = GroupRate {
        group: 1,
        down: 5_000,
        up: 0,
    };
    groups.push(group).expect(rt, "memory");
    let mut users = Vec::new(rt.alloc());
    let user = UserRate {
        user: 3,
        group: Some(1),
        down: 0,
        up: 10_000,
        session_down: 0,
        session_up: 12_500,
        session_down_floor: 500,
        session_up_floor: 0,
    };
    users.push(user).expect(rt, "memory");
    let limits = Limits::of(0, 7_000, 0, groups, users).expect(rt, "limits");
    Pace::of(rt.alloc(), limits, 0).expect(rt, "memory")
}

#[test]
fn rows_are_those_of_a_transfer(rt: HostRuntime) {
    let mut pace = pace_of_a_group(&rt);
    pace.offer(0);
    let rows = pace.rows_of(Way::Down, 3);
    holds(&rt, rows.server == OPEN && rows.user == OPEN);
    holds(
        &rt,
        rows.way
            == Credit {
                rate: 7_000,
                left: 14,
            },
    );
    holds(
        &rt,
        rows.group
            == Credit {
                rate: 5_000,
                left: 10,
            },
    );
    holds(&rt, rows.group_number == Some(1) && rows.floor == 500);
    holds(&rt, rows.session == OPEN);
    let rows = pace.rows_of(Way::Up, 3);
    holds(&rt, rows.way == OPEN && rows.group == OPEN);
    holds(
        &rt,
        rows.user
            == Credit {
                rate: 10_000,
                left: 20,
            },
    );
    holds(
        &rt,
        rows.session
            == Credit {
                rate: 12_500,
                left: 25,
            },
    );
    holds(&rt, rows.group_number == Some(1) && !rows.has_floor());
    holds(&rt, rows.have_left(20) && !rows.have_left(21));
    let rows = pace.rows_of(Way::Down, 4);
    holds(&rt, rows.group == OPEN && rows.user == OPEN);
    holds(&rt, rows.group_number.is_none() && rows.floor == 0);
}

// The rows of a user in group 1, with this credit of both.
fn grouped(credit: Credit) -> TransferRows {
    TransferRows {
        server: OPEN,
        way: OPEN,
        group: credit,
        user: credit,
        session: OPEN,
        group_number: Some(1),
        floor: 0,
    }
}

fn hold_round(cadence: &mut Cadence, user: u32, rows: &TransferRows) {
    cadence.add(asked(user, Way::Down), rows, 100, 1);
    cadence.settle(Way::Down, user, rows, 0);
    cadence.settle(Way::Down, user, rows, 5); // nothing was added
}

#[test]
fn rows_close_for_those_within(rt: HostRuntime) {
    let slow = Credit {
        rate: 10_000,
        left: 10,
    };
    let alone = rows_of(0, 0, slow);
    let rest = rows_of(
        0,
        0,
        Credit {
            rate: 10_000,
            left: 11,
        },
    );
    let mut cadence = Cadence::new(rt.alloc(), 5, 2).expect(&rt, "memory");
    hold_round(&mut cadence, 1, &alone);
    hold_round(&mut cadence, 2, &rest);
    holds(&rt, cadence.opens(Way::Down, 1, &alone) == 31);
    holds(&rt, cadence.opens(Way::Up, 1, &alone) == 0);
    holds(&rt, cadence.opens(Way::Down, 2, &rest) == 0);
    hold_round(&mut cadence, 3, &grouped(slow));
    holds(&rt, cadence.opens(Way::Down, 4, &grouped(slow)) == 31); // by the group
    holds(&rt, cadence.opens(Way::Down, 4, &alone) == 0);
    hold_round(&mut cadence, 5, &alone); // no beat has this number
    holds(&rt, cadence.opens(Way::Down, 5, &alone) == 0);
}

// Returns whether there is memory for beats in this heap.
fn has_room(heap: &LocalHeap) -> bool {
    Cadence::new(heap, 3, 2).is_ok()
}

#[test]
fn beats_are_made_once_there_is_memory(rt: HostRuntime) -> Result<(), Fail> {
    let heap = LocalHeap::new(rt.alloc(), HEAP)?;
    let mut refused = 0usize;
    for room in 1..96usize {
        let rest = leave_hole(&rt, &heap, room * 16)?;
        if has_room(&heap) {
            break;
        }
        refused = room;
        drop(rest);
        holds(&rt, has_room(&heap));
    }
    holds(&rt, 2 <= refused && refused < 95);
    Ok(())
}
