//! The amounts that rounds post, row by row.

use super::expect::{OfTest, down, holds, limits, session_down};
use grant_ledger::MAX_ISSUED;
use lane_desk::RoundRefusal;
use limit_tree::TreeFault;
use line_rates::{Ask, Limits, ShareBy};
use std::process::Abort;
use test_checked_desk::CheckedDesk;

/// A desk of `lanes` lanes, with a book that has issued `MAX_ISSUED` octets if `full`, and otherwise none.
fn desk_of(rt: &(impl Abort + AllocGlobal), lanes: usize, full: bool) -> CheckedDesk<OfTest> {
    let carried = if full { MAX_ISSUED } else { 0 };
    CheckedDesk::open(rt.alloc(), lanes, carried).expect(rt, "a desk")
}

/// A worker sits down on each of the first lanes, and asks.
fn ask_all(rt: &impl Abort, desk: &mut CheckedDesk<OfTest>, asks: &[Ask]) {
    for lane in 0..asks.len() {
        holds(rt, desk.sit(lane) && desk.ask(lane, asks[lane]));
    }
}

/// The first lanes take these amounts, and move all.
fn take_all(rt: &impl Abort, desk: &mut CheckedDesk<OfTest>, amounts: &[u64]) {
    for lane in 0..amounts.len() {
        holds(rt, desk.take(lane, u64::MAX) == Some(amounts[lane]));
    }
}

/// Asks on the first lanes of a new desk, and the amounts that a round at moment 0 posts to them.
fn first_round(
    rt: &(impl Abort + AllocGlobal),
    limits: &Limits,
    asks: &[Ask],
    amounts: &[u64],
) -> CheckedDesk<OfTest> {
    let mut desk = desk_of(rt, asks.len(), false);
    ask_all(rt, &mut desk, asks);
    match desk.round(rt.alloc(), limits, 0) {
        Ok(record) => holds(rt, record.tick == 0 && record.sealed.grants() == amounts),
        Err(_) => panic!(rt; "the first round was refused"),
    }
    take_all(rt, &mut desk, amounts);
    desk
}

#[test]
fn test_checked_desk(rt: HostRuntime) {
    let limits = limits(&rt, 25, 0); // a server's rate of 25 octets a second: 2 in the first tick, and 3 in the next
    let mut desk = CheckedDesk::<OfTest>::open(rt.alloc(), 2, 0).expect(&rt, "a desk");
    holds(&rt, desk.sit(0) && desk.ask(0, down(7, 5))); // a worker on lane 0, for user 7
    let record = desk.round(rt.alloc(), &limits, 0).expect(&rt, "a round");
    holds(&rt, record.answered == 1 && record.sealed.total() == 2);
    holds(&rt, desk.take(0, 1) == Some(2)); // it moves one octet, and gives one back
    holds(&rt, desk.rise(0) && !desk.ask(0, down(7, 5)));
    let settled = desk.close();
    holds(
        &rt,
        settled.issued == 2 && settled.moved == 1 && settled.back == 1,
    );
}

#[test]
fn a_floor_comes_first(rt: HostRuntime) {
    let limits = limits(&rt, 30, 30);
    let desk = first_round(&rt, &limits, &[down(0, 5), down(1, 5)], &[3, 0]);
    holds(&rt, desk.close().moved == 3);
}

#[test]
fn without_limits_all_is_granted(rt: HostRuntime) {
    let limits = limits(&rt, 0, 0);
    let desk = first_round(
        &rt,
        &limits,
        &[down(0, 5), down(1, 65536), down(2, 0)],
        &[5, 65536, 0],
    );
    let settled = desk.close();
    holds(
        &rt,
        settled.issued == 65541 && settled.moved == 65541 && settled.back == 0,
    );
}

/// Two lanes of one user share what one lane of another has alone.
#[test]
fn users_have_equal_parts(rt: HostRuntime) {
    let limits = limits(&rt, 80, 0).shared_by(ShareBy::Users);
    let asks = [session_down(0, 0, 9), session_down(0, 1, 9), down(1, 9)];
    let desk = first_round(&rt, &limits, &asks, &[2, 2, 4]);
    holds(&rt, desk.close().moved == 8);
}

/// A round at a moment is refused for this reason, and answers these lanes with 0 octets.
fn refused(
    rt: &(impl Abort + AllocGlobal),
    desk: &mut CheckedDesk<OfTest>,
    limits: &Limits,
    moment: u64,
    reason: RoundRefusal,
    answered: u64,
) {
    match desk.round(rt.alloc(), limits, moment) {
        Ok(_) => panic!(rt; "the round was not refused"),
        Err(fault) => holds(rt, fault.reason == reason && fault.answered == answered),
    }
    for lane in 0..2 {
        let is_answered = answered >> (lane as u32) & 1 == 1;
        holds(
            rt,
            desk.take(lane, 0) == if is_answered { Some(0) } else { None },
        );
    }
}

/// Two lanes ask, and a round at moment 0 is refused for this reason.
fn first_is_refused(
    rt: &(impl Abort + AllocGlobal),
    limits: &Limits,
    asks: &[Ask],
    full: bool,
    reason: RoundRefusal,
) {
    let mut desk = desk_of(rt, 2, full);
    ask_all(rt, &mut desk, asks);
    refused(rt, &mut desk, limits, 0, reason, 3);
    let settled = desk.close();
    holds(rt, settled.back == 0 && settled.issued == settled.moved);
}

#[test]
fn two_floors_that_do_not_fit(rt: HostRuntime) {
    let limits = limits(&rt, 30, 30);
    let asks = [session_down(0, 0, 5), session_down(0, 1, 5)];
    let fault = RoundRefusal::Plan(TreeFault::FloorsOverLimit(0));
    first_is_refused(&rt, &limits, &asks, false, fault);
}

#[test]
fn an_ask_above_the_largest_want(rt: HostRuntime) {
    let limits = limits(&rt, 0, 0);
    let fault = RoundRefusal::Plan(TreeFault::WantTooLarge);
    first_is_refused(
        &rt,
        &limits,
        &[down(0, 4294967296), down(1, 1)],
        false,
        fault,
    );
}

/// A user can have at most as many octets as a leaf may want.
#[test]
fn a_user_above_the_largest_want(rt: HostRuntime) {
    let limits = limits(&rt, 0, 0).shared_by(ShareBy::Users);
    let asks = [session_down(0, 0, 4294967295), session_down(0, 1, 1)];
    first_is_refused(&rt, &limits, &asks, false, RoundRefusal::Unshared);
}

#[test]
fn a_book_that_is_full(rt: HostRuntime) {
    let limits = limits(&rt, 0, 0);
    first_is_refused(
        &rt,
        &limits,
        &[down(0, 1), down(1, 0)],
        true,
        RoundRefusal::BookFull,
    );
}

#[test]
fn one_round_a_tick(rt: HostRuntime) {
    let limits = limits(&rt, 30, 0);
    let mut desk = first_round(&rt, &limits, &[down(0, 5), down(1, 5)], &[2, 1]);
    holds(&rt, desk.rise(0) && desk.ask(1, down(1, 4)));
    refused(&rt, &mut desk, &limits, 99, RoundRefusal::NotYet(0), 2);
    holds(&rt, desk.ask(1, down(1, 4)));
    match desk.round(rt.alloc(), &limits, 100) {
        Ok(record) => holds(
            &rt,
            record.tick == 1 && record.answered == 2 && record.sealed.total() == 3,
        ),
        Err(_) => panic!(&rt; "a later tick was refused"),
    }
    // amounts posted and not taken are given back
    let settled = desk.close();
    holds(
        &rt,
        settled.issued == 6 && settled.moved == 3 && settled.back == 3,
    );
}

/// Moments of rounds, in milliseconds, up to the last that there is, and the octets that 25 a second grant in their ticks.
static MOMENTS: [(u64, u64); 6] = [
    (0, 2),
    (429_496_729_500, 3),
    (429_496_729_600, 2),
    (429_496_729_700, 3),
    (9_223_372_036_854_775_800, 2),
    (u64::MAX, 2),
];

#[test]
fn a_round_is_held_at_any_moment(rt: HostRuntime) {
    let limits = limits(&rt, 25, 0);
    let mut desk = desk_of(&rt, 1, false);
    for (moment, octets) in &MOMENTS {
        holds(&rt, desk.sit(0) && desk.ask(0, down(0, 5)));
        match desk.round(rt.alloc(), &limits, *moment) {
            Ok(record) => holds(
                &rt,
                record.tick == *moment / 100 && record.sealed.grants() == [*octets].as_slice(),
            ),
            Err(_) => panic!(&rt; "a round was refused"),
        }
        holds(&rt, desk.take(0, u64::MAX) == Some(*octets) && desk.rise(0));
    }
    let settled = desk.close();
    holds(&rt, settled.issued == 14 && settled.moved == 14);
}

/// Lane 4 was granted 7 octets and has not taken them, lane 1 sits, lanes 2 and 3 have asked, and lane 3 was collected.
#[test]
fn five_lanes_in_different_states(rt: HostRuntime) {
    let limits = limits(&rt, 0, 0);
    let mut desk = desk_of(&rt, 5, false);
    holds(&rt, desk.sit(4) && desk.ask(4, down(4, 7)));
    match desk.round(rt.alloc(), &limits, 0) {
        Ok(record) => holds(
            &rt,
            record.answered == 16 && record.lanes.as_slice() == [4].as_slice(),
        ),
        Err(_) => panic!(&rt; "the round was refused"),
    }
    holds(&rt, desk.sit(1) && desk.sit(2) && desk.ask(2, down(2, 1)));
    holds(&rt, desk.sit(3) && desk.ask(3, down(3, 9)));
    let (ask, settled) = desk.collect_and_close(3);
    holds(&rt, ask == Some(down(3, 9)));
    holds(
        &rt,
        settled.issued == 7 && settled.moved == 0 && settled.back == 7,
    );
}

#[test]
fn all_lanes_in_one_round(rt: HostRuntime) {
    let limits = limits(&rt, 0, 0);
    let mut desk = desk_of(&rt, 64, false);
    for lane in 0..64 {
        holds(
            &rt,
            desk.sit(lane) && desk.ask(lane, down(lane as u32, lane as u64)),
        );
    }
    match desk.round(rt.alloc(), &limits, 0) {
        Ok(record) => holds(
            &rt,
            record.answered == u64::MAX && record.sealed.total() == 2016,
        ),
        Err(_) => panic!(&rt; "the round was refused"),
    }
    for lane in 0..64 {
        holds(
            &rt,
            desk.take(lane, 1) == Some(lane as u64) && desk.rise(lane),
        );
    }
    let settled = desk.close();
    holds(
        &rt,
        settled.issued == 2016 && settled.moved == 63 && settled.back == 1953,
    );
}
