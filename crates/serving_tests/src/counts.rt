//! Counts that threads wait on. The function with the crate's name is the example in its head.

use super::expect::holds;
use event_word::{EventCount, SharedEventCount, micros};
use std::sync::Wait;
use std::thread;
use std::time::{Clock, Duration};

#[test]
fn event_word(rt: HostRuntime) {
    let waker = EventCount::new();
    let seen = waker.seen(); // before the look for what is signalled
    waker.signal();
    waker.wait(&rt, seen, 0, Duration::from_secs(60)); // returns at once
    assert!(rt; waker.seen() != seen);
}

// Signals one count and waits for the other, in turns. A lost wake-up takes a minute.
fn take_turns<R: Wait + Clock>(
    rt: &R,
    mine: &EventCount,
    theirs: &EventCount,
    turns: u64,
    patience: u64,
) {
    for turn in 0..turns {
        mine.signal();
        for _ in rt.forever() {
            let seen = theirs.seen();
            if seen > turn {
                break;
            }
            theirs.wait(rt, seen, patience, Duration::from_secs(60));
        }
    }
}

#[test]
fn no_signal_is_lost(rt: HostRuntime) {
    for patience in [0u64, 20] {
        let (one, two) = (EventCount::new(), EventCount::new());
        thread::join(
            &rt,
            || take_turns(&rt, &one, &two, 500, patience),
            || take_turns(&rt, &two, &one, 500, patience),
        );
        holds(&rt, one.seen() == 500 && two.seen() == 500);
    }
}

// Waits until a count is not 0.
fn await_first<R: Wait>(rt: &R, count: &SharedEventCount) {
    for _ in rt.forever() {
        if count.seen() != 0 {
            break;
        }
        count.wait(rt, 0, Duration::from_secs(60));
    }
}

#[test]
fn many_wait(rt: HostRuntime) {
    let (one, all) = (SharedEventCount::new(), SharedEventCount::new());
    thread::join(&rt, || await_first(&rt, &one), || one.signal_one());
    thread::join(
        &rt,
        || {
            thread::join(&rt, || await_first(&rt, &all), || await_first(&rt, &all));
        },
        || all.signal_all(),
    );
    holds(&rt, one.seen() == 1 && all.seen() == 1);
}

#[test]
fn time_goes_on(rt: HostRuntime) {
    let before = micros(&rt);
    holds(&rt, before <= micros(&rt));
}
