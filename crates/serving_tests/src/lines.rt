//! Tests of the queue of lines, and of the line of a transfer log.

use crate::expect::holds;
use line_queue::{
    LAST_WAIT, LineQueue, MAX_LINES, Readiness, Round, SharedLines, Step, next_step, priority,
    readiness_of, transfers_dropped,
};
use log::Level;
use std::process::Abort;
use transfer_log::{FileNumbers, FileTransfer, must_open, transfer_line};

fn line(rt: &(impl Abort + AllocGlobal), text: &str) -> String {
    String::from_str(rt.alloc(), text).expect(rt, "memory")
}

#[test]
fn line_queue(rt: HostRuntime) {
    let mut queue = LineQueue::new(rt.alloc()).expect(&rt, "memory");
    queue.offer(line(&rt, "a\n"));
    holds(&rt, queue.next_octets() == b"a\n".as_slice());
    queue.written(1); // an octet was taken
    holds(&rt, queue.next_octets() == b"\n".as_slice());
    queue.written(1);
    holds(&rt, queue.is_empty());
}

#[test]
fn counts_are_reported(rt: HostRuntime) {
    let mut queue = LineQueue::new(rt.alloc()).expect(&rt, "memory");
    for _ in 0..MAX_LINES + 2 {
        queue.offer(line(&rt, "a\n"));
    }
    holds(&rt, queue.len() == MAX_LINES);
    holds(&rt, queue.dropped() == 2);
    for _ in 0..MAX_LINES {
        queue.written(2);
    }
    queue.report(rt.alloc(), "[WARN ] ").expect(&rt, "memory");
    holds(&rt, queue.dropped() == 0);
    let reported = queue.next_octets();
    holds(&rt, reported == b"[WARN ] lines dropped: 2\n".as_slice());
    queue.written(3);
    holds(&rt, queue.has_begun());
}

#[test]
fn counts_are_taken(rt: HostRuntime) {
    let mut queue = LineQueue::new(rt.alloc()).expect(&rt, "memory");
    queue.miss();
    queue.miss();
    holds(&rt, queue.take_dropped() == 2);
    holds(&rt, queue.dropped() == 0);
}

#[test]
fn lines_that_are_left(rt: HostRuntime) {
    let mut queue = LineQueue::new(rt.alloc()).expect(&rt, "memory");
    queue.offer(line(&rt, "a\n"));
    queue.offer(line(&rt, "b\n"));
    queue.written(1);
    queue.begin_again();
    holds(&rt, queue.next_octets() == b"a\n".as_slice());
    queue.miss();
    holds(&rt, queue.lost() == 3);
    queue.give_up();
    holds(&rt, queue.is_empty());
    holds(&rt, queue.dropped() == 3);
}

#[test]
fn steps_of_the_writer(rt: HostRuntime) {
    holds(&rt, readiness_of(1, 4) == Readiness::Ready);
    holds(&rt, readiness_of(0, 0) == Readiness::Full);
    holds(&rt, readiness_of(1, 12) == Readiness::Gone);
    let step = next_step(Round::Idle, Round::Idle, None);
    holds(&rt, step == Step::Sleep);
    let step = next_step(Round::Held, Round::Idle, Some(LAST_WAIT));
    holds(&rt, step == Step::Poll);
    let step = next_step(Round::Refused, Round::Held, None);
    holds(&rt, step == Step::Pause);
    let step = next_step(Round::Held, Round::Wrote, Some(LAST_WAIT + 1));
    holds(&rt, step == Step::End);
    holds(&rt, priority(Level::Warn) == "<4>");
    let lines = SharedLines::new(rt.alloc()).expect(&rt, "memory");
    lines.note(&rt, Ok(line(&rt, "a\n")));
    lines.transfer(&rt, Ok(line(&rt, "b\n")));
    lines.close();
    holds(&rt, lines.give_up(&rt) == 1);
    let note = transfers_dropped(rt.alloc(), "<4>", 1).expect(&rt, "memory");
    holds(
        &rt,
        note.as_str() == "<4>lines of the transfer log dropped: 1\n",
    );
}

#[test]
fn lines_of_transfers(rt: HostRuntime) {
    let transfer = FileTransfer {
        ended: 1_795_705_485,
        micros: 2_345_678,
        peer: [127, 0, 0, 1],
        octets: 6,
        path: "/a b.txt",
        is_text: false,
        is_sent: true,
        user: "ann",
        is_whole: true,
    };
    let reported = transfer_line(rt.alloc(), &transfer).expect(&rt, "memory");
    let wanted = "Thu Nov 26 15:04:45 2026 2 127.0.0.1 6 /a_b.txt b _ o r ann ftp 0 * c\n";
    holds(&rt, reported.as_str() == wanted);
}

#[test]
fn files_that_are_moved(rt: HostRuntime) {
    let one = FileNumbers {
        device: 1,
        inode: 2,
    };
    let other = FileNumbers {
        device: 1,
        inode: 3,
    };
    holds(&rt, !must_open(Some(one), Some(one)));
    holds(&rt, must_open(Some(one), Some(other)));
    holds(&rt, must_open(Some(one), None));
}
