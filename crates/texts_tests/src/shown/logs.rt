//! Lines that are read, and lines that are not of the form; rows worked by hand, from xferlog(5) and the calendar.

use crate::shown::expect::holds;
use log_lines::{LogDay, read_day, read_line, written_is_read};
use std::process::Abort;
use transfer_log::{FileTransfer, transfer_line};

const NOT_OF_THE_FORM: [&str; 20] = [
    "",
    "Thu Nov 26 15:04:45 2026 2 127.0.0.1 6 /a b _ o r ann ftp 0 *",
    "Thu Nov 26 15:04:45 2026 2 127.0.0.1 6 /a b _ o r ann ftp 0 * c c",
    "Thu Nov 26 15:04:45 2026 2 127.0.0.1 6 /a b _ o r ann ftp 0 * c ",
    "Fri Nov 26 15:04:45 2026 2 127.0.0.1 6 /a b _ o r ann ftp 0 * c",
    "Thu Nov  5 15:04:45 2026 2 127.0.0.1 6 /a b _ o r ann ftp 0 * c",
    "Mon Nov 31 15:04:45 2026 2 127.0.0.1 6 /a b _ o r ann ftp 0 * c",
    "Sun Feb 29 15:04:45 2026 2 127.0.0.1 6 /a b _ o r ann ftp 0 * c",
    "Thu Nov 26 24:04:45 2026 2 127.0.0.1 6 /a b _ o r ann ftp 0 * c",
    "Thu Nov 26 15:60:45 2026 2 127.0.0.1 6 /a b _ o r ann ftp 0 * c",
    "Thu Nov 26 15:04:60 2026 2 127.0.0.1 6 /a b _ o r ann ftp 0 * c",
    "Thu Nov 26 15-04-45 2026 2 127.0.0.1 6 /a b _ o r ann ftp 0 * c",
    "Thu Nov 26 15:04:45 2026 02 127.0.0.1 6 /a b _ o r ann ftp 0 * c",
    "Thu Nov 26 15:04:45 2026 2 127.0.0.1 +6 /a b _ o r ann ftp 0 * c",
    "Thu Nov 26 15:04:45 2026 2 127.0.0.1 18446744073709551616 /a b _ o r ann ftp 0 * c",
    "Thu Nov 26 15:04:45 2026 2 127.0.0.1 6 /a\u{ad} b _ o r ann ftp 0 * c",
    "Thu Nov 26 15:04:45 2026 2 127.0.0.1 6 /a c _ o r ann ftp 0 * c",
    "Thu Nov 26 15:04:45 2026 2 127.0.0.1 6 /a b C o r ann ftp 0 * c",
    "Thu Nov 26 15:04:45 2026 2 127.0.0.1 6 /a b _ d r ann ftp 0 * c",
    "Thu Nov 26 15:04:45 2026 2 127.0.0.1 6 /a b _ o g ann ftp 1 * c",
];

#[test]
fn lines_that_are_not_of_the_form(rt: HostRuntime) {
    for text in NOT_OF_THE_FORM.iter() {
        holds(&rt, read_line(text.as_bytes()).is_none());
    }
    holds(&rt, read_line(b"\xff").is_none());
}

#[test]
fn log_lines(rt: HostRuntime) {
    let text = b"Thu Nov 26 15:04:45 2026 2 127.0.0.1 6 /a_b.txt b _ o r ann ftp 0 * c";
    let line = read_line(text.as_slice()).expect(&rt, "of the form");
    holds(
        &rt,
        line.user == "ann" && line.path == "/a_b.txt" && line.octets == 6,
    );
    holds(
        &rt,
        line.ended.day
            == LogDay {
                year: 2026,
                month: 11,
                day: 26,
            },
    );
}

#[test]
fn a_line_of_each_kind(rt: HostRuntime) {
    let text = "Tue Feb 29 00:00:00 2028 18446744073709551615 ::1 0 /ä a _ i a ftp ftp 0 * i";
    let line = read_line(text.as_bytes()).expect(&rt, "of the form");
    holds(
        &rt,
        line.ended.day
            == LogDay {
                year: 2028,
                month: 2,
                day: 29,
            },
    );
    holds(
        &rt,
        line.ended.hour == 0 && line.ended.minute == 0 && line.ended.second == 0,
    );
    holds(
        &rt,
        line.seconds == u64::MAX && line.octets == 0 && line.address == "::1",
    );
    holds(
        &rt,
        line.is_text && !line.is_sent && line.is_public && !line.is_whole,
    );
}

#[test]
fn days(rt: HostRuntime) {
    let day = read_day("2026-11-26").expect(&rt, "a day");
    holds(
        &rt,
        day == LogDay {
            year: 2026,
            month: 11,
            day: 26,
        },
    );
    holds(
        &rt,
        day < LogDay {
            year: 2026,
            month: 12,
            day: 1,
        },
    );
    for text in [
        "2026-11-31",
        "2026-11-2",
        "2026-11-26-1",
        "2026-11",
        "26-11-26",
    ]
    .iter()
    {
        holds(&rt, read_day(text).is_none());
    }
}

#[test]
fn what_is_written_is_read(rt: HostRuntime) {
    let transfer = FileTransfer {
        ended: 1_795_705_485,
        micros: 2_999_999,
        peer: [127, 0, 0, 1],
        octets: 6,
        path: "/a b.txt",
        is_text: false,
        is_sent: true,
        user: "",
        is_whole: true,
    };
    let written = transfer_line(rt.alloc(), &transfer).expect(&rt, "memory");
    written_is_read();
    let text = written.as_str().trim_end();
    let line = read_line(text.as_bytes()).expect(&rt, "of the form");
    holds(
        &rt,
        line.ended.day
            == LogDay {
                year: 2026,
                month: 11,
                day: 26,
            },
    );
    holds(
        &rt,
        line.seconds == 2 && line.path == "/a_b.txt" && line.user == "_",
    );
}
