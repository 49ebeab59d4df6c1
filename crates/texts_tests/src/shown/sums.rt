//! Sums over lines, worked by hand.

use crate::shown::expect::holds;
use std::process::Abort;
use usage_report::{LogLook, Sums, Usage, UsageKey, ranked, read_day};

pub(crate) const NEW: &[u8] = b"Thu Nov 26 15:04:45 2026 2 127.0.0.1 6 /a b _ o r ann ftp 0 * c
Thu Nov 26 16:00:00 2026 1 127.0.0.1 10 /b b _ i r bob ftp 0 * i
what is this
Thu Nov 26 16:59:59 2026 4 127.0.0.2 100 /a b _ o r ann ftp 0 * c
Fri Nov 27 00:00:00 2026 1 127.0.0.2 1000 /a b _ o r ann ftp 0 * c
";

pub(crate) const CUT: &[u8] = b"Fri Nov 27 00:00:01 2026 1 127.0.0.2 1000";

fn row(usage: &Usage, key: &str) -> Option<Sums> {
    usage.rows.get(key).copied()
}

// The sums of both logs.
fn both(rt: &(impl Abort + AllocGlobal), by: UsageKey) -> Usage {
    let mut usage = Usage::new(rt.alloc(), by, None);
    usage.take_log(rt.alloc(), &mut &*NEW).expect(rt, "sums");
    usage.take_log(rt.alloc(), &mut &*CUT).expect(rt, "sums");
    usage
}

#[test]
fn usage_report(rt: HostRuntime) {
    let day = read_day("2026-11-26");
    let mut usage = Usage::new(rt.alloc(), UsageKey::User, day);
    let mut log = NEW;
    let look = usage.take_log(rt.alloc(), &mut log).expect(&rt, "sums");
    let seen = LogLook {
        lines: 5,
        unread: 1,
        first_unread: Some(3),
    };
    holds(&rt, look == seen);
    let ann = Sums {
        transfers: 2,
        octets: 106,
        seconds: 6,
    };
    holds(&rt, usage.rows.get("ann").copied() == Some(ann));
    let all = Sums {
        transfers: 3,
        octets: 116,
        seconds: 7,
    };
    holds(&rt, usage.total == all);
}

#[test]
fn a_line_without_its_end(rt: HostRuntime) {
    let mut usage = Usage::new(rt.alloc(), UsageKey::User, None);
    let mut log = CUT;
    let look = usage.take_log(rt.alloc(), &mut log).expect(&rt, "sums");
    holds(
        &rt,
        look.lines == 1 && look.unread == 1 && look.first_unread == Some(1),
    );
    let mut empty = &CUT[..0];
    let look = usage.take_log(rt.alloc(), &mut empty).expect(&rt, "sums");
    holds(&rt, look.lines == 0 && look.first_unread == None);
    holds(&rt, usage.total == Sums::NONE);
}

#[test]
fn keys(rt: HostRuntime) {
    let hours = both(&rt, UsageKey::Hour);
    let sixteen = Sums {
        transfers: 2,
        octets: 110,
        seconds: 5,
    };
    holds(
        &rt,
        row(&hours, "2026-11-26 16") == Some(sixteen) && hours.rows.len() == 3,
    );
    let files = both(&rt, UsageKey::File);
    let a = Sums {
        transfers: 3,
        octets: 1106,
        seconds: 7,
    };
    holds(&rt, row(&files, "/a") == Some(a) && files.rows.len() == 2);
    let addresses = both(&rt, UsageKey::Address);
    let first = Sums {
        transfers: 2,
        octets: 16,
        seconds: 3,
    };
    holds(
        &rt,
        row(&addresses, "127.0.0.1") == Some(first) && addresses.rows.len() == 2,
    );
}

#[test]
fn the_most_octets_are_first(rt: HostRuntime) {
    let users = both(&rt, UsageKey::User);
    let rows = ranked(rt.alloc(), &users.rows).expect(&rt, "rows");
    holds(
        &rt,
        rows.len() == 2 && rows[0].key == "ann" && rows[1].key == "bob",
    );
}
