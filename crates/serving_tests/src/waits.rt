//! Limits of time for clients. The function with the crate's name is the example in its head.

use super::expect::holds;
use client_patience::{Patience, TimeOut, Waits};

#[test]
fn client_patience(rt: HostRuntime) {
    let patience = Patience {
        login_timeout: 60,
        idle_timeout: 900,
        login_delay: 1,
        drain_timeout: 0,
    };
    let mut waits = Waits::new(0); // a client has connected; moments are microseconds
    holds(&rt, waits.time_out(patience, 60_000_000).is_none());
    let late = waits.time_out(patience, 60_000_001);
    holds(&rt, late == Some(TimeOut::Login));
    waits.log_in();
    waits.hear(60_000_001); // its lines came
    holds(&rt, waits.time_out(patience, 960_000_001).is_none());
    let late = waits.time_out(patience, 960_000_002);
    holds(&rt, late == Some(TimeOut::Idle));
}

/// Without limits nobody is late; a user who has left has the time for a login anew.
#[test]
fn a_user_who_left_may_come_back(rt: HostRuntime) {
    let endless = Patience {
        login_timeout: 0,
        idle_timeout: 0,
        login_delay: 0,
        drain_timeout: 0,
    };
    let limited = Patience {
        login_timeout: 1,
        idle_timeout: 0,
        login_delay: 0,
        drain_timeout: 2,
    };
    let mut waits = Waits::new(5);
    holds(&rt, waits.time_out(endless, u64::MAX).is_none());
    waits.log_in();
    holds(&rt, waits.time_out(limited, u64::MAX).is_none());
    waits.log_out(7_000_000);
    holds(&rt, waits.time_out(limited, 8_000_000).is_none());
    holds(&rt, waits.time_out(limited, 8_000_001).is_some());
}

/// A server that drains waits for as many seconds as it may, and without a limit for ever.
#[test]
fn a_drain_ends_in_time(rt: HostRuntime) {
    let limited = Patience {
        login_timeout: 0,
        idle_timeout: 0,
        login_delay: 0,
        drain_timeout: 2,
    };
    let endless = Patience {
        drain_timeout: 0,
        ..limited
    };
    holds(&rt, !limited.has_drained(5, 2_000_005));
    holds(&rt, limited.has_drained(5, 2_000_006));
    holds(&rt, !endless.has_drained(5, u64::MAX));
}
