//! Numbers out of their ranges, each refused by its name.

use crate::expect::holds;
use ftp_server::{
    FtpServer, FtpServerFault, LimitsFault, MemStore, NoHooks, NumberFault, RoundClock,
};
use std::net::{Net, TcpListener, TcpStream};
use std::process::Abort;
use std::sync::Wait;
use std::thread::Threads;
use std::time::Clock;

fn new_server(rt: &(impl Abort + AllocGlobal)) -> FtpServer {
    FtpServer::at(rt.alloc(), [127, 0, 0, 1], 2121).expect(rt, "memory")
}

// Stops the test unless the server is refused for this number.
fn refuses<R>(rt: &R, server: FtpServer, number: NumberFault)
where
    R: Abort
        + Threads
        + Wait
        + Clock
        + RoundClock
        + Net<Listener = TcpListener, Stream = TcpStream>
        + AllocGlobal
        + Copy
        + Send
        + Sync,
{
    let store = MemStore::new(rt.alloc(), 1_000).expect(rt, "memory");
    match server.serve_store(rt, store, NoHooks) {
        Err(FtpServerFault::Number(fault)) => holds(rt, fault == number),
        _ => holds(rt, false),
    }
}

#[test]
fn of_ports(rt: HostRuntime) {
    let mut server = new_server(&rt);
    server.numbers.port = 0;
    refuses(&rt, server, NumberFault::Port);
    let mut server = new_server(&rt);
    server.numbers.passive_first = 0;
    refuses(&rt, server, NumberFault::PassivePorts);
    let mut server = new_server(&rt);
    server.numbers.passive_last = 29_999;
    refuses(&rt, server, NumberFault::PassivePorts);
}

#[test]
fn of_counts(rt: HostRuntime) {
    for lanes in [0, 65] {
        let mut server = new_server(&rt);
        server.numbers.lanes = lanes;
        refuses(&rt, server, NumberFault::Lanes);
    }
    for max_cons in [0, 513] {
        let mut server = new_server(&rt);
        server.numbers.max_cons = max_cons;
        refuses(&rt, server, NumberFault::MaxCons);
    }
    let mut server = new_server(&rt);
    server.numbers.max_cons_per_address = 513;
    refuses(&rt, server, NumberFault::MaxConsPerAddress);
    for attempts in [0, 101] {
        let mut server = new_server(&rt);
        server.settings.login_attempts = attempts;
        refuses(&rt, server, NumberFault::LoginAttempts);
    }
    let mut server = new_server(&rt);
    server.user_sessions = 65_536;
    refuses(&rt, server, NumberFault::UserSessions);
}

#[test]
fn of_times(rt: HostRuntime) {
    let mut server = new_server(&rt);
    server.patience.login_timeout = 86_401;
    refuses(&rt, server, NumberFault::LoginTimeout);
    let mut server = new_server(&rt);
    server.patience.idle_timeout = 86_401;
    refuses(&rt, server, NumberFault::IdleTimeout);
    let mut server = new_server(&rt);
    server.patience.login_delay = 86_401;
    refuses(&rt, server, NumberFault::LoginDelay);
    let mut server = new_server(&rt);
    server.patience.drain_timeout = 86_401;
    refuses(&rt, server, NumberFault::DrainTimeout);
}

// Rates are checked after the numbers, and before anything is opened: the folder is not there.
#[test]
fn of_rates(rt: HostRuntime) {
    let mut server = new_server(&rt);
    server.rate = u64::MAX;
    let served = server.serve_folder(&rt, &rt, "no folder", NoHooks);
    holds(
        &rt,
        matches!(served, Err(FtpServerFault::Rate(LimitsFault::RateTooLarge))),
    );
}
