//! Ends of a server that need no client.

use crate::expect::holds;
use ftp_server::{
    FtpServer, FtpServerFault, MemStore, NoHooks, ServeFault, StopFlag, StoreFault, Stores,
};
use std::process::Abort;

fn new_server(rt: &(impl Abort + AllocGlobal)) -> FtpServer {
    FtpServer::at(rt.alloc(), [127, 0, 0, 1], 2121).expect(rt, "memory")
}

// The port is not listened on: the flag is checked first.
#[test]
fn by_a_flag_that_is_up(rt: HostRuntime) {
    let flag = StopFlag::new(rt.alloc()).expect(&rt, "memory");
    flag.another().expect(&rt, "a handle").raise();
    let store = MemStore::new(rt.alloc(), 1_000).expect(&rt, "memory");
    let served = new_server(&rt).serve_with(&rt, Stores::one(rt.alloc(), store), NoHooks, flag);
    holds(
        &rt,
        matches!(served, Err(FtpServerFault::Serve(ServeFault::Stopped))),
    );
}

#[test]
fn of_a_folder(rt: HostRuntime) {
    let mut server = new_server(&rt);
    server.numbers.max_cons = 3;
    let flag = StopFlag::new(rt.alloc()).expect(&rt, "memory");
    let stores = server.open_folder(&rt, ".", &flag).expect(&rt, "a folder");
    holds(&rt, stores.own.len() == 3);
    flag.raise();
    let served = server.serve_with(&rt, stores, NoHooks, flag);
    holds(
        &rt,
        matches!(served, Err(FtpServerFault::Serve(ServeFault::Stopped))),
    );
}

#[test]
fn of_no_folder(rt: HostRuntime) {
    let served = new_server(&rt).serve_folder(&rt, &rt, "no folder", NoHooks);
    match served {
        // an error of the machine is known of a fault of the device
        Err(FtpServerFault::Folder(fault, error)) => {
            holds(&rt, fault == StoreFault::NotFound);
            holds(&rt, error.is_none());
        }
        _ => holds(&rt, false),
    }
}
