//! A server in a heap of its own: its users and its store.

use authorizer::Authorizer;
use ftp_terms::LineText;
use line_rates::{Limits, UserRate};
use linked_list_allocator::LocalHeap;
use memory_store::MemStore;
use rate_floors::Floors;
use session_table::Settings;
use std::alloc::Allocator;
use std::process::Abort;
use virtual_path::VPath;
use virtual_tree::{Sink, Store, WriteMode};

#[derive(Drop)]
pub(crate) struct Server<'h> {
    pub users: Authorizer<&'h LocalHeap>,
    pub store: MemStore<&'h LocalHeap>,
    pub floors: Floors,
}

/// The address of the client, and of the server.
pub(crate) const PEER: [u8; 4] = [127, 0, 0, 1];

pub(crate) fn settings<A: Allocator>() -> Settings<A> {
    Settings {
        banner: LineText::fixed("Ready"),
        login_attempts: 3,
        permits_foreign_addresses: false,
        permits_privileged_ports: false,
        address: PEER,
    }
}

/// The guarantee of one session of each user: more than half of the server's rate.
fn guarantee(user: u32) -> UserRate {
    UserRate {
        user,
        group: None,
        down: 0,
        up: 0,
        session_down: 0,
        session_up: 0,
        session_down_floor: 60,
        session_up_floor: 0,
    }
}

/// There is room for one guaranteed session: a login fits only if no earlier session is still counted.
fn make_floors(rt: &(impl Abort + AllocGlobal)) -> Floors {
    let alloc = rt.alloc();
    let mut users = Vec::new(alloc);
    users.push(guarantee(0)).expect(rt, "memory");
    users.push(guarantee(1)).expect(rt, "memory");
    let limits = Limits::of(100, 0, 0, Vec::new(alloc), users).expect(rt, "limits");
    Floors::of(alloc, &limits).expect(rt, "memory")
}

fn make_users<'h>(rt: &impl Abort, heap: &'h LocalHeap) -> Authorizer<&'h LocalHeap> {
    let mut users = Authorizer::new(heap).expect(rt, "memory");
    users
        .add_user("ann", "secret", "/", "elradfmw")
        .expect(rt, "a user");
    users.add_user("bob", "b", "/", "elr").expect(rt, "a user");
    users
        .override_perm("bob", "/in", "lw", true)
        .expect(rt, "an override");
    users
}

/// The directory in, and the file f with the octets a LF b.
fn make_store<'h>(rt: &impl Abort, heap: &'h LocalHeap) -> MemStore<&'h LocalHeap> {
    let mut store = MemStore::new(heap, 1000).expect(rt, "memory");
    let root = VPath::root(heap);
    let directory = root.child(heap, "in").expect(rt, "a path");
    store.make_dir(&directory).expect(rt, "a directory");
    let file = root.child(heap, "f").expect(rt, "a path");
    let mut sink = store
        .open_write(&file, WriteMode::New, 0)
        .expect(rt, "a file");
    sink.write(b"a\nb").expect(rt, "memory");
    store.finish(sink, 951_827_696_000).expect(rt, "a file");
    store
}

pub(crate) fn make_server<'h>(rt: &(impl Abort + AllocGlobal), heap: &'h LocalHeap) -> Server<'h> {
    Server {
        users: make_users(rt, heap),
        store: make_store(rt, heap),
        floors: make_floors(rt),
    }
}
