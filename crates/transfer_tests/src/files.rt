//! Files of a store, over a data connection and back.

use super::expect::holds;
use data_pump::PumpEnd;
use ftp_terms::DataType;
use memory_store::MemStore;
use std::process::Abort;
use test_transfer_ends::{Inlet, Outlet, Scheduled, receive, reported, send};
use virtual_path::VPath;
use virtual_tree::{Sink, Source, Store, WriteMode};

fn path(rt: &(impl Abort + AllocGlobal), text: &str) -> VPath {
    VPath::root(rt.alloc())
        .resolve(rt.alloc(), text)
        .expect(rt, "a path")
}

// Writes a file of the store.
fn put(rt: &impl Abort, store: &mut MemStore, path: &VPath, octets: &[u8]) {
    let mut sink = store
        .open_write(path, WriteMode::New, 0)
        .expect(rt, "a sink");
    holds(rt, sink.write(octets).is_ok());
    holds(rt, store.finish(sink, 0).is_ok());
}

// Sends a file of the store from an offset on: these octets are on the wire.
fn expect_sent(
    rt: &(impl Abort + AllocGlobal),
    store: &mut MemStore,
    path: &VPath,
    offset: u64,
    wire: &[u8],
) {
    let source = store.open_read(path, offset).expect(rt, "a source");
    let mut taken = Vec::new(rt.alloc());
    let outlet = Outlet {
        taken: &mut taken,
        schedule: &[Scheduled::Move(3); 100],
    };
    let sent = send(rt.alloc(), source, outlet, DataType::Ascii, &[4, 90]);
    holds(rt, sent.expect(rt, "a download").is_sound);
    holds(rt, taken.as_slice() == wire);
}

// Receives octets after those of a file of the store, with pumps that move these numbers.
fn receive_more(
    rt: &(impl Abort + AllocGlobal),
    store: &mut MemStore,
    path: &VPath,
    wire: &[u8],
    moved: &[u64],
) {
    let sink = store
        .open_write(path, WriteMode::Append, 0)
        .expect(rt, "a sink");
    let inlet = Inlet {
        rest: wire,
        schedule: &[Scheduled::Move(3); 100],
    };
    let received = receive(rt.alloc(), inlet, sink, DataType::Ascii, &[4, 4, 4, 4]);
    let (came, sink) = received.expect(rt, "an upload");
    holds(
        rt,
        came.is_sound && reported(&came.pumps, moved, PumpEnd::Ended),
    );
    holds(rt, store.finish(sink, 0).is_ok());
}

fn expect_file(rt: &impl Abort, store: &mut MemStore, path: &VPath, wanted: &[u8]) {
    let mut source = store.open_read(path, 0).expect(rt, "a source");
    let mut buffer = [0; 16];
    let count = source.read(&mut buffer).expect(rt, "octets");
    holds(rt, &buffer[..count] == wanted);
}

fn expect_copy(rt: &(impl Abort + AllocGlobal), store: &mut MemStore) {
    let (first, second) = (path(rt, "/f"), path(rt, "/g"));
    put(rt, store, &first, b"a\nb\n\rc");
    put(rt, store, &second, b"x");
    let wire = b"a\r\nb\r\n\rc".as_slice();
    expect_sent(rt, store, &first, 0, wire);
    receive_more(rt, store, &second, wire, &[3, 3, 2, 0]);
    expect_file(rt, store, &second, b"xa\nb\n\rc");
}

fn expect_rest(rt: &(impl Abort + AllocGlobal), store: &mut MemStore) {
    let file = path(rt, "/h");
    put(rt, store, &file, b"abc\nd");
    expect_sent(rt, store, &file, 2, b"c\r\nd");
}

// A file longer than what may wait at once is sent completely.
fn expect_large(rt: &(impl Abort + AllocGlobal), store: &mut MemStore) {
    let alloc = rt.alloc();
    let octets = vec![in alloc; b'x'; 70_000].expect(rt, "memory");
    let file = path(rt, "/l");
    put(rt, store, &file, &octets);
    let source = store.open_read(&file, 0).expect(rt, "a source");
    let mut taken = Vec::new(rt.alloc());
    let outlet = Outlet {
        taken: &mut taken,
        schedule: &[],
    };
    let sent = send(rt.alloc(), source, outlet, DataType::Image, &[65_536; 2]);
    let sent = sent.expect(rt, "a download");
    holds(rt, reported(&sent.pumps, &[65_536, 4_464], PumpEnd::Ended));
    holds(rt, taken.as_slice() == octets.as_slice());
}

#[test]
fn files_go_out_and_come_back(rt: HostRuntime) {
    let mut store = MemStore::new(rt.alloc(), 100_000).expect(&rt, "memory");
    expect_copy(&rt, &mut store);
    expect_rest(&rt, &mut store);
    expect_large(&rt, &mut store);
}
