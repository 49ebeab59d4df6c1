//! The records of calls: each call of a store once, harmless ones, refused ones, and paths for whose copy there is no
//! memory.

use crate::expect::{comes_out, holds};
use linked_list_allocator::LocalHeap;
use memory_store::MemStore;
use recorded_store::{RecordedStore, StoreRecord};
use std::alloc::Allocator;
use std::process::Abort;
use test_fail_store::FailStore;
use test_scarce_memory::{HEAP, leave_hole};
use test_store_script::{ask, read_line};
use virtual_path::VPath;
use virtual_tree::{Store, StoreFault};

/// Calls in their order, each with the kind and the paths of its record; three empty texts if it leaves none.
const CALLS: [(&str, &str, &str, &str); 16] = [
    ("make /d", "made", "/d", ""),
    ("make /d", "", "", ""),
    ("size /d", "", "", ""),
    ("new /d/f abc", "opened to write", "/d/f", ""),
    ("open-append /d/f", "opened to write", "/d/f", ""),
    ("at:4 /d/f abc", "", "", ""),
    ("read:1 /d/f", "opened to read", "/d/f", ""),
    ("read:4 /d/f", "", "", ""),
    ("names /d", "", "", ""),
    ("remove-directory /d", "", "", ""),
    ("rename /d/f /g", "renamed", "/d/f", "/g"),
    ("rename /d/f /g", "", "", ""),
    ("remove-file /g", "removed file", "/g", ""),
    ("remove-file /g", "", "", ""),
    ("remove-directory /d", "removed directory", "/d", ""),
    ("faults", "", "", ""),
];

/// Calls that are refused after this many calls of the store beneath.
const REFUSED: [(&str, u64); 9] = [
    ("size /", 0),
    ("names /", 0),
    ("read /f", 0),
    ("open-new /f", 0),
    ("new /f abc", 1),
    ("make /d", 0),
    ("remove-directory /d", 0),
    ("remove-file /f", 0),
    ("rename /f /g", 0),
];

/// The text of a path; `?` if there is no copy of it.
fn text_of<A: Allocator>(path: &Option<VPath<A>>) -> &str {
    match path {
        None => "?",
        Some(path) => path.text(),
    }
}

/// The text of a fault that is recorded.
fn refused(fault: StoreFault) -> &'static str {
    match fault {
        StoreFault::Device => "refused for the device",
        StoreFault::Memory => "refused for memory",
        StoreFault::Full => "refused as full",
        _ => "refused for no fault of the machine",
    }
}

/// The kind of a record, and the texts of its paths.
fn parts<A: Allocator>(record: &Option<StoreRecord<A>>) -> (&str, &str, &str) {
    match record {
        None => ("", "", ""),
        Some(StoreRecord::OpenedToRead(path)) => ("opened to read", text_of(path), ""),
        Some(StoreRecord::OpenedToWrite(path)) => ("opened to write", text_of(path), ""),
        Some(StoreRecord::MadeDir(path)) => ("made", text_of(path), ""),
        Some(StoreRecord::RemovedDir(path)) => ("removed directory", text_of(path), ""),
        Some(StoreRecord::RemovedFile(path)) => ("removed file", text_of(path), ""),
        Some(StoreRecord::Renamed(from, to)) => ("renamed", text_of(from), text_of(to)),
        Some(StoreRecord::Refused(fault)) => (refused(*fault), "", ""),
    }
}

/// Makes a call, whatever its result, and compares the record that is taken afterwards.
fn leaves<A: Allocator + Copy, S: Store<A>>(
    rt: &(impl Abort + AllocGlobal),
    alloc: A,
    store: &mut RecordedStore<S, A>,
    line: &str,
    expected: (&str, &str, &str),
) {
    let asked = read_line(rt.alloc(), alloc, line).expect(rt, line);
    drop(ask(rt.alloc(), store, &asked));
    let record = store.take_record();
    holds(rt, parts(&record) == expected);
}

fn in_memory(rt: &(impl Abort + AllocGlobal), capacity: u64) -> MemStore {
    MemStore::new(rt.alloc(), capacity).expect(rt, "memory")
}

#[test]
fn of_each_call(rt: HostRuntime) {
    let mut store = RecordedStore::new(rt.alloc(), in_memory(&rt, 99));
    for (line, kind, first, second) in CALLS {
        leaves(&rt, rt.alloc(), &mut store, line, (kind, first, second));
    }
}

/// Harmless calls and refusals leave the record, and each record is taken once.
#[test]
fn stay_until_they_are_taken(rt: HostRuntime) {
    let mut store = RecordedStore::new(rt.alloc(), in_memory(&rt, 99));
    comes_out(
        &rt,
        rt.alloc(),
        &mut store,
        "make /d\nsize /d = 0\nmake /d = already exists",
    );
    leaves(&rt, rt.alloc(), &mut store, "names /d", ("made", "/d", ""));
    leaves(&rt, rt.alloc(), &mut store, "names /d", ("", "", ""));
}

#[test]
fn of_refusals(rt: HostRuntime) {
    for (line, passes) in REFUSED {
        let beneath = FailStore::new(in_memory(&rt, 99), passes);
        let mut store = RecordedStore::new(rt.alloc(), beneath);
        let expected = ("refused for the device", "", "");
        leaves(&rt, rt.alloc(), &mut store, line, expected);
        holds(&rt, store.faults() == 1);
    }
    let mut store = RecordedStore::new(rt.alloc(), in_memory(&rt, 3));
    let expected = ("refused as full", "", "");
    leaves(&rt, rt.alloc(), &mut store, "new /f abcd", expected);
}

/// Makes two directories, the first with no room in the heap of the records or in that of the store.
fn without_room(rt: &(impl Abort + AllocGlobal), in_store: bool, expected: (&str, &str, &str)) {
    let scarce = LocalHeap::new(rt.alloc(), HEAP).expect(rt, "memory");
    let plenty = LocalHeap::new(rt.alloc(), HEAP).expect(rt, "memory");
    let (records, files) = if in_store {
        (&plenty, &scarce)
    } else {
        (&scarce, &plenty)
    };
    let beneath = MemStore::new(files, 99).expect(rt, "memory");
    let mut store = RecordedStore::new(records, beneath);
    let rest = leave_hole(rt, &scarce, 0).expect(rt, "memory for the hole");
    leaves(rt, &plenty, &mut store, "make /d", expected);
    drop(rest);
    leaves(rt, &plenty, &mut store, "make /e", ("made", "/e", ""));
}

#[test]
fn need_no_memory(rt: HostRuntime) {
    without_room(&rt, false, ("made", "?", ""));
    without_room(&rt, true, ("refused for memory", "", ""));
}
