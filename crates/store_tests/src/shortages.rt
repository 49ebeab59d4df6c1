//! Each growth of each call of both stores refused in turn: the store is unchanged, and the call
//! passes once there is memory.

use crate::expect::{comes_out, fresh_folder, holds};
use folder_store::DirStore;
use last_fault::LastFault;
use linked_list_allocator::LocalHeap;
use memory_store::MemStore;
use std::env::Env;
use std::fs;
use std::process::Abort;
use std::rt::Files;
use test_scarce_memory::{HEAP, leave_hole};
use test_store_script::{Asked, ask, read_line};
use virtual_tree::{Store, StoreFault};

/// The contents of a store before each call.
const FILLED: &str = "make /d
make /e
new /d/f abc";

/// The contents after a refused one.
const AS_BEFORE: &str = "read /d/f = abc
names / = d e
names /d = f
faults = 0";

/// The calls, each of which allocates in both stores.
const CALLS: &str = "size /d/f
names /
read:1 /d/f
open-new /d/f
open-at:2 /d/f
open-append /d/f
open-new /n
make /n
remove-directory /e
remove-file /d/f
rename /d/f /n
rename /d /n";

/// Makes a call in a heap with only one hole of some octets.
fn fault_in_hole<'h, S: Store<&'h LocalHeap>>(
    rt: &(impl Abort + AllocGlobal),
    heap: &'h LocalHeap,
    store: &mut S,
    asked: &Asked<&'h LocalHeap>,
    room: usize,
) -> Option<StoreFault> {
    let rest = leave_hole(rt, heap, room).expect(rt, "memory for the hole");
    let fault = ask(rt.alloc(), store, asked).err();
    drop(rest);
    fault
}

/// Makes a call on a filled store in this way, and again if it was refused. Returns whether it was.
fn is_refused<'h, S: Store<&'h LocalHeap>>(
    rt: &(impl Abort + AllocGlobal),
    heap: &'h LocalHeap,
    store: &mut S,
    line: &str,
    room: usize,
) -> bool {
    comes_out(rt, heap, store, FILLED);
    let asked = read_line(rt.alloc(), heap, line).expect(rt, line);
    let fault = fault_in_hole(rt, heap, store, &asked, room);
    if fault.is_some() {
        holds(rt, fault == Some(StoreFault::Memory));
        comes_out(rt, heap, store, AS_BEFORE);
        holds(rt, ask(rt.alloc(), store, &asked).is_ok());
    }
    fault.is_some()
}

/// Returns whether a store in memory refuses a call in this way.
fn is_refused_in_memory(rt: &(impl Abort + AllocGlobal), line: &str, room: usize) -> bool {
    let heap = LocalHeap::new(rt.alloc(), HEAP).expect(rt, "memory");
    let mut store = MemStore::new(&heap, 99).expect(rt, "memory");
    is_refused(rt, &heap, &mut store, line, room)
}

/// Returns whether a store over a folder of the machine refuses a call in this way.
fn is_refused_in_a_folder(
    rt: &(impl Abort + Env + Files + AllocGlobal),
    machine: HostRuntime,
    line: &str,
    room: usize,
) -> bool {
    let folder = fresh_folder(rt, "refused");
    let heap = LocalHeap::new(rt.alloc(), HEAP).expect(rt, "memory");
    let fault = LastFault::new(rt.alloc()).expect(rt, "memory");
    let mut store = DirStore::new((machine, &heap), folder.as_str(), fault).expect(rt, "a folder");
    let refused = is_refused(rt, &heap, &mut store, line, room);
    fs::remove_dir_all(rt, folder.as_str()).expect(rt, "a folder");
    refused
}

/// Refuses each growth of a call in turn, until neither store needs another.
fn refuse_in_turn(rt: &(impl Abort + Env + Files + AllocGlobal), machine: HostRuntime, line: &str) {
    for step in 0..512usize {
        let in_memory = is_refused_in_memory(rt, line, 16 * step);
        let in_a_folder = is_refused_in_a_folder(rt, machine, line, 16 * step);
        // With no room at all, both refuse.
        holds(rt, 0 < step || in_memory && in_a_folder);
        if !in_memory && !in_a_folder {
            return;
        }
    }
    panic!(rt; "never enough memory")
}

#[test]
fn each_growth(rt: HostRuntime) {
    for line in CALLS.split('\n') {
        refuse_in_turn(&rt, rt, line);
    }
}

/// Returns whether a folder of the machine is opened as a store. If not, memory ran out.
fn opens(
    rt: &(impl Abort + AllocGlobal),
    machine: HostRuntime,
    heap: &LocalHeap,
    folder: &str,
) -> bool {
    let fault = LastFault::new(rt.alloc()).expect(rt, "memory");
    match DirStore::new((machine, heap), folder, fault) {
        Ok(_) => true,
        Err(fault) => {
            holds(rt, fault == StoreFault::Memory);
            false
        }
    }
}

#[test]
fn a_folder_opens_once_there_is_memory(rt: HostRuntime) {
    let folder = fresh_folder(&rt, "opened");
    let heap = LocalHeap::new(rt.alloc(), HEAP).expect(&rt, "memory");
    for step in 0..32usize {
        let rest = leave_hole(&rt, &heap, 16 * step).expect(&rt, "memory for the hole");
        let is_open = opens(&rt, rt, &heap, folder.as_str());
        drop(rest);
        holds(&rt, if is_open { 0 < step } else { step < 31 });
        holds(&rt, opens(&rt, rt, &heap, folder.as_str()));
    }
    fs::remove_dir_all(&rt, folder.as_str()).expect(&rt, "a folder");
}
