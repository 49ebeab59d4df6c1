//! The examples in the heads of these crates. `tools/examples` checks that both have the same lines.

use crate::expect::{comes_out_in, fresh_folder, holds, no_error, passes, take_away};
use crate::pages::Two;
use folder_store::DirStore;
use last_fault::LastFault;
use linked_list_allocator::LocalHeap;
use memory_store::MemStore;
use page_store::PageStore;
use std::alloc::AllocError;
use std::env::Env;
use std::fs::File;
use std::io;
use std::process::Abort;
use std::rt::Files;
use std::test::Fail;
use test_fail_store::FailStore;
use test_scarce_memory::{HEAP, leave_hole};
use virtual_path::VPath;
use virtual_tree::{Sink, Source, Store, StoreFault, WriteMode};

fn memory_store(rt: &(impl Abort + AllocGlobal), path: &VPath) -> Result<(), StoreFault> {
    let mut store = MemStore::new(rt.alloc(), 1_000_000)?; // of at most 1,000,000 octets
    store.make_dir(path)?; // the path is `/in`
    holds(rt, store.make_dir(path) == Err(StoreFault::Exists));
    holds(rt, store.list(path)?.is_empty());
    holds(rt, store.capacity() == 1_000_000);
    Ok(())
}

fn virtual_tree(rt: &impl Abort, store: &mut MemStore, path: &VPath) -> Result<(), StoreFault> {
    // a store in memory, and the path `/f`
    let mut sink = store.open_write(path, WriteMode::New, 951_827_696_000)?;
    sink.write(b"all is well")?;
    store.finish(sink, 951_827_696_000)?; // milliseconds since 1970
    let mut source = store.open_read(path, 4)?; // from the fifth octet on
    let mut buffer = [0u8; 16];
    holds(rt, source.read(&mut buffer) == Ok(7));
    Ok(())
}

fn test_fail_store(rt: &(impl Abort + AllocGlobal), path: &VPath) -> Result<(), AllocError> {
    let mut store = FailStore::new(MemStore::new(rt.alloc(), 1000)?, 0);
    // the first call fails, and no other, whatever the path
    holds(rt, store.make_dir(path) == Err(StoreFault::Device));
    holds(rt, store.make_dir(path) == Ok(()));
    holds(rt, store.faults() == 1);
    Ok(())
}

fn test_scarce_memory(rt: impl Abort + AllocGlobal + Drop) -> Result<(), AllocError> {
    let heap = LocalHeap::new(rt.alloc(), HEAP)?;
    let rest = leave_hole(&rt, &heap, 48)?;
    let more = Vec::<u8, &LocalHeap>::with_capacity(&heap, 64); // than the hole
    holds(&rt, more.is_err());
    drop(rest);
    holds(&rt, Vec::<u8, &LocalHeap>::with_capacity(&heap, 64).is_ok());
    Ok(())
}

fn of_a_directory(rt: &(impl Abort + AllocGlobal)) {
    let root = VPath::root(rt.alloc());
    let path = root.child(rt.alloc(), "in").expect(rt, "a path");
    memory_store(rt, &path).expect(rt, "a store");
    test_fail_store(rt, &path).expect(rt, "a store");
}

fn page_store(rt: &impl Abort, mut store: PageStore<Two>, path: &VPath) -> Result<(), StoreFault> {
    // the files are `a.txt`, which is `one`, and `b.txt`; the path is `/a.txt`
    let mut source = store.open_read(path, 1)?; // from the second octet on
    let mut buffer = [0u8; 16];
    holds(rt, source.read(&mut buffer) == Ok(2));
    holds(rt, store.remove_file(path) == Err(StoreFault::Device)); // nothing can be changed
    Ok(())
}

fn of_pages(rt: &(impl Abort + AllocGlobal)) {
    let root = VPath::root(rt.alloc());
    let path = root.child(rt.alloc(), "a.txt").expect(rt, "a path");
    page_store(rt, PageStore::new(rt.alloc(), Two), &path).expect(rt, "a page");
}

fn of_a_file(rt: &(impl Abort + AllocGlobal)) {
    let root = VPath::root(rt.alloc());
    let path = root.child(rt.alloc(), "f").expect(rt, "a path");
    let mut store = MemStore::new(rt.alloc(), 1_000_000).expect(rt, "memory");
    virtual_tree(rt, &mut store, &path).expect(rt, "a file");
}

// The octets that are expected of a source before each read.
fn expectations(rt: &(impl Abort + AllocGlobal)) {
    let root = VPath::root(rt.alloc());
    let path = root.child(rt.alloc(), "g").expect(rt, "a path");
    let mut store = MemStore::new(rt.alloc(), 100).expect(rt, "memory");
    let mut sink = store
        .open_write(&path, WriteMode::New, 0)
        .expect(rt, "a file");
    sink.write(b"all").expect(rt, "room");
    store.finish(sink, 0).expect(rt, "room");
    let mut source = store.open_read(&path, 1).expect(rt, "a file");
    holds(rt, source.expected() == Some(2));
    let mut buffer = [0u8; 1];
    holds(rt, source.read(&mut buffer) == Ok(1));
    holds(rt, source.expected() == Some(1));
}

#[test]
fn examples(rt: HostRuntime) {
    expectations(&rt);
    of_a_directory(&rt);
    of_a_file(&rt);
    of_pages(&rt);
    test_scarce_memory(rt).expect(&rt, "memory");
}

fn folder_store<R>(rt: R, folder: &str, fault: LastFault) -> Result<(), Fail>
where
    R: Files<File = File> + AllocGlobal + Copy + Drop,
{
    let path = VPath::root(rt.alloc()).resolve(rt.alloc(), "/report")?;
    let mut store = DirStore::new(rt, folder, fault)?; // serves the folder and all beneath it
    let mut sink = store.open_write(&path, WriteMode::New, 951_827_696_000)?;
    sink.write(b"all is well")?;
    store.finish(sink, 951_827_696_000)?; // milliseconds since 1970
    Ok(())
}

fn last_fault(rt: &(impl Abort + AllocGlobal)) -> Result<(), AllocError> {
    let fault = LastFault::new(rt.alloc())?;
    let other = fault.another()?;
    other.put(io::Error::from_raw_os_error(28)); // ENOSPC
    let number = fault.take().and_then(|error| error.raw_os_error());
    holds(rt, number == Some(28));
    holds(rt, other.take().is_none()); // it was taken out
    Ok(())
}

/// The contents of the folder then.
const WRITTEN: &str = "read /report = all is well";

fn check_folder<R>(rt: &R)
where
    R: Abort + Env + Files<File = File> + AllocGlobal + Copy + Drop,
{
    let folder = fresh_folder(rt, "examples");
    passes(rt, folder_store(*rt, folder.as_str(), no_error(rt)));
    comes_out_in(rt, *rt, folder.as_str(), WRITTEN);
    take_away(rt, folder.as_str());
}

#[test]
fn examples_of_folders(rt: HostRuntime) {
    check_folder(&rt);
    holds(&rt, last_fault(&rt).is_ok());
}
