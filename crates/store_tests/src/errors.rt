//! The machine's error of a fault of the device.

use crate::expect::{
    comes_out, comes_out_in, fresh_folder, holds, last_number, no_error, place_in, take_away,
};
use crate::racing_machine::{Act, DENIED, STALE, acting};
use folder_store::{DirStore, FolderMachine, LeaveSign, write_new};
use last_fault::LastFault;
use std::alloc::Global;
use std::env::Env;
use std::fs::File;
use std::io::Write;
use std::process::Abort;
use std::rt::Files;
use std::{fs, io};
use virtual_path::VPath;
use virtual_tree::{Sink, Source, Store, StoreFault};

/// The machine's numbers (errno(3)): an error of a device, a file that is not open for this, a full disk, and links that
/// lead to each other.
const IO: i32 = 5;

const NOT_OPEN: i32 = 9;

const NO_SPACE: i32 = 28;

const LOOP: i32 = 40;

/// A refusal of the machine, a call on a folder with the file `/f`, its result, and the number of the last error. A fault
/// that is none of the device leaves none.
static REFUSED: [(Act, &str, Option<i32>); 12] = [
    (
        Act::LockFiles,
        "read /f = device fault\nfaults = 1",
        Some(DENIED),
    ),
    (
        Act::LockFiles,
        "new /f x = device fault\nfaults = 1",
        Some(DENIED),
    ),
    (
        Act::LockFiles,
        "new /n x = device fault\nfaults = 1",
        Some(DENIED),
    ),
    (
        Act::OnlyWrite,
        "read /f = device fault\nfaults = 0",
        Some(NOT_OPEN),
    ),
    (
        Act::OnlyRead,
        "append /f x = device fault\nfaults = 0",
        Some(NOT_OPEN),
    ),
    (
        Act::KeepNames,
        "rename /f /n = device fault\nfaults = 1",
        Some(DENIED),
    ),
    (
        Act::KeepOctets,
        "append /n x = device fault\nfaults = 1",
        Some(STALE),
    ),
    (
        Act::KeepFromDevice,
        "append /n x = device fault\nfaults = 1",
        Some(STALE),
    ),
    (
        Act::HideFirst,
        "names / = device fault\nfaults = 1",
        Some(STALE),
    ),
    (
        Act::HideFirst,
        "size /a = device fault\nfaults = 1",
        Some(STALE),
    ),
    (Act::Nothing, "read /x = not found\nfaults = 0", None),
    (Act::Nothing, "read /f = abc\nfaults = 0", None),
];

/// The number of the machine's last error after a script.
fn number_after<M>(
    rt: &(impl Abort + AllocGlobal),
    machine: M,
    folder: &str,
    script: &str,
) -> Option<i32>
where
    M: FolderMachine + AllocGlobal + Drop,
{
    let fault = no_error(rt);
    let other = fault.another().expect(rt, "memory");
    let mut store = DirStore::new(machine, folder, other)
        .expect(rt, folder)
        .syncing(true);
    comes_out(rt, rt.alloc(), &mut store, script);
    last_number(&fault)
}

fn check_refused<R>(rt: &R, folder: &str)
where
    R: Abort + Files<File = File> + AllocGlobal + Copy + Drop,
{
    comes_out_in(rt, *rt, folder, "new /f abc");
    for (act, script, number) in &REFUSED {
        holds(
            rt,
            number_after(rt, acting(*rt, *act), folder, script) == *number,
        );
    }
}

/// The machine has no error of a file that was cut while it is read, and an earlier one is not the reason for that.
fn check_cut<S: Store<Global>>(
    rt: &(impl Abort + Files + AllocGlobal),
    store: &mut S,
    fault: &LastFault,
    file: &VPath,
    place: &str,
) {
    let mut source = store.open_read(file, 0).expect(rt, place);
    fs::write(rt, place, "").expect(rt, place);
    fault.put(io::Error::from_raw_os_error(IO));
    holds(rt, source.read(&mut [0; 2]) == Err(StoreFault::Device));
    holds(rt, fault.take().is_none());
}

fn check_cut_in<R>(rt: &R, folder: &str)
where
    R: Abort + Files<File = File> + AllocGlobal + Copy + Drop,
{
    let root = VPath::root(rt.alloc());
    let file = root.child(rt.alloc(), "f").expect(rt, "a path");
    let fault = no_error(rt);
    let other = fault.another().expect(rt, "memory");
    let mut store = DirStore::new(*rt, folder, other).expect(rt, folder);
    check_cut(
        rt,
        &mut store,
        &fault,
        &file,
        place_in(rt, folder, "f").as_str(),
    );
}

/// A listing is left once the sign for that is given, and no other call is.
fn check_left<R>(rt: &R, folder: &str)
where
    R: Abort + Files<File = File> + AllocGlobal + Copy + Drop,
{
    let root = VPath::root(rt.alloc());
    let leaves = LeaveSign::new(rt.alloc()).expect(rt, "memory");
    let sign = leaves.another().expect(rt, "memory");
    let mut store = DirStore::new(*rt, folder, no_error(rt))
        .expect(rt, folder)
        .left_by(sign);
    holds(rt, store.list(&root).is_ok() && !leaves.is_given());
    leaves.give();
    holds(rt, store.list(&root).err() == Some(StoreFault::Device));
    holds(rt, store.stat(&root).is_ok());
}

/// A folder whose metadata the machine refuses: links that lead to each other.
fn check_no_folder<R>(rt: &R, folder: &str)
where
    R: Abort + Files<File = File> + AllocGlobal + Copy + Drop,
{
    let place = place_in(rt, folder, "l");
    rt.symlink("l", place.as_str()).expect(rt, "a link");
    let fault = no_error(rt);
    let other = fault.another().expect(rt, "memory");
    let opened = DirStore::new(*rt, place.as_str(), other);
    holds(rt, opened.err() == Some(StoreFault::Device));
    holds(rt, last_number(&fault) == Some(LOOP));
}

fn check<R>(rt: &R)
where
    R: Abort + Env + Files<File = File> + AllocGlobal + Copy + Drop,
{
    let folder = fresh_folder(rt, "errors");
    check_refused(rt, folder.as_str());
    check_cut_in(rt, folder.as_str());
    check_left(rt, folder.as_str());
    check_no_folder(rt, folder.as_str());
    take_away(rt, folder.as_str());
}

/// A file on a full disk.
#[derive(Drop)]
struct Full;

impl Write for Full {
    fn write(&mut self, _octets: &[u8]) -> io::Result<usize> {
        Err(io::Error::from_raw_os_error(NO_SPACE))
    }

    fn flush(&mut self) -> io::Result<()> {
        Err(io::Error::from_raw_os_error(IO))
    }
}

#[test]
fn of_faults_of_the_device(rt: HostRuntime) {
    check(&rt);
    let fault = no_error(&rt);
    let mut sink = write_new(Full, fault.another().expect(&rt, "memory"));
    holds(&rt, sink.write(b"abc") == Err(StoreFault::Device));
    holds(&rt, last_number(&fault) == Some(NO_SPACE));
}

/// An error without a number of the machine is kept as one without a number, in place of the one before.
#[test]
fn without_a_number(rt: HostRuntime) {
    let fault = no_error(&rt);
    fault.put(io::Error::from_raw_os_error(IO));
    fault.put(io::Error::from(io::ErrorKind::WriteZero));
    let kept = fault.take();
    holds(
        &rt,
        kept.is_some_and(|error| error.raw_os_error().is_none()),
    );
}
