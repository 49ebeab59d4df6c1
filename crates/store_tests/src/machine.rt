//! Properties of a folder of the machine: times, permissions, and files that are open twice.

use crate::expect::{comes_out_in, fresh_folder, holds, no_error, place_in, take_away};
use folder_store::{DirStore, EntryName, FolderMachine, Looked};
use std::alloc::Global;
use std::fs::{File, Permissions};
use std::os::unix::fs::PermissionsExt;
use std::process::Abort;
use std::rt::Files;
use std::time::{Duration, UNIX_EPOCH};
use std::{fs, io};
use virtual_path::{VPath, is_name};
use virtual_tree::{Sink, Store, WriteMode};

/// Makes a file with this modification time; 0 seconds if the time is out of range.
fn make_modified(rt: &HostRuntime, place: &str, second: u64) -> io::Result<()> {
    let time = UNIX_EPOCH.checked_add(Duration::from_secs(second));
    let file = fs::create(rt, place)?;
    file.set_modified(time.unwrap_or(UNIX_EPOCH))
}

/// Calls on a directory that may not be entered.
const LOCKED: &str = "names /d = device fault
faults = 1
size /d/f = device fault
faults = 2";

/// A directory that may not be entered. A user with all permissions is refused nothing.
fn check_permissions<R>(rt: &R, folder: &str)
where
    R: Abort + Files<File = File> + AllocGlobal + Copy + Drop,
{
    comes_out_in(rt, *rt, folder, "make /d\nnew /d/f abc");
    let place = place_in(rt, folder, "d");
    fs::set_permissions(rt, place.as_str(), Permissions::from_mode(0)).expect(rt, "a lock");
    if fs::read_dir(rt, place.as_str()).is_err() {
        comes_out_in(rt, *rt, folder, LOCKED);
    }
    fs::set_permissions(rt, place.as_str(), Permissions::from_mode(0o755)).expect(rt, "no lock");
}

/// One file that two sinks append to, in turn.
fn append_twice<S: Store<Global>>(rt: &impl Abort, store: &mut S, file: &VPath) {
    let mode = WriteMode::Append;
    let mut first = store.open_write(file, mode, 5_000).expect(rt, "a sink");
    let mut second = store.open_write(file, mode, 5_000).expect(rt, "a sink");
    first.write(b"abc").expect(rt, "a write");
    second.write(b"de").expect(rt, "a write");
    first.write(b"f").expect(rt, "a write");
    store.finish(first, 6_000).expect(rt, "an end");
    store.finish(second, 6_000).expect(rt, "an end");
}

fn check_two_appends<R>(rt: &R, folder: &str)
where
    R: Abort + Files<File = File> + AllocGlobal + Copy + Drop,
{
    let root = VPath::root(rt.alloc());
    let file = root.child(rt.alloc(), "g").expect(rt, "a path");
    let mut store = DirStore::new(*rt, folder, no_error(rt)).expect(rt, "a folder");
    append_twice(rt, &mut store, &file);
    comes_out_in(rt, *rt, folder, "read /g = abcdef");
}

/// Returns whether two answers are alike.
fn is_alike(one: &Looked, other: &Looked) -> bool {
    one.kind == other.kind
        && one.length == other.length
        && one.modified == other.modified
        && one.device == other.device
        && one.number == other.number
}

/// An entry is examined alike by its path and by its name in its open directory.
fn check_examined<R>(rt: &R, folder: &str, entry: &str)
where
    R: Abort + Files<File = File> + AllocGlobal + Copy + Drop,
{
    let mut machine = *rt;
    let place = place_in(rt, folder, entry);
    let by_path = machine.look(place.as_str()).expect(rt, "an entry");
    let directory = machine.enter(folder).expect(rt, "a directory");
    let mut name = EntryName::new();
    if is_name(entry) {
        name.set(entry);
    }
    let by_name = machine.look_in(&directory, &name).expect(rt, "an entry");
    holds(rt, is_alike(&by_path, &by_name));
}

/// The calls on one folder, in which a file `f` was modified at a moment.
fn check_folder<R>(rt: &R, folder: &str)
where
    R: Abort + Files<File = File> + AllocGlobal + Copy + Drop,
{
    comes_out_in(rt, *rt, folder, "modified /f = 951827696");
    check_permissions(rt, folder);
    check_two_appends(rt, folder);
    for entry in ["d", "f", "g"] {
        check_examined(rt, folder, entry);
    }
    take_away(rt, folder);
}

#[test]
fn of_one_folder(rt: HostRuntime) {
    let folder = fresh_folder(&rt, "machine");
    let modified = place_in(&rt, folder.as_str(), "f");
    make_modified(&rt, modified.as_str(), 951_827_696).expect(&rt, "a file");
    check_folder(&rt, folder.as_str());
}
