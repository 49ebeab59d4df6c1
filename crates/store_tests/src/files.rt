//! Files that change while they are read, long files, machines that write little at a time, and large directories.

use crate::expect::{comes_out_in, fresh_folder, holds, no_error, place_in, take_away};
use folder_store::{DirStore, write_new};
use std::alloc::Global;
use std::env::Env;
use std::fs::{File, OpenFile};
use std::io::Write;
use std::process::Abort;
use std::rt::Files;
use std::{fs, io};
use virtual_path::VPath;
use virtual_tree::{Sink, Source, Store, StoreFault};

/// Reads up to two more octets, and returns their number.
fn reads<S: Source>(source: &mut S) -> Result<usize, StoreFault> {
    let mut buffer = [0; 2];
    source.read(&mut buffer)
}

/// A file of six octets that is cut after two were read returns a fault each time, and no end. A read without room is
/// not an end either. Octets written after its former length are read too.
fn check_changed<S: Store<Global>>(
    rt: &(impl Abort + Files + AllocGlobal),
    store: &mut S,
    file: &VPath,
    place: &str,
) {
    let mut source = store.open_read(file, 0).expect(rt, place);
    holds(rt, reads(&mut source) == Ok(2));
    fs::write(rt, place, "ab").expect(rt, place);
    holds(rt, source.read(&mut []) == Ok(0));
    holds(rt, reads(&mut source) == Err(StoreFault::Device));
    holds(rt, reads(&mut source) == Err(StoreFault::Device));
    let mut grows = store.open_read(file, 1).expect(rt, place);
    fs::write(rt, place, "abcd").expect(rt, place);
    holds(rt, reads(&mut grows) == Ok(2));
    holds(rt, reads(&mut grows) == Ok(1));
    holds(rt, reads(&mut grows) == Ok(0));
}

/// A file of this length, and calls on it: after its first 2^32 octets, and calls after which it is shorter, without a
/// tail of what it had.
static LONG: [(u64, &str); 5] = [
    (
        4_294_967_296,
        "append /s abc\nread:4294967296 /s = abc\nread:4294967298 /s = c\nsize /s = 4294967299",
    ),
    (
        4_294_967_296,
        "new /s abc\nsize /s = 3\nread /s = abc\nread:4 /s = past the end",
    ),
    (
        4_294_967_296,
        "at:70000 /s abc\nsize /s = 70003\nread:70000 /s = abc",
    ),
    (70_000, "new /s abc\nsize /s = 3\nread /s = abc"),
    (
        70_000,
        "at:66000 /s abc\nsize /s = 66003\nread:66001 /s = bc",
    ),
];

fn check_long<R>(rt: &R, folder: &str)
where
    R: Abort + Files<File = File> + AllocGlobal + Copy + Drop,
{
    let place = place_in(rt, folder, "s");
    for (length, script) in &LONG {
        let file = fs::create(rt, place.as_str()).expect(rt, "a file");
        file.set_len(*length).expect(rt, "a long file");
        comes_out_in(rt, *rt, folder, script);
    }
}

/// Files of one directory, of which each is listed.
const MANY: u32 = 5000;

fn check_many<R>(rt: &R, folder: &str)
where
    R: Abort + Files<File = File> + AllocGlobal + Copy + Drop,
{
    for number in 0..MANY {
        let name = format!(in rt.alloc(); "{number}").expect(rt, "memory");
        fs::write(rt, place_in(rt, folder, name.as_str()).as_str(), "").expect(rt, "a file");
    }
    let mut store = DirStore::new(*rt, folder, no_error(rt)).expect(rt, folder);
    let listed = store.list(&VPath::root(rt.alloc())).expect(rt, folder);
    holds(rt, listed.len() == MANY as usize);
}

fn check_files<R>(rt: &R, folder: &str)
where
    R: Abort + Files<File = File> + AllocGlobal + Copy + Drop,
{
    comes_out_in(rt, *rt, folder, "new /c abcdef");
    let root = VPath::root(rt.alloc());
    let file = root.child(rt.alloc(), "c").expect(rt, "a path");
    let place = place_in(rt, folder, "c");
    let mut store = DirStore::new(*rt, folder, no_error(rt)).expect(rt, folder);
    check_changed(rt, &mut store, &file, place.as_str());
    check_long(rt, folder);
}

fn check<R>(rt: &R)
where
    R: Abort + Env + Files<File = File> + AllocGlobal + Copy + Drop,
{
    let folder = fresh_folder(rt, "files");
    check_files(rt, folder.as_str());
    take_away(rt, folder.as_str());
    let folder = fresh_folder(rt, "many");
    check_many(rt, folder.as_str());
    take_away(rt, folder.as_str());
}

/// A file of a machine that writes one octet per call.
#[derive(Drop)]
struct Slow<'a> {
    written: &'a mut Vec<u8>,
}

impl<'a> Write for Slow<'a> {
    fn write(&mut self, octets: &[u8]) -> io::Result<usize> {
        if octets.is_empty() {
            return Ok(0);
        }
        self.written.push(octets[0])?;
        Ok(1)
    }

    fn flush(&mut self) -> io::Result<()> {
        Ok(())
    }
}

/// Writes three octets, one per call. Returns whether they were taken.
fn is_written(rt: &(impl Abort + AllocGlobal), written: &mut Vec<u8>) -> bool {
    let mut sink = write_new(Slow { written }, no_error(rt));
    sink.write(b"abc").is_ok()
}

#[test]
fn files_and_directories(rt: HostRuntime) {
    check(&rt);
    let mut written = Vec::new(rt.alloc());
    holds(&rt, is_written(&rt, &mut written));
    holds(&rt, written.as_slice() == b"abc".as_slice());
}
