//! Expectations of the tests. A call costs the prover less than an `assert!` in its place, and an expected value costs
//! less than a `?`, which drops everything alive there.

use folder_store::{DirStore, FolderMachine};
use last_fault::LastFault;
use std::alloc::Allocator;
use std::env::Env;
use std::fs;
use std::process::Abort;
use std::rt::Files;
use std::test::Fail;
use test_store_script::{first_unmet, fresh, inside};
use virtual_tree::Store;

/// Stops the test if this is false.
pub(crate) fn holds(rt: &impl Abort, fact: bool) {
    assert!(rt; fact);
}

/// A fresh empty folder of the machine.
pub(crate) fn fresh_folder(rt: &(impl Abort + Env + Files + AllocGlobal), name: &str) -> String {
    match fresh(rt, name) {
        Ok(folder) => folder,
        Err(_) => panic!(rt; "no fresh folder"),
    }
}

/// Carries out a script. Stops the test at a line with a wrong result.
pub(crate) fn comes_out<A: Allocator + Copy, S: Store<A>>(
    rt: &(impl Abort + AllocGlobal),
    alloc: A,
    store: &mut S,
    script: &str,
) {
    let unmet = first_unmet(rt.alloc(), alloc, store, script).expect(rt, script);
    if let Some(line) = unmet {
        panic!(rt; "{line}")
    }
}

/// Stops the test if a call has failed.
pub(crate) fn passes(rt: &impl Abort, outcome: Result<(), Fail>) {
    match outcome {
        Ok(()) => {}
        Err(_) => panic!(rt; "a call has failed"),
    }
}

/// The machine's path of an entry in a folder.
pub(crate) fn place_in(rt: &(impl Abort + AllocGlobal), folder: &str, name: &str) -> String {
    match inside(rt, folder, name) {
        Ok(place) => place,
        Err(_) => panic!(rt; "no memory"),
    }
}

/// Removes a folder with everything in it.
pub(crate) fn take_away(rt: &(impl Abort + Files + AllocGlobal), folder: &str) {
    fs::remove_dir_all(rt, folder).expect(rt, folder);
}

/// No error of the machine yet.
pub(crate) fn no_error(rt: &(impl Abort + AllocGlobal)) -> LastFault {
    LastFault::new(rt.alloc()).expect(rt, "memory")
}

/// Takes the last error of the machine out, and returns its number; `None` if there is none.
pub(crate) fn last_number(fault: &LastFault) -> Option<i32> {
    match fault.take() {
        Some(error) => error.raw_os_error(),
        None => None,
    }
}

/// The same in a folder of a machine.
pub(crate) fn comes_out_in<M>(
    rt: &(impl Abort + AllocGlobal),
    machine: M,
    folder: &str,
    script: &str,
)
where
    M: FolderMachine + AllocGlobal + Drop,
{
    let mut store = DirStore::new(machine, folder, no_error(rt)).expect(rt, folder);
    comes_out(rt, rt.alloc(), &mut store, script);
}
