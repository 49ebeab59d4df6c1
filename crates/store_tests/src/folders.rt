//! Sequences of calls on folders of the machine.

use crate::expect::{comes_out_in, fresh_folder, holds, no_error, place_in, take_away};
use crate::racing_machine::{Act, acting};
use folder_store::{DirStore, FolderMachine};
use std::env::Env;
use std::fs;
use std::fs::File;
use std::process::Abort;
use std::rt::Files;
use test_store_script::{DIRECTORIES, FILES, RENAMES};
use virtual_tree::StoreFault;

/// If the machine has no `/proc`, names are followed one by one.
const BY_NAMES: &str = "make /d
make /d/e
new /d/e/f abc
append /d/e/f d
read:1 /d/e/f = bcd
rename /d/e/f /d/b
size /d/b = 4
names /d = b
names /d/b = not a directory
names /d/b/x = not found
remove-file /d/b
remove-directory /d/e
size /d/e = not found
new /d/x/y z = not found
faults = 0";

/// Likewise if the machine opens no directory; it then lists none.
const UNOPENED: &str = "make /d
make /d/e
new /d/e/f abc
append /d/e/f d
read:1 /d/e/f = bcd
rename /d/e/f /d/b
size /d/b = 4
names /d = device fault
names /d/b = not a directory
names /d/b/x = not found
remove-file /d/b
remove-directory /d/e
size /d/e = not found
new /d/x/y z = not found
faults = 1";

/// If the machine refuses each rename, no second name is left.
const KEPT_NAMES: &str = "new /f abc
make /d
rename /f /n = device fault
size /n = not found
rename /d /n = device fault
size /n = not found
faults = 2
read /f = abc";

/// An entry that appears at the new name of a rename after the check is kept.
const LATE_COMERS: &str = "new /f abc
rename /f /n = already exists
size /n = 0
read /f = abc
faults = 0";

/// A directory is not moved onto a file that appears at its new name.
const LATE_FILE: &str = "make /d
new /d/f abc
rename /d /n = already exists
size /d/f = 3
remove-file /n
faults = 0";

/// A directory is not moved onto an empty directory that appears at its new name, which a rename of the machine would
/// replace; nor is a file.
const LATE_EMPTY: &str = "make /d
new /d/f abc
rename /d /n = already exists
size /d/f = 3
size /n/f = not found
remove-directory /n
rename /d/f /n = already exists
read /d/f = abc
remove-directory /n
faults = 0";

/// Carries out a script in a fresh folder of a machine.
fn comes_out_afresh<M>(rt: &(impl Abort + Env + Files + AllocGlobal), machine: M, script: &str)
where
    M: FolderMachine + AllocGlobal + Drop,
{
    let folder = fresh_folder(rt, "scripts");
    comes_out_in(rt, machine, folder.as_str(), script);
    take_away(rt, folder.as_str());
}

static SCRIPTS: [&str; 3] = [FILES, DIRECTORIES, RENAMES];

static ACTS: [(Act, &str); 6] = [
    (Act::KeepDirectories, UNOPENED),
    (Act::HideProc, BY_NAMES),
    (Act::KeepNames, KEPT_NAMES),
    (Act::ComeLate, LATE_COMERS),
    (Act::ComeLate, LATE_FILE),
    (Act::ComeLateEmpty, LATE_EMPTY),
];

fn check_fresh_folders<R>(rt: &R)
where
    R: Abort + Env + Files<File = File> + AllocGlobal + Copy + Drop,
{
    for script in &SCRIPTS {
        comes_out_afresh(rt, *rt, script);
    }
    for (act, script) in &ACTS {
        comes_out_afresh(rt, acting(*rt, *act), script);
    }
}

/// Two of these names cannot be named by a path. Those that begin with a dot are listed as any other.
static NAMES: [&str; 9] = [
    "b", "a", "t\tb", "x\u{7f}", ".b", "...", "-c", "a~", "\u{e9}",
];

/// The others, by their octets: `-` is 45, a dot 46, `~` 126, and the first octet of the last one 195.
const LISTED: &str = "names / = -c ... .b a a~ b \u{e9}
faults = 0";

/// Their metadata; a fault of one is a fault of the listing.
static TOLD: [(Act, &str); 2] = [
    (Act::Nothing, "names / = a b\nfaults = 0"),
    (Act::HideFirst, "names / = device fault\nfaults = 1"),
];

/// Makes a file in a folder.
fn make_file(rt: &(impl Abort + Files + AllocGlobal), folder: &str, name: &str) {
    fs::write(rt, place_in(rt, folder, name).as_str(), "abc").expect(rt, name);
}

fn check_names<R>(rt: &R)
where
    R: Abort + Env + Files<File = File> + AllocGlobal + Copy + Drop,
{
    let folder = fresh_folder(rt, "names");
    for name in &NAMES {
        make_file(rt, folder.as_str(), name);
    }
    comes_out_in(rt, *rt, folder.as_str(), LISTED);
    for (act, script) in &TOLD {
        comes_out_in(rt, acting(*rt, *act), folder.as_str(), script);
    }
    take_away(rt, folder.as_str());
}

/// An entry of a folder cannot be opened as a store.
fn check_refused<R>(rt: &R, folder: &str, name: &str, fault: StoreFault)
where
    R: Abort + Files<File = File> + AllocGlobal + Copy + Drop,
{
    let place = place_in(rt, folder, name);
    let opened = DirStore::new(*rt, place.as_str(), no_error(rt));
    holds(rt, opened.err() == Some(fault));
}

fn check_no_folder<R>(rt: &R)
where
    R: Abort + Env + Files<File = File> + AllocGlobal + Copy + Drop,
{
    let folder = fresh_folder(rt, "none");
    comes_out_in(rt, *rt, folder.as_str(), "new /f abc");
    check_refused(rt, folder.as_str(), "f", StoreFault::NotDir);
    check_refused(rt, folder.as_str(), "n", StoreFault::NotFound);
    take_away(rt, folder.as_str());
}

#[test]
fn scripts_and_names(rt: HostRuntime) {
    check_fresh_folders(&rt);
    check_names(&rt);
    check_no_folder(&rt);
}
