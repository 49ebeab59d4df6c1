//! Results of a store if links lead out of its folder, also if another process puts them there between its calls.
//! Entries outside are unchanged.

use crate::expect::{comes_out_in, fresh_folder, holds, place_in, take_away};
use crate::racing_machine::{Act, Racing, acting};
use std::env::Env;
use std::fs;
use std::fs::File;
use std::process::Abort;
use std::rt::Files;

/// Calls on a folder with a link to the folder above, `out`, one to the file `kept` there, `k`, and one to the name `made`
/// there, `m`, which no entry has.
const LINKS: &str = "read /out = not found
remove-file /out = not found
remove-directory /out = not found
read /k = not found
remove-file /k = not found
size /k = not found
rename /k /n = not found
read /out/kept = not found
remove-file /out/kept = not found
new /k x = already exists
append /k x = already exists
at:0 /k x = not found
make /k = already exists
new /m x = already exists
append /m x = already exists
make /m = already exists
new /out/x x = not found
append /out/x x = not found
make /out/x = not found
make /e
rename /e /k = already exists
rename /e /m = already exists
rename /e /out/x = not found
names / = e
faults = 0";

fn ask_of_links<R>(rt: &R, folder: &str)
where
    R: Abort + Files<File = File> + AllocGlobal + Copy + Drop,
{
    for (name, target) in [("out", ".."), ("k", "../kept"), ("m", "../made")] {
        let place = place_in(rt, folder, name);
        rt.symlink(target, place.as_str()).expect(rt, "a link");
    }
    comes_out_in(rt, *rt, folder, LINKS);
}

/// The calls that open the file `f`.
const OPENINGS: &str = "read /f = not found
new /f x = not found
at:1 /f x = not found
append /f x = not found";

/// The outcome for the file `f` if another process removes it, or replaces it by a link, just before each call of
/// `OPENINGS` opens it.
fn open_late<R>(rt: &R, folder: &str, act: Act)
where
    R: Abort + Files<File = File> + AllocGlobal + Copy + Drop,
{
    let place = place_in(rt, folder, "f");
    for call in OPENINGS.split('\n') {
        fs::write(rt, place.as_str(), "abc").expect(rt, "a file");
        comes_out_in(rt, acting(*rt, act), folder, call);
        let _gone = fs::remove_file(rt, place.as_str());
    }
}

/// A file of a folder has this text.
fn holds_text(
    rt: &(impl Abort + Files + AllocGlobal),
    folder: &str,
    name: &str,
    text: &str,
) -> bool {
    let place = place_in(rt, folder, name);
    let read = fs::read_to_string(rt, place.as_str()).expect(rt, name);
    read.as_str() == text
}

fn check_links<R>(rt: &R)
where
    R: Abort + Env + Files<File = File> + AllocGlobal + Copy + Drop,
{
    let above = fresh_folder(rt, "links");
    comes_out_in(rt, *rt, above.as_str(), "new /kept kept\nmake /served");
    let folder = place_in(rt, above.as_str(), "served");
    ask_of_links(rt, folder.as_str());
    open_late(rt, folder.as_str(), Act::Remove);
    open_late(rt, folder.as_str(), Act::Link);
    holds(rt, holds_text(rt, above.as_str(), "kept", "kept"));
    holds(rt, !stands_in(rt, above.as_str(), "made"));
    take_away(rt, above.as_str());
}

/// Calls below a directory that is swapped for a link to another one while each of them runs. They continue in the
/// directory that they entered.
const BELOW_SWAPPED: &str = "read /d/a = inside
size /d/a = 6
names /d = a b
new /d/n x
new /d/a x
append /d/n x
append /d/a x
make /d/n
rename /d/a /n
remove-file /d/a
remove-directory /d/b";

/// The same calls if it is swapped before they enter it.
const INTO_SWAPPED: &str = "read /d/a = not found
size /d/a = not found
names /d = not found
new /d/n x = not found
append /d/a x = not found
make /d/n = not found
rename /d/a /n = not found
remove-file /d/a = not found
remove-directory /d/b = not found";

/// The directory that is swapped, in the folder `served`, and the one that the link leads to.
const LAID_OUT: &str = "make /served
make /served/d
make /served/d/b
new /served/d/a inside
make /elsewhere
make /elsewhere/b
new /elsewhere/a elsewhere";

/// Returns whether there is an entry in a folder.
fn stands_in(rt: &(impl Abort + Files + AllocGlobal), folder: &str, name: &str) -> bool {
    let place = place_in(rt, folder, name);
    fs::symlink_metadata(rt, place.as_str()).is_ok()
}

/// The directory that the link leads to is unchanged.
fn check_laid_out(rt: &(impl Abort + Files + AllocGlobal), above: &str) {
    holds(rt, !stands_in(rt, above, "elsewhere/n"));
    holds(rt, stands_in(rt, above, "elsewhere/b"));
    holds(rt, holds_text(rt, above, "elsewhere/a", "elsewhere"));
}

/// Carries out one call while the directory is swapped for a link.
fn call_while_swapped<R>(rt: &R, above: &str, call: &str, act: Act)
where
    R: Abort + Files<File = File> + AllocGlobal + Copy + Drop,
{
    let directory = place_in(rt, above, "served/d");
    let aside = place_in(rt, above, "served/aside");
    let machine = Racing {
        rt: *rt,
        act,
        swapped: (directory.as_str(), aside.as_str()),
        is_read: false,
    };
    let folder = place_in(rt, above, "served");
    comes_out_in(rt, machine, folder.as_str(), call);
    // The link is there: the other process acted.
    holds(rt, fs::read_link(rt, directory.as_str()).is_ok());
}

/// The same in a fresh folder. The directory that the link leads to is unchanged.
fn check_swapped<R>(rt: &R, call: &str, act: Act)
where
    R: Abort + Env + Files<File = File> + AllocGlobal + Copy + Drop,
{
    let above = fresh_folder(rt, "directory_swapped");
    comes_out_in(rt, *rt, above.as_str(), LAID_OUT);
    call_while_swapped(rt, above.as_str(), call, act);
    check_laid_out(rt, above.as_str());
    take_away(rt, above.as_str());
}

/// A file that becomes a link after the names were read is not listed, and the link is not followed.
fn check_listed_link<R>(rt: &R)
where
    R: Abort + Env + Files<File = File> + AllocGlobal + Copy + Drop,
{
    let above = fresh_folder(rt, "listed_link");
    comes_out_in(rt, *rt, above.as_str(), LAID_OUT);
    let entry = place_in(rt, above.as_str(), "served/d/a");
    let machine = Racing {
        rt: *rt,
        act: Act::LinkListed,
        swapped: (entry.as_str(), "../../elsewhere/a"),
        is_read: false,
    };
    let folder = place_in(rt, above.as_str(), "served");
    comes_out_in(rt, machine, folder.as_str(), "names /d = b\nfaults = 0");
    holds(rt, fs::read_link(rt, entry.as_str()).is_ok());
    take_away(rt, above.as_str());
}

static SWAPPED: [(Act, &str); 2] = [
    (Act::SwapLate, BELOW_SWAPPED),
    (Act::SwapAtOnce, INTO_SWAPPED),
];

#[test]
fn links_and_swaps(rt: HostRuntime) {
    check_links(&rt);
    check_listed_link(&rt);
    for (act, calls) in &SWAPPED {
        for call in calls.split('\n') {
            check_swapped(&rt, call, *act);
        }
    }
}
