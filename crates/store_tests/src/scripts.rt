//! Sequences of calls on stores in memory.

use crate::expect::comes_out;
use memory_store::MemStore;
use test_store_script::{DIRECTORIES, FILES, RENAMES};

/// A store of three octets.
const FULL: &str = "new /f abc
append /f d = full
size /f = 3
read /f = abc
at:2 /f xy = full
read /f = ab
faults = 0";

/// A file that is opened to be cut, and is not finished.
const CUT: &str = "new /f abc
open-at:2 /f
read /f = ab
read:1 /f = b
read:2 /f =
read:3 /f = past the end
modified /f = 6
new /f ab
modified /f = 7
size / = 0
modified / = 0";

#[test]
fn in_memory(rt: HostRuntime) {
    for (capacity, script) in [
        (3, FULL),
        (9, CUT),
        (9, FILES),
        (9, DIRECTORIES),
        (9, RENAMES),
    ] {
        let mut store = MemStore::new(rt.alloc(), capacity).expect(&rt, "memory");
        comes_out(&rt, rt.alloc(), &mut store, script);
    }
}
