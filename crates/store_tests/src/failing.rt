//! A store that fails once, over a store in memory: each call in turn.

use crate::expect::{comes_out, holds};
use memory_store::MemStore;
use std::process::Abort;
use test_fail_store::FailStore;
use test_store_script::first_unmet;

/// Six calls of a store.
const SIX: &str = "make /d
new /d/f abc
size /d/f = 3
names /d = f
remove-file /d/f";

/// The state after a call has failed.
const AFTERWARDS: &str = "faults = 1
new /g xy
read /g = xy
faults = 1";

/// A store of nine octets that passes this many calls.
fn failing(rt: &(impl Abort + AllocGlobal), passes: u64) -> FailStore<MemStore> {
    let memory = MemStore::new(rt.alloc(), 9).expect(rt, "memory");
    FailStore::new(memory, passes)
}

/// One of the six calls fails, and none after it.
fn check_failing(rt: &(impl Abort + AllocGlobal), store: &mut FailStore<MemStore>) {
    let unmet = first_unmet(rt.alloc(), rt.alloc(), store, SIX).expect(rt, "memory");
    let failed = unmet.expect(rt, "a call that fails");
    holds(rt, failed.as_str().ends_with("(told device fault)"));
    comes_out(rt, rt.alloc(), store, AFTERWARDS);
}

#[test]
fn each_call_in_turn(rt: HostRuntime) {
    for passes in 0..6 {
        check_failing(&rt, &mut failing(&rt, passes));
    }
    comes_out(&rt, rt.alloc(), &mut failing(&rt, 6), SIX);
}
