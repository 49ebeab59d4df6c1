//! One random list of calls on both stores: the results of the one in memory are a script for the one over a folder. So
//! both have the same results and the same contents.

use crate::expect::{comes_out_in, fresh_folder, take_away};
use memory_store::MemStore;
use std::process::Abort;
use test_store_script::{read_line, reported};

static CALLS: [&str; 11] = [
    "make",
    "remove-directory",
    "remove-file",
    "rename",
    "names",
    "read",
    "new",
    "at",
    "append",
    "size",
    "open-at",
];

static OFFSETS: [&str; 7] = ["0", "1", "2", "3", "4", "5", "6"];

static PATHS: [&str; 12] = [
    "/", "/a", "/b", "/c", "/a/a", "/a/b", "/b/a", "/a/a/a", "/a/a/b", "/a!", "/a/b/c", "/b/b",
];

/// One of these words, chosen by the next pseudo-random number (G. Marsaglia, *Xorshift RNGs*, 2003).
fn one_of(number: &mut u64, words: &[&'static str]) -> &'static str {
    *number ^= number.wrapping_shl(13);
    *number ^= number.wrapping_shr(7);
    *number ^= number.wrapping_shl(17);
    let index = number.checked_rem(words.len() as u64).unwrap_or(0);
    words.get(index as usize).copied().unwrap_or("")
}

/// A random call. A call that writes has the text of its other path.
fn random_call(rt: &(impl Abort + AllocGlobal), number: &mut u64) -> String {
    let call = one_of(number, &CALLS);
    let offset = one_of(number, &OFFSETS);
    let path = one_of(number, &PATHS);
    let to = one_of(number, &PATHS);
    format!(in rt.alloc(); "{call}:{offset} {path} {to}").expect(rt, "memory")
}

/// Adds a line to a script: a call, and its result on a store in memory.
fn add_line(
    rt: &(impl Abort + AllocGlobal),
    store: &mut MemStore,
    script: &mut String,
    call: &str,
) {
    let asked = read_line(rt.alloc(), rt.alloc(), call).expect(rt, call);
    let reported = reported(rt.alloc(), store, &asked).expect(rt, call);
    let line = format!(in rt.alloc(); "\n{call} = {reported}").expect(rt, "memory");
    script.push_str(line.as_str()).expect(rt, "memory");
}

/// Adds the results of 4,000 random calls on a store in memory, and then its contents.
fn add_lines(rt: &(impl Abort + AllocGlobal), store: &mut MemStore, script: &mut String) {
    let mut number = 88_172_645_463_325_252;
    for _ in 0..4000u32 {
        let call = random_call(rt, &mut number);
        add_line(rt, store, script, call.as_str());
    }
    for path in &PATHS {
        for call in ["names", "read", "faults"] {
            let call = format!(in rt.alloc(); "{call} {path}").expect(rt, "memory");
            add_line(rt, store, script, call.as_str());
        }
    }
}

#[test]
fn of_both_stores(rt: HostRuntime) {
    let mut memory = MemStore::new(rt.alloc(), 1 << 20).expect(&rt, "memory");
    let mut script = String::from_str(rt.alloc(), "faults = 0").expect(&rt, "memory");
    add_lines(&rt, &mut memory, &mut script);
    let folder = fresh_folder(&rt, "sides");
    comes_out_in(&rt, rt, folder.as_str(), script.as_str());
    take_away(&rt, folder.as_str());
}
