//! A list of calls with their expected results.

use crate::asking::reported;
use crate::calls::read_line;
use std::alloc::{Allocator, Global};
use virtual_tree::{Store, StoreFault};

/// A line with its actual result: the call, and the result.
fn came_out<A: Allocator + Copy, S: Store<A>>(
    global: Global,
    alloc: A,
    store: &mut S,
    call: &str,
) -> Result<String, StoreFault> {
    match read_line(global, alloc, call) {
        None => Ok(format!(in global; "{call} is no call")?),
        Some(asked) => reported(global, store, &asked),
    }
}

/// Carries out the calls of a script, line by line. Returns the first line with a wrong result,
/// with that result; nothing if there is none.
pub fn first_unmet<A: Allocator + Copy, S: Store<A>>(
    global: Global,
    alloc: A,
    store: &mut S,
    script: &str,
) -> Result<Option<String>, StoreFault> {
    for line in script.split('\n') {
        let (call, wanted) = line.split_once(" =").unwrap_or((line, ""));
        let reported = came_out(global, alloc, store, call)?;
        if reported.as_str().trim_start() != wanted.trim_start() {
            return Ok(Some(format!(in global; "{line} (told {reported})")?));
        }
    }
    Ok(None)
}
