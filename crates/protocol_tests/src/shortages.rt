//! Each growth of each call refused in turn: paths and users are unchanged, and the call passes once there is memory.

use crate::expect::holds;
use crate::paths::{Making, made, path_of};
use crate::steps::{Change, Known, Step, follow, make_change, take};
use crate::users::{FIRST, NOBODY};
use authorizer::{Authorizer, AuthorizerFault};
use linked_list_allocator::LocalHeap;
use std::process::Abort;
use test_scarce_memory::{HEAP, leave_hole};
use virtual_path::VPath;

/// The operations on a path in memory; `None` is its names.
static MADE: [Option<Making>; 6] = [
    None,
    Some(Making::Parent),
    Some(Making::Clone),
    Some(Making::Child("b")),
    Some(Making::Joined("/")),
    Some(Making::Resolve("a/rather/long/way/to/go")),
];

/// Returns whether a call finds no memory in a heap.
fn is_lacking<'h>(
    rt: &impl Abort,
    heap: &'h LocalHeap,
    path: &VPath<&'h LocalHeap>,
    making: Option<Making>,
) -> bool {
    match making {
        Some(making) => made(rt, heap, path, making).is_err(),
        None => path.names(heap).is_err(),
    }
}

/// Refuses each growth of a call on a path in turn.
fn refuse_in_turn<'h>(
    rt: &(impl AllocGlobal + Abort),
    heap: &'h LocalHeap,
    path: &VPath<&'h LocalHeap>,
    making: Option<Making>,
) {
    for step in 0..32usize {
        let rest = leave_hole(rt, heap, 16 * step).expect(rt, "memory");
        let refused = is_lacking(rt, heap, path, making);
        drop(rest);
        // With no room it is refused, and with enough it is not.
        holds(rt, if refused { step < 31 } else { step > 0 });
        // Once there is memory again, it passes.
        holds(rt, !is_lacking(rt, heap, path, making));
        holds(rt, path.text() == "/home/of/ann");
    }
}

#[test]
fn of_paths(rt: HostRuntime) {
    let heap = LocalHeap::new(rt.alloc(), HEAP).expect(&rt, "memory");
    let path = path_of(&rt, &heap, "/home/of/ann");
    for making in &MADE {
        refuse_in_turn(&rt, &heap, &path, *making);
    }
}

/// The users before each call.
static FILLED: &[Step] = &[
    Step::Done(Change::Add("ann", "secret", "/home/ann", "elr")),
    Step::Done(Change::Override("ann", "/in", "a", false)),
];

/// The users after a refused one.
static AS_BEFORE: &[Step] = &[
    Step::Is(FIRST),
    Step::Password("ann", "secret", true),
    Step::May("ann", "/in/f", Some("a")),
    Step::May("ann", "/out/f", Some("elr")),
    Step::Is(NOBODY),
    Step::Is(Known {
        name: "anonymous",
        ..NOBODY
    }),
];

/// The calls, whether they allocate, and the users after them. Refusals have used up no number.
static CALLS: &[(Change, bool, Step)] = &[
    (
        Change::Add("bob", "hidden", "/home/bob", "elr"),
        true,
        Step::Is(Known {
            name: "bob",
            number: Some(1),
            home: Some("/home/bob"),
            ..FIRST
        }),
    ),
    (
        Change::AddAnonymous("/pub", "elr"),
        true,
        Step::Is(Known {
            name: "anonymous",
            number: Some(1),
            home: Some("/pub"),
            ..FIRST
        }),
    ),
    (
        Change::Override("ann", "/out", "w", true),
        true,
        Step::May("ann", "/out/s/f", Some("w")),
    ),
    (
        Change::Override("ann", "/in", "d", true),
        true,
        Step::May("ann", "/in/s/f", Some("d")),
    ),
    (
        Change::Messages("ann", "Hello-and-welcome-back", "So-long"),
        true,
        Step::Is(Known {
            login: Some("Hello-and-welcome-back"),
            quit: Some("So-long"),
            ..FIRST
        }),
    ),
    (
        Change::Remove("ann"),
        false,
        Step::Is(Known {
            name: "ann",
            ..NOBODY
        }),
    ),
    (
        Change::Group("ann", Some(7)),
        false,
        Step::Is(Known {
            group: Some(7),
            ..FIRST
        }),
    ),
];

/// Makes a call in a heap with only one hole of some octets.
fn fault_in_hole<'h>(
    rt: &(impl Abort + AllocGlobal),
    heap: &'h LocalHeap,
    users: &mut Authorizer<&'h LocalHeap>,
    call: Change,
    room: usize,
) -> Option<AuthorizerFault> {
    let rest = leave_hole(rt, heap, room).expect(rt, "memory");
    let fault = make_change(rt, users, call).err();
    drop(rest);
    fault
}

/// Makes a call in this way, and again if it was refused. Returns whether it was.
fn is_refused_at_first<'h>(
    rt: &(impl Abort + AllocGlobal),
    heap: &'h LocalHeap,
    users: &mut Authorizer<&'h LocalHeap>,
    call: Change,
    room: usize,
) -> bool {
    let Some(fault) = fault_in_hole(rt, heap, users, call, room) else {
        return false;
    };
    holds(rt, fault == AuthorizerFault::Memory);
    follow(rt, users, AS_BEFORE);
    take(rt, users, &Step::Done(call));
    true
}

/// Returns whether a call on new users is refused with this little room.
fn is_refused(
    rt: &(impl Abort + AllocGlobal),
    call: Change,
    afterwards: &Step,
    room: usize,
) -> bool {
    let heap = LocalHeap::new(rt.alloc(), HEAP).expect(rt, "memory");
    let mut users = Authorizer::new(&heap).expect(rt, "memory");
    follow(rt, &mut users, FILLED);
    let refused = is_refused_at_first(rt, &heap, &mut users, call, room);
    take(rt, &mut users, afterwards);
    refused
}

/// Number of growths of a call that are refused before it passes.
fn count_refused(rt: &(impl Abort + AllocGlobal), call: Change, afterwards: &Step) -> usize {
    for step in 0..512usize {
        if !is_refused(rt, call, afterwards, 16 * step) {
            return step;
        }
    }
    panic!(rt; "never enough memory")
}

#[test]
fn of_users(rt: HostRuntime) {
    for (call, takes_memory, afterwards) in CALLS {
        let count = count_refused(&rt, *call, afterwards);
        holds(&rt, *takes_memory == (0 < count));
    }
}
