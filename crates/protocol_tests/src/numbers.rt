//! Numbers that users keep from an earlier authorizer.

use crate::expect::{holds, same};
use authorizer::{Authorizer, AuthorizerFault};
use linked_list_allocator::LocalHeap;
use std::alloc::Allocator;
use std::process::Abort;
use test_scarce_memory::leave_hole;

/// Octets of the heap of the scarce users.
const HEAP: usize = 16_384;

/// Users with passwords of no account, in this order.
fn with_users<A: Allocator + Clone>(
    alloc: A,
    names: &[&str],
) -> Result<Authorizer<A>, AuthorizerFault> {
    let mut users = Authorizer::new(alloc)?;
    for name in names {
        users.add_user(name, "x", "/", "elr")?;
    }
    Ok(users)
}

/// Names with their numbers and groups; none for a name without a user.
fn expect_numbers<A: Allocator + Clone>(
    rt: &impl Abort,
    users: &Authorizer<A>,
    wanted: &[(&str, Option<u32>, Option<u32>)],
) {
    for (name, number, group) in wanted {
        holds(rt, users.number(name) == *number);
        holds(rt, users.group(name) == *group);
    }
}

/// Numbers that were kept: `bob` was removed from the earlier users, so he is new.
const KEPT: &[(&str, Option<u32>, Option<u32>)] = &[
    ("ann", Some(0), Some(9)),
    ("bob", Some(4), None),
    ("cleo", None, None),
    ("dora", Some(3), Some(7)),
    ("eve", Some(5), None),
    ("fay", Some(6), None),
];

fn keep_all<A: Allocator + Clone>(
    rt: &(impl Abort + AllocGlobal),
    users: &mut Authorizer<A>,
    earlier: &Authorizer,
) -> Result<(), AuthorizerFault> {
    users.keep_numbers(earlier)?;
    users.renumber_groups(&[5, 9])?;
    holds(rt, users.check_password("ann", "x"));
    users.add_user("fay", "x", "/", "elr")
}

#[test]
fn numbers_are_kept(rt: HostRuntime) {
    let mut earlier = with_users(rt.alloc(), &["ann", "bob", "cleo"]).expect(&rt, "users");
    earlier.remove_user("bob").expect(&rt, "bob");
    let mut users = with_users(rt.alloc(), &["dora", "ann", "bob", "eve"]).expect(&rt, "users");
    users.set_group("ann", Some(1)).expect(&rt, "ann");
    users.set_group("dora", Some(7)).expect(&rt, "dora");
    keep_all(&rt, &mut users, &earlier).expect(&rt, "numbers");
    expect_numbers(&rt, &users, KEPT);
    let names = users.names(rt.alloc()).expect(&rt, "memory");
    let wanted = ["ann", "bob", "dora", "eve", "fay"];
    same(&rt, &names.len(), &wanted.len());
    for (index, name) in names.as_slice().iter().enumerate() {
        same(&rt, &Some(name.as_str()), &wanted.get(index).copied());
    }
}

/// Returns whether numbers are refused with this little room. If they are, nothing has changed, and they are kept once
/// there is room.
fn is_refused(rt: &(impl Abort + AllocGlobal), earlier: &Authorizer, room: usize) -> bool {
    let heap = LocalHeap::new(rt.alloc(), HEAP).expect(rt, "a heap");
    let mut users = with_users(&heap, &["dora", "ann"]).expect(rt, "users");
    let rest = leave_hole(rt, &heap, room).expect(rt, "a hole");
    let fault = users.keep_numbers(earlier).err();
    drop(rest);
    let refused = fault.is_some();
    if refused {
        holds(rt, fault == Some(AuthorizerFault::Memory));
        expect_numbers(
            rt,
            &users,
            &[("dora", Some(0), None), ("ann", Some(1), None)],
        );
        users.keep_numbers(earlier).expect(rt, "memory");
    }
    expect_numbers(
        rt,
        &users,
        &[("dora", Some(1), None), ("ann", Some(0), None)],
    );
    refused
}

#[test]
fn numbers_need_memory(rt: HostRuntime) {
    let earlier = with_users(rt.alloc(), &["ann"]).expect(&rt, "users");
    let mut refused = 0u64;
    for step in 0..64usize {
        if is_refused(&rt, &earlier, 16 * step) {
            refused = refused.saturating_add(1);
        }
    }
    holds(&rt, 0 < refused && refused < 64);
}
