//! Registries of connections: limits, keys and counts. The checks of a registry are in a function that borrows
//! it, which is cheap to prove.

use super::expect::holds;
use passive_ports::{AdmitFault, Registry};
use std::alloc::Global;
use std::process::Abort;

const A: [u8; 4] = [192, 0, 2, 1];

const B: [u8; 4] = [192, 0, 2, 2];

const C: [u8; 4] = [198, 51, 100, 1];

fn registry(
    rt: &(impl Abort + AllocGlobal),
    max: usize,
    max_of_address: usize,
) -> Registry<Global> {
    Registry::new(rt.alloc(), max, max_of_address).expect(rt, "memory")
}

// Two in all, and one per address.
fn expect_limits(rt: &impl Abort, registry: &mut Registry<Global>) {
    let key = registry.admit(A).expect(rt, "a key");
    holds(rt, registry.admit(A) == Err(AdmitFault::TooManyOfAddress));
    holds(rt, registry.admit(B).is_ok());
    holds(rt, registry.admit(C) == Err(AdmitFault::TooMany));
    holds(rt, registry.admit(A) == Err(AdmitFault::TooMany));
    holds(
        rt,
        registry.count() == 2 && registry.count_of_address(C) == 0,
    );
    // A connection that leaves makes room.
    holds(rt, registry.leave(key) && registry.count_of_address(A) == 0);
    holds(rt, registry.admit(A).is_ok());
    holds(rt, registry.admit(C) == Err(AdmitFault::TooMany));
    holds(rt, registry.count() == 2);
}

// Three in all, and two per address.
fn expect_keys(rt: &impl Abort, registry: &mut Registry<Global>) {
    let first = registry.admit(A).expect(rt, "a key");
    let second = registry.admit(A).expect(rt, "a key");
    let third = registry.admit(B).expect(rt, "a key");
    holds(rt, first != second && first != third && second != third);
    holds(
        rt,
        registry.leave(first) && !registry.leave(first) && !registry.leave(7),
    );
    holds(
        rt,
        registry.count_of_address(A) == 1 && registry.count_of_address(B) == 1,
    );
}

#[test]
fn limits_and_keys(rt: HostRuntime) {
    expect_limits(&rt, &mut registry(&rt, 2, 1));
    expect_keys(&rt, &mut registry(&rt, 3, 2));
}

// Of two thousand connections from one address exactly this many are admitted; the others are refused for the limit to
// all.
fn expect_admitted(rt: &impl Abort, registry: &mut Registry<Global>, wanted: usize) {
    let mut admitted = 0usize;
    for _ in 0..2000u32 {
        match registry.admit(A) {
            Ok(_) => admitted = admitted.saturating_add(1),
            Err(fault) => holds(rt, fault == AdmitFault::TooMany),
        }
    }
    holds(rt, admitted == wanted);
    holds(
        rt,
        registry.count() == wanted && registry.count_of_address(A) == wanted,
    );
    holds(rt, !registry.leave(2000));
}

/// The most in all, the most per address, and the number admitted.
static LIMITS: [(usize, usize, usize); 4] = [
    (0, 0, 0),
    (2, 2, 2),
    (512, 0, 512),
    (usize::MAX, usize::MAX, 2000),
];

#[test]
fn two_thousand_connections_at_once(rt: HostRuntime) {
    for (max, max_of_address, wanted) in &LIMITS {
        expect_admitted(&rt, &mut registry(&rt, *max, *max_of_address), *wanted);
    }
}
