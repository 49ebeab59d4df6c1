//! Pools of ports. The function with a crate's name is the example in its head.

use super::expect::holds;
use passive_ports::{PoolFault, PortPool, Registry};
use std::alloc::Allocator;
use std::process::Abort;
use std::test::Fail;

#[test]
fn passive_ports(rt: HostRuntime) -> Result<(), Fail> {
    let mut pool = PortPool::new(rt.alloc(), 40000, 40001)?;
    assert!(rt; pool.lease() == Some(40000));
    assert!(rt; pool.lease() == Some(40001));
    assert!(rt; pool.lease().is_none()); // all are leased
    assert!(rt; pool.give_back(40000)); // and not once more
    // 64 connections, 8 of them from one address
    let mut registry = Registry::new(rt.alloc(), 64, 8)?;
    let key = registry.admit([192, 0, 2, 1])?;
    assert!(rt; registry.leave(key)); // the key may be used again
    Ok(())
}

/// The first port and the last, and why there can be no pool of them.
static RANGES: [(u16, u16, Option<PoolFault>); 5] = [
    (5, 4, Some(PoolFault::EmptyRange)),
    (0, 4, Some(PoolFault::EmptyRange)),
    (0, 0, Some(PoolFault::EmptyRange)),
    (5, 5, None),
    (65535, 65535, None),
];

#[test]
fn a_range_has_a_port(rt: HostRuntime) {
    for (first, last, fault) in &RANGES {
        let pool = PortPool::new(rt.alloc(), *first, *last);
        holds(&rt, pool.err() == *fault);
    }
}

/// Leases all ports of a range, in ascending order.
pub(crate) fn lease_all<A: Allocator>(
    rt: &impl Abort,
    pool: &mut PortPool<A>,
    first: u16,
    last: u16,
) {
    for port in first..=last {
        holds(rt, pool.lease() == Some(port));
    }
    holds(rt, pool.lease().is_none());
}

// A port that is not leased cannot be given back.
fn expect_none_back<A: Allocator>(rt: &impl Abort, pool: &mut PortPool<A>, ports: &[u16]) {
    for port in ports {
        holds(rt, !pool.give_back(*port));
    }
}

// Leases a whole range, gives each port back, and leases it again.
fn expect_each_again<A: Allocator>(rt: &impl Abort, pool: &mut PortPool<A>, first: u16, last: u16) {
    expect_none_back(rt, pool, &[last, first, first.saturating_sub(1), 0]);
    lease_all(rt, pool, first, last);
    expect_none_back(rt, pool, &[first.saturating_sub(1), 0]);
    for port in first..=last {
        holds(rt, pool.give_back(port) && !pool.give_back(port));
        holds(rt, pool.lease() == Some(port));
    }
    holds(rt, pool.lease().is_none());
}

/// Two ports, a single one, ranges that end at or beside a word of 64, and all ports.
static WHOLE: [(u16, u16); 12] = [
    (40000, 40001),
    (65535, 65535),
    (30000, 30000),
    (30000, 30062),
    (30000, 30063),
    (30000, 30064),
    (30000, 30126),
    (30000, 30127),
    (30000, 30128),
    (20000, 24095),
    (20000, 24096),
    (1, 65535),
];

#[test]
fn each_port_is_leased_again(rt: HostRuntime) {
    for (first, last) in &WHOLE {
        let mut pool = PortPool::new(rt.alloc(), *first, *last).expect(&rt, "a pool");
        expect_each_again(&rt, &mut pool, *first, *last);
    }
}

/// Ports at the ends of words of 64, and of rows of 64 words.
static ENDS: [u16; 6] = [1, 64, 65, 4096, 4097, 65535];

#[test]
fn the_lowest_free_port_is_leased(rt: HostRuntime) {
    let mut pool = PortPool::new(rt.alloc(), 1, 65535).expect(&rt, "a pool");
    lease_all(&rt, &mut pool, 1, 65535);
    for port in ENDS.iter().rev() {
        holds(&rt, pool.give_back(*port));
    }
    for port in &ENDS {
        holds(&rt, pool.lease() == Some(*port));
    }
    holds(&rt, pool.lease().is_none());
}
