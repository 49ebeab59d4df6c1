//! Ports that rest. The function with the crate's name is the example in its head.

use super::expect::holds;
use linked_list_allocator::LocalHeap;
use passive_ports::{MOST_TRIES, PoolFault, PortHost, RestingPorts, open_passive};
use std::process::Abort;
use std::test::Fail;
use test_scarce_memory::{HEAP, leave_hole};

#[test]
fn resting_ports(rt: HostRuntime) -> Result<(), Fail> {
    let mut ports = RestingPorts::new(rt.alloc(), 40000, 40003)?;
    assert!(rt; ports.lease() == Some(40000));
    assert!(rt; ports.give_back(40000)); // and not once more
    assert!(rt; ports.lease() == Some(40001)); // the first port rests
    Ok(())
}

/// Calls on four ports: a lease with its result, or a port that is given back with whether it was in use.
enum Call {
    Lease(Option<u16>),
    Back(u16, bool),
}

static CALLS: [Call; 17] = [
    Call::Lease(Some(5)),
    Call::Back(5, true),
    Call::Back(5, false),
    Call::Back(4, false),
    Call::Lease(Some(6)),
    Call::Lease(Some(7)),
    Call::Back(6, true),
    // no more may rest: the one that has rested longest becomes ready
    Call::Back(7, true),
    Call::Lease(Some(5)),
    Call::Lease(Some(8)),
    // none is ready: those at rest become ready
    Call::Lease(Some(6)),
    Call::Lease(Some(7)),
    Call::Lease(None),
    Call::Back(8, true),
    Call::Lease(Some(8)),
    Call::Back(9, false),
    Call::Lease(None),
];

#[test]
fn used_ports_rest(rt: HostRuntime) {
    let mut ports = RestingPorts::new(rt.alloc(), 5, 8).expect(&rt, "ports");
    for call in &CALLS {
        match call {
            Call::Lease(port) => holds(&rt, ports.lease() == *port),
            Call::Back(port, was_used) => holds(&rt, ports.give_back(*port) == *was_used),
        }
    }
}

// A range of one port has none at rest.
#[test]
fn one_port_is_ready_again(rt: HostRuntime) {
    let mut ports = RestingPorts::new(rt.alloc(), 5, 5).expect(&rt, "ports");
    for _ in 0..3 {
        holds(&rt, ports.lease() == Some(5));
        holds(&rt, ports.lease().is_none());
        holds(&rt, ports.give_back(5));
    }
    holds(
        &rt,
        RestingPorts::new(rt.alloc(), 6, 5).err() == Some(PoolFault::EmptyRange),
    );
}

// Ports of which those below one cannot be listened on.
#[derive(Drop)]
struct Bench {
    ports: RestingPorts,
    from: u16,
}

impl PortHost<u16> for Bench {
    ghost Asks = { λ _ _ _. Unit {0} };

    fn lease(&mut self) -> Option<u16> {
        self.ports.lease()
    }

    fn bind(&mut self, port: u16) -> Option<u16> {
        if port < self.from { None } else { Some(port) }
    }

    fn rest(&mut self, port: u16) {
        self.ports.give_back(port);
    }
}

// The port that is opened, and the one that is leased next, of a hundred ports.
fn opened(rt: &(impl Abort + AllocGlobal), from: u16) -> (Option<(u16, u16)>, Option<u16>) {
    let ports = RestingPorts::new(rt.alloc(), 1, 100).expect(rt, "ports");
    let mut bench = Bench { ports, from };
    let found = open_passive(&mut bench, MOST_TRIES);
    (found, bench.ports.lease())
}

#[test]
fn ports_are_tried(rt: HostRuntime) {
    holds(&rt, opened(&rt, 1) == (Some((1, 1)), Some(2)));
    // those that were tried rest
    holds(&rt, opened(&rt, 4) == (Some((4, 4)), Some(5)));
    holds(&rt, opened(&rt, 65) == (Some((65, 65)), Some(51)));
    holds(&rt, opened(&rt, 66) == (None, Some(51)));
}

// Returns whether ports open over this heap. If not, memory ran out.
fn opens(rt: &impl Abort, heap: &LocalHeap) -> bool {
    match RestingPorts::new(heap, 1, 200) {
        Ok(_) => true,
        Err(fault) => {
            holds(rt, fault == PoolFault::Memory);
            false
        }
    }
}

#[test]
fn ports_open_once_there_is_memory(rt: HostRuntime) -> Result<(), Fail> {
    let heap = LocalHeap::new(rt.alloc(), HEAP)?;
    let mut refused = 0usize;
    for room in 1..64usize {
        let rest = leave_hole(&rt, &heap, room * 16)?;
        if opens(&rt, &heap) {
            break;
        }
        refused = room;
        drop(rest);
        holds(&rt, opens(&rt, &heap));
    }
    holds(&rt, 2 <= refused && refused < 63);
    Ok(())
}
