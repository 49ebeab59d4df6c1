//! Each growth of each call refused in turn: nothing has changed, and the call passes once there is memory.

use super::expect::holds;
use super::ports::lease_all;
use data_pump::{DataIn, DataOut, OpenFault};
use ftp_terms::DataType;
use linked_list_allocator::LocalHeap;
use passive_ports::{AdmitFault, PoolFault, PortPool, Registry};
use std::alloc::Allocator;
use std::process::Abort;
use test_scarce_memory::{HEAP, leave_hole};
use test_transfer_ends::{Collected, Inlet, Octets, Outlet};

// Returns whether a download can be opened over this heap.
fn opens_out(rt: &impl Abort, heap: &LocalHeap, octets: &mut Vec<u8>, data_type: DataType) -> bool {
    let connection = Outlet {
        taken: octets,
        schedule: &[],
    };
    let source = Octets {
        rest: b"a",
        schedule: &[],
    };
    match DataOut::open(heap, source, connection, data_type) {
        Ok(out) => {
            holds(rt, out.waiting() == 1);
            true
        }
        Err(fault) => {
            holds(rt, fault == OpenFault::Memory);
            false
        }
    }
}

// Returns whether an upload can be opened over this heap.
fn opens_in(rt: &impl Abort, heap: &LocalHeap, octets: &mut Vec<u8>, data_type: DataType) -> bool {
    let sink = Collected {
        octets,
        schedule: &[],
    };
    let connection = Inlet {
        rest: b"a",
        schedule: &[],
    };
    match DataIn::open(heap, connection, sink, data_type) {
        Ok(_) => true,
        Err(fault) => {
            holds(rt, fault == OpenFault::Memory);
            false
        }
    }
}

// Returns whether both open over this heap.
fn open(rt: &(impl Abort + AllocGlobal), heap: &LocalHeap, data_type: DataType) -> (bool, bool) {
    let mut octets = Vec::new(rt.alloc());
    (
        opens_out(rt, heap, &mut octets, data_type),
        opens_in(rt, heap, &mut octets, data_type),
    )
}

/// A data type, room in octets, and whether a download and an upload have enough. Under TYPE A there are two buffers,
/// the smaller one first.
static BUFFERS: [(DataType, usize, (bool, bool)); 6] = [
    (DataType::Ascii, 1_000, (false, false)),
    (DataType::Ascii, 40_000, (false, false)),
    (DataType::Ascii, 110_000, (true, false)),
    (DataType::Ascii, 150_000, (true, true)),
    (DataType::Image, 1_000, (false, false)),
    (DataType::Image, 70_000, (true, true)),
];

#[test]
fn each_buffer_may_be_refused(rt: HostRuntime) {
    let heap = LocalHeap::new(rt.alloc(), 200_000).expect(&rt, "a heap");
    for (data_type, room, wanted) in &BUFFERS {
        let rest = leave_hole(&rt, &heap, *room).expect(&rt, "a hole");
        holds(&rt, open(&rt, &heap, *data_type) == *wanted);
        drop(rest);
        holds(&rt, open(&rt, &heap, *data_type) == (true, true));
    }
}

// Returns whether a pool of 65,535 ports is refused beside one hole of some octets. It is not once there is memory. The
// refusal of an empty range allocates nothing, nor do leases.
fn is_pool_refused(rt: &(impl Abort + AllocGlobal), room: usize) -> bool {
    let heap = LocalHeap::new(rt.alloc(), HEAP).expect(rt, "a heap");
    let mut pool = PortPool::new(&heap, 1, 100).expect(rt, "a pool");
    let rest = leave_hole(rt, &heap, room).expect(rt, "a hole");
    let fault = PortPool::new(&heap, 1, 65535).err();
    holds(
        rt,
        PortPool::new(&heap, 2, 1).err() == Some(PoolFault::EmptyRange),
    );
    lease_all(rt, &mut pool, 1, 100);
    holds(rt, pool.give_back(64) && pool.lease() == Some(64));
    drop(rest);
    holds(rt, fault.is_none() || fault == Some(PoolFault::Memory));
    holds(rt, PortPool::new(&heap, 1, 65535).is_ok());
    fault.is_some()
}

#[test]
fn each_growth_of_a_pool(rt: HostRuntime) {
    let mut refused = 0u32;
    for step in 0..600usize {
        if is_pool_refused(&rt, 16 * step) {
            refused = refused.saturating_add(1);
        }
    }
    holds(&rt, 0 < refused && refused < 600);
}

// A registry with `count` connections, each from an address of its own.
fn filled<'h>(rt: &impl Abort, heap: &'h LocalHeap, count: u8) -> Registry<&'h LocalHeap> {
    let mut registry = Registry::new(heap, 1000, 0).expect(rt, "memory");
    for last in 0..count {
        holds(rt, registry.admit([10, 0, 0, last]).is_ok());
    }
    registry
}

const NEW: [u8; 4] = [10, 0, 1, 0];

// Returns whether an admission was refused to a registry with this many connections. If so, it is unchanged, and admits
// one more.
fn is_refused<A: Allocator + Clone>(
    rt: &impl Abort,
    registry: &mut Registry<A>,
    count: u8,
    answer: Result<usize, AdmitFault>,
) -> bool {
    if answer.is_err() {
        holds(rt, answer == Err(AdmitFault::Memory));
        holds(rt, registry.count() == usize::from(count));
        holds(rt, registry.count_of_address(NEW) == 0);
        holds(rt, registry.admit(NEW).is_ok());
    }
    holds(rt, registry.count_of_address(NEW) == 1);
    answer.is_err()
}

// Returns whether an admission is refused with this many connections beside one hole of some octets.
fn is_refused_in(rt: &(impl Abort + AllocGlobal), count: u8, room: usize) -> bool {
    let heap = LocalHeap::new(rt.alloc(), HEAP).expect(rt, "a heap");
    let mut registry = filled(rt, &heap, count);
    let rest = leave_hole(rt, &heap, room).expect(rt, "a hole");
    let answer = registry.admit(NEW);
    drop(rest);
    is_refused(rt, &mut registry, count, answer)
}

// Number of growths of an admission that are refused before it passes.
fn count_refused(rt: &(impl Abort + AllocGlobal), count: u8) -> u32 {
    for step in 0..512u32 {
        if !is_refused_in(rt, count, 16 * step as usize) {
            return step;
        }
    }
    panic!(rt; "there is never enough memory")
}

#[test]
fn each_growth_of_an_admission(rt: HostRuntime) {
    holds(&rt, 0 < count_refused(&rt, 0));
    let mut refused = 0u32;
    for count in 1..40u8 {
        refused = refused.saturating_add(count_refused(&rt, count));
    }
    holds(&rt, 0 < refused);
}

#[test]
fn leaving_takes_no_memory(rt: HostRuntime) {
    let heap = LocalHeap::new(rt.alloc(), HEAP).expect(&rt, "a heap");
    let mut registry = filled(&rt, &heap, 40);
    let _rest = leave_hole(&rt, &heap, 0).expect(&rt, "no hole");
    for key in 0..40usize {
        holds(&rt, registry.leave(key) && !registry.leave(key));
    }
    holds(&rt, registry.count() == 0);
}
