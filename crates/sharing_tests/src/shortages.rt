//! Memory that is refused, at each growth in turn, and then available again.

ghost use Rattle.std.specs.Prelude.{◌≡◌, ◌<◌};

use super::plans::DOWN;
use super::rates::{TWO_GROUPS, limits_of};
use super::trees::{PROMISED, Shape, THREE, tree};
use crate::expect::holds;
use limit_tree::{Flat, Tree};
use line_rates::{Ask, Limits, PlanFault, tree_of};
use linked_list_allocator::LocalHeap;
use rate_floors::Floors;
use round_allocator::{Steps, allot, allot_counted};
use std::marker::Brand;
use std::process::Abort;
use std::sync::ledger::{Blank, Ledger};
use test_allotment::allot_plainly;
use test_scarce_memory::{HEAP, leave_hole};

// Returns whether grants were made; if so, they are these.
fn are_granted(rt: &impl Abort, granted: Option<Vec<u64, &LocalHeap>>, wanted: &[u64]) -> bool {
    match granted {
        Some(grants) => {
            holds(rt, grants.as_slice() == wanted);
            true
        }
        None => false,
    }
}

fn by_levels<'h>(heap: &'h LocalHeap, tree: &Tree) -> Option<Vec<u64, &'h LocalHeap>> {
    let (grants, _certificate) = allot(heap, tree).ok()?;
    Some(grants)
}

fn by_counted_levels<'h, L: Ledger>(
    heap: &'h LocalHeap,
    tree: &Tree,
    blank: Blank,
) -> Option<Vec<u64, &'h LocalHeap>>
    requires name { blank.name ≡ L.name }
    requires parts { blank.parts ≡ L.parts }
    requires some { 0 < blank.parts }
{
    let mut steps = Steps::<L>::new(blank);
    let (grants, _certificate, _probes) = allot_counted(heap, tree, &mut steps).ok()?;
    Some(grants)
}

static ASKS: [(u8, Ask); 3] = [
    (4, DOWN),
    (5, Ask { user: 2, ..DOWN }),
    (
        6,
        Ask {
            user: 1,
            session: 3,
            ..DOWN
        },
    ),
];

// Returns whether the tree of a tick has memory; if so, it is right.
fn has_plan(rt: &impl Abort, heap: &LocalHeap, limits: &Limits) -> bool {
    match tree_of(heap, limits, 0, &ASKS) {
        Ok(plan) => {
            holds(rt, plan.lanes.as_slice() == [4, 6, 5].as_slice());
            holds(rt, plan.tree.nodes() == 12);
            true
        }
        Err(fault) => {
            holds(rt, fault == PlanFault::Memory);
            false
        }
    }
}

// Returns whether the guarantees have memory; if so, they are right.
fn has_floors(rt: &impl Abort, heap: &LocalHeap, limits: &Limits) -> bool {
    match Floors::of(heap, limits) {
        Ok(floors) => {
            let mut floors = floors;
            holds(rt, floors.admit(5) && !floors.admit(5));
            true
        }
        Err(_) => false,
    }
}

// Returns which of the calls that allocate have memory.
fn answers(
    rt: &impl Abort,
    heap: &LocalHeap,
    tree: &Tree,
    wanted: &[u64],
    limits: &Limits,
) -> [bool; 6] {
    [
        Flat::of(heap, tree).is_ok(),
        are_granted(rt, allot_plainly(heap, tree).ok(), wanted),
        are_granted(rt, by_levels(heap, tree), wanted),
        are_granted(
            rt,
            by_counted_levels::<Brand>(heap, tree, Blank::new(1)),
            wanted,
        ),
        has_plan(rt, heap, limits),
        has_floors(rt, heap, limits),
    ]
}

// Returns which of them have memory in one hole of `room` octets. Once there is memory again, all have.
fn answers_in(
    rt: &(impl Abort + AllocGlobal),
    room: usize,
    tree: &Tree,
    wanted: &[u64],
    limits: &Limits,
) -> [bool; 6] {
    let heap = LocalHeap::new(rt.alloc(), HEAP).expect(rt, "a heap");
    let rest = leave_hole(rt, &heap, room).expect(rt, "a hole");
    let first = answers(rt, &heap, tree, wanted, limits);
    drop(rest);
    let again = answers(rt, &heap, tree, wanted, limits);
    holds(rt, again == [true; 6]);
    first
}

// Room rises by less than the smallest growth, so each growth in turn is the first to be refused.
fn expect_refusals(rt: &(impl Abort + AllocGlobal), tree: &Tree, wanted: &[u64], limits: &Limits) {
    for step in 0..256usize {
        let answers = answers_in(rt, 16 * step, tree, wanted, limits);
        // With no room each is refused, and with enough none.
        holds(rt, step > 0 || answers == [false; 6]);
        holds(rt, step < 255 || answers == [true; 6]);
    }
}

static TREES: [(Shape, &[u64]); 2] = [(THREE, &[4, 3, 3]), (PROMISED, &[15, 15, 35, 10])];

#[test]
fn each_growth_of_each_call(rt: HostRuntime) {
    let limits = limits_of(&rt, &TWO_GROUPS);
    for (shape, wanted) in &TREES {
        expect_refusals(&rt, &tree(&rt, shape), wanted, &limits);
    }
}
