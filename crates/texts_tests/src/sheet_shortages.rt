//! Each growth of the nodes of a sheet refused in turn, and then made.

ghost use Rattle.std.specs.Prelude.{◌<◌, length};

use super::nodes::{Line, nodes_of};
use crate::expect::holds;
use limit_tree::NodeKind;
use linked_list_allocator::LocalHeap;
use sheet_text::{Nodes, SheetFault, is_leaf};
use std::process::Abort;
use test_scarce_memory::{HEAP, leave_hole};

static TWO_LINES: [Line; 2] = [(b"want /b/x 5 1", None), (b"limit /a 9", None)];

/// Checks that a third line is at its place.
fn expect_third(rt: &impl Abort, nodes: &Nodes<'static, &LocalHeap>, place: usize)
    requires { place < length nodes.now }
{
    holds(rt, nodes.path(place) == "/b/c/d/e");
    holds(rt, nodes.line(place) == Some(3));
    holds(rt, is_leaf(nodes.kind(place)));
    holds(rt, nodes.wants() == 2 && nodes.len() == 7);
}

/// Returns whether a third line has room; if it has, checks that its statement is there.
fn is_taken(rt: &impl Abort, nodes: &mut Nodes<'static, &LocalHeap>) -> bool {
    match nodes.take(3, "/b/c/d/e", NodeKind::Leaf { want: 5, floor: 1 }) {
        Ok(place) => {
            expect_third(rt, nodes, place);
            true
        }
        Err(fault) => {
            holds(rt, fault == SheetFault::Memory);
            false
        }
    }
}

/// Returns whether a line is refused in a heap that has only one hole of `room` octets. Checks that it is taken once
/// there is memory, whatever part of its path was mentioned before.
fn is_refused(rt: &(impl AllocGlobal + Abort), room: usize) -> bool {
    let heap = LocalHeap::new(rt.alloc(), HEAP).expect(rt, "a heap");
    let mut nodes = nodes_of(rt, &heap, &TWO_LINES);
    let rest = leave_hole(rt, &heap, room).expect(rt, "a hole");
    let first = is_taken(rt, &mut nodes);
    drop(rest);
    if !first {
        holds(rt, is_taken(rt, &mut nodes));
    }
    !first
}

#[test]
fn each_growth_of_a_line(rt: HostRuntime) {
    let mut refusals = 0usize;
    for step in 0..256usize {
        if is_refused(&rt, 16 * step) {
            refusals = step;
        }
    }
    // Without room it is refused, and with enough it is taken.
    holds(&rt, 0 < refusals && refusals < 255);
}

/// Number of nodes of the whole tree, or its fault.
fn whole_nodes<'h>(
    heap: &'h LocalHeap,
    nodes: &Nodes<'static, &'h LocalHeap>,
) -> Result<usize, SheetFault> {
    let mut order = Vec::new(heap);
    let tree = nodes.whole_tree(&mut order)?;
    Ok(tree.nodes())
}

/// Returns whether there is no memory for the tree of the nodes.
fn lacks_tree<'h>(heap: &'h LocalHeap, nodes: &Nodes<'static, &'h LocalHeap>) -> bool {
    let mut order = Vec::new(heap);
    nodes.tree(&mut order).is_err()
}

/// The calls on nodes for which there is no memory in a heap.
fn refusals<'h>(
    rt: &impl Abort,
    heap: &'h LocalHeap,
    nodes: &Nodes<'static, &'h LocalHeap>,
) -> [bool; 4] {
    let whole = whole_nodes(heap, nodes);
    holds(rt, whole == Ok(4) || whole == Err(SheetFault::Memory));
    [
        Nodes::<'static, &'h LocalHeap>::new(heap).is_err(),
        nodes.kids(heap).is_err(),
        lacks_tree(heap, nodes),
        whole.is_err(),
    ]
}

/// The calls for which there is no memory in one hole of `room` octets. Checks that each passes once there is memory
/// again.
fn refusals_in<'h>(
    rt: &(impl AllocGlobal + Abort),
    heap: &'h LocalHeap,
    nodes: &Nodes<'static, &'h LocalHeap>,
    room: usize,
) -> [bool; 4] {
    let rest = leave_hole(rt, heap, room).expect(rt, "a hole");
    let refused = refusals(rt, heap, nodes);
    drop(rest);
    holds(rt, refusals(rt, heap, nodes) == [false; 4]);
    refused
}

#[test]
fn each_growth_of_a_tree(rt: HostRuntime) {
    let heap = LocalHeap::new(rt.alloc(), HEAP).expect(&rt, "a heap");
    let nodes = nodes_of(&rt, &heap, &TWO_LINES);
    for step in 0..128usize {
        let refused = refusals_in(&rt, &heap, &nodes, 16 * step);
        // Without room each is refused, and with enough none.
        holds(&rt, step > 0 || refused == [true; 4]);
        holds(&rt, step < 127 || refused == [false; 4]);
    }
}
