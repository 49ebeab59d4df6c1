//! Parts of grants files that no clause covers: that the calls succeed, and the grants of texts. Texts that are refused
//! are in `runs/faulty_grants.toml`.

use crate::expect::holds;
use linked_list_allocator::LocalHeap;
use sheet_commands::{GrantsFault, read_grants};
use sheet_text::{Sheet, read_sheet};
use std::process::Abort;
use test_scarce_memory::{HEAP, leave_hole};

/// The leaves of its tree are `/x/1`, `/x/2` and `/y`, so their order is not that of the wants.
const SHEET: &[u8] = b"limit / 5\nwant /x/1 9\nwant /y 9\nwant /x/2 9\n";

/// A text, its grants, and the node named for each.
type Row = (&'static [u8], &'static [u64], &'static [Option<u32>]);

static WHOLE: Row = (
    b"grant /x/1 2 /\n# a note\n\ngrant /y 1 /x/1\r\ngrant /x/2 3",
    &[2, 3, 1],
    &[Some(0), None, Some(2)],
);

/// Missing lines make short lists.
static SHORT: [Row; 2] = [
    (
        b"grant /x/1 2 /\ngrant /y 1 /x\n",
        &[2, 1],
        &[Some(0), Some(1)],
    ),
    (b"", &[], &[]),
];

/// Returns whether the grants have room; if they have, checks that they are those of the text.
fn have_room<'h>(
    rt: &impl Abort,
    heap: &'h LocalHeap,
    sheet: &Sheet<'_, &'h LocalHeap>,
    row: &Row,
) -> bool {
    match read_grants(heap, row.0, sheet) {
        Ok((grants, certificate)) => {
            holds(rt, grants.as_slice() == row.1);
            holds(rt, certificate.entries() == row.2);
            true
        }
        Err(fault) => {
            holds(rt, fault == GrantsFault::Memory);
            false
        }
    }
}

/// Returns whether the grants have room in one hole of `room` octets. Checks that they have it once there is memory.
fn have_room_in<'h>(
    rt: &(impl AllocGlobal + Abort),
    heap: &'h LocalHeap,
    sheet: &Sheet<'_, &'h LocalHeap>,
    room: usize,
) -> bool {
    let rest = leave_hole(rt, heap, room).expect(rt, "a hole");
    let first = have_room(rt, heap, sheet, &WHOLE);
    drop(rest);
    holds(rt, have_room(rt, heap, sheet, &WHOLE));
    first
}

/// Without room they are refused, and with enough they are taken.
fn expect_refusals<'h>(
    rt: &(impl AllocGlobal + Abort),
    heap: &'h LocalHeap,
    sheet: &Sheet<'_, &'h LocalHeap>,
) {
    for step in 0..64usize {
        let first = have_room_in(rt, heap, sheet, 16 * step);
        holds(rt, step > 0 || !first);
        holds(rt, step < 63 || first);
    }
    for row in &SHORT {
        holds(rt, have_room(rt, heap, sheet, row));
    }
}

#[test]
fn grants_stand_by_leaf(rt: HostRuntime) {
    let heap = LocalHeap::new(rt.alloc(), HEAP).expect(&rt, "a heap");
    let sheet = read_sheet(&heap, SHEET).expect(&rt, "a sheet");
    expect_refusals(&rt, &heap, &sheet);
}
