//! Parts of sheets that no clause covers: that the calls succeed, and the sheets of texts. Texts that are refused are
//! in `runs/faulty_sheets.toml`.

use crate::expect::holds;
use limit_tree::NodeKind;
use linked_list_allocator::LocalHeap;
use sheet_text::{Sheet, SheetFault, read_sheet, sheet_is_of_its_lines};
use std::alloc::Allocator;
use std::process::Abort;
use test_scarce_memory::{HEAP, leave_hole};

/// The nodes of a sheet, their leaves, and the leaves of its wants, in this order.
struct Made {
    nodes: &'static [(&'static str, NodeKind)],
    leaves: &'static [&'static str],
    wants: &'static [usize],
}

const OPEN: NodeKind = NodeKind::Branch { limit: None };

/// A limit before the lines beneath it, and wants in another order than their leaves.
const CROSSED: &[u8] =
    b"limit / 100\n# a comment\n\nlimit /bob 30\nwant /bob/x 10 5\nwant /ann/y 20\nwant /bob/z 7\r\n";

static OF_CROSSED: Made = Made {
    nodes: &[
        ("/", NodeKind::Branch { limit: Some(100) }),
        ("/bob", NodeKind::Branch { limit: Some(30) }),
        ("/bob/x", NodeKind::Leaf { want: 10, floor: 5 }),
        ("/bob/z", NodeKind::Leaf { want: 7, floor: 0 }),
        ("/ann", OPEN),
        ("/ann/y", NodeKind::Leaf { want: 20, floor: 0 }),
    ],
    leaves: &["/bob/x", "/bob/z", "/ann/y"],
    wants: &[0, 2, 1],
};

/// Branches that are only mentioned, and a limit after the lines beneath it.
const MENTIONED: &[u8] =
    b"want /d/e/f 3\nlimit /a/b 9\nwant /a/c 4 1\nlimit /d 7\nwant /a/b/g 2\nwant /d/h 1";

/// Kids are in order of first mention.
static OF_MENTIONED: Made = Made {
    nodes: &[
        ("/", OPEN),
        ("/d", NodeKind::Branch { limit: Some(7) }),
        ("/d/e", OPEN),
        ("/d/e/f", NodeKind::Leaf { want: 3, floor: 0 }),
        ("/d/h", NodeKind::Leaf { want: 1, floor: 0 }),
        ("/a", OPEN),
        ("/a/b", NodeKind::Branch { limit: Some(9) }),
        ("/a/b/g", NodeKind::Leaf { want: 2, floor: 0 }),
        ("/a/c", NodeKind::Leaf { want: 4, floor: 1 }),
    ],
    leaves: &["/d/e/f", "/d/h", "/a/b/g", "/a/c"],
    wants: &[0, 3, 2, 1],
};

/// With only remarks, the root remains.
static REMARKS: [&[u8]; 5] = [b"", b"\n", b"#", b"# limit / 1\n\r\n#\r\n\n", b"\r\n"];

static OF_REMARKS: Made = Made {
    nodes: &[("/", OPEN)],
    leaves: &[],
    wants: &[],
};

/// Lines may end in CR LF, or lack the last end.
static ENDED: [&[u8]; 4] = [
    b"limit / 8\nwant /a 5\n",
    b"limit / 8\nwant /a 5",
    b"limit / 8\r\nwant /a 5\r\n",
    b"limit / 8\r\n#\r\nwant /a 5",
];

static OF_ENDED: Made = Made {
    nodes: &[
        ("/", NodeKind::Branch { limit: Some(8) }),
        ("/a", NodeKind::Leaf { want: 5, floor: 0 }),
    ],
    leaves: &["/a"],
    wants: &[0],
};

/// Texts that are no path of a node of any of these sheets.
static NOWHERE: [&str; 6] = ["", "//", "bob", "/bob/", "/bo", "/bob/y"];

/// Checks that the sheet has these nodes and no others.
fn expect_nodes<A: Allocator>(rt: &impl Abort, sheet: &Sheet<'_, A>, nodes: &[(&str, NodeKind)]) {
    holds(rt, sheet.tree().nodes() == nodes.len());
    for (node, (path, kind)) in nodes.iter().enumerate() {
        holds(rt, node < sheet.tree().nodes() && sheet.path(node) == *path);
        holds(rt, sheet.tree().place(node).kind == *kind);
        holds(rt, sheet.node_of(path) == Some(node as u32));
    }
    for path in &NOWHERE {
        holds(rt, sheet.node_of(path).is_none());
    }
}

/// Checks that the sheet has these leaves and no others, and the wants are theirs in this order.
fn expect_leaves<A: Allocator>(
    rt: &impl Abort,
    sheet: &Sheet<'_, A>,
    paths: &[&str],
    wants: &[usize],
) {
    holds(rt, sheet.tree().leaves() == paths.len());
    for (leaf, path) in paths.iter().enumerate() {
        holds(
            rt,
            leaf < sheet.tree().leaves() && sheet.leaf_path(leaf) == *path,
        );
    }
    holds(rt, sheet.wants() == wants);
}

/// Returns whether the sheet of a text has room; if it has, checks that it is the expected one.
fn has_room<A: Allocator + Clone>(rt: &impl Abort, alloc: A, text: &[u8], made: &Made) -> bool {
    match read_sheet(alloc, text) {
        Ok(sheet) => {
            expect_nodes(rt, &sheet, made.nodes);
            expect_leaves(rt, &sheet, made.leaves, made.wants);
            true
        }
        Err(fault) => {
            holds(rt, fault == SheetFault::Memory);
            false
        }
    }
}

#[test]
fn texts_are_read(rt: HostRuntime) {
    sheet_is_of_its_lines();
    holds(&rt, has_room(&rt, rt.alloc(), CROSSED, &OF_CROSSED));
    holds(&rt, has_room(&rt, rt.alloc(), MENTIONED, &OF_MENTIONED));
    for text in &REMARKS {
        holds(&rt, has_room(&rt, rt.alloc(), text, &OF_REMARKS));
    }
    for text in &ENDED {
        holds(&rt, has_room(&rt, rt.alloc(), text, &OF_ENDED));
    }
}

/// Returns whether the sheet has room in one hole of `room` octets. Checks that it has it once there is memory.
fn has_room_in(rt: &(impl Abort + AllocGlobal), heap: &LocalHeap, room: usize) -> bool {
    let rest = leave_hole(rt, heap, room).expect(rt, "a hole");
    let first = has_room(rt, heap, CROSSED, &OF_CROSSED);
    drop(rest);
    holds(rt, has_room(rt, heap, CROSSED, &OF_CROSSED));
    first
}

#[test]
fn each_growth_may_be_refused(rt: HostRuntime) {
    let heap = LocalHeap::new(rt.alloc(), HEAP).expect(&rt, "a heap");
    for step in 0..256usize {
        let first = has_room_in(&rt, &heap, 16 * step);
        // Without room it is refused, and with enough it is read.
        holds(&rt, step > 0 || !first);
        holds(&rt, step < 255 || first);
    }
}
