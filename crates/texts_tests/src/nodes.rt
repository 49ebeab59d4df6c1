//! Parts of the nodes of a sheet that no clause covers: that the calls succeed, and the results of lines.

ghost use Rattle.sheet_text.specs.Paths.{IsPathText};

use crate::expect::holds;
use limit_tree::{Tree, TreeFault};
use sheet_text::{Nodes, SheetFault, name_len, read_entry, tree_is_of_lines};
use std::alloc::{Allocator, Global};
use std::process::Abort;

/// A line of a sheet, and its fault after those before it.
pub(crate) type Line = (&'static [u8], Option<SheetFault>);

/// The nodes that these lines mention.
pub(crate) fn nodes_of<A: Allocator + Clone>(
    rt: &impl Abort,
    alloc: A,
    lines: &[Line],
) -> Nodes<'static, A> {
    let mut nodes = Nodes::new(alloc).expect(rt, "memory");
    for (at, (line, fault)) in lines.iter().enumerate() {
        let entry = read_entry(line).expect(rt, "an entry");
        let taken = nodes.take(at + 1, entry.path, entry.kind);
        holds(rt, taken.err() == *fault);
    }
    nodes
}

static LINES: [Line; 8] = [
    (b"want /a/b 5 1", None),
    (b"limit / 9", None),
    (b"limit / 9", Some(SheetFault::Twice(3))),
    (b"want /a/b/c 1", Some(SheetFault::LeafHasKids(4))),
    (b"want /a 1", Some(SheetFault::LeafHasKids(5))),
    (
        b"limit /1/2/3/4/5/6/7/8/9/10/11/12/13/14/15/16/17 9",
        Some(SheetFault::Tree(6, TreeFault::TooDeep)),
    ),
    (
        b"want /d/e 1 2",
        Some(SheetFault::Tree(7, TreeFault::FloorTooLarge)),
    ),
    (b"limit /a/c 9", None),
];

/// The paths that these lines mention, in that order: a line with a fault mentions nothing.
static PATHS: [&str; 4] = ["", "/a", "/a/b", "/a/c"];

/// Checks the place of a path. Its text may live shorter than those of the nodes.
fn expect_place(rt: &impl Abort, nodes: &Nodes<'_, Global>, path: &str, wanted: Option<usize>)
    requires text { IsPathText path.now }
{
    holds(rt, nodes.place(path) == wanted);
}

fn expect_paths(rt: &impl Abort, nodes: &Nodes<'_, Global>) {
    holds(rt, nodes.len() == PATHS.len());
    for (place, path) in PATHS.iter().enumerate() {
        holds(rt, place < nodes.len() && nodes.path(place) == *path);
    }
    expect_place(rt, nodes, "", Some(0));
    expect_place(rt, nodes, "/a/c", Some(3));
    expect_place(rt, nodes, "/a/b/c", None);
    expect_place(rt, nodes, "/d", None);
}

/// Lines whose tree has its nodes in another order than that of their first mention.
static CROSSED: [Line; 3] = [
    (b"want /b/x 5 1", None),
    (b"limit /a 9", None),
    (b"want /b/w 3", None),
];

fn expect_kids(rt: &(impl Abort + AllocGlobal), nodes: &Nodes<'_, Global>) {
    let rows = nodes.kids(rt.alloc()).expect(rt, "memory");
    holds(rt, nodes.len() == 5 && rows.len() == 5);
    holds(rt, rows[0].as_slice() == [1, 3].as_slice());
    holds(rt, rows[1].as_slice() == [2, 4].as_slice());
    holds(rt, nodes.parent(4) == 1);
}

/// Checks the tree, and the whole tree, of the crossed lines.
fn expect_tree(rt: &impl Abort, tree: &Tree, order: &[usize]) {
    holds(rt, order == [0, 1, 2, 4, 3].as_slice());
    holds(rt, tree.nodes() == 5 && tree.leaves() == 2);
    holds(rt, tree.want(1) == 3);
}

fn expect_trees(rt: &(impl Abort + AllocGlobal), nodes: &Nodes<'_, Global>) {
    let mut order = Vec::new(rt.alloc());
    let root = nodes.tree(&mut order).expect(rt, "memory");
    let tree = Tree::new(root).expect(rt, "a tree");
    expect_tree(rt, &tree, order.as_slice());
    order.clear();
    let whole = nodes.whole_tree(&mut order).expect(rt, "a whole tree");
    expect_tree(rt, &whole, order.as_slice());
}

/// Lines whose last limit is below the floors beneath it: that of the node 1, which line 3 states.
static CROWDED: [Line; 3] = [
    (b"want /a/b 5 4", None),
    (b"limit / 9", None),
    (b"limit /a 3", None),
];

fn whole_fault(rt: &impl AllocGlobal, nodes: &Nodes<'_, Global>) -> Option<SheetFault> {
    let mut order = Vec::new(rt.alloc());
    nodes.whole_tree(&mut order).err()
}

#[test]
fn lines_are_taken(rt: HostRuntime) {
    tree_is_of_lines();
    expect_paths(&rt, &nodes_of(&rt, rt.alloc(), &LINES));
    let crowded = SheetFault::Tree(3, TreeFault::FloorsOverLimit(1));
    let fault = whole_fault(&rt, &nodes_of(&rt, rt.alloc(), &CROWDED));
    holds(&rt, fault == Some(crowded));
}

#[test]
fn nodes_have_a_tree(rt: HostRuntime) {
    let nodes = nodes_of(&rt, rt.alloc(), &CROSSED);
    expect_kids(&rt, &nodes);
    expect_trees(&rt, &nodes);
}

#[test]
fn a_name_ends_at_a_slash(rt: HostRuntime) {
    holds(&rt, name_len(b"ab/c") == 2);
    holds(&rt, name_len(b"ab") == 2);
}
