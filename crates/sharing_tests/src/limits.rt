//! One happy path of each call, and each refusal of a tree.

ghost use Rattle.std.specs.Prelude.{◌≡◌};
ghost use Rattle.limit_tree.specs.Sharing.{IsWanted};
ghost use Rattle.limit_tree.specs.Outline.{limits};

use super::trees::Shape::{Branch, Leaf};
use super::trees::{PROMISED, Shape, node, tree};
use crate::expect::holds;
use grant_certificate::{
    Leaves, backed_is_best, backed_is_largest_at_each_level, each_has_ascending, equals_are_near,
    plain_backed_is_best, plain_backed_is_largest_at_each_level,
};
use limit_tree::{
    Flat, MAX_LIMIT, MAX_WANT, Node, NodeKind, Place, Tree, TreeFault, absorbed_is_taken_in,
    no_floors_is_plain,
};
use round_allocator::allot;
use std::process::Abort;
use test_allotment::runs_end_alike;

/// A node of a tree: its position, whether the leaves 1 and 2 are under it, what it absorbs up to the levels 0, 12 and
/// 20, what its kids absorb up to 12 and 20, the sum of the best grants under it, and whether they reach its limit.
struct Row {
    place: Place,
    under: (bool, bool),
    absorbed: (u64, u64, u64),
    below: (u64, u64),
    sum: u64,
    is_full: bool,
}

const LEAF: Place = Place {
    depth: 2,
    first: 0,
    leaves: 1,
    nodes: 1,
    kids: 0,
    floors: 0,
    kind: NodeKind::Leaf { want: 50, floor: 0 },
};

const USER: Place = Place {
    depth: 1,
    first: 2,
    leaves: 1,
    nodes: 2,
    kids: 1,
    floors: 0,
    kind: NodeKind::Branch { limit: None },
};

const ANN: Place = Place {
    first: 0,
    leaves: 2,
    nodes: 3,
    kids: 2,
    kind: NodeKind::Branch { limit: Some(30) },
    ..USER
};

const ROOT: Place = Place {
    depth: 0,
    first: 0,
    leaves: 4,
    nodes: 8,
    kids: 3,
    floors: 6,
    kind: NodeKind::Branch { limit: Some(75) },
};

/// The nodes of ann, bob and cy, who has a guarantee of 6 octets.
static NODES: [Row; 8] = [
    Row {
        place: ROOT,
        under: (true, true),
        absorbed: (6, 46, 60),
        below: (46, 60),
        sum: 75,
        is_full: true,
    },
    Row {
        place: ANN,
        under: (true, false),
        absorbed: (0, 24, 30),
        below: (24, 40),
        sum: 30,
        is_full: true,
    },
    Row {
        place: LEAF,
        under: (false, false),
        absorbed: (0, 12, 20),
        below: (0, 0),
        sum: 15,
        is_full: false,
    },
    Row {
        place: Place { first: 1, ..LEAF },
        under: (true, false),
        absorbed: (0, 12, 20),
        below: (0, 0),
        sum: 15,
        is_full: false,
    },
    Row {
        place: USER,
        under: (false, true),
        absorbed: (0, 12, 20),
        below: (12, 20),
        sum: 35,
        is_full: false,
    },
    Row {
        place: Place { first: 2, ..LEAF },
        under: (false, true),
        absorbed: (0, 12, 20),
        below: (0, 0),
        sum: 35,
        is_full: false,
    },
    Row {
        place: Place {
            first: 3,
            floors: 6,
            ..USER
        },
        under: (false, false),
        absorbed: (6, 10, 10),
        below: (10, 10),
        sum: 10,
        is_full: false,
    },
    Row {
        place: Place {
            first: 3,
            floors: 6,
            kind: NodeKind::Leaf { want: 10, floor: 6 },
            ..LEAF
        },
        under: (false, false),
        absorbed: (6, 10, 10),
        below: (0, 0),
        sum: 10,
        is_full: false,
    },
];

fn limit_of(kind: NodeKind) -> Option<u64> {
    match kind {
        NodeKind::Branch { limit } => limit,
        NodeKind::Leaf { .. } => None,
    }
}

fn look_at_node(rt: &impl Abort, tree: &Tree, node: usize, row: &Row) {
    holds(rt, node < tree.nodes() && tree.place(node) == row.place);
    holds(rt, tree.limit(node) == limit_of(row.place.kind));
    holds(rt, tree.is_branch(node) == (row.place.kids > 0));
    let (first, second) = row.under;
    holds(rt, tree.under(node, 1) == first);
    holds(rt, tree.under(node, 2) == second);
    let (none, twelve, twenty) = row.absorbed;
    holds(rt, tree.absorb(node, 0) == none);
    holds(rt, tree.absorb(node, 12) == twelve);
    holds(rt, tree.absorb(node, 20) == twenty);
}

// Checks that the flat copy returns the same.
fn look_at_copy(rt: &impl Abort, flat: &Flat, node: usize, row: &Row) {
    holds(rt, node < flat.nodes() && flat.place(node) == row.place);
    holds(rt, flat.limit(node) == limit_of(row.place.kind));
    let (first, second) = row.under;
    holds(rt, flat.under(node, 1) == first);
    holds(rt, flat.under(node, 2) == second);
    let (_none, twelve, twenty) = row.absorbed;
    holds(rt, flat.absorb(node, 12) == twelve);
    holds(rt, flat.absorb(node, 20) == twenty);
    let (twelve, twenty) = row.below;
    holds(rt, flat.absorb_below(node, 12) == twelve);
    holds(rt, flat.absorb_below(node, 20) == twenty);
}

/// Wants and floors of leaves, and the deepest branch above each that the best grants fill.
static LEAVES: [(u64, u64, Option<usize>); 4] = [
    (50, 0, Some(1)),
    (50, 0, Some(1)),
    (50, 0, Some(0)),
    (10, 6, Some(0)),
];

fn look_at_leaves(rt: &impl Abort, tree: &Tree, flat: &Flat, leaves: &Leaves) {
    holds(rt, tree.leaves() == 4 && flat.leaves() == 4);
    let (wants, floors) = (leaves.wants(), leaves.floors());
    holds(rt, wants.len() == 4 && floors.len() == 4);
    for (leaf, (want, floor, _full)) in LEAVES.iter().enumerate() {
        holds(rt, leaf < tree.leaves() && leaf < flat.leaves());
        holds(rt, tree.want(leaf) == *want && tree.floor(leaf) == *floor);
        holds(rt, flat.want(leaf) == *want && flat.floor(leaf) == *floor);
        holds(rt, leaf < wants.len() && wants[leaf] == *want);
        holds(rt, leaf < floors.len() && floors[leaf] == *floor);
    }
}

// Checks that numbers after those of the leaves are unchanged.
fn look_at_tables(rt: &impl Abort, tree: &Tree) {
    let mut wants = [7; 5];
    let mut floors = [7; 5];
    holds(rt, tree.leaves() == 4);
    tree.leaves_into(&mut wants, &mut floors);
    holds(rt, wants.as_slice() == [50, 50, 50, 10, 7].as_slice());
    holds(rt, floors.as_slice() == [0, 0, 0, 6, 7].as_slice());
}

// Checks the grants in the tree and in its flat copy.
fn look_at_grants(rt: &impl Abort, tree: &Tree, flat: &Flat, grants: &[u64])
    requires same { flat.now ≡ tree.now }
    requires wanted { IsWanted (limits tree.now) grants.now }
{
    holds(rt, grants == [15, 15, 35, 10].as_slice());
    for (node, row) in NODES.iter().enumerate() {
        holds(rt, node < tree.nodes() && node < flat.nodes());
        holds(rt, tree.sum_under(node, grants) == row.sum);
        holds(rt, tree.is_full(node, grants) == row.is_full);
        holds(rt, flat.is_full(node, grants) == row.is_full);
    }
    for (leaf, (_want, _floor, full)) in LEAVES.iter().enumerate() {
        holds(
            rt,
            leaf < tree.leaves() && tree.full_above(leaf, grants) == *full,
        );
    }
}

fn look_at_nodes(rt: &impl Abort, tree: &Tree, flat: &Flat) {
    holds(rt, tree.nodes() == 8 && flat.nodes() == 8);
    for (node, row) in NODES.iter().enumerate() {
        look_at_node(rt, tree, node, row);
        look_at_copy(rt, flat, node, row);
    }
}

fn look_at_all(rt: &(impl Abort + AllocGlobal), tree: &Tree, flat: &Flat)
    requires same { flat.now ≡ tree.now }
{
    look_at_nodes(rt, tree, flat);
    look_at_leaves(rt, tree, flat, &Leaves::of(tree));
    look_at_tables(rt, tree);
    let (grants, _certificate) = allot(rt.alloc(), tree).expect(rt, "memory");
    look_at_grants(rt, tree, flat, &grants);
}

#[test]
fn reports_of_nodes_leaves_and_grants(rt: HostRuntime) {
    let tree = tree(&rt, &PROMISED);
    let flat = Flat::of(rt.alloc(), &tree).expect(&rt, "memory");
    look_at_all(&rt, &tree, &flat);
}

const TWO_LIMITS: Shape = Branch(
    Some(10),
    &[
        Leaf(5, 2),
        Branch(Some(4), &[Leaf(3, 3), Leaf(7, 0)]),
        Leaf(9, 1),
    ],
);

/// A node, a level, and what it absorbs.
static TAKEN_IN: [(usize, u64, u64); 9] = [
    // The floors,
    (0, 0, 6),
    (2, 0, 3),
    (4, 0, 0),
    // a level that the inner branch cuts,
    (0, 1, 7),
    (2, 1, 4),
    (1, 1, 2),
    // and one that the root cuts.
    (0, 9, 10),
    (2, 9, 4),
    (5, 9, 9),
];

fn expect_taken_in(rt: &impl Abort, tree: &Tree) {
    holds(rt, tree.nodes() == 6);
    for (node, level, octets) in &TAKEN_IN {
        holds(
            rt,
            *node < tree.nodes() && tree.absorb(*node, *level) == *octets,
        );
    }
}

#[test]
fn takes_in_up_to_a_level(rt: HostRuntime) {
    expect_taken_in(&rt, &tree(&rt, &TWO_LIMITS));
}

#[test]
fn a_place_holds_its_leaves(rt: HostRuntime) {
    let ann = Place {
        depth: 1,
        first: 1,
        leaves: 2,
        nodes: 3,
        kids: 2,
        floors: 0,
        kind: NodeKind::Branch { limit: Some(30) },
    };
    holds(
        &rt,
        ann.holds(1) && ann.holds(2) && !ann.holds(0) && !ann.holds(3),
    );
    holds(&rt, ann.sum(&[7, 20, 10, 6]) == 30);
    holds(&rt, ann.is_full(&[7, 20, 10, 6]));
    holds(&rt, !ann.is_full(&[7, 20, 9, 6]));
}

/// Checks that nodes are refused as a tree for this fault, or accepted if there is none.
pub(crate) fn expect_fault(rt: &impl Abort, root: Node, fault: Option<TreeFault>) {
    holds(rt, Tree::new(root).err() == fault);
}

const CROWDED: Shape = Branch(Some(5), &[Leaf(9, 6)]);

static FAULTS: [(Shape, Option<TreeFault>); 8] = [
    (Leaf(MAX_WANT, 0), None),
    (Leaf(MAX_WANT + 1, 0), Some(TreeFault::WantTooLarge)),
    (Leaf(5, 6), Some(TreeFault::FloorTooLarge)),
    (Branch(Some(MAX_LIMIT), &[]), None),
    (
        Branch(Some(MAX_LIMIT + 1), &[]),
        Some(TreeFault::LimitTooLarge),
    ),
    // The first fault in preorder decides, and floors come last.
    (
        Branch(None, &[Leaf(1, 0), CROWDED]),
        Some(TreeFault::FloorsOverLimit(2)),
    ),
    (
        Branch(Some(MAX_LIMIT + 1), &[CROWDED, Leaf(MAX_WANT + 1, 0)]),
        Some(TreeFault::LimitTooLarge),
    ),
    (
        Branch(None, &[CROWDED, Leaf(MAX_WANT + 1, 0)]),
        Some(TreeFault::WantTooLarge),
    ),
];

#[test]
fn faults_of_trees(rt: HostRuntime) {
    for (shape, fault) in &FAULTS {
        expect_fault(&rt, node(&rt, shape), *fault);
    }
}

#[test]
fn laws_stand(_rt: HostRuntime) {
    no_floors_is_plain();
    absorbed_is_taken_in();
    backed_is_largest_at_each_level();
    backed_is_best();
    each_has_ascending();
    equals_are_near();
    plain_backed_is_largest_at_each_level();
    plain_backed_is_best();
    runs_end_alike();
}
