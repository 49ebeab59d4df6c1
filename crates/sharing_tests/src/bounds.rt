//! Trees with the most leaves, levels and nodes allowed, and one more.

use super::allotting::granted;
use super::checking::total;
use super::limits::expect_fault;
use crate::expect::holds;
use grant_certificate::Certificate;
use limit_tree::{Flat, MAX_LEAVES, MAX_NODES, Node, Tree, TreeFault};
use std::process::Abort;

// A branch over one node.
fn over(rt: &(impl Abort + AllocGlobal), limit: Option<u64>, node: Node) -> Node {
    let mut kids = Vec::new(rt.alloc());
    kids.push(node).expect(rt, "memory");
    Node::Branch { limit, kids }
}

// A branch over `leaves` leaves that want the same number of octets each.
fn row(rt: &(impl Abort + AllocGlobal), limit: Option<u64>, leaves: usize, want: u64) -> Node {
    let mut kids = Vec::new(rt.alloc());
    for _ in 0..leaves {
        kids.push(Node::Leaf { want, floor: 0 })
            .expect(rt, "memory");
    }
    Node::Branch { limit, kids }
}

// A node below `branches` branches.
fn below(rt: &(impl Abort + AllocGlobal), branches: u32, node: Node) -> Node {
    let mut node = node;
    for _ in 0..branches {
        node = over(rt, None, node);
    }
    node
}

// A leaf below a branch with a limit of one octet, and beside it `branches` branches without kids.
fn wide(rt: &(impl Abort + AllocGlobal), branches: usize) -> Node {
    let mut kids = Vec::new(rt.alloc());
    let leaf = Node::Leaf { want: 2, floor: 0 };
    kids.push(over(rt, Some(1), leaf)).expect(rt, "memory");
    for _ in 0..branches {
        let none = Vec::new(rt.alloc());
        let limit = None;
        kids.push(Node::Branch { limit, kids: none })
            .expect(rt, "memory");
    }
    Node::Branch { limit: None, kids }
}

// The tree of nodes without a fault.
fn tree(rt: &impl Abort, root: Node) -> Tree {
    Tree::new(root).expect(rt, "a tree without a fault")
}

#[test]
fn one_more_is_refused(rt: HostRuntime) {
    let leaf = Node::Leaf { want: 1, floor: 0 };
    expect_fault(&rt, below(&rt, 16, leaf), None);
    let leaf = Node::Leaf { want: 1, floor: 0 };
    expect_fault(&rt, below(&rt, 17, leaf), Some(TreeFault::TooDeep));
    let leaves = row(&rt, None, MAX_LEAVES + 1, 1);
    expect_fault(&rt, leaves, Some(TreeFault::TooManyLeaves));
    let nodes = wide(&rt, MAX_NODES - 2);
    expect_fault(&rt, nodes, Some(TreeFault::TooManyLeaves));
}

// Checks that each call that allocates succeeds, and that the allotment is best. Returns the allotment.
fn expect_all(rt: &(impl Abort + AllocGlobal), tree: &Tree) -> (Vec<u64>, Certificate, u64) {
    let flat = Flat::of(rt.alloc(), tree).expect(rt, "memory");
    holds(
        rt,
        flat.nodes() == tree.nodes() && flat.leaves() == tree.leaves(),
    );
    granted(rt, tree)
}

#[test]
fn as_many_leaves_as_there_may_be(rt: HostRuntime) {
    let tree = tree(&rt, below(&rt, 15, row(&rt, None, MAX_LEAVES, 1)));
    holds(&rt, tree.leaves() == 4096 && tree.nodes() == 16 + 4096);
    holds(&rt, tree.place(16).depth == 16);
    let (grants, certificate, _probes) = expect_all(&rt, &tree);
    holds(&rt, total(&rt, tree, grants, certificate) == Ok(4096));
}

#[test]
fn as_many_nodes_as_there_may_be(rt: HostRuntime) {
    let tree = tree(&rt, wide(&rt, MAX_NODES - 3));
    holds(&rt, tree.nodes() == 4_194_304);
    expect_all(&rt, &tree);
}

// Checks that each leaf has one octet, and is limited by the one branch.
fn expect_ones(rt: &impl Abort, grants: &[u64], entries: &[Option<u32>]) {
    holds(rt, grants.len() == MAX_LEAVES);
    for grant in grants {
        holds(rt, *grant == 1);
    }
    for entry in entries {
        holds(rt, *entry == Some(0));
    }
}

#[test]
fn as_many_leaves_as_are_held_back(rt: HostRuntime) {
    let held_back = tree(&rt, row(&rt, Some(4096), MAX_LEAVES, 3));
    let (grants, certificate, _probes) = granted(&rt, &held_back);
    expect_ones(&rt, &grants, certificate.entries());
}
