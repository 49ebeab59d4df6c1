//! Trees for the tests, and their notation. A test stops if there is no memory for them.

use limit_tree::{Node, Tree};
use std::process::Abort;

/// The shape of nodes.
pub(crate) enum Shape {
    /// A want and a floor.
    Leaf(u64, u64),
    /// A limit, and the kids.
    Branch(Option<u64>, &'static [Shape]),
}

use Shape::{Branch, Leaf};

/// Three leaves that want 10 octets each under a limit of 10.
pub(crate) const THREE: Shape = Branch(Some(10), &[Leaf(10, 0), Leaf(10, 0), Leaf(10, 0)]);

const ANN: Shape = Branch(Some(30), &[Leaf(50, 0), Leaf(50, 0)]);

const BOB: Shape = Branch(None, &[Leaf(50, 0)]);

/// Ann has 30 of 75 and two transfers of 50; bob wants 50, and cy 10.
pub(crate) const USERS: Shape = Branch(Some(75), &[ANN, BOB, Branch(None, &[Leaf(10, 0)])]);

/// The same, with a guarantee of 6 octets for cy.
pub(crate) const PROMISED: Shape = Branch(Some(75), &[ANN, BOB, Branch(None, &[Leaf(10, 6)])]);

/// The nodes of a shape.
pub(crate) fn node(rt: &(impl Abort + AllocGlobal), shape: &Shape) -> Node {
    match shape {
        Leaf(want, floor) => Node::Leaf {
            want: *want,
            floor: *floor,
        },
        Branch(limit, shapes) => {
            let mut kids = Vec::new(rt.alloc());
            for shape in shapes.iter() {
                kids.push(node(rt, shape)).expect(rt, "memory");
            }
            let limit = *limit;
            Node::Branch { limit, kids }
        }
    }
}

/// The tree of a shape without a fault.
pub(crate) fn tree(rt: &(impl Abort + AllocGlobal), shape: &Shape) -> Tree {
    Tree::new(node(rt, shape)).expect(rt, "a tree without a fault")
}
