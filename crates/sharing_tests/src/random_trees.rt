//! Random trees, with a record of their parts.

ghost use Rattle.std.specs.Prelude.{◌<◌};

use limit_tree::Node;
use std::process::Abort;

/// A sequence of pseudo-random numbers (D. Knuth's multiplier for 64 bits).
#[derive(Drop)]
pub(crate) struct Numbers {
    pub state: u64,
}

impl Numbers {
    /// A number below `end`, which is not 0.
    pub fn below(&mut self, end: u64) -> u64
        requires end { 0 < end }
        ensures below { result < end }
    {
        self.state = self
            .state
            .wrapping_mul(6_364_136_223_846_793_005)
            .wrapping_add(1_442_695_040_888_963_407);
        (self.state >> 33) % end
    }
}

/// Bounds of random trees.
#[derive(Drop)]
pub(crate) struct Sizes {
    /// Wants are below this.
    pub wants: u64,
    /// Limits are below this.
    pub limits: u64,
    /// A tree with this many leaves gets no more.
    pub leaves: usize,
    /// At most this many levels are below the root.
    pub levels: u32,
}

/// A limit, with the first and the end of the leaves that it holds.
#[derive(Drop)]
pub(crate) struct Held {
    pub first: usize,
    pub end: usize,
    pub limit: u64,
}

/// The record of a tree: the wants and floors of its leaves in order, and its limits.
#[derive(Drop)]
pub(crate) struct Made {
    pub wants: Vec<u64>,
    pub floors: Vec<u64>,
    pub limits: Vec<Held>,
}

// A leaf; the floors of some are not 0.
fn any_leaf(rt: &impl Abort, numbers: &mut Numbers, sizes: &Sizes, made: &mut Made) -> Node
    requires wants { 0 < sizes.now.wants }
{
    let want = numbers.below(sizes.wants);
    let floor = if numbers.below(3) == 0 {
        numbers.below(want + 1).min(5)
    } else {
        0
    };
    made.wants.push(want).expect(rt, "memory");
    made.floors.push(floor).expect(rt, "memory");
    Node::Leaf { want, floor }
}

// A node with at most `levels` levels below it.
fn any_node(
    rt: &(impl Abort + AllocGlobal),
    numbers: &mut Numbers,
    sizes: &Sizes,
    made: &mut Made,
    levels: u32,
) -> Node
    requires wants { 0 < sizes.now.wants }
    requires limits { 0 < sizes.now.limits }
{
    if levels == 0 || numbers.below(4) == 0 {
        return any_leaf(rt, numbers, sizes, made);
    }
    let first = made.wants.len();
    let limit = match numbers.below(8) {
        0 => None,
        1 => Some(0),
        _ => Some(numbers.below(sizes.limits)),
    };
    let mut kids = Vec::new(rt.alloc());
    for _ in 0..numbers.below(5) {
        if made.wants.len() < sizes.leaves {
            let kid = any_node(rt, numbers, sizes, made, levels - 1);
            kids.push(kid).expect(rt, "memory");
        }
    }
    if let Some(limit) = limit {
        let end = made.wants.len();
        made.limits
            .push(Held { first, end, limit })
            .expect(rt, "memory");
    }
    Node::Branch { limit, kids }
}

/// The root of a tree, and its record.
pub(crate) fn any_tree(
    rt: &(impl Abort + AllocGlobal),
    numbers: &mut Numbers,
    sizes: &Sizes,
) -> (Node, Made)
    requires wants { 0 < sizes.now.wants }
    requires limits { 0 < sizes.now.limits }
{
    let mut made = Made {
        wants: Vec::new(rt.alloc()),
        floors: Vec::new(rt.alloc()),
        limits: Vec::new(rt.alloc()),
    };
    let root = any_node(rt, numbers, sizes, &mut made, sizes.levels);
    (root, made)
}
