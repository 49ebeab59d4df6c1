//! Users by a depth: worked trees, the users of their leaves, and grants that are best among them.

use super::trees::Shape::{Branch, Leaf};
use super::trees::{Shape, tree};
use crate::expect::holds;
use depth_users::{allot_at, owners_at};
use limit_tree::MAX_WANT;

/// Ann's transfer, which is no branch, and the three of paul.
const LEAF_AND_THREE: [Shape; 2] = [
    Leaf(100, 0),
    Branch(None, &[Leaf(100, 0), Leaf(100, 0), Leaf(100, 0)]),
];

/// Bob's two transfers and cy's one, in a group that has 12 octets; ann's two, of which one is in a session that has 4;
/// and dan's, which is guaranteed 11.
const OFFICE: Shape = Branch(
    Some(30),
    &[
        Branch(
            Some(12),
            &[
                Branch(None, &[Leaf(50, 0), Leaf(50, 0)]),
                Branch(None, &[Leaf(50, 0)]),
            ],
        ),
        Branch(None, &[Branch(Some(4), &[Leaf(50, 0)]), Leaf(50, 0)]),
        Branch(None, &[Leaf(50, 11)]),
    ],
);

/// Wants of all that there may be: two of one user, and one that is above users.
const ALL_THERE_IS: [Shape; 2] = [
    Branch(None, &[Leaf(MAX_WANT, 0), Leaf(MAX_WANT, 0)]),
    Leaf(MAX_WANT, 0),
];

/// A tree, a depth, the users of its leaves, and the grants. Worked by hand: the users' totals first, least first, and
/// then each user's leaves; what is left over goes to the first that may have it.
static SHARED: [(Shape, usize, &[u32], &[u64]); 9] = [
    // The root is the one user.
    (
        Branch(Some(13), &LEAF_AND_THREE),
        0,
        &[0, 0, 0, 0],
        &[4, 3, 3, 3],
    ),
    // Ann's transfer is a user itself.
    (
        Branch(Some(12), &LEAF_AND_THREE),
        1,
        &[1, 2, 2, 2],
        &[6, 2, 2, 2],
    ),
    // Each leaf is a user.
    (
        Branch(Some(13), &LEAF_AND_THREE),
        2,
        &[1, 3, 4, 5],
        &[4, 3, 3, 3],
    ),
    (
        Branch(Some(13), &LEAF_AND_THREE),
        16,
        &[1, 3, 4, 5],
        &[4, 3, 3, 3],
    ),
    // The group is one user: the line has 19 for it and ann.
    (OFFICE, 1, &[1, 1, 1, 7, 7, 11], &[4, 3, 3, 4, 5, 11]),
    // Bob, cy, and each session: dan has what is guaranteed, ann's first session 4, and the others 5 each.
    (OFFICE, 2, &[2, 2, 5, 8, 10, 12], &[3, 2, 5, 4, 5, 11]),
    // Deeper than the tree: each leaf is a user.
    (OFFICE, 9, &[3, 4, 6, 9, 10, 12], &[4, 4, 4, 4, 3, 11]),
    // A user can have no more than the limits above it let through.
    (Branch(Some(12), &ALL_THERE_IS), 1, &[1, 1, 4], &[3, 3, 6]),
    // Everything fits.
    (
        Branch(None, &ALL_THERE_IS),
        1,
        &[1, 1, 4],
        &[MAX_WANT, MAX_WANT, MAX_WANT],
    ),
];

#[test]
fn worked_depths(rt: HostRuntime) {
    for (shape, depth, owners, grants) in &SHARED {
        let tree = tree(&rt, shape);
        let found = owners_at(rt.alloc(), &tree, *depth).expect(&rt, "memory");
        holds(&rt, found.as_slice() == *owners);
        let (shared, _) = allot_at(rt.alloc(), &tree, *depth).expect(&rt, "grants");
        holds(&rt, shared.as_slice() == *grants);
    }
}
