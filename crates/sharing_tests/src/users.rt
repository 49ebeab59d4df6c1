//! Grants among users: worked trees, and small random ones whose grants are compared with all possible grants.

use super::random_trees::{Made, Numbers, any_tree};
use super::small_trees::{List, SMALL, count_on, is_within, list_of, sorted};
use super::trees::Shape::{Branch, Leaf};
use super::trees::{Shape, tree};
use crate::expect::holds;
use grant_certificate::check_by_users;
use limit_tree::{Flat, MAX_WANT, NodeKind, Tree};
use std::process::Abort;
use user_shares::{UserShareFault, allot_by_users, owners_of};

/// The line in which ann has one transfer and paul has three.
const ONE_AND_THREE: [Shape; 2] = [
    Branch(None, &[Leaf(100, 0)]),
    Branch(None, &[Leaf(100, 0), Leaf(100, 0), Leaf(100, 0)]),
];

/// Bob's two transfers and cy's one, in a group that has 12 octets; ann's two, of which one is in a session that has 4;
/// and dan's, which is guaranteed 11.
const OFFICE: Shape = Branch(
    Some(30),
    &[
        Branch(
            Some(12),
            &[
                Branch(None, &[Leaf(50, 0), Leaf(50, 0)]),
                Branch(None, &[Leaf(50, 0)]),
            ],
        ),
        Branch(None, &[Branch(Some(4), &[Leaf(50, 0)]), Leaf(50, 0)]),
        Branch(None, &[Leaf(50, 11)]),
    ],
);

/// Bob, cy, ann and dan with a transfer each: bob and cy in a group that has 13 octets, ann with 4, dan with a guarantee.
const ONE_EACH: Shape = Branch(
    Some(30),
    &[
        Branch(
            Some(13),
            &[Branch(None, &[Leaf(50, 0)]), Branch(None, &[Leaf(50, 0)])],
        ),
        Branch(Some(4), &[Leaf(50, 0)]),
        Branch(None, &[Leaf(50, 11)]),
    ],
);

/// A tree, the users' branches, the users of its leaves, and the grants. Worked by hand: the users' totals first, least
/// first, and then each user's leaves; what is left over goes to the first that may have it.
static SHARED: [(Shape, &[u32], &[u32], &[u64]); 7] = [
    (
        Branch(Some(12), &ONE_AND_THREE),
        &[1, 3],
        &[0, 1, 1, 1],
        &[6, 2, 2, 2],
    ),
    (
        Branch(Some(13), &ONE_AND_THREE),
        &[1, 3],
        &[0, 1, 1, 1],
        &[7, 2, 2, 2],
    ),
    // All are one user: the leaves share as without users.
    (
        Branch(Some(13), &ONE_AND_THREE),
        &[0],
        &[0, 0, 0, 0],
        &[4, 3, 3, 3],
    ),
    // Bob and cy have 6 each, which the group has; ann has the 7 that are left, dan what is guaranteed.
    (
        OFFICE,
        &[2, 5, 7, 11],
        &[0, 0, 1, 2, 2, 3],
        &[3, 3, 6, 4, 3, 11],
    ),
    // Of the group as one user nobody has 12: the line has 19 for it and ann.
    (
        OFFICE,
        &[1, 7, 11],
        &[0, 0, 0, 1, 1, 2],
        &[4, 3, 3, 4, 5, 11],
    ),
    // One leaf each: bob has the group's odd octet, and dan what the line has left.
    (ONE_EACH, &[2, 4, 6, 8], &[0, 1, 2, 3], &[7, 6, 4, 13]),
    // Everything fits.
    (
        Branch(Some(400), &ONE_AND_THREE),
        &[1, 3],
        &[0, 1, 1, 1],
        &[100, 100, 100, 100],
    ),
];

#[test]
fn worked_users(rt: HostRuntime) {
    for (shape, users, owners, grants) in &SHARED {
        let tree = tree(&rt, shape);
        let flat = Flat::of(rt.alloc(), &tree).expect(&rt, "memory");
        let found = owners_of(rt.alloc(), &flat, users).expect(&rt, "memory");
        let found = found.expect(&rt, "users in a row");
        holds(&rt, found.as_slice() == *owners);
        let (shared, certificate) = allot_by_users(rt.alloc(), &tree, users, &found).expect(
            &rt,
            "a user wants no more than a leaf may",
        );
        holds(&rt, shared.as_slice() == *grants);
        holds(&rt, check_by_users(&tree, &found, grants, &certificate));
    }
}

/// Nodes that are not the branches of users in a row.
static NO_USERS: [&[u32]; 7] = [
    // no users; a leaf is left over
    &[],
    &[1],
    // the leaves of one are among another's
    &[0, 3],
    &[1, 1, 3],
    // not in the order of their leaves
    &[3, 1],
    // a leaf; no node
    &[2, 3],
    &[1, 7],
];

static TWELVE: Shape = Branch(Some(12), &ONE_AND_THREE);

#[test]
fn no_users_in_a_row(rt: HostRuntime) {
    let tree = tree(&rt, &TWELVE);
    let flat = Flat::of(rt.alloc(), &tree).expect(&rt, "memory");
    for users in &NO_USERS {
        let found = owners_of(rt.alloc(), &flat, users).expect(&rt, "memory");
        holds(&rt, found.is_none());
    }
}

/// The second user can have more than a leaf may want.
static TOO_MUCH: Shape = Branch(
    None,
    &[
        Branch(None, &[Leaf(1, 0)]),
        Branch(None, &[Leaf(MAX_WANT, 0), Leaf(1, 0)]),
    ],
);

#[test]
fn a_user_that_wants_too_much(rt: HostRuntime) {
    let tree = tree(&rt, &TOO_MUCH);
    let flat = Flat::of(rt.alloc(), &tree).expect(&rt, "memory");
    let owners = owners_of(rt.alloc(), &flat, &[1, 3]).expect(&rt, "memory");
    let owners = owners.expect(&rt, "users in a row");
    match allot_by_users(rt.alloc(), &tree, &[1, 3], &owners) {
        Err(fault) => holds(&rt, fault == UserShareFault::WantTooLarge { user: 1 }),
        Ok(_) => holds(&rt, false),
    }
}

// The branches of users in a row, some of them above others' branches; none if a leaf is below no branch that may be
// a user's.
fn any_users(rt: &(impl Abort + AllocGlobal), numbers: &mut Numbers, flat: &Flat) -> Vec<u32> {
    let mut users = Vec::new(rt.alloc());
    let mut past = 0;
    for node in 0..flat.nodes() {
        let place = flat.place(node);
        let is_branch = match place.kind {
            NodeKind::Branch { .. } => place.leaves > 0,
            NodeKind::Leaf { .. } => false,
        };
        if node > 0 && past <= node && is_branch && numbers.below(4) > 0 {
            let number = u32::try_from(node).expect(rt, "few nodes");
            users.push(number).expect(rt, "memory");
            past = node.saturating_add(place.nodes);
        }
    }
    users
}

// The totals of users, sorted upwards, followed by those of no user.
fn totals(list: &List, owners: &[u32]) -> List {
    let mut totals = [0; 5];
    for (grant, owner) in list.iter().zip(owners) {
        if let Some(total) = totals.get_mut(*owner as usize) {
            *total = grant.saturating_add(*total);
        }
    }
    totals
}

// Returns whether the list has greater totals than a known one, sorted upwards and without those of no user; or the same
// total for each user, and is greater itself.
fn surpasses(list: &List, known: &List, owners: &[u32], users: usize) -> bool {
    let (new, old) = (totals(list, owners), totals(known, owners));
    let none = 5usize.saturating_sub(users);
    let (rich, poor) = (sorted(new), sorted(old));
    let greater = match (rich.get(none..), poor.get(none..)) {
        (Some(rich), Some(poor)) => rich > poor,
        _ => false,
    };
    greater || (new == old && sorted(*list) > sorted(*known))
}

// Returns whether some list within the limits surpasses a known one. The lists are counted from zeros.
fn is_surpassed(made: &Made, known: &List, owners: &[u32], users: usize) -> bool {
    let mut list = [0; 5];
    let leaves = made.wants.len().min(5);
    for _ in 0..3_125u32 {
        if is_within(made, &list[..leaves]) && surpasses(&list, known, owners, users) {
            return true;
        }
        if !count_on(&mut list, &made.wants) {
            return false;
        }
    }
    false
}

// Compares the grants of a random tree among random users with all lists. Returns whether it has two users or more.
fn expect_fairest(rt: &(impl Abort + AllocGlobal), numbers: &mut Numbers) -> bool {
    let (root, made) = any_tree(rt, numbers, &SMALL);
    let Ok(tree) = Tree::new(root) else {
        return false;
    };
    let flat = Flat::of(rt.alloc(), &tree).expect(rt, "memory");
    let users = any_users(rt, numbers, &flat);
    let Some(owners) = owners_of(rt.alloc(), &flat, &users).expect(rt, "memory") else {
        return false;
    };
    let (grants, certificate) = allot_by_users(rt.alloc(), &tree, &users, &owners).expect(
        rt,
        "small wants",
    );
    holds(rt, is_within(&made, &grants));
    holds(rt, check_by_users(&tree, &owners, &grants, &certificate));
    let known = list_of(&grants);
    holds(rt, !is_surpassed(&made, &known, &owners, users.len()));
    users.len() > 1
}

#[test]
fn no_other_totals_are_greater(rt: HostRuntime) {
    let mut numbers = Numbers { state: 1868 };
    let mut trees = 0u32;
    for _ in 0..3_000u32 {
        if expect_fairest(&rt, &mut numbers) {
            trees = trees.saturating_add(1);
        }
    }
    holds(&rt, trees >= 40);
}
