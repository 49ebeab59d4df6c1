//! The worked allotments, and those of random trees compared with the plain rule.

ghost use Rattle.std.specs.Prelude.{◌≡◌, ◌<◌};

use super::random_trees::{Numbers, Sizes, any_tree};
use super::trees::Shape::{Branch, Leaf};
use super::trees::{Shape, tree};
use crate::expect::holds;
use grant_certificate::{Certificate, Verdict, check};
use limit_tree::{MAX_WANT, Tree};
use round_allocator::{Steps, allot, allot_counted};
use std::marker::Brand;
use std::process::Abort;
use std::sync::ledger::{Blank, Ledger};
use test_allotment::allot_plainly;

// Grants with their certificate, and the number of probes, which is that of a new counter.
fn counted<L: Ledger, R: Abort + AllocGlobal>(
    rt: &R,
    tree: &Tree,
    blank: Blank,
) -> (Vec<u64>, Certificate, u64)
    requires name { blank.name ≡ L.name }
    requires parts { blank.parts ≡ L.parts }
    requires some { 0 < blank.parts }
{
    let mut steps = Steps::<L>::new(blank);
    let (grants, certificate, probes) = allot_counted(rt.alloc(), tree, &mut steps).expect(
        rt, "memory",
    );
    holds(rt, steps.count() == probes);
    (grants, certificate, probes)
}

// Checks that the other call of the allocator returns the same, and that the checker accepts it. Returns the number of
// probes.
fn expect_best(
    rt: &(impl Abort + AllocGlobal),
    tree: &Tree,
    grants: &[u64],
    certificate: &Certificate,
) -> u64 {
    holds(rt, check(tree, grants, certificate) == Verdict::Yes);
    let (again, marked, probes) = counted::<Brand, _>(rt, tree, Blank::new(1));
    holds(rt, again.as_slice() == grants);
    holds(
        rt,
        marked.into_entries().as_slice() == certificate.entries(),
    );
    probes
}

/// The results of both calls of the allocator, which are equal and which the checker accepts: grants, their
/// certificate, and the number of probes.
pub(crate) fn granted(
    rt: &(impl Abort + AllocGlobal),
    tree: &Tree,
) -> (Vec<u64>, Certificate, u64) {
    let (grants, certificate) = allot(rt.alloc(), tree).expect(rt, "memory");
    let probes = expect_best(rt, tree, &grants, &certificate);
    (grants, certificate, probes)
}

/// Checks that the tree gets these grants. Returns the number of probes.
pub(crate) fn expect_grants(rt: &(impl Abort + AllocGlobal), tree: &Tree, wanted: &[u64]) -> u64 {
    let (grants, _certificate, probes) = granted(rt, tree);
    holds(rt, grants.as_slice() == wanted);
    probes
}

/// A tree, its grants, and the number of probes. Other worked allotments are in `runs/sheets.toml`.
static ALLOTMENTS: [(Shape, &[u64], u64); 5] = [
    // Large wants take few probes: one at the level from above, and one for each halving of the levels below it.
    (
        Branch(
            Some(10_000_000_000),
            &[Leaf(MAX_WANT, 0), Leaf(MAX_WANT, 0), Leaf(MAX_WANT, 0)],
        ),
        &[3_333_333_334, 3_333_333_333, 3_333_333_333],
        33,
    ),
    // The same if there is nothing to share.
    (Branch(Some(0), &[Leaf(5, 0)]), &[0], 32),
    // One if everything fits; none if there is no limit, or nobody wants anything.
    (
        Branch(
            Some(100),
            &[Branch(None, &[Leaf(9, 0), Leaf(9, 0)]), Leaf(7, 0)],
        ),
        &[9, 9, 7],
        1,
    ),
    (Branch(None, &[Leaf(9, 0)]), &[9], 0),
    (Branch(None, &[]), &[], 0),
];

#[test]
fn worked_allotments(rt: HostRuntime) {
    for (shape, wanted, probes) in &ALLOTMENTS {
        let taken = expect_grants(&rt, &tree(&rt, shape), wanted);
        holds(&rt, taken == *probes);
    }
}

const LARGE: Sizes = Sizes {
    wants: 51,
    limits: 90,
    leaves: 256,
    levels: 4,
};

// Compares the grants of a random tree with those of the plain rule. Returns whether the tree has several nodes and its
// floors are within its limits.
fn expect_plain(rt: &(impl Abort + AllocGlobal), numbers: &mut Numbers) -> bool {
    let (root, _made) = any_tree(rt, numbers, &LARGE);
    match Tree::new(root) {
        Ok(tree) => {
            let plain = allot_plainly(rt.alloc(), &tree).expect(rt, "memory");
            expect_grants(rt, &tree, &plain);
            tree.nodes() > 1
        }
        Err(_) => false,
    }
}

#[test]
fn levels_give_what_single_octets_do(rt: HostRuntime) {
    let mut numbers = Numbers { state: 2024 };
    let mut trees = 0u32;
    for _ in 0..2000u32 {
        if trees < 500 && expect_plain(&rt, &mut numbers) {
            trees = trees.saturating_add(1);
        }
    }
    holds(&rt, trees == 500);
}
