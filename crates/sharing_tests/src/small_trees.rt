//! Small random trees, whose grants are compared with all possible grants.

use super::allotting::granted;
use super::random_trees::{Held, Made, Numbers, Sizes, any_tree};
use crate::expect::holds;
use limit_tree::Tree;
use std::process::Abort;

pub(crate) const SMALL: Sizes = Sizes {
    wants: 5,
    limits: 13,
    leaves: 5,
    levels: 3,
};

/// Grants of the leaves, followed by zeros.
pub(crate) type List = [u64; 5];

// Number of lists of five grants below five.
const LISTS: u32 = 3_125;

fn sum_of(list: &[u64], held: &Held) -> u64 {
    let mut total = 0u64;
    for (leaf, grant) in list.iter().enumerate() {
        if held.first <= leaf && leaf < held.end {
            total = total.saturating_add(*grant);
        }
    }
    total
}

// Returns whether no number in a list is below that in the other.
fn is_at_least(list: &[u64], other: &[u64]) -> bool {
    for (leaf, number) in other.iter().enumerate() {
        if leaf >= list.len() || list[leaf] < *number {
            return false;
        }
    }
    true
}

pub(crate) fn is_within(made: &Made, list: &[u64]) -> bool {
    for held in made.limits.iter() {
        if sum_of(list, held) > held.limit {
            return false;
        }
    }
    is_at_least(list, &made.floors) && is_at_least(&made.wants, list)
}

// Advances a list to the next one up to the wants. Returns false after the last.
pub(crate) fn count_on(list: &mut [u64], wants: &[u64]) -> bool {
    for (leaf, want) in wants.iter().enumerate() {
        if leaf < list.len() {
            if list[leaf] < *want {
                list[leaf] += 1;
                return true;
            }
            list[leaf] = 0;
        }
    }
    false
}

pub(crate) fn sorted(list: List) -> List {
    let mut sorted = list;
    sorted.sort_unstable();
    sorted
}

// Returns whether some list within the limits is, sorted upwards, greater than a sorted one: larger at the first index
// where they differ. Without a sorted one, returns whether any list is within. The lists are counted from zeros.
fn is_surpassed(rt: &impl Abort, made: &Made, known: Option<List>) -> bool {
    let mut list = [0; 5];
    let leaves = made.wants.len().min(5);
    for _ in 0..LISTS {
        if is_within(made, &list[..leaves]) {
            let is_greater = match known {
                Some(known) => sorted(list) > known,
                None => true,
            };
            if is_greater {
                return true;
            }
        }
        if !count_on(&mut list, &made.wants) {
            return false;
        }
    }
    panic!(rt; "there are no more lists than these")
}

pub(crate) fn list_of(grants: &[u64]) -> List {
    let mut list = [0; 5];
    for (place, grant) in list.iter_mut().zip(grants) {
        *place = *grant;
    }
    list
}

// Compares the grants of a tree with all lists. Returns whether the floors of the tree allow any list.
fn expect_greatest(rt: &(impl Abort + AllocGlobal), numbers: &mut Numbers) -> bool {
    let (root, made) = any_tree(rt, numbers, &SMALL);
    match Tree::new(root) {
        Ok(tree) => {
            let (grants, _certificate, _probes) = granted(rt, &tree);
            holds(rt, is_within(&made, &grants));
            let known = sorted(list_of(&grants));
            holds(rt, !is_surpassed(rt, &made, Some(known)));
            true
        }
        Err(_) => {
            holds(rt, !is_surpassed(rt, &made, None));
            false
        }
    }
}

#[test]
fn no_other_grants_are_greater(rt: HostRuntime) {
    let mut numbers = Numbers { state: 1973 };
    let mut trees = 0u32;
    for _ in 0..500u32 {
        if expect_greatest(&rt, &mut numbers) {
            trees = trees.saturating_add(1);
        }
    }
    holds(&rt, 300 <= trees && trees < 500);
}
