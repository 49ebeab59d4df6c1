//! Properties of a range of leaves, computed from the grants of all leaves.

ghost use Rattle.std.specs.Prelude.{◌≡◌, ◌+◌, ◌<◌, ◌≤◌, ◌^◌, ◌↔◌, IsTrue, MatchOption, length, sum};
ghost use Rattle.limit_tree.specs.Outline.{IsFullPlace};
ghost use Rattle.grant_certificate.specs.Ranges.{IsGreatest, IsFirstGreater, IsNoneGreater, IsOverPlace};

use limit_tree::{NodeKind, Place};

/// The load of a node: how far its leaves use up its limit.
#[derive(Clone, Copy)]
pub(crate) struct Load {
    /// They have more than the limit.
    pub over: bool,
    /// They have exactly the limit.
    pub full: bool,
}

/// The load of a node, from the grants of all leaves. Sums its leaves' grants once.
pub(crate) fn load_of(place: Place, grants: &[u64]) -> Load
    requires inside { place.first + place.leaves ≤ length grants.now }
    requires fits { sum grants.now < 2 ^ 64 }
    ensures over { IsTrue result.over ↔ IsOverPlace place grants.now }
    ensures full { IsTrue result.full ↔ IsFullPlace place grants.now }
{
    let none = Load {
        over: false,
        full: false,
    };
    match place.kind {
        NodeKind::Branch { limit } => match limit {
            Some(most) => {
                let taken = place.sum(grants);
                Load {
                    over: most < taken,
                    full: taken == most,
                }
            }
            None => none,
        },
        NodeKind::Leaf { .. } => none,
    }
}

/// The greatest grant in the range that is not its leaf's floor; 0 if there is none.
pub(crate) fn greatest(grants: &[u64], floors: &[u64], first: usize, leaves: usize) -> u64
    requires inside { first + leaves ≤ length grants.now }
    requires floors { length floors.now ≡ length grants.now }
    ensures greatest { IsGreatest first leaves grants.now floors.now result }
{
    let mut most = 0;
    for leaf in first..first + leaves {
        if grants[leaf] > most && grants[leaf] != floors[leaf] {
            most = grants[leaf];
        }
    }
    most
}

/// The first leaf in the range whose grant exceeds `grant` by two or more and is not its floor.
pub(crate) fn first_greater(
    grants: &[u64],
    floors: &[u64],
    first: usize,
    leaves: usize,
    grant: u64,
) -> Option<usize>
    requires inside { first + leaves ≤ length grants.now }
    requires floors { length floors.now ≡ length grants.now }
    ensures greater { MatchOption result (IsNoneGreater first leaves grants.now floors.now grant)
        (λ leaf. IsFirstGreater first leaves grants.now floors.now grant leaf) }
{
    for leaf in first..first + leaves {
        let other = grants[leaf];
        if other >= 2 && other - 2 >= grant && other != floors[leaf] {
            return Some(leaf);
        }
    }
    None
}
