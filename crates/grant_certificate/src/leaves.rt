//! The wants and floors of all leaves of a tree.

ghost use Rattle.limit_tree.specs.declared.bounds.TheConstants.{MAX_LEAVES};
ghost use Rattle.std.specs.Prelude.{◌≤◌};

use limit_tree::{MAX_LEAVES, Tree};
use std::alloc::Allocator;

/// The wants and floors of the leaves of a tree.
#[derive(Drop)]
pub struct Leaves {
    pub count: usize,
    pub wants: [u64; MAX_LEAVES],
    pub floors: [u64; MAX_LEAVES],
    ghost few: { count ≤ MAX_LEAVES },
}

impl Leaves {
    ghost use Rattle.std.specs.Prelude.{◌≡◌, ◌<◌, ◌≤◌, ◌*◌, ◌^◌, length, sum, take};
    ghost use Rattle.limit_tree.specs.Outline.{limits};
    ghost use Rattle.limit_tree.specs.declared.bounds.TheConstants.{MAX_WANT};

    /// Reads all leaves of a tree. O(nodes) time.
    pub fn of<A: Allocator>(tree: &Tree<A>) -> Leaves
        ensures few { length (limits tree.now).wants ≤ MAX_LEAVES }
        ensures octets { sum (limits tree.now).wants ≤ MAX_LEAVES * MAX_WANT }
        ensures fits { sum (limits tree.now).wants < 2 ^ 64 }
        ensures count { result.count ≡ length (limits tree.now).wants }
        ensures wants { take result.count result.wants ≡ (limits tree.now).wants }
        ensures floors { take result.count result.floors ≡ (limits tree.now).floors }
    {
        let count = tree.leaves();
        let mut wants = no_octets();
        let mut floors = no_octets();
        tree.leaves_into(&mut wants, &mut floors);
        Leaves {
            count,
            wants,
            floors,
        }
    }

    /// The want of each leaf, in octets.
    pub fn wants(&self) -> &[u64]
        ensures wants { result.now ≡ take self.now.count self.now.wants }
    {
        &self.wants[..self.count]
    }

    /// The floor of each leaf, in octets.
    pub fn floors(&self) -> &[u64]
        ensures floors { result.now ≡ take self.now.count self.now.floors }
    {
        &self.floors[..self.count]
    }
}

fn no_octets() -> [u64; MAX_LEAVES] {
    [0; MAX_LEAVES]
}
