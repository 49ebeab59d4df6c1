//! Grants above their bounds.

ghost use Rattle.std.specs.Prelude.{◌≡◌, ◌<◌, ◌≤◌, ◌^◌, ℕ, MatchOption, length, slice_index, sum};

use super::range::{Load, load_of};
use limit_tree::Place;

/// The index of the first number that is larger than its bound.
pub(crate) fn first_above(numbers: &[u64], bounds: &[u64]) -> Option<usize>
    requires lengths { length bounds.now ≡ length numbers.now }
    ensures first { MatchOption result ((j : ℕ) → j < length numbers.now
        → slice_index numbers.now j ≤ slice_index bounds.now j)
        (λ i. (i < length numbers.now) × (slice_index bounds.now i < slice_index numbers.now i)
        × ((j : ℕ) → j < i → slice_index numbers.now j ≤ slice_index bounds.now j)) }
{
    for (leaf, number) in numbers.iter().enumerate() {
        if *number > bounds[leaf] {
            return Some(leaf);
        }
    }
    None
}

/// Searches for the first branch whose leaves have more than its limit.
#[derive(Drop)]
pub(crate) struct FindOverLimit<'a> {
    pub grants: &'a [u64],
    pub found: Option<usize>,
    ghost fits: { sum grants.now < 2 ^ 64 },
}

impl<'a> FindOverLimit<'a> {
    ghost use Rattle.std.specs.Prelude.{◌≡◌, ◌+◌, ◌<◌, ◌≤◌, ◌^◌, ◌↔◌, [], IsTrue, length, sum};
    ghost use Rattle.limit_tree.specs.Outline.{IsFullPlace};
    ghost use Rattle.grant_certificate.specs.Looks.{SoughtOver, SeesOver};
    ghost use Rattle.grant_certificate.specs.Ranges.{IsOverPlace};

    /// A search with nothing found yet.
    pub fn new(grants: &'a [u64]) -> FindOverLimit<'a>
        requires fits { sum grants.now < 2 ^ 64 }
        ensures grants { result.grants.now ≡ grants.now }
        ensures start { SoughtOver result [] result }
    {
        FindOverLimit {
            grants,
            found: None,
        }
    }

    /// The load of a node: how far its leaves use up its limit.
    pub fn load(&self, place: Place) -> Load
        requires inside { place.first + place.leaves ≤ length self.now.grants.now }
        ensures over { IsTrue result.over ↔ IsOverPlace place self.now.grants.now }
        ensures full { IsTrue result.full ↔ IsFullPlace place self.now.grants.now }
    {
        load_of(place, self.grants)
    }

    /// Visits one more node: its number, and whether its leaves have more than its limit.
    pub fn see(&mut self, number: usize, over: bool)
        ensures grants { self.new.grants.now ≡ self.old.grants.now }
        ensures saw { SeesOver self.old number over self.new }
    {
        match self.found {
            Some(_) => {}
            None => {
                if over {
                    self.found = Some(number);
                }
            }
        }
    }
}
