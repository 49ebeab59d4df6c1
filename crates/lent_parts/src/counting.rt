//! Counting the grants of a round.

ghost use Rattle.std.specs.Prelude.{◌≡◌, ◌+◌, ◌<◌, ◌^◌, None, slice_get, slice_index_or, sum};
ghost use Rattle.lent_parts.specs.Counting.{held_of};
ghost use Rattle.round_tally.specs.Counts.{tallied};

use grant_ledger::MAX_LANES;
use line_rates::{Ask, Name};
use paced_rounds::{HeldNames, PacedRounds};
use round_tally::{RoundGrant, Tallies, held_back};

/// The limits of a round that was held at a moment, and what it left of their rows.
#[derive(Drop)]
pub(crate) struct RoundLimits<'a, N> {
    pub names: &'a HeldNames,
    pub rounds: &'a PacedRounds<N>,
    pub asks: &'a [Ask],
    pub moment: u64,
}

impl<'a, N> RoundLimits<'a, N> {
    // The limit that held back a leaf: that which was used up, or an inner one whose row the round left closed.
    fn held(&self, leaf: usize) -> Option<Name>
        ensures held { result ≡ held_of (slice_index_or self.now.names.now.names leaf None)
            (slice_get self.now.asks.now leaf) self.now.rounds.now.pace
            self.now.rounds.now.cadence self.now.moment }
    {
        match (self.names.of(leaf), self.asks.get(leaf)) {
            (Some(name), Some(ask)) => {
                let closed = self.rounds.closed_by(*ask, self.moment);
                held_back(Some(name), closed)
            }
            _ => None,
        }
    }
}

// The lane of a leaf. There are at most MAX_LANES lanes.
fn lane_of(lanes: &[u8], leaf: usize) -> usize
    ensures few { result < MAX_LANES }
{
    match lanes.get(leaf) {
        Some(lane) => usize::from(*lane) % MAX_LANES,
        None => 0,
    }
}

/// Adds the grant of each leaf of a round to the tally of the transfer of its lane. A leaf that was granted nothing is not
/// counted: its round came when others had taken what a limit had, and says nothing of what holds it back.
pub(crate) fn count_all<N>(
    tallies: &mut Tallies,
    lanes: &[u8],
    grants: &[u64],
    limits: &RoundLimits<N>,
    transfers: &[u64; MAX_LANES],
    window: u64,
)
    requires fits { tallied tallies.old + sum grants.now < 2 ^ 64 }
    ensures counted { tallied tallies.new ≡ tallied tallies.old + sum grants.now }
{
    for leaf in 0..grants.len() {
        let octets = grants[leaf];
        if octets > 0 {
            let lane = lane_of(lanes, leaf);
            let held = limits.held(leaf);
            let grant = RoundGrant {
                octets,
                held,
                window,
            };
            tallies.count(lane, transfers[lane], grant);
        }
    }
}
