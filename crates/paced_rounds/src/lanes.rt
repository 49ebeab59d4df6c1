//! The rounds of a second with the lane of each leaf, in a log that only proofs read.

ghost use Rattle.std.specs.Prelude.{◌≡◌, length, map, IfOk};
ghost use Rattle.paced_rounds.specs.LaneTurns.{lane_of, ask_of, grant_of, turns_in, turns_at, turns_after};

use crate::turns::SECOND;
use lane_desk::{RoundFault, RoundRecord};
use line_rates::Ask;
use proof_log::ProofLog;
use round_pace::Pace;
use std::alloc::Allocator;

// The leaves of a round, each with its lane.
fn leaves_of(lanes: &[u8], asks: &[Ask], grants: &[u64]) -> ProofLog<(u8, Ask), u64>
    requires asks { length asks.now ≡ length grants.now }
    requires lanes { length lanes.now ≡ length grants.now }
    ensures lanes { map lane_of result.items ≡ lanes.now }
    ensures asks { map ask_of result.items ≡ asks.now }
    ensures grants { map grant_of result.items ≡ grants.now }
{
    let mut leaves = ProofLog::new();
    for i in 0..lanes.len() {
        let asker = (lanes[i], asks[i]);
        leaves = leaves.and(&asker, &grants[i]);
    }
    leaves
}

/// Begins the log anew, if a moment is not in the second of the last round.
pub(crate) fn begin<A: Allocator>(
    turns: &mut ProofLog<Pace<A>, ProofLog<(u8, Ask), u64>>,
    now: u64,
    latest: u64,
)
    ensures turns { turns_in turns.new.items ≡ turns_at now latest (turns_in turns.old.items) }
{
    if latest / SECOND != now / SECOND {
        *turns = ProofLog::new();
    }
}

/// Appends a round to the log, with the pace that offered it. A refused round is not appended.
pub(crate) fn note<A: Allocator, B: Allocator>(
    turns: &mut ProofLog<Pace<A>, ProofLog<(u8, Ask), u64>>,
    pace: &Pace<A>,
    round: &Result<RoundRecord<B>, RoundFault>,
)
    requires asks { IfOk round.now (λ r. length r.asks.items ≡ length r.sealed.grants) }
    requires lanes { IfOk round.now (λ r. length r.lanes.items ≡ length r.sealed.grants) }
    ensures turns { turns_in turns.new.items
        ≡ turns_after pace.now.offered round.now (turns_in turns.old.items) }
{
    match round {
        Ok(made) => {
            let leaves = leaves_of(&made.lanes, &made.asks, made.sealed.grants());
            *turns = turns.and(pace, &leaves);
        }
        Err(_) => {}
    }
}
