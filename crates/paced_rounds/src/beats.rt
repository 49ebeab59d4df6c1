//! The beats of rows after a round.

ghost use Rattle.std.specs.Prelude.{◌≡◌, length, IfOk};
ghost use Rattle.paced_rounds.specs.History.{leaves};
ghost use Rattle.paced_rounds.specs.Beating.{add_all, settle_all, beats_after};

use lane_desk::{RoundFault, RoundRecord};
use line_rates::Ask;
use round_cadence::{Cadence, crowd_of};
use round_pace::Pace;
use std::alloc::Allocator;

// Adds each grant to the rows of its own ask, with the asks that share its part of the line.
fn add<A: Allocator>(cadence: &mut Cadence<A>, pace: &Pace<A>, asks: &[Ask], grants: &[u64])
    requires each { length asks.now ≡ length grants.now }
    ensures added { cadence.new ≡ add_all pace.now asks.now (leaves asks.now grants.now)
        cadence.old }
{
    let share_by = pace.limits().share_by();
    for i in 0..asks.len() {
        let ask = asks[i];
        let rows = pace.rows_of(ask.way, ask.user);
        let crowd = crowd_of(share_by, asks, ask);
        cadence.add(ask, &rows, grants[i], crowd);
    }
}

// Settles the rows of each ask.
fn settle<A: Allocator>(cadence: &mut Cadence<A>, pace: &Pace<A>, asks: &[Ask], tick: u64)
    ensures settled { cadence.new ≡ settle_all pace.now tick asks.now cadence.old }
{
    for i in 0..asks.len() {
        let ask = asks[i];
        let rows = pace.rows_of(ask.way, ask.user);
        cadence.settle(ask.way, ask.user, &rows, tick);
    }
}

/// Settles the beats of the rows of a round's asks, after a round in this tick that left this pace. A refused round
/// changes none.
pub(crate) fn beat<A: Allocator, B: Allocator>(
    cadence: &mut Cadence<A>,
    pace: &Pace<A>,
    round: &Result<RoundRecord<B>, RoundFault>,
    tick: u64,
)
    requires each { IfOk round.now (λ r. length r.asks.items ≡ length r.sealed.grants) }
    ensures beats { cadence.new ≡ beats_after pace.now tick round.now cadence.old }
{
    match round {
        Ok(made) => {
            add(cadence, pace, &made.asks, made.sealed.grants());
            settle(cadence, pace, &made.asks, tick);
        }
        Err(_) => {}
    }
}
