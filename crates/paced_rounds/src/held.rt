//! The limits that hold back the transfers of a round.

ghost use Rattle.std.specs.Prelude.{◌≡◌, true, IfOk, None, slice_index_or};
ghost use Rattle.fair_terms.specs.Fair.{AreSealedOwners};
ghost use Rattle.limit_tree.specs.Outline.{limits as seen};
ghost use Rattle.line_rates.specs.TickTree.{IsTickTree};
ghost use Rattle.paced_rounds.specs.HeldLeaves.{AreHeld};

use fair_terms::sealed_is_fair;
use grant_certificate::Sealed;
use grant_ledger::MAX_LANES;
use lane_desk::{RoundFault, RoundRecord};
use line_rates::{Ask, Limits, Name};
use round_tally::held_by;
use std::alloc::Allocator;

/// The names of the limits that held back the leaves of the last round, if they are wanted: that of a bottleneck for a
/// leaf that was granted less than it asked for, and none for another.
#[derive(Drop)]
pub struct HeldNames {
    /// They are wanted. Otherwise no round names any.
    pub is_wanted: bool,
    names: [Option<Name>; MAX_LANES],
}

impl HeldNames {
    /// The names of no round yet.
    pub fn new(is_wanted: bool) -> HeldNames
        ensures wanted { result.is_wanted ≡ is_wanted }
    {
        HeldNames {
            is_wanted,
            names: [None; MAX_LANES],
        }
    }

    /// The name for a leaf.
    pub fn of(&self, leaf: usize) -> Option<Name>
        ensures name { result ≡ slice_index_or self.now.names leaf None }
    {
        match self.names.get(leaf) {
            Some(name) => *name,
            None => None,
        }
    }
}

// Names the leaves of a round.
fn name_leaves<L: Allocator, A: Allocator>(
    limits: &Limits<L>,
    tick: u64,
    asks: &[Ask],
    sealed: &Sealed<A>,
    names: &mut [Option<Name>; MAX_LANES],
)
    requires tree { IsTickTree limits.now tick asks.now (seen sealed.now.tree) }
    requires owners { AreSealedOwners limits.now.share_by asks.now sealed.now.owners }
    ensures held { AreHeld limits.now tick asks.now (seen sealed.now.tree) sealed.now.grants
        names.new }
{
    sealed_is_fair();
    let tree = sealed.tree();
    let grants = sealed.grants();
    let entries = sealed.certificate().entries();
    for leaf in 0..asks.len().min(MAX_LANES) {
        names[leaf] = held_by(limits, tick, asks, tree, grants, entries, leaf);
    }
}

/// Names the leaves of a round within these limits, if that is wanted. A refused round has none.
pub(crate) fn see<L: Allocator, A: Allocator>(
    names: &mut HeldNames,
    limits: &Limits<L>,
    round: &Result<RoundRecord<A>, RoundFault>,
)
    requires tree { IfOk round.now (λ r. IsTickTree limits.now r.tick r.asks.items
        (seen r.sealed.tree)) }
    requires owners { IfOk round.now
        (λ r. AreSealedOwners limits.now.share_by r.asks.items r.sealed.owners) }
    ensures wanted { names.new.is_wanted ≡ names.old.is_wanted }
    ensures held { names.old.is_wanted ≡ true → IfOk round.now (λ r. AreHeld limits.now r.tick
        r.asks.items (seen r.sealed.tree) r.sealed.grants names.new.names) }
{
    if !names.is_wanted {
        return;
    }
    match round {
        Ok(made) => {
            name_leaves(
                limits,
                made.tick,
                &made.asks,
                &made.sealed,
                &mut names.names,
            );
        }
        Err(_) => {}
    }
}
