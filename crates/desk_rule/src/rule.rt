//! The rule of the desk's table, and its kinds of steps on words, slots and views.

ghost use Rattle.desk_rule.specs.declared.view.DeskView.TheVariants.{Spent, Round};
ghost use Rattle.desk_rule.specs.Steps.{Ran};
ghost use Rattle.desk_rule.specs.Lanes.{first_round, sits, asks, collects, posts, takes_grant, rises, dealer_after, dealt_to, taken_in};

use crate::view::{DeskView, LaneSlot};
use atomic_table::{Join, Play, Split, TableRule};

/// The invariant between any two steps: what is kept, and the list of all steps since the opening. The table's key is the
/// number of lanes.
pub struct DeskRule;

impl<N> TableRule<LaneSlot<N>, DeskView, u64> for DeskRule {
    ghost holds = { λ k. Ran };

    ghost first = { λ k. Round (first_round k) };
}

/// The next lane's seat is split from the round's.
pub struct Deal;

impl Split<DeskView> for Deal {
    ghost left = { dealer_after };

    ghost right = { dealt_to };
}

/// A worker sits down: the word goes from 0 to 1, and the seat takes the slot.
pub struct Sit;

impl<N> Play<LaneSlot<N>, DeskView> for Sit {
    ghost then = { sits };
}

/// A worker asks: the word goes from 1 to 2, and the slot is returned with the ask.
pub struct MakeAsk;

impl<N> Play<LaneSlot<N>, DeskView> for MakeAsk {
    ghost then = { asks };
}

/// The round tries a lane: if the word is 2, it goes to 3 and the seat takes the slot; otherwise the miss is recorded.
pub struct Collect;

impl<N> Play<LaneSlot<N>, DeskView> for Collect {
    ghost then = { collects };
}

/// The round answers: the word goes from 3 to 4, and the slot is returned with the grant.
pub struct Post;

impl<N> Play<LaneSlot<N>, DeskView> for Post {
    ghost then = { posts };
}

/// A worker looks for its answer: if the word is 4, it goes to 1 and the seat takes the slot; otherwise the miss is
/// recorded.
pub struct Take;

impl<N> Play<LaneSlot<N>, DeskView> for Take {
    ghost then = { takes_grant };
}

/// A worker leaves: the word goes from 1 to 0, and the slot is returned blank.
pub struct Rise;

impl<N> Play<LaneSlot<N>, DeskView> for Rise {
    ghost then = { rises };
}

/// A lane's seat is joined to the round's.
pub struct Gather;

impl Join<DeskView> for Gather {
    ghost both = { taken_in };

    ghost spent = { Spent };
}
