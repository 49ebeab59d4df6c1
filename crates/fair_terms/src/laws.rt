//! Laws of fair grants.

ghost use Rattle.fair_terms.specs.Fair.{SealedIsFair};
ghost use Rattle.fair_terms.specs.Owners.{TickTreeHasUsers};

/// In the tree of a tick, each branch lies within the leaves of a user in a way, around them, or apart from them.
pub fn tick_tree_has_users()
    ensures users { TickTreeHasUsers }
{}

/// Grants of the tree of a tick that are sealed for the users of its asks, or for none if the line is shared among
/// sessions, are fair.
pub fn sealed_is_fair()
    ensures fair { SealedIsFair }
{}
