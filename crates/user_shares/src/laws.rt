//! Laws of the trees of three stages.

ghost use Rattle.user_shares.specs.Stages.{InnerGivesMost, OuterIsBacked, TightIsShared};

/// If only the branches inside users have limits, backed grants give each user the most that it can have.
pub fn inner_gives_most()
    ensures most { InnerGivesMost }
{}

/// If one leaf of each user wants what the user can have, and the others want nothing, the totals of backed grants are
/// backed in a tree over the users.
pub fn outer_is_backed()
    ensures backed { OuterIsBacked }
{}

/// If each user is limited to such a total, backed grants are backed among users, and best by users, in the tree itself.
pub fn tight_is_shared()
    ensures shared { TightIsShared }
{}
