//! Laws of every run.

ghost use Rattle.share_world.specs.Laws.{DecisionsAreBest, DecisionsKeepFloors, DecisionsKeepLimits, IssuedIsShares, MovedInAllIsWithinLimits, MovedIsWithinLimits, TakenAnswersLastAsk, TakenBeginsPosted, TakenIsAccountedFor};

use line_rates::grants_keep_names;

/// The octets that a lane has taken are those moved, those given back, and those in hand.
pub fn taken_is_accounted_for()
    ensures accounted { TakenIsAccountedFor }
{
    grants_keep_names();
}

/// The amounts that a lane has taken are a prefix of those posted to it.
pub fn taken_begins_posted()
    ensures begins { TakenBeginsPosted }
{
    grants_keep_names();
}

/// A grant that is taken answers the last ask of the same sitting.
pub fn taken_answers_the_last_ask()
    ensures answers { TakenAnswersLastAsk }
{
    grants_keep_names();
}

/// The octets issued are those decided and not posted, posted and not taken, in hand, moved and given back.
pub fn issued_is_the_sum_of_the_shares()
    ensures shares { IssuedIsShares }
{
    grants_keep_names();
}

/// The octets moved under a name with a rate above 0 are at most the sum of that name's limits over the decisions whose
/// trees have its branch.
pub fn moved_under_a_name_is_within_its_limits()
    ensures within { MovedIsWithinLimits }
{
    grants_keep_names();
}

/// If the server's rate is above 0, all octets moved are at most the sum of its limits over the decisions.
pub fn moved_in_all_is_within_the_limits()
    ensures within { MovedInAllIsWithinLimits }
{
    grants_keep_names();
}

/// Each decision is best for the tree of its tick over the asks collected: among the sessions, or by users, as the
/// rates say.
pub fn decisions_are_best()
    ensures best { DecisionsAreBest }
{}

/// Each decision keeps the limit of each name in its tick.
pub fn decisions_keep_limits()
    ensures kept { DecisionsKeepLimits }
{
    grants_keep_names();
}

/// Each decision grants every ask at least its floor.
pub fn decisions_keep_floors()
    ensures kept { DecisionsKeepFloors }
{}
