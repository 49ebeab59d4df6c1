//! Laws over the definitions.

ghost use Rattle.line_rates.specs.FloorSums.{FloorsAreWithin};
ghost use Rattle.line_rates.specs.Granted.{GrantsKeepNames};
ghost use Rattle.line_rates.specs.Plain.{NoGroupsAndFloorsIsPlain};
ghost use Rattle.line_rates.specs.Ticks.{TenTicks};

/// The octets that a rate allows in ten consecutive ticks add up to the rate.
pub fn ten_ticks_make_a_second()
    ensures second { TenTicks }
{}

/// Grants within the tree of a tick keep each name's limit at that tick.
pub fn grants_keep_names()
    ensures kept { GrantsKeepNames }
{}

/// The floors of the tree of a tick are within its limits exactly if, for each name, what asks are guaranteed under it
/// is within its limit.
pub fn floors_fit_their_names()
    ensures within { FloorsAreWithin }
{}

/// If no user is in a group and no session has a guarantee, the names and the tree of a tick are the plain ones.
pub fn no_groups_and_floors_is_plain()
    ensures plain { NoGroupsAndFloorsIsPlain }
{}
