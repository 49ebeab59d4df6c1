//! Laws of every entry.

ghost use Rattle.grant_ledger.specs.Laws.{GivesEachLaneItsAmount, IsDrawnInTurn};

/// An entry has each amount at its own lane, and none at other lanes.
pub fn entry_gives_each_lane_its_amount()
    ensures amounts { GivesEachLaneItsAmount }
{}

/// An entry can be drawn lane after lane, in its order: the amounts not yet drawn are those of the lanes that are left.
pub fn entry_is_drawn_in_turn()
    ensures drawn { IsDrawnInTurn }
{}
