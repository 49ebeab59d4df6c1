//! Laws of every limit tree.

ghost use Rattle.limit_tree.specs.Absorbing.{AbsorbedIsTakenIn};
ghost use Rattle.limit_tree.specs.Plain.{NoFloorsIsPlain};

/// If all floors are 0, within, best and backed mean what they mean without floors.
pub fn no_floors_is_plain()
    ensures plain { NoFloorsIsPlain }
{}

/// Nodes absorb up to a level: a leaf the level, at least its floor and at most its want; a branch the sum of what its
/// kids absorb, cut to its limit.
pub fn absorbed_is_taken_in()
    ensures taken { AbsorbedIsTakenIn }
{}
