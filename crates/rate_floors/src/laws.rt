//! Laws over the definitions.

ghost use Rattle.rate_floors.specs.Carried.{CarriesWhatFits, NamesABrokenLimit};
ghost use Rattle.rate_floors.specs.Kept.{PromisesAreKept, FloorsStayWithin};
ghost use Rattle.rate_floors.specs.Plain.{NoGroupsIsPlain, NoFloorsAdmitsAll};
ghost use Rattle.rate_floors.specs.Refusals.{RefusesWhatDoesNotFit};

/// Guarantees of counted sessions that fit are within the limits of every tick. For asks of counted sessions, at most
/// one for each session and way, the floors fit under each name, so they are within the tree of the tick, and `tree_of`
/// does not refuse it for its floors.
pub fn promises_are_kept()
    ensures kept { PromisesAreKept }
    ensures within { FloorsStayWithin }
{}

/// If no user is in a group, admission is the plain one; if no session has a guarantee, every session is admitted.
pub fn no_groups_and_floors_is_plain()
    ensures groups { NoGroupsIsPlain }
    ensures floors { NoFloorsAdmitsAll }
{}

/// Counted sessions go over to other rates exactly if their guarantees fit them, and a fault names a broken limit.
pub fn carries_what_fits()
    ensures fits { CarriesWhatFits }
    ensures broken { NamesABrokenLimit }
{}

/// A session is refused for a reason exactly if it does not fit.
pub fn refuses_what_does_not_fit()
    ensures refuses { RefusesWhatDoesNotFit }
{}
