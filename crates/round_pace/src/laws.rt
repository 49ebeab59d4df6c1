//! Laws over the definitions.

ghost use Rattle.round_pace.specs.Rounds.{KeepsSeconds, KeepsWindows, LosesNothing, ReachesRates, SessionsAreRounds};
ghost use Rattle.round_pace.specs.Earned.{OffersCredits};
ghost use Rattle.round_pace.specs.Histories.{HistoriesAreRounds, HistoriesKeepRates, RatesStay, NewRates, TicksBegin};
ghost use Rattle.round_pace.specs.Stretches.{StretchesKeepRates, OneStretchKeeps, ChangedRates, NewIsChanged};
ghost use Rattle.round_pace.specs.Offered.{HandsRowsIn};
ghost use Rattle.round_pace.specs.PromisesOffered.{OwedFits, LeftPartsFit, PartsAreLeft, EarnsItsTicks};
ghost use Rattle.round_pace.specs.Given.{RoundsGive};
ghost use Rattle.round_pace.specs.OverTime.{KeepsGuarantees};
ghost use Rattle.round_pace.specs.Guaranteed.{StretchesAreGuaranteed, NextIsGuaranteed, HistoriesAreGuaranteed};

use rate_floors::promises_are_kept;

/// The limits offered are exactly the octets left.
pub fn credits_are_offered()
    ensures offered { OffersCredits }
{}

/// For any rounds, the grants under a rate in one second of the clock are within the rate, and those in a second from
/// any moment within the rate plus the most that is kept.
pub fn rates_are_kept()
    ensures seconds { KeepsSeconds }
    ensures windows { KeepsWindows }
    ensures sessions { SessionsAreRounds }
{}

/// If no refill was cut, the grants of a second's rounds plus what is left are what was earned.
pub fn nothing_is_lost()
    ensures lost { LosesNothing }
{}

/// A rate is reached if each round grants all that it is offered and rounds come in time.
pub fn rates_are_reached()
    ensures reached { ReachesRates }
{}

/// Guarantees of counted sessions that are within the rates are within what is left of them in any round, if each is
/// handed in for at most the parts of ticks whose earnings each of its rates has left.
pub fn floors_fit_what_is_offered()
    ensures promises { OwedFits }
    ensures fit { LeftPartsFit }
    ensures left { PartsAreLeft }
    ensures ticks { EarnsItsTicks }
{}

/// A round that was held gives each ask all that it wants or what is handed in for its session's guarantee. Once a session
/// has asked in a round of a second for at least that, it has been granted its guarantee for all ticks of the second that
/// have begun, whatever rounds were held without it, if nothing of what it was owed was cut and its rates have left it.
pub fn guarantees_are_kept()
    ensures given { RoundsGive }
    ensures kept { KeepsGuarantees }
{}

/// The limits that a round is handed are those of the rows: what is left under each rate.
pub fn rows_are_handed_in()
    ensures rows { HandsRowsIn }
{}

/// The rounds of a new pace are rounds under the rate of each name that has one, so each such rate is kept.
pub fn histories_keep_rates()
    ensures rounds { HistoriesAreRounds }
    ensures kept { HistoriesKeepRates }
    ensures stay { RatesStay }
    ensures new { NewRates }
    ensures begin { TicksBegin }
{}

/// The rates are kept although they are changed between rounds.
pub fn stretches_keep_rates()
    ensures kept { StretchesKeepRates }
    ensures one { OneStretchKeeps }
    ensures changed { ChangedRates }
    ensures new { NewIsChanged }
{}

/// In each round of a history, guarantees of counted sessions that are within the rates in force are within what the
/// round is offered of each rate.
pub fn guarantees_are_offered()
    ensures stretches { StretchesAreGuaranteed }
    ensures next { NextIsGuaranteed }
    ensures histories { HistoriesAreGuaranteed }
{
    promises_are_kept();
}
