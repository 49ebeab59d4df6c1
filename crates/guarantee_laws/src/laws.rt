//! Laws over the definitions.

ghost use Rattle.guarantee_laws.specs.Account.{SecondsAreWhole, GuaranteesAreAccounted, GuaranteesOverTime, GuaranteesToTheOctet, NothingIsCut, RoundsAreOwed, UncutIsPrompt};
ghost use Rattle.guarantee_laws.specs.Example.{SomeRoundsMeetPremises};
ghost use Rattle.guarantee_laws.specs.Reached.{NewIsReached, EachRoundIsReached};
ghost use Rattle.guarantee_laws.specs.SessionRounds.{TenthIsEnough};
ghost use Rattle.guarantee_laws.specs.Sure.{AsksAreSure, AsksKeepGuarantees};

use round_pace::{
    floors_fit_what_is_offered, guarantees_are_kept, guarantees_are_offered, histories_keep_rates,
    rows_are_handed_in, stretches_keep_rates,
};

/// The laws below hold of rounds that were held from a pace that a history has reached. A new pace is one, and so is
/// the pace before each round of each history, also of one in which rates were changed.
pub fn paces_are_reached()
    ensures new { NewIsReached }
    ensures reached { EachRoundIsReached }
{
    stretches_keep_rates();
}

/// Some history meets all premises of the laws below.
pub fn some_rounds_meet_premises()
    ensures example { SomeRoundsMeetPremises }
{
    rows_are_handed_in();
    stretches_keep_rates();
}

/// In rounds of a second the guarantee of a session, for the ticks that began in them, is granted to it or still owed,
/// but for what was cut, and what another session of its user was granted more. Once it asks in a round that is handed in
/// all whole octets that it is owed, the guarantee is granted: to the octet, if nothing was cut and no other session of
/// its user was granted more.
pub fn guarantees_are_kept_over_time()
    ensures accounted { GuaranteesAreAccounted }
    ensures kept { GuaranteesOverTime }
    ensures octet { GuaranteesToTheOctet }
    ensures uncut { NothingIsCut }
    ensures second { SecondsAreWhole }
{
    histories_keep_rates();
    stretches_keep_rates();
    guarantees_are_offered();
    guarantees_are_kept();
}

/// By its asks and the clock alone, a session is granted its guarantee, but for less than an octet in each round in which
/// it asks, if it asks in each round that takes from its rates, and in time. An ask for a tenth of the guarantee is
/// enough.
pub fn asks_keep_guarantees()
    ensures sure { AsksAreSure }
    ensures kept { AsksKeepGuarantees }
    ensures tenth { TenthIsEnough }
{
    histories_keep_rates();
    stretches_keep_rates();
    guarantees_are_offered();
    guarantees_are_kept();
    floors_fit_what_is_offered();
}

/// The rounds of a history are such as `round_pace` speaks of in its law of guarantees over time.
pub fn rounds_are_owed_a_guarantee()
    ensures owed { RoundsAreOwed }
    ensures prompt { UncutIsPrompt }
{
    histories_keep_rates();
    stretches_keep_rates();
    guarantees_are_offered();
    guarantees_are_kept();
}
