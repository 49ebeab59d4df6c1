//! Laws over the definitions, and of the type.

ghost use Rattle.std.specs.Prelude.{ℕ};
ghost use Rattle.round_pace.specs.Guaranteed.{IsGuaranteed};
ghost use Rattle.round_pace.specs.Histories.{rates_of};
ghost use Rattle.paced_rounds.specs.History.{stretches, WereGuaranteed};
ghost use Rattle.paced_rounds.specs.Evenness.{EvenByTurns};
ghost use Rattle.paced_rounds.specs.LaneTurns.{turns_in, RoundsAreEven, LanesAreEven};
ghost use Rattle.paced_rounds.specs.PeerKinds.{SessionsArePeers, UsersArePeers};
ghost use Rattle.paced_rounds.specs.Spans.{SpansAreKept};

use crate::rounds::PacedRounds;
use round_pace::guarantees_are_offered;
use std::alloc::Allocator;

/// Rounds that keep the rates, from one moment to another, granted under each name at most what its rates allow from the
/// second of the one to that of the other.
pub fn spans_are_kept()
    ensures kept { SpansAreKept }
{}

/// Two transfers in the same rounds, whose grants differ by at most one octet in each, and of which the one that has had
/// less is not granted less, have had the same in the end, but for one octet. So have two lanes of peers after rounds by
/// turns.
pub fn turns_are_even()
    ensures even { EvenByTurns }
    ensures lanes { RoundsAreEven }
{}

/// Sessions of a user are peers, if each has one ask; so are users of one group, or of none, without rates and guarantees
/// of their own.
pub fn sessions_and_users_are_peers()
    ensures sessions { SessionsArePeers }
    ensures users { UsersArePeers }
{}

impl<N, A: Allocator> PacedRounds<N, A> {
    /// A law of the type: guarantees of counted sessions that are within the rates in force are within what each of the
    /// rounds so far was offered, and within what the next one is, in whatever tick it is held.
    pub fn guarantees_are_offered(&self)
        ensures rounds { WereGuaranteed self.now.pace
            (stretches self.now.ended.items self.now.pace self.now.log.items) }
        ensures next { (tick : ℕ) → IsGuaranteed (rates_of self.now.pace) tick self.now.pace }
    {
        guarantees_are_offered();
    }

    /// A law of the type: two lanes that were in the same rounds of the second of the last round, each time with the asks of
    /// peers that were both granted less than they want, have had the same in these rounds, but for an octet.
    pub fn lanes_are_even(&self)
        ensures even { LanesAreEven (turns_in self.now.turns.items) }
    {
        turns_are_even();
    }
}
