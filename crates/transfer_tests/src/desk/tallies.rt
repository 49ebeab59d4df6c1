//! Tallies of what rounds have granted.

ghost use Rattle.std.specs.Prelude.{◌≡◌};

use super::expect::holds;
use grant_ledger::MAX_LANES;
use line_rates::{Name, Way};
use round_tally::{HeldTally, RoundGrant, Tallies};
use std::process::Abort;

// A grant of this many octets in a window.
fn grant(octets: u64, held: Option<Name>, window: u64) -> RoundGrant
    ensures octets { result.octets ≡ octets }
{
    RoundGrant {
        octets,
        held,
        window,
    }
}

#[test]
fn round_tally(rt: HostRuntime) {
    let mut tallies = Tallies::new();
    tallies.count(0, 1, grant(100, None, 0)); // 100 octets to the first transfer of lane 0, all that it asked for
    tallies.count(0, 2, grant(30, Some(Name::Server), 1)); // the first has ended
    assert!(rt; tallies.lane(0).granted == 30 && tallies.lane(0).all_rounds().server == 1);
    assert!(rt; tallies.ended().granted == 100 && tallies.ended().held.nothing == 1);
}

// Rounds of one window are those of the innermost limit.
#[test]
fn rounds_of_a_window(rt: HostRuntime) {
    let mut tallies = Tallies::new();
    tallies.count(2, 1, grant(1, Some(Name::Server), 7));
    tallies.count(2, 1, grant(1, Some(Name::User(Way::Down, 3)), 7));
    tallies.count(2, 1, grant(1, Some(Name::Direction(Way::Down)), 7));
    tallies.count(2, 1, grant(1, None, 8));
    let rounds = tallies.lane(2).all_rounds();
    holds(
        &rt,
        rounds.user == 3 && rounds.nothing == 1 && rounds.server == 0,
    );
}

// No transfer runs on a lane with the number 0.
#[test]
fn transfers_that_run(rt: HostRuntime) {
    let mut tallies = Tallies::new();
    tallies.count(3, 5, grant(7, None, 0));
    tallies.begin(3, 5);
    tallies.begin(4, 9);
    let mut transfers = [0; MAX_LANES];
    transfers[3] = 5;
    let running = tallies.running(&transfers);
    holds(
        &rt,
        running.lane(3).granted == 7 && running.lane(4).transfer == 0,
    );
    holds(&rt, tallies.running(&[0; MAX_LANES]).ended().granted == 7);
    let one = HeldTally::NONE.and_more(Some(Name::Server), 1);
    holds(&rt, one.and(one).server == 2);
}
