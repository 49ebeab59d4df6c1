//! Subtraction of grants from a pace.

ghost use Rattle.std.specs.Prelude.{◌≡◌, ◌+◌, ◌-◌, ◌*◌, ◌^◌, ◌≤◌, ◌&&◌, nat_eq, if◌then◌else◌, length, map};
ghost use Rattle.line_rates.specs.Granted.{Granted};
ghost use Rattle.line_rates.specs.Names.{same_way};
ghost use Rattle.round_pace.specs.Histories.{take_all};
ghost use Rattle.round_pace.specs.OwnParts.{session_octets, most_to, own_part};
ghost use Rattle.paced_rounds.specs.History.{granted, granted_in, leaves};

use line_rates::{Ask, Way};
use proof_log::ProofLog;
use round_pace::Pace;
use std::alloc::Allocator;

fn is_way(way: Way, other: Way) -> bool
    ensures same { result ≡ same_way way other }
{
    match (way, other) {
        (Way::Down, Way::Down) | (Way::Up, Way::Up) => true,
        (Way::Down, Way::Up) | (Way::Up, Way::Down) => false,
    }
}

// The grant of an ask, if it is of a session of a user; otherwise 0.
fn part_of(ask: Ask, octets: u64, way: Way, user: u32, session: u32) -> u128
    ensures part { result ≡ (if same_way ask.way way
        && (nat_eq ask.user user && nat_eq ask.session session) then octets else 0) }
    ensures small { result ≤ 2 ^ 64 - 1 }
{
    if is_way(ask.way, way) && (ask.user == user && ask.session == session) {
        return u128::from(octets);
    }
    0
}

// The octets that grants are to a session of a user.
fn session_octets(asks: &[Ask], grants: &[u64], way: Way, user: u32, session: u32) -> u128
    requires each { length asks.now ≡ length grants.now }
    ensures octets { result ≡ session_octets way user session (leaves asks.now grants.now) }
    ensures small { result ≤ length asks.now * (2 ^ 64 - 1) }
{
    let mut octets: u128 = 0;
    for i in 0..asks.len() {
        octets += part_of(asks[i], grants[i], way, user, session);
    }
    octets
}

// The octets that grants are to the session of an ask, if it is of the user; otherwise 0.
fn most_part(asks: &[Ask], grants: &[u64], ask: Ask, way: Way, user: u32) -> u128
    requires each { length asks.now ≡ length grants.now }
    ensures part { result ≡ (if same_way ask.way way && nat_eq ask.user user
        then session_octets way user ask.session (leaves asks.now grants.now) else 0) }
{
    if is_way(ask.way, way) && ask.user == user {
        return session_octets(asks, grants, way, user, ask.session);
    }
    0
}

// The most that grants are to one session of a user.
fn most_to(asks: &[Ask], grants: &[u64], way: Way, user: u32) -> u128
    requires each { length asks.now ≡ length grants.now }
    ensures most { result
        ≡ most_to way user (leaves asks.now grants.now) (leaves asks.now grants.now) }
{
    let mut most: u128 = 0;
    for i in 0..asks.len() {
        most = most.max(most_part(asks, grants, asks[i], way, user));
    }
    most
}

// The part of a grant that is taken from each session of its user, after these grants of its round.
fn own_part(asks: &[Ask], grants: &[u64], ask: Ask, octets: u64) -> u64
    requires each { length asks.now ≡ length grants.now }
    ensures own { result ≡ own_part (leaves asks.now grants.now) (granted ask octets) }
{
    let session = session_octets(asks, grants, ask.way, ask.user, ask.session);
    let most = most_to(asks, grants, ask.way, ask.user);
    let granted = session + u128::from(octets);
    u128::from(octets).min(granted.saturating_sub(most)) as u64
}

/// Subtracts each grant from the rows of its own ask: from those of sessions the most that one of them was granted. Returns
/// what was subtracted, for the log.
pub(crate) fn charge<A: Allocator>(
    pace: &mut Pace<A>,
    asks: &[Ask],
    grants: &[u64],
) -> ProofLog<Ask, u64>
    requires each { length asks.now ≡ length grants.now }
    ensures taken { pace.new ≡ take_all (leaves asks.now grants.now) pace.old }
    ensures log { map granted_in result.items ≡ leaves asks.now grants.now }
{
    let mut taken = ProofLog::new();
    for i in 0..asks.len() {
        let ask = asks[i];
        let octets = grants[i];
        let own = own_part(&asks[..i], &grants[..i], ask, octets);
        pace.took(ask.way, ask.user, octets, own);
        taken = taken.and(&ask, &octets);
    }
    taken
}
