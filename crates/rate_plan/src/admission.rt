//! Admission of the sessions of transfers.

ghost use Rattle.std.specs.Prelude.{◌≡◌, ◌≤◌, IfErr, IfSome, IsTrue, MatchOption, OnOk, length, map, true};
ghost use Rattle.std.specs.FinMap as finite;
ghost use Rattle.line_rates.specs.Rates.{floor_rate};
ghost use Rattle.line_rates.specs.TickTree.{ask_in};
ghost use Rattle.line_rates.specs.declared.rate.TheConstants.{MAX_RATE};
ghost use Rattle.rate_plan.specs.Asked.{AreAsked};
ghost use Rattle.rate_plan.specs.Refused.{IsAdmissionFault};
ghost use Rattle.rate_plan.specs.Admission.{AreAdmitted, IsExceeded, IsFirstRefused, are_admitted, guaranteed, guaranteed_one, guaranteed_to};

use crate::asks::Transfer;
use crate::fault::Unplanned;
use line_rates::{Ask, Limits, Name, Way};
use rate_floors::Floors;
use round_tally::bears;
use std::alloc::Allocator;

/// The guarantee of each session of a user, in octets per second; 0 for none.
fn floor_rate<L: Allocator>(limits: &Limits<L>, user: u32, way: Way) -> u64
    ensures floor { result ≡ floor_rate (finite.get limits.now.users user) way }
    ensures most { result ≤ MAX_RATE }
{
    match limits.user_row(user) {
        None => 0,
        Some(row) => match way {
            Way::Down => row.session_down_floor,
            Way::Up => row.session_up_floor,
        },
    }
}

fn guaranteed_one<L: Allocator>(limits: &Limits<L>, name: Name, way: Way, ask: Ask) -> u64
    ensures guaranteed { result ≡ guaranteed_one limits.now name way ask }
    ensures most { result ≤ MAX_RATE }
{
    if bears(limits, name, Ask { way, ..ask }) {
        floor_rate(limits, ask.user, way)
    } else {
        0
    }
}

fn guaranteed_to<L: Allocator>(limits: &Limits<L>, name: Name, ask: Ask) -> u64
    ensures guaranteed { result ≡ guaranteed_to limits.now name ask }
    ensures most { result ≤ 2199023255552 }
{
    guaranteed_one(limits, name, Way::Down, ask) + guaranteed_one(limits, name, Way::Up, ask)
}

fn guaranteed<L: Allocator>(limits: &Limits<L>, name: Name, asks: &[(u8, Ask)]) -> u64
    requires few { length asks.now ≤ 256 }
    ensures guaranteed { result ≡ guaranteed limits.now name (map ask_in asks.now) }
{
    let mut sum = 0;
    for place in 0..asks.len() {
        sum += guaranteed_to(limits, name, asks[place].1);
    }
    sum
}

fn is_exceeded<L: Allocator>(limits: &Limits<L>, name: Name, asks: &[(u8, Ask)]) -> bool
    requires few { length asks.now ≤ 256 }
    ensures exceeded { IsTrue result → IsExceeded limits.now (map ask_in asks.now) name }
{
    let rate = limits.rate(name);
    rate != 0 && guaranteed(limits, name, asks) > rate
}

// The first of a user's names one way whose rate is exceeded.
fn exceeded_one<L: Allocator>(
    limits: &Limits<L>,
    ask: Ask,
    way: Way,
    asks: &[(u8, Ask)],
) -> Option<Name>
    requires few { length asks.now ≤ 256 }
    ensures exceeded { IfSome result (IsExceeded limits.now (map ask_in asks.now)) }
{
    let (user, session) = (ask.user, ask.session);
    if is_exceeded(limits, Name::Session(way, user, session), asks) {
        return Some(Name::Session(way, user, session));
    }
    if is_exceeded(limits, Name::User(way, user), asks) {
        return Some(Name::User(way, user));
    }
    if let Some(group) = limits.group_of(user) {
        if is_exceeded(limits, Name::Group(way, group), asks) {
            return Some(Name::Group(way, group));
        }
    }
    if is_exceeded(limits, Name::Direction(way), asks) {
        return Some(Name::Direction(way));
    }
    None
}

// A name whose rate is exceeded by the guarantees of asks, of which `ask` is the last.
fn exceeded<L: Allocator>(limits: &Limits<L>, ask: Ask, asks: &[(u8, Ask)]) -> Option<Name>
    requires few { length asks.now ≤ 256 }
    ensures exceeded { IfSome result (IsExceeded limits.now (map ask_in asks.now)) }
{
    match exceeded_one(limits, ask, Way::Down, asks) {
        Some(name) => Some(name),
        None => match exceeded_one(limits, ask, Way::Up, asks) {
            Some(name) => Some(name),
            None => {
                if is_exceeded(limits, Name::Server, asks) {
                    Some(Name::Server)
                } else {
                    None
                }
            }
        },
    }
}

/// The place of the first transfer whose session is not admitted after those before it.
fn refused_at<A: Allocator>(floors: &mut Floors<A>, transfers: &[Transfer]) -> Option<usize>
    ensures admitted { MatchOption result (are_admitted floors.old transfers.now ≡ true)
        (IsFirstRefused floors.old transfers.now) }
{
    for place in 0..transfers.len() {
        if !floors.admit(transfers[place].user) {
            return Some(place);
        }
    }
    None
}

/// Admits the session of each transfer, in their order.
///
/// `NotGuaranteed`: the place of the first whose guarantees do not fit with those before it.
pub(crate) fn admit_all<L: Allocator, A: Allocator + Clone>(
    alloc: A,
    limits: &Limits<L>,
    transfers: &[Transfer],
    asks: &[(u8, Ask)],
) -> Result<(), Unplanned>
    requires few { length asks.now ≤ 256 }
    requires asked { AreAsked limits.now.share_by transfers.now asks.now }
    ensures admitted { OnOk result (AreAdmitted limits.now transfers.now) }
    ensures refused { IfErr result (IsAdmissionFault limits.now transfers.now) }
{
    let mut floors = Floors::of(alloc, limits)?;
    match refused_at(&mut floors, transfers) {
        Some(place) => {
            let name = exceeded(limits, asks[place].1, &asks[..place + 1]);
            Err(Unplanned::NotGuaranteed(place, name))
        }
        None => Ok(()),
    }
}
