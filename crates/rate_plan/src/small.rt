//! The largest rates of a plan.

ghost use Rattle.std.specs.Prelude.{◌≡◌, ◌≤◌, IsTrue, Some, false, ℕ};
ghost use Rattle.std.specs.List.{All};
ghost use Rattle.line_rates.specs.Rates.{group_of, rate_of};
ghost use Rattle.line_rates.specs.TickTree.{ask_in};
ghost use Rattle.rate_plan.specs.declared.tens.TheConstants.{MAX_PLANNED};
ghost use Rattle.rate_plan.specs.Refused.{AreSmallFor, HasLarge};

use crate::tens::MAX_PLANNED;
use line_rates::{Ask, Limits, Name};
use std::alloc::Allocator;

fn is_large<L: Allocator>(limits: &Limits<L>, name: Name) -> bool
    ensures large { IsTrue result → HasLarge limits.now }
    ensures small { result ≡ false → rate_of limits.now name ≤ MAX_PLANNED }
{
    limits.rate(name) > MAX_PLANNED
}

fn is_group_large<L: Allocator>(limits: &Limits<L>, ask: Ask) -> bool
    ensures large { IsTrue result → HasLarge limits.now }
    ensures small { result ≡ false
        → (group : ℕ) → group_of limits.now ask.user ≡ Some group
        → rate_of limits.now (Name.Group ask.way group) ≤ MAX_PLANNED }
{
    match limits.group_of(ask.user) {
        Some(group) => is_large(limits, Name::Group(ask.way, group)),
        None => false,
    }
}

// Returns whether a rate of the names of an ask is above `MAX_PLANNED`.
fn is_large_for<L: Allocator>(limits: &Limits<L>, ask: Ask) -> bool
    ensures large { IsTrue result → HasLarge limits.now }
    ensures small { result ≡ false → AreSmallFor limits.now ask }
{
    is_large(limits, Name::Server)
        || is_large(limits, Name::Direction(ask.way))
        || is_group_large(limits, ask)
        || is_large(limits, Name::User(ask.way, ask.user))
        || is_large(limits, Name::Session(ask.way, ask.user, ask.session))
}

/// Returns whether a rate of the names of some ask is above `MAX_PLANNED`.
pub(crate) fn has_large<L: Allocator>(limits: &Limits<L>, asks: &[(u8, Ask)]) -> bool
    ensures large { IsTrue result → HasLarge limits.now }
    ensures small { result ≡ false → All (λ x. AreSmallFor limits.now (ask_in x)) asks.now }
{
    for place in 0..asks.len() {
        if is_large_for(limits, asks[place].1) {
            return true;
        }
    }
    false
}
