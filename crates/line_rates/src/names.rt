//! The names that an ask counts under, in the order in which their branches nest.

ghost use Rattle.std.specs.Prelude.{◌≡◌, ◌≤◌, IfSome};
ghost use Rattle.line_rates.specs.Grown.{key};

use crate::ask::{Ask, Name};
use crate::limits::Limits;
use std::alloc::Allocator;

/// The name of an ask at a level: the server's, its way's, its group's if it has one, its user's and its session's.
pub(crate) fn name_at<A: Allocator>(limits: &Limits<A>, ask: Ask, level: usize) -> Option<Name>
    ensures key { result ≡ key limits.now level ask }
    ensures level { IfSome result (λ _. level ≤ 4) }
{
    if level == 0 {
        return Some(Name::Server);
    }
    if level == 1 {
        return Some(Name::Direction(ask.way));
    }
    match limits.group_of(ask.user) {
        None => match level {
            2 => Some(Name::User(ask.way, ask.user)),
            3 => Some(Name::Session(ask.way, ask.user, ask.session)),
            _ => None,
        },
        Some(group) => match level {
            2 => Some(Name::Group(ask.way, group)),
            3 => Some(Name::User(ask.way, ask.user)),
            4 => Some(Name::Session(ask.way, ask.user, ask.session)),
            _ => None,
        },
    }
}
