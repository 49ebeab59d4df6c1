//! The asks of a round that share a part of the line.

ghost use Rattle.std.specs.Prelude.{◌≡◌, ◌≤◌, length};
ghost use Rattle.std.specs.List.{count_by};
ghost use Rattle.round_cadence.specs.Crowds.{crowd_of, is_beside};

use line_rates::{Ask, ShareBy, Way};

// Returns whether two asks are of the same user in the same direction.
fn is_beside(ask: Ask, other: Ask) -> bool
    ensures beside { result ≡ is_beside ask other }
{
    match (ask.way, other.way) {
        (Way::Down, Way::Down) | (Way::Up, Way::Up) => ask.user == other.user,
        _ => false,
    }
}

fn count_beside(asks: &[Ask], ask: Ask) -> u64
    ensures count { result ≡ count_by (is_beside ask) asks.now }
{
    let mut count = 0;
    for other in asks {
        if is_beside(ask, *other) {
            count += 1;
        }
    }
    count
}

/// Number of asks of a round that share the part of the line that `ask`, one of them, has: itself alone among sessions,
/// and among users all of the same user and direction.
pub fn crowd_of(share_by: ShareBy, asks: &[Ask], ask: Ask) -> u64
    ensures crowd { result ≡ crowd_of share_by asks.now ask }
{
    match share_by {
        ShareBy::Sessions => 1,
        ShareBy::Users => count_beside(asks, ask),
    }
}
