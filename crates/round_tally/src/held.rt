//! Numbers of rounds, by what held a transfer back.

ghost use Rattle.std.specs.Prelude.{◌≡◌};
ghost use Rattle.round_tally.specs.Counts.{depth, held_back, held_more, held_sum, innermost};

use line_rates::Name;

/// Numbers of rounds, by what held a transfer back.
#[derive(Clone, Copy, Debug, PartialEq, Eq)]
pub struct HeldTally {
    /// The limit of the server.
    pub server: u64,
    /// That of its direction.
    pub direction: u64,
    /// That of its user's group.
    pub group: u64,
    /// That of its user.
    pub user: u64,
    /// That of its session.
    pub session: u64,
    /// Nothing: it was granted all that it asked for.
    pub nothing: u64,
}

// The depth of a limit: a session's is the innermost, and nothing is outside of all.
fn depth(held: Option<Name>) -> u8
    ensures depth { result ≡ depth held }
{
    match held {
        None => 0,
        Some(Name::Server) => 1,
        Some(Name::Direction(_)) => 2,
        Some(Name::Group(_, _)) => 3,
        Some(Name::User(_, _)) => 4,
        Some(Name::Session(_, _, _)) => 5,
    }
}

/// The inner of two limits.
pub(crate) fn innermost(one: Option<Name>, other: Option<Name>) -> Option<Name>
    ensures inner { result ≡ innermost one other }
{
    if depth(one) < depth(other) {
        other
    } else {
        one
    }
}

/// The limit that held a transfer back in a round: the inner of that which was used up, and that whose row the round left
/// closed, which has the transfer wait for the next. Nothing did if no limit was used up.
pub fn held_back(used_up: Option<Name>, closed: Option<Name>) -> Option<Name>
    ensures held { result ≡ held_back used_up closed }
{
    match used_up {
        None => None,
        Some(_) => innermost(used_up, closed),
    }
}

impl HeldTally {
    /// No round yet.
    pub const NONE: HeldTally = HeldTally {
        server: 0,
        direction: 0,
        group: 0,
        user: 0,
        session: 0,
        nothing: 0,
    };

    /// Some more rounds, in which the limit of this name held the transfer back, or nothing.
    pub fn and_more(self, held: Option<Name>, rounds: u64) -> HeldTally
        ensures more { result ≡ held_more held rounds self }
    {
        let mut more = self;
        match held {
            None => more.nothing = self.nothing.saturating_add(rounds),
            Some(Name::Server) => more.server = self.server.saturating_add(rounds),
            Some(Name::Direction(_)) => more.direction = self.direction.saturating_add(rounds),
            Some(Name::Group(_, _)) => more.group = self.group.saturating_add(rounds),
            Some(Name::User(_, _)) => more.user = self.user.saturating_add(rounds),
            Some(Name::Session(_, _, _)) => more.session = self.session.saturating_add(rounds),
        }
        more
    }

    /// The rounds of both.
    pub fn and(self, other: HeldTally) -> HeldTally
        ensures sum { result ≡ held_sum self other }
    {
        HeldTally {
            server: self.server.saturating_add(other.server),
            direction: self.direction.saturating_add(other.direction),
            group: self.group.saturating_add(other.group),
            user: self.user.saturating_add(other.user),
            session: self.session.saturating_add(other.session),
            nothing: self.nothing.saturating_add(other.nothing),
        }
    }
}
