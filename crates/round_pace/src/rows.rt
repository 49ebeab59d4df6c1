//! The rows of a transfer: the credits of the rates that it is within.

ghost use Rattle.std.specs.Prelude.{◌≡◌};
ghost use Rattle.line_rates.specs.Stated.{IsRising};
ghost use Rattle.round_pace.specs.Paced.{group_key, pace_number, no_credit};
ghost use Rattle.round_pace.specs.Rows.{floor_of, user_credit, session_credit, group_credit, has_left, have_left, are_free, has_floor, user_floor};

use crate::credit::Credit;
use crate::paced::{GroupPace, UserPace, credit_of, find_group, find_user};
use line_rates::{UserRate, Way};

/// The credits of the rates that a transfer is within. If there is no such rate, the credit has a rate of 0, which is
/// no limit.
#[derive(Clone, Copy, Debug, PartialEq, Eq)]
pub struct TransferRows {
    /// The credit of the server.
    pub server: Credit,
    /// The credit of the direction.
    pub way: Credit,
    /// The credit of the user's group and the direction.
    pub group: Credit,
    /// The credit of the user and the direction.
    pub user: Credit,
    /// The credit that each session of the user has at least for the direction.
    pub session: Credit,
    /// The number of the user's group, if they are in one.
    pub group_number: Option<u32>,
    /// The guarantee of each session of the user for this direction, in octets a second; 0 is none. It is earned from one
    /// round to the next and not kept.
    pub floor: u64,
}

// Returns whether a rate has at least this number of octets left; 0 is no limit.
fn has_left(credit: Credit, octets: u64) -> bool
    ensures left { result ≡ has_left credit octets }
{
    credit.rate == 0 || octets <= credit.left
}

impl TransferRows {
    /// Returns whether sessions of the user have a guarantee of this direction.
    pub fn has_floor(&self) -> bool
        ensures floor { result ≡ has_floor self.now }
    {
        self.floor != 0
    }

    /// Returns whether each of the rates, that of a session too, has at least this number of octets left, and sessions of
    /// the user have no guarantee: if all asks of a round want no more than that together, the transfer is granted all that
    /// it asks for.
    pub fn have_left(&self, octets: u64) -> bool
        ensures left { result ≡ have_left self.now octets }
    {
        !self.has_floor()
            && has_left(self.server, octets)
            && has_left(self.way, octets)
            && has_left(self.group, octets)
            && has_left(self.user, octets)
            && has_left(self.session, octets)
    }

    /// Returns whether none of the rates is a limit.
    pub fn are_free(&self) -> bool
        ensures free { result ≡ are_free self.now }
    {
        self.server.rate == 0
            && self.way.rate == 0
            && self.group.rate == 0
            && self.user.rate == 0
            && self.session.rate == 0
    }
}

// The credit of a name without a rate.
fn no_limit() -> Credit
    ensures credit { result ≡ no_credit 0 }
{
    Credit { rate: 0, left: 0 }
}

/// The guarantee that each session of a user has for one way; 0 is none.
pub(crate) fn floor_of(row: UserRate, way: Way) -> u64
    ensures floor { result ≡ floor_of way row }
{
    match way {
        Way::Down => row.session_down_floor,
        Way::Up => row.session_up_floor,
    }
}

/// The credit of a user's transfers of one way.
pub(crate) fn user_credit(users: &[UserPace], user: u32, way: Way) -> Credit
    requires rising { IsRising pace_number users.now }
    ensures credit { result ≡ user_credit way users.now user }
{
    match find_user(users, user) {
        Some(place) => credit_of(users[place].down, users[place].up, way),
        None => no_limit(),
    }
}

/// The credit that each session of a user has at least for one way.
pub(crate) fn session_credit(users: &[UserPace], user: u32, way: Way) -> Credit
    requires rising { IsRising pace_number users.now }
    ensures credit { result ≡ session_credit way users.now user }
{
    match find_user(users, user) {
        Some(place) => credit_of(users[place].session_down, users[place].session_up, way),
        None => no_limit(),
    }
}

/// The credit of a group's transfers of one way.
pub(crate) fn group_credit(groups: &[GroupPace], group: Option<u32>, way: Way) -> Credit
    requires rising { IsRising group_key groups.now }
    ensures credit { result ≡ group_credit way groups.now group }
{
    match group {
        Some(group) => match find_group(groups, group) {
            Some(place) => credit_of(groups[place].down, groups[place].up, way),
            None => no_limit(),
        },
        None => no_limit(),
    }
}

/// The guarantee that each session of a user has for one way; 0 is none.
pub(crate) fn user_floor(users: &[UserPace], user: u32, way: Way) -> u64
    requires rising { IsRising pace_number users.now }
    ensures floor { result ≡ user_floor way users.now user }
{
    match find_user(users, user) {
        Some(place) => floor_of(users[place].row, way),
        None => 0,
    }
}
