//! The rates for which a session of a user, or a second one, cannot have its guarantees.

ghost use Rattle.std.specs.Prelude.{◌≡◌, ◌≤◌};
ghost use Rattle.config_report.specs.Floors.{fits, has_floor, rates_by, rates_named, second_shortage, short_down, short_of, short_up, shortage_of};

use config_file::{GroupTable, ServerTable, UserTable};
use std::fmt;

/// Returns the rates down and up of the group of a name; 0, which is no limit, if there is none.
fn rates_by(groups: &[GroupTable], name: &str) -> (u64, u64)
    ensures rates { result ≡ rates_by groups.now name.now }
{
    for group in groups {
        if group.name == name {
            return (group.down_rate, group.up_rate);
        }
    }
    (0, 0)
}

/// Returns the rates down and up of a group; 0, which is no limit, without a name.
fn rates_named(groups: &[GroupTable], name: Option<&str>) -> (u64, u64)
    ensures rates { result ≡ rates_named groups.now name.entry }
{
    match name {
        Some(name) => rates_by(groups, name),
        None => (0, 0),
    }
}

/// Returns whether a sum is within a rate; a rate of 0 is no limit.
pub(crate) fn fits(sum: u64, rate: u64) -> bool
    ensures fits { result ≡ fits sum rate }
{
    rate == 0 || sum <= rate
}

/// Returns whether the sessions of a user have a guarantee.
pub(crate) fn has_floor(user: &UserTable) -> bool
    ensures floor { result ≡ has_floor user.now }
{
    user.session_down_floor != 0 || user.session_up_floor != 0
}

/// The rate of which guarantees are too much: of the server, both ways together or one way, of a group, a user or a
/// session. It prints in the words of a plan.
#[derive(Clone, Copy, Debug, PartialEq, Eq)]
pub enum ShortRate<'a> {
    Server,
    ServerDown,
    ServerUp,
    GroupDown(Option<&'a str>),
    GroupUp(Option<&'a str>),
    UserDown(&'a str),
    UserUp(&'a str),
    SessionDown,
    SessionUp,
}

/// A rate that guarantees do not fit into: what would be guaranteed, and the rate, in octets a second.
#[derive(Clone, Copy, Debug, PartialEq, Eq)]
pub struct Shortage<'a> {
    pub limit: ShortRate<'a>,
    pub promised: u64,
    pub rate: u64,
}

impl fmt::Display for ShortRate<'_> {
    ghost use Rattle.std.specs.Prelude.{Some};
    ghost use Rattle.config_report.specs.Lines.{short_rate_text};

    ghost output = { λ limit. Some (short_rate_text limit) };

    fn fmt<W: fmt::Write>(&self, f: &mut fmt::Formatter<W>) -> fmt::Result {
        match self {
            ShortRate::Server => f.write_str("server"),
            ShortRate::ServerDown => f.write_str("server down"),
            ShortRate::ServerUp => f.write_str("server up"),
            ShortRate::GroupDown(Some(name)) => write!(f, "group {name} down"),
            ShortRate::GroupDown(None) => f.write_str("group down"),
            ShortRate::GroupUp(Some(name)) => write!(f, "group {name} up"),
            ShortRate::GroupUp(None) => f.write_str("group up"),
            ShortRate::UserDown(name) => write!(f, "user {name} down"),
            ShortRate::UserUp(name) => write!(f, "user {name} up"),
            ShortRate::SessionDown => f.write_str("session down"),
            ShortRate::SessionUp => f.write_str("session up"),
        }
    }
}

impl fmt::Display for Shortage<'_> {
    ghost use Rattle.std.specs.Prelude.{Some};
    ghost use Rattle.config_report.specs.Lines.{shortage_text};

    ghost output = { λ why. Some (shortage_text why) };

    fn fmt<W: fmt::Write>(&self, f: &mut fmt::Formatter<W>) -> fmt::Result {
        let Shortage {
            limit,
            promised,
            rate,
        } = *self;
        write!(
            f,
            "{promised} octets a second would be guaranteed of the {rate} of {limit}"
        )
    }
}

fn short_of<'a>(limit: ShortRate<'a>, promised: u64, rate: u64) -> Option<Shortage<'a>>
    ensures short { result ≡ short_of limit.entry promised rate }
{
    if fits(promised, rate) {
        None
    } else {
        Some(Shortage {
            limit,
            promised,
            rate,
        })
    }
}

/// The first rate that the guarantees downwards of sessions of a user, whose group has this rate, do not fit into.
fn short_down<'a>(
    server: &ServerTable,
    group: u64,
    user: &UserTable<'a>,
    sessions: u64,
) -> Option<Shortage<'a>>
    requires few { sessions ≤ 2 }
    ensures short { result ≡ short_down server.now group user.now sessions }
{
    let each = user.session_down_floor;
    let all = sessions * each;
    short_of(ShortRate::SessionDown, each, user.session_down_rate)
        .or(short_of(ShortRate::UserDown(user.name), all, user.down_rate))
        .or(short_of(ShortRate::GroupDown(user.group), all, group))
        .or(short_of(ShortRate::ServerDown, all, server.down_rate))
}

/// The same upwards.
fn short_up<'a>(
    server: &ServerTable,
    group: u64,
    user: &UserTable<'a>,
    sessions: u64,
) -> Option<Shortage<'a>>
    requires few { sessions ≤ 2 }
    ensures short { result ≡ short_up server.now group user.now sessions }
{
    let each = user.session_up_floor;
    let all = sessions * each;
    short_of(ShortRate::SessionUp, each, user.session_up_rate)
        .or(short_of(ShortRate::UserUp(user.name), all, user.up_rate))
        .or(short_of(ShortRate::GroupUp(user.group), all, group))
        .or(short_of(ShortRate::ServerUp, all, server.up_rate))
}

/// The first rate that the guarantees of sessions of a user do not fit into, downwards, upwards, and both ways
/// together, alone on the server.
fn shortage_of<'a>(
    server: &ServerTable,
    groups: &[GroupTable],
    user: &UserTable<'a>,
    sessions: u64,
) -> Option<Shortage<'a>>
    requires few { sessions ≤ 2 }
    ensures short { result ≡ shortage_of server.now groups.now user.now sessions }
{
    let (down, up) = rates_named(groups, user.group);
    let both = sessions * user.session_down_floor + sessions * user.session_up_floor;
    short_down(server, down, user, sessions)
        .or(short_up(server, up, user, sessions))
        .or(short_of(ShortRate::Server, both, server.rate))
}

/// The rate for which not even the first session of a user can have its guarantees.
pub(crate) fn first_shortage<'a>(
    server: &ServerTable,
    groups: &[GroupTable],
    user: &UserTable<'a>,
) -> Option<Shortage<'a>>
    ensures short { result ≡ shortage_of server.now groups.now user.now 1 }
{
    shortage_of(server, groups, user, 1)
}

/// The rate for which a second session of a user cannot have the guarantees of the first, if that can have them.
pub(crate) fn second_shortage<'a>(
    server: &ServerTable,
    groups: &[GroupTable],
    user: &UserTable<'a>,
) -> Option<Shortage<'a>>
    ensures short { result ≡ second_shortage server.now groups.now user.now }
{
    match shortage_of(server, groups, user, 1) {
        Some(_) => None,
        None => shortage_of(server, groups, user, 2),
    }
}
