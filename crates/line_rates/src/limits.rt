//! The rates of a line, its groups and its users.

ghost use Rattle.std.specs.Prelude.{◌≡◌, ◌≤◌, IfOk, IfSome};
ghost use Rattle.std.specs.Result.{result_err};
ghost use Rattle.std.specs.FinMap as finite;
ghost use Rattle.line_rates.specs.Rates.{group_of, rate_of};
ghost use Rattle.std.specs.List.{All};
ghost use Rattle.line_rates.specs.Stated.{group_number, user_number, by_number, stated, limits_fault, has_large_rate, IsRising, FitsGroup, FitsUser};
ghost use Rattle.line_rates.specs.Names.{floor_of};
ghost use Rattle.line_rates.specs.Put.{with_line, with_group, with_user};
ghost use Rattle.line_rates.specs.Rates.{shared_by};

use crate::ask::{Ask, Name};
use crate::fault::LimitsFault;
use crate::rate::MAX_RATE;
use crate::row::{GroupRate, UserRate, either};
use crate::rows::{
    find_group, find_user, groups_rise, has_large_group, has_large_user, has_stray_user,
    replace_group, replace_user, sort_groups, sort_users, users_rise,
};
use crate::share_by::ShareBy;
use std::alloc::{Allocator, Global};
use std::marker::Model;

/// The rates of a line, its groups and its users, and among whom the line is shared. Contracts see the rows as finite
/// maps from numbers to rates.
#[derive(Drop)]
pub struct Limits<A: Allocator = Global> {
    server: u64,
    down: u64,
    up: u64,
    // sorted by number
    groups: Vec<GroupRate, A>,
    users: Vec<UserRate, A>,
    share_by: ShareBy,
}

impl<A: Allocator> Model for Limits<A> {
    ghost use Rattle.line_rates.specs.Rates.{Rates, rates_code, shared_by};
    ghost use Rattle.line_rates.specs.Stated.{stated, IsKept};

    ghost Value = { Rates };

    ghost coded = { rates_code };

    ghost view = { λ l.
        shared_by l.share_by (stated l.server l.down l.up l.groups.items l.users.items) };

    ghost invariant = { λ l. IsKept l.server l.down l.up l.groups.items l.users.items };
}

fn has_large_rate(server: u64, down: u64, up: u64, groups: &[GroupRate], users: &[UserRate]) -> bool
    ensures large { result ≡ has_large_rate server down up groups.now users.now }
{
    server > MAX_RATE
        || down > MAX_RATE
        || up > MAX_RATE
        || has_large_group(groups)
        || has_large_user(users)
}

impl<A: Allocator> Limits<A> {
    /// The limits set by the rates of the server, its two ways, groups and users, of a line that is shared among its
    /// sessions. The rows may come in any order; a user or group without a row has no limit of its own. No memory,
    /// O(n log n) time.
    pub fn of(
        server: u64,
        down: u64,
        up: u64,
        groups: Vec<GroupRate, A>,
        users: Vec<UserRate, A>,
    ) -> Result<Limits<A>, LimitsFault>
        ensures fault { limits_fault server down up groups.items users.items ≡ result_err result }
        ensures limits { IfOk result (λ l. l ≡ stated server down up groups.items users.items) }
    {
        if has_large_rate(server, down, up, &groups, &users) {
            return Err(LimitsFault::RateTooLarge);
        }
        let mut groups = groups;
        let mut users = users;
        sort_groups(&mut groups);
        sort_users(&mut users);
        if !groups_rise(&groups) {
            return Err(LimitsFault::Twice);
        }
        if !users_rise(&users) {
            return Err(LimitsFault::Twice);
        }
        if has_stray_user(&groups, &users) {
            return Err(LimitsFault::NoSuchGroup);
        }
        Ok(Limits {
            server,
            down,
            up,
            groups,
            users,
            share_by: ShareBy::Sessions,
        })
    }

    /// These limits, of a line that is shared among others.
    pub fn shared_by(self, share_by: ShareBy) -> Limits<A>
        ensures shared { result ≡ shared_by share_by self }
    {
        let Limits {
            server,
            down,
            up,
            groups,
            users,
            share_by: _,
        } = self;
        Limits {
            server,
            down,
            up,
            groups,
            users,
            share_by,
        }
    }

    /// Among whom the line is shared.
    pub fn share_by(&self) -> ShareBy
        ensures share_by { result ≡ self.now.share_by }
    {
        self.share_by
    }

    /// The users' rows, sorted by number.
    pub fn users(&self) -> &[UserRate]
        ensures rows { by_number user_number result.now ≡ self.now.users }
        ensures rising { IsRising user_number result.now }
        ensures fit { All FitsUser result.now }
    {
        self.users.as_slice()
    }

    /// The groups' rows, sorted by number.
    pub fn groups(&self) -> &[GroupRate]
        ensures rows { by_number group_number result.now ≡ self.now.groups }
        ensures rising { IsRising group_number result.now }
        ensures fit { All FitsGroup result.now }
    {
        self.groups.as_slice()
    }

    /// The row of a user, if there is one.
    pub fn user_row(&self, user: u32) -> Option<UserRate>
        ensures row { result ≡ finite.get self.now.users user }
        ensures fits { IfSome result FitsUser }
    {
        find_user(&self.users, user)
    }

    /// The row of a group, if there is one.
    pub fn group_row(&self, group: u32) -> Option<GroupRate>
        ensures row { result ≡ finite.get self.now.groups group }
        ensures fits { IfSome result FitsGroup }
    {
        find_group(&self.groups, group)
    }

    /// The group of a user, if they are in one.
    pub fn group_of(&self, user: u32) -> Option<u32>
        ensures group { result ≡ group_of self.now user }
    {
        match self.user_row(user) {
            Some(row) => row.group,
            None => None,
        }
    }

    /// The rate of a name, in octets per second; 0, which is no limit, if none is stated.
    pub fn rate(&self, name: Name) -> u64
        ensures rate { result ≡ rate_of self.now name }
        ensures most { result ≤ MAX_RATE }
    {
        match name {
            Name::Server => self.server,
            Name::Direction(way) => either(self.down, self.up, way),
            Name::Group(way, group) => match self.group_row(group) {
                Some(row) => either(row.down, row.up, way),
                None => 0,
            },
            Name::User(way, user) => match self.user_row(user) {
                Some(row) => either(row.down, row.up, way),
                None => 0,
            },
            Name::Session(way, user, _) => match self.user_row(user) {
                Some(row) => either(row.session_down, row.session_up, way),
                None => 0,
            },
        }
    }

    /// The floor of an ask in any tick, in octets: a tenth of its session's guarantee per second, rounded down, and at
    /// most its want.
    pub fn floor(&self, ask: Ask) -> u64
        ensures floor { result ≡ floor_of self.now ask }
    {
        match self.user_row(ask.user) {
            Some(row) => ask.want.min(
                either(row.session_down_floor, row.session_up_floor, ask.way) / 10,
            ),
            None => 0,
        }
    }

    /// Replaces the rates of the server and its two ways.
    pub fn put_line(&mut self, server: u64, down: u64, up: u64)
        requires server { server ≤ MAX_RATE }
        requires down { down ≤ MAX_RATE }
        requires up { up ≤ MAX_RATE }
        ensures put { self.new ≡ with_line self.old server down up }
    {
        self.server = server;
        self.down = down;
        self.up = up;
    }

    /// Replaces the rates of a group, if it has a row. No memory. If the row is at the index `guess` of `groups`, this
    /// takes one comparison, otherwise a binary search.
    pub fn put_group(&mut self, row: GroupRate, guess: usize)
        requires fits { FitsGroup row }
        ensures put { self.new ≡ with_group self.old row }
    {
        replace_group(&mut self.groups, row, guess);
    }

    /// Replaces the rates of a user, if they have a row. No memory. If the row is at the index `guess` of `users`, this
    /// takes one comparison, otherwise a binary search. The row's group is not checked: a group without a row limits
    /// nobody.
    pub fn put_user(&mut self, row: UserRate, guess: usize)
        requires fits { FitsUser row }
        ensures put { self.new ≡ with_user self.old row }
    {
        replace_user(&mut self.users, row, guess);
    }
}
