//! Counted sessions and their guarantees.

ghost use Rattle.std.specs.Prelude.{◌≡◌, ◌+◌, ◌*◌, ◌<◌, ◌≤◌, ◌^◌, IsTrue, IfOk, Some, map};
ghost use Rattle.line_rates.specs.declared.ask.Way.TheVariants.{Down, Up};
ghost use Rattle.rate_floors.specs.Promises.{PromisesFit, HasNoSessions, no_session, admits, after_admit, after_release, counted, has_counted, has_guarantee, user_of, user_key, promised, promised_with_more, is_small, group_fits, line_fits};
ghost use Rattle.rate_floors.specs.Promises.{user_row};
ghost use Rattle.line_rates.specs.Stated.{by_number, user_number, IsRising, FitsUser};
ghost use Rattle.memory_terms.specs.Lack.{AsDefined};
ghost use Rattle.rate_floors.specs.Carried.{sessions_of, carried_entry, carry_fault, unless_broken, carried};
ghost use Rattle.rate_floors.specs.Refusals.{broken_in_group, first_above, refusal};
ghost use Rattle.std.specs.List.{All};

use crate::carry::{
    CarryFault, broken_line, broken_row, broken_sums, first_broken_group, first_broken_user,
    no_promises, promised_groups, sums,
};
use crate::find::{GroupPromise, UserSessions, add, find_group, find_user, take};
use crate::fits::{MAX_PROMISED, group_keeps, keeps, session_fits, user_fits};
use line_rates::{Limits, Name, ShareBy, UserRate, Way};
use std::alloc::{AllocError, Allocator, Global};
use std::marker::Model;

/// The number of counted sessions of each user, and the sums of their guarantees.
#[derive(Drop)]
pub struct Floors<A: Allocator = Global> {
    share_by: ShareBy,
    server: u64,
    down: u64,
    up: u64,
    promised_down: u64,
    promised_up: u64,
    // sorted by number
    groups: Vec<GroupPromise, A>,
    users: Vec<UserSessions, A>,
}

impl<A: Allocator> Model for Floors<A> {
    ghost use Rattle.rate_floors.specs.Promises.{Promises, promises_code, seen, IsKept};

    ghost Value = { Promises };

    ghost coded = { promises_code };

    ghost view = { λ f. seen f.share_by f.server f.down f.up f.groups.items f.users.items };

    ghost invariant = { λ f.
        IsKept f.share_by f.server f.down f.up f.promised_down f.promised_up f.groups.items f.users.items };
}

fn no_sessions<A: Allocator>(
    alloc: A,
    rows: &[UserRate],
) -> Result<Vec<UserSessions, A>, AllocError>
    ensures none { IfOk result (λ users. users.items ≡ map no_session rows.now) }
{
    let mut users = Vec::new(alloc);
    for row in rows {
        users.push(UserSessions {
            row: *row,
            sessions: 0,
        })?;
    }
    Ok(users)
}

/// The guarantees of counted sessions of users under limits, if they fit.
fn fitted<A: Allocator + Clone, L: Allocator>(
    alloc: A,
    limits: &Limits<L>,
    users: Vec<UserSessions, A>,
) -> Result<Floors<A>, CarryFault>
    requires rows { by_number user_number (map user_row users.items) ≡ limits.now.users }
    requires rising { IsRising user_key users.items }
    requires fit { All (λ entry. FitsUser entry.row) users.items }
    requires few { All (λ entry. entry.sessions ≤ MAX_PROMISED) users.items }
    ensures floors { AsDefined CarryFault.Memory result
        (unless_broken (carry_fault (record { rates = limits.now; users = users.items }))
        (record { rates = limits.now; users = users.items })) }
{
    let Some((promised_down, promised_up)) = sums(&users) else {
        return Err(CarryFault::TooLarge);
    };
    let groups = promised_groups(alloc, limits.groups(), &users)?;
    let server = limits.rate(Name::Server);
    let down = limits.rate(Name::Direction(Way::Down));
    let up = limits.rate(Name::Direction(Way::Up));
    let share_by = limits.share_by();
    let fault = first_broken_user(&users)
        .or(first_broken_group(&groups))
        .or(broken_line(promised_down, promised_up, server, down, up));
    match fault {
        Some(fault) => Err(fault),
        None => Ok(Floors {
            share_by,
            server,
            down,
            up,
            promised_down,
            promised_up,
            groups,
            users,
        }),
    }
}

impl<A: Allocator + Clone> Floors<A> {
    /// The guarantees of limits, with no session counted. Returns `AllocError` only if memory runs out.
    pub fn of<L: Allocator>(alloc: A, limits: &Limits<L>) -> Result<Floors<A>, AllocError>
        ensures rates { IfOk result (λ f. f.rates ≡ limits.now) }
        ensures none { IfOk result (λ f. HasNoSessions f) }
    {
        let users = no_sessions(alloc.clone()?, limits.users())?;
        let groups = no_promises(alloc, limits.groups())?;
        Ok(Floors {
            share_by: limits.share_by(),
            server: limits.rate(Name::Server),
            down: limits.rate(Name::Direction(Way::Down)),
            up: limits.rate(Name::Direction(Way::Up)),
            promised_down: 0,
            promised_up: 0,
            groups,
            users,
        })
    }
}

impl<A: Allocator> Floors<A> {
    /// After any calls, the guarantees of the counted sessions are within all rates.
    pub fn promises_fit(&self)
        ensures fit { PromisesFit self.now }
    {
        // makes the prover recall the type's invariant, as any access to a part of a value does
        let _ = &self.users;
    }

    // The number of counted sessions of a user; 0 without a row.
    fn sessions_of(&self, user: u32) -> u64
        ensures sessions { result ≡ sessions_of self.now user }
        ensures few { result ≤ MAX_PROMISED }
    {
        match find_user(&self.users, user) {
            Some(place) => self.users[place].sessions,
            None => 0,
        }
    }

    // Users with these rows, each with as many sessions as are counted of the number.
    fn carried_users<B: Allocator>(
        &self,
        alloc: B,
        rows: &[UserRate],
    ) -> Result<Vec<UserSessions, B>, AllocError>
        ensures users { IfOk result
            (λ users. users.items ≡ map (carried_entry self.now) rows.now) }
        ensures few { IfOk result
            (λ users. All (λ entry. entry.sessions ≤ MAX_PROMISED) users.items) }
    {
        let mut users = Vec::new(alloc);
        for row in rows {
            users.push(UserSessions {
                row: *row,
                sessions: self.sessions_of(row.user),
            })?;
        }
        Ok(users)
    }

    /// The counted sessions under other rates and guarantees: each user with a row there has as many sessions as are
    /// counted here of the same number, and none if that has no row here. `Err` if their guarantees do not fit, or
    /// memory runs out.
    pub fn carried<B: Allocator + Clone, L: Allocator>(
        &self,
        alloc: B,
        limits: &Limits<L>,
    ) -> Result<Floors<B>, CarryFault>
        ensures carried { AsDefined CarryFault.Memory result (carried self.now limits.now) }
    {
        let users = self.carried_users(alloc.clone()?, limits.users())?;
        fitted(alloc, limits, users)
    }

    // Sums of the guarantees of all counted sessions and one more of a user, down and up.
    fn line_after(&self, entry: UserSessions) -> (u64, u64)
        requires stands { user_of self.now (user_key entry) ≡ Some entry }
        ensures down { result.0 ≡ promised (counted self.now (user_key entry)).users Down }
        ensures up { result.1 ≡ promised (counted self.now (user_key entry)).users Up }
        ensures room { result.0 + result.1 < 2 ^ 64 }
        ensures user_down { promised_with_more Down entry ≤ result.0 }
        ensures user_up { promised_with_more Up entry ≤ result.1 }
    {
        let down = self.promised_down + entry.row.session_down_floor;
        let up = self.promised_up + entry.row.session_up_floor;
        (down, up)
    }

    // Returns whether sums and counts stay within `MAX_PROMISED` with one more session of a user.
    fn is_small(&self, entry: UserSessions) -> bool
        requires stands { user_of self.now (user_key entry) ≡ Some entry }
        ensures small { result ≡ is_small (counted self.now (user_key entry)) entry.sessions }
        ensures user_down { IsTrue result → promised_with_more Down entry ≤ MAX_PROMISED }
        ensures user_up { IsTrue result → promised_with_more Up entry ≤ MAX_PROMISED }
        ensures room { IsTrue result → entry.sessions < MAX_PROMISED }
    {
        let (down, up) = self.line_after(entry);
        down + up <= MAX_PROMISED && entry.sessions < MAX_PROMISED
    }

    // Returns whether one more session of a user is within the rates of the ways and of the server.
    fn line_fits(&self, entry: UserSessions) -> bool
        requires stands { user_of self.now (user_key entry) ≡ Some entry }
        ensures fits { result ≡ line_fits (counted self.now (user_key entry)) }
    {
        let (down, up) = self.line_after(entry);
        keeps(down, self.down) && keeps(up, self.up) && keeps(down + up, self.server)
    }

    // Returns whether one more session of a user is within the rates of the user's group.
    fn group_fits(&self, entry: UserSessions) -> bool
        requires stands { user_of self.now (user_key entry) ≡ Some entry }
        ensures fits { result ≡ group_fits (counted self.now (user_key entry)) entry.row.group }
    {
        match find_group(&self.groups, entry.row.group) {
            None => true,
            Some(at) => group_keeps(self.groups[at], entry.row),
        }
    }

    // Returns whether one more session of a user fits.
    fn fits(&self, entry: UserSessions) -> bool
        requires stands { user_of self.now (user_key entry) ≡ Some entry }
        ensures fits { result ≡ admits self.now (user_key entry) }
    {
        self.is_small(entry)
            && (session_fits(entry.row)
                && user_fits(entry.row, entry.sessions + 1)
                && self.group_fits(entry)
                && self.line_fits(entry))
    }

    // The first limit of a user's group that the guarantees are above with one more session of the user.
    fn broken_in_group(&self, entry: UserSessions) -> Option<CarryFault>
        requires stands { user_of self.now (user_key entry) ≡ Some entry }
        ensures broken { result
            ≡ broken_in_group (counted self.now (user_key entry)) entry.row.group }
    {
        match find_group(&self.groups, entry.row.group) {
            None => None,
            Some(at) => {
                let group = self.groups[at];
                broken_sums(GroupPromise {
                    row: group.row,
                    down: group.down + entry.row.session_down_floor,
                    up: group.up + entry.row.session_up_floor,
                })
            }
        }
    }

    // The first limit that the guarantees are above with one more session of a user.
    fn first_above(&self, entry: UserSessions) -> Option<CarryFault>
        requires stands { user_of self.now (user_key entry) ≡ Some entry }
        requires small { IsTrue (is_small (counted self.now (user_key entry)) entry.sessions) }
        ensures broken { result ≡ first_above (counted self.now (user_key entry)) entry }
    {
        let (down, up) = self.line_after(entry);
        let sessions = entry.sessions + 1;
        let more = UserSessions {
            row: entry.row,
            sessions,
        };
        broken_row(more)
            .or(self.broken_in_group(entry))
            .or(broken_line(down, up, self.server, self.down, self.up))
    }

    /// Why `admit` refuses one more session of `user`, which it does exactly if there is a reason: the first limit that
    /// the guarantees would be above with it, in the order of `CarryFault`.
    pub fn refusal(&self, user: u32) -> Option<CarryFault>
        ensures refusal { result ≡ refusal self.now user }
    {
        let Some(place) = find_user(&self.users, user) else {
            return None;
        };
        let entry = self.users[place];
        if !self.is_small(entry) {
            return Some(CarryFault::TooLarge);
        }
        self.first_above(entry)
    }

    /// Admits one more session of `user` and counts it, if all guarantees still fit the rates of session, user, group,
    /// way and server. Otherwise returns `false` and changes nothing. A session of a user without a row is always
    /// admitted and not counted.
    pub fn admit(&mut self, user: u32) -> bool
        ensures admits { result ≡ admits self.old user }
        ensures counted { self.new ≡ after_admit self.old user }
    {
        let Some(place) = find_user(&self.users, user) else {
            return true;
        };
        let entry = self.users[place];
        if !self.fits(entry) {
            return false;
        }
        add(&mut self.groups, entry.row);
        self.promised_down += entry.row.session_down_floor;
        self.promised_up += entry.row.session_up_floor;
        self.users[place] = UserSessions {
            row: entry.row,
            sessions: entry.sessions + 1,
        };
        true
    }

    /// Returns whether something is guaranteed to each session of `user`, down or up.
    pub fn has_guarantee(&self, user: u32) -> bool
        ensures guarantee { result ≡ has_guarantee (user_of self.now user) }
    {
        match find_user(&self.users, user) {
            Some(place) => {
                let row = self.users[place].row;
                row.session_down_floor > 0 || row.session_up_floor > 0
            }
            None => false,
        }
    }

    /// Takes back one session of `user`, if one is counted. Otherwise returns `false` and changes nothing.
    pub fn release(&mut self, user: u32) -> bool
        ensures has { result ≡ has_counted self.old user }
        ensures released { self.new ≡ after_release self.old user }
    {
        let Some(place) = find_user(&self.users, user) else {
            return false;
        };
        let entry = self.users[place];
        if entry.sessions == 0 {
            return false;
        }
        take(&mut self.groups, entry.row);
        self.promised_down -= entry.row.session_down_floor;
        self.promised_up -= entry.row.session_up_floor;
        self.users[place] = UserSessions {
            row: entry.row,
            sessions: entry.sessions - 1,
        };
        true
    }
}
