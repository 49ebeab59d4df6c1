//! The pace of rounds under the rates of a line.

ghost use Rattle.std.specs.Prelude.{◌≡◌, ◌<◌, ◌^◌, IfOk, map};
ghost use Rattle.round_pace.specs.Changed.{IsChangedTo};
ghost use Rattle.round_pace.specs.Earned.{tick_of};
ghost use Rattle.round_pace.specs.Offered.{refill_all, offer_all, with_offered, offer_round, left_rates, due_in};
ghost use Rattle.round_pace.specs.Paced.{Paced, new_group, new_user, IsPacedFrom};
ghost use Rattle.round_pace.specs.Rows.{rows_of};
ghost use Rattle.round_pace.specs.Spent.{due_for_in};
ghost use Rattle.round_pace.specs.Taken.{take_from_line, take_octets};

use crate::changed::{changed_groups, changed_users};
use crate::credit::{Credit, TICK_MICROS, changed_credit, is_dry, refill_row, take_row};
use crate::due::Due;
use crate::paced::{
    GroupPace, UserPace, credit_of, credit_rate, group_of, is_group_spent, is_user_spent,
    line_parts, put_groups, put_users, refill_groups, refill_users, take_groups, take_if_down,
    take_if_up, take_users,
};
use crate::quiet::begin_second;
use crate::rows::{TransferRows, group_credit, session_credit, user_credit, user_floor};
use line_rates::{GroupRate, Limits, Name, UserRate, Way};
use std::alloc::{AllocError, Allocator, Global};
use std::marker::Model;

/// The credits of all rates, and the limits that a round is handed.
#[derive(Drop)]
pub struct Pace<A: Allocator = Global> {
    begun: u64,
    moment: u64,
    server: Credit,
    down: Credit,
    up: Credit,
    groups: Vec<GroupPace, A>,
    users: Vec<UserPace, A>,
    // marks of quiet rows, each at the place of its row
    quiet_groups: Vec<bool, A>,
    quiet_users: Vec<bool, A>,
    offered: Limits<A>,
    // the limits are those of the rows
    is_handed: bool,
}

impl<A: Allocator> Model for Pace<A> {
    ghost use Rattle.round_pace.specs.Handed.{IsPaced};
    ghost use Rattle.round_pace.specs.Paced.{Paced, paced_code};

    ghost Value = { Paced };

    ghost coded = { paced_code };

    ghost view = { λ p. record {
      begun = p.begun;
      moment = p.moment;
      server = p.server;
      down = p.down;
      up = p.up;
      groups = p.groups.items;
      users = p.users.items;
      offered = p.offered;
    } };

    ghost invariant = { λ p. IsPaced p.begun p.is_handed p.server p.down p.up p.groups.items
        p.users.items p.quiet_groups.items p.quiet_users.items p.offered };
}

fn new_groups<A: Allocator>(alloc: A, rows: &[GroupRate]) -> Result<Vec<GroupPace, A>, AllocError>
    ensures groups { IfOk result (λ groups. groups.items ≡ map new_group rows.now) }
{
    let mut groups = Vec::new(alloc);
    for row in rows {
        groups.push(GroupPace {
            group: row.group,
            down: Credit {
                rate: row.down,
                left: 0,
            },
            up: Credit {
                rate: row.up,
                left: 0,
            },
        })?;
    }
    Ok(groups)
}

fn new_users<A: Allocator>(alloc: A, rows: &[UserRate]) -> Result<Vec<UserPace, A>, AllocError>
    ensures users { IfOk result (λ users. users.items ≡ map new_user rows.now) }
{
    let mut users = Vec::new(alloc);
    for row in rows {
        users.push(UserPace {
            row: *row,
            down: Credit {
                rate: row.down,
                left: 0,
            },
            up: Credit {
                rate: row.up,
                left: 0,
            },
            session_down: Credit {
                rate: row.session_down,
                left: 0,
            },
            session_up: Credit {
                rate: row.session_up,
                left: 0,
            },
            down_owed: 0,
            up_owed: 0,
        })?;
    }
    Ok(users)
}

impl<A: Allocator + Clone> Pace<A> {
    /// The pace of the rates of limits, with nothing earned, from `now` in microseconds.
    pub fn of(alloc: A, limits: Limits<A>, now: u64) -> Result<Pace<A>, AllocError>
        ensures rates { IfOk result (λ p. IsPacedFrom (tick_of now) limits p) }
    {
        let groups = new_groups(alloc.clone()?, limits.groups())?;
        let users = new_users(alloc.clone()?, limits.users())?;
        let quiet_groups = vec![in alloc.clone()?; false; groups.len()]?;
        let quiet_users = vec![in alloc; false; users.len()]?;
        let server = limits.rate(Name::Server);
        let down = limits.rate(Name::Direction(Way::Down));
        let up = limits.rate(Name::Direction(Way::Up));
        Ok(Pace {
            begun: now / TICK_MICROS,
            moment: 0,
            server: Credit {
                rate: server,
                left: 0,
            },
            down: Credit {
                rate: down,
                left: 0,
            },
            up: Credit { rate: up, left: 0 },
            groups,
            users,
            quiet_groups,
            quiet_users,
            offered: limits,
            is_handed: false,
        })
    }

    /// This pace with the rates of other limits. Under each name that had a rate, what is left is kept, up to the most
    /// that the new rate keeps.
    pub fn with_rates(&self, alloc: A, limits: Limits<A>) -> Result<Pace<A>, AllocError>
        ensures changed { IfOk result (λ p. IsChangedTo limits self.now p) }
    {
        let groups = changed_groups(alloc.clone()?, &self.groups, limits.groups())?;
        let users = changed_users(alloc.clone()?, &self.users, limits.users())?;
        let quiet_groups = vec![in alloc.clone()?; false; groups.len()]?;
        let quiet_users = vec![in alloc; false; users.len()]?;
        let server = changed_credit(limits.rate(Name::Server), self.server);
        let down = changed_credit(limits.rate(Name::Direction(Way::Down)), self.down);
        let up = changed_credit(limits.rate(Name::Direction(Way::Up)), self.up);
        Ok(Pace {
            begun: self.begun,
            moment: self.moment,
            server,
            down,
            up,
            groups,
            users,
            quiet_groups,
            quiet_users,
            offered: limits,
            is_handed: false,
        })
    }
}

impl<A: Allocator> Pace<A> {
    // Refills the rows if a tick begins.
    fn begin(&mut self, tick: u64)
        requires tick { tick < 2 ^ 63 }
        ensures begun { self.new ≡ refill_all tick self.old }
        ensures later { tick < self.new.begun }
    {
        let begun = self.begun;
        if tick < begun {
            return;
        }
        self.server = refill_row(self.server, begun, tick);
        self.down = refill_row(self.down, begun, tick);
        self.up = refill_row(self.up, begun, tick);
        begin_second(&mut self.quiet_groups, begun, tick);
        begin_second(&mut self.quiet_users, begun, tick);
        refill_groups(&mut self.groups, &self.quiet_groups, begun, tick);
        refill_users(&mut self.users, &self.quiet_users, begun, tick);
        self.begun = tick + 1;
        self.is_handed = false;
    }

    // Writes what is left into the limits, for a round of a tick that has begun.
    fn hand_in(&mut self)
        ensures offered { self.new ≡ with_offered (offer_all self.old) self.old }
        ensures handed { self.new.offered ≡ left_rates self.new }
    {
        self.offered.put_line(
            credit_rate(self.server),
            credit_rate(self.down),
            credit_rate(self.up),
        );
        put_groups(&mut self.offered, &self.groups, &mut self.quiet_groups);
        let down = line_parts(self.server, self.down);
        let up = line_parts(self.server, self.up);
        put_users(
            &mut self.offered,
            &self.users,
            &mut self.quiet_users,
            &self.groups,
            down,
            up,
        );
        self.is_handed = true;
        self.moment = self.moment.saturating_add(1_000);
    }

    /// The moment of a round that is held now, in milliseconds of its own count; `limits` returns its limits. No memory.
    /// The limits are not written again if nothing was subtracted since a round of the same tick was offered.
    pub fn offer(&mut self, now: u64) -> u64
        ensures round { self.new ≡ offer_round (tick_of now) self.old }
        ensures handed { self.new.offered ≡ left_rates self.new }
        ensures moment { result ≡ self.new.moment }
    {
        let tick = now / TICK_MICROS;
        if tick < self.begun && self.is_handed {
            self.moment = self.moment.saturating_add(1_000);
            return self.moment;
        }
        self.begin(tick);
        self.hand_in();
        self.moment
    }

    /// The limits of the round that was offered last.
    pub fn limits(&self) -> &Limits<A>
        ensures limits { result.now ≡ self.now.offered }
    {
        &self.offered
    }

    // Subtracts octets of a way from what is left under the rates of the server and of the way.
    fn take_line(&mut self, way: Way, octets: u64)
        ensures taken { self.new ≡ take_from_line way octets self.old }
    {
        let server = take_row(self.server, octets);
        let down = take_if_down(self.down, way, octets);
        let up = take_if_up(self.up, way, octets);
        let is_same = server == self.server && down == self.down && up == self.up;
        self.is_handed = self.is_handed && is_same;
        self.server = server;
        self.down = down;
        self.up = up;
    }

    /// Subtracts octets granted to a user from what is left under the rates of the server, the way, the user and their
    /// group, and `own` of them from what each session of the user has left and is owed at least: that by which the
    /// session has been granted more in this round than any session of the user before.
    pub fn took(&mut self, way: Way, user: u32, octets: u64, own: u64)
        ensures taken { self.new ≡ take_octets way user octets own self.old }
    {
        let group = group_of(&self.users, user);
        self.take_line(way, octets);
        let same_groups = take_groups(&mut self.groups, &mut self.quiet_groups, group, way, octets);
        let same_users = take_users(
            &mut self.users,
            &mut self.quiet_users,
            user,
            way,
            octets,
            own,
        );
        self.is_handed = self.is_handed && same_groups && same_users;
    }

    /// The earliest moment of the next round: at once if it is the first of its tick or something can be granted;
    /// otherwise the start of the next tick.
    pub fn due(&self, now: u64) -> Due
        ensures due { result ≡ due_in self.now now }
    {
        if self.begun <= now / TICK_MICROS {
            return Due::Now;
        }
        if is_dry(self.server) || is_dry(self.down) && is_dry(self.up) {
            return Due::At(self.begun.saturating_mul(TICK_MICROS));
        }
        Due::Now
    }

    /// The earliest moment of the next round for a transfer of a user: at once if it is the first of its tick or
    /// something can be granted to that transfer; otherwise the start of the next tick.
    pub fn due_for(&self, way: Way, user: u32, now: u64) -> Due
        ensures due { result ≡ due_for_in way user self.now now }
    {
        if self.begun <= now / TICK_MICROS {
            return Due::Now;
        }
        let group = group_of(&self.users, user);
        if is_dry(self.server)
            || is_dry(credit_of(self.down, self.up, way))
            || is_user_spent(&self.users, user, way)
            || is_group_spent(&self.groups, group, way)
        {
            let next = self.begun.saturating_mul(TICK_MICROS);
            return Due::At(next);
        }
        Due::Now
    }

    /// The credits of the rates that a user's transfer is within, as they are now.
    pub fn rows_of(&self, way: Way, user: u32) -> TransferRows
        ensures rows { result ≡ rows_of way user self.now }
    {
        let group_number = group_of(&self.users, user);
        TransferRows {
            server: self.server,
            way: credit_of(self.down, self.up, way),
            group: group_credit(&self.groups, group_number, way),
            user: user_credit(&self.users, user, way),
            session: session_credit(&self.users, user, way),
            group_number,
            floor: user_floor(&self.users, user, way),
        }
    }
}
