//! The users who are logged in, by their sessions.

ghost use Rattle.std.specs.Prelude.{◌≡◌, None, Some, IfOk, replicate, slice_set, false, true};
ghost use Rattle.server_house.specs.Logins.{has_place, is_of, sessions_of};

use std::alloc::{AllocError, Global};

/// The user of each session that is logged in, by the number of its connection, and the greatest number of sessions of
/// one user.
#[derive(Drop)]
pub struct Logins {
    // 0 is no limit
    most: u32,
    users: Vec<Option<u32>>,
}

// Returns whether a session is one of a user.
fn is_of(user: u32, session: Option<u32>) -> bool
    ensures of { result ≡ is_of user session }
{
    session == Some(user)
}

// Number of the sessions of a user among these.
fn count_of(user: u32, sessions: &[Option<u32>]) -> u64
    ensures count { result ≡ sessions_of user sessions.now }
{
    let mut count = 0u64;
    for session in sessions {
        if is_of(user, *session) {
            count += 1;
        }
    }
    count
}

// Returns whether one more session is within a limit; 0 is no limit.
fn has_place(most: u32, count: u64) -> bool
    ensures place { result ≡ has_place most count }
{
    most == 0 || count < u64::from(most)
}

impl Logins {
    /// Nobody, of this many connections, with at most `most` sessions of one user; 0 is no limit.
    pub fn new(alloc: Global, connections: usize, most: u32) -> Result<Logins, AllocError>
        ensures most { IfOk result (λ logins. logins.most ≡ most) }
        ensures none { IfOk result (λ logins. logins.users.items ≡ replicate connections None) }
    {
        let mut users = Vec::with_capacity(alloc, connections)?;
        for i in 0..connections {
            users.push(None)?;
        }
        Ok(Logins { most, users })
    }

    /// Logs a user in, in the session of a connection, if that is within the limit. Otherwise returns `false` and changes
    /// nothing.
    pub fn log_in(&mut self, connection: usize, user: u32) -> bool
        ensures place { result ≡ has_place self.old.most
            (sessions_of user self.old.users.items) }
        ensures entered { result ≡ true → self.new.users.items
            ≡ slice_set self.old.users.items connection (Some user) }
        ensures unchanged { result ≡ false → self.new.users.items ≡ self.old.users.items }
        ensures most { self.new.most ≡ self.old.most }
    {
        if !has_place(self.most, count_of(user, &self.users)) {
            return false;
        }
        if connection < self.users.len() {
            self.users[connection] = Some(user);
        }
        true
    }

    /// Logs out whoever is logged in, in the session of a connection.
    pub fn log_out(&mut self, connection: usize)
        ensures left { self.new.users.items ≡ slice_set self.old.users.items connection None }
        ensures most { self.new.most ≡ self.old.most }
    {
        if connection < self.users.len() {
            self.users[connection] = None;
        }
    }
}
