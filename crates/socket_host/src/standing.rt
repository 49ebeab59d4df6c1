//! The user of a session, and the terms that it holds.

ghost use Rattle.std.specs.Prelude.{◌≡◌, ◌⊎◌, [], false, not, string_bytes, true};
ghost use Rattle.std.specs.Arc.{arc_value};
ghost use Rattle.socket_host.specs.Standing.{is_user, number_of};

use authorizer::Authorizer;
use server_house::{HeldTerms, Terms};
use std::alloc::Global;

/// The user of a session, and the terms by which it goes. Whoever is logged in keeps the terms of the login; a session
/// without a user has those in force.
#[derive(Drop)]
pub(crate) struct Standing {
    held: HeldTerms,
    // number of exchanges of terms when they were last compared
    seen: u64,
    is_inside: bool,
    is_removed: bool,
    // the name of the user who was logged in last, and the number by which rounds identify them
    name: String,
    user: u32,
}

// The number of a user; 0 for no user.
pub(crate) fn number_of(users: &Authorizer, name: &str) -> u32
    ensures number { result ≡ number_of users.now.users name.now }
{
    match users.number(name) {
        Some(number) => number,
        None => 0,
    }
}

// Returns whether a user of this name has this number.
fn is_user(users: &Authorizer, name: &str, number: u32) -> bool
    ensures user { result ≡ is_user users.now.users name.now number }
{
    users.number(name) == Some(number)
}

// A copy of a name; empty if memory runs out.
fn copy_name(alloc: Global, name: &str) -> String
    ensures name { (string_bytes result ≡ name.now) ⊎ (string_bytes result ≡ []) }
{
    match String::from_str(alloc, name) {
        Ok(name) => name,
        Err(_) => String::new(alloc),
    }
}

impl Standing {
    /// Nobody yet, by these terms.
    pub fn new(alloc: Global, held: HeldTerms) -> Standing
        ensures held { result.held ≡ held }
        ensures seen { result.seen ≡ held.exchanges }
        ensures outside { result.is_inside ≡ false }
        ensures removed { result.is_removed ≡ false }
    {
        let seen = held.exchanges();
        Standing {
            held,
            seen,
            is_inside: false,
            is_removed: false,
            name: String::new(alloc),
            user: 0,
        }
    }

    /// The terms.
    pub fn terms(&self) -> &Terms
        ensures terms { result.now ≡ arc_value self.now.held.terms }
    {
        self.held.terms()
    }

    /// The name of the user who was logged in last.
    pub fn name(&self) -> &str
        ensures name { result.now ≡ string_bytes self.now.name }
    {
        self.name.as_str()
    }

    /// Their number.
    pub fn user(&self) -> u32
        ensures user { result ≡ self.now.user }
    {
        self.user
    }

    /// Returns whether the user who is logged in is none by the terms in force.
    pub fn is_removed(&self) -> bool
        ensures removed { result ≡ self.now.is_removed }
    {
        self.is_removed
    }

    /// Notes a login: the user has the number that the terms have for the name. Without memory the name is empty.
    pub fn log_in(&mut self, alloc: Global, name: &str)
        ensures user { self.new.user
            ≡ number_of (arc_value self.old.held.terms).users.users name.now }
        ensures name { (string_bytes self.new.name ≡ name.now)
            ⊎ (string_bytes self.new.name ≡ []) }
        ensures held { self.new.held ≡ self.old.held }
        ensures seen { self.new.seen ≡ self.old.seen }
        ensures inside { self.new.is_inside ≡ true }
        ensures removed { self.new.is_removed ≡ false }
    {
        self.user = number_of(&self.held.terms().users, name);
        self.name = copy_name(alloc, name);
        self.is_inside = true;
        self.is_removed = false;
    }

    /// Notes that the user has left.
    pub fn log_out(&mut self)
        ensures user { (self.new.user ≡ self.old.user) × (self.new.name ≡ self.old.name) }
        ensures held { self.new.held ≡ self.old.held }
        ensures seen { self.new.seen ≡ self.old.seen }
        ensures inside { self.new.is_inside ≡ false }
        ensures removed { self.new.is_removed ≡ false }
    {
        self.is_inside = false;
        self.is_removed = false;
    }

    /// Returns whether the terms in force, after this number of exchanges, are still to be compared.
    pub fn is_behind(&self, exchanges: u64) -> bool
        ensures seen { result ≡ false → self.now.seen ≡ exchanges }
        ensures held { result ≡ false → self.now.is_inside ≡ false
            → self.now.held.exchanges ≡ exchanges }
    {
        self.seen != exchanges || !self.is_inside && self.held.exchanges() != exchanges
    }

    /// Notes of a user who is logged in whether they are none of these users, who are in force.
    pub fn judge(&mut self, users: &Authorizer)
        ensures judged { self.old.is_inside ≡ true → self.new.is_removed
            ≡ not (is_user users.now.users (string_bytes self.old.name) self.old.user) }
        ensures stays { self.old.is_inside ≡ false → self.new.is_removed ≡ self.old.is_removed }
        ensures user { (self.new.user ≡ self.old.user) × (self.new.name ≡ self.old.name) }
        ensures inside { self.new.is_inside ≡ self.old.is_inside }
        ensures held { self.new.held ≡ self.old.held }
        ensures seen { self.new.seen ≡ self.old.seen }
    {
        if self.is_inside {
            self.is_removed = !is_user(users, self.name.as_str(), self.user);
        }
    }

    /// Takes the terms in force: a session without a user holds them from now on, unless it is to keep those that it has.
    pub fn take(&mut self, newest: HeldTerms, keeps: bool)
        ensures kept { self.old.is_inside ≡ true → self.new.held ≡ self.old.held }
        ensures keeps { keeps ≡ true → self.new.held ≡ self.old.held }
        ensures taken { keeps ≡ false → self.old.is_inside ≡ false → self.new.held ≡ newest }
        ensures seen { self.new.seen ≡ newest.exchanges }
        ensures user { (self.new.user ≡ self.old.user) × (self.new.name ≡ self.old.name) }
        ensures inside { self.new.is_inside ≡ self.old.is_inside }
        ensures removed { self.new.is_removed ≡ self.old.is_removed }
    {
        self.seen = newest.exchanges();
        if !keeps && !self.is_inside {
            self.held = newest;
        }
    }
}
