//! Locations.

ghost use Rattle.std.specs.Prelude.{◌≡◌};

use std::alloc::{Allocator, Global};
use std::marker::Model;
use virtual_path::VPath;

/// A location: the path as the user sees it, and the path in the store.
#[derive(Drop)]
pub struct Location<A: Allocator = Global> {
    path: VPath<A>,
    stored: VPath<A>,
}

impl<A: Allocator> Model for Location<A> {
    ghost use Rattle.session_table.specs.Judged.{Location};

    ghost Value = { Location };

    ghost view = { λ location. record { path = location.path; stored = location.stored } };
}

impl<A: Allocator> Location<A> {
    pub fn new(path: VPath<A>, stored: VPath<A>) -> Location<A>
        ensures location { result ≡ record { path = path; stored = stored } }
    {
        Location { path, stored }
    }

    /// The user's path.
    pub fn path(&self) -> &VPath<A>
        ensures path { result.now ≡ self.now.path }
    {
        &self.path
    }

    /// The store's path.
    pub fn stored(&self) -> &VPath<A>
        ensures stored { result.now ≡ self.now.stored }
    {
        &self.stored
    }

    /// The user's path.
    pub fn into_path(self) -> VPath<A>
        ensures path { result ≡ self.path }
    {
        self.path
    }

    /// The store's path.
    pub fn into_stored(self) -> VPath<A>
        ensures stored { result ≡ self.stored }
    {
        self.stored
    }
}
