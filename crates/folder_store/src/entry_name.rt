//! The name of an entry of a directory, as a call of the machine takes it.

ghost use Rattle.std.specs.Prelude.{◌≡◌, []};
ghost use Rattle.libc.specs.Io.{Ended};
ghost use Rattle.virtual_path.specs.Path.{IsName};
ghost use Rattle.folder_store.specs.EntryNames.{c_text};

use libc::PATH_MAX;
use std::marker::Model;

/// The name of an entry of a directory, followed by a NUL. A listing makes one, and sets it to each name in turn.
#[derive(Drop)]
pub struct EntryName {
    octets: [u8; PATH_MAX],
}

impl Model for EntryName {
    ghost use Rattle.std.specs.Prelude.{List, ℕ};
    ghost use Rattle.libc.specs.Io.{Ended};
    ghost use Rattle.folder_store.specs.EntryNames.{c_text};

    ghost Value = { List ℕ };

    ghost view = { λ name. c_text name.octets };

    ghost invariant = { λ name. Ended name.octets };
}

impl EntryName {
    /// No name yet.
    pub fn new() -> EntryName
        ensures { result ≡ [] }
    {
        EntryName {
            octets: [0; PATH_MAX],
        }
    }

    /// Becomes a name that a path may have.
    pub fn set(&mut self, name: &str)
        requires { IsName name.now }
        ensures { self.new ≡ name.now }
    {
        let end = name.len();
        self.octets[..end].copy_from_slice(name.as_bytes());
        self.octets[end] = 0;
    }

    /// The name.
    pub fn text(&self) -> &[u8]
        ensures { result.now ≡ self.now }
    {
        let end = os::name_length(&self.octets);
        &self.octets[..end]
    }

    /// The same, as the C library takes it.
    pub(crate) fn c_string(&self) -> &[u8; PATH_MAX]
        ensures ended { Ended result.now }
        ensures text { c_text result.now ≡ self.now }
    {
        &self.octets
    }
}
