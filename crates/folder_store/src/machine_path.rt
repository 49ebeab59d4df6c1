//! Paths of the machine, and the directory kept open on the way.

ghost use Rattle.std.specs.Prelude.{◌≡◌, ◌++◌, ◌∷◌, IfOk, IfSome, OnOk, string_bytes};
ghost use Rattle.folder_store.specs.MachinePaths.{IsOpenText, open_text};

use std::alloc::{AllocError, Allocator};
use std::marker::Model;
use std::os::fd::AsRawFd;

/// A path of the machine. It may go through a directory that is kept open; then it leads to entries
/// of that very directory, even if the directory's name changes.
#[derive(Drop)]
pub(crate) struct MachinePath<D: Drop, A: Allocator> {
    held: Option<D>,
    text: String<A>,
}

impl<D: Drop, A: Allocator> Model for MachinePath<D, A> {
    ghost use Rattle.std.specs.Prelude.{List, ℕ};
    ghost use Rattle.std.specs.String.{string_bytes};

    ghost Value = { List ℕ };

    ghost view = { λ path. string_bytes path.text };
}

impl<D: Drop, A: Allocator> MachinePath<D, A> {
    /// The entry at a path of the machine, by names alone.
    pub fn named(alloc: A, text: &str) -> Result<MachinePath<D, A>, AllocError>
        ensures text { IfOk result (λ path. path ≡ text.now) }
    {
        Ok(MachinePath {
            held: None,
            text: String::from_str(alloc, text)?,
        })
    }

    /// The path.
    pub fn text(&self) -> &str
        ensures text { result.now ≡ self.now }
    {
        self.text.as_str()
    }

    /// Appends a name.
    pub fn push(&mut self, name: &str) -> Result<(), AllocError>
        ensures further { OnOk result (self.new ≡ self.old ++ 47 ∷ name.now) }
    {
        self.text.push('/')?;
        self.text.push_str(name)
    }

    /// Continues through an open directory.
    pub fn hold(&mut self, directory: D, text: String<A>)
        ensures text { self.new ≡ string_bytes text }
    {
        self.held = Some(directory);
        self.text = text;
    }
}

/// The machine's path of a directory that this process has open.
pub(crate) fn open_text<D: AsRawFd, A: Allocator>(
    alloc: A,
    directory: &D,
) -> Result<String<A>, AllocError>
    ensures open { IfOk result (λ text. IsOpenText (string_bytes text)) }
    ensures number { IfOk result (λ text. IfSome (D.raw_fd directory.now)
        (λ number. string_bytes text ≡ open_text number)) }
{
    format!(in alloc; "/proc/self/fd/{}", directory.as_raw_fd())
}
