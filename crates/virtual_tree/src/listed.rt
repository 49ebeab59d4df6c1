//! Entries in listings.

ghost use Rattle.std.specs.Prelude.{IsTrue, string_bytes};
ghost use Rattle.ftp_terms.specs.Lines.{IsLine};
ghost use Rattle.virtual_path.specs.Path.{is_name};

use ftp_terms::Meta;
use std::alloc::{Allocator, Global};

/// An entry of a directory. Its name is one that a path may contain, so it is a one-line text.
#[derive(Debug, Drop)]
pub struct ListedEntry<A: Allocator = Global> {
    pub name: String<A>,
    pub meta: Meta,
    pub ghost named: { IsTrue (is_name (string_bytes name)) },
    pub ghost one_line: { IsLine (string_bytes name) },
}
