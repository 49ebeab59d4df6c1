//! Options by which files are opened.

ghost use Rattle.std.specs.Prelude.{◌≡◌};
ghost use Rattle.folder_store.specs.Options.{reading, creating, creating_to_append, updating, overwriting, updating_at_end, appending};

use std::fs::OpenOptions;

/// To read a file that exists.
pub(crate) fn reading_options() -> OpenOptions
    ensures options { result ≡ reading }
{
    let mut how = OpenOptions::new();
    how.read(true);
    how
}

/// To create a file at a path without an entry, without even a link.
pub(crate) fn creating_options() -> OpenOptions
    ensures options { result ≡ creating }
{
    let mut how = OpenOptions::new();
    how.write(true).create_new(true);
    how
}

/// The same, to append to it.
pub(crate) fn creating_to_append() -> OpenOptions
    ensures options { result ≡ creating_to_append }
{
    let mut how = OpenOptions::new();
    how.append(true).create_new(true);
    how
}

/// To write a file that exists, and read it too.
pub(crate) fn updating_options() -> OpenOptions
    ensures options { result ≡ updating }
{
    let mut how = OpenOptions::new();
    how.read(true).write(true);
    how
}

/// To write a file that exists.
pub(crate) fn overwriting_options() -> OpenOptions
    ensures options { result ≡ overwriting }
{
    let mut how = OpenOptions::new();
    how.write(true);
    how
}

/// To append to a file that exists, and read it too.
pub(crate) fn updating_at_end() -> OpenOptions
    ensures options { result ≡ updating_at_end }
{
    let mut how = OpenOptions::new();
    how.read(true).append(true);
    how
}

/// To append to a file that exists.
pub(crate) fn appending_options() -> OpenOptions
    ensures options { result ≡ appending }
{
    let mut how = OpenOptions::new();
    how.append(true);
    how
}
