//! Options by which the files of a server are opened.

ghost use Rattle.std.specs.Prelude.{◌≡◌};
ghost use Rattle.folder_store.specs.Options.{reading};
ghost use Rattle.machine_parts.specs.Machine.{log_options, new_file_options};
ghost use Rattle.machine_parts.specs.Rewriting.{IsNewFile};

use std::fs::OpenOptions;
use std::os::unix::fs::OpenOptionsExt;

/// To append to a log, which is created if it is not there, and to read it.
pub fn log_options() -> OpenOptions
    ensures options { result ≡ log_options }
{
    let mut how = OpenOptions::new();
    how.read(true).append(true).create(true);
    how
}

/// To create a file at a path without an entry, without even a link.
pub fn new_file_options() -> OpenOptions
    ensures options { result ≡ new_file_options }
{
    let mut how = OpenOptions::new();
    how.write(true).create_new(true);
    how
}

/// The same, with these permissions.
pub fn new_file_of(mode: u32) -> OpenOptions
    ensures new { IsNewFile result }
{
    let mut how = OpenOptions::new();
    how.mode(mode);
    how.write(true);
    how.create_new(true);
    how
}

/// To read a file that exists.
pub fn reading_options() -> OpenOptions
    ensures options { result ≡ reading }
{
    let mut how = OpenOptions::new();
    how.read(true);
    how
}
