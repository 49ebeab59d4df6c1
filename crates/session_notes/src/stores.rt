//! The words of changes and faults of a store.

ghost use Rattle.std.specs.Prelude.{◌≡◌};
ghost use Rattle.session_notes.specs.Stores.{IsTextOf, fault_words, level_of_record, path_in, path_to, record_words};

use log::Level;
use recorded_store::StoreRecord;
use std::fmt;
use virtual_path::VPath;
use virtual_tree::StoreFault;

fn fault_words(fault: StoreFault) -> &'static str
    ensures words { result.now ≡ fault_words fault }
{
    match fault {
        StoreFault::Device => "fault of the machine",
        StoreFault::Memory => "out of memory",
        StoreFault::Full => "the storage is full",
        _ => "refused",
    }
}

/// The words for a call of a store.
pub(crate) fn record_words(record: &StoreRecord) -> &'static str
    ensures words { result.now ≡ record_words record.now }
{
    match record {
        StoreRecord::OpenedToRead(_) => "opened to read",
        StoreRecord::OpenedToWrite(_) => "opened to write",
        StoreRecord::MadeDir(_) => "made directory",
        StoreRecord::RemovedDir(_) => "removed directory",
        StoreRecord::RemovedFile(_) => "deleted",
        StoreRecord::Renamed(_, _) => "renamed",
        StoreRecord::Refused(fault) => fault_words(*fault),
    }
}

fn text_of(path: &Option<VPath>) -> Option<&str>
    ensures text { IsTextOf path.now result }
{
    match path {
        Some(path) => Some(path.text()),
        None => None,
    }
}

/// The text of the path that a call was about, if there is one and it is known.
pub(crate) fn path_in(record: &StoreRecord) -> Option<&str>
    ensures path { IsTextOf (path_in record.now) result }
{
    match record {
        StoreRecord::OpenedToRead(path) | StoreRecord::OpenedToWrite(path) => text_of(path),
        StoreRecord::MadeDir(path) | StoreRecord::RemovedDir(path) => text_of(path),
        StoreRecord::RemovedFile(path) | StoreRecord::Renamed(path, _) => text_of(path),
        StoreRecord::Refused(_) => None,
    }
}

/// The text of the path to which an entry was moved.
pub(crate) fn path_to(record: &StoreRecord) -> Option<&str>
    ensures path { IsTextOf (path_to record.now) result }
{
    match record {
        StoreRecord::Renamed(_, path) => text_of(path),
        _ => None,
    }
}

/// A fault is a warning.
pub(crate) fn level_of_record(record: &StoreRecord) -> Level
    ensures level { result ≡ level_of_record record.now }
{
    match record {
        StoreRecord::Refused(_) => Level::Warn,
        _ => Level::Info,
    }
}

/// A call of a store: its words, its path or both of them, and the user. Names are in quotation marks, escaped.
#[derive(Clone, Copy)]
pub(crate) struct ChangeText<'a> {
    pub words: &'static str,
    pub path: Option<&'a str>,
    /// The path to which the entry was moved.
    pub to: Option<&'a str>,
    pub user: &'a str,
}

impl fmt::Display for ChangeText<'_> {
    ghost use Rattle.session_notes.specs.Stores.{change_text};

    ghost output = { change_text };

    fn fmt<W: fmt::Write>(&self, f: &mut fmt::Formatter<W>) -> fmt::Result {
        let user = self.user;
        f.write_str(self.words)?;
        if let Some(path) = self.path {
            write!(f, " {path:?}")?;
        }
        if let Some(to) = self.to {
            write!(f, " to {to:?}")?;
        }
        write!(f, ": user {user:?}")
    }
}
