//! Problems of the served store.

use std::fmt;
use thiserror::Error;
use virtual_path::PathFault;
use virtual_tree::StoreFault;

/// A problem of the served store.
#[derive(Clone, Copy, Debug, PartialEq, Eq, Error)]
pub enum StoreProblem {
    /// The last port of passive connections is below the first.
    #[error("passive_last is below passive_first")]
    EmptyRange,
    /// The text is no path.
    #[error("path: {0}")]
    Path(PathFault),
    /// The store refuses to make the directory or the file.
    #[error("{}", Refusal(*.0))]
    Store(StoreFault),
}

/// The store's refusal of a row, as it is shown: what is wrong in the file, and a remedy.
#[derive(Clone, Copy)]
struct Refusal(StoreFault);

impl fmt::Display for Refusal {
    fn fmt<W: fmt::Write>(&self, f: &mut fmt::Formatter<W>) -> fmt::Result {
        f.write_str(match self.0 {
            StoreFault::NotFound => {
                "its parent directory is missing; write a [[dir]] row for it first"
            }
            StoreFault::NotDir => "its path leads through a file, not a directory",
            StoreFault::IsDir => "a directory has that path; choose another for the file",
            StoreFault::Exists => "a directory has that path already; remove this row",
            StoreFault::Full => "the files have more octets than `capacity`; raise it",
            other => return write!(f, "{other}"),
        })
    }
}
