//! Problems of groups.

ghost use Rattle.std.specs.Prelude.{◌<◌, ◌^◌};
ghost use Rattle.server_config.specs.Groups.{IsRowFault};

use config_file::{Fault, Header, TableName};
use thiserror::Error;

/// A problem of a group, or of a user's group.
#[derive(Clone, Copy, Debug, PartialEq, Eq, Error)]
pub enum GroupProblem {
    /// A group before it has the same name.
    #[error("there is a group of that name")]
    Twice,
    /// No group has the name that the user states.
    #[error("there is no group of that name")]
    NoSuchGroup,
    /// All 2^32 numbers of groups, or of users, have been given out.
    #[error("no number is left")]
    NoNumber,
}

/// The fault of the row at an index of its list, from 0.
pub(crate) fn fault_of<'a>(
    table: TableName,
    index: usize,
    name: &'a str,
    problem: GroupProblem,
) -> Fault<'a, GroupProblem>
    requires within { index < 2 ^ 63 }
    ensures fault { IsRowFault table index name.now problem result }
{
    let header = Header::row(table, index, Some(name));
    Fault::At { header, problem }
}
