//! The names of groups.

ghost use Rattle.std.specs.Prelude.{◌≡◌, IfOk, map, string_bytes};
ghost use Rattle.server_config.specs.Configs.{group_name};

use config_file::GroupTable;
use std::alloc::{AllocError, Global};

/// The names of groups, in their order.
pub(crate) fn group_names(
    alloc: Global,
    groups: &[GroupTable<'_>],
) -> Result<Vec<String>, AllocError>
    ensures names { IfOk result
        (λ names. map string_bytes names.items ≡ map group_name groups.now) }
{
    let mut names = Vec::with_capacity(alloc, groups.len())?;
    for group in groups {
        names.push(String::from_str(alloc, group.name)?)?;
    }
    Ok(names)
}
