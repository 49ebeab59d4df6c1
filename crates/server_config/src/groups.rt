//! The numbers of groups, by their names.

ghost use Rattle.std.specs.Prelude.{◌≡◌, ◌<◌, ◌^◌, cond, IfErr, IfOk, OnOk, Some, None, ℕ, List, bytes_eq};
ghost use Rattle.server_config.specs.Groups.{AreNumbers, AreApart, IsFault, IsFaultOfNext, number_by};
ghost use Rattle.config_file.specs.declared.stated.UserTable.{UserTable};

use crate::group_problem::{GroupProblem, fault_of};
use config_file::{Fault, GroupTable, TableName};
use std::alloc::Global;
use std::collections::BTreeMap;

/// The numbers of groups, by their names.
pub(crate) type Numbers = BTreeMap<String, u32>;

/// The number of the group of a name.
pub(crate) fn number_of(numbers: &Numbers, name: &str) -> Option<u32>
    ensures number { result ≡ number_by numbers.now name.now }
{
    numbers.get(name).copied()
}

/// Numbers the group at an index of the file.
fn number_next<'a>(
    alloc: Global,
    numbers: &mut Numbers,
    index: usize,
    group: &GroupTable<'a>,
) -> Result<(), Fault<'a, GroupProblem>>
    requires within { index < 2 ^ 63 }
    ensures refused { IfErr result (IsFaultOfNext numbers.old index group.now.name.now) }
    ensures first { OnOk result (number_by numbers.old group.now.name.now ≡ None) }
    ensures next { OnOk result ((name : List ℕ)
        → number_by numbers.new name
        ≡ cond (bytes_eq group.now.name.now name) (Some index) (number_by numbers.old name)) }
{
    if number_of(numbers, group.name).is_some() {
        return Err(fault_of(TableName::Group, index, group.name, GroupProblem::Twice));
    }
    let Ok(number) = u32::try_from(index) else {
        return Err(fault_of(TableName::Group, index, group.name, GroupProblem::NoNumber));
    };
    let name = String::from_str(alloc, group.name)?;
    numbers.insert(name, number)?;
    Ok(())
}

/// Numbers groups in the order of the file, from 0.
pub(crate) fn number_groups<'a>(
    alloc: Global,
    groups: &[GroupTable<'a>],
) -> Result<Numbers, Fault<'a, GroupProblem>>
    ensures numbers { IfOk result (AreNumbers groups.now) }
    ensures apart { OnOk result (AreApart groups.now) }
    ensures refused { (users : List UserTable) → IfErr result (IsFault groups.now users) }
{
    let mut numbers = BTreeMap::new(alloc);
    for (index, group) in groups.iter().enumerate() {
        number_next(alloc, &mut numbers, index, group)?;
    }
    Ok(numbers)
}
