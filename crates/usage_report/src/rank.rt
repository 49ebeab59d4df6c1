//! The rows of a report, the one with the most octets first.

ghost use Rattle.std.specs.Prelude.{◌≡◌, IfOk, IsPermutation, OnOk, map};
ghost use Rattle.std.specs.List.Sorted.{IsNonDecreasingBy, IsStableByKey};
ghost use Rattle.std.specs.Ordering.{nat_cmp};
ghost use Rattle.usage_report.specs.Ranks.{AreRanked, entry_view, rank, row_view};

use crate::adding::Sums;
use std::alloc::{AllocError, Global};
use std::collections::BTreeMap;

/// The sums of a key.
#[derive(Clone, Copy, Debug, PartialEq, Eq)]
pub struct UsageRow<'m> {
    pub key: &'m str,
    pub sums: Sums,
}

// The rows in the order of their keys.
fn rows_of<'m>(
    alloc: Global,
    rows: &'m BTreeMap<String, Sums>,
) -> Result<Vec<UsageRow<'m>>, AllocError>
    ensures rows { IfOk result
        (λ all. map row_view all.items ≡ map entry_view rows.now.entries) }
{
    let mut all = Vec::new(alloc);
    'entries: for (key, sums) in rows.iter() {
        all.push(UsageRow {
            key: key.as_str(),
            sums: *sums,
        })?;
    }
    Ok(all)
}

fn sort_by_octets(rows: &mut Vec<UsageRow<'_>>) -> Result<(), AllocError>
    ensures same { IsPermutation rows.old.items rows.new.items }
    ensures sorted { OnOk result (IsNonDecreasingBy rank rows.new.items) }
    ensures ties { OnOk result (IsStableByKey rank nat_cmp rows.old.items rows.new.items) }
{
    rows.sort_by_key(|row| u64::MAX - row.sums.octets)
}

/// The rows of all keys, the one with the most octets first, and of those with as many octets the one whose key is less.
pub fn ranked<'m>(
    alloc: Global,
    rows: &'m BTreeMap<String, Sums>,
) -> Result<Vec<UsageRow<'m>>, AllocError>
    ensures ranked { IfOk result (λ all. AreRanked rows.now all.items) }
{
    let mut all = rows_of(alloc, rows)?;
    sort_by_octets(&mut all)?;
    Ok(all)
}
