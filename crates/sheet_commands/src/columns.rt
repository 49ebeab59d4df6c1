//! The columns of a sheet.

ghost use Rattle.std.specs.Prelude.{◌≡◌, ◌<◌, IfOk, IfSome, length, map, option_map, slice_index, take};
ghost use Rattle.limit_tree.specs.Outline.{limits};
ghost use Rattle.round_allocator.specs.Rounds.{IsNamed};
ghost use Rattle.sheet_commands.specs.Columns.{HasLids, column_at, holder_at, seen, seen_holder};

use crate::column::{Column, Holder};
use grant_certificate::Leaves;
use sheet_text::Sheet;
use std::alloc::{AllocError, Allocator};

/// The node in an entry, with its path.
fn holder_of<'t, A: Allocator>(sheet: &Sheet<'t, A>, entry: Option<u32>) -> Option<Holder<'t>>
    requires node { IfSome entry (λ node. node < length sheet.now.outline) }
    ensures holder { option_map seen_holder result
        ≡ option_map (holder_at sheet.now) entry }
{
    match entry {
        Some(node) => Some(Holder {
            node,
            path: sheet.path(node as usize),
        }),
        None => None,
    }
}

/// The user of a leaf; 0 if it has none.
fn user_of(owners: &[u32], leaf: usize) -> u32
    ensures user { result ≡ slice_index owners.now leaf }
{
    if leaf < owners.len() { owners[leaf] } else { 0 }
}

/// The column of a leaf.
fn column_of<'t, A: Allocator>(
    sheet: &Sheet<'t, A>,
    leaves: &Leaves,
    grants: &[u64],
    entries: &[Option<u32>],
    lids: &[Option<u64>],
    owners: &[u32],
    leaf: usize,
) -> Column<'t>
    requires wants { take leaves.now.count leaves.now.wants ≡ (limits sheet.now.outline).wants }
    requires floors { take leaves.now.count leaves.now.floors ≡ (limits sheet.now.outline).floors }
    requires floored { length (limits sheet.now.outline).floors ≡ length grants.now }
    requires grants { length grants.now ≡ length (limits sheet.now.outline).wants }
    requires leaves { length sheet.now.leaves ≡ length grants.now }
    requires named { IsNamed (limits sheet.now.outline) grants.now entries.now }
    requires size { length lids.now ≡ length grants.now }
    requires lids { HasLids sheet.now.outline lids.now }
    requires leaf { leaf < length grants.now }
    ensures column { seen result
        ≡ column_at sheet.now owners.now grants.now entries.now leaf }
{
    Column {
        path: sheet.leaf_path(leaf),
        grant: grants[leaf],
        want: leaves.wants()[leaf],
        floor: leaves.floors()[leaf],
        lid: lids[leaf],
        holder: holder_of(sheet, entries[leaf]),
        user: user_of(owners, leaf),
    }
}

/// The columns of a sheet, in the order of its wants. `owners` has the number of the user of each leaf; without users it
/// is empty.
pub(crate) fn columns_of<'t, A: Allocator, B: Allocator>(
    alloc: B,
    sheet: &Sheet<'t, A>,
    leaves: &Leaves,
    grants: &[u64],
    entries: &[Option<u32>],
    lids: &[Option<u64>],
    owners: &[u32],
) -> Result<Vec<Column<'t>, B>, AllocError>
    requires wants { take leaves.now.count leaves.now.wants ≡ (limits sheet.now.outline).wants }
    requires floors { take leaves.now.count leaves.now.floors ≡ (limits sheet.now.outline).floors }
    requires floored { length (limits sheet.now.outline).floors ≡ length grants.now }
    requires grants { length grants.now ≡ length (limits sheet.now.outline).wants }
    requires leaves { length sheet.now.leaves ≡ length grants.now }
    requires named { IsNamed (limits sheet.now.outline) grants.now entries.now }
    requires size { length lids.now ≡ length grants.now }
    requires lids { HasLids sheet.now.outline lids.now }
    ensures columns { IfOk result (λ v. map seen v.items
        ≡ map (column_at sheet.now owners.now grants.now entries.now) sheet.now.wants) }
{
    let wants = sheet.wants();
    let mut columns = Vec::with_capacity(alloc, wants.len())?;
    for leaf in wants {
        let column = column_of(sheet, leaves, grants, entries, lids, owners, *leaf);
        columns.push(column)?;
    }
    Ok(columns)
}
