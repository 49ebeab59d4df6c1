//! Sharing the limits of a sheet.

ghost use Rattle.std.specs.Prelude.{◌≡◌, ◌≢◌, ◌<◌, ◌*◌, ◌^◌, [], ℕ, List, Some, IfErr, IfOk, IfSome, length, option_map, sum, slice_index, slice_index_or, string_bytes};
ghost use Rattle.limit_tree.specs.Outline.{limits};
ghost use Rattle.limit_tree.specs.declared.bounds.TheConstants.{MAX_LEAVES};
ghost use Rattle.round_allocator.specs.Rounds.{IsNamed};
ghost use Rattle.sheet_text.specs.Paths.{written};
ghost use Rattle.sheet_text.specs.Views.{IsSheetOf};
ghost use Rattle.sheet_commands.specs.ShareLines.{share_line, share_lines, total};
ghost use Rattle.sheet_commands.specs.Sharing.{IsSharingOf, leaf_line, sharing_text};
ghost use Rattle.sheet_text.specs.Sheet.{sheet_fault};

use crate::share_lines::{Share, lines_of};
use grant_certificate::Leaves;
use round_allocator::allot;
use sheet_text::{Sheet, SheetFault, read_sheet};
use std::alloc::{AllocError, Allocator};

/// The path of the node in an entry.
fn path_of<'t, A: Allocator>(sheet: &Sheet<'t, A>, entry: Option<u32>) -> Option<&'t str>
    requires node { IfSome entry (λ node. node < length sheet.now.outline) }
    ensures path { option_map (λ path. path.now) result
        ≡ option_map (λ node. written (slice_index_or sheet.now.paths node [])) entry }
{
    match entry {
        Some(node) => Some(sheet.path(node as usize)),
        None => None,
    }
}

/// The want and the grant of a leaf.
fn share_of<'t, A: Allocator>(
    sheet: &Sheet<'t, A>,
    wants: &[u64],
    grants: &[u64],
    entries: &[Option<u32>],
    leaf: usize,
) -> Share<'t>
    requires wants { wants.now ≡ (limits sheet.now.outline).wants }
    requires grants { length grants.now ≡ length wants.now }
    requires leaves { length sheet.now.leaves ≡ length wants.now }
    requires named { IsNamed (limits sheet.now.outline) grants.now entries.now }
    requires leaf { leaf < length grants.now }
    ensures line { share_line result ≡ leaf_line sheet.now grants.now entries.now leaf }
    ensures grant { result.grant ≡ slice_index grants.now leaf }
{
    Share {
        path: sheet.leaf_path(leaf),
        grant: grants[leaf],
        want: wants[leaf],
        full: path_of(sheet, entries[leaf]),
    }
}

/// The grants of the wants of a sheet, in the order of their lines.
pub(crate) fn shares_of<'t, A: Allocator, B: Allocator>(
    alloc: B,
    sheet: &Sheet<'t, A>,
    wants: &[u64],
    grants: &[u64],
    entries: &[Option<u32>],
) -> Result<Vec<Share<'t>, B>, AllocError>
    requires wants { wants.now ≡ (limits sheet.now.outline).wants }
    requires grants { length grants.now ≡ length wants.now }
    requires leaves { length sheet.now.leaves ≡ length wants.now }
    requires named { IsNamed (limits sheet.now.outline) grants.now entries.now }
    requires few { MAX_LEAVES * sum grants.now < 2 ^ 64 }
    ensures lines { IfOk result
        (λ shares. share_lines shares.items ≡ sharing_text sheet.now grants.now entries.now) }
    ensures fits { IfOk result (λ shares. total shares.items < 2 ^ 64) }
{
    let leaves = sheet.wants();
    let mut shares = Vec::with_capacity(alloc, leaves.len())?;
    for leaf in leaves {
        let share = share_of(sheet, wants, grants, entries, *leaf);
        shares.push(share)?;
    }
    Ok(shares)
}

/// The lines of the sharing of a sheet that was read.
fn sharing_lines<A: Allocator + Clone>(
    alloc: A,
    sheet: &Sheet<'_, A>,
) -> Result<String<A>, AllocError>
    ensures shared { IfOk result (λ lines. (text : List ℕ) → IsSheetOf text sheet.now
        → IsSharingOf text (string_bytes lines)) }
{
    let (grants, certificate) = allot(alloc.clone()?, sheet.tree())?;
    let leaves = Leaves::of(sheet.tree());
    let shares = shares_of(
        alloc.clone()?,
        sheet,
        leaves.wants(),
        &grants,
        certificate.entries(),
    )?;
    let lines = lines_of(alloc, &shares)?;
    Ok(lines)
}

/// The lines of the sharing of a sheet: one for each want, in the order of the sheet, and last the total. The grants
/// are best, and each branch that a line names as full backs its leaf.
pub fn sharing_of<A: Allocator + Clone>(alloc: A, text: &[u8]) -> Result<String<A>, SheetFault>
    ensures shared { IfOk result (λ lines. IsSharingOf text.now (string_bytes lines)) }
    ensures sheet { IfErr result
        (λ fault. fault ≢ SheetFault.Memory → sheet_fault text.now ≡ Some fault) }
{
    let sheet = read_sheet(alloc.clone()?, text)?;
    let lines = sharing_lines(alloc, &sheet)?;
    Ok(lines)
}
