//! Sharing the limits of a sheet among users first.

ghost use Rattle.std.specs.Prelude.{ℕ, List, IfErr, IfOk, Some, string_bytes};
ghost use Rattle.sheet_commands.specs.ShareFaults.{IsUnshared};
ghost use Rattle.sheet_commands.specs.Sharing.{IsUserSharingOf};
ghost use Rattle.sheet_text.specs.Views.{IsSheetOf};

use crate::share::shares_of;
use crate::share_fault::ShareFault;
use crate::share_lines::lines_of;
use depth_users::{DepthFault, allot_at};
use grant_certificate::Leaves;
use sheet_text::{Sheet, read_sheet};
use std::alloc::Allocator;

/// The lines of the sharing of a sheet that was read, among the users of a depth.
fn user_lines<A: Allocator + Clone>(
    alloc: A,
    sheet: &Sheet<'_, A>,
    depth: usize,
) -> Result<String<A>, DepthFault>
    ensures shared { IfOk result (λ lines. (text : List ℕ) → IsSheetOf text sheet.now
        → IsUserSharingOf depth text (string_bytes lines)) }
{
    let (grants, certificate) = allot_at(alloc.clone()?, sheet.tree(), depth)?;
    let leaves = Leaves::of(sheet.tree());
    let shares = shares_of(
        alloc.clone()?,
        sheet,
        leaves.wants(),
        &grants,
        certificate.entries(),
    )?;
    let lines = lines_of(alloc, &shares)?;
    Ok(lines)
}

/// The lines of the sharing of a sheet among the users of a depth, as [`sharing_of`](crate::sharing_of) has them. The
/// users are the nodes at that depth, and each want above it. The grants are best among these users, and then among
/// the wants of each.
///
/// `Sheet`: the sheet has a fault. `UserTooLarge`: no such grants were found. `Text(Memory)`: memory ran out.
pub fn sharing_at<A: Allocator + Clone>(
    alloc: A,
    text: &[u8],
    depth: usize,
) -> Result<String<A>, ShareFault>
    ensures shared { IfOk result (λ lines. IsUserSharingOf depth text.now (string_bytes lines)) }
    ensures faults { IfErr result (IsUnshared (Some depth) text.now) }
{
    let sheet = read_sheet(alloc.clone()?, text)?;
    let lines = user_lines(alloc, &sheet, depth)?;
    Ok(lines)
}
