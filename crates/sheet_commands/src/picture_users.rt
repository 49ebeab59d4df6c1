//! Drawing the sharing of a sheet among users first.

ghost use Rattle.std.specs.Prelude.{ℕ, List, Some, IfErr, IfOk, string_bytes};
ghost use Rattle.sheet_text.specs.Views.{IsSheetOf};
ghost use Rattle.sheet_commands.specs.ShareFaults.{IsUnshared};
ghost use Rattle.sheet_commands.specs.Pictures.{IsUserPictureOf};

use crate::columns::columns_of;
use crate::lids::lids_of;
use crate::order::drawn;
use crate::share_fault::ShareFault;
use depth_users::{DepthFault, allot_at, owners_at};
use grant_certificate::Leaves;
use limit_tree::Flat;
use sheet_text::{Sheet, read_sheet};
use std::alloc::Allocator;

/// The picture of a sheet that was read, among the users of a depth.
fn user_picture<A: Allocator + Clone>(
    alloc: A,
    sheet: &Sheet<'_, A>,
    depth: usize,
) -> Result<String<A>, DepthFault>
    ensures drawn { IfOk result (λ picture. (text : List ℕ) → IsSheetOf text sheet.now
        → IsUserPictureOf depth text (string_bytes picture)) }
{
    let (grants, certificate) = allot_at(alloc.clone()?, sheet.tree(), depth)?;
    let owners = owners_at(alloc.clone()?, sheet.tree(), depth)?;
    let leaves = Leaves::of(sheet.tree());
    let flat = Flat::of(alloc.clone()?, sheet.tree())?;
    let lids = lids_of(alloc.clone()?, &flat)?;
    let entries = certificate.entries();
    let columns = columns_of(
        alloc.clone()?,
        sheet,
        &leaves,
        &grants,
        entries,
        &lids,
        &owners,
    )?;
    let picture = drawn(alloc, &columns)?;
    Ok(picture)
}

/// The picture of the sharing of a sheet among the users of a depth, as SVG: the columns of a user are side by side. The
/// users are the nodes at that depth, and each want above it.
///
/// `Sheet`: the sheet has a fault. `UserTooLarge`: no grants were found that are best among users. `Text(Memory)`: memory
/// ran out.
pub fn picture_at<A: Allocator + Clone>(
    alloc: A,
    text: &[u8],
    depth: usize,
) -> Result<String<A>, ShareFault>
    ensures drawn { IfOk result (λ picture. IsUserPictureOf depth text.now (string_bytes picture)) }
    ensures faults { IfErr result (IsUnshared (Some depth) text.now) }
{
    let sheet = read_sheet(alloc.clone()?, text)?;
    let picture = user_picture(alloc, &sheet, depth)?;
    Ok(picture)
}
