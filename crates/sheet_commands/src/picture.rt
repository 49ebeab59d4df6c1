//! Drawing the sharing of a sheet.

ghost use Rattle.std.specs.Prelude.{◌≡◌, ◌≢◌, ℕ, List, Some, IfErr, IfOk, string_bytes};
ghost use Rattle.sheet_text.specs.Views.{IsSheetOf};
ghost use Rattle.sheet_text.specs.Sheet.{sheet_fault};
ghost use Rattle.sheet_commands.specs.Pictures.{IsPictureOf};

use crate::columns::columns_of;
use crate::lids::lids_of;
use crate::order::drawn;
use grant_certificate::Leaves;
use limit_tree::Flat;
use round_allocator::allot;
use sheet_text::{Sheet, SheetFault, read_sheet};
use std::alloc::{AllocError, Allocator};

/// The picture of a sheet that was read.
fn sheet_picture<A: Allocator + Clone>(
    alloc: A,
    sheet: &Sheet<'_, A>,
) -> Result<String<A>, AllocError>
    ensures drawn { IfOk result (λ picture. (text : List ℕ) → IsSheetOf text sheet.now
        → IsPictureOf text (string_bytes picture)) }
{
    let (grants, certificate) = allot(alloc.clone()?, sheet.tree())?;
    let leaves = Leaves::of(sheet.tree());
    let flat = Flat::of(alloc.clone()?, sheet.tree())?;
    let lids = lids_of(alloc.clone()?, &flat)?;
    let entries = certificate.entries();
    let columns = columns_of(alloc.clone()?, sheet, &leaves, &grants, entries, &lids, &[])?;
    let picture = drawn(alloc, &columns)?;
    Ok(picture)
}

/// The picture of the sharing of a sheet, as SVG. The grants are best, and each branch that holds a want back backs it.
pub fn picture_of<A: Allocator + Clone>(alloc: A, text: &[u8]) -> Result<String<A>, SheetFault>
    ensures drawn { IfOk result (λ picture. IsPictureOf text.now (string_bytes picture)) }
    ensures sheet { IfErr result
        (λ fault. fault ≢ SheetFault.Memory → sheet_fault text.now ≡ Some fault) }
{
    let sheet = read_sheet(alloc.clone()?, text)?;
    let picture = sheet_picture(alloc, &sheet)?;
    Ok(picture)
}
