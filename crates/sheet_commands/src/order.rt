//! Columns in the order of the picture.

ghost use Rattle.std.specs.Prelude.{IfOk, string_bytes};
ghost use Rattle.sheet_commands.specs.Columns.{IsOrdered};
ghost use Rattle.sheet_commands.specs.Pictures.{IsDrawn};

use crate::column::{Column, rank_of};
use crate::frame::placed_of;
use crate::svg::picture_text;
use std::alloc::{AllocError, Allocator};

/// The columns, sorted by their users, and those of one user by the number of the node that holds each back, those that
/// none holds back last; those of one number in the order that they had.
fn sorted_of<'a, A: Allocator>(
    alloc: A,
    columns: &[Column<'a>],
) -> Result<Vec<Column<'a>, A>, AllocError>
    ensures ordered { IfOk result (λ v. IsOrdered columns.now v.items) }
{
    let mut sorted = Vec::from_slice(alloc, columns)?;
    sorted.sort_by_key(|column| rank_of(column))?;
    Ok(sorted)
}

/// The picture of columns. Fails if memory runs out.
pub fn drawn<A: Allocator + Clone>(
    alloc: A,
    columns: &[Column<'_>],
) -> Result<String<A>, AllocError>
    ensures drawn { IfOk result (λ text. IsDrawn columns.now (string_bytes text)) }
{
    let sorted = sorted_of(alloc.clone()?, columns)?;
    let placed = placed_of(alloc.clone()?, &sorted)?;
    let text = picture_text(alloc, &placed)?;
    Ok(text)
}
