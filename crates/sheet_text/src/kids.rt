//! The kids of each node.

ghost use Rattle.std.specs.Prelude.{◌≡◌, ◌<◌, ◌++◌, [], ℕ, Vec, IfOk, OnOk, Some, length, slice_get};
ghost use Rattle.sheet_text.specs.Rows.{AreKidRows, joined};

use crate::node::Nodes;
use std::alloc::{AllocError, Allocator};

/// Makes a row without kids for each of this number of places.
fn empty_rows<A: Allocator + Clone>(
    alloc: A,
    count: usize,
) -> Result<Vec<Vec<usize, A>, A>, AllocError>
    ensures length { IfOk result (λ rows. length rows.items ≡ count) }
    ensures empty { IfOk result (λ rows. (place : ℕ) (row : Vec ℕ A)
        → slice_get rows.items place ≡ Some row → row.items ≡ []) }
{
    let mut rows = Vec::new(alloc.clone()?);
    for _ in 0..count {
        let row = Vec::new(alloc.clone()?);
        rows.push(row)?;
    }
    Ok(rows)
}

/// Puts a kid into the row of its parent.
fn join<A: Allocator>(
    rows: &mut Vec<Vec<usize, A>, A>,
    parent: usize,
    kid: usize,
) -> Result<(), AllocError>
    requires within { parent < length rows.old.items }
    ensures length { OnOk result (length rows.new.items ≡ length rows.old.items) }
    ensures rows { OnOk result ((place : ℕ) (row : Vec ℕ A)
        → slice_get rows.new.items place ≡ Some row → (before : Vec ℕ A)
        × (slice_get rows.old.items place ≡ Some before)
        × (row.items ≡ before.items ++ joined parent kid place)) }
{
    rows[parent].push(kid)?;
    Ok(())
}

impl<'t, A: Allocator + Clone> Nodes<'t, A> {
    /// The places of each place's kids, in order of first mention.
    pub fn kids(&self, alloc: A) -> Result<Vec<Vec<usize, A>, A>, AllocError>
        ensures kids { IfOk result (λ rows. AreKidRows self.now rows) }
    {
        let count = self.len();
        let mut rows = empty_rows(alloc, count)?;
        for place in 1..count {
            join(&mut rows, self.parent(place), place)?;
        }
        Ok(rows)
    }
}
