//! Numbers by place.

ghost use Rattle.std.specs.Prelude.{◌≡◌, ◌<◌, ◌^◌, ℕ, Some, None, true, IfOk, length, map, filter, nat_eq, vec_len, slice_index_or};
ghost use Rattle.std.specs.List.{position_from};
ghost use Rattle.std.specs.Option.{is_some};
ghost use Rattle.limit_tree.specs.Outline.{is_leaf_kind};
ghost use Rattle.sheet_text.specs.Rows.{AreBelow};
ghost use Rattle.sheet_text.specs.Table.{mention_at};

use crate::node::{Nodes, is_leaf};
use std::alloc::{AllocError, Allocator};

/// The places of an order that are wants.
pub(crate) fn leaf_places<'t, A: Allocator>(
    alloc: A,
    nodes: &Nodes<'t, A>,
    order: &[usize],
) -> Result<Vec<usize, A>, AllocError>
    requires below { AreBelow (length nodes.now) order.now }
    ensures leaves { IfOk result
        (λ leaves. leaves.items
        ≡ filter (λ place. is_leaf_kind (mention_at nodes.now place).kind) order.now) }
{
    let mut leaves = Vec::new(alloc);
    for place in order {
        if is_leaf(nodes.kind(*place)) {
            leaves.push(*place)?;
        }
    }
    Ok(leaves)
}

/// For each place below a count, its first number in an order, if it is in that order.
pub(crate) fn number_places<A: Allocator>(
    alloc: A,
    order: &[usize],
    count: usize,
) -> Result<Vec<Option<u32>, A>, AllocError>
    requires below { AreBelow count order.now }
    requires few { length order.now < 2 ^ 32 }
    ensures length { IfOk result (λ numbers. vec_len numbers ≡ count) }
    ensures numbers { IfOk result (λ numbers. (place : ℕ) → place < count
        → slice_index_or numbers.items place None ≡ position_from (nat_eq place) 0 order.now) }
{
    let mut numbers = Vec::new(alloc);
    numbers.resize(count, None)?;
    for (number, place) in order.iter().enumerate() {
        if numbers[*place].is_none() {
            numbers[*place] = Some(number as u32);
        }
    }
    Ok(numbers)
}

/// The numbers of places that all have one.
pub(crate) fn numbers_at<A: Allocator>(
    alloc: A,
    places: &[usize],
    numbers: &[Option<u32>],
) -> Result<Vec<usize, A>, AllocError>
    requires below { AreBelow (length numbers.now) places.now }
    requires there { (k : ℕ) → k < length places.now
        → is_some (slice_index_or numbers.now (slice_index_or places.now k 0) None) ≡ true }
    ensures numbers { IfOk result
        (λ found. map Some found.items
        ≡ map (λ place. slice_index_or numbers.now place None) places.now) }
{
    let mut found = Vec::new(alloc);
    for place in places {
        match numbers[*place] {
            Some(number) => found.push(number as usize)?,
            None => unreachable!(),
        }
    }
    Ok(found)
}
