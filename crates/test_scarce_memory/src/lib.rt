//! Heaps with little memory, for tests.
//!
//! ```text
//! let heap = LocalHeap::new(rt.alloc(), HEAP)?;
//! let rest = leave_hole(&rt, &heap, 48)?;
//! let more = Vec::<u8, &LocalHeap>::with_capacity(&heap, 64); // than the hole
//! holds(&rt, more.is_err());
//! drop(rest);
//! holds(&rt, Vec::<u8, &LocalHeap>::with_capacity(&heap, 64).is_ok());
//! ```
#![tactic(auto)]

use linked_list_allocator::LocalHeap;
use std::alloc::AllocError;

/// Size of a test heap, in octets.
pub const HEAP: usize = 16384;

/// Takes everything that a heap has left, in pieces.
fn take_rest<'h>(
    rt: &impl AllocGlobal,
    heap: &'h LocalHeap,
) -> Result<Vec<Vec<u8, &'h LocalHeap>>, AllocError> {
    let mut pieces = Vec::new(rt.alloc());
    for size in [4096, 512, 64, 8] {
        for _ in 0..64 {
            match Vec::with_capacity(heap, size) {
                Ok(piece) => pieces.push(piece)?,
                Err(_) => break,
            }
        }
    }
    Ok(pieces)
}

/// Takes everything that a heap has left, except one hole of some octets.
pub fn leave_hole<'h>(
    rt: &impl AllocGlobal,
    heap: &'h LocalHeap,
    room: usize,
) -> Result<Vec<Vec<u8, &'h LocalHeap>>, AllocError> {
    let hole = Vec::<u8, &'h LocalHeap>::with_capacity(heap, room)?;
    let rest = take_rest(rt, heap)?;
    drop(hole);
    Ok(rest)
}
