//! A reader that returns one line at a time, and takes the memory away before one of them.

use crate::refused::rows::Reply;
use linked_list_allocator::LocalHeap;
use std::io;
use std::io::Read;
use test_scarce_memory::leave_hole;

/// Takes all but one hole of a heap before one of its lines, and frees it before the next.
#[derive(Drop)]
pub(crate) struct ScarceReader<'h, R: AllocGlobal> {
    pub rt: &'h R,
    pub heap: &'h LocalHeap,
    /// The greeting, which has no line, and the lines.
    pub rows: &'h [Reply<'h>],
    /// Number of the row that was read last.
    pub last: usize,
    /// Number of the row at which memory is short.
    pub scarce: usize,
    /// Size of the hole, in octets.
    pub hole: usize,
    pub taken: Vec<Vec<u8, &'h LocalHeap>>,
}

impl<R: AllocGlobal> Read for ScarceReader<'_, R> {
    fn read(&mut self, buffer: &mut [u8]) -> io::Result<usize> {
        self.taken.clear();
        self.last = self.last.saturating_add(1);
        if self.last == self.scarce {
            self.taken = leave_hole(self.rt, self.heap, self.hole)?;
        }
        let Some((line, _, _)) = self.rows.get(self.last) else {
            return Ok(0);
        };
        let octets = line.as_bytes();
        let count = octets.len().min(buffer.len());
        let (front, _) = octets.split_at(count);
        buffer[..count].copy_from_slice(front);
        Ok(count)
    }
}
