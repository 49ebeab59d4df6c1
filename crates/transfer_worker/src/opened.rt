//! A new board.

ghost use Rattle.std.specs.Prelude.{◌≡◌, ◌≤◌, [], vec_capacity, IfOk, IfErr, ◌↔◌};
ghost use Rattle.crossbeam_queue.specs.Passes.{view, IsPassOf};
ghost use Rattle.transfer_worker.specs.declared.fault.BoardFault.TheVariants.{BadSize};
ghost use Rattle.transfer_worker.specs.Order.{hand};
ghost use Rattle.transfer_worker.specs.Boards.{board_id, places, AreNewPasses};

use crate::board::{BoardPass, JobBoard};
use crate::fault::BoardFault;
use crate::order::{Cut, Hand, InOrder};
use crossbeam_queue::{Pass, RuledArrayQueue};
use std::alloc::Allocator;

// Splits `count` passes off the first one.
fn cut_passes<J, A: Allocator>(
    queue: &RuledArrayQueue<J, Hand<J>, InOrder, A>,
    first: Pass<J, Hand<J>>,
    count: usize,
    passes: &mut Vec<BoardPass<J>, A>,
)
    requires first { IsPassOf queue.now first × (view first ≡ hand [] []) }
    requires passes { (passes.old.items ≡ []) × (count ≤ vec_capacity passes.old) }
    ensures passes { AreNewPasses queue.now.table.shared.table_id count passes.new.items }
{
    let mut first = first;
    for _ in 0..count {
        let pass = queue.another::<Cut>(&mut first);
        passes.push_reserved(BoardPass::new(pass));
    }
}

/// Opens a board with `capacity` places, and its passes. No later call on them allocates.
pub fn open_board<J, A: Allocator + Clone>(
    alloc: A,
    capacity: usize,
    passes: usize,
) -> Result<(JobBoard<J, A>, Vec<BoardPass<J>, A>), BoardFault>
    ensures board { IfOk result (λ opened. places opened.0 ≡ capacity) }
    ensures passes { IfOk result (λ opened.
        AreNewPasses (board_id opened.0) passes opened.1.items) }
    ensures fault { IfErr result (λ fault. (fault ≡ BadSize) ↔ (capacity ≡ 0)) }
{
    if capacity == 0 {
        return Err(BoardFault::BadSize);
    }
    let mut all = Vec::with_capacity(alloc.clone()?, passes)?;
    let (queue, first) = RuledArrayQueue::ruled(alloc, capacity)?;
    cut_passes(&queue, first, passes, &mut all);
    Ok((JobBoard { queue }, all))
}
