//! Boards, in one thread and between two. The function with the crate's name is the example in its head.

ghost use Rattle.transfer_worker.specs.Boards.{IsOfBoard};

use super::expect::holds;
use std::sync::Wait;
use std::test::*;
use std::thread;
use std::thread::Threads;
use transfer_worker::{BoardFault, BoardPass, JobBoard, open_board};

#[test]
fn job_board(rt: HostRuntime) -> Result<(), Fail> {
    let (board, mut passes) = open_board(rt.alloc(), 1, 1)?; // room for one job, and one pass
    let pass = &mut passes[0];
    assert!(rt; board.push(&rt, pass, 7u32).is_ok());
    assert!(rt; board.push(&rt, pass, 8) == Err(8)); // full: the job comes back
    assert!(rt; board.pop(&rt, pass) == Some(7));
    assert!(rt; board.pop(&rt, pass).is_none());
    Ok(())
}

/// A miss is not kept by its pass, since another pass may have changed the board.
#[test]
fn a_miss_is_not_kept(rt: HostRuntime) -> Result<(), Fail> {
    let (board, mut passes) = open_board(rt.alloc(), 1, 2)?;
    let (Some(mut one), Some(mut two)) = (passes.pop(), passes.pop()) else {
        panic!(rt; "two passes");
    };
    assert!(rt; board.pop(&rt, &mut one).is_none());
    assert!(rt; board.push(&rt, &mut two, 9u32).is_ok());
    assert!(rt; board.pop(&rt, &mut one) == Some(9));
    assert!(rt; board.push(&rt, &mut one, 7).is_ok());
    assert!(rt; board.push(&rt, &mut one, 8) == Err(8));
    assert!(rt; board.pop(&rt, &mut two) == Some(7));
    assert!(rt; board.push(&rt, &mut one, 8).is_ok());
    assert!(rt; board.pop(&rt, &mut two) == Some(8));
    assert!(rt; board.pop(&rt, &mut two).is_none());
    Ok(())
}

#[test]
fn a_board_has_a_place(rt: HostRuntime) {
    let opened = open_board::<u32, _>(rt.alloc(), 0, 1);
    holds(&rt, opened.err() == Some(BoardFault::BadSize));
}

// Pushes the numbers below `count`, in order, as there is room.
fn put_all<R: Wait>(rt: &R, board: &JobBoard<u32>, pass: &mut BoardPass<u32>, count: u32)
    requires board { IsOfBoard board.now pass.old }
{
    let mut next = 0;
    for _ in rt.forever() {
        if next == count {
            return;
        }
        match board.push(rt, pass, next) {
            Ok(()) => next += 1,
            Err(_) => thread::yield_now(),
        }
    }
}

// Returns whether the numbers below `count` are popped, each once and in order, and then nothing.
fn get_all<R: Wait>(rt: &R, board: &JobBoard<u32>, pass: &mut BoardPass<u32>, count: u32) -> bool
    requires board { IsOfBoard board.now pass.old }
{
    let mut next = 0;
    for _ in rt.forever() {
        if next == count {
            return board.pop(rt, pass).is_none();
        }
        match board.pop(rt, pass) {
            Some(job) => {
                if job != next {
                    return false;
                }
                next += 1;
            }
            None => thread::yield_now(),
        }
    }
    unreachable!()
}

#[test]
fn two_threads_in_order(rt: HostRuntime) -> Result<(), Fail> {
    let (board, mut passes) = open_board(rt.alloc(), 4, 2)?;
    let (Some(mut one), Some(mut two)) = (passes.pop(), passes.pop()) else {
        panic!(rt; "two passes");
    };
    let ((), in_order) = thread::join(
        &rt,
        || put_all(&rt, &board, &mut one, 20_000),
        || get_all(&rt, &board, &mut two, 20_000),
    );
    holds(&rt, in_order);
    Ok(())
}
