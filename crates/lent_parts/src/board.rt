//! The boards and their passes, as lent to threads.

ghost use Rattle.std.specs.Prelude.{◌≡◌, MatchOption, MatchResult, true, false};
ghost use Rattle.transfer_worker.specs.Boards.{done_by, places};
ghost use Rattle.transfer_worker.specs.Order.{Popped, Pushed, ShowsHeld};
ghost use Rattle.lent_parts.specs.Names.{HasNothing, IsBoardOf, IsFrom, IsPassOf};

use crate::name::PartsName;
use std::marker::PhantomData;
use std::sync::Wait;
use transfer_worker::{BoardPass, JobBoard};

/// The boards with a name, in the memory of the process: that of jobs that go first, and that of all others. Each keeps
/// the order of its pushes.
#[derive(Drop)]
pub struct LentBoard<B: PartsName, J> {
    first: JobBoard<J>,
    board: JobBoard<J>,
    name: PhantomData<B>,
    ghost first_named: { IsBoardOf B.first first },
    ghost named: { IsBoardOf B.board board },
}

/// A pass of each of the boards with a name.
#[derive(Drop)]
pub struct LentPass<B: PartsName, J> {
    pub(crate) first: BoardPass<J>,
    pub(crate) pass: BoardPass<J>,
    name: PhantomData<B>,
    ghost first_named: { IsPassOf B.first first },
    ghost named: { IsPassOf B.board pass },
}

impl<B: PartsName, J> LentPass<B, J> {
    /// The passes of the boards with this name.
    pub fn new(first: BoardPass<J>, pass: BoardPass<J>) -> LentPass<B, J>
        requires first_named { IsPassOf B.first first }
        requires named { IsPassOf B.board pass }
        ensures first { result.first ≡ first }
        ensures pass { result.pass ≡ pass }
    {
        LentPass {
            first,
            pass,
            name: PhantomData,
        }
    }
}

impl<B: PartsName, J> LentBoard<B, J> {
    /// The boards with this name.
    pub fn new(first: JobBoard<J>, board: JobBoard<J>) -> LentBoard<B, J>
        requires first_named { IsBoardOf B.first first }
        requires named { IsBoardOf B.board board }
        ensures first { result.first ≡ first }
        ensures board { result.board ≡ board }
    {
        LentBoard {
            first,
            board,
            name: PhantomData,
        }
    }

    // Appends a job that goes first, as `JobBoard::push`.
    fn push_first<R: Wait>(&self, rt: &R, pass: &mut LentPass<B, J>, job: J) -> Result<(), J>
        ensures pushed { MatchResult result
            (λ _. Pushed (done_by pass.old.first) job (done_by pass.new.first))
            (λ back. (back ≡ job) × (done_by pass.new.first ≡ done_by pass.old.first)
            × ShowsHeld (places self.now.first) (done_by pass.old.first)) }
        ensures others { done_by pass.new.pass ≡ done_by pass.old.pass }
    {
        self.first.push(rt, &mut pass.first, job)
    }

    // Appends a job to all others, as `JobBoard::push`.
    fn push_other<R: Wait>(&self, rt: &R, pass: &mut LentPass<B, J>, job: J) -> Result<(), J>
        ensures pushed { MatchResult result
            (λ _. Pushed (done_by pass.old.pass) job (done_by pass.new.pass))
            (λ back. (back ≡ job) × (done_by pass.new.pass ≡ done_by pass.old.pass)
            × ShowsHeld (places self.now.board) (done_by pass.old.pass)) }
        ensures first { done_by pass.new.first ≡ done_by pass.old.first }
    {
        self.board.push(rt, &mut pass.pass, job)
    }

    /// Appends a job to those that wait on one of the boards, as `JobBoard::push`: to those that go first, or to all others.
    pub fn push<R: Wait>(
        &self,
        rt: &R,
        pass: &mut LentPass<B, J>,
        job: J,
        goes_first: bool,
    ) -> Result<(), J>
        ensures first { goes_first ≡ true → MatchResult result
            (λ _. Pushed (done_by pass.old.first) job (done_by pass.new.first))
            (λ back. (back ≡ job) × (done_by pass.new.first ≡ done_by pass.old.first)
            × ShowsHeld (places self.now.first) (done_by pass.old.first)) }
        ensures first_alone { goes_first ≡ true
            → done_by pass.new.pass ≡ done_by pass.old.pass }
        ensures other { goes_first ≡ false → MatchResult result
            (λ _. Pushed (done_by pass.old.pass) job (done_by pass.new.pass))
            (λ back. (back ≡ job) × (done_by pass.new.pass ≡ done_by pass.old.pass)
            × ShowsHeld (places self.now.board) (done_by pass.old.pass)) }
        ensures other_alone { goes_first ≡ false
            → done_by pass.new.first ≡ done_by pass.old.first }
    {
        if goes_first {
            self.push_first(rt, pass, job)
        } else {
            self.push_other(rt, pass, job)
        }
    }

    /// Takes the oldest job of those that go first, and only if there is none the oldest of all others, as `JobBoard::pop`.
    pub fn pop<R: Wait>(&self, rt: &R, pass: &mut LentPass<B, J>) -> Option<J>
        ensures popped { MatchOption result
            (HasNothing pass.old.first pass.new.first × HasNothing pass.old.pass pass.new.pass)
            (λ job. IsFrom job pass.old.first pass.new.first pass.old.pass pass.new.pass) }
    {
        match self.first.pop(rt, &mut pass.first) {
            Some(job) => Some(job),
            None => self.board.pop(rt, &mut pass.pass),
        }
    }
}
