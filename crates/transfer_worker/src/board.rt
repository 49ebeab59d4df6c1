//! A board and its passes.

ghost use Rattle.std.specs.Prelude.{◌≡◌, [], MatchOption, MatchResult};
ghost use Rattle.transfer_worker.specs.Order.{Pushed, Popped, ShowsHeld};

use crate::order::{Hand, InOrder, Put, Take};
use crossbeam_queue::{Pass, RuledArrayQueue};
use std::alloc::{Allocator, Global};
use std::sync::Wait;

/// A board with a fixed number of places, shared by all threads that push and pop.
#[derive(Drop)]
pub struct JobBoard<J, A: Allocator = Global> {
    pub(crate) queue: RuledArrayQueue<J, Hand<J>, InOrder, A>,
}

/// Permission to push to a board and to pop from it, for one thread at a time.
#[derive(Drop)]
pub struct BoardPass<J> {
    pub(crate) pass: Pass<J, Hand<J>>,
    ghost rests: { pass.me.1 ≡ [] },
}

impl<J> BoardPass<J> {
    pub(crate) fn new(pass: Pass<J, Hand<J>>) -> BoardPass<J>
        requires rests { pass.me.1 ≡ [] }
        ensures pass { result.pass ≡ pass }
    {
        BoardPass { pass }
    }
}

impl<J, A: Allocator> JobBoard<J, A> {
    ghost use Rattle.transfer_worker.specs.Boards.{done_by, IsOfBoard, IsSameBoard, places};

    /// Appends a job to those that wait. If the board was full at a moment of the call, returns the job.
    ///
    /// May wait for a thread that is within a call on the same place.
    pub fn push<R: Wait>(&self, rt: &R, pass: &mut BoardPass<J>, job: J) -> Result<(), J>
        requires board { IsOfBoard self.now pass.old }
        ensures board { IsSameBoard pass.old pass.new }
        ensures pushed { MatchResult result
            (λ _. Pushed (done_by pass.old) job (done_by pass.new))
            (λ back. (back ≡ job) × (done_by pass.new ≡ done_by pass.old)
            × ShowsHeld (places self.now) (done_by pass.old)) }
    {
        self.queue.push_as::<Put, R>(rt, &mut pass.pass, job)
    }

    /// Takes the oldest job. Returns `None` only if the board was empty at a moment since the pass last pushed or popped, or
    /// since it was made.
    ///
    /// May wait for a thread that is within a call on the same place.
    pub fn pop<R: Wait>(&self, rt: &R, pass: &mut BoardPass<J>) -> Option<J>
        requires board { IsOfBoard self.now pass.old }
        ensures board { IsSameBoard pass.old pass.new }
        ensures popped { MatchOption result
            ((done_by pass.new ≡ done_by pass.old) × ShowsHeld 0 (done_by pass.old))
            (λ job. Popped (done_by pass.old) job (done_by pass.new)) }
    {
        self.queue.pop_as::<Take, R>(rt, &mut pass.pass)
    }
}
