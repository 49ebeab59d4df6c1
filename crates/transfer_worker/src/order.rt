//! The rule of a board, and its kinds of steps.

use crossbeam_queue::protocol::{Lesson, Outcome, Protocol, Split};
use std::collections::LinkedList;

/// The operations of one pass: the jobs that it pushed and those that it popped, in order. Exists for contracts only;
/// no value is ever made.
pub struct Hand<J> {
    pub pushed: LinkedList<J>,
    pub popped: LinkedList<J>,
}

/// Jobs are popped in the order in which they were pushed, each once.
pub struct InOrder;

impl<J> Protocol<J, Hand<J>> for InOrder {
    ghost use Rattle.std.specs.Prelude.{[]};
    ghost use Rattle.transfer_worker.specs.Order.{hand, Kept};

    ghost holds = { Kept };

    ghost first = { hand [] [] };
}

/// A new pass is split off another. It has done nothing.
pub(crate) struct Cut;

impl<J> Split<Hand<J>> for Cut {
    ghost use Rattle.std.specs.Prelude.{[]};
    ghost use Rattle.transfer_worker.specs.Order.{hand};

    ghost left = { λ v. v };

    ghost right = { λ v. hand [] [] };
}

/// A job is pushed, or the board is found full.
pub(crate) struct Put;

impl<J> Outcome<J, Hand<J>> for Put {
    ghost use Rattle.transfer_worker.specs.Order.{Pushed};

    ghost then = { Pushed };
}

impl<J> Lesson<J, Hand<J>> for Put {
    ghost use Rattle.transfer_worker.specs.Order.{Shows};

    ghost fact = { Shows };
}

/// A job is popped, or the board is found empty.
pub(crate) struct Take;

impl<J> Outcome<J, Hand<J>> for Take {
    ghost use Rattle.transfer_worker.specs.Order.{Popped};

    ghost then = { Popped };
}

impl<J> Lesson<J, Hand<J>> for Take {
    ghost use Rattle.transfer_worker.specs.Order.{Shows};

    ghost fact = { Shows };
}
