//! A desk, as lent to threads.

ghost use Rattle.std.specs.Prelude.{◌≡◌};
ghost use Rattle.lent_parts.specs.Names.{IsNamed};

use crate::name::PartsName;
use lane_desk::Desk;
use std::alloc::{Allocator, Global};
use std::marker::PhantomData;

/// The desk with a name, of the book with the name `N`.
pub struct LentDesk<B: PartsName, N, A: Allocator = Global> {
    desk: Desk<N, A>,
    name: PhantomData<B>,
    ghost named: { IsNamed B.desk B.lanes desk },
}

impl<B: PartsName, N, A: Allocator> LentDesk<B, N, A> {
    /// The desk with this name.
    pub fn new(desk: Desk<N, A>) -> LentDesk<B, N, A>
        requires named { IsNamed B.desk B.lanes desk }
        ensures desk { result.desk ≡ desk }
    {
        LentDesk {
            desk,
            name: PhantomData,
        }
    }

    /// The desk, for calls with its seats.
    pub fn desk(&self) -> &Desk<N, A>
        ensures desk { result.now ≡ self.now.desk }
        ensures named { IsNamed B.desk B.lanes result.now }
    {
        &self.desk
    }

    /// Returns the desk, once no thread has it any more.
    pub fn into_desk(self) -> Desk<N, A>
        ensures desk { result ≡ self.desk }
        ensures named { IsNamed B.desk B.lanes result }
    {
        let LentDesk { desk, name: _ } = self;
        desk
    }
}
