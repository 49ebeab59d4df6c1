//! The octets that a sink received, for proofs alone.

ghost use Rattle.std.specs.Prelude.{◌≡◌, ℕ, List, [], ◌++◌};
ghost use Rattle.std.specs.Borrow.{ftrue};

use std::marker::{Model, PhantomData};

/// A list of octets that only clauses read. It takes no memory, and its calls do nothing when they run.
#[derive(Drop)]
pub(crate) struct Received {
    marker: PhantomData<u8>,
    pub(crate) ghost octets: { List ℕ },
}

impl Model for Received {
    ghost also_owns = { λ _. ftrue };
}

// It owns nothing.
unsafe impl Send for Received {}

impl Received {
    pub fn new() -> Received
        ensures { result.octets ≡ [] }
    {
        Received {
            marker: PhantomData,
        }
    }

    pub fn add(&mut self, _octets: &[u8])
        ensures { self.new.octets ≡ self.old.octets ++ _octets.now }
    {}
}
